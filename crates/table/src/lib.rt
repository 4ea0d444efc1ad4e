// The working form of a configuration: its lines stay in their rows of three areas, and a run of entries has their order. Callers
// of a function with a `requires` have made the table, and tested the polynomials.
#![tactic(auto)]

pub mod order;

ghost use Rattle.std.specs.Prelude.{◌≡◌, not, List, [], ◌++◌, ◌∷◌, suc, ◌*◌, ◌≤◌, ◌<◌, ◌^◌, true, false, T, ◌+ℤ◌, length, take, drop, MatchResult};
ghost use Rattle.std.specs.Int.Signed.{mag};
ghost use Rattle.polynomial.specs.Polynomial.{order_of};
ghost use Rattle.configuration.specs.Configuration.{Line, line, some, weight, add, IsInOrder, place_of, any_negative};
ghost use Rattle.configuration.specs.LineLaws.{IsShort};
ghost use Rattle.table.specs.Rows.{table_at, lines_of, first_key};
ghost use Rattle.table.specs.Table.{IsKept, terms_at, weight_at, first_degree, Located};

use configuration::weight::is_negative;
use mask::shift;
use order::{ahead, key_at, row_at};
use polynomial::Polynomial;
use polynomial::area::write;
use polynomial::order::compare;
use std::cmp::Ordering;
use std::marker::Model;

// Where a polynomial stands, or would stand, and its weight: 0 if it is not held.
#[derive(Clone, Copy)]
pub struct Known {
    pub at: usize,
    pub weight: i64,
}

/// A configuration as the list of its lines: at most `ROWS`, with 64 places of `TERMS` for the terms of each. Four areas and no rows of
/// one struct: a search goes through `order` alone, and `specs/Rows.antt` defines the lines by the areas.
#[derive(Drop)]
pub struct Table<const ROWS: usize, const TERMS: usize> {
    lines: usize,
    order: [u64; ROWS],
    terms: [u32; TERMS],
    weights: [i64; ROWS],
    counts: [u32; ROWS],
}

/// The lines of a configuration.
pub type Lines = Table<128, 8192>;

/// The lines that a step adds.
pub type Changes = Table<4, 256>;

impl<const ROWS: usize, const TERMS: usize> Model for Table<ROWS, TERMS> {
    ghost Value = { List Line };

    ghost view = { λ t. lines_of (table_at t.lines t.order t.terms t.weights t.counts) };

    ghost invariant = { λ t. IsKept ROWS (table_at t.lines t.order t.terms t.weights t.counts) };
}

// A method that calls another on the table reads a field first, if only to let it be: with the invariant the size of the table is
// known, as each call asks.
impl<const ROWS: usize, const TERMS: usize> Table<ROWS, TERMS> {
    // No lines. It is for the crates `checker` and `report`, which make `Lines`, and for `step`, which makes `Changes`.
    pub fn new() -> Self
        requires few { ROWS ≤ 128 }
        requires room { TERMS ≡ 64 * ROWS }
        ensures { result ≡ [] }
    {
        let mut order = [0u64; ROWS];
        for i in 0..ROWS {
            order[i] = i as u64;
        }
        Table {
            lines: 0,
            order,
            terms: [0; TERMS],
            weights: [0; ROWS],
            counts: [0; ROWS],
        }
    }

    // How many lines there are, and what holds of them.
    pub fn len(&self) -> usize
        ensures lines { result ≡ length self.now }
        ensures few { result ≤ ROWS }
        ensures ordered { IsInOrder self.now }
        ensures short { IsShort self.now }
    {
        self.lines
    }

    // The polynomial of the line at a place. It is for this crate, for `replacement`, and for `memory` and `listing`, which read lines
    // one by one.
    pub fn terms(&self, at: usize) -> &[u32]
        requires { at < length self.now }
        ensures line { result.now ≡ terms_at self.now at }
        ensures some { T (some result.now) }
        ensures short { length result.now ≤ 64 }
    {
        let terms = &self.terms[..];
        let here = row_at(&self.order, at);
        let start = 64 * here;
        let end = start + self.counts[here] as usize;
        &terms[start..end]
    }

    // Its weight. It is for the same crates.
    pub fn weight(&self, at: usize) -> i64
        requires { at < length self.now }
        ensures { result ≡ weight_at self.now at }
    {
        self.weights[row_at(&self.order, at)]
    }

    // The key of its first term. It is for the crate `replacement`.
    pub fn key(&self, at: usize) -> u64
        requires { at < length self.now }
        ensures { result ≡ first_key (terms_at self.now at) }
    {
        key_at(&self.order, at)
    }

    // Where a polynomial, not 0, stands beside the line at a place. The key of its first term is given, and the keys are compared
    // first.
    fn order_at(&self, at: usize, f: &[u32], first: u64) -> Ordering
        requires at { at < length self.now }
        requires some { T (some f.now) }
        requires first { first ≡ first_key f.now }
        ensures { result ≡ order_of f.now (terms_at self.now at) }
    {
        if key_at(&self.order, at) < first {
            return Ordering::Less;
        }
        compare(f, self.terms(at))
    }

    // Finds the place of a polynomial, not 0, whose first term has the given key, or else where it would stand: by the keys of the
    // first terms, then from the first line that is not ahead by its key. Few lines share a first term, so that line is looked at
    // first, and each probe reaches twice as far as the one before, at most to the middle of the rest; a search of std's begins in
    // the middle.
    fn find(&self, f: &[u32], first: u64) -> Result<usize, usize>
        requires some { T (some f.now) }
        requires first { first ≡ first_key f.now }
        ensures { MatchResult result (λ at. Located self.now f.now at true) (λ at. Located self.now f.now at false) }
    {
        let mut high = self.lines;
        let mut low = ahead(high, &self.order, first);
        let mut middle = low;
        let mut reach: usize = 0;
        while low < high {
            let side = self.order_at(middle, f, first);
            match side {
                Ordering::Less => {
                    high = middle;
                }
                Ordering::Equal => {
                    return Ok(middle);
                }
                Ordering::Greater => {
                    low = middle + 1;
                }
            }
            middle = low + reach.min((high - low) / 2);
            reach = (2 * reach + 1).min(127);
        }
        Err(low)
    }

    // Where a polynomial, not 0, stands or would stand, and its weight. The key of its first term is given. It is for this crate and
    // `replacement`.
    pub fn look_up(&self, f: &[u32], first: u64) -> Known
        requires some { T (some f.now) }
        requires first { first ≡ first_key f.now }
        ensures at { result.at ≡ place_of f.now self.now }
        ensures weight { result.weight ≡ weight self.now f.now }
    {
        let _ = &self.lines;
        match self.find(f, first) {
            Ok(at) => Known {
                at,
                weight: self.weight(at),
            },
            Err(at) => Known { at, weight: 0 },
        }
    }

    // The weight of a polynomial, not 0: 0 if it is not held. It is for the crates `step` and `derivation`.
    pub fn weight_of(&self, f: &[u32]) -> i64
        requires { T (some f.now) }
        ensures { result ≡ weight self.now f.now }
    {
        let _ = &self.lines;
        let first = term::key(f[0]);
        self.look_up(f, first).weight
    }

    // Puts a line, whose first term has the given key, in at a place, in the first row that is free.
    fn insert(&mut self, at: usize, f: &[u32], first: u64, weight: i64)
        requires at { at ≤ length self.old }
        requires room { length self.old < ROWS }
        requires some { T (some f.now) }
        requires short { length f.now ≤ 64 }
        requires first { first ≡ first_key f.now }
        requires ordered { IsInOrder (take at self.old ++ line f.now weight ∷ drop at self.old) }
        ensures { self.new ≡ take at self.old ++ line f.now weight ∷ drop at self.old }
    {
        let lines = self.lines;
        let here = row_at(&self.order, lines);
        shift::insert(&mut self.order, lines, at, 128 * first + (here as u64));
        write(&mut self.terms, 64 * here, f);
        self.weights[here] = weight;
        self.counts[here] = f.len() as u32;
        self.lines = lines + 1;
    }

    // Takes the line at a place out: its row is free, and what it holds stays there.
    fn remove(&mut self, at: usize)
        requires { at < length self.old }
        ensures { self.new ≡ take at self.old ++ drop (suc at) self.old }
    {
        let lines = self.lines;
        let here = row_at(&self.order, at);
        shift::remove(&mut self.order, lines, at);
        self.order[lines - 1] = here as u64;
        self.lines = lines - 1;
    }

    // Weighs the line at a place anew.
    fn set_weight(&mut self, at: usize, weight: i64)
        requires at { at < length self.old }
        requires ordered { IsInOrder (take at self.old ++ line (terms_at self.old at) weight ∷ drop (suc at) self.old) }
        ensures { self.new ≡ take at self.old ++ line (terms_at self.old at) weight ∷ drop (suc at) self.old }
    {
        let here = row_at(&self.order, at);
        self.weights[here] = weight;
    }

    // Folds a weighted polynomial, not 0, in at its place, where the key of its first term is given and what is known of it. It is
    // for this crate and `replacement`.
    pub fn add_at(&mut self, known: Known, f: &[u32], first: u64, amount: i64)
        requires at { known.at ≡ place_of f.now self.old }
        requires weight { known.weight ≡ weight self.old f.now }
        requires some { T (some f.now) }
        requires short { length f.now ≤ 64 }
        requires first { first ≡ first_key f.now }
        requires fits { mag (weight self.old f.now +ℤ amount) < 2 ^ 63 }
        requires room { length (add f.now amount self.old) ≤ ROWS }
        ensures { self.new ≡ add f.now amount self.old }
    {
        let _ = &self.lines;
        let at = known.at;
        let old = known.weight;
        if old != 0 {
            let sum = old + amount;
            if sum == 0 {
                return self.remove(at);
            }
            return self.set_weight(at, sum);
        }
        if amount != 0 {
            self.insert(at, f, first, amount);
        }
    }

    // Folds a weighted polynomial in: an equal polynomial's weight is added up, a weight or polynomial 0 vanishes. It is for the
    // crate `step`.
    pub fn add(&mut self, f: &[u32], amount: i64)
        requires short { length f.now ≤ 64 }
        requires fits { mag (weight self.old f.now +ℤ amount) < 2 ^ 63 }
        requires room { length (add f.now amount self.old) ≤ ROWS }
        ensures { self.new ≡ add f.now amount self.old }
    {
        if f.len() == Polynomial::ZERO.count {
            return;
        }
        let _ = &self.lines;
        let first = term::key(f[0]);
        let known = self.look_up(f, first);
        self.add_at(known, f, first, amount);
    }

    // Puts a line behind all others. It is for the crate `memory`, which fills a table line by line, each behind the one before.
    pub fn push(&mut self, f: &[u32], weight: i64)
        requires room { length self.old < ROWS }
        requires short { length f.now ≤ 64 }
        requires ordered { IsInOrder (self.old ++ line f.now weight ∷ []) }
        ensures { self.new ≡ self.old ++ line f.now weight ∷ [] }
    {
        let first = term::key(f[0]);
        let end = self.lines;
        self.insert(end, f, first, weight);
    }

    // Whether no line is negative: the bits of the weights are joined, without a branch, and the sign is that of any negative one.
    pub fn none_negative(&self) -> bool
        ensures { result ≡ not (any_negative self.now) }
    {
        let mut bits: i64 = 0;
        for entry in &self.order[..self.lines] {
            bits |= self.weights[(*entry % 128) as usize];
        }
        !is_negative(bits)
    }

    // The degree of the first term of the first line, the largest of all: the order has its key. It is 0 where there is no line.
    pub fn degree(&self) -> u32
        ensures { result ≡ first_degree self.now }
    {
        if self.lines == 0 {
            return 0;
        }
        (key_at(&self.order, 0) / 4294967296) as u32
    }
}
