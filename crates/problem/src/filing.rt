// A filing while it reads: what each kind of record does, and the records one after the other.
ghost use Rattle.std.specs.Prelude.{◌≡◌, List, ℕ, ◌<◌, T, unwrap_or, length};
ghost use Rattle.refusal.specs.Outcome.{told};
ghost use Rattle.configuration.specs.Configuration.{Line, weights_fit};
ghost use Rattle.walk.specs.Walk.{read_all, verdict};
ghost use Rattle.walk.specs.Held.{Does};
ghost use Rattle.problem.specs.Problem.{on_variables, on_term, on_weight, on_clause, on_hard, on_record, filing, weight_fits};
ghost use Rattle.problem.specs.ProblemLaws.{IsSound};
ghost use Rattle.problem.specs.Held.{state_in};

use configuration::form::is_term;
use hard::HardList;
use polynomial::{Polynomial, front};
use record::{read_amount, read_byte, read_clause};
use refusal::{Reason, Refused};
use replacement::add;
use std::marker::Model;
use table::Lines;
use walk::add_term;

// The number of variables, once V has come, and the work polynomial.
#[derive(Drop)]
pub struct Filing {
    variables: Option<u32>,
    work: Polynomial,
}

impl Model for Filing {
    ghost use Rattle.polynomial.specs.Polynomial.{terms_of};
    ghost use Rattle.walk.specs.Held.{IsWork};
    ghost use Rattle.problem.specs.Held.{Entered};

    ghost Value = { Entered };

    ghost view = { λ f. record { variables = f.variables; work = terms_of f.work } };

    ghost invariant = { λ f. IsWork f.work };
}

// Whether a weight may be filed.
fn weight_fits(weight: i64) -> bool
    ensures { result ≡ weight_fits weight }
{
    (1..=1000000000).contains(&weight)
}

impl Filing {
    ghost use Rattle.std.specs.Prelude.{None};
    ghost use Rattle.polynomial.specs.Polynomial.{ZERO};

    // Before the first record.
    pub fn new() -> Filing
        ensures { result ≡ record { variables = None; work = ZERO } }
    {
        Filing {
            variables: None,
            work: Polynomial::ZERO,
        }
    }

    // The number of variables: 0 before V.
    pub fn variables(&self) -> u32
        ensures { result ≡ unwrap_or self.now.variables 0 }
    {
        self.variables.unwrap_or(0)
    }

    // V: the number of variables.
    fn on_variables(&mut self, bytes: &[u8], at: usize) -> Result<usize, Reason>
        requires { at < length bytes.now }
        ensures { (L : List Line) (H : List (List ℕ)) → Does (on_variables bytes.now) at (state_in self.old L H) result (state_in self.new L H) }
    {
        if self.variables.is_some() {
            return Err(Reason::Misplaced);
        }
        let Some(variables) = read_byte(bytes, at + 1) else {
            return Err(Reason::CutShort);
        };
        if 32 < variables {
            return Err(Reason::TooManyVariables);
        }
        self.variables = Some(variables as u32);
        Ok(2)
    }

    // M: a term is added to the work polynomial.
    fn on_term(&mut self, bytes: &[u8], at: usize) -> Result<usize, Reason>
        requires { at < length bytes.now }
        ensures { (L : List Line) (H : List (List ℕ)) → Does (on_term bytes.now) at (state_in self.old L H) result (state_in self.new L H) }
    {
        let Some(variables) = self.variables else {
            return Err(Reason::Misplaced);
        };
        add_term(variables, bytes, at + 1, &mut self.work)?;
        Ok(5)
    }

    // W: the work polynomial is added at a weight, and cleared.
    fn on_weight(&mut self, bytes: &[u8], at: usize, lines: &mut Lines) -> Result<usize, Reason>
        requires { (at < length bytes.now) × T (weights_fit lines.old) }
        ensures { (H : List (List ℕ)) → Does (on_weight bytes.now) at (state_in self.old lines.old H) result (state_in self.new lines.new H) }
    {
        if self.variables.is_none() {
            return Err(Reason::Misplaced);
        }
        let Some(weight) = read_amount(bytes, at + 1) else {
            return Err(Reason::CutShort);
        };
        if !weight_fits(weight) {
            return Err(Reason::OutOfRange);
        }
        add(lines, &self.work.terms[..self.work.count], weight)?;
        self.work.count = Polynomial::ZERO.count;
        Ok(9)
    }

    // C: a clause is added at a weight; the work polynomial is untouched.
    fn on_clause(&self, bytes: &[u8], at: usize, lines: &mut Lines) -> Result<usize, Reason>
        requires { (at < length bytes.now) × T (weights_fit lines.old) }
        ensures { (H : List (List ℕ)) → Does (on_clause bytes.now) at (state_in self.now lines.old H) result (state_in self.now lines.new H) }
    {
        let Some(variables) = self.variables else {
            return Err(Reason::Misplaced);
        };
        let Some(clause) = read_clause(bytes, at + 1) else {
            return Err(Reason::CutShort);
        };
        if !is_term(variables, clause.plain) {
            return Err(Reason::UnknownVariable);
        }
        if !is_term(variables, clause.negated) {
            return Err(Reason::UnknownVariable);
        }
        if !weight_fits(clause.weight) {
            return Err(Reason::OutOfRange);
        }
        let product = Polynomial::clause(clause.plain, clause.negated);
        if 64 < product.length {
            return Err(Reason::TooManyTerms(product.length as u64));
        }
        let f = product.polynomial;
        add(lines, front(&f.terms, f.count), clause.weight)?;
        Ok(17)
    }

    // H: the work polynomial joins the hard list, and is cleared.
    fn on_hard(&mut self, hard: &mut HardList) -> Result<usize, Reason>
        ensures { (at : ℕ) (L : List Line) → Does on_hard at (state_in self.old L hard.old) result (state_in self.new L hard.new) }
    {
        if self.variables.is_none() {
            return Err(Reason::Misplaced);
        }
        if hard.len() == 16 {
            return Err(Reason::TooManyHard);
        }
        hard.push(&self.work.terms[..self.work.count]);
        self.work.count = Polynomial::ZERO.count;
        Ok(1)
    }

    // One record: its kind, then its place and its body. Answers how many bytes it has.
    fn on_record(
        &mut self,
        bytes: &[u8],
        at: usize,
        hard: &mut HardList,
        lines: &mut Lines,
    ) -> Result<usize, Reason>
        requires { (at < length bytes.now) × T (weights_fit lines.old) }
        ensures { Does (on_record bytes.now) at (state_in self.old lines.old hard.old) result (state_in self.new lines.new hard.new) }
    {
        match bytes[at] {
            b'V' => self.on_variables(bytes, at),
            b'M' => self.on_term(bytes, at),
            b'W' => self.on_weight(bytes, at, lines),
            b'C' => self.on_clause(bytes, at, lines),
            b'H' => self.on_hard(hard),
            _ => Err(Reason::Misplaced),
        }
    }

    // Whether the bytes may end here: V has come, and the work polynomial is 0.
    fn is_complete(&self) -> bool
        ensures { (L : List Line) (H : List (List ℕ)) → result ≡ filing.complete (state_in self.now L H) }
    {
        self.variables.is_some() && self.work.count == Polynomial::ZERO.count
    }

    // Reads the records one after the other, up to the first that is refused. Records differ in size, so a place goes through the
    // bytes; `derivation` has a loop of its own, since its records are lent other things, and what holds of both is one law in `walk`.
    pub fn read(
        &mut self,
        bytes: &[u8],
        hard: &mut HardList,
        lines: &mut Lines,
    ) -> Result<(), Refused>
        requires { IsSound (state_in self.old lines.old hard.old) }
        ensures { let r = read_all filing bytes.now (state_in self.old lines.old hard.old) in
            (state_in self.new lines.new hard.new ≡ r.reached.state) × (told (λ u. u) result ≡ verdict r.reached.records tt r.stop) }
    {
        let mut at: usize = 0;
        let mut records: u64 = 0;
        while at < bytes.len() {
            match self.on_record(bytes, at, hard, lines) {
                Ok(size) => {
                    at += size;
                    records += 1;
                }
                Err(reason) => {
                    return Err(Refused {
                        record: records + 1,
                        reason,
                    });
                }
            }
        }
        if !self.is_complete() {
            return Err(Refused {
                record: records + 1,
                reason: Reason::Unfinished,
            });
        }
        Ok(())
    }
}
