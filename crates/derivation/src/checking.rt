// A check while it reads: what each kind of record does, and the records one after the other.
ghost use Rattle.std.specs.Prelude.{◌≡◌, List, ℕ, ◌+◌, ◌≤◌, ◌<◌, T, max, option_map, IfOk, IfErr, length};
ghost use Rattle.polynomial.specs.Polynomial.{RunBelow};
ghost use Rattle.configuration.specs.Configuration.{Line, Every, is_configuration};
ghost use Rattle.hard.specs.Hard.{is_hard_list};
ghost use Rattle.record.specs.Record.{amount_in};
ghost use Rattle.walk.specs.Held.{Does};
ghost use Rattle.derivation.specs.Derivation.{claim_fits, on_mode, on_term, on_choice, on_claim, on_record, degree_in};
ghost use Rattle.derivation.specs.Derivation.{check_derivation, told_of_check};
ghost use Rattle.derivation.specs.Held.{state_in, is_going, is_free, is_idle, opening, hard_ask, step_asked, IsUsable};

use crate::Confirmed;
use crate::degree::largest_degree;
use crate::kind::{Kind, kind_of};
use calculus::{Mode, Rule};
use hard::HardList;
use polynomial::Polynomial;
use record::{read_amount, read_byte};
use refusal::{Reason, Refused};
use std::marker::Model;
use step::{Move, step};
use table::Lines;
use walk::add_term;

// The mode, once N or Z has come; f, if it is set; the work polynomial; the claim, once B has come; and the largest degree met so
// far.
#[derive(Drop)]
pub struct Checking {
    mode: Option<Mode>,
    first: Option<Polynomial>,
    work: Polynomial,
    claim: Option<i64>,
    degree: u32,
}

impl Model for Checking {
    ghost use Rattle.std.specs.Prelude.{option_map, IfSome};
    ghost use Rattle.polynomial.specs.Polynomial.{terms_of};
    ghost use Rattle.walk.specs.Held.{IsWork};
    ghost use Rattle.derivation.specs.Held.{Begun};

    ghost Value = { Begun };

    ghost view = { λ c. record { mode = c.mode; first = option_map terms_of c.first; work = terms_of c.work; claim = c.claim; degree = c.degree } };

    ghost invariant = { λ c. IsWork c.work × IfSome c.first IsWork };
}

// Whether a claim is from 0 to 10^12.
fn claim_fits(claim: i64) -> bool
    ensures { result ≡ claim_fits claim }
{
    (0..=1000000000000).contains(&claim)
}

// What an S or a P asks for, if its body is whole: the rule and the amount.
fn step_ask(bytes: &[u8], at: usize, rule: Rule) -> Option<(Rule, i64)>
    requires { at < length bytes.now }
    ensures { result ≡ option_map (λ w. (rule, w)) (amount_in bytes.now (at + 1)) }
{
    Some((rule, read_amount(bytes, at + 1)?))
}

// What an E asks for, in the same way: its body is the number of a hard polynomial and the amount.
fn hard_ask(bytes: &[u8], at: usize) -> Option<(Rule, i64)>
    requires { at < length bytes.now }
    ensures { result ≡ hard_ask bytes.now at }
{
    let number = read_byte(bytes, at + 1)?;
    let amount = read_amount(bytes, at + 2)?;
    Some((Rule::Hard(number as u32), amount))
}

impl Checking {
    // Before the first record; the lines at the start count for the degree.
    pub fn new(lines: &Lines) -> Checking
        requires { Every (RunBelow 32) lines.now }
        ensures { result ≡ opening lines.now }
    {
        Checking {
            mode: None,
            first: None,
            work: Polynomial::ZERO,
            claim: None,
            degree: largest_degree(lines),
        }
    }

    // Whether the mode has come, and the claim has not.
    fn is_going(&self) -> bool
        ensures { result ≡ is_going self.now }
    {
        self.mode.is_some() && self.claim.is_none()
    }

    // Whether the mode has come, the claim has not, and f is not set.
    fn is_free(&self) -> bool
        ensures { result ≡ is_free self.now }
    {
        self.is_going() && self.first.is_none()
    }

    // Whether, besides, the work polynomial has no term.
    #[tactic(auto, using(crate::proofs::Records::idle_is, crate::proofs::Records::no_term))]
    fn is_idle(&self) -> bool
        ensures { result ≡ is_idle self.now }
    {
        self.is_free() && self.work.count == Polynomial::ZERO.count
    }

    // N, Z: the mode.
    fn on_mode(&mut self, mode: Mode) -> Result<usize, Reason>
        ensures does { (at : ℕ) (L : List Line) → Does (on_mode mode) at (state_in self.old L) result (state_in self.new L) }
        ensures degree { self.new.degree ≡ self.old.degree }
    {
        if self.mode.is_some() {
            return Err(Reason::Misplaced);
        }
        self.mode = Some(mode);
        Ok(1)
    }

    // M: a term is added to the work polynomial.
    #[tactic(auto, using(crate::proofs::Records::term_refused, crate::proofs::Records::term_accepted))]
    fn on_term(&mut self, bytes: &[u8], at: usize, variables: u32) -> Result<usize, Reason>
        requires { at < length bytes.now }
        ensures does { (L : List Line) → Does (on_term variables bytes.now) at (state_in self.old L) result (state_in self.new L) }
        ensures degree { self.new.degree ≡ self.old.degree }
    {
        if !self.is_going() {
            return Err(Reason::Misplaced);
        }
        add_term(variables, bytes, at + 1, &mut self.work)?;
        Ok(5)
    }

    // K: the work polynomial becomes f, and is cleared.
    fn on_choice(&mut self) -> Result<usize, Reason>
        ensures does { (at : ℕ) (L : List Line) → Does on_choice at (state_in self.old L) result (state_in self.new L) }
        ensures degree { self.new.degree ≡ self.old.degree }
    {
        if !self.is_free() {
            return Err(Reason::Misplaced);
        }
        self.first = Some(self.work);
        self.work.count = Polynomial::ZERO.count;
        Ok(1)
    }

    // S, P, E: the step of f with the work polynomial that a record of so many bytes asks for, if its body is whole; both are
    // cleared, and the lines that the step leaves count for the degree. Where it is refused, the degree is as it was.
    fn take(
        &mut self,
        ask: Option<(Rule, i64)>,
        size: usize,
        hard: &HardList,
        lines: &mut Lines,
    ) -> Result<usize, Reason>
        requires { IsUsable hard.now (state_in self.old lines.old) }
        ensures does { (at : ℕ) → Does (step_asked hard.now ask size) at (state_in self.old lines.old) result (state_in self.new lines.new) }
        ensures degree { IfOk result (λ _. self.new.degree ≡ max self.old.degree (degree_in lines.new)) }
        ensures kept { IfErr result (λ _. self.new.degree ≡ self.old.degree) }
    {
        let (Some(mode), None, Some(first)) = (self.mode, self.claim, &self.first) else {
            return Err(Reason::Misplaced);
        };
        let Some((rule, amount)) = ask else {
            return Err(Reason::CutShort);
        };
        let f = &first.terms[..first.count];
        let g = &self.work.terms[..self.work.count];
        step(lines, hard, f, g, Move { rule, mode, amount })?;
        self.first = None;
        self.work.count = Polynomial::ZERO.count;
        let degree = largest_degree(lines);
        self.degree = self.degree.max(degree);
        Ok(size)
    }

    // B: the claim is at most the weight of the polynomial 1, and no line is negative.
    #[tactic(auto, using(crate::proofs::Uses::uses_on_claim))]
    fn on_claim(&mut self, bytes: &[u8], at: usize, lines: &Lines) -> Result<usize, Reason>
        requires { at < length bytes.now }
        ensures does { Does (on_claim bytes.now) at (state_in self.old lines.now) result (state_in self.new lines.now) }
        ensures degree { self.new.degree ≡ self.old.degree }
    {
        if !self.is_idle() {
            return Err(Reason::Misplaced);
        }
        let Some(claim) = read_amount(bytes, at + 1) else {
            return Err(Reason::CutShort);
        };
        if !claim_fits(claim) {
            return Err(Reason::OutOfRange);
        }
        if !lines.none_negative() {
            return Err(Reason::NegativeLine);
        }
        let one = Polynomial::ONE;
        if lines.weight_of(&one.terms[..one.count]) < claim {
            return Err(Reason::ClaimTooHigh);
        }
        self.claim = Some(claim);
        Ok(9)
    }

    // One record: its kind, then its place and its body. Answers how many bytes it has.
    fn on_record(
        &mut self,
        bytes: &[u8],
        at: usize,
        variables: u32,
        hard: &HardList,
        lines: &mut Lines,
    ) -> Result<usize, Reason>
        requires place { at < length bytes.now }
        requires usable { IsUsable hard.now (state_in self.old lines.old) }
        requires met { degree_in lines.old ≤ self.old.degree }
        ensures does { Does (on_record variables hard.now bytes.now) at (state_in self.old lines.old) result (state_in self.new lines.new) }
        ensures degree { self.new.degree ≡ max self.old.degree (degree_in lines.new) }
    {
        let Some(kind) = kind_of(bytes[at]) else {
            return Err(Reason::Misplaced);
        };
        match kind {
            Kind::Term => self.on_term(bytes, at, variables),
            Kind::Choice => self.on_choice(),
            Kind::Step(rule) => self.take(step_ask(bytes, at, rule), 9, hard, lines),
            Kind::Hard => self.take(hard_ask(bytes, at), 10, hard, lines),
            Kind::Claim => self.on_claim(bytes, at, lines),
            Kind::Start(mode) => self.on_mode(mode),
        }
    }

    // What is confirmed, once B has come.
    fn confirmed(&self) -> Option<Confirmed>
        ensures { let b = self.now in result ≡ option_map (λ w. record { claim = w; degree = b.degree }) b.claim }
    {
        let claim = self.claim?;
        Some(Confirmed {
            claim,
            degree: self.degree,
        })
    }

    // Reads the records one after the other, up to the first that is refused. Where the bytes end B must have come. Records differ in
    // size, so a place goes through the bytes.
    pub fn read(
        &mut self,
        bytes: &[u8],
        variables: u32,
        hard: &HardList,
        lines: &mut Lines,
    ) -> Result<Confirmed, Refused>
        requires opening { self.old ≡ opening lines.old }
        requires hard { T (is_hard_list variables hard.now) }
        requires lines { T (is_configuration variables lines.old) }
        ensures { record { variables = variables; lines = lines.new; told = told_of_check result } ≡ check_derivation bytes.now variables hard.now lines.old }
    {
        let mut at: usize = 0;
        let mut records: u64 = 0;
        while at < bytes.len() {
            let record = records + 1;
            let size = self
                .on_record(bytes, at, variables, hard, lines)
                .map_err(|reason| Refused { record, reason })?;
            at += size;
            records += 1;
        }
        self.confirmed().ok_or(Refused {
            record: records + 1,
            reason: Reason::Unfinished,
        })
    }
}
