// One step on a configuration: the tests of the mode, and the changes of a rule, all or nothing; and the tests of the operands of a
// step that is taken directly.
#![tactic(auto)]

mod plan;

ghost use Rattle.std.specs.Prelude.{◌≡◌, true, cond, T};
ghost use Rattle.std.specs.Int.Signed.{le_z};
ghost use Rattle.refusal.specs.Outcome.{after, stop_of};
ghost use Rattle.configuration.specs.Weight.{in_range};
ghost use Rattle.configuration.specs.Configuration.{some, weight, weights_fit};
ghost use Rattle.calculus.specs.Calculus.{amount_fits, premises, there, rule_named, mode_tests, step as step_of, operand_tests};
ghost use Rattle.step.specs.Stepping.{IsOperand, Finds};

use calculus::{Mode, Rule};
use configuration::form::is_below;
use configuration::weight::within_limit;
use hard::HardList;
use plan::plan_of;
use polynomial::Polynomial;
use polynomial::order::in_order;
use refusal::Reason;
use replacement::replace;
use table::{Changes, Lines};

// What a step is asked to do: the rule, in which mode, and the amount that it moves.
#[derive(Clone, Copy)]
pub struct Move {
    pub rule: Rule,
    pub mode: Mode,
    pub amount: i64,
}

// Whether an amount is in the mode's range.
fn amount_fits(mode: Mode, amount: i64) -> bool
    ensures { result ≡ amount_fits mode amount }
{
    match mode {
        Mode::Plain => 1 <= amount && amount <= 1000000000000,
        Mode::Signed => within_limit(amount) && amount != 0,
    }
}

// Whether as much as is asked of a polynomial is held. The polynomial 0 is never asked for.
fn is_held(table: &Lines, f: &[u32], asked: i64) -> bool
    ensures { let p = f.now in result ≡ cond (some p) (le_z asked (weight table.now p)) true }
{
    f.len() == Polynomial::ZERO.count || asked <= table.weight_of(f)
}

// Whether the weight that a rule takes away is there. SUM of a polynomial with itself asks for twice the amount.
#[tactic(auto, using(crate::proofs::Asked::asked_once))]
fn is_there(table: &Lines, rule: Rule, f: &[u32], g: &[u32], amount: i64) -> bool
    requires { T (in_range amount) }
    ensures { result ≡ there table.now (premises rule f.now g.now amount) }
{
    match rule {
        Rule::Sum if f == g => is_held(table, f, amount + amount),
        Rule::Sum => is_held(table, f, amount) && is_held(table, g, amount),
        Rule::Prod | Rule::Hard(_) => is_held(table, f, amount),
    }
}

// Whether a rule that names a hard polynomial names one that is there.
fn is_named(hard: &HardList, rule: Rule) -> bool
    ensures { result ≡ rule_named hard.now rule }
{
    match rule {
        Rule::Sum | Rule::Prod => true,
        Rule::Hard(number) => number != 0 && number as usize <= hard.len(),
    }
}

// The mode's tests: a negative line, the rule's hard polynomial, the amount's range, and the weight that is taken away, in that order.
#[tactic(auto, using(crate::proofs::Uses::uses_object))]
fn object(table: &Lines, hard: &HardList, f: &[u32], g: &[u32], asked: Move) -> Result<(), Reason>
    ensures { Finds (mode_tests hard.now asked.rule asked.mode f.now g.now asked.amount table.now) result }
{
    let Move { rule, mode, amount } = asked;
    if let Mode::Plain = mode {
        if !table.none_negative() {
            return Err(Reason::NegativeLine);
        }
    }
    if !is_named(hard, rule) {
        return Err(Reason::NoSuchHard);
    }
    if !amount_fits(mode, amount) {
        return Err(Reason::OutOfRange);
    }
    if let Mode::Plain = mode {
        if !is_there(table, rule, f, g, amount) {
            return Err(Reason::WeightMissing);
        }
    }
    Ok(())
}

// The tests of the operands of a step that is taken directly: their lengths, their variables, their order. It is for the crate
// `checker`.
pub fn misfit(variables: u32, f: &[u32], g: &[u32]) -> Result<(), Reason>
    ensures { Finds (operand_tests variables f.now g.now) result }
{
    if 64 < f.len() {
        return Err(Reason::TooManyTerms(f.len() as u64));
    }
    if 64 < g.len() {
        return Err(Reason::TooManyTerms(g.len() as u64));
    }
    if !(is_below(variables, f) && is_below(variables, g)) {
        return Err(Reason::UnknownVariable);
    }
    if !(in_order(f) && in_order(g)) {
        return Err(Reason::UnorderedTerms);
    }
    Ok(())
}

// Takes a step on the lines of a table, or refuses it and changes nothing. It is for the crates `derivation` and `checker`, which
// have made the table and tested the polynomials.
#[tactic(auto, using(crate::proofs::Uses::uses_step))]
pub fn step(
    table: &mut Lines,
    hard: &HardList,
    f: &[u32],
    g: &[u32],
    asked: Move,
) -> Result<(), Reason>
    requires { T (weights_fit table.old) × IsOperand f.now × IsOperand g.now }
    ensures { record { reached = table.new; stop = stop_of result }
        ≡ after table.old (step_of hard.now asked.rule asked.mode f.now g.now asked.amount table.old) }
{
    // The call says that the lines are in order.
    let _lines = table.len();
    object(table, hard, f, g, asked)?;
    let mut changes = Changes::new();
    plan_of(asked.rule, f, g, hard, asked.amount, &mut changes)?;
    replace(table, &changes)
}
