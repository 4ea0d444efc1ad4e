// The replacement of weighted polynomials, all or nothing: the changes have been folded among themselves, in a table of four
// lines; the outcome is judged, and only then lines are written.
#![tactic(auto)]

mod changes;
mod limits;
mod passes;

ghost use Rattle.std.specs.Prelude.{◌≡◌, not, ◌≤◌, ◌<◌, ◌^◌, T, length};
ghost use Rattle.std.specs.Int.Signed.{mag};
ghost use Rattle.refusal.specs.Outcome.{after, stop_of};
ghost use Rattle.configuration.specs.Weight.{is_zero};
ghost use Rattle.configuration.specs.Configuration.{add as addTo, add_all, weights_fit};
ghost use Rattle.configuration.specs.Limits.{within};
ghost use Rattle.replacement.specs.Passes.{IsSmall};

use changes::{Weighed, weigh};
use limits::judge;
use passes::fold_all;
use polynomial::Polynomial;
use refusal::Reason;
use table::{Changes, Lines};
use term::key;

// Replaces weighted polynomials in a table: the changes are added, and the limits judged on the outcome alone. A refusal changes
// nothing. It is for the crate `step`, which asks for polynomials.
#[tactic(auto, using(crate::proofs::Uses::uses_replace))]
pub fn replace(table: &mut Lines, changes: &Changes) -> Result<(), Reason>
    requires { T (weights_fit table.old) × IsSmall 45 changes.now }
    ensures { record { reached = table.new; stop = stop_of result } ≡ after table.old (within (add_all changes.now table.old)) }
{
    let lines = table.len();
    let new_lines = changes.len();
    if new_lines == 0 {
        return Ok(());
    }
    let mut known = weigh(table, changes);
    let weighed = &mut known[..new_lines];
    judge(lines, weighed)?;
    fold_all(table, changes, weighed);
    Ok(())
}

// Adds one weighted polynomial to a table, within the limits. A refusal changes nothing. It is for the crate `problem`, which tests
// the polynomial and the weight first.
#[tactic(auto, using(crate::proofs::Uses::uses_add), unfolding(configuration::specs::Configuration::add_all))]
pub fn add(table: &mut Lines, f: &[u32], amount: i64) -> Result<(), Reason>
    requires { T (weights_fit table.old) × (length f.now ≤ 64) × (mag amount < 2 ^ 42) × T (not (is_zero amount)) }
    ensures { record { reached = table.new; stop = stop_of result } ≡ after table.old (within (addTo f.now amount table.old)) }
{
    let lines = table.len();
    if f.len() == Polynomial::ZERO.count {
        return Ok(());
    }
    let first = key(f[0]);
    let known = table.look_up(f, first);
    let weighed = [Weighed {
        at: known.at,
        before: known.weight,
        after: known.weight + amount,
    }];
    judge(lines, &weighed)?;
    table.add_at(known, f, first, amount);
    Ok(())
}
