// Folding changes into a table in two passes: the lines that vanish go first, so that the table never has more lines than the
// larger of before and after.
ghost use Rattle.std.specs.Prelude.{◌≡◌, ◌≤◌, T, length};
ghost use Rattle.configuration.specs.Weight.{all_in_range};
ghost use Rattle.configuration.specs.Configuration.{add_all, IsInOrder};
ghost use Rattle.replacement.specs.Passes.{Room};
ghost use Rattle.replacement.specs.Replacing.{new_weights, weighed_in, chosen, IsPlaced, moved_down};

use crate::changes::Weighed;
use table::{Changes, Known, Lines};

// Moves the places of the lines that stay, once those that vanish are gone. Where a line vanishes any place will do.
#[tactic(auto, using(crate::proofs::Weighings::moved_more, crate::proofs::Weighings::moved_all))]
fn shift(weighed: &mut [Weighed])
    ensures { weighed.new ≡ moved_down 0 weighed.old }
{
    let mut gone: usize = 0;
    for w in weighed.iter_mut() {
        w.at = w.at.saturating_sub(gone);
        if w.vanishes() {
            gone += 1;
        }
    }
}

// Folds in the changes that vanish, or those that do not, at their places. Each line that comes or goes moves the places of those
// behind it.
fn fold_chosen(table: &mut Lines, changes: &Changes, weighed: &[Weighed], vanishing: bool)
    requires { let N = changes.now in let K = weighed.now in let L = table.old in
        (length K ≡ length N) × IsPlaced vanishing K N L × Room (chosen vanishing K N) L }
    ensures { table.new ≡ add_all (chosen vanishing weighed.now changes.now) table.old }
{
    let lines = table.len();
    for i in 0..changes.len() {
        let w = weighed[i];
        if w.vanishes() == vanishing {
            let known = Known {
                at: w.at + table.len() - lines,
                weight: w.before,
            };
            table.add_at(known, changes.terms(i), changes.key(i), changes.weight(i));
        }
    }
}

// Folds changes into a table, the lines that vanish first. It is for this crate, which judges the limits before.
#[tactic(auto, using(crate::proofs::Uses::uses_fold_all))]
pub fn fold_all(table: &mut Lines, changes: &Changes, weighed: &mut [Weighed])
    requires { let N = changes.now in let L = table.old in let K = weighed.old in
        IsInOrder N × IsInOrder L × (length L ≤ 128) × (K ≡ weighed_in N L) × T (all_in_range (new_weights K)) × (length (add_all N L) ≤ 128) }
    ensures { table.new ≡ add_all changes.now table.old }
{
    fold_chosen(table, changes, weighed, true);
    shift(weighed);
    fold_chosen(table, changes, weighed, false);
}
