// Taking one step.
ghost use Rattle.std.specs.Prelude.{◌≡◌};
ghost use Rattle.checker.specs.Checker.{lent_of, left_of, step_in, told_of_step};

use crate::admission::{admit, refused};
use memory::close::close;
use memory::entries::used_by;
use memory::open::open;
use memory::{Entry, Head};
use refusal::{Reason, Refused};
use step::{Move, misfit, step};
use table::Lines;

// Takes one step directly, in lent areas of any lengths and contents, with operands of any length and content.
#[tactic(auto, unfolding(crate::specs::Checker::step_under))]
pub fn take_step(
    head: &mut Head,
    terms: &mut [u32],
    table: &mut [Entry],
    counts: &[u32],
    places: &[u32],
    f: &[u32],
    g: &[u32],
    asked: Move,
) -> Result<(), Refused>
    ensures { left_of (lent_of head.new terms.new table.new counts.now places.now) (told_of_step result)
        ≡ step_in asked.rule asked.mode f.now g.now asked.amount (lent_of head.old terms.old table.old counts.now places.now) }
{
    let entries = table
        .as_mut_array::<128>()
        .ok_or(refused(Reason::WrongLength))?;
    let hard = admit(head, terms, entries, counts, places)?;
    misfit(head.variables, f, g).map_err(refused)?;
    let mut lines = Lines::new();
    open(*head, terms, entries, &mut lines);
    step(&mut lines, &hard, f, g, asked).map_err(refused)?;
    let used = used_by(entries);
    close(&lines, used, terms, entries);
    head.lines = lines.len() as u32;
    Ok(())
}
