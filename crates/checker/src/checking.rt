// Checking a derivation.
ghost use Rattle.std.specs.Prelude.{◌≡◌};
ghost use Rattle.derivation.specs.Derivation.{told_of_check};
ghost use Rattle.checker.specs.Checker.{lent_of, left_of, check_in};

use crate::admission::{admit, refused};
use derivation::Confirmed;
use memory::close::close;
use memory::entries::used_by;
use memory::open::open;
use memory::{Entry, Head};
use refusal::{Reason, Refused};
use table::Lines;

// Checks the derivation that the bytes are, in lent areas of any lengths and contents. What the records before a refused one leave
// is written back.
#[tactic(auto, unfolding(crate::specs::Checker::check_under))]
pub fn check_derivation(
    bytes: &[u8],
    head: &mut Head,
    terms: &mut [u32],
    table: &mut [Entry],
    counts: &[u32],
    places: &[u32],
) -> Result<Confirmed, Refused>
    ensures { left_of (lent_of head.new terms.new table.new counts.now places.now) (told_of_check result)
        ≡ check_in bytes.now (lent_of head.old terms.old table.old counts.now places.now) }
{
    let entries = table
        .as_mut_array::<128>()
        .ok_or(refused(Reason::WrongLength))?;
    let hard = admit(head, terms, entries, counts, places)?;
    let mut lines = Lines::new();
    open(*head, terms, entries, &mut lines);
    let variables = head.variables;
    let answer = derivation::check_derivation(bytes, variables, &hard, &mut lines);
    let used = used_by(entries);
    close(&lines, used, terms, entries);
    head.lines = lines.len() as u32;
    answer
}
