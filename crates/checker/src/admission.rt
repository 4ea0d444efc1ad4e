// The tests of what is lent: of its lengths, which every operation makes, and of its form, which all but a filing make. A refusal
// names record 0.
ghost use Rattle.std.specs.Prelude.{◌≡◌, ◌&&◌, eqb, length, MatchResult};
ghost use Rattle.memory.specs.Memory.{standing_of};
ghost use Rattle.checker.specs.Checker.{lent_of};
ghost use Rattle.checker.specs.Opened.{IsOpened, IsUnfit};

use hard::HardList;
use memory::form::well_formed;
use memory::{Entry, Head};
use refusal::{Reason, Refused};

// A refusal of what is lent: no record is at fault.
pub fn refused(reason: Reason) -> Refused
    ensures { result ≡ record { «record» = 0; reason = reason } }
{
    Refused { record: 0, reason }
}

// Whether the areas beside the line table have their lengths.
pub fn lengths_fit(terms: &[u32], counts: &[u32], places: &[u32]) -> bool
    ensures { result ≡ (eqb (length terms.now) 8192 && (eqb (length counts.now) 16 && eqb (length places.now) 1024)) }
{
    terms.len() == 8192 && counts.len() == 16 && places.len() == 1024
}

// Tests what is lent, and answers its hard list. Its lines are read behind the tests that an operation makes of what it is asked.
pub fn admit(
    head: &Head,
    terms: &[u32],
    entries: &[Entry; 128],
    counts: &[u32],
    places: &[u32],
) -> Result<HardList, Refused>
    ensures { let x = lent_of head.now terms.now entries.now counts.now places.now in
        MatchResult result (λ hard. IsOpened x hard (standing_of x.memory)) (IsUnfit x) }
{
    if !lengths_fit(terms, counts, places) {
        return Err(refused(Reason::WrongLength));
    }
    if !well_formed(*head, terms, entries) {
        return Err(refused(Reason::IllFormed));
    }
    let Some(hard) = HardList::open(head.variables, head.hard, counts, places) else {
        return Err(refused(Reason::IllFormed));
    };
    Ok(hard)
}
