// Filing a problem.
ghost use Rattle.std.specs.Prelude.{◌≡◌};
ghost use Rattle.problem.specs.Problem.{told_of_filing};
ghost use Rattle.checker.specs.Checker.{lent_of, no_head, left_of, file_in};

use crate::admission::{lengths_fit, refused};
use hard::HardList;
use memory::close::close;
use memory::{Entry, Head};
use refusal::{Reason, Refused};
use table::Lines;

// What a filing leaves: the head of what it filed, and the answer. Where an area has another length, this head tells no variables, no
// lines and no hard polynomials. The caller's own is not lent, and so stays then, as the areas do.
#[derive(Clone, Copy)]
pub struct Filed {
    pub head: Head,
    pub answer: Result<(), Refused>,
}

// Files the problem that the bytes are, in lent areas of any lengths and contents. Nothing is known of the term area, so that every
// place behind the lines is cleared.
#[tactic(auto, unfolding(crate::specs::Checker::file_under))]
pub fn file_problem(
    bytes: &[u8],
    terms: &mut [u32],
    table: &mut [Entry],
    counts: &mut [u32],
    places: &mut [u32],
) -> Filed
    ensures { left_of (lent_of result.head terms.new table.new counts.new places.new) (told_of_filing result.answer)
        ≡ file_in bytes.now (lent_of no_head terms.old table.old counts.old places.old) }
{
    let unfit = Filed {
        head: Head {
            variables: 0,
            lines: 0,
            hard: 0,
        },
        answer: Err(refused(Reason::WrongLength)),
    };
    let Some(entries) = table.as_mut_array::<128>() else {
        return unfit;
    };
    if !lengths_fit(terms, counts, places) {
        return unfit;
    }
    let mut hard = HardList::new();
    let mut lines = Lines::new();
    let filed = problem::file_problem(bytes, &mut hard, &mut lines);
    close(&lines, 8192, terms, entries);
    hard.close(counts, places);
    let head = Head {
        variables: filed.variables,
        lines: lines.len() as u32,
        hard: hard.len() as u32,
    };
    Filed {
        head,
        answer: filed.answer,
    }
}
