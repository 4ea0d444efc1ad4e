// From the working form back to what is lent.
ghost use Rattle.std.specs.Prelude.{◌≡◌, ℕ, length};
ghost use Rattle.memory.specs.Memory.{image_of, memory_of};
ghost use Rattle.memory.specs.Places.{ClearFrom};

use crate::Entry;
use crate::entries::set_line;
use polynomial::area::write;
use table::Lines;

// Writes the lines of the working form back, in their order: their terms into a term area that is zero from the place `used` on, and
// each record once, those of no line behind theirs. Only the places up to there that the lines leave are cleared. It is for the crate
// `checker`.
pub fn close(table: &Lines, used: usize, terms: &mut [u32], entries: &mut [Entry; 128])
    requires { ClearFrom used terms.old }
    ensures { (n k : ℕ) → memory_of (record { variables = n; lines = length table.now; hard = k }) terms.new entries.new ≡ image_of n table.now }
{
    let lines = table.len();
    let mut end: usize = 0;
    for i in 0..lines {
        let f = table.terms(i);
        write(terms, end, f);
        let entry = Entry {
            weight: table.weight(i),
            count: f.len() as u32,
        };
        set_line(entries, i, entry);
        end += f.len();
    }
    entries[lines..].fill(Entry::UNUSED);
    if end < used {
        terms[end..used].fill(0);
    }
}
