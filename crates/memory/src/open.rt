// From what is lent to the working form.
ghost use Rattle.std.specs.Prelude.{◌≡◌, [], T};
ghost use Rattle.memory.specs.Memory.{standing_of, well_formed, memory_of};

use crate::entries::line_at;
use crate::{Entry, Head};
use table::Lines;

// Reads the lines of a well-formed memory into a table that holds none yet. It copies no more places than lines use. It is for the
// crate `checker`, which has tested the memory.
pub fn open(head: Head, terms: &[u32], entries: &[Entry; 128], table: &mut Lines)
    requires formed { T (well_formed (memory_of head terms.now entries.now)) }
    requires empty { table.old ≡ [] }
    ensures { table.new ≡ standing_of (memory_of head terms.now entries.now) }
{
    let mut rest = terms;
    for i in 0..head.lines as usize {
        let entry = line_at(entries, i);
        let (f, behind) = rest.split_at(entry.count as usize);
        table.push(f, entry.weight);
        rest = behind;
    }
}
