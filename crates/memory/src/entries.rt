// The line table as it is lent: reading and writing one record, and what the records say together.
ghost use Rattle.std.specs.Prelude.{◌≡◌, ◌<◌, length, get_or, set};
ghost use Rattle.memory.specs.Memory.{unused};
ghost use Rattle.memory.specs.Places.{used_by};

use crate::Entry;

// The record of a line. It is for this crate.
pub fn line_at(table: &[Entry], i: usize) -> Entry
    requires { i < length table.now }
    ensures { result ≡ get_or table.now i unused }
{
    table[i]
}

// Replaces the record of a line. It is for this crate.
pub fn set_line(table: &mut [Entry], i: usize, entry: Entry)
    requires { i < length table.old }
    ensures { table.new ≡ set table.old i entry }
{
    table[i] = entry;
}

// How many terms records count together, whatever their counts are: 128 of them fit in 64 bits.
pub fn used_by(entries: &[Entry; 128]) -> usize
    ensures { result ≡ used_by entries.now }
{
    let mut used: usize = 0;
    for entry in entries {
        used += entry.count as usize;
    }
    used
}
