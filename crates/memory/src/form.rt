// The test 'well formed'.
ghost use Rattle.std.specs.Prelude.{◌≡◌, true, false, ◌&&◌, ◌≤◌, length};
ghost use Rattle.polynomial.specs.Polynomial.{order_of};
ghost use Rattle.configuration.specs.Weight.{in_range};
ghost use Rattle.configuration.specs.Configuration.{line, by_order, line_fits, lines_fit, weights_fit};
ghost use Rattle.memory.specs.Memory.{read_lines, well_formed, memory_of};
ghost use Rattle.memory.specs.Places.{used_by, all_unused};

use crate::entries::used_by;
use crate::{Entry, Head};
use configuration::area::is_zero;
use configuration::form::is_polynomial;
use configuration::weight::within_limit;
use polynomial::Polynomial;
use polynomial::order::compare;

// Whether a line may be held, with its weight in range.
fn line_fits(variables: u32, terms: &[u32], weight: i64) -> bool
    ensures { result ≡ (line_fits variables (line terms.now weight) && in_range weight) }
{
    if terms.len() == Polynomial::ZERO.count {
        return false;
    }
    if weight == 0 {
        return false;
    }
    if !within_limit(weight) {
        return false;
    }
    is_polynomial(variables, terms)
}

// Whether a polynomial stands before another.
fn stands_before(f: &[u32], g: &[u32]) -> bool
    ensures { result ≡ by_order (order_of f.now g.now) true false false }
{
    compare(f, g).is_lt()
}

// Whether records are those of no line.
fn are_unused(entries: &[Entry]) -> bool
    ensures { result ≡ all_unused entries.now }
{
    entries.iter().all(|entry| *entry == Entry::UNUSED)
}

// Whether the lines of records may be held, and stand in order.
fn lines_fit(variables: u32, terms: &[u32], entries: &[Entry]) -> bool
    requires { used_by entries.now ≤ length terms.now }
    ensures { let L = read_lines (length entries.now) terms.now entries.now in result ≡ (lines_fit variables L && weights_fit L) }
{
    // The polynomial of no terms stands before all others.
    let mut last = &terms[..0];
    let mut rest = terms;
    for entry in entries {
        let (f, behind) = rest.split_at(entry.count as usize);
        if !line_fits(variables, f, entry.weight) {
            return false;
        }
        if !stands_before(last, f) {
            return false;
        }
        last = f;
        rest = behind;
    }
    true
}

// Whether a lent memory, its term area of any length and contents, is well formed.
pub fn well_formed(head: Head, terms: &[u32], entries: &[Entry; 128]) -> bool
    ensures { result ≡ well_formed (memory_of head terms.now entries.now) }
{
    if terms.len() != 8192 {
        return false;
    }
    let lines = head.lines as usize;
    if 128 < lines {
        return false;
    }
    if 32 < head.variables {
        return false;
    }
    if !are_unused(&entries[lines..]) {
        return false;
    }
    let used = used_by(entries);
    if 8192 < used {
        return false;
    }
    if !is_zero(&terms[used..]) {
        return false;
    }
    lines_fit(head.variables, terms, &entries[..lines])
}
