// The polynomial of a clause, whose terms are made of the subsets of its plain literals.
ghost use Rattle.std.specs.Prelude.{◌≡◌, ◌≤◌};
ghost use Rattle.term.specs.Term.{degree_of};
ghost use Rattle.polynomial.specs.Polynomial.{clause_of, measured_of};

use crate::sorting::write_masks;
use crate::{Measured, Polynomial};
use mask::keys::ordered_keys;

// The polynomial of a clause of at most six plain literals, none of whose variables stands both ways. It is for `Polynomial::clause`.
pub fn short_clause(plain: u32, negated: u32) -> Measured
    requires { degree_of plain ≤ 6 }
    ensures { result ≡ measured_of (clause_of plain negated) }
{
    let mut masks = [0u32; 64];
    let mut keys = [0u64; 64];
    let mut spare = [0u64; 64];
    let mut terms = [0u32; 64];
    let n = mask::subsets(plain, &mut masks);
    let m = ordered_keys(negated, &masks[..n], &mut keys, &mut spare);
    let count = write_masks(&keys[..m], &mut terms);
    Measured {
        length: count,
        polynomial: Polynomial { terms, count },
    }
}
