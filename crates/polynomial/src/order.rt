// The order of polynomials.
ghost use Rattle.std.specs.Prelude.{◌≡◌};
ghost use Rattle.term.specs.Term.{before};
ghost use Rattle.run.specs.Run.{sorted};
ghost use Rattle.polynomial.specs.Polynomial.{order_of};

use std::cmp::Ordering;

// Where one run of terms stands beside another, which is less if it stands earlier: at the first place where they differ the one with
// the earlier term is first, and of two that do not differ the shorter.
#[tactic(auto, using(crate::proofs::Uses::uses_order_compare))]
pub fn compare(f: &[u32], g: &[u32]) -> Ordering
    ensures { result ≡ order_of f.now g.now }
{
    for (a, b) in f.iter().zip(g) {
        if a != b {
            return if term::precedes(*a, *b) {
                Ordering::Less
            } else {
                Ordering::Greater
            };
        }
    }
    f.len().cmp(&g.len())
}

// Whether a run of terms is in strict written order.
pub fn in_order(terms: &[u32]) -> bool
    ensures { result ≡ sorted before terms.now }
{
    terms.is_sorted_by(|a, b| term::precedes(*a, *b))
}
