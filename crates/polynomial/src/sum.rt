// The sum of two runs of terms.
ghost use Rattle.std.specs.Prelude.{◌≡◌, ◌≤◌, length};
ghost use Rattle.polynomial.specs.Polynomial.{sum_of, placed};

use crate::area::write;
use crate::sorting::write_masks;
use crate::toggle::toggle_all;
use mask::keys::ordered_keys;

// Writes f + g to the front of an area of 64, where it fits. Answers how many terms it has. Few terms are added one by one; else each
// run is put in order, which costs one pass where it is so already, and then one merge is made. It is for `Polynomial::sum` and
// `Polynomial::plus_product`.
#[tactic(auto, using(crate::proofs::Uses::uses_sum_write_sum))]
pub fn write_sum(f: &[u32], g: &[u32], out: &mut [u32]) -> usize
    requires { (length f.now ≤ 64) × (length g.now ≤ 64) × (length out.old ≡ 64) }
    ensures size { result ≡ length (sum_of f.now g.now) }
    ensures sum { out.new ≡ placed (sum_of f.now g.now) out.old }
{
    if f.len() + g.len() <= 8 {
        let mut terms = [0u32; 8];
        let m = toggle_all(&mut terms, 0, 0, f);
        let n = toggle_all(&mut terms, m, 0, g);
        write(out, 0, &terms[..n]);
        return n;
    }
    let mut left = [0u64; 64];
    let mut right = [0u64; 64];
    let mut merged = [0u64; 128];
    let m = ordered_keys(0, f, &mut left, &mut merged);
    let n = ordered_keys(0, g, &mut right, &mut merged);
    let count = run::merge(&left[..m], &right[..n], &mut merged);
    write_masks(&merged[..count], out)
}
