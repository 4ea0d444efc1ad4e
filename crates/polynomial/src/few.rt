// Products of polynomials that differ in few variables, by a table with a place for each subset of these. These functions are for
// this crate.
ghost use Rattle.std.specs.Prelude.{◌≡◌, map, ◌^◌, ◌≤◌, length, replicate};
ghost use Rattle.std.specs.Int.Bits.{bit_and, bit_or};
ghost use Rattle.term.specs.Term.{degree_of};
ghost use Rattle.run.specs.Run.{All, IsSorted};
ghost use Rattle.mask.specs.Mask.{ascending};
ghost use Rattle.mask.specs.Few.{common_of, varying_of};
ghost use Rattle.polynomial.specs.Polynomial.{normal, product_of, placed};

use crate::sorting::write_masks;
use mask::few::odd_subsets;
use mask::keys::ordered_keys;

// Writes the sum of the masks of a run, each joined to a mask that is apart from all of them, to the front of an area, where it
// fits. Answers how many terms it has. The run ascends.
#[tactic(auto, using(crate::proofs::Uses::uses_few_arranged))]
fn arranged(fixed: u32, masks: &[u32], out: &mut [u32]) -> usize
    requires { IsSorted ascending masks.now × All (λ t. bit_and fixed t ≡ 0) masks.now × (length out.old ≡ 64) }
    ensures size { result ≡ length (normal (map (bit_or fixed) masks.now)) }
    ensures sum { out.new ≡ placed (normal (map (bit_or fixed) masks.now)) out.old }
{
    let count = masks.len();
    if 64 < count {
        return count;
    }
    let mut keys = [0u64; 64];
    let mut spare = [0u64; 64];
    let n = ordered_keys(fixed, masks, &mut keys, &mut spare);
    write_masks(&keys[..n], out)
}

// The product of two runs of terms, of which one mask has the variables that every product has, and another the rest, by a
// table with a place for each subset of the latter.
#[tactic(auto, using(crate::proofs::Uses::uses_few_product_by))]
fn product_by<const PLACES: usize>(
    fixed: u32,
    mask: u32,
    f: &[u32],
    g: &[u32],
    out: &mut [u32],
) -> usize
    requires { let p = f.now in let q = g.now in
        (length p ≤ 64) × (length q ≤ 64) × (fixed ≡ common_of p q) × (mask ≡ varying_of p q) × (degree_of mask ≤ 12)
        × (2 ^ degree_of mask ≤ PLACES) × (PLACES ≤ 4096) × (length out.old ≡ 64) }
    ensures size { result ≡ length (product_of f.now g.now) }
    ensures product { out.new ≡ placed (product_of f.now g.now) out.old }
{
    let mut masks = [0u32; PLACES];
    let mut table = [0u8; PLACES];
    let count = odd_subsets(mask, f, g, &mut masks, &mut table);
    arranged(fixed, &masks[..count], out)
}

// The product of two runs of terms, of which one mask has the variables that every product has, and another the rest, at most 12.
// Few variables get small areas, since an area is cleared each time.
#[tactic(auto, using(crate::proofs::Uses::uses_few_product_few))]
pub fn product_few(fixed: u32, mask: u32, f: &[u32], g: &[u32], out: &mut [u32]) -> usize
    requires { let p = f.now in let q = g.now in
        (length p ≤ 64) × (length q ≤ 64) × (fixed ≡ common_of p q) × (mask ≡ varying_of p q) × (degree_of mask ≤ 12) × (length out.old ≡ 64) }
    ensures size { result ≡ length (product_of f.now g.now) }
    ensures product { out.new ≡ placed (product_of f.now g.now) out.old }
{
    if term::degree(mask) <= 8 {
        return product_by::<256>(fixed, mask, f, g, out);
    }
    product_by::<4096>(fixed, mask, f, g, out)
}
