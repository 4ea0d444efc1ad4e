// The sum of a run of terms and the product of two others.
ghost use Rattle.std.specs.Prelude.{◌≡◌, map, ◌≤◌, length, take};
ghost use Rattle.term.specs.Term.{key_of};
ghost use Rattle.polynomial.specs.Polynomial.{sum_of, product_of, placed};

use crate::product::write_product;
use crate::sorting::write_masks;
use crate::sum::write_sum;
use mask::few::{common, most_variables, odd_subsets, varying};
use mask::keys::{ordered_keys, ordered_products};

// Writes the keys of the terms of q h, in order: by a table where the products of their terms differ in few variables, else by sorting.
// Answers how many they are, at the front. The spare area is work space.
#[tactic(auto, using(crate::proofs::Uses::uses_plus_product_keys))]
fn product_keys(q: &[u32], h: &[u32], keys: &mut [u64], spare: &mut [u64]) -> usize
    requires { (length q.now ≤ 64) × (length h.now ≤ 64) × (4096 ≤ length keys.old) × (4096 ≤ length spare.old) }
    ensures size { result ≤ 4096 }
    ensures numbers { take result keys.new ≡ map key_of (product_of q.now h.now) }
{
    let pairs = q.len() * h.len();
    let fixed = common(q, h);
    let mask = varying(fixed, q, h);
    if term::degree(mask) <= most_variables(pairs) {
        let mut masks = [0u32; 4096];
        let mut table = [0u8; 4096];
        let count = odd_subsets(mask, q, h, &mut masks, &mut table);
        return ordered_keys(fixed, &masks[..count], keys, spare);
    }
    ordered_products(q, h, keys, spare)
}

// f + q h where q h may have more than 64 terms: the keys of f and those of q h are put in order, and then merged.
fn long_plus_product(f: &[u32], q: &[u32], h: &[u32], out: &mut [u32]) -> usize
    requires { (length f.now ≤ 64) × (length q.now ≤ 64) × (length h.now ≤ 64) × (length out.old ≡ 64) }
    ensures size { result ≡ length (sum_of f.now (product_of q.now h.now)) }
    ensures sum { out.new ≡ placed (sum_of f.now (product_of q.now h.now)) out.old }
{
    let mut left = [0u64; 64];
    let mut right = [0u64; 4096];
    let mut merged = [0u64; 4160];
    let m = ordered_keys(0, f, &mut left, &mut merged);
    let n = product_keys(q, h, &mut right, &mut merged);
    let count = run::merge(&left[..m], &right[..n], &mut merged);
    write_masks(&merged[..count], out)
}

// Writes f + q h to the front of an area of 64, where it fits. Answers how many terms it has. Where q and h have few products of terms,
// q h is worked out by itself, since it fits. A long product has the shorter run first, so that its inner loops are long. It is called
// at two places, which also keeps it a function of its own: the areas that it needs are then not laid out for a short result. It is for
// `Polynomial::plus_product`.
#[tactic(auto, using(crate::proofs::Uses::uses_plus_write_plus_product))]
pub fn write_plus_product(f: &[u32], q: &[u32], h: &[u32], out: &mut [u32]) -> usize
    requires { (length f.now ≤ 64) × (length q.now ≤ 64) × (length h.now ≤ 64) × (length out.old ≡ 64) }
    ensures size { result ≡ length (sum_of f.now (product_of q.now h.now)) }
    ensures sum { out.new ≡ placed (sum_of f.now (product_of q.now h.now)) out.old }
{
    if q.len() * h.len() <= 64 {
        let mut product = [0u32; 64];
        let n = write_product(q, h, &mut product);
        return write_sum(f, &product[..n], out);
    }
    if h.len() < q.len() {
        return long_plus_product(f, h, q, out);
    }
    long_plus_product(f, q, h, out)
}
