// The product of two runs of terms.
ghost use Rattle.std.specs.Prelude.{◌≡◌, ◌*◌, ◌≤◌, length, take};
ghost use Rattle.polynomial.specs.Polynomial.{product_of, placed};

use crate::area::write;
use crate::few::product_few;
use crate::sorting::write_masks;
use crate::toggle::toggle_all;
use mask::few::{common, most_variables, varying};
use mask::keys::ordered_products;

// The product of two runs of terms by adding the products of their terms one by one, in an area with room for all.
#[tactic(auto, using(crate::proofs::Uses::uses_product_short_product), unfolding(run::specs::Run::normal_by, mask::specs::Mask::unions))]
fn short_product(f: &[u32], g: &[u32], out: &mut [u32]) -> usize
    requires { length f.now * length g.now ≤ length out.old }
    ensures size { result ≡ length (product_of f.now g.now) }
    ensures product { take result out.new ≡ product_of f.now g.now }
{
    let mut count: usize = 0;
    for factor in f {
        count = toggle_all(out, count, *factor, g);
    }
    count
}

// The product of two runs of terms by sorting, in areas that hold all the products of their terms.
#[tactic(auto, using(crate::proofs::Keys::product_masks))]
fn product_in<const ROOM: usize>(f: &[u32], g: &[u32], out: &mut [u32]) -> usize
    requires { (length f.now * length g.now ≤ ROOM) × (ROOM ≤ 4096) × (length out.old ≡ 64) }
    ensures size { result ≡ length (product_of f.now g.now) }
    ensures product { out.new ≡ placed (product_of f.now g.now) out.old }
{
    let mut keys = [0u64; ROOM];
    let mut spare = [0u64; ROOM];
    let count = ordered_products(f, g, &mut keys, &mut spare);
    write_masks(&keys[..count], out)
}

// The product of two runs of terms by a table where their products differ in few variables, else by sorting, in a small area
// where that does, since an area is cleared each time.
#[tactic(auto, using(mask::specs::FewLaws::most_few, crate::proofs::Keys::most_products))]
fn long_product(f: &[u32], g: &[u32], out: &mut [u32]) -> usize
    requires { (length f.now ≤ 64) × (length g.now ≤ 64) × (length out.old ≡ 64) }
    ensures size { result ≡ length (product_of f.now g.now) }
    ensures product { out.new ≡ placed (product_of f.now g.now) out.old }
{
    let pairs = f.len() * g.len();
    let fixed = common(f, g);
    let mask = varying(fixed, f, g);
    if term::degree(mask) <= most_variables(pairs) {
        return product_few(fixed, mask, f, g, out);
    }
    if pairs <= 256 {
        return product_in::<256>(f, g, out);
    }
    product_in::<4096>(f, g, out)
}

// Writes f g to the front of an area of 64, where it fits. Answers how many terms it has. Few products of terms are added one by one.
// A long product has the shorter run first, so that its inner loops are long. It is called at two places, which also keeps it a
// function of its own: the areas that it needs are then not laid out for a short product. It is for `Polynomial::product` and
// `Polynomial::plus_product`.
#[tactic(auto, using(crate::proofs::Uses::uses_product_write_product))]
pub fn write_product(f: &[u32], g: &[u32], out: &mut [u32]) -> usize
    requires { (length f.now ≤ 64) × (length g.now ≤ 64) × (length out.old ≡ 64) }
    ensures size { result ≡ length (product_of f.now g.now) }
    ensures product { out.new ≡ placed (product_of f.now g.now) out.old }
{
    if f.len() * g.len() <= 16 {
        let mut terms = [0u32; 16];
        let n = short_product(f, g, &mut terms);
        write(out, 0, &terms[..n]);
        return n;
    }
    if g.len() < f.len() {
        return long_product(g, f, out);
    }
    long_product(f, g, out)
}
