// Runs of masks: the keys of the products of terms, the subsets of a mask, products that differ in few variables, and areas in which
// masks move.
#![tactic(auto)]

pub mod few;
pub mod keys;
pub mod shift;

ghost use Rattle.std.specs.Prelude.{◌≡◌, ◌++◌, map, ◌+◌, ◌^◌, ◌≤◌, length, take};
ghost use Rattle.std.specs.Int.Bits.{bit_or};
ghost use Rattle.term.specs.Term.{degree_of};
ghost use Rattle.mask.specs.Mask.{subsets_of};

// Writes the first masks of an area once more behind themselves, each with a term joined to it.
fn double(out: &mut [u32], count: usize, joined: u32)
    requires { count + count ≤ length out.old }
    ensures { take (count + count) out.new ≡ take count out.old ++ map (bit_or joined) (take count out.old) }
{
    let (masks, copies) = out.split_at_mut(count);
    for (i, &mask) in masks.iter().enumerate() {
        copies[i] = joined | mask;
    }
}

// Writes every subset of a mask, and answers how many there are. It is for the crate polynomial, whose areas have room.
#[tactic(auto, using(crate::proofs::SubsetSteps::one_subset, crate::proofs::SubsetSteps::first_subset, crate::proofs::SubsetSteps::without_variable, crate::proofs::SubsetSteps::twice_as_many, crate::proofs::SubsetSteps::subsets_more))]
pub fn subsets(mask: u32, out: &mut [u32]) -> usize
    requires { 2 ^ degree_of mask ≤ length out.old }
    ensures count { result ≡ length (subsets_of 32 mask) }
    ensures masks { take result out.new ≡ subsets_of 32 mask }
{
    out[0] = 0;
    let mut count: usize = 1;
    for i in 0..32u32 {
        if (mask >> i) % 2 == 1 {
            double(out, count, 1u32 << i);
            count += count;
        }
    }
    count
}
