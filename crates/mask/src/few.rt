// Products of the terms of two runs that differ in few variables: apart from the variables that all these products have, each
// subset of the others has a place in a table, and each product toggles its place.
ghost use Rattle.std.specs.Prelude.{◌≡◌, map, ℕ, ◌^◌, ◌≤◌, ◌<◌, length, get_or, take, replicate};
ghost use Rattle.std.specs.Int.Bits.{bit_or};
ghost use Rattle.term.specs.Term.{degree_of};
ghost use Rattle.run.specs.Run.{All};
ghost use Rattle.mask.specs.Mask.{unions};
ghost use Rattle.mask.specs.Few.{united, variables_of, shared, common_of, varying_of, digit, with_digits, index_of, product_indices, toggled, marked, odd_subsets, most_variables};

use crate::subsets;

// The variables of a run of terms, joined to those of a mask. `shared_with` folds in the same way, by another operation: each has the
// definition that the crate names.
fn variables_with(mask: u32, terms: &[u32]) -> u32
    ensures { result ≡ united mask terms.now }
{
    terms.iter().fold(mask, |all, &term| all | term)
}

// The variables of two runs of terms.
fn variables(f: &[u32], g: &[u32]) -> u32
    ensures { result ≡ variables_of f.now g.now }
{
    variables_with(variables_with(0, f), g)
}

// The variables of a mask that every term of a run has.
fn shared_with(mask: u32, terms: &[u32]) -> u32
    ensures { result ≡ shared mask terms.now }
{
    terms.iter().fold(mask, |all, &term| all & term)
}

// The variables that every product of a term of f with a term of g has.
pub fn common(f: &[u32], g: &[u32]) -> u32
    ensures { result ≡ common_of f.now g.now }
{
    shared_with(u32::MAX, f) | shared_with(u32::MAX, g)
}

// The other variables of two runs of terms. It is for products in the crate polynomial, which asks `common` first.
pub fn varying(fixed: u32, f: &[u32], g: &[u32]) -> u32
    requires { fixed ≡ common_of f.now g.now }
    ensures { result ≡ varying_of f.now g.now }
{
    (variables(f, g) | fixed) ^ fixed
}

// How many variables there may be for so many pairs of terms, if a table is to pay.
pub fn most_variables(pairs: usize) -> u32
    ensures { result ≡ most_variables pairs }
{
    if pairs <= 64 {
        return 8;
    }
    if pairs <= 128 { 10 } else { 12 }
}

// A place where a term has a variable, and 0 where it has not.
fn digit_at(variable: u32, place: u32, term: u32) -> u32
    requires { variable < 32 }
    ensures { result ≡ digit variable place term }
{
    if (term >> variable) % 2 == 1 {
        place
    } else {
        0
    }
}

// Joins the digit of a variable to the index of each term of a run.
#[tactic(auto, using(crate::proofs::FewSteps::digits_more, crate::proofs::FewSteps::digits_all))]
fn add_digits(variable: u32, place: u32, terms: &[u32], out: &mut [u32])
    requires { (variable < 32) × (length terms.now ≡ length out.old) }
    ensures { out.new ≡ with_digits variable place terms.now out.old }
{
    for (i, &term) in terms.iter().enumerate() {
        out[i] |= digit_at(variable, place, term);
    }
}

// Writes the index of each term of a run within a mask, into an area of zeros.
#[tactic(auto, using(crate::proofs::FewSteps::no_digits, crate::proofs::FewSteps::digits_without, crate::proofs::FewSteps::indices_more, crate::proofs::SubsetSteps::without_variable, crate::proofs::SubsetSteps::twice_as_many, crate::proofs::SubsetSteps::one_subset, crate::proofs::SubsetSteps::few_subsets))]
fn indices(mask: u32, terms: &[u32], out: &mut [u32])
    requires { (degree_of mask ≤ 12) × (out.old ≡ replicate (length terms.now) 0) }
    ensures { out.new ≡ map (index_of 32 mask) terms.now }
{
    let mut place: u32 = 1;
    for i in 0..32 {
        if (mask >> i) % 2 == 1 {
            add_digits(i, place, terms, out);
            place += place;
        }
    }
}

// Toggles the place of the union of an index with each index of a run.
#[tactic(auto, unfolding(crate::specs::Few::toggled))]
fn toggle_row(index: u32, row: &[u32], table: &mut [u8])
    requires { All (λ u. bit_or index u < length table.old) row.now }
    ensures { table.new ≡ toggled table.old (map (bit_or index) row.now) }
{
    for &other in row {
        let place = (index | other) as usize;
        table[place] ^= 1;
    }
}

// Toggles the place of the union of each index of f with each index of g.
#[tactic(auto, using(crate::proofs::FewSteps::rows_more, crate::proofs::FewSteps::rows_all))]
fn toggle_pairs(f: &[u32], g: &[u32], table: &mut [u8])
    requires { All (λ t. All (λ u. bit_or t u < length table.old) g.now) f.now }
    ensures { table.new ≡ toggled table.old (unions f.now g.now) }
{
    for &index in f {
        toggle_row(index, g, table);
    }
}

// Toggles the place of the product of each term of f with each term of g.
fn toggle_products(mask: u32, f: &[u32], g: &[u32], table: &mut [u8])
    requires { (length f.now ≤ 64) × (length g.now ≤ 64) × (degree_of mask ≤ 12) × (2 ^ degree_of mask ≤ length table.old) }
    ensures { table.new ≡ toggled table.old (product_indices mask f.now g.now) }
{
    let m = f.len();
    let n = g.len();
    let mut left = [0u32; 64];
    let mut right = [0u32; 64];
    indices(mask, f, &mut left[..m]);
    indices(mask, g, &mut right[..n]);
    toggle_pairs(&left[..m], &right[..n], table);
}

// Brings the masks whose places in a table are 1 to the front, and answers how many they are.
#[tactic(auto, using(crate::proofs::FewSteps::chosen_more, crate::proofs::FewSteps::chosen_done))]
fn choose(masks: &mut [u32], table: &[u8]) -> usize
    requires { (length masks.old ≤ length table.now) × ((i : ℕ) → i < length table.now → get_or table.now i 0 ≤ 1) }
    ensures size { result ≤ length masks.old }
    ensures masks { take result masks.new ≡ marked masks.old table.now }
{
    let mut count: usize = 0;
    for i in 0..masks.len() {
        masks[count] = masks[i];
        count += table[i] as usize;
    }
    count
}

// Writes the subsets of a mask whose places an odd number of products of a term of f with a term of g have, by a table of zeros with
// a place for each subset. Answers how many they are. It is for the crate polynomial, whose areas have room.
pub fn odd_subsets(mask: u32, f: &[u32], g: &[u32], masks: &mut [u32], table: &mut [u8]) -> usize
    requires { let n = 2 ^ degree_of mask in
        (length f.now ≤ 64) × (length g.now ≤ 64) × (degree_of mask ≤ 12) × (n ≤ length masks.old) × (n ≤ length table.old)
        × (table.old ≡ replicate (length table.old) 0) }
    ensures size { result ≤ length masks.old }
    ensures masks { take result masks.new ≡ odd_subsets mask (length table.old) f.now g.now }
{
    toggle_products(mask, f, g, table);
    let places = subsets(mask, masks);
    choose(&mut masks[..places], table)
}
