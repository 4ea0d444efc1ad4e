// Terms: a term is a set of variables, kept as a 32-bit mask.
#![tactic(auto)]

ghost use Rattle.std.specs.Prelude.{◌≡◌, ◌<◌, ◌^◌, length};
ghost use Rattle.term.specs.Term.{degree_of, before, key_of, keys_with};

// How many variables a term has, by the language's own count of ones (02, Ask 4).
pub fn degree(mask: u32) -> u32
    ensures { result ≡ degree_of mask }
{
    mask.count_ones()
}

// One number for a term, degree * 2^32 + mask: its descending order is the written order.
#[tactic(auto, using(crate::specs::OrderLaws::key_small), unfolding(crate::specs::Term::key_of))]
pub fn key(mask: u32) -> u64
    ensures exact { result ≡ key_of mask }
    ensures small { result < 2 ^ 38 }
{
    (degree(mask) as u64) * 4294967296 + (mask as u64)
}

// Whether a stands before b in the written order: the higher degree first, at equal degree the larger mask.
#[tactic(auto, using(crate::specs::OrderLaws::key_before))]
pub fn precedes(a: u32, b: u32) -> bool
    ensures { result ≡ before a b }
{
    key(b) < key(a)
}

// Writes the keys of the products of a term with each term of a run. It is for the crate `mask`, whose functions lend an area of the
// run's length.
pub fn keys_with(term: u32, terms: &[u32], out: &mut [u64])
    requires { length terms.now ≡ length out.old }
    ensures { out.new ≡ keys_with term terms.now }
{
    for (i, &other) in terms.iter().enumerate() {
        out[i] = key(term | other);
    }
}
