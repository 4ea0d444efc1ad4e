// FNV-1a, 64 bits: a code of any run of bytes.
#![tactic(auto)]

ghost use Rattle.std.specs.Prelude.{◌≡◌, ◌*◌, ◌%◌, ◌^◌};
ghost use Rattle.fnv.specs.Fnv.{basis, add_byte, add_bytes};
ghost use Rattle.fnv.specs.Halves.{product_by_halves};

// The code of no bytes.
const BASIS: u64 = 14695981039346656037;

// What each byte multiplies the code by.
const PRIME: u64 = 1099511628211;

// The code that every code starts from.
pub fn start() -> u64
    ensures { result ≡ basis }
{
    BASIS
}

// a * b modulo 2^64, for any a and b. `halves`: that is also what products of halves of 32 bits make, none of which takes more than 64
// bits.
pub fn multiply(a: u64, b: u64) -> u64
    ensures product { result ≡ a * b % 2 ^ 64 }
    ensures halves { result ≡ product_by_halves 32 a b }
{
    a.wrapping_mul(b)
}

// The code with one byte added. The byte goes in before the multiplication, which then spreads it
// over the code: that order is what makes this FNV-1a and not FNV-1.
#[tactic(auto, unfolding(crate::specs::Fnv::add_byte))]
pub fn add_byte(code: u64, byte: u8) -> u64
    ensures { result ≡ add_byte code byte }
{
    multiply(code ^ (byte as u64), PRIME)
}

// The code with all the bytes added, the first one first. Bytes may come in parts: adding two runs
// one after the other gives the code of the two joined.
#[tactic(auto, unfolding(crate::specs::Fnv::add_bytes))]
pub fn add_bytes(code: u64, bytes: &[u8]) -> u64
    ensures { result ≡ add_bytes code bytes.now }
{
    let mut sum = code;
    for &byte in bytes {
        sum = add_byte(sum, byte);
    }
    sum
}
