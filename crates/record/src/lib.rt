// The bodies of records: numbers in bytes, the lowest byte first. `None` says that the body is cut short.
#![tactic(auto)]

ghost use Rattle.std.specs.Prelude.{◌≡◌};
ghost use Rattle.record.specs.Record.{byte_in, mask_in, amount_in, clause_in};

// A body of a clause: the plain mask, the negated mask, the weight.
#[derive(Clone, Copy)]
pub struct Clause {
    pub plain: u32,
    pub negated: u32,
    pub weight: i64,
}

// Reads a body of one byte.
pub fn read_byte(bytes: &[u8], at: usize) -> Option<u8>
    ensures { result ≡ byte_in bytes.now at }
{
    bytes.get(at).copied()
}

// Reads a body of a mask.
pub fn read_mask(bytes: &[u8], at: usize) -> Option<u32>
    ensures { result ≡ mask_in bytes.now at }
{
    let mask = bytes.get(at..)?.first_chunk()?;
    Some(u32::from_le_bytes(*mask))
}

// Reads a body of a weight, an amount or a claim. A function for both would need a trait for `from_le_bytes`, which each type has alone.
pub fn read_amount(bytes: &[u8], at: usize) -> Option<i64>
    ensures { result ≡ amount_in bytes.now at }
{
    let amount = bytes.get(at..)?.first_chunk()?;
    Some(i64::from_le_bytes(*amount))
}

// Reads a body of a clause.
pub fn read_clause(bytes: &[u8], at: usize) -> Option<Clause>
    ensures { result ≡ clause_in bytes.now at }
{
    Some(Clause {
        plain: read_mask(bytes, at)?,
        negated: read_mask(bytes, at + 4)?,
        weight: read_amount(bytes, at + 8)?,
    })
}
