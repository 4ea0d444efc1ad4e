// Why an operation refuses. Documents 01 and 02 number the kinds of refusal; some tell a second number, a detail.
#![tactic(auto)]

ghost use Rattle.std.specs.Prelude.{◌≡◌};
ghost use Rattle.refusal.specs.Refusal.{refusal_of};

#[derive(Clone, Copy, Debug, PartialEq, Eq)]
pub enum Reason {
    // A lent area has another length than it must have.
    WrongLength,
    // The lent standing is not well formed.
    IllFormed,
    // A record's body is cut short.
    CutShort,
    // A record of an unknown kind, or in a place where its kind may not stand.
    Misplaced,
    // More than 32 variables.
    TooManyVariables,
    // A variable beyond the problem's variables.
    UnknownVariable,
    // A polynomial of more than 64 terms, and how many it has. A clause may have 2^32.
    TooManyTerms(u64),
    // A weight, an amount or a claim outside its range.
    OutOfRange,
    // Plain mode: the weight that a step takes is not there.
    WeightMissing,
    // More than 128 lines.
    TooManyLines,
    // A line's weight beyond 10^12, on either side of zero.
    WeightTooLarge,
    // A line is negative where none may be.
    NegativeLine,
    // The claim is above the weight of the polynomial 1.
    ClaimTooHigh,
    // A text is longer than the area that it is to be written into.
    TextTooLong,
    // The bytes end where they may not.
    Unfinished,
    // The terms of a polynomial are not in strict written order.
    UnorderedTerms,
    // There is no line of this number.
    NoSuchLine,
    // A seventeenth hard polynomial.
    TooManyHard,
    // There is no hard polynomial of this number.
    NoSuchHard,
}

// What an operation refuses, and why: the number of the record, or 0 where it is what was lent.
#[derive(Clone, Copy)]
pub struct Refused {
    pub record: u64,
    pub reason: Reason,
}

// The number of a reason in documents 01 and 02. A function of this name, since callers and docs/GUARANTEES.md know it by that.
pub fn number(reason: Reason) -> u32
    ensures { result ≡ (refusal_of reason).number }
{
    match reason {
        Reason::WrongLength => 1,
        Reason::IllFormed => 2,
        Reason::CutShort => 3,
        Reason::Misplaced => 4,
        Reason::TooManyVariables => 5,
        Reason::UnknownVariable => 6,
        Reason::TooManyTerms(_) => 7,
        Reason::OutOfRange => 8,
        Reason::WeightMissing => 9,
        Reason::TooManyLines => 10,
        Reason::WeightTooLarge => 11,
        Reason::NegativeLine => 12,
        Reason::ClaimTooHigh => 13,
        Reason::TextTooLong => 14,
        Reason::Unfinished => 15,
        Reason::UnorderedTerms => 16,
        Reason::NoSuchLine => 17,
        Reason::TooManyHard => 18,
        Reason::NoSuchHard => 19,
    }
}
