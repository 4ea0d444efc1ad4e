// Weighted Polynomial Calculus: the rules and the two modes. What a step is stands in specs; the crate `step` takes one.

// The rules of document 004, and document 02's record E: `Hard` has the number of a hard polynomial, from 1.
#![tactic(auto)]

#[derive(Clone, Copy)]
pub enum Rule {
    Sum,
    Prod,
    Hard(u32),
}

// Document 01's plain and signed mode: weights in the natural numbers, weights in the whole numbers.
#[derive(Clone, Copy)]
pub enum Mode {
    Plain,
    Signed,
}
