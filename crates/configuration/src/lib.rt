// Weighted lines: the mathematics of configurations stands in `specs`; in code, tests of terms and of weights.
#![tactic(auto)]

pub mod area;
pub mod form;
pub mod weight;
