// One example: what an item of the data lends and gives, the open operation on it, what is left, and what was said. The crate is a part of the
// programs `worked_examples` and `lent_calls`, and nobody else calls it: its functions end and do nothing undefined, and promise no more.
#![tactic(auto)]

pub mod answer;
pub mod item;
pub mod state;
