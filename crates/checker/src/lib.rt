// The operations as callers use them. Each tests what it is lent, reads its lines into a table, works on them, and writes back what
// is left. The areas are parameters of their own, as callers lend them.
#![tactic(auto)]

mod admission;
mod checking;
mod filing;
mod stepping;
mod writing;

pub use checking::check_derivation;
pub use filing::{Filed, file_problem};
pub use stepping::take_step;
pub use writing::write_line;
