// Questions about the inputs of a path.
//
// A path's conditions say of each input whether it takes the path. `other_side` gives the least input that meets conditions,
// or shows that none does; `least_value` gives the least value that a term has at such an input. Both ask the solver of
// clauses, within a number of conflicts, and say so where it gave up. Inputs are compared by their numbers, the first
// symbol's first.
#![tactic(auto)]

pub mod crossing;
mod inputs;
pub mod questions;
pub mod verdict_laws;
pub mod verdicts;

pub use questions::{least_value, other_side};
pub use verdicts::{Pick, Verdict};
