// A solver of formulas in conjunctive normal form.
//
// It is a machine of four rules on a list of clauses and a trail of literals (conflict-driven clause learning). It
// decides on variables in a given order, always on false first, so that the model that it finds is the least; or it
// gives a log that refutes the formula, which `refute_check` accepts.
#![tactic(auto)]

mod analysis;
pub mod answer;
mod candidates;
pub mod crossing;
pub mod laws;
mod lists;
mod literals;
mod machine;
mod resolution;
mod rules;
pub mod solver;
mod trail;
mod watches;

pub use answer::Answer;
pub use solver::solve;
