// Circuits of conditions, as clauses.
//
// A term of N bits is computed by gates over the bits of the symbols, and each gate says its value in clauses
// (bit-blasting, and Tseitin's translation). `clauses` gives the formula that says of an assignment that the bits of its
// symbols are an input at which each condition has its answer. Contracts see an `Items` as the list of its items.
#![tactic(auto)]

mod blocks;
mod formulas;
mod gates;
pub mod laws;
pub mod log_laws;
mod netlist;
mod operators;
mod order;
mod tasks;
mod terms;
mod wires;

pub use bv_terms::Cond;
pub use formulas::clauses;
