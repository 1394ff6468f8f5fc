// Clauses, and refutations of them that are checked.
//
// A formula in conjunctive normal form and a log of resolutions over it go in; where each resolution is right and the
// last gives the empty clause, no assignment meets the formula, and the two come out as a `Refutation`, whose type says
// so. Contracts see an `Items` as the list of its items.
#![tactic(auto)]

pub mod checker;
pub mod crossing;
pub mod formulas;
pub mod items;
pub mod laws;
pub mod logs;
pub mod refutation;
mod resolution;

pub use checker::{AcceptBad, accept};
pub use formulas::{Clause, Cnf};
pub use items::Items;
pub use logs::{Chain, Log, copy_log};
pub use refutation::Refutation;
