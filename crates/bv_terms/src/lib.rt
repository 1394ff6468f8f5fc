// Terms over symbols: the words of a run on all inputs at once.
//
// A term is a tree over numbers, symbols and the operators of WebAssembly's integers; at an input, which gives the symbols
// their numbers, it has a value. `Graph` keeps terms, each distinct term once, and makes them by the making rules, which are
// tried in their order; it is an algebra, so instructions compute on its words as on numbers, and each result has at every
// input the value that the operator gives of the values of its operands. `value_at` gives the value of a word at an input. `laws` states what follows from the definitions.
#![tactic(auto)]

mod algebra;
mod comparisons;
pub mod crossing;
mod forms;
mod graph;
mod key;
pub mod laws;
mod merging;
mod operations;
mod rules;
mod segment;
mod values;
mod words;

pub use graph::Graph;
pub use values::{Marks, value_at};
pub use words::{Cond, Form, TermId, Word};
