// The tree of paths: which rows the exploration of a function has, and which inputs each of them covers.
//
// `specs/Nodes.antt` says what a node is and which inputs are its members, `specs/Tree.antt` how a node goes on, forks or is a
// row, and so which rows there are, `specs/Covers.antt` which inputs a row covers, `specs/Marks.antt` where the solver has given
// up, `specs/ShownTerms.antt` how the results of a path are shown. All of it speaks of runs on numbers; terms and clauses come in
// by marks and shown results alone. `specs/Refutations.antt` says which sides are left out and what refutes them. `laws` has what
// follows of the definitions.
#![tactic(auto)]

pub mod crossing;
pub mod drops;
pub mod laws;
pub mod rows;

pub use drops::Dropped;
pub use rows::{Bounds, Kind, Line, LineOp, Operand, Row, Shown, Terms};
