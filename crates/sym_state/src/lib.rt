// The state of a path: a run that stands for every input of its path.
//
// `start` gives the state of all inputs; `PathState::split`, `keep` and `assume` what follows from a question. `specs/Nodes.antt` says
// what a node is and which inputs are its members, `specs/NextNodes.antt` which nodes follow it, and `specs/States.antt` which node
// a path stands for, in two parts, `Follows` and `Least`; `specs/Fields.antt` reads a state as a path. `laws` has what holds of
// these definitions. What stands in `specs/code/` is of the code alone.
#![tactic(auto)]

pub mod cells;
pub mod config;
pub mod examples;
pub mod laws;
mod path_state;
mod splitting;
mod starting;
#[cfg(test)]
mod tests;

pub use config::{Config, End, Execution, Given, Standing};
pub use path_state::PathState;
pub use splitting::SplitNoMemory;
pub use starting::start;
