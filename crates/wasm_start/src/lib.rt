// How a run begins: instantiation and invocation (Execution, Modules).
//
// `start` makes the state of the machine in which a run of a module's function begins, over any algebra of words and any memory.
// A module is instantiated on plain values, since its constant expressions hold no other words; what it leaves is then taken
// over into words of the algebra. `memory_pages` says how large the memory is to be.
//
// `specs/Starts` says what `start` promises. What stands in `specs/code/` is of the code alone.
#![tactic(auto)]

mod allocation;
mod constants;
mod segments;
pub mod start;

pub use allocation::Stop;
