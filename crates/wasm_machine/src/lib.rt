// The machine that carries out one instruction after another, over any algebra of words and any memory.
//
// `step` does what one step of the reduction does, at the configuration that a state of the machine stands for: it goes on,
// waits for a symbol, asks a question of a word, or ends. `bounds` tells whether a run's bounds on units and frames let it take
// the step; `Machine::copy` gives an equal machine. Inputs and answers are the affair of whoever runs it.
//
// What is to be believed stands in specs/: `States` (a state as plain data), `Values`, `Configurations` (which configuration a
// state stands for, and when a state is well-formed), `Acts` (what an instruction's function promises), `Stores` and `Steps` (what
// `step` promises). What stands in specs/code/ is of the code alone: the moves of the state, and where the questions of an
// instruction stand.
//
// What an instruction says is large to move. So the functions of common instructions, and the moves of the state, are inlined
// into their callers, which mostly look only at whether it goes on.
#![tactic(auto)]

pub mod bounds;
pub mod branches;
pub mod calls;
pub mod control;
pub mod copying;
pub mod crossing;
pub mod machine;
pub mod memory;
pub mod memory_instructions;
pub mod next;
pub mod numeric;
pub mod parametric;
pub mod progress;
pub mod ranges;
pub mod references;
pub mod step;
pub mod stores;
pub mod tables;
#[cfg(test)]
mod tests;
pub mod values;
pub mod variables;
