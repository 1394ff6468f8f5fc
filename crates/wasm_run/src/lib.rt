// Running a function of a module on an input.
//
// `run` carries out the bounded run: what the standard's reduction comes to, with numbers of the input as its symbols, within
// bounds on steps and on frames. `specs/Bounded.antt` says what the call asks for and what it gives; the bounded run itself is
// defined with the reduction. What stands in `specs/code/` is of the code alone.
#![tactic(auto)]

mod accesses;
mod bounded;
mod bytes;
mod fast_path;
mod page;
mod turns;

pub use bounded::run;
