// Validation of WebAssembly modules: `check` tells whether a well-formed module is valid, and names the first fault of one
// that isn't.
//
// What is valid is defined in specs/, to be read beside the chapter Validation of the WebAssembly Core Specification 2.0:
// `Operands` (the types of operands), `Operators` (types by opcode), `Trees` (sequences of instructions inside one
// another), `Contexts`, `Instructions` (one rule an instruction, and typing of sequences), `Constants`, `Modules` (when
// a module is valid) and `Faults` (which fault of a module is its first). `Spaces` is what `spaces_of`, which is public
// too, promises of the index spaces. No public contract speaks of what stands in specs/code/. That the checker of bodies
// passes the valid ones, and stops at the first fault of the others, is proved in proofs/. `laws` has what follows of the
// definitions alone.
#![tactic(auto)]

mod act;
mod body;
mod calls;
mod checked;
mod constants;
pub mod crossing;
mod declared;
mod entries;
mod exports;
mod fields;
mod functions;
pub mod laws;
mod limits;
mod locals;
mod memories;
mod numbers;
mod open;
mod operands;
mod plain;
mod scope;
mod sections;
pub mod spaces;
mod stack;
mod tables;
mod uses;
mod variables;
mod walk;
mod why;

pub use checked::{Checked, Unchecked, check};
pub use why::Why;
