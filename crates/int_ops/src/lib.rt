// The integer operators of WebAssembly, by their opcodes.
//
// `un` and `bin` give what the chapter on numerics of the WebAssembly Core Specification 2.0 says, for every opcode of an
// operator on integers and all operands of its width: integers of N bits are numbers below 2^N, held in a `u64`. Where the
// standard leaves the result undefined, `bin` says why it traps; `total` gives what SMT-LIB says there. `byte` and `join`
// take integers apart and put them together. `laws` states what follows from the definitions. No call takes memory.
#![tactic(auto)]

mod apply;
mod bytes;
mod integers;
pub mod laws;
mod operators;
mod table;
mod values;

pub use apply::{bin, total, un};
pub use bytes::{byte, join};
pub use operators::{Binary, Operation, Operator, Trap, Unary, Width};
pub use table::operator;
