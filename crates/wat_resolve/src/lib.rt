// Names to positions: the second pass over a module in the text format.
//
// `Resolved.antt` of wasm_text says which module a written one stands for, `NameTroubles.antt` what its names and its uses of types
// are at fault with, and `resolve` gives the one or the fault of least place.
#![tactic(auto)]

mod each;
mod expressions;
mod fields;
mod groups;
mod ids;
mod inside;
mod modules;
mod noting;
mod scopes;
mod types;

pub use modules::resolve;
