// Reading the binary form of WebAssembly.
//
// `read_module` reads the modules of the profile: it answers the module that the bytes as a whole spell, or their first
// trouble with its place. `read_stripped` answers the same module without its custom sections, which it reads and passes
// over, or the same trouble. The grammar and the troubles stand in `wasm_binary`.
#![tactic(auto)]

mod assembly;
mod bad;
mod codes;
mod contents;
mod counts;
mod customs;
mod enclosing;
mod entries;
mod entries_by;
mod exact_lists;
mod expressions;
mod framing;
mod groups;
mod imports;
mod instructions;
mod module;
mod names;
mod nests;
mod numbers;
mod opcodes;
mod passing;
mod reading;
mod sections;
mod segments;
mod table_instructions;
mod type_entries;
mod types;
mod views;

pub use bad::ReadBad;
pub use module::{read_module, read_stripped};
