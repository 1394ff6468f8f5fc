// What WebAssembly's instructions do, over any kind of words.
//
// A machine for WebAssembly is written once, for runs on numbers and for runs whose words are terms over symbols. Here is
// what it asks of words: `Algebra`, whose calls are the operators with their law, and `Numbers`, the words of a plain run.
// `load_word` and `store_bytes` make words of bytes and bytes of words, for every algebra. Laws of any kind of words are stated
// over `Words`.
#![tactic(auto)]

mod accesses;
mod algebra;
pub mod laws;
mod memory_words;
#[cfg(test)]
mod tests;
mod words;

pub use accesses::Access;
pub use algebra::{Algebra, Numbers};
pub use memory_words::{load_word, store_bytes};
pub use words::{Blanks, Words, WordsOf};
