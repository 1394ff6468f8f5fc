//! Grammars over bytes, in which form follows form.
//!
//! A form says three things of a kind of value at once (`specs/Forms.antt`): which texts spell a value, what the first trouble is
//! of bytes that are to go on with one, and what a reader finds that goes from left to right. A grammar is one term over a few
//! ways of putting forms together, and that the three belong together (`specs/Laws.antt`) is proved once for each way: it then
//! holds of every grammar. Nothing here knows of WebAssembly.
#![tactic(auto)]

pub mod laws;
