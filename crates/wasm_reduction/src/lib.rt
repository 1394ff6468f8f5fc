// The reduction of WebAssembly (Execution), over any kind of words, and what follows of its definitions alone.
//
// The definitions are in specs/, in the order of the standard's chapter: Configurations, the instructions by their groups,
// Steps, Instantiation, and Runs, which has the bounded run. Images and Maps say what maps of words make of them, Widths which
// widths the words of a configuration have; Scripts has a bounded run as plain data, question after question. Here are the laws that hold of them, each the contract of a function that does
// nothing; `ranges` reads a module through, so that the bounds of its numbers are known of it as data.
#![tactic(auto)]

pub mod constants;
pub mod examples;
pub mod laws;
pub mod ranges;
pub mod scripts;
#[cfg(test)]
mod tests;
