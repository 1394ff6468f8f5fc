// Soundness of the reduction (Appendix, Soundness): a valid module never comes to what the standard has no rule for.
//
// specs/ says when values have a type and when what remains of a body is typed (`Values`), which configurations runs of valid
// modules come to (`Configurations`), and what is said of modules, arguments and runs (`Laws`), with a small module of which
// it holds (`Examples`). The laws are the contracts of functions that do nothing.
#![tactic(auto)]

pub mod laws;
#[cfg(test)]
mod tests;
