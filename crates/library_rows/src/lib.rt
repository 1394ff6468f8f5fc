// What no line of a program of rows can say of the library: that modules cross threads.
#![tactic(auto)]

#[cfg(test)]
mod modules;
