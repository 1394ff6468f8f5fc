//! Which lists of value types end with one another: for validation, where lists of thousands of types meet again and again.
//!
//! `Lists` gives the lists of a module's function types names, one to equal lists. `Ends` says of two names whether the one
//! list ends with the first types of the other, and whether both end alike, as far as that is known; `Seen` is a set of
//! names. `Uses` counts how often code uses each list: a heuristic that decides only which lists are made known. `Endings`,
//! below them, knows lists by number, as words of one tree, so that nothing is compared type by type.
//!
//! Each list that is added is a word, and so is each of its beginnings. Lists that begin alike share the words of what
//! they have in common, so there are never more words than the lists have types, and the empty one. Once the words are
//! linked (the automaton of Aho and Corasick over the four value types), `Endings::ends_with` takes a number of steps that
//! is about the logarithm of the length of a list. `Endings::begins_alike` compares the numbers of two words.
//!
//! In specs/ `Words`, `Lists` and `Seen` are what the public contracts speak of; specs/code/ is of the code alone. What is
//! promised is that an answer `true` is right. An answer `false` says nothing: the caller then compares type by
//! type.
#![tactic(auto)]

mod endings;
mod ends;
mod lists;
mod seen;
mod uses;
mod words;

pub use endings::Endings;
pub use ends::Ends;
pub use lists::{Listed, Lists};
pub use seen::Seen;
pub use uses::Uses;
