// The cells of a memory, which may be forked.
//
// `Pages` is a list of cells: contracts see it as that list. The cells lie in chunks of 1,024, which forks share for as long as
// none of them writes there, and cells that were never written share one chunk of zeros. `specs/Cells.antt` says what is
// written over what.
#![tactic(auto)]

pub mod chunk;
pub mod crossing;
pub mod pages;
mod ranges;

pub use pages::Pages;
