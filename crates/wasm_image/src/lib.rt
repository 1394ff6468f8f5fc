// What is run: a valid module with what a run asks of it again and again, and the refusals of what can't be run.
//
// specs/ says what a host function is (`Hosts`), which sizes are too large (`Sizes`), which function an export names and
// which arguments it takes (`Entries`), and when an image is ready to be run (`Ready`).
#![tactic(auto)]

pub mod crossing;
pub mod entries;
pub mod hosts;
pub mod images;
pub mod imports;
pub mod laws;
pub mod sizes;

pub use entries::{EntryBad, entry_of};
pub use hosts::Host;
pub use images::Image;
pub use imports::unlinked;
pub use sizes::{Large, too_large};
