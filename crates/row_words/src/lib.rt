//! What programs of rows share: the words of a line, bytes in hexadecimal, and modules to begin with.
//!
//! It is for cases that are tried, and promises nothing but that it is safe.
#![tactic(auto)]

pub mod bytes;
pub mod making;
pub mod words;

pub use bytes::{bytes_of, digit, put_bytes};
pub use making::{empty_module, none, one};
pub use words::{Words, numbers, words_of};
