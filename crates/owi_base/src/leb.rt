// Numbers in LEB128 (Binary Format, Values: Integers).
use thiserror::Error;

pub mod signed;
pub mod unsigned;

/// Why bytes begin with no number.
#[derive(Clone, Copy, Debug, PartialEq, Eq, Error)]
pub enum LebBad {
    /// The bytes end inside the number.
    #[error("the bytes end inside a number")]
    Cut,
    /// The last byte that is permitted says that another follows.
    #[error("a number is too long")]
    Long,
    /// The last byte that is permitted has unused bits that aren't zero, or that don't repeat the sign.
    #[error("a number has wrong unused bits")]
    Range,
}
