// Why bytes are no module.
ghost use Rattle.std.specs.Prelude.{◌≡◌};
ghost use Rattle.wasm_read.specs.declared.bad.ReadBad.TheVariants.{NoMemory};

use std::alloc::{AllocError, AllocFailed};
use thiserror::Error;

/// Why bytes are no module of the profile: the first trouble that reading them from left to right meets.
///
/// Places are numbers of bytes from the start, in `at`. (Binary Format)
#[derive(Clone, Copy, Debug, PartialEq, Eq, Error)]
pub enum ReadBad {
    /// The input ends where a form needs a byte, and no stated end lies there. The place is the input's length.
    #[error("byte {at}: the input is cut")]
    Cut { at: u64 },
    /// One of the first eight bytes differs from the magic number and the version; the first such byte.
    #[error("byte {at}: not the magic number and the version")]
    Magic { at: u64 },
    /// A number is too long, or its unused bits aren't zero or don't repeat the sign; its first byte.
    #[error("byte {at}: a number is too long or has wrong unused bits")]
    Leb { at: u64 },
    /// No form begins with this byte. Of a number that no form has, the place is its first byte.
    #[error("byte {at}: no form begins with this byte")]
    Byte { at: u64 },
    /// A name isn't UTF-8; the first byte after its count.
    #[error("byte {at}: a name is not UTF-8")]
    Utf8 { at: u64 },
    /// A section stands twice or out of order; its id.
    #[error("byte {at}: a section is repeated or out of order")]
    Order { at: u64 },
    /// Contents need a byte past the nearest stated end, which is the place; or they end before it, and the place is the
    /// first byte left.
    #[error("byte {at}: contents do not end at their stated end")]
    Size { at: u64 },
    /// The counts of functions and codes, or of announced and present data segments, differ: the earlier one and the later
    /// one. The place is the first byte of the later count, or the input's length where its section is missing.
    #[error("byte {at}: the counts {left} and {right} differ")]
    Count { left: u64, right: u64, at: u64 },
    /// An instruction names a data segment, and there is no data count section; its first byte.
    #[error("byte {at}: a data segment is named without a data count section")]
    DataCount { at: u64 },
    /// A type or an instruction of floating-point numbers or vectors; its first byte.
    #[error("byte {at}: floating-point numbers and vectors are outside of the profile")]
    Outside { at: u64 },
    /// A function has more than 50,000 locals: their sum with the group that passes this bound; that group's first byte.
    #[error("byte {at}: a function has {sum} locals, more than 50000")]
    Locals { sum: u64, at: u64 },
    /// Memory ran out.
    #[error("out of memory")]
    NoMemory,
}

impl From<AllocError> for ReadBad {
    ghost from_gives = { λ _ bad. bad ≡ NoMemory };

    fn from(_wanting: AllocError) -> ReadBad {
        ReadBad::NoMemory
    }
}

impl<T: Drop> From<AllocFailed<T>> for ReadBad {
    ghost from_gives = { λ _ bad. bad ≡ NoMemory };

    fn from(_wanting: AllocFailed<T>) -> ReadBad {
        ReadBad::NoMemory
    }
}
