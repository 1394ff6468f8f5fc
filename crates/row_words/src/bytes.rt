// Bytes in hexadecimal.
ghost use Rattle.std.specs.Prelude.{◌<◌};

use std::alloc::{AllocError, Global};
use std::fmt::Write;

/// The bytes that hexadecimal digits write, two each. Other characters count as 0.
pub fn bytes_of(alloc: Global, text: &str) -> Result<Vec<u8>, AllocError> {
    let mut bytes = Vec::new(alloc);
    for pair in text.as_bytes().chunks_exact(2) {
        bytes.push(digit(pair[0]) * 16 + digit(pair[1]))?;
    }
    Ok(bytes)
}

/// The number of a hexadecimal digit. Another character counts as 0.
pub fn digit(c: u8) -> u8
    ensures { result < 16 }
{
    match c {
        b'0'..=b'9' => c - b'0',
        b'a'..=b'f' => c - b'a' + 10,
        b'A'..=b'F' => c - b'A' + 10,
        _ => 0,
    }
}

/// Appends the bytes in hexadecimal.
pub fn put_bytes(out: &mut String, bytes: &[u8]) -> Result<(), AllocError> {
    for byte in bytes {
        write!(out, "{byte:02x}")?;
    }
    Ok(())
}
