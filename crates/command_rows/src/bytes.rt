// Bytes as they are written in the lines.
use row_words::digit;
use std::alloc::{AllocError, Global};

/// A word in which a backslash and two digits stand for a byte below 128.
pub fn unescaped(alloc: Global, text: &str) -> Result<String, AllocError> {
    let mut word = String::new(alloc);
    let mut parts = text.split('\\');
    word.push_str(parts.next().unwrap_or(""))?;
    for part in parts {
        let digits = part.as_bytes();
        if let [high, low, ..] = digits {
            let byte = digit(*high) * 16 + digit(*low);
            word.push(byte as char)?;
            word.push_str(part.get(2..).unwrap_or(""))?;
        }
    }
    Ok(word)
}

/// Appends bytes: those that are printed stand for themselves, but for the backslash.
pub fn put_written(answer: &mut String, written: &[u8]) -> Result<(), AllocError> {
    for byte in written {
        if matches!(*byte, b' '..=b'~') && *byte != b'\\' {
            answer.push(*byte as char)?;
        } else {
            write!(answer, "\\{:02x}", *byte)?;
        }
    }
    Ok(())
}
