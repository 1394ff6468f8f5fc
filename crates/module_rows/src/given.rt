// The bytes of a case.
use row_words::{Words, bytes_of};
use std::alloc::{AllocError, Global};

/// The magic number and the version.
const FRONT: [u8; 8] = [0x00, 0x61, 0x73, 0x6D, 0x01, 0x00, 0x00, 0x00];

/// What stands before the code section of a module with one function.
const BEFORE_CODE: [u8; 26] = [
    0x00, 0x61, 0x73, 0x6D, 0x01, 0x00, 0x00, 0x00, 0x01, 0x05, 0x01, 0x60, 0x00, 0x01, 0x7F, 0x03,
    0x02, 0x01, 0x00, 0x07, 0x05, 0x01, 0x01, 0x66, 0x00, 0x00,
];

/// The bytes that the words write, up to a slash or the end.
pub fn given(alloc: Global, words: &mut Words) -> Result<Vec<u8>, AllocError> {
    let mut bytes = Vec::new(alloc);
    for _ in 0..1_000_000 {
        let Some(word) = words.next() else {
            break;
        };
        if word == "/" {
            break;
        }
        match word {
            "front" => bytes.extend_from_slice(FRONT.as_slice())?,
            "function" => bytes.extend_from_slice(BEFORE_CODE.as_slice())?,
            "code" => {
                let entry = given_digits(alloc, words.next().unwrap_or(""))?;
                put_code(&mut bytes, entry.as_slice())?;
            }
            _ => bytes.extend_from_slice(given_digits(alloc, word)?.as_slice())?,
        }
    }
    Ok(bytes)
}

// A code section with one entry of fewer than 100 bytes.
fn put_code(bytes: &mut Vec<u8>, entry: &[u8]) -> Result<(), AllocError> {
    if entry.len() < 100 {
        let size = entry.len() as u8;
        bytes.extend_from_slice([0x0A, size + 2, 0x01, size].as_slice())?;
    }
    bytes.extend_from_slice(entry)
}

// Hexadecimal digits, or as many times the same as the number after a star says, at most a million.
fn given_digits(alloc: Global, word: &str) -> Result<Vec<u8>, AllocError> {
    let Some((digits, count)) = word.split_once("*") else {
        return bytes_of(alloc, word);
    };
    let once = bytes_of(alloc, digits)?;
    let count = count.parse::<u32>().unwrap_or(0).min(1_000_000);
    let mut bytes = Vec::new(alloc);
    for _ in 0..count {
        bytes.extend_from_slice(once.as_slice())?;
    }
    Ok(bytes)
}
