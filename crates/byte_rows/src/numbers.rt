// Numbers in LEB128.
use owi_base::{LebBad, leb_s, leb_u, put_s, put_u};
use row_words::{Words, bytes_of, put_bytes};
use std::alloc::{AllocError, Global};
use std::fmt::Write;

// A width, a place, and the bytes, of which there may be none. The width is from 1 to 64, and the place no further than the end.
fn operands(alloc: Global, words: &mut Words) -> Result<Option<(u32, usize, Vec<u8>)>, AllocError> {
    let Some(width) = words.index() else {
        return Ok(None);
    };
    let Some(at) = words.index() else {
        return Ok(None);
    };
    let bytes = bytes_of(alloc, words.next().unwrap_or(""))?;
    Ok(Some((width, at as usize, bytes)))
}

/// Appends the unsigned number at a place and the place after it, or the trouble.
pub fn unsigned_read(
    alloc: Global,
    out: &mut String,
    words: &mut Words,
) -> Result<bool, AllocError> {
    let Some((width, at, bytes)) = operands(alloc, words)? else {
        return Ok(false);
    };
    if width < 1 || width > 64 || at > bytes.len() {
        return Ok(false);
    }
    match leb_u(bytes.as_slice(), at, width) {
        Ok((number, next)) => write!(out, "{number} to {next}")?,
        Err(bad) => put_trouble(out, bad)?,
    }
    Ok(true)
}

/// The same of a signed number.
pub fn signed_read(alloc: Global, out: &mut String, words: &mut Words) -> Result<bool, AllocError> {
    let Some((width, at, bytes)) = operands(alloc, words)? else {
        return Ok(false);
    };
    if width < 1 || width > 64 || at > bytes.len() {
        return Ok(false);
    }
    match leb_s(bytes.as_slice(), at, width) {
        Ok((number, next)) => write!(out, "{number} to {next}")?,
        Err(bad) => put_trouble(out, bad)?,
    }
    Ok(true)
}

fn put_trouble(out: &mut String, bad: LebBad) -> Result<(), AllocError> {
    let word = match bad {
        LebBad::Cut => "cut",
        LebBad::Long => "too long",
        LebBad::Range => "wrong unused bits",
    };
    out.push_str(word)
}

/// Appends the shortest spelling of an unsigned number.
pub fn put_unsigned(
    alloc: Global,
    out: &mut String,
    words: &mut Words,
) -> Result<bool, AllocError> {
    let Some(number) = words.number() else {
        return Ok(false);
    };
    let mut bytes = Vec::new(alloc);
    put_u(&mut bytes, number)?;
    put_bytes(out, bytes.as_slice())?;
    Ok(true)
}

/// Appends the shortest spelling of a signed number.
pub fn put_signed(alloc: Global, out: &mut String, words: &mut Words) -> Result<bool, AllocError> {
    let Some(number) = words.signed() else {
        return Ok(false);
    };
    let mut bytes = Vec::new(alloc);
    put_s(&mut bytes, number)?;
    put_bytes(out, bytes.as_slice())?;
    Ok(true)
}
