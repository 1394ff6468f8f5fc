// Sources that are read, limit after limit.
use crate::streams::{Stream, Trouble, Zeros};
use owi_base::{InSource, MemSource, ReadAll, Source, read_all};
use row_words::{Words, numbers};
use std::alloc::{AllocError, Global};
use std::fmt::Write;

// Appends what a call of `read_all` answers: the bytes as characters.
fn put_read(out: &mut String, answer: &Result<Vec<u8>, ReadAll>) -> Result<(), AllocError> {
    match answer {
        Ok(bytes) => {
            out.push('"')?;
            for byte in bytes.as_slice() {
                out.push(*byte as char)?;
            }
            out.push('"')
        }
        Err(why) => out.push_str(why_text(*why)),
    }
}

fn why_text(why: ReadAll) -> &'static str {
    match why {
        ReadAll::ReadFault => "read fault",
        ReadAll::TooLong => "too long",
        ReadAll::NoMemory => "no memory",
    }
}

// Reads the source once for each limit that follows.
fn put_reads<S: Source>(
    alloc: Global,
    out: &mut String,
    source: &mut S,
    words: &mut Words,
) -> Result<(), AllocError> {
    let mut first = true;
    for limit in numbers(alloc, words)?.as_slice() {
        if !first {
            out.push_str(", ")?;
        }
        first = false;
        let answer = read_all(alloc, source, *limit);
        put_read(out, &answer)?;
    }
    Ok(())
}

/// A source in memory: how many bytes it gives a call, the calls that fail, its bytes and the limits.
pub fn read_source(alloc: Global, out: &mut String, words: &mut Words) -> Result<bool, AllocError> {
    let Some(most) = words.number() else {
        return Ok(false);
    };
    if most == 0 {
        return Ok(false);
    }
    let fails = numbers(alloc, words)?;
    let _ = words.next_is(":");
    let bytes = words.next().unwrap_or("").as_bytes().to_vec(alloc)?;
    let _ = words.next_is(":");
    let mut source = MemSource::new(bytes, most, fails);
    put_reads(alloc, out, &mut source, words)?;
    Ok(true)
}

/// A source over a reader of the system: its bytes and the limits.
pub fn read_reader(alloc: Global, out: &mut String, words: &mut Words) -> Result<bool, AllocError> {
    let bytes = words.next().unwrap_or("").as_bytes();
    let _ = words.next_is(":");
    let mut source = InSource::new(bytes);
    put_reads(alloc, out, &mut source, words)?;
    Ok(true)
}

/// A source over a reader that fails at its second call, and gives bytes without an end.
pub fn read_broken(alloc: Global, out: &mut String, words: &mut Words) -> Result<bool, AllocError> {
    let _ = words.next_is(":");
    let mut source = InSource::new(Stream::with(Trouble::Fails));
    put_reads(alloc, out, &mut source, words)?;
    Ok(true)
}

/// So many zero bytes and one limit: how many are read.
pub fn read_zeros(alloc: Global, out: &mut String, words: &mut Words) -> Result<bool, AllocError> {
    let Some(left) = words.number() else {
        return Ok(false);
    };
    let _ = words.next_is(":");
    let Some(limit) = words.number() else {
        return Ok(false);
    };
    let mut source = Zeros { left };
    match read_all(alloc, &mut source, limit) {
        Ok(bytes) => {
            let count = bytes.len();
            write!(out, "{count}")?;
        }
        Err(why) => out.push_str(why_text(why))?,
    }
    Ok(true)
}
