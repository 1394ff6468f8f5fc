// Sinks that are written to, text after text.
use crate::streams::{Stream, Trouble};
use owi_base::{MemSink, OutSink, Sink, WriteFault, write_all};
use row_words::{Words, numbers};
use std::alloc::{AllocError, Global};
use std::fmt::Write;

// Appends what a call of `write_all` answers.
fn put_written(out: &mut String, answer: Result<(), WriteFault>) -> Result<(), AllocError> {
    match answer {
        Ok(()) => out.push_str("all"),
        Err(fault) => {
            let count = fault.out;
            write!(out, "{count} bytes and a fault")
        }
    }
}

// Appends what is held, as characters.
fn put_held(out: &mut String, held: &[u8]) -> Result<(), AllocError> {
    out.push_str(" \"")?;
    for byte in held {
        out.push(*byte as char)?;
    }
    out.push('"')
}

/// A sink in memory: its room, how many bytes it takes a call, the calls that fail, and the texts.
pub fn write_sink(alloc: Global, out: &mut String, words: &mut Words) -> Result<bool, AllocError> {
    let Some(room) = words.number() else {
        return Ok(false);
    };
    let Some(most) = words.number() else {
        return Ok(false);
    };
    if most == 0 {
        return Ok(false);
    }
    let fails = numbers(alloc, words)?;
    let _ = words.next_is(":");
    let mut sink = MemSink::new(alloc, room, most, fails)?;
    let mut first = true;
    for _ in 0..100 {
        let Some(text) = words.next() else {
            break;
        };
        if !first {
            out.push_str(", ")?;
        }
        first = false;
        let answer = write_all(&mut sink, text.as_bytes());
        put_written(out, answer)?;
        put_held(out, sink.written())?;
    }
    Ok(true)
}

// Writes each text that follows.
fn put_writes<K: Sink>(
    out: &mut String,
    sink: &mut K,
    words: &mut Words,
) -> Result<(), AllocError> {
    let mut first = true;
    for _ in 0..100 {
        let Some(text) = words.next() else {
            break;
        };
        if !first {
            out.push_str(", ")?;
        }
        first = false;
        let answer = write_all(sink, text.as_bytes());
        put_written(out, answer)?;
    }
    Ok(())
}

/// A sink over a writer of the system, and what the writer has taken in the end.
pub fn write_writer(
    alloc: Global,
    out: &mut String,
    words: &mut Words,
) -> Result<bool, AllocError> {
    let _ = words.next_is(":");
    let mut taken = Vec::new(alloc);
    let mut sink = OutSink::new(&mut taken);
    put_writes(out, &mut sink, words)?;
    drop(sink);
    put_held(out, taken.as_slice())?;
    Ok(true)
}

/// A sink over a writer that has a trouble at its second call.
pub fn write_broken(out: &mut String, words: &mut Words) -> Result<bool, AllocError> {
    let trouble = match words.next() {
        Some("fails") => Trouble::Fails,
        Some("takes-nothing") => Trouble::TakesNothing,
        Some("fails-to-flush") => Trouble::FailsToFlush,
        _ => return Ok(false),
    };
    let _ = words.next_is(":");
    let mut sink = OutSink::new(Stream::with(trouble));
    put_writes(out, &mut sink, words)?;
    Ok(true)
}
