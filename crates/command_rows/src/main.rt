// Commands over sources and sinks in memory, one a line.
//
// A line is `words`, the words of a command with a bar before each, then ` < ` and the bytes of the source in hexadecimal, or
// `zeros N` for a source of N zeros. After ` from M K ..` the source gives at most M bytes a call, and its calls number K .. ,
// from 1, fail; after ` into N M K ..` the sink has room for N bytes, takes at most M a call, and so fails. The answer is the
// number of the status and the bytes that are written. In words and answers a backslash and two digits stand for a byte.
// Lines that begin with `#` and empty ones are written as they are.
#![tactic(auto)]

mod bytes;
mod outside;

use crate::bytes::{put_written, unescaped};
use crate::outside::{Given, source_and_sink};
use owi_cmd::owi_plain;
use std::alloc::{AllocError, Global};
use std::io;

fn main(rt: HostRuntime) -> io::Result<()> {
    for line in rt.lines(rt.alloc()) {
        let line = line?;
        match line.as_str().split_once(" < ") {
            None => println!(rt; "{line}")?,
            Some((words, rest)) => {
                let answer = answer_of(rt.alloc(), words, rest)?;
                println!(rt; "{answer}")?;
            }
        }
    }
    Ok(())
}

// The status, and what is written.
fn answer_of(alloc: Global, words: &str, rest: &str) -> Result<String, AllocError> {
    let mut owned = Vec::new(alloc);
    for word in words.split('|').skip(1) {
        owned.push(unescaped(alloc, word)?)?;
    }
    let mut lent = Vec::new(alloc);
    for word in &owned {
        lent.push(word.as_str())?;
    }
    let (given, mut out) = source_and_sink(alloc, rest)?;
    let status = match given {
        Given::Bytes(mut source) => owi_plain(alloc, lent.as_slice(), &mut source, &mut out),
        Given::Zeros(mut source) => owi_plain(alloc, lent.as_slice(), &mut source, &mut out),
    };
    let mut answer = format!(in alloc; "{}: ", status.number())?;
    put_written(&mut answer, out.written())?;
    Ok(answer)
}
