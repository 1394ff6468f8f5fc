// Commands on binary sources, one a line.
//
// A line has the words of a command, then `<` and the bytes of the source in hexadecimal. Each is answered by the number of
// the status and the lines that are written, with semicolons between them; lines that begin with `#` and empty ones are
// written as they are. The answers in `stdout` are what the standard's chapter on execution says, with this project's
// bounds.
#![tactic(auto)]

use owi_base::{MemSink, MemSource};
use owi_cmd::owi_plain;
use row_words::bytes_of;
use std::alloc::{AllocError, Global};
use std::io;

fn main(rt: HostRuntime) -> io::Result<()> {
    for line in rt.lines(rt.alloc()) {
        let line = line?;
        match line.as_str().split_once(" < ") {
            None => println!(rt; "{line}")?,
            Some((words, source)) => {
                let answer = answer_of(rt.alloc(), words, source)?;
                println!(rt; "{answer}")?;
            }
        }
    }
    Ok(())
}

// The status, and what is written.
fn answer_of(alloc: Global, words: &str, source: &str) -> Result<String, AllocError> {
    let words: Vec<&str> = words.split(' ').collect(alloc)?;
    let bytes = bytes_of(alloc, source)?;
    let mut source = MemSource::new(bytes, 65536, Vec::new(alloc));
    let mut out = MemSink::new(alloc, 1000, 1000, Vec::new(alloc))?;
    let status = owi_plain(alloc, words.as_slice(), &mut source, &mut out).number();
    let mut answer = format!(in alloc; "{status}:")?;
    put_lines(&mut answer, out.written())?;
    Ok(answer)
}

// Appends the lines, each after a space, with semicolons between them.
fn put_lines(answer: &mut String, written: &[u8]) -> Result<(), AllocError> {
    let mut starts = true;
    for byte in written {
        if *byte == b'\n' {
            starts = true;
            answer.push(';')?;
        } else {
            if starts {
                answer.push(' ')?;
            }
            starts = false;
            answer.push(*byte as char)?;
        }
    }
    if written.last() == Some(&b'\n') {
        let _ = answer.pop();
    }
    Ok(())
}
