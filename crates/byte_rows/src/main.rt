// Bytes from outside and to it, and numbers in LEB128, one case a line.
//
// `leb_u WIDTH AT BYTES` and `leb_s WIDTH AT BYTES` read the number at a place of bytes in hexadecimal: the answer is the number
// and the place after it, or the trouble. `put_u N` and `put_s N` are answered by the shortest spelling.
//
// `source MOST FAIL .. : TEXT : LIMIT ..` reads a source in memory that gives MOST bytes a call and fails at the calls FAIL .., by
// one call of `read_all` for each limit. `reader TEXT : LIMIT ..` does so over a reader of the system, `broken : LIMIT ..` over one
// that fails at its second call, and `zeros N : LIMIT` reads N zero bytes, of which it tells how many. Each call is answered by
// what was read or by why nothing was.
//
// `sink ROOM MOST FAIL .. : TEXT ..` writes the texts to a sink in memory, `writer : TEXT ..` to a writer of the system, and
// `broken_writer TROUBLE : TEXT ..` to one that has a trouble at its second call: `fails`, `takes-nothing` or `fails-to-flush`.
// Each call of `write_all` is answered by `all` or by how many bytes were taken, and, where it can be told, by what is held then.
//
// Lines that begin with `#` and empty ones are written as they are.
#![tactic(auto)]

mod numbers;
mod reading;
mod streams;
mod writing;

use numbers::{put_signed, put_unsigned, signed_read, unsigned_read};
use reading::{read_broken, read_reader, read_source, read_zeros};
use row_words::{Words, words_of};
use std::alloc::{AllocError, Global};
use std::io;
use writing::{write_broken, write_sink, write_writer};

fn main(rt: HostRuntime) -> io::Result<()> {
    for line in rt.lines(rt.alloc()) {
        let line = line?;
        let text = line.as_str();
        if text.is_empty() || text.starts_with("#") {
            println!(rt; "{text}")?;
        } else {
            let mut answer = String::new(rt.alloc());
            let is_row = put_answer(rt.alloc(), &mut answer, text)?;
            if is_row {
                println!(rt; "{text} = {answer}")?;
            } else {
                println!(rt; "{text} is no row")?;
            }
        }
    }
    Ok(())
}

// Appends the answer to a line. Whether it is a row.
fn put_answer(alloc: Global, out: &mut String, text: &str) -> Result<bool, AllocError> {
    let mut words = words_of(alloc, text)?;
    let Some(word) = words.next() else {
        return Ok(false);
    };
    put_number_answer(alloc, out, &mut words, word)
}

fn put_number_answer(
    alloc: Global,
    out: &mut String,
    words: &mut Words,
    word: &str,
) -> Result<bool, AllocError> {
    match word {
        "leb_u" => unsigned_read(alloc, out, words),
        "leb_s" => signed_read(alloc, out, words),
        "put_u" => put_unsigned(alloc, out, words),
        "put_s" => put_signed(alloc, out, words),
        _ => put_stream_answer(alloc, out, words, word),
    }
}

fn put_stream_answer(
    alloc: Global,
    out: &mut String,
    words: &mut Words,
    word: &str,
) -> Result<bool, AllocError> {
    match word {
        "source" => read_source(alloc, out, words),
        "reader" => read_reader(alloc, out, words),
        "broken" => read_broken(alloc, out, words),
        "zeros" => read_zeros(alloc, out, words),
        "sink" => write_sink(alloc, out, words),
        "writer" => write_writer(alloc, out, words),
        "broken_writer" => write_broken(out, words),
        _ => Ok(false),
    }
}
