// Modules in the binary format, read and written, and lists, texts and the numbering of sequences, one case a line.
//
// Bytes are words: `front` is the magic number and the version, `function` is the front, a type without params and with one i32
// result, and a function of it that is exported as `f`; after `code` comes the entry of that function in a code section; all
// else is hexadecimal, `0240*3` three times the same.
//
// `read BYTES` is answered by the module that they spell or by their first trouble, which `read_stripped` has to tell too;
// `strip BYTES` by the module without its custom sections. `write BYTES` is answered by the bytes to which the module that they
// spell is written, `size BYTES` by the number of sequences of its first function and of those bytes, `same BYTES / BYTES` by
// whether two modules are equal, `hollow BYTES` by whether the module is well-formed, and then with a function whose body lacks
// even the outermost sequence.
//
// A module is shown part by part, with semicolons between them. A body has its sequences in brackets, by their numbers, and
// instructions after commas: opcodes that stand for many have their byte, memory accesses opcode, alignment and offset.
//
// `numbered A B` is answered by whether `if (block end) else end` is numbered, its parts having these numbers; `list N ..` by a
// copy of a list of these items, and `text TEXT C` by a copy of a text to which a character was put.
//
// Lines that begin with `#` and empty ones are written as they are.
#![tactic(auto)]

mod cases;
mod given;
mod instructions;
mod lists;
mod modules;

use cases::{hollow_case, read_case, same_case, size_case, strip_case, write_case};
use lists::{list_case, numbered_case, text_case};
use row_words::{Words, words_of};
use std::alloc::{AllocError, Global};
use std::io;

fn main(rt: HostRuntime) -> io::Result<()> {
    for line in rt.lines(rt.alloc()) {
        let line = line?;
        let text = line.as_str();
        if text.is_empty() || text.starts_with("#") {
            println!(rt; "{text}")?;
        } else {
            let mut answer = String::new(rt.alloc());
            put_answer(rt.alloc(), &mut answer, text)?;
            println!(rt; "{text} = {answer}")?;
        }
    }
    Ok(())
}

// Appends the answer to a line.
fn put_answer(alloc: Global, out: &mut String, text: &str) -> Result<(), AllocError> {
    let mut words = words_of(alloc, text)?;
    match words.next() {
        Some(word) => put_case(alloc, out, &mut words, word),
        None => out.push_str("no case"),
    }
}

fn put_case(
    alloc: Global,
    out: &mut String,
    words: &mut Words,
    word: &str,
) -> Result<(), AllocError> {
    match word {
        "read" => read_case(alloc, out, words),
        "strip" => strip_case(alloc, out, words),
        "write" => write_case(alloc, out, words),
        "size" => size_case(alloc, out, words),
        "same" => same_case(alloc, out, words),
        "hollow" => hollow_case(alloc, out, words),
        _ => put_other_case(alloc, out, words, word),
    }
}

fn put_other_case(
    alloc: Global,
    out: &mut String,
    words: &mut Words,
    word: &str,
) -> Result<(), AllocError> {
    match word {
        "numbered" => numbered_case(alloc, out, words),
        "list" => list_case(alloc, out, words),
        "text" => text_case(alloc, out, words),
        _ => out.push_str("no case"),
    }
}
