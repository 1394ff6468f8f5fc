// Texts in the text format, one a line.
//
// A line is a task, a space and a text, and is answered by the answer and the text. The task `lex` tells the tokens of the
// text, each by its kind and its places, and then what the lexer answers twice after them. The task `print` takes the bytes
// of a module in hexadecimal and tells the text that is printed of it. In a text `↵` stands for a line feed, `␍` for a
// carriage return, `⇥` for a tab, `␀` for the character 0, `␟` for the character 1F and `␡` for the character 7F. Lines that
// begin with `#` and empty ones are written as they are. The answers in `stdout` are worked out from the standard's chapter
// Text Format; the bytes of the modules are what Debian's `wat2wasm` makes of the texts.
#![tactic(auto)]

mod lexed;
mod printed;

use lexed::tokens_of;
use printed::text_of;
use std::alloc::{AllocError, Global};
use std::io;

fn main(rt: HostRuntime) -> io::Result<()> {
    for line in rt.lines(rt.alloc()) {
        let line = line?;
        match line.as_str().split_once(" ") {
            Some(("lex", text)) => {
                let source = source_of(rt.alloc(), text)?;
                let answer = tokens_of(rt.alloc(), source.as_str())?;
                println!(rt; "{answer}: {text}")?;
            }
            Some(("print", digits)) => {
                let answer = text_of(rt.alloc(), digits)?;
                println!(rt; "{answer}: {digits}")?;
            }
            _ => println!(rt; "{line}")?,
        }
    }
    Ok(())
}

// The text with the characters that its signs stand for.
fn source_of(alloc: Global, text: &str) -> Result<String, AllocError> {
    let mut source = String::new(alloc);
    for c in text.chars() {
        source.push(match c {
            '↵' => '\n',
            '␍' => '\r',
            '⇥' => '\t',
            '␀' => '\0',
            '␟' => '\u{1F}',
            '␡' => '\u{7F}',
            _ => c,
        })?;
    }
    Ok(source)
}
