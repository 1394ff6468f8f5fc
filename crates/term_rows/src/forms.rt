// Words and forms as text.
use bv_terms::{Form, Word};
use std::alloc::{AllocError, Global};

/// `number N` or `term T`.
pub fn word_text(alloc: Global, word: Word) -> Result<String, AllocError> {
    match word {
        Word::Num(n) => format!(in alloc; "number {n}"),
        Word::Term(t) => format!(in alloc; "term {t}"),
    }
}

fn bits(wide: bool) -> u32 {
    if wide { 64 } else { 32 }
}

// Words after a text, each after a space.
fn with_words(alloc: Global, head: String, words: &[Word]) -> Result<String, AllocError> {
    let mut text = head;
    for word in words {
        let next = word_text(alloc, *word)?;
        text = format!(in alloc; "{text} {next}")?;
    }
    Ok(text)
}

/// The form of a term.
pub fn text_of(alloc: Global, form: &Form) -> Result<String, AllocError> {
    match form {
        Form::Symbol { number, wide } => {
            let bits = bits(*wide);
            format!(in alloc; "symbol{bits} {number}")
        }
        Form::Un { op, a } => with_words(alloc, format!(in alloc; "un 0x{op:x}")?, &[*a]),
        Form::Bin { op, a, b } => with_words(alloc, format!(in alloc; "bin 0x{op:x}")?, &[*a, *b]),
        Form::Choose { wide, c, a, b } => {
            let bits = bits(*wide);
            with_words(alloc, format!(in alloc; "choose{bits}")?, &[*c, *a, *b])
        }
        Form::Byte { a, i } => with_words(alloc, format!(in alloc; "byte {i}")?, &[*a]),
        Form::Join { wide, bytes } => {
            let bits = bits(*wide);
            with_words(alloc, format!(in alloc; "join{bits}")?, bytes.as_slice())
        }
    }
}
