// What a line asks of a session.
use crate::asks::{ask_line, formula_line, log_line, pick_line};
use crate::forms::word_text;
use crate::session::Session;
use bv_terms::Word;
use row_words::{Words, numbers, words_of};
use std::alloc::{AllocError, Global};

fn constant(
    session: &mut Session,
    words: &mut Words,
    wide: bool,
) -> Result<Option<Word>, AllocError> {
    let Some(n) = words.number() else {
        return Ok(None);
    };
    session.constant(wide, n)
}

fn symbol(
    session: &mut Session,
    words: &mut Words,
    wide: bool,
) -> Result<Option<Word>, AllocError> {
    let Some(number) = words.number() else {
        return Ok(None);
    };
    session.symbol(number, wide)
}

fn un(session: &mut Session, words: &mut Words) -> Result<Option<Word>, AllocError> {
    let Some(op) = words.opcode() else {
        return Ok(None);
    };
    let Some(a) = words.number() else {
        return Ok(None);
    };
    session.un(op, a)
}

fn bin(session: &mut Session, words: &mut Words) -> Result<Option<Word>, AllocError> {
    let Some(op) = words.opcode() else {
        return Ok(None);
    };
    let Some(a) = words.number() else {
        return Ok(None);
    };
    let Some(b) = words.number() else {
        return Ok(None);
    };
    session.bin(op, a, b)
}

fn choose(
    session: &mut Session,
    words: &mut Words,
    wide: bool,
) -> Result<Option<Word>, AllocError> {
    let Some(c) = words.number() else {
        return Ok(None);
    };
    let Some(a) = words.number() else {
        return Ok(None);
    };
    let Some(b) = words.number() else {
        return Ok(None);
    };
    session.choose(wide, c, a, b)
}

fn byte(session: &mut Session, words: &mut Words) -> Result<Option<Word>, AllocError> {
    let Some(a) = words.number() else {
        return Ok(None);
    };
    let Some(i) = words.number() else {
        return Ok(None);
    };
    session.byte(a, i)
}

fn join(
    alloc: Global,
    session: &mut Session,
    words: &mut Words,
    wide: bool,
) -> Result<Option<Word>, AllocError> {
    let places = numbers(alloc, words)?;
    session.join(wide, places.as_slice())
}

fn node(
    alloc: Global,
    session: &mut Session,
    words: &mut Words,
    verb: &str,
) -> Result<Option<Word>, AllocError> {
    match verb {
        "un" => un(session, words),
        "again" => again(session, words),
        "chain" => chain(session, words),
        "bin" => bin(session, words),
        "choose32" => choose(session, words, false),
        "choose64" => choose(session, words, true),
        "byte" => byte(session, words),
        "join32" => join(alloc, session, words, false),
        "join64" => join(alloc, session, words, true),
        _ => Ok(None),
    }
}

fn made(
    alloc: Global,
    session: &mut Session,
    words: &mut Words,
    verb: &str,
) -> Result<Option<Word>, AllocError> {
    match verb {
        "const32" => constant(session, words, false),
        "const64" => constant(session, words, true),
        "draw32" => session.draw(false),
        "draw64" => session.draw(true),
        "symbol32" => symbol(session, words, false),
        "symbol64" => symbol(session, words, true),
        _ => node(alloc, session, words, verb),
    }
}

fn refused(alloc: Global) -> Result<String, AllocError> {
    String::from_str(alloc, "refused")
}

fn value(alloc: Global, session: &Session, words: &mut Words) -> Result<String, AllocError> {
    let Some(place) = words.number() else {
        return refused(alloc);
    };
    let _colon = words.next();
    let input = numbers(alloc, words)?;
    match session.value(place, input.as_slice())? {
        Some(value) => format!(in alloc; "value {value}"),
        None => refused(alloc),
    }
}

fn form(alloc: Global, session: &Session, words: &mut Words) -> Result<String, AllocError> {
    let Some(place) = words.number() else {
        return refused(alloc);
    };
    match session.form(place)? {
        Some(text) => Ok(text),
        None => refused(alloc),
    }
}

fn number(alloc: Global, session: &Session, words: &mut Words) -> Result<String, AllocError> {
    let Some(place) = words.number() else {
        return refused(alloc);
    };
    match session.number(place) {
        Some(n) => format!(in alloc; "is {n}"),
        None => String::from_str(alloc, "is no number"),
    }
}

fn counted(alloc: Global, session: &Session) -> Result<String, AllocError> {
    let count = session.count();
    format!(in alloc; "terms {count}")
}

// A unary operator so many times, on the word at a place.
fn again(session: &mut Session, words: &mut Words) -> Result<Option<Word>, AllocError> {
    let Some(count) = words.number() else {
        return Ok(None);
    };
    let Some(op) = words.opcode() else {
        return Ok(None);
    };
    let Some(a) = words.number() else {
        return Ok(None);
    };
    let mut at = a;
    let mut last = None;
    for _turn in 0..count {
        last = session.un(op, at)?;
        at = session.words().saturating_sub(1);
    }
    Ok(last)
}

// A binary operator so many times, on the word before and the word at a place.
fn chain(session: &mut Session, words: &mut Words) -> Result<Option<Word>, AllocError> {
    let Some(count) = words.number() else {
        return Ok(None);
    };
    let Some(op) = words.opcode() else {
        return Ok(None);
    };
    let Some(a) = words.number() else {
        return Ok(None);
    };
    let mut at = a;
    let mut last = None;
    for _turn in 0..count {
        last = session.bin(op, at, a)?;
        at = session.words().saturating_sub(1);
    }
    Ok(last)
}

/// The answer to the line.
pub fn answer(alloc: Global, session: &mut Session, line: &str) -> Result<String, AllocError> {
    let mut words = words_of(alloc, line)?;
    let Some(verb) = words.next() else {
        return refused(alloc);
    };
    match verb {
        "value" => value(alloc, session, &mut words),
        "form" => form(alloc, session, &mut words),
        "number" => number(alloc, session, &mut words),
        "count" => counted(alloc, session),
        "formula" => formula_line(alloc, session, &mut words),
        "ask" => ask_line(alloc, session, &mut words),
        "pick" => pick_line(alloc, session, &mut words),
        "log" => log_line(alloc, session, &mut words),
        _ => match made(alloc, session, &mut words, verb)? {
            Some(word) => word_text(alloc, word),
            None => refused(alloc),
        },
    }
}
