// Lists, texts, and the numbering of sequences.
use row_words::{Words, none, numbers, one};
use std::alloc::{AllocError, Global};
use std::fmt::Write;
use wasm_ast::crossing::list_crosses;
use wasm_ast::numbering::is_numbered;
use wasm_ast::{BlockType, Instr, List, Text};

/// The items, and a copy of the list, its length and its items.
pub fn list_case(alloc: Global, out: &mut String, words: &mut Words) -> Result<(), AllocError> {
    let mut list = none(alloc);
    if list.is_empty() {
        out.push_str("empty, then")?;
    }
    for number in numbers(alloc, words)?.as_slice() {
        list.push(*number)?;
    }
    let copy = list.copy()?;
    list_crosses(&copy);
    let count = copy.len();
    write!(out, " {count}:")?;
    for item in copy.as_slice() {
        write!(out, " {item}")?;
    }
    for at in 0..copy.len() {
        let item = *copy.get(at);
        write!(out, " [{at}] {item}")?;
    }
    Ok(())
}

/// A copy of the text with a character more, its length and its bytes.
pub fn text_case(alloc: Global, out: &mut String, words: &mut Words) -> Result<(), AllocError> {
    let mut text = Text::new(String::from_str(alloc, words.next().unwrap_or(""))?);
    if text.is_empty() {
        out.push_str("empty, then ")?;
    }
    for c in words.next().unwrap_or("").chars() {
        text.push(c)?;
    }
    let copy = text.copy()?;
    let count = copy.len();
    let name = copy.as_slice();
    write!(out, "{name} of {count} bytes:")?;
    for at in 0..copy.len() {
        let byte = copy.get(at);
        write!(out, " {byte:02x}")?;
    }
    Ok(())
}

// if block end else end
fn nested(alloc: Global, then: u32, other: u32) -> Result<List<List<Instr>>, AllocError> {
    let ty = BlockType::Empty;
    let mut seqs = one(alloc, one(alloc, Instr::If { ty, then, other })?)?;
    seqs.push(one(alloc, Instr::Block { ty, body: 2 })?)?;
    seqs.push(none(alloc))?;
    seqs.push(none(alloc))?;
    Ok(seqs)
}

/// Whether the sequences of an `if` with these numbers are numbered in the order in which they open.
pub fn numbered_case(alloc: Global, out: &mut String, words: &mut Words) -> Result<(), AllocError> {
    let then = words.index().unwrap_or(0);
    let other = words.index().unwrap_or(0);
    let is = is_numbered(alloc, &nested(alloc, then, other)?)?;
    out.push_str(if is { "numbered" } else { "not numbered" })
}
