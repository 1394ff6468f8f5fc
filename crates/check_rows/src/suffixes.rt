// What is known of lists of types without comparing them: which ends with which, and which begin alike.
use crate::parts::kinds;
use row_words::{Words, words_of};
use std::alloc::{AllocError, Global};
use type_suffixes::Endings;

// The lists, with commas between them.
fn lists(alloc: Global, words: &mut Words) -> Result<Endings, AllocError> {
    let mut endings = Endings::new(alloc)?;
    for _ in 0..1_000_000 {
        let list = kinds(alloc, words)?;
        endings.add(list.as_slice())?;
        if !words.next_is(",") {
            break;
        }
    }
    endings.link(alloc)?;
    Ok(endings)
}

// Whether the first types of one list end with the first types of another: `1 3 2 2`.
fn ends(words: &mut Words, endings: &Endings) -> Option<bool> {
    let longer = words.index()? as usize;
    let count = words.index()? as usize;
    let shorter = words.index()? as usize;
    let n = words.index()? as usize;
    Some(endings.ends_with(longer, count, shorter, n))
}

// Whether the first types of two lists are the same: `0 1 2`.
fn alike(words: &mut Words, endings: &Endings) -> Option<bool> {
    let one = words.index()? as usize;
    let other = words.index()? as usize;
    let n = words.index()? as usize;
    Some(endings.begins_alike(one, other, n))
}

fn asked(words: &mut Words, endings: &Endings) -> Option<bool> {
    if words.next_is("ends") {
        return ends(words, endings);
    }
    if words.next_is("alike") {
        return alike(words, endings);
    }
    None
}

/// How many lists the line has, and the answers to what it asks.
pub fn answers_of(alloc: Global, line: &str) -> Result<String, AllocError> {
    let mut words = words_of(alloc, line)?;
    let _ = words.next_is("lists");
    let endings = lists(alloc, &mut words)?;
    let count = endings.len();
    let mut said = format!(in alloc; "{count}")?;
    for _ in 0..1_000_000 {
        if !words.next_is(";") {
            break;
        }
        match asked(&mut words, &endings) {
            None => break,
            Some(true) => said.push_str(" yes")?,
            Some(false) => said.push_str(" no")?,
        }
    }
    Ok(said)
}
