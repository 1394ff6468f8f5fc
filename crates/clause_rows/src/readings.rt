// Clauses and chains that words spell.
use refute_check::{Chain, Clause, Items, Log};
use row_words::Words;
use std::alloc::{AllocError, Global};

/// Whether the next word is this one, which then is read.
pub fn reads(words: &mut Words, text: &str) -> bool {
    match words.peek() {
        Some(word) if word == text => {
            let _read = words.next();
            true
        }
        _ => false,
    }
}

/// All numbers that follow.
pub fn numbers(alloc: Global, words: &mut Words) -> Result<Items<u64>, AllocError> {
    let mut numbers = Items::new(Vec::new(alloc));
    for _ in 0..1_000_000 {
        let Some(number) = words.number() else {
            break;
        };
        numbers.push(number)?;
    }
    Ok(numbers)
}

/// All clauses that follow, up to a word that is neither a number nor `;`.
pub fn clauses(alloc: Global, words: &mut Words) -> Result<Items<Clause>, AllocError> {
    let mut clauses = Items::new(Vec::new(alloc));
    for _ in 0..1_000_000 {
        let clause = numbers(alloc, words)?;
        if !reads(words, ";") {
            break;
        }
        clauses.push(clause)?;
    }
    Ok(clauses)
}

fn steps(alloc: Global, words: &mut Words) -> Result<Items<(u64, u64)>, AllocError> {
    let mut steps = Items::new(Vec::new(alloc));
    for _ in 0..1_000_000 {
        let Some(number) = words.number() else {
            break;
        };
        let Some(variable) = words.number() else {
            break;
        };
        steps.push((number, variable))?;
    }
    Ok(steps)
}

/// All chains that follow.
pub fn log(alloc: Global, words: &mut Words) -> Result<Log, AllocError> {
    let mut log = Items::new(Vec::new(alloc));
    for _ in 0..1_000_000 {
        let Some(start) = words.number() else {
            break;
        };
        let steps = steps(alloc, words)?;
        log.push(Chain { start, steps })?;
        if !reads(words, ";") {
            break;
        }
    }
    Ok(log)
}

/// A log as it is written.
pub fn log_text(alloc: Global, head: &str, chains: &[Chain]) -> Result<String, AllocError> {
    let mut text = String::from_str(alloc, head)?;
    for chain in chains {
        text = chain_text(alloc, text, chain)?;
    }
    Ok(text)
}

fn chain_text(alloc: Global, head: String, chain: &Chain) -> Result<String, AllocError> {
    let start = chain.start;
    let mut text = format!(in alloc; "{head} {start}")?;
    for (number, variable) in chain.steps.as_slice() {
        text = format!(in alloc; "{text} {number} {variable}")?;
    }
    format!(in alloc; "{text} ;")
}
