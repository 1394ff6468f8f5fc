// Numbers that words write.
ghost use Rattle.std.specs.Prelude.{◌≡◌, ◌≢◌, ◌==◌, ◌≤◌, ◌-◌, ◌*◌, ◌%◌, ◌^◌, ◌++◌, ℕ, List as Items, IfOk, MatchOption, map};
ghost use Rattle.std.specs.List.{AllZip, slice_split};
ghost use Rattle.owi_cmd.specs.Words.{IsNumber, IsWhole, IsInput};

use std::alloc::{AllocError, Global};
use wasm_ast::List;

const MOST_DIGITS: usize = 20;

/// The number from least to most that the text writes.
pub fn number(text: &str, least: u64, most: u64) -> Option<u64>
    ensures { MatchOption result ((n : ℕ) → ¬ IsNumber least most text.now n) (λ n. IsNumber least most text.now n) }
{
    if text.len() > MOST_DIGITS {
        return None;
    }
    if text.starts_with('+') {
        return None;
    }
    match text.parse::<u64>() {
        Ok(n) => { if n < least || most < n { None } else { Some(n) } }
        Err(_) => None,
    }
}

/// What follows this in the word, which begins with it.
pub fn after<'s>(word: &'s str, first: &str) -> Option<&'s str>
    ensures { MatchOption result ((rest : Items ℕ) → word.now ≢ first.now ++ rest) (λ rest. word.now ≡ first.now ++ rest.now) }
{
    word.strip_prefix(first)
}

// What is below 0 by so much, modulo 2 * half.
#[tactic(auto, using(crate::proofs::WordsLemmas::zero_below, crate::proofs::WordsLemmas::rest_below))]
fn negative(below: u64, half: u64) -> u64
    requires some { 1 ≤ half }
    requires small { half ≤ 2 ^ 63 }
    requires few { below ≤ half }
    ensures { result ≡ (2 * half - below) % (2 * half) }
{
    if below > 0 {
        half - 1 + half - (below - 1)
    } else {
        0
    }
}

/// The whole number from -half to 2 * half - 1 that the text writes, modulo 2 * half.
pub fn whole(text: &str, half: u64) -> Option<u64>
    requires some { 1 ≤ half }
    requires small { half ≤ 2 ^ 63 }
    ensures { MatchOption result ((n : ℕ) → ¬ IsWhole half text.now n) (λ n. IsWhole half text.now n) }
{
    match after(text, "-") {
        None => number(text, 0, half - 1 + half),
        Some(digits) => match number(digits, 0, half) {
            None => None,
            Some(below) => Some(negative(below, half)),
        },
    }
}

/// The numbers between single commas; the empty text has none.
pub fn input_of(alloc: Global, text: &str) -> Result<Option<List<u64>>, AllocError>
    ensures { IfOk result (λ read. MatchOption read ((numbers : Items ℕ) → ¬ IsInput text.now numbers) (λ l. IsInput text.now l)) }
{
    if text.is_empty() {
        return Ok(Some(List::new(Vec::new(alloc))));
    }
    let pieces = pieces_of(alloc, text)?;
    Ok(numbers_of(alloc, pieces.as_slice())?)
}

// The pieces between commas.
fn pieces_of(alloc: Global, text: &str) -> Result<Vec<&str>, AllocError>
    ensures { IfOk result (λ pieces. map (λ p. p.now) pieces.items ≡ slice_split (λ byte. byte == 44) text.now) }
{
    text.split(',').collect(alloc)
}

// The numbers that the texts write, where each writes one below 2^64.
fn numbers_of(alloc: Global, texts: &[&str]) -> Result<Option<List<u64>>, AllocError>
    ensures { IfOk result (λ read. MatchOption read
        ((numbers : Items ℕ) → ¬ AllZip (IsNumber 0 (2 ^ 64 - 1)) (map (λ t. t.now) texts.now) numbers)
        (λ l. AllZip (IsNumber 0 (2 ^ 64 - 1)) (map (λ t. t.now) texts.now) l)) }
{
    let mut numbers = Vec::new(alloc);
    for text in texts {
        let Some(n) = number(text, 0, u64::MAX) else {
            return Ok(None);
        };
        numbers.push(n)?;
    }
    Ok(Some(List::new(numbers)))
}
