// The arguments of a function, as words.
ghost use Rattle.std.specs.Prelude.{◌≡◌, ◌≤◌, ◌∷◌, ◌++◌, ℕ, List as Items, IfOk, MatchOption, codes, map, take, drop, length};
ghost use Rattle.std.specs.List.{AllZip};
ghost use Rattle.wasm_ast.specs.declared.runs.Value.{Value as OneValue};
ghost use Rattle.owi_cmd.specs.Words.{IsArgument};

use super::numbers::{after, whole};
use std::alloc::{AllocError, Global};
use wasm_ast::{List, Value};

/// The arguments that the words begin with, as many as there are, and the words after them.
pub fn read_arguments<'w, 's>(
    alloc: Global,
    words: &'w [&'s str],
) -> Result<(List<Value>, &'w [&'s str]), AllocError>
    ensures few { IfOk result (λ x. length x.0 ≤ length words.now) }
    ensures argued { IfOk result (λ x. AllZip IsArgument (map (λ w. w.now) (take (length x.0) words.now)) x.0) }
    ensures rest { IfOk result (λ x. x.1.now ≡ drop (length x.0) words.now) }
    ensures all { IfOk result (λ x. (word : Items ℕ) (rest : Items (Items ℕ)) (v : OneValue)
        → map (λ w. w.now) x.1.now ≡ word ∷ rest → ¬ IsArgument word v) }
{
    let mut args = Vec::new(alloc);
    for at in 0..words.len() {
        let Some(value) = argument(words[at]) else {
            return Ok((List::new(args), &words[at..]));
        };
        args.push(value)?;
    }
    Ok((List::new(args), &words[words.len()..]))
}

// The argument that the word spells.
fn argument(word: &str) -> Option<Value>
    ensures { MatchOption result ((v : OneValue) → ¬ IsArgument word.now v) (λ v. IsArgument word.now v) }
{
    if word == "funcref:null" {
        return Some(Value::Func(None));
    }
    if word == "externref:null" {
        return Some(Value::Extern);
    }
    if let Some(text) = after(word, "i32:") {
        return narrow(text);
    }
    if let Some(text) = after(word, "i64:") {
        return wide(text);
    }
    None
}

// The number of 32 bits that the text writes.
fn narrow(text: &str) -> Option<Value>
    ensures { MatchOption result ((v : OneValue) → ¬ IsArgument (codes "i32:" ++ text.now) v) (λ v. IsArgument (codes "i32:" ++ text.now) v) }
{
    match whole(text, 1 << 31) {
        Some(n) => Some(Value::I32(n as u32)),
        None => None,
    }
}

// The number of 64 bits that the text writes.
fn wide(text: &str) -> Option<Value>
    ensures { MatchOption result ((v : OneValue) → ¬ IsArgument (codes "i64:" ++ text.now) v) (λ v. IsArgument (codes "i64:" ++ text.now) v) }
{
    match whole(text, 1 << 63) {
        Some(n) => Some(Value::I64(n)),
        None => None,
    }
}
