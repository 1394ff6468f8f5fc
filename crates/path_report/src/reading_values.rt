// Reading values and lists of them.
ghost use Rattle.std.specs.Prelude.{◌≡◌, ◌≢◌, ◌↔◌, ◌∷◌, [], ◌++◌, ℕ, ◌^◌, ◌<◌, List as Items, All, IsTrue, IfOk, IfSome, MatchOption, Some, codes, decimal, map};
ghost use Rattle.wasm_ast.specs.declared.runs.Value.{Value as OneValue};
ghost use Rattle.wasm_ast.specs.declared.runs.Draw.{Draw as OneDraw};
ghost use Rattle.path_report.specs.Report.{value_text, draw_value, draw_text};
ghost use Rattle.path_report.specs.Reading.{Fits};
ghost use Rattle.path_report.specs.code.Words.{list_words};

use std::alloc::{AllocError, Global};
use wasm_ast::{Draw, List, Value};

/// The values that have these words, if there are such; else some values or none.
pub fn values_of(alloc: Global, words: &[&str]) -> Result<Option<List<Value>>, AllocError>
    ensures fits { IfOk result (λ read. IfSome read (λ l. All Fits l)) }
    ensures only { IfOk result (λ read. (values : Items OneValue) → All Fits values → map (λ w. w.now) words.now ≡ list_words (map value_text values) → read ≡ Some values) }
{
    if is_empty_list(words) {
        return Ok(Some(List::new(Vec::new(alloc))));
    }
    each_value(alloc, words)
}

// Whether the words are those of the empty list.
fn is_empty_list(words: &[&str]) -> bool
    ensures { IsTrue result ↔ (map (λ w. w.now) words.now ≡ codes "-" ∷ []) }
{
    match words {
        [only] => is_dash(only),
        _ => false,
    }
}

fn is_dash(word: &str) -> bool
    ensures { IsTrue result ↔ (word.now ≡ codes "-") }
{
    word == "-"
}

// The values of these words, each of which is one.
fn each_value(alloc: Global, words: &[&str]) -> Result<Option<List<Value>>, AllocError>
    ensures fits { IfOk result (λ read. IfSome read (λ l. All Fits l)) }
    ensures only { IfOk result (λ read. (values : Items OneValue) → All Fits values → map (λ w. w.now) words.now ≡ map value_text values → read ≡ Some values) }
{
    let mut values = Vec::new(alloc);
    for word in words {
        let Some(value) = value_of(word) else {
            return Ok(None);
        };
        values.push(value)?;
    }
    Ok(Some(List::new(values)))
}

// The value that has this text, if there is one; else a value or none.
fn value_of(word: &str) -> Option<Value>
    ensures fits { IfSome result Fits }
    ensures only { (value : OneValue) → Fits value → word.now ≡ value_text value → result ≡ Some value }
{
    if let Some(digits) = after(word, "i32:") {
        return match small(digits) {
            Some(n) => Some(Value::I32(n)),
            None => None,
        };
    }
    if let Some(digits) = after(word, "i64:") {
        return match large(digits) {
            Some(n) => Some(Value::I64(n)),
            None => None,
        };
    }
    if word == "funcref:null" {
        return Some(Value::Func(None));
    }
    if let Some(digits) = after(word, "funcref:") {
        return match small(digits) {
            Some(n) => Some(Value::Func(Some(n))),
            None => None,
        };
    }
    if word == "externref:null" {
        return Some(Value::Extern);
    }
    None
}

// What follows this in the word, which begins with it.
fn after<'s>(word: &'s str, first: &str) -> Option<&'s str>
    ensures { MatchOption result ((rest : Items ℕ) → word.now ≢ first.now ++ rest) (λ rest. word.now ≡ first.now ++ rest.now) }
{
    word.strip_prefix(first)
}

// The number below 2^32 that has these digits, if there is one.
fn small(digits: &str) -> Option<u32>
    ensures { (n : ℕ) → n < 2 ^ 32 → digits.now ≡ decimal n → result ≡ Some n }
{
    match digits.parse::<u32>() {
        Ok(n) => Some(n),
        Err(_) => None,
    }
}

// The number below 2^64 that has these digits, if there is one.
fn large(digits: &str) -> Option<u64>
    ensures { (n : ℕ) → n < 2 ^ 64 → digits.now ≡ decimal n → result ≡ Some n }
{
    match digits.parse::<u64>() {
        Ok(n) => Some(n),
        Err(_) => None,
    }
}

/// The draws that have these words, if there are such; else some draws or none.
pub fn draws_of(alloc: Global, words: &[&str]) -> Result<Option<List<Draw>>, AllocError>
    ensures fits { IfOk result (λ read. IfSome read (λ l. All (λ draw. Fits (draw_value draw)) l)) }
    ensures only { IfOk result (λ read. (draws : Items OneDraw) → All (λ draw. Fits (draw_value draw)) draws → map (λ w. w.now) words.now ≡ list_words (map draw_text draws) → read ≡ Some draws) }
{
    match values_of(alloc, words)? {
        Some(values) => numbers_drawn(alloc, values.as_slice()),
        None => Ok(None),
    }
}

// The draws of these values, none of which is a reference.
fn numbers_drawn(alloc: Global, values: &[Value]) -> Result<Option<List<Draw>>, AllocError>
    ensures fits { IfOk result (λ read. IfSome read (λ l. All (λ draw. Fits (draw_value draw)) l)) }
    ensures only { IfOk result (λ read. (draws : Items OneDraw) → All (λ draw. Fits (draw_value draw)) draws → values.now ≡ map draw_value draws → read ≡ Some draws) }
{
    let mut draws = Vec::new(alloc);
    for value in values {
        let Some(draw) = number_drawn(*value) else {
            return Ok(None);
        };
        draws.push(draw)?;
    }
    Ok(Some(List::new(draws)))
}

// The draw of a value that is a number.
fn number_drawn(value: Value) -> Option<Draw>
    ensures fits { IfSome result (λ draw. Fits (draw_value draw)) }
    ensures only { (draw : OneDraw) → value ≡ draw_value draw → result ≡ Some draw }
{
    match value {
        Value::I32(n) => Some(Draw {
            wide: false,
            value: n as u64,
        }),
        Value::I64(n) => Some(Draw {
            wide: true,
            value: n,
        }),
        _ => None,
    }
}
