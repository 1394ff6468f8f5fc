// Reading a row back from its line.
//
// A row is read word by word, and then its line is made once more and compared with the one that was read.
ghost use Rattle.std.specs.Prelude.{◌≡◌, ◌≢◌, ◌↔◌, ◌==◌, ◌≤◌, ◌+◌, ◌∷◌, ◌++◌, ℕ, List as Items, All, IsTrue, IfOk, IfSome, MatchResult, IsSomeAnd, Some, codes, map};
ghost use Rattle.std.specs.List.{slice_split};
ghost use Rattle.fork_tree.specs.declared.rows.Row.{Row as OneRow};
ghost use Rattle.path_report.specs.Report.{path_text, choices_text};
ghost use Rattle.path_report.specs.Reading.{IsOutcomeRow, IsPathLine};
ghost use Rattle.path_report.specs.code.Words.{row_words};
ghost use Rattle.path_report.specs.declared.bad.RowBad.TheVariants.{Spelling};

use crate::bad::RowBad;
use crate::reading_kinds::kind_of;
use crate::reading_values::draws_of;
use crate::rows::put_path;
use fork_tree::{Row, Terms};
use std::alloc::{AllocError, Global};
use wasm_ast::List;

/// The row whose line `path` this is, without its line feed, with no terms. `Spelling` exactly where the line isn't that of a
/// row that ends in an outcome.
pub fn read_row(alloc: Global, line: &str) -> Result<Row, RowBad>
    ensures { MatchResult result
        (λ row. IsPathLine line.now row × ((other : OneRow) → IsPathLine line.now other → row ≡ other))
        (λ bad. bad ≡ Spelling → (row : OneRow) → ¬ IsPathLine line.now row) }
{
    let words = words_of(alloc, line)?;
    let Some(row) = row_of(alloc, words.as_slice())? else {
        return Err(RowBad::Spelling);
    };
    if !is_line_of(alloc, line, &row)? {
        return Err(RowBad::Spelling);
    }
    Ok(row)
}

// The words between spaces.
fn words_of(alloc: Global, line: &str) -> Result<Vec<&str>, AllocError>
    ensures { IfOk result (λ words. map (λ w. w.now) words.items ≡ slice_split (λ byte. byte == 32) line.now) }
{
    line.split(' ').collect(alloc)
}

// Whether the line is that of this row.
fn is_line_of(alloc: Global, line: &str, row: &Row) -> Result<bool, AllocError>
    ensures { IfOk result (λ same. IsTrue same ↔ (line.now ≡ path_text row.now)) }
{
    let mut text = String::new(alloc);
    put_path(&mut text, row)?;
    Ok(line == text.as_str())
}

// The row that has these words, if there is one; else a row or none.
fn row_of(alloc: Global, words: &[&str]) -> Result<Option<Row>, AllocError>
    ensures fits { IfOk result (λ read. IfSome read (λ row. IsOutcomeRow row)) }
    ensures only { IfOk result (λ read. (row : OneRow) → IsOutcomeRow row → map (λ w. w.now) words.now ≡ row_words row → read ≡ Some row) }
{
    let [_, choices, rest @ ..] = words else {
        return Ok(None);
    };
    let Some(choices) = choices_of(alloc, choices)? else {
        return Ok(None);
    };
    let Some((kind, draws)) = around_input(rest) else {
        return Ok(None);
    };
    let Some(kind) = kind_of(alloc, kind)? else {
        return Ok(None);
    };
    let Some(draws) = draws_of(alloc, draws)? else {
        return Ok(None);
    };
    let terms = Terms {
        lines: List::new(Vec::new(alloc)),
        results: List::new(Vec::new(alloc)),
    };
    Ok(Some(Row {
        choices,
        kind,
        draws,
        terms,
    }))
}

// The choices that have this text, if there are such; else some choices or none.
fn choices_of(alloc: Global, text: &str) -> Result<Option<List<u8>>, AllocError>
    ensures fits { IfOk result (λ read. IfSome read (λ l. All (λ side. side ≤ 1) l)) }
    ensures only { IfOk result (λ read. (choices : Items ℕ) → All (λ side. side ≤ 1) choices → text.now ≡ choices_text choices → read ≡ Some choices) }
{
    let mut choices = Vec::new(alloc);
    if text == "-" {
        return Ok(Some(List::new(choices)));
    }
    for digit in text.as_bytes() {
        let Some(side) = side_of(*digit) else {
            return Ok(None);
        };
        choices.push(side)?;
    }
    Ok(Some(List::new(choices)))
}

// The side that has this digit, if there is one.
fn side_of(digit: u8) -> Option<u8>
    ensures fits { IfSome result (λ side. side ≤ 1) }
    ensures only { (side : ℕ) → side ≤ 1 → digit ≡ 48 + side → result ≡ Some side }
{
    match digit {
        b'0' => Some(0),
        b'1' => Some(1),
        _ => None,
    }
}

// The words before the first word `input`, and those after it.
fn around_input<'w, 's>(words: &'w [&'s str]) -> Option<(&'w [&'s str], &'w [&'s str])>
    ensures { (before after : Items (Items ℕ)) → All (λ w. w ≢ codes "input") before → map (λ w. w.now) words.now ≡ before ++ codes "input" ∷ after
        → IsSomeAnd result (λ parts. (map (λ w. w.now) parts.0.now ≡ before) × (map (λ w. w.now) parts.1.now ≡ after)) }
{
    for i in 0..words.len() {
        if words[i] == "input" {
            return Some((&words[..i], &words[i + 1..]));
        }
    }
    None
}
