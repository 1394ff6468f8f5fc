// Separators and comments (Text Format, Lexical Format: White Space, Comments).
ghost use Rattle.std.specs.Prelude.{◌≡◌, ◌≢◌, ◌+◌, ◌<◌, ◌≤◌, ◌==◌, ◌&&◌, length, drop, slice_index, IfOk, IfSome};
ghost use Rattle.wasm_text.specs.Characters.{is_in_line as is_of_line};
ghost use Rattle.wasm_text.specs.Lexing.{run_end, comment_end as end_of_comment, comment_at as comment_from, gap_end as end_of_gap};

use crate::characters::{is_in_line, is_space};
use wasm_text::{LexBad, LexReason};

// The place after a line comment, at its line feed or where the source ends; `from` lies within the comment.
fn line_end(bytes: &[u8], from: usize) -> usize
    requires { from ≤ length bytes.now }
    ensures ends { result ≡ run_end is_of_line from (drop from bytes.now) }
    ensures start { from ≤ result }
    ensures within { result ≤ length bytes.now }
{
    let mut at = from;
    while at < bytes.len() {
        if !is_in_line(bytes[at]) {
            return at;
        }
        at += 1;
    }
    at
}

// Whether these two characters stand at the place; the second isn't NUL.
fn is_pair(bytes: &[u8], at: usize, first: u8, second: u8) -> bool
    requires there { at < length bytes.now }
    requires not_nul { second ≢ 0 }
    ensures { result ≡ (slice_index bytes.now at == first && slice_index (drop (at + 1) bytes.now) 0 == second) }
{
    bytes[at] == first && at + 1 < bytes.len() && bytes[at + 1] == second
}

// The place after a block comment, whose opening ends at the place `from`; None where it isn't closed.
fn comment_end(bytes: &[u8], from: usize) -> Option<usize>
    requires { from ≤ length bytes.now }
    ensures ends { result ≡ end_of_comment 0 from (drop from bytes.now) }
    ensures start { IfSome result (λ end. from < end) }
    ensures within { IfSome result (λ end. end ≤ length bytes.now) }
{
    let mut inner: usize = 0;
    let mut at = from;
    while at + 1 < bytes.len() {
        if is_pair(bytes, at, b'(', b';') {
            inner += 1;
            at += 2;
        } else if is_pair(bytes, at, b';', b')') {
            if inner == 0 {
                return Some(at + 2);
            }
            inner -= 1;
            at += 2;
        } else {
            at += 1;
        }
    }
    None
}

// Where the comment ends that begins at the place, if one does; None inside where it isn't closed.
fn comment_at(bytes: &[u8], at: usize) -> Option<Option<usize>>
    requires { at < length bytes.now }
    ensures ends { result ≡ comment_from at (slice_index bytes.now at) (drop (at + 1) bytes.now) }
    ensures start { IfSome result (λ end. IfSome end (λ next. at < next)) }
    ensures within { IfSome result (λ end. IfSome end (λ next. next ≤ length bytes.now)) }
{
    if is_pair(bytes, at, b';', b';') {
        return Some(Some(line_end(bytes, at + 2)));
    }
    if is_pair(bytes, at, b'(', b';') {
        return Some(comment_end(bytes, at + 2));
    }
    None
}

// The place after the separators and comments from a place on.
pub(crate) fn gap_end(bytes: &[u8], from: usize) -> Result<usize, LexBad>
    requires { from ≤ length bytes.now }
    ensures ends { result ≡ end_of_gap 0 from (drop from bytes.now) }
    ensures start { IfOk result (λ end. from ≤ end) }
    ensures within { IfOk result (λ end. end ≤ length bytes.now) }
{
    let mut at = from;
    while at < bytes.len() {
        if is_space(bytes[at]) {
            at += 1;
            continue;
        }
        match comment_at(bytes, at) {
            None => return Ok(at),
            Some(None) => {
                return Err(LexBad {
                    reason: LexReason::OpenComment,
                    at: at as u64,
                });
            }
            Some(Some(end)) => at = end,
        }
    }
    Ok(at)
}
