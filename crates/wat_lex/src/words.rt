// Tokens (Text Format, Lexical Format: Tokens).
ghost use Rattle.std.specs.Prelude.{◌≡◌, ◌≤◌, ◌<◌, length, drop, IfOk, IfSome};
ghost use Rattle.wasm_text.specs.Characters.{is_word_char as is_of_word};
ghost use Rattle.wasm_text.specs.Lexing.{run_end, token_at as token_from};

use crate::characters::is_word_char;
use crate::strings::string_end;
use wasm_text::{LexBad, LexReason, Token, TokenKind};

// The place after the longest run of word characters.
fn word_end(bytes: &[u8], from: usize) -> usize
    requires { from ≤ length bytes.now }
    ensures ends { result ≡ run_end is_of_word from (drop from bytes.now) }
    ensures start { from ≤ result }
    ensures within { result ≤ length bytes.now }
{
    let mut at = from;
    while at < bytes.len() {
        if !is_word_char(bytes[at]) {
            return at;
        }
        at += 1;
    }
    at
}

// The token from a place on at which no separator and no comment stands.
pub(crate) fn token_at(bytes: &[u8], start: usize) -> Result<Option<Token>, LexBad>
    requires { start ≤ length bytes.now }
    ensures token { result ≡ token_from start (drop start bytes.now) }
    ensures start { IfOk result (λ found. IfSome found (λ t. t.start ≡ start)) }
    ensures some { IfOk result (λ found. IfSome found (λ t. t.start < t.end)) }
    ensures within { IfOk result (λ found. IfSome found (λ t. t.end ≤ length bytes.now)) }
{
    if start >= bytes.len() {
        return Ok(None);
    }
    let c = bytes[start];
    let (kind, end) = if c == b'(' {
        (TokenKind::Open, start + 1)
    } else if c == b')' {
        (TokenKind::Close, start + 1)
    } else if c == b'"' {
        match string_end(bytes, start) {
            Ok(end) => (TokenKind::Str, end),
            Err(bad) => return Err(bad),
        }
    } else if is_word_char(c) {
        (TokenKind::Word, word_end(bytes, start + 1))
    } else {
        return Err(LexBad {
            reason: LexReason::Char,
            at: start as u64,
        });
    };
    Ok(Some(Token { kind, start, end }))
}
