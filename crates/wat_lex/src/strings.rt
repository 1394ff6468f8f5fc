// Strings (Text Format, Values: Strings).
ghost use Rattle.std.specs.Prelude.{◌≡◌, ◌*◌, ◌+◌, ◌<◌, ◌≤◌, false, length, drop, IfOk, Err};
ghost use Rattle.wasm_text.specs.Lexing.{trouble, hex_pair_end as end_of_hex_pair, number_end as end_of_number, braces_end as end_of_braces, escape_end as end_of_escape, string_end as end_of_string};
ghost use Rattle.wat_lex.specs.code.Numbers.{Alike};

use crate::characters::{hex_value, is_hex, is_scalar, is_short_escape, is_string_char};
use wasm_text::{LexBad, LexReason};

fn bad(reason: LexReason, at: usize) -> LexBad
    ensures { result ≡ record { reason = reason; at = at } }
{
    LexBad {
        reason,
        at: at as u64,
    }
}

// The place after an escape of two digits, of which the first is there.
fn hex_pair_end(bytes: &[u8], quote: usize, slash: usize) -> Result<usize, LexBad>
    requires { slash + 1 < length bytes.now }
    ensures ends { result ≡ end_of_hex_pair quote slash (drop (slash + 2) bytes.now) }
    ensures start { IfOk result (λ end. slash < end) }
    ensures within { IfOk result (λ end. end ≤ length bytes.now) }
{
    let at = slash + 2;
    if at >= bytes.len() {
        return Err(bad(LexReason::OpenString, quote));
    }
    if is_hex(bytes[at]) {
        Ok(slash + 3)
    } else {
        Err(bad(LexReason::BadEscape, slash))
    }
}

// A number with one more digit; past all characters, its value doesn't matter.
fn more(number: u32, digit: u32) -> u32
    requires { digit < 16 }
    ensures { Alike (16 * number + digit) result }
{
    if number > 0x10FFFF {
        number
    } else {
        number * 16 + digit
    }
}

// The place after a character's number and the brace behind it.
fn number_end(bytes: &[u8], quote: usize, slash: usize) -> Result<usize, LexBad>
    requires { slash + 2 < length bytes.now }
    ensures ends { result ≡ end_of_number quote slash (slash + 3) 0 false (drop (slash + 3) bytes.now) }
    ensures start { IfOk result (λ end. slash < end) }
    ensures within { IfOk result (λ end. end ≤ length bytes.now) }
{
    let mut at = slash + 3;
    let mut number: u32 = 0;
    let mut digit = false;
    while at < bytes.len() {
        let c = bytes[at];
        at += 1;
        if is_hex(c) {
            number = more(number, hex_value(c));
            digit = true;
        } else if digit && c == b'_' {
            digit = false;
        } else if digit && c == b'}' && is_scalar(number) {
            return Ok(at);
        } else {
            return Err(bad(LexReason::BadEscape, slash));
        }
    }
    Err(bad(LexReason::OpenString, quote))
}

// The place after an escape by a character's number, of which the `u` is there.
fn braces_end(bytes: &[u8], quote: usize, slash: usize) -> Result<usize, LexBad>
    requires { slash + 1 < length bytes.now }
    ensures ends { result ≡ end_of_braces quote slash (drop (slash + 2) bytes.now) }
    ensures start { IfOk result (λ end. slash < end) }
    ensures within { IfOk result (λ end. end ≤ length bytes.now) }
{
    let at = slash + 2;
    if at >= bytes.len() {
        return Err(bad(LexReason::OpenString, quote));
    }
    if bytes[at] == b'{' {
        number_end(bytes, quote, slash)
    } else {
        Err(bad(LexReason::BadEscape, slash))
    }
}

// The place after an escape, by the place of its backslash.
fn escape_end(bytes: &[u8], quote: usize, slash: usize) -> Result<usize, LexBad>
    requires { slash < length bytes.now }
    ensures ends { result ≡ end_of_escape quote slash (drop (slash + 1) bytes.now) }
    ensures start { IfOk result (λ end. slash < end) }
    ensures within { IfOk result (λ end. end ≤ length bytes.now) }
{
    let at = slash + 1;
    if at >= bytes.len() {
        return Err(bad(LexReason::OpenString, quote));
    }
    let c = bytes[at];
    if is_short_escape(c) {
        Ok(slash + 2)
    } else if is_hex(c) {
        hex_pair_end(bytes, quote, slash)
    } else if c == b'u' {
        braces_end(bytes, quote, slash)
    } else {
        Err(bad(LexReason::BadEscape, slash))
    }
}

// The place after the string whose opening stands at the place `quote`.
pub(crate) fn string_end(bytes: &[u8], quote: usize) -> Result<usize, LexBad>
    requires { quote < length bytes.now }
    ensures ends { result ≡ end_of_string quote 0 (quote + 1) (drop (quote + 1) bytes.now) }
    ensures start { IfOk result (λ end. quote < end) }
    ensures within { IfOk result (λ end. end ≤ length bytes.now) }
{
    let mut at = quote + 1;
    while at < bytes.len() {
        let c = bytes[at];
        if c == b'"' {
            return Ok(at + 1);
        }
        if c == b'\\' {
            match escape_end(bytes, quote, at) {
                Ok(end) => at = end,
                Err(trouble) => return Err(trouble),
            }
        } else if is_string_char(c) {
            at += 1;
        } else {
            return Err(bad(LexReason::Char, at));
        }
    }
    Err(bad(LexReason::OpenString, quote))
}
