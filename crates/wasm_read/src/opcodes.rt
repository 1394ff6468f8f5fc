// Opcodes (Binary Format, Instructions).
ghost use Rattle.std.specs.Prelude.{◌≡◌, ◌≤◌, length, ◌≢◌, IfOk};
ghost use Rattle.grammar_forms.specs.Forms.{checked, located};
ghost use Rattle.wasm_binary.specs.Instructions.{opcode, allowed, is_opcode as is_opcode_around, is_outside as is_outside_byte};
ghost use Rattle.wasm_read.specs.Views.{Agrees};

use crate::bad::ReadBad;
use crate::numbers::{read_byte, read_u32};
use crate::views::View;
use std::marker::Model;
use wasm_ast::opcodes::{is_load, is_numeric, is_store};

/// An opcode: a byte, and after FC a number, else 0. Contracts see it as the grammar's.
#[derive(Drop)]
pub(crate) struct Opcode {
    pub(crate) first: u8,
    pub(crate) second: u32,
}

impl Model for Opcode {
    ghost use Rattle.wasm_binary.specs.Instructions.{Opcode as OneOpcode};

    ghost Value = { OneOpcode };

    ghost view = { λ o. record { first = o.first; second = o.second } };
}

/// What is known where an instruction is read.
#[derive(Drop)]
pub(crate) struct Context {
    /// There is a data count section, or none is needed.
    pub(crate) has_data_count: bool,
    /// It stands in an if's first sequence, which may end with an else.
    pub(crate) else_may_follow: bool,
}

impl Model for Context {
    ghost use Rattle.wasm_binary.specs.Instructions.{Around};

    ghost Value = { Around };

    ghost view = { λ c. record { has_data_count = c.has_data_count; else_may_follow = c.else_may_follow } };
}

/// An opcode of the profile that may stand there.
pub(crate) fn read_opcode(
    view: &View,
    at: usize,
    context: &Context,
) -> Result<(Opcode, usize), ReadBad>
    requires { at ≤ length view.now.bytes }
    ensures agrees { Agrees ((checked opcode (allowed context.now)).read view.now at) result }
    ensures within { IfOk result (λ x. x.1 ≤ length view.now.bytes) }
{
    let (first, next) = read_byte(view, at)?;
    if first == 0xFC {
        let (second, next) = read_u32(view, next)?;
        judge_number(second, at, next, context)
    } else {
        judge_byte(first, at, next, context)
    }
}

// Whether an opcode of one byte may stand at a place.
fn judge_byte(
    first: u8,
    at: usize,
    next: usize,
    context: &Context,
) -> Result<(Opcode, usize), ReadBad>
    requires { first ≢ 0xFC }
    ensures agrees { Agrees (located at next (allowed context.now (record { first = first; second = 0 }))) result }
    ensures there { IfOk result (λ x. x.1 ≡ next) }
{
    if is_opcode(first, context) {
        Ok((Opcode { first, second: 0 }, next))
    } else if is_outside(first) {
        Err(ReadBad::Outside { at: at as u64 })
    } else {
        Err(ReadBad::Byte { at: at as u64 })
    }
}

// Whether the opcode of this number after FC may stand at a place.
fn judge_number(
    second: u32,
    at: usize,
    next: usize,
    context: &Context,
) -> Result<(Opcode, usize), ReadBad>
    ensures agrees { Agrees (located at next (allowed context.now (record { first = 0xFC; second = second }))) result }
    ensures there { IfOk result (λ x. x.1 ≡ next) }
{
    if second < 8 {
        return Err(ReadBad::Outside { at: at as u64 });
    }
    if (second == 8 || second == 9) && !context.has_data_count {
        return Err(ReadBad::DataCount { at: at as u64 });
    }
    if second > 17 {
        return Err(ReadBad::Byte { at: at as u64 });
    }
    Ok((
        Opcode {
            first: 0xFC,
            second,
        },
        next,
    ))
}

// Whether the byte is an opcode, an else only where one may follow.
fn is_opcode(first: u8, context: &Context) -> bool
    ensures { result ≡ is_opcode_around context.now first }
{
    match first {
        0x05 => context.else_may_follow,
        0x00..=0x04 | 0x0B..=0x11 | 0x1A..=0x1C | 0x20..=0x26 => true,
        0x3F..=0x42 | 0xD0..=0xD2 => true,
        _ => is_load(first) || is_store(first) || is_numeric(first),
    }
}

// Whether the byte is an opcode of floating-point numbers or vectors.
fn is_outside(first: u8) -> bool
    ensures { result ≡ is_outside_byte first }
{
    matches!(first, 0x2A..=0x2B | 0x38..=0x39 | 0x43..=0x44 | 0x5B..=0x66 | 0x8B..=0xA6)
        || matches!(first, 0xA8..=0xAB | 0xAE..=0xBF | 0xFD)
}
