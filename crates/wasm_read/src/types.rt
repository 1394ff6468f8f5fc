// Types (Binary Format, Types).
ghost use Rattle.std.specs.Prelude.{◌<◌, ◌≤◌, length, IfOk, Some, Ok, Err};
ghost use Rattle.grammar_forms.specs.Forms.{any_byte, checked};
ghost use Rattle.wasm_binary.specs.Values.{s33};
ghost use Rattle.wasm_binary.specs.Types.{ref_type, val_type, one_of, maximum, limits, table_type, global_type, block_type, short_block_type, type_index};
ghost use Rattle.wasm_read.specs.Views.{Agrees};

use crate::bad::ReadBad;
use crate::numbers::{read_byte, read_s33, read_u32};
use crate::views::View;
use wasm_ast::{BlockType, GlobalType, Limits, TableType, ValType};

/// A reference type.
pub(crate) fn read_ref_type(view: &View, at: usize) -> Result<(ValType, usize), ReadBad>
    requires { at ≤ length view.now.bytes }
    ensures agrees { Agrees (ref_type.read view.now at) result }
    ensures within { IfOk result (λ x. x.1 ≤ length view.now.bytes) }
{
    let (byte, next) = read_byte(view, at)?;
    match byte {
        0x70 => Ok((ValType::FuncRef, next)),
        0x6F => Ok((ValType::ExternRef, next)),
        _ => Err(ReadBad::Byte { at: at as u64 }),
    }
}

/// A value type.
pub(crate) fn read_val_type(view: &View, at: usize) -> Result<(ValType, usize), ReadBad>
    requires { at ≤ length view.now.bytes }
    ensures agrees { Agrees (val_type.read view.now at) result }
    ensures within { IfOk result (λ x. x.1 ≤ length view.now.bytes) }
{
    let (byte, next) = read_byte(view, at)?;
    match byte {
        0x7F => Ok((ValType::I32, next)),
        0x7E => Ok((ValType::I64, next)),
        0x7B..=0x7D => Err(ReadBad::Outside { at: at as u64 }),
        0x70 => Ok((ValType::FuncRef, next)),
        0x6F => Ok((ValType::ExternRef, next)),
        _ => Err(ReadBad::Byte { at: at as u64 }),
    }
}

/// One of the bytes 0, 1, .. below a bound.
pub(crate) fn read_one_of(view: &View, at: usize, bound: u8) -> Result<(u8, usize), ReadBad>
    requires { at ≤ length view.now.bytes }
    ensures agrees { Agrees ((one_of bound).read view.now at) result }
    ensures within { IfOk result (λ x. x.1 ≤ length view.now.bytes) }
{
    let (byte, next) = read_byte(view, at)?;
    if byte < bound {
        Ok((byte, next))
    } else {
        Err(ReadBad::Byte { at: at as u64 })
    }
}

// The maximum, where there is one.
fn read_maximum(view: &View, at: usize, bounded: u8) -> Result<(Option<u32>, usize), ReadBad>
    requires { at ≤ length view.now.bytes }
    ensures agrees { Agrees ((maximum bounded).read view.now at) result }
    ensures within { IfOk result (λ x. x.1 ≤ length view.now.bytes) }
{
    if bounded == 1 {
        let (max, at) = read_u32(view, at)?;
        Ok((Some(max), at))
    } else {
        Ok((None, at))
    }
}

/// Limits.
pub(crate) fn read_limits(view: &View, at: usize) -> Result<(Limits, usize), ReadBad>
    requires { at ≤ length view.now.bytes }
    ensures agrees { Agrees (limits.read view.now at) result }
    ensures within { IfOk result (λ x. x.1 ≤ length view.now.bytes) }
{
    let (bounded, at) = read_one_of(view, at, 2)?;
    let (min, at) = read_u32(view, at)?;
    let (max, at) = read_maximum(view, at, bounded)?;
    Ok((Limits { min, max }, at))
}

/// A table's type.
pub(crate) fn read_table_type(view: &View, at: usize) -> Result<(TableType, usize), ReadBad>
    requires { at ≤ length view.now.bytes }
    ensures agrees { Agrees (table_type.read view.now at) result }
    ensures within { IfOk result (λ x. x.1 ≤ length view.now.bytes) }
{
    let (kind, at) = read_ref_type(view, at)?;
    let (limits, at) = read_limits(view, at)?;
    Ok((TableType { kind, limits }, at))
}

/// A global's type.
pub(crate) fn read_global_type(view: &View, at: usize) -> Result<(GlobalType, usize), ReadBad>
    requires { at ≤ length view.now.bytes }
    ensures agrees { Agrees (global_type.read view.now at) result }
    ensures within { IfOk result (λ x. x.1 ≤ length view.now.bytes) }
{
    let (kind, at) = read_val_type(view, at)?;
    let (mutable, at) = read_one_of(view, at, 2)?;
    let mutable = mutable == 1;
    Ok((GlobalType { kind, mutable }, at))
}

/// A block type: none, one value type, or the index of a function type.
pub(crate) fn read_block_type(view: &View, at: usize) -> Result<(BlockType, usize), ReadBad>
    requires { at ≤ length view.now.bytes }
    ensures agrees { Agrees (block_type.read view.now at) result }
    ensures within { IfOk result (λ x. x.1 ≤ length view.now.bytes) }
{
    let (byte, _) = read_byte(view, at)?;
    if byte >= 0x40 && byte <= 0x7F {
        read_short_block_type(view, at)
    } else {
        read_type_index(view, at)
    }
}

// A block type of one byte.
fn read_short_block_type(view: &View, at: usize) -> Result<(BlockType, usize), ReadBad>
    requires { at ≤ length view.now.bytes }
    ensures agrees { Agrees ((checked any_byte short_block_type).read view.now at) result }
    ensures within { IfOk result (λ x. x.1 ≤ length view.now.bytes) }
{
    let (byte, next) = read_byte(view, at)?;
    if byte == 0x40 {
        return Ok((BlockType::Empty, next));
    }
    let (kind, next) = read_val_type(view, at)?;
    Ok((BlockType::One(kind), next))
}

// The index of a function type, as a number of 33 bits that isn't negative.
fn read_type_index(view: &View, at: usize) -> Result<(BlockType, usize), ReadBad>
    requires { at ≤ length view.now.bytes }
    ensures agrees { Agrees ((checked s33 type_index).read view.now at) result }
    ensures within { IfOk result (λ x. x.1 ≤ length view.now.bytes) }
{
    let (index, next) = read_s33(view, at)?;
    if index < 0 {
        return Err(ReadBad::Byte { at: at as u64 });
    }
    Ok((BlockType::Index(index as u32), next))
}
