// Instructions that hold no others (Binary Format, Instructions).
#![tactic(auto, unfolding(wasm_binary::specs::Instructions::plain))]

ghost use Rattle.std.specs.Prelude.{◌≡◌, ◌≤◌, length, IfOk};
ghost use Rattle.grammar_forms.specs.Forms.{checked};
ghost use Rattle.wasm_ast.specs.Opcodes.{is_from as is_from_byte};
ghost use Rattle.wasm_binary.specs.Values.{u32 as u32_form};
ghost use Rattle.wasm_binary.specs.Types.{below};
ghost use Rattle.wasm_binary.specs.Instructions.{plain};
ghost use Rattle.wasm_read.specs.Accesses.{access};
ghost use Rattle.wasm_read.specs.Views.{Agrees};

use crate::bad::ReadBad;
use crate::entries::read_vec;
use crate::numbers::{read_s32, read_s64, read_tag, read_u32};
use crate::opcodes::Opcode;
use crate::table_instructions::read_after_fc;
use crate::types::read_ref_type;
use crate::views::View;
use std::alloc::Global;
use wasm_ast::Instr;
use wasm_ast::opcodes::{is_load, is_store};

/// What follows an opcode that is no control instruction's.
pub(crate) fn read_plain(
    alloc: Global,
    view: &View,
    at: usize,
    op: &Opcode,
) -> Result<(Instr, usize), ReadBad>
    requires { at ≤ length view.now.bytes }
    ensures agrees { Agrees ((plain op.now).read view.now at) result }
    ensures within { IfOk result (λ x. x.1 ≤ length view.now.bytes) }
{
    let first = op.first;
    if is_from(0x0C, 0x11, first) {
        return read_branch(alloc, view, at, op);
    }
    if is_from(0x1A, 0x1C, first) {
        return read_parametric(alloc, view, at, op);
    }
    if is_from(0x20, 0x26, first) {
        return read_variable(view, at, op);
    }
    if is_from(0x3F, 0x42, first) {
        return read_size_or_constant(view, at, op);
    }
    if is_from(0xD0, 0xD2, first) {
        return read_reference(view, at, op);
    }
    match first {
        0x00 => Ok((Instr::Unreachable, at)),
        0x01 => Ok((Instr::Nop, at)),
        0xFC => read_after_fc(view, at, op.second),
        _ => read_access(view, at, first),
    }
}

// Whether the byte is from the first to the last, both included.
fn is_from(first: u8, last: u8, byte: u8) -> bool
    ensures { result ≡ is_from_byte first last byte }
{
    first <= byte && byte <= last
}

// br to call_indirect.
fn read_branch(
    alloc: Global,
    view: &View,
    at: usize,
    op: &Opcode,
) -> Result<(Instr, usize), ReadBad>
    requires here { at ≤ length view.now.bytes }
    requires low { 0x0C ≤ op.now.first }
    requires high { op.now.first ≤ 0x11 }
    ensures agrees { Agrees ((plain op.now).read view.now at) result }
    ensures within { IfOk result (λ x. x.1 ≤ length view.now.bytes) }
{
    match op.first {
        0x0C => {
            let (label, at) = read_u32(view, at)?;
            Ok((Instr::Br(label), at))
        }
        0x0D => {
            let (label, at) = read_u32(view, at)?;
            Ok((Instr::BrIf(label), at))
        }
        0x0E => {
            let (labels, at) = read_vec(alloc, view, at)?;
            let (last, at) = read_u32(view, at)?;
            Ok((Instr::BrTable { labels, last }, at))
        }
        0x0F => Ok((Instr::Return, at)),
        0x10 => {
            let (func, at) = read_u32(view, at)?;
            Ok((Instr::Call(func), at))
        }
        0x11 => {
            let (ty, at) = read_u32(view, at)?;
            let (table, at) = read_u32(view, at)?;
            Ok((Instr::CallIndirect { ty, table }, at))
        }
        _ => unreachable!(),
    }
}

// drop and select.
fn read_parametric(
    alloc: Global,
    view: &View,
    at: usize,
    op: &Opcode,
) -> Result<(Instr, usize), ReadBad>
    requires here { at ≤ length view.now.bytes }
    requires low { 0x1A ≤ op.now.first }
    requires high { op.now.first ≤ 0x1C }
    ensures agrees { Agrees ((plain op.now).read view.now at) result }
    ensures within { IfOk result (λ x. x.1 ≤ length view.now.bytes) }
{
    match op.first {
        0x1A => Ok((Instr::Discard, at)),
        0x1B => Ok((Instr::Select, at)),
        0x1C => {
            let (kinds, at) = read_vec(alloc, view, at)?;
            Ok((Instr::SelectTyped(kinds), at))
        }
        _ => unreachable!(),
    }
}

// local.get to global.set, table.get and table.set.
fn read_variable(view: &View, at: usize, op: &Opcode) -> Result<(Instr, usize), ReadBad>
    requires here { at ≤ length view.now.bytes }
    requires low { 0x20 ≤ op.now.first }
    requires high { op.now.first ≤ 0x26 }
    ensures agrees { Agrees ((plain op.now).read view.now at) result }
    ensures within { IfOk result (λ x. x.1 ≤ length view.now.bytes) }
{
    match op.first {
        0x20 => {
            let (local, at) = read_u32(view, at)?;
            Ok((Instr::LocalGet(local), at))
        }
        0x21 => {
            let (local, at) = read_u32(view, at)?;
            Ok((Instr::LocalSet(local), at))
        }
        0x22 => {
            let (local, at) = read_u32(view, at)?;
            Ok((Instr::LocalTee(local), at))
        }
        0x23 => {
            let (global, at) = read_u32(view, at)?;
            Ok((Instr::GlobalGet(global), at))
        }
        0x24 => {
            let (global, at) = read_u32(view, at)?;
            Ok((Instr::GlobalSet(global), at))
        }
        0x25 => {
            let (table, at) = read_u32(view, at)?;
            Ok((Instr::TableGet(table), at))
        }
        0x26 => {
            let (table, at) = read_u32(view, at)?;
            Ok((Instr::TableSet(table), at))
        }
        _ => unreachable!(),
    }
}

// memory.size and memory.grow, i32.const and i64.const.
fn read_size_or_constant(view: &View, at: usize, op: &Opcode) -> Result<(Instr, usize), ReadBad>
    requires here { at ≤ length view.now.bytes }
    requires low { 0x3F ≤ op.now.first }
    requires high { op.now.first ≤ 0x42 }
    ensures agrees { Agrees ((plain op.now).read view.now at) result }
    ensures within { IfOk result (λ x. x.1 ≤ length view.now.bytes) }
{
    match op.first {
        0x3F => {
            let (_, at) = read_tag(view, at, 0x00)?;
            Ok((Instr::MemorySize, at))
        }
        0x40 => {
            let (_, at) = read_tag(view, at, 0x00)?;
            Ok((Instr::MemoryGrow, at))
        }
        0x41 => {
            let (value, at) = read_s32(view, at)?;
            Ok((Instr::Const32(value.cast_unsigned()), at))
        }
        0x42 => {
            let (value, at) = read_s64(view, at)?;
            Ok((Instr::Const64(value.cast_unsigned()), at))
        }
        _ => unreachable!(),
    }
}

// ref.null, ref.is_null and ref.func.
fn read_reference(view: &View, at: usize, op: &Opcode) -> Result<(Instr, usize), ReadBad>
    requires here { at ≤ length view.now.bytes }
    requires low { 0xD0 ≤ op.now.first }
    requires high { op.now.first ≤ 0xD2 }
    ensures agrees { Agrees ((plain op.now).read view.now at) result }
    ensures within { IfOk result (λ x. x.1 ≤ length view.now.bytes) }
{
    match op.first {
        0xD0 => {
            let (kind, at) = read_ref_type(view, at)?;
            Ok((Instr::RefNull(kind), at))
        }
        0xD1 => Ok((Instr::RefIsNull, at)),
        0xD2 => {
            let (func, at) = read_u32(view, at)?;
            Ok((Instr::RefFunc(func), at))
        }
        _ => unreachable!(),
    }
}

// A load or a store with its memory argument, or an operator.
fn read_access(view: &View, at: usize, op: u8) -> Result<(Instr, usize), ReadBad>
    requires { at ≤ length view.now.bytes }
    ensures agrees { Agrees ((access op).read view.now at) result }
    ensures within { IfOk result (λ x. x.1 ≤ length view.now.bytes) }
{
    if is_load(op) {
        let (align, at) = read_alignment(view, at)?;
        let (offset, at) = read_u32(view, at)?;
        Ok((Instr::Load { op, align, offset }, at))
    } else if is_store(op) {
        let (align, at) = read_alignment(view, at)?;
        let (offset, at) = read_u32(view, at)?;
        Ok((Instr::Store { op, align, offset }, at))
    } else {
        Ok((Instr::Num(op), at))
    }
}

// The exponent of an alignment, which is below 32.
fn read_alignment(view: &View, at: usize) -> Result<(u32, usize), ReadBad>
    requires { at ≤ length view.now.bytes }
    ensures agrees { Agrees ((checked u32_form (below 32)).read view.now at) result }
    ensures within { IfOk result (λ x. x.1 ≤ length view.now.bytes) }
{
    let (align, next) = read_u32(view, at)?;
    if align >= 32 {
        return Err(ReadBad::Byte { at: at as u64 });
    }
    Ok((align, next))
}
