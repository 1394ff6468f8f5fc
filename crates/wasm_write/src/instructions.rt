// Instructions (Binary Format, Instructions).
ghost use Rattle.std.specs.Prelude.{◌≡◌, [], ◌∷◌, ◌++◌, OnOk};
ghost use Rattle.owi_base.specs.Leb.{unsigned_bytes};
ghost use Rattle.wasm_write.specs.Types.{block_type_bytes};
ghost use Rattle.wasm_write.specs.Instructions.{signed, indexed, indexed_twice, after_FC};
ghost use Rattle.wasm_write.specs.Writing.{front_bytes};

use crate::types::{put_block_type, type_byte};
use crate::values::put_vec;
use owi_base::leb::signed::put_s;
use owi_base::leb::unsigned::put_u;
use std::alloc::{AllocError, Global};
use wasm_ast::{BlockType, Instr, List, ValType};

fn put_byte(out: &mut Vec<u8>, op: u8) -> Result<(), AllocError>
    ensures { OnOk result (out.new.items ≡ out.old.items ++ op ∷ []) }
{
    out.push(op)?;
    Ok(())
}

fn put_bytes(out: &mut Vec<u8>, op: u8, next: u8) -> Result<(), AllocError>
    ensures { OnOk result (out.new.items ≡ out.old.items ++ op ∷ next ∷ []) }
{
    out.push(op)?;
    out.push(next)?;
    Ok(())
}

// An opcode and an index.
fn put_indexed(out: &mut Vec<u8>, op: u8, x: u32) -> Result<(), AllocError>
    ensures { OnOk result (out.new.items ≡ out.old.items ++ indexed op x) }
{
    out.push(op)?;
    put_u(out, u64::from(x))
}

// An opcode and two indices.
fn put_indexed_twice(out: &mut Vec<u8>, op: u8, x: u32, y: u32) -> Result<(), AllocError>
    ensures { OnOk result (out.new.items ≡ out.old.items ++ indexed_twice op x y) }
{
    out.push(op)?;
    put_u(out, u64::from(x))?;
    put_u(out, u64::from(y))
}

// An instruction of the opcode FC, by the number after it, and an index.
fn put_numbered(out: &mut Vec<u8>, n: u8, x: u32) -> Result<(), AllocError>
    ensures { OnOk result (out.new.items ≡ out.old.items ++ after_FC n (unsigned_bytes x)) }
{
    put_bytes(out, 0xFC, n)?;
    put_u(out, u64::from(x))
}

// The same with two indices.
fn put_numbered_twice(out: &mut Vec<u8>, n: u8, x: u32, y: u32) -> Result<(), AllocError>
    ensures { OnOk result (out.new.items ≡ out.old.items ++ after_FC n (unsigned_bytes x ++ unsigned_bytes y)) }
{
    put_bytes(out, 0xFC, n)?;
    put_u(out, u64::from(x))?;
    put_u(out, u64::from(y))
}

// memory.init: the segment and a byte 00 for the memory.
fn put_memory_init(out: &mut Vec<u8>, segment: u32) -> Result<(), AllocError>
    ensures { OnOk result (out.new.items ≡ out.old.items ++ after_FC 8 (unsigned_bytes segment ++ 0x00 ∷ [])) }
{
    put_numbered(out, 8, segment)?;
    put_byte(out, 0x00)
}

// memory.copy: two bytes 00 for the memories.
fn put_memory_copy(out: &mut Vec<u8>) -> Result<(), AllocError>
    ensures { OnOk result (out.new.items ≡ out.old.items ++ after_FC 10 (0x00 ∷ 0x00 ∷ [])) }
{
    put_bytes(out, 0xFC, 10)?;
    put_bytes(out, 0x00, 0x00)
}

// memory.fill: a byte 00 for the memory.
fn put_memory_fill(out: &mut Vec<u8>) -> Result<(), AllocError>
    ensures { OnOk result (out.new.items ≡ out.old.items ++ after_FC 11 (0x00 ∷ [])) }
{
    put_bytes(out, 0xFC, 11)?;
    put_byte(out, 0x00)
}

// The opcode and the type of a block.
fn put_block(out: &mut Vec<u8>, op: u8, ty: BlockType) -> Result<(), AllocError>
    ensures { OnOk result (out.new.items ≡ out.old.items ++ op ∷ block_type_bytes ty) }
{
    out.push(op)?;
    put_block_type(out, ty)
}

fn put_branch_table(
    alloc: Global,
    out: &mut Vec<u8>,
    labels: &List<u32>,
    last: u32,
) -> Result<(), AllocError>
    ensures { OnOk result (out.new.items ≡ out.old.items ++ front_bytes (Instr.BrTable labels.now last)) }
{
    out.push(0x0E)?;
    put_vec(alloc, out, labels)?;
    put_u(out, u64::from(last))
}

fn put_select(alloc: Global, out: &mut Vec<u8>, kinds: &List<ValType>) -> Result<(), AllocError>
    ensures { OnOk result (out.new.items ≡ out.old.items ++ front_bytes (Instr.SelectTyped kinds.now)) }
{
    out.push(0x1C)?;
    put_vec(alloc, out, kinds)
}

// A number below 2^32 as a signed one.
fn signed_32(n: u32) -> i64
    ensures { result ≡ signed 32 n }
{
    if n < 0x8000_0000 {
        i64::from(n)
    } else {
        i64::from(n) - 0x1_0000_0000
    }
}

// A number below 2^64 as a signed one.
fn signed_64(n: u64) -> i64
    ensures { result ≡ signed 64 n }
{
    n.cast_signed()
}

fn put_constant_32(out: &mut Vec<u8>, n: u32) -> Result<(), AllocError>
    ensures { OnOk result (out.new.items ≡ out.old.items ++ front_bytes (Instr.Const32 n)) }
{
    out.push(0x41)?;
    put_s(out, signed_32(n))
}

fn put_constant_64(out: &mut Vec<u8>, n: u64) -> Result<(), AllocError>
    ensures { OnOk result (out.new.items ≡ out.old.items ++ front_bytes (Instr.Const64 n)) }
{
    out.push(0x42)?;
    put_s(out, signed_64(n))
}

// The instruction, without the sequences inside it and its end.
pub(crate) fn put_front(alloc: Global, out: &mut Vec<u8>, instr: &Instr) -> Result<(), AllocError>
    ensures { OnOk result (out.new.items ≡ out.old.items ++ front_bytes instr.now) }
{
    match instr {
        Instr::Unreachable => put_byte(out, 0x00),
        Instr::Nop => put_byte(out, 0x01),
        Instr::Block { ty, .. } => put_block(out, 0x02, *ty),
        Instr::Loop { ty, .. } => put_block(out, 0x03, *ty),
        Instr::If { ty, .. } => put_block(out, 0x04, *ty),
        Instr::Br(x) => put_indexed(out, 0x0C, *x),
        Instr::BrIf(x) => put_indexed(out, 0x0D, *x),
        Instr::BrTable { labels, last } => put_branch_table(alloc, out, labels, *last),
        Instr::Return => put_byte(out, 0x0F),
        Instr::Call(x) => put_indexed(out, 0x10, *x),
        Instr::CallIndirect { ty, table } => put_indexed_twice(out, 0x11, *ty, *table),
        Instr::RefNull(kind) => put_bytes(out, 0xD0, type_byte(*kind)),
        Instr::RefIsNull => put_byte(out, 0xD1),
        Instr::RefFunc(x) => put_indexed(out, 0xD2, *x),
        Instr::Discard => put_byte(out, 0x1A),
        Instr::Select => put_byte(out, 0x1B),
        Instr::SelectTyped(kinds) => put_select(alloc, out, kinds),
        Instr::LocalGet(x) => put_indexed(out, 0x20, *x),
        Instr::LocalSet(x) => put_indexed(out, 0x21, *x),
        Instr::LocalTee(x) => put_indexed(out, 0x22, *x),
        Instr::GlobalGet(x) => put_indexed(out, 0x23, *x),
        Instr::GlobalSet(x) => put_indexed(out, 0x24, *x),
        Instr::TableGet(x) => put_indexed(out, 0x25, *x),
        Instr::TableSet(x) => put_indexed(out, 0x26, *x),
        Instr::TableInit { elem, table } => put_numbered_twice(out, 12, *elem, *table),
        Instr::ElemDrop(x) => put_numbered(out, 13, *x),
        Instr::TableCopy { to, from } => put_numbered_twice(out, 14, *to, *from),
        Instr::TableGrow(x) => put_numbered(out, 15, *x),
        Instr::TableSize(x) => put_numbered(out, 16, *x),
        Instr::TableFill(x) => put_numbered(out, 17, *x),
        Instr::Load { op, align, offset } => put_indexed_twice(out, *op, *align, *offset),
        Instr::Store { op, align, offset } => put_indexed_twice(out, *op, *align, *offset),
        Instr::MemorySize => put_bytes(out, 0x3F, 0x00),
        Instr::MemoryGrow => put_bytes(out, 0x40, 0x00),
        Instr::MemoryInit(x) => put_memory_init(out, *x),
        Instr::DataDrop(x) => put_numbered(out, 9, *x),
        Instr::MemoryCopy => put_memory_copy(out),
        Instr::MemoryFill => put_memory_fill(out),
        Instr::Const32(n) => put_constant_32(out, *n),
        Instr::Const64(n) => put_constant_64(out, *n),
        Instr::Num(op) => put_byte(out, *op),
    }
}
