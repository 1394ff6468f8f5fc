// Instructions (Text Format, Instructions).
ghost use Rattle.std.specs.Prelude.{◌≡◌, ◌<◌, ◌++◌, OnOk, string_bytes, flat_map};
ghost use Rattle.wasm_ast.specs.Shape.{InstrHasShape};
ghost use Rattle.wasm_text.specs.PrintedInstructions.{signed, heap_word as word_of_heap, next_index, indexed, indexed_twice, access_text, head_text};
ghost use Rattle.wasm_text.specs.PrintedTypes.{next_type, block_type_text};

use crate::types::{put_block_type, put_next_types, type_word};
use crate::words::opcode_word;
use std::alloc::AllocError;
use wasm_ast::{BlockType, Instr, List, ValType};

// A reference type as `ref.null` takes it.
fn heap_word(kind: ValType) -> &'static str
    ensures { result.now ≡ word_of_heap kind }
{
    match kind {
        ValType::FuncRef => "func",
        ValType::ExternRef => "extern",
        _ => type_word(kind),
    }
}

fn put_next_index(out: &mut String, x: u32) -> Result<(), AllocError>
    ensures { OnOk result (string_bytes out.new ≡ string_bytes out.old ++ next_index x) }
{
    write!(out, " {x}")?;
    Ok(())
}

// A word and an index.
fn put_indexed(out: &mut String, word: &str, x: u32) -> Result<(), AllocError>
    ensures { OnOk result (string_bytes out.new ≡ string_bytes out.old ++ indexed word.now x) }
{
    out.push_str(word)?;
    put_next_index(out, x)
}

// A word and two indices.
fn put_indexed_twice(out: &mut String, word: &str, x: u32, y: u32) -> Result<(), AllocError>
    ensures { OnOk result (string_bytes out.new ≡ string_bytes out.old ++ indexed_twice word.now x y) }
{
    out.push_str(word)?;
    put_next_index(out, x)?;
    put_next_index(out, y)
}

fn put_next_indices(out: &mut String, xs: &[u32]) -> Result<(), AllocError>
    ensures { OnOk result (string_bytes out.new ≡ string_bytes out.old ++ flat_map next_index xs.now) }
{
    for x in xs {
        put_next_index(out, *x)?;
    }
    Ok(())
}

fn put_branch_table(out: &mut String, labels: &List<u32>, last: u32) -> Result<(), AllocError>
    ensures { OnOk result (string_bytes out.new ≡ string_bytes out.old ++ head_text (Instr.BrTable labels.now last)) }
{
    out.push_str("br_table")?;
    put_next_indices(out, labels.as_slice())?;
    put_next_index(out, last)
}

fn put_call_indirect(out: &mut String, ty: u32, table: u32) -> Result<(), AllocError>
    ensures { OnOk result (string_bytes out.new ≡ string_bytes out.old ++ head_text (Instr.CallIndirect ty table)) }
{
    put_indexed(out, "call_indirect", table)?;
    write!(out, " (type {ty})")?;
    Ok(())
}

fn put_ref_null(out: &mut String, kind: ValType) -> Result<(), AllocError>
    ensures { OnOk result (string_bytes out.new ≡ string_bytes out.old ++ head_text (Instr.RefNull kind)) }
{
    out.push_str("ref.null ")?;
    out.push_str(heap_word(kind))
}

fn put_select(out: &mut String, kinds: &List<ValType>) -> Result<(), AllocError>
    ensures { OnOk result (string_bytes out.new ≡ string_bytes out.old ++ head_text (Instr.SelectTyped kinds.now)) }
{
    out.push_str("select (result")?;
    put_next_types(out, kinds.as_slice())?;
    out.push_str(")")
}

// The word of a block, and its type.
fn put_block(out: &mut String, word: &str, ty: BlockType) -> Result<(), AllocError>
    ensures { OnOk result (string_bytes out.new ≡ string_bytes out.old ++ (word.now ++ block_type_text ty)) }
{
    out.push_str(word)?;
    put_block_type(out, ty)
}

// A load or a store.
fn put_access(out: &mut String, op: u8, align: u32, offset: u32) -> Result<(), AllocError>
    requires { align < 32 }
    ensures { OnOk result (string_bytes out.new ≡ string_bytes out.old ++ access_text op align offset) }
{
    let bytes = 1u64 << align;
    out.push_str(opcode_word(op))?;
    write!(out, " offset={offset} align={bytes}")?;
    Ok(())
}

// A number below 2^32 as a signed one.
fn signed_32(n: u32) -> i64
    ensures { result ≡ signed 32 n }
{
    if n < 0x8000_0000 {
        i64::from(n)
    } else {
        i64::from(n) - 0x1_0000_0000
    }
}

// A number below 2^64 as a signed one.
fn signed_64(n: u64) -> i64
    ensures { result ≡ signed 64 n }
{
    n.cast_signed()
}

fn put_constant_32(out: &mut String, n: u32) -> Result<(), AllocError>
    ensures { OnOk result (string_bytes out.new ≡ string_bytes out.old ++ head_text (Instr.Const32 n)) }
{
    let value = signed_32(n);
    write!(out, "i32.const {value}")?;
    Ok(())
}

fn put_constant_64(out: &mut String, n: u64) -> Result<(), AllocError>
    ensures { OnOk result (string_bytes out.new ≡ string_bytes out.old ++ head_text (Instr.Const64 n)) }
{
    let value = signed_64(n);
    write!(out, "i64.const {value}")?;
    Ok(())
}

// The instruction; of one that holds sequences, what stands before them.
pub(crate) fn put_head(out: &mut String, instr: &Instr) -> Result<(), AllocError>
    requires { InstrHasShape instr.now }
    ensures { OnOk result (string_bytes out.new ≡ string_bytes out.old ++ head_text instr.now) }
{
    match instr {
        Instr::Unreachable => out.push_str("unreachable"),
        Instr::Nop => out.push_str("nop"),
        Instr::Block { ty, .. } => put_block(out, "block", *ty),
        Instr::Loop { ty, .. } => put_block(out, "loop", *ty),
        Instr::If { ty, .. } => put_block(out, "if", *ty),
        Instr::Br(x) => put_indexed(out, "br", *x),
        Instr::BrIf(x) => put_indexed(out, "br_if", *x),
        Instr::BrTable { labels, last } => put_branch_table(out, labels, *last),
        Instr::Return => out.push_str("return"),
        Instr::Call(x) => put_indexed(out, "call", *x),
        Instr::CallIndirect { ty, table } => put_call_indirect(out, *ty, *table),
        Instr::RefNull(kind) => put_ref_null(out, *kind),
        Instr::RefIsNull => out.push_str("ref.is_null"),
        Instr::RefFunc(x) => put_indexed(out, "ref.func", *x),
        Instr::Discard => out.push_str("drop"),
        Instr::Select => out.push_str("select"),
        Instr::SelectTyped(kinds) => put_select(out, kinds),
        Instr::LocalGet(x) => put_indexed(out, "local.get", *x),
        Instr::LocalSet(x) => put_indexed(out, "local.set", *x),
        Instr::LocalTee(x) => put_indexed(out, "local.tee", *x),
        Instr::GlobalGet(x) => put_indexed(out, "global.get", *x),
        Instr::GlobalSet(x) => put_indexed(out, "global.set", *x),
        Instr::TableGet(x) => put_indexed(out, "table.get", *x),
        Instr::TableSet(x) => put_indexed(out, "table.set", *x),
        Instr::TableInit { elem, table } => put_indexed_twice(out, "table.init", *table, *elem),
        Instr::ElemDrop(x) => put_indexed(out, "elem.drop", *x),
        Instr::TableCopy { to, from } => put_indexed_twice(out, "table.copy", *to, *from),
        Instr::TableGrow(x) => put_indexed(out, "table.grow", *x),
        Instr::TableSize(x) => put_indexed(out, "table.size", *x),
        Instr::TableFill(x) => put_indexed(out, "table.fill", *x),
        Instr::Load { op, align, offset } => put_access(out, *op, *align, *offset),
        Instr::Store { op, align, offset } => put_access(out, *op, *align, *offset),
        Instr::MemorySize => out.push_str("memory.size"),
        Instr::MemoryGrow => out.push_str("memory.grow"),
        Instr::MemoryInit(x) => put_indexed(out, "memory.init", *x),
        Instr::DataDrop(x) => put_indexed(out, "data.drop", *x),
        Instr::MemoryCopy => out.push_str("memory.copy"),
        Instr::MemoryFill => out.push_str("memory.fill"),
        Instr::Const32(n) => put_constant_32(out, *n),
        Instr::Const64(n) => put_constant_64(out, *n),
        Instr::Num(op) => out.push_str(opcode_word(*op)),
    }
}
