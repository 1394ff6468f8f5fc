// Instructions and expressions as a row shows them.
use std::alloc::AllocError;
use std::fmt::Write;
use wasm_ast::{BlockType, Expr, Instr, ValType};

/// The word of a value type.
pub fn kind_word(kind: ValType) -> &'static str {
    match kind {
        ValType::I32 => "i32",
        ValType::I64 => "i64",
        ValType::FuncRef => "funcref",
        ValType::ExternRef => "externref",
    }
}

/// Appends a space and the word of each type.
pub fn put_kinds(out: &mut String, kinds: &[ValType]) -> Result<(), AllocError> {
    for kind in kinds {
        out.push(' ')?;
        out.push_str(kind_word(*kind))?;
    }
    Ok(())
}

// A name and the numbers after it.
fn put(out: &mut String, name: &str, numbers: &[u32]) -> Result<(), AllocError> {
    out.push_str(name)?;
    for number in numbers {
        write!(out, " {number}")?;
    }
    Ok(())
}

fn put_block(out: &mut String, name: &str, ty: BlockType, seqs: &[u32]) -> Result<(), AllocError> {
    out.push_str(name)?;
    match ty {
        BlockType::Empty => out.push_str(" _")?,
        BlockType::One(kind) => put_kinds(out, [kind].as_slice())?,
        BlockType::Index(index) => write!(out, " type {index}")?,
    }
    put(out, "", seqs)
}

fn put_access(
    out: &mut String,
    name: &str,
    op: u8,
    align: u32,
    offset: u32,
) -> Result<(), AllocError> {
    write!(out, "{name} {op:02x}")?;
    put(out, "", [align, offset].as_slice())
}

/// Appends the instruction.
fn put_instr(out: &mut String, instr: &Instr) -> Result<(), AllocError> {
    match instr {
        Instr::Unreachable => put(out, "unreachable", &[]),
        Instr::Nop => put(out, "nop", &[]),
        Instr::Block { ty, body } => put_block(out, "block", *ty, &[*body]),
        Instr::Loop { ty, body } => put_block(out, "loop", *ty, &[*body]),
        Instr::If { ty, then, other } => put_block(out, "if", *ty, &[*then, *other]),
        Instr::Br(x) => put(out, "br", &[*x]),
        Instr::BrIf(x) => put(out, "br_if", &[*x]),
        Instr::BrTable { labels, last } => {
            put(out, "br_table", labels.as_slice())?;
            put(out, "", &[*last])
        }
        Instr::Return => put(out, "return", &[]),
        Instr::Call(x) => put(out, "call", &[*x]),
        Instr::CallIndirect { ty, table } => put(out, "call_indirect", &[*ty, *table]),
        Instr::RefNull(kind) => {
            put(out, "ref.null", &[])?;
            put_kinds(out, [*kind].as_slice())
        }
        Instr::RefIsNull => put(out, "ref.is_null", &[]),
        Instr::RefFunc(x) => put(out, "ref.func", &[*x]),
        Instr::Discard => put(out, "drop", &[]),
        Instr::Select => put(out, "select", &[]),
        Instr::SelectTyped(kinds) => {
            put(out, "select", &[])?;
            put_kinds(out, kinds.as_slice())
        }
        _ => put_variable(out, instr),
    }
}

// Instructions on variables and tables.
fn put_variable(out: &mut String, instr: &Instr) -> Result<(), AllocError> {
    match instr {
        Instr::LocalGet(x) => put(out, "local.get", &[*x]),
        Instr::LocalSet(x) => put(out, "local.set", &[*x]),
        Instr::LocalTee(x) => put(out, "local.tee", &[*x]),
        Instr::GlobalGet(x) => put(out, "global.get", &[*x]),
        Instr::GlobalSet(x) => put(out, "global.set", &[*x]),
        Instr::TableGet(x) => put(out, "table.get", &[*x]),
        Instr::TableSet(x) => put(out, "table.set", &[*x]),
        Instr::TableInit { elem, table } => put(out, "table.init", &[*elem, *table]),
        Instr::ElemDrop(x) => put(out, "elem.drop", &[*x]),
        Instr::TableCopy { to, from } => put(out, "table.copy", &[*to, *from]),
        Instr::TableGrow(x) => put(out, "table.grow", &[*x]),
        Instr::TableSize(x) => put(out, "table.size", &[*x]),
        Instr::TableFill(x) => put(out, "table.fill", &[*x]),
        _ => put_memory(out, instr),
    }
}

// Instructions on memories, constants and operators.
fn put_memory(out: &mut String, instr: &Instr) -> Result<(), AllocError> {
    match instr {
        Instr::Load { op, align, offset } => put_access(out, "load", *op, *align, *offset),
        Instr::Store { op, align, offset } => put_access(out, "store", *op, *align, *offset),
        Instr::MemorySize => put(out, "memory.size", &[]),
        Instr::MemoryGrow => put(out, "memory.grow", &[]),
        Instr::MemoryInit(x) => put(out, "memory.init", &[*x]),
        Instr::DataDrop(x) => put(out, "data.drop", &[*x]),
        Instr::MemoryCopy => put(out, "memory.copy", &[]),
        Instr::MemoryFill => put(out, "memory.fill", &[]),
        Instr::Const32(n) => put(out, "i32.const", &[*n]),
        Instr::Const64(n) => {
            let n = *n;
            write!(out, "i64.const {n}")
        }
        Instr::Num(op) => {
            let op = *op;
            write!(out, "op {op:02x}")
        }
        _ => Ok(()),
    }
}

/// Appends the sequences of the expression, each in brackets.
pub fn put_expr(out: &mut String, expr: &Expr) -> Result<(), AllocError> {
    for seq in expr.seqs.as_slice() {
        let mut between = "";
        out.push_str(" [")?;
        for instr in seq.as_slice() {
            out.push_str(between)?;
            between = ", ";
            put_instr(out, instr)?;
        }
        out.push(']')?;
    }
    Ok(())
}
