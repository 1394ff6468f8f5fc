// Types (Text Format, Types).
ghost use Rattle.std.specs.Prelude.{◌≡◌, ◌++◌, OnOk, string_bytes, flat_map};
ghost use Rattle.wasm_text.specs.PrintedTypes.{type_word as word_of_type, next_type, part_text, func_type_text, max_text, limits_text, table_type_text, global_type_text, block_type_text, copies, group_text, locals_text};

use std::alloc::AllocError;
use wasm_ast::{BlockType, FuncType, GlobalType, Group, Limits, List, TableType, ValType};

pub(crate) fn type_word(kind: ValType) -> &'static str
    ensures { result.now ≡ word_of_type kind }
{
    match kind {
        ValType::I32 => "i32",
        ValType::I64 => "i64",
        ValType::FuncRef => "funcref",
        ValType::ExternRef => "externref",
    }
}

// Puts a type after a space.
fn put_next_type(out: &mut String, kind: ValType) -> Result<(), AllocError>
    ensures { OnOk result (string_bytes out.new ≡ string_bytes out.old ++ next_type kind) }
{
    out.push_str(" ")?;
    out.push_str(type_word(kind))
}

// Puts types at the end, each after a space.
pub(crate) fn put_next_types(out: &mut String, kinds: &[ValType]) -> Result<(), AllocError>
    ensures { OnOk result (string_bytes out.new ≡ string_bytes out.old ++ flat_map next_type kinds.now) }
{
    for kind in kinds {
        put_next_type(out, *kind)?;
    }
    Ok(())
}

// Puts the params or results of a function type after a space, where there are any.
fn put_part(out: &mut String, word: &str, kinds: &List<ValType>) -> Result<(), AllocError>
    ensures { OnOk result (string_bytes out.new ≡ string_bytes out.old ++ part_text word.now kinds.now) }
{
    if kinds.is_empty() {
        return Ok(());
    }
    out.push_str(" (")?;
    out.push_str(word)?;
    put_next_types(out, kinds.as_slice())?;
    out.push_str(")")
}

pub(crate) fn put_func_type(out: &mut String, ty: &FuncType) -> Result<(), AllocError>
    ensures { OnOk result (string_bytes out.new ≡ string_bytes out.old ++ func_type_text ty.now) }
{
    out.push_str("(func")?;
    put_part(out, "param", &ty.params)?;
    put_part(out, "result", &ty.results)?;
    out.push_str(")")
}

fn put_max(out: &mut String, max: Option<u32>) -> Result<(), AllocError>
    ensures { OnOk result (string_bytes out.new ≡ string_bytes out.old ++ max_text max) }
{
    match max {
        None => Ok(()),
        Some(max) => {
            write!(out, " {max}")?;
            Ok(())
        }
    }
}

pub(crate) fn put_limits(out: &mut String, limits: &Limits) -> Result<(), AllocError>
    ensures { OnOk result (string_bytes out.new ≡ string_bytes out.old ++ limits_text limits.now) }
{
    let min = limits.min;
    write!(out, "{min}")?;
    put_max(out, limits.max)
}

pub(crate) fn put_table_type(out: &mut String, ty: &TableType) -> Result<(), AllocError>
    ensures { OnOk result (string_bytes out.new ≡ string_bytes out.old ++ table_type_text ty.now) }
{
    put_limits(out, &ty.limits)?;
    out.push_str(" ")?;
    out.push_str(type_word(ty.kind))
}

pub(crate) fn put_global_type(out: &mut String, ty: &GlobalType) -> Result<(), AllocError>
    ensures { OnOk result (string_bytes out.new ≡ string_bytes out.old ++ global_type_text ty.now) }
{
    if ty.mutable {
        out.push_str("(mut ")?;
        out.push_str(type_word(ty.kind))?;
        out.push_str(")")
    } else {
        out.push_str(type_word(ty.kind))
    }
}

// Puts what a block takes and gives at the end.
pub(crate) fn put_block_type(out: &mut String, ty: BlockType) -> Result<(), AllocError>
    ensures { OnOk result (string_bytes out.new ≡ string_bytes out.old ++ block_type_text ty) }
{
    match ty {
        BlockType::Empty => Ok(()),
        BlockType::One(kind) => {
            out.push_str(" (result ")?;
            out.push_str(type_word(kind))?;
            out.push_str(")")
        }
        BlockType::Index(index) => {
            write!(out, " (type {index})")?;
            Ok(())
        }
    }
}

// Puts a type so many times at the end, each after a space.
fn put_copies(out: &mut String, count: u32, kind: ValType) -> Result<(), AllocError>
    ensures { OnOk result (string_bytes out.new ≡ string_bytes out.old ++ copies count (next_type kind)) }
{
    for n in 0..count {
        put_next_type(out, kind)?;
    }
    Ok(())
}

fn put_groups(out: &mut String, groups: &[Group]) -> Result<(), AllocError>
    ensures { OnOk result (string_bytes out.new ≡ string_bytes out.old ++ flat_map group_text groups.now) }
{
    for group in groups {
        put_copies(out, group.count, group.kind)?;
    }
    Ok(())
}

// Puts the locals of a function at the end, where it has any.
pub(crate) fn put_locals(out: &mut String, groups: &List<Group>) -> Result<(), AllocError>
    ensures { OnOk result (string_bytes out.new ≡ string_bytes out.old ++ locals_text groups.now) }
{
    if groups.is_empty() {
        return Ok(());
    }
    out.push_str(" (local")?;
    put_groups(out, groups.as_slice())?;
    out.push_str(")")
}
