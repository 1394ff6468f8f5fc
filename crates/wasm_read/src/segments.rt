// Element and data segments (Binary Format, Modules: Element Section, Data Section).
ghost use Rattle.std.specs.Prelude.{◌≤◌, length, IfOk};
ghost use Rattle.grammar_forms.specs.Forms.{when◌form◌else◌};
ghost use Rattle.wasm_binary.specs.Values.{vec};
ghost use Rattle.wasm_binary.specs.SectionEntries.{constant, flag_below, active_on, active, elem_mode, elem_kind, elem_kind_byte, func_item, elem as elem_form, data_mode, segment as segment_form};
ghost use Rattle.wasm_read.specs.Views.{Agrees};

use crate::bad::ReadBad;
use crate::entries::Entry;
use crate::entries_by::{EntryBy, read_vec_by};
use crate::expressions::read_expr;
use crate::names::read_byte_vec;
use crate::numbers::{read_tag, read_u32};
use crate::types::read_ref_type;
use crate::views::View;
use std::alloc::Global;
use wasm_ast::{Elem, Expr, Instr, List, Mode, Segment, ValType};

// A flag below a bound.
fn read_flag(view: &View, at: usize, bound: u32) -> Result<(u32, usize), ReadBad>
    requires { at ≤ length view.now.bytes }
    ensures agrees { Agrees ((flag_below bound).read view.now at) result }
    ensures within { IfOk result (λ x. x.1 ≤ length view.now.bytes) }
{
    let (flag, next) = read_u32(view, at)?;
    if flag < bound {
        Ok((flag, next))
    } else {
        Err(ReadBad::Byte { at: at as u64 })
    }
}

// The offset of a segment that is active on the table or memory of this index.
fn read_active_on(
    alloc: Global,
    view: &View,
    at: usize,
    index: u32,
) -> Result<(Mode, usize), ReadBad>
    requires { at ≤ length view.now.bytes }
    ensures agrees { Agrees ((active_on index).read view.now at) result }
    ensures within { IfOk result (λ x. x.1 ≤ length view.now.bytes) }
{
    let (offset, at) = read_expr(alloc, view, at, true)?;
    Ok((Mode::Active { index, offset }, at))
}

// The index of a table or memory and the offset there.
fn read_active(alloc: Global, view: &View, at: usize) -> Result<(Mode, usize), ReadBad>
    requires { at ≤ length view.now.bytes }
    ensures agrees { Agrees (active.read view.now at) result }
    ensures within { IfOk result (λ x. x.1 ≤ length view.now.bytes) }
{
    let (index, at) = read_u32(view, at)?;
    read_active_on(alloc, view, at, index)
}

// When an element segment is used, by its flag.
fn read_elem_mode(
    alloc: Global,
    view: &View,
    at: usize,
    flag: u32,
) -> Result<(Mode, usize), ReadBad>
    requires { at ≤ length view.now.bytes }
    ensures agrees { Agrees ((elem_mode flag).read view.now at) result }
    ensures within { IfOk result (λ x. x.1 ≤ length view.now.bytes) }
{
    match flag {
        0 | 4 => read_active_on(alloc, view, at, 0),
        2 | 6 => read_active(alloc, view, at),
        1 | 5 => Ok((Mode::Passive, at)),
        _ => Ok((Mode::Declared, at)),
    }
}

// The byte that says that an element segment has function references.
fn read_elem_kind_byte(view: &View, at: usize) -> Result<(ValType, usize), ReadBad>
    requires { at ≤ length view.now.bytes }
    ensures agrees { Agrees (elem_kind_byte.read view.now at) result }
    ensures within { IfOk result (λ x. x.1 ≤ length view.now.bytes) }
{
    let (_, at) = read_tag(view, at, 0x00)?;
    Ok((ValType::FuncRef, at))
}

// The type of an element segment's references, by its flag.
fn read_elem_kind(view: &View, at: usize, flag: u32) -> Result<(ValType, usize), ReadBad>
    requires { at ≤ length view.now.bytes }
    ensures agrees { Agrees ((elem_kind flag).read view.now at) result }
    ensures within { IfOk result (λ x. x.1 ≤ length view.now.bytes) }
{
    match flag {
        0 | 4 => Ok((ValType::FuncRef, at)),
        1..=3 => read_elem_kind_byte(view, at),
        _ => read_ref_type(view, at),
    }
}

// The index of a function, which stands for the expression that refers to it.
fn read_func_item(alloc: Global, view: &View, at: usize) -> Result<(Expr, usize), ReadBad>
    requires { at ≤ length view.now.bytes }
    ensures agrees { Agrees (func_item.read view.now at) result }
    ensures within { IfOk result (λ x. x.1 ≤ length view.now.bytes) }
{
    let (func, at) = read_u32(view, at)?;
    let instrs = List::new(vec![in alloc; Instr::RefFunc(func)]?);
    let seqs = List::new(vec![in alloc; instrs]?);
    Ok((Expr { seqs }, at))
}

// Of an element segment: a function's index, or an expression.
impl EntryBy for Expr {
    ghost use Rattle.grammar_forms.specs.Forms.{when◌form◌else◌};
    ghost use Rattle.wasm_binary.specs.SectionEntries.{constant, func_item};

    ghost form = { λ by_index. when by_index form func_item else constant };

    fn read_by(
        alloc: Global,
        view: &View,
        at: usize,
        by_index: bool,
    ) -> Result<(Expr, usize), ReadBad> {
        if by_index {
            read_func_item(alloc, view, at)
        } else {
            read_expr(alloc, view, at, true)
        }
    }
}

/// An element segment.
pub(crate) fn read_elem(alloc: Global, view: &View, at: usize) -> Result<(Elem, usize), ReadBad>
    requires { at ≤ length view.now.bytes }
    ensures agrees { Agrees (elem_form.read view.now at) result }
    ensures within { IfOk result (λ x. x.1 ≤ length view.now.bytes) }
{
    let (flag, at) = read_flag(view, at, 8)?;
    let (mode, at) = read_elem_mode(alloc, view, at, flag)?;
    let (kind, at) = read_elem_kind(view, at, flag)?;
    let (items, at) = read_vec_by(alloc, view, at, flag < 4)?;
    let items = List::new(items);
    Ok((Elem { kind, items, mode }, at))
}

// When a data segment is used, by its flag.
fn read_data_mode(
    alloc: Global,
    view: &View,
    at: usize,
    flag: u32,
) -> Result<(Mode, usize), ReadBad>
    requires { at ≤ length view.now.bytes }
    ensures agrees { Agrees ((data_mode flag).read view.now at) result }
    ensures within { IfOk result (λ x. x.1 ≤ length view.now.bytes) }
{
    match flag {
        0 => read_active_on(alloc, view, at, 0),
        1 => Ok((Mode::Passive, at)),
        _ => read_active(alloc, view, at),
    }
}

/// A data segment.
pub(crate) fn read_segment(
    alloc: Global,
    view: &View,
    at: usize,
) -> Result<(Segment, usize), ReadBad>
    requires { at ≤ length view.now.bytes }
    ensures agrees { Agrees (segment_form.read view.now at) result }
    ensures within { IfOk result (λ x. x.1 ≤ length view.now.bytes) }
{
    let (flag, at) = read_flag(view, at, 3)?;
    let (mode, at) = read_data_mode(alloc, view, at, flag)?;
    let (bytes, at) = read_byte_vec(alloc, view, at)?;
    Ok((Segment { bytes, mode }, at))
}

impl Entry for Elem {
    ghost use Rattle.wasm_binary.specs.SectionEntries.{elem};

    ghost form = { elem };

    fn read(alloc: Global, view: &View, at: usize) -> Result<(Elem, usize), ReadBad> {
        read_elem(alloc, view, at)
    }
}

impl Entry for Segment {
    ghost use Rattle.wasm_binary.specs.SectionEntries.{segment};

    ghost form = { segment };

    fn read(alloc: Global, view: &View, at: usize) -> Result<(Segment, usize), ReadBad> {
        read_segment(alloc, view, at)
    }
}
