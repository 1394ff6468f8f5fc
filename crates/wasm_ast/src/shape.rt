// Whether a module has its shape.
ghost use Rattle.std.specs.Prelude.{◌↔◌, IsTrue, IfOk, ◌≢◌, ◌<◌, ◌≤◌, ◌^◌, length, sum_by, All};
ghost use Rattle.std.specs.List.{AllAdjacentBelow};
ghost use Rattle.std.specs.List.Sorted.{IsNonDecreasingBy};
ghost use Rattle.wasm_ast.specs.Shape.{IsShort, IsReference, FuncTypeHasShape, InstrHasShape, SeqHasShape, ExprHasShape, KindHasShape, ImportHasShape, LocalsHaveShape, FuncHasShape, ModeHasShape, ElemHasShape, SegmentHasShape, CustomHasShape, CustomsHaveShape, ListsAreShort, HasShape};

use crate::instructions::{Expr, Instr};
use crate::lists::List;
use crate::modules::{
    Custom, Elem, Export, Func, GlobalDef, Group, Import, ImportKind, Mode, Module, Segment,
};
use crate::numbering::is_numbered;
use crate::opcodes::{is_load, is_numeric, is_store};
use crate::sections::is_written;
use crate::types::{FuncType, TableType};
use std::alloc::{AllocError, Global};

// Whether so many entries can be counted by a `u32`.
fn is_short(entries: usize) -> bool
    ensures { IsTrue result ↔ (entries < 2 ^ 32) }
{
    entries < 0x1_0000_0000
}

fn type_has_shape(ty: &FuncType) -> bool
    ensures { IsTrue result ↔ FuncTypeHasShape ty.now }
{
    is_short(ty.params.len()) && is_short(ty.results.len())
}

fn types_have_shape(types: &[FuncType]) -> bool
    ensures { IsTrue result ↔ All FuncTypeHasShape types.now }
{
    types.iter().all(|ty| type_has_shape(ty))
}

fn instr_has_shape(instr: &Instr) -> bool
    ensures { IsTrue result ↔ InstrHasShape instr.now }
{
    match instr {
        Instr::BrTable { labels, .. } => is_short(labels.len()),
        Instr::RefNull(kind) => kind.is_reference(),
        Instr::SelectTyped(kinds) => is_short(kinds.len()),
        Instr::Load { op, align, .. } => is_load(*op) && *align < 32,
        Instr::Store { op, align, .. } => is_store(*op) && *align < 32,
        Instr::Num(op) => is_numeric(*op),
        _ => true,
    }
}

fn seq_has_shape(instrs: &List<Instr>) -> bool
    ensures { IsTrue result ↔ SeqHasShape instrs.now }
{
    is_short(instrs.len()) && instrs.as_slice().iter().all(|instr| instr_has_shape(instr))
}

fn seqs_have_shape(seqs: &[List<Instr>]) -> bool
    ensures { IsTrue result ↔ All SeqHasShape seqs.now }
{
    seqs.iter().all(|seq| seq_has_shape(seq))
}

fn neighbours_differ(groups: &[Group]) -> bool
    ensures { IsTrue result ↔ AllAdjacentBelow (λ g h. g.kind ≢ h.kind) groups.now (length groups.now) }
{
    for i in 1..groups.len() {
        if groups[i - 1].kind == groups[i].kind {
            return false;
        }
    }
    true
}

fn are_few(groups: &[Group]) -> bool
    ensures { IsTrue result ↔ (sum_by (λ g. g.count) groups.now ≤ 50000) }
{
    let mut left = 50_000;
    for group in groups {
        if group.count > left {
            return false;
        }
        left -= group.count;
    }
    true
}

fn locals_have_shape(groups: &List<Group>) -> bool
    ensures { IsTrue result ↔ LocalsHaveShape groups.now }
{
    is_short(groups.len())
        && groups.as_slice().iter().all(|group| group.count > 0)
        && neighbours_differ(groups.as_slice())
        && are_few(groups.as_slice())
}

fn expr_has_shape(alloc: Global, expr: &Expr) -> Result<bool, AllocError>
    ensures { IfOk result (λ holds. IsTrue holds ↔ ExprHasShape expr.now) }
{
    if !is_short(expr.seqs.len()) || !seqs_have_shape(expr.seqs.as_slice()) {
        return Ok(false);
    }
    is_numbered(alloc, &expr.seqs)
}

fn exprs_have_shape(alloc: Global, exprs: &[Expr]) -> Result<bool, AllocError>
    ensures { IfOk result (λ holds. IsTrue holds ↔ All ExprHasShape exprs.now) }
{
    for expr in exprs {
        if !expr_has_shape(alloc, expr)? {
            return Ok(false);
        }
    }
    Ok(true)
}

fn func_has_shape(alloc: Global, func: &Func) -> Result<bool, AllocError>
    ensures { IfOk result (λ holds. IsTrue holds ↔ FuncHasShape func.now) }
{
    if !locals_have_shape(&func.locals) {
        return Ok(false);
    }
    expr_has_shape(alloc, &func.body)
}

fn funcs_have_shape(alloc: Global, funcs: &[Func]) -> Result<bool, AllocError>
    ensures { IfOk result (λ holds. IsTrue holds ↔ All FuncHasShape funcs.now) }
{
    for func in funcs {
        if !func_has_shape(alloc, func)? {
            return Ok(false);
        }
    }
    Ok(true)
}

fn globals_have_shape(alloc: Global, globals: &[GlobalDef]) -> Result<bool, AllocError>
    ensures { IfOk result (λ holds. IsTrue holds ↔ All (λ g. ExprHasShape g.init) globals.now) }
{
    for global in globals {
        if !expr_has_shape(alloc, &global.init)? {
            return Ok(false);
        }
    }
    Ok(true)
}

fn mode_has_shape(alloc: Global, mode: &Mode) -> Result<bool, AllocError>
    ensures { IfOk result (λ holds. IsTrue holds ↔ ModeHasShape mode.now) }
{
    match mode {
        Mode::Active { offset, .. } => Ok(expr_has_shape(alloc, offset)?),
        Mode::Passive => Ok(true),
        Mode::Declared => Ok(true),
    }
}

fn elem_has_shape(alloc: Global, elem: &Elem) -> Result<bool, AllocError>
    ensures { IfOk result (λ holds. IsTrue holds ↔ ElemHasShape elem.now) }
{
    if !elem.kind.is_reference() || !is_short(elem.items.len()) {
        return Ok(false);
    }
    if !exprs_have_shape(alloc, elem.items.as_slice())? {
        return Ok(false);
    }
    mode_has_shape(alloc, &elem.mode)
}

fn elems_have_shape(alloc: Global, elems: &[Elem]) -> Result<bool, AllocError>
    ensures { IfOk result (λ holds. IsTrue holds ↔ All ElemHasShape elems.now) }
{
    for elem in elems {
        if !elem_has_shape(alloc, elem)? {
            return Ok(false);
        }
    }
    Ok(true)
}

fn segment_has_shape(alloc: Global, segment: &Segment) -> Result<bool, AllocError>
    ensures { IfOk result (λ holds. IsTrue holds ↔ SegmentHasShape segment.now) }
{
    if !is_short(segment.bytes.len()) || matches!(segment.mode, Mode::Declared) {
        return Ok(false);
    }
    mode_has_shape(alloc, &segment.mode)
}

fn segments_have_shape(alloc: Global, segments: &[Segment]) -> Result<bool, AllocError>
    ensures { IfOk result (λ holds. IsTrue holds ↔ All SegmentHasShape segments.now) }
{
    for segment in segments {
        if !segment_has_shape(alloc, segment)? {
            return Ok(false);
        }
    }
    Ok(true)
}

fn kind_has_shape(kind: &ImportKind) -> bool
    ensures { IsTrue result ↔ KindHasShape kind.now }
{
    match kind {
        ImportKind::Table(ty) => ty.kind.is_reference(),
        _ => true,
    }
}

fn import_has_shape(import: &Import) -> bool
    ensures { IsTrue result ↔ ImportHasShape import.now }
{
    is_short(import.module.len()) && is_short(import.name.len()) && kind_has_shape(&import.kind)
}

fn imports_have_shape(imports: &[Import]) -> bool
    ensures { IsTrue result ↔ All ImportHasShape imports.now }
{
    imports.iter().all(|import| import_has_shape(import))
}

fn exports_have_shape(exports: &[Export]) -> bool
    ensures { IsTrue result ↔ All (λ e. IsShort e.name) exports.now }
{
    exports.iter().all(|export| is_short(export.name.len()))
}

fn tables_have_shape(tables: &[TableType]) -> bool
    ensures { IsTrue result ↔ All (λ t. IsReference t.kind) tables.now }
{
    tables.iter().all(|table| table.kind.is_reference())
}

fn custom_has_shape(m: &Module, custom: &Custom) -> bool
    ensures { IsTrue result ↔ CustomHasShape m.now custom.now }
{
    (custom.after == 0 || is_written(m, custom.after))
        && is_short(custom.name.len())
        && is_short(custom.bytes.len())
}

fn in_order(customs: &[Custom]) -> bool
    ensures { IsTrue result ↔ IsNonDecreasingBy (λ c. c.after) customs.now }
{
    for i in 1..customs.len() {
        if customs[i].after < customs[i - 1].after {
            return false;
        }
    }
    true
}

fn each_has_shape(m: &Module, customs: &[Custom]) -> bool
    ensures { IsTrue result ↔ All (CustomHasShape m.now) customs.now }
{
    customs.iter().all(|custom| custom_has_shape(m, custom))
}

fn customs_have_shape(m: &Module) -> bool
    ensures { IsTrue result ↔ CustomsHaveShape m.now }
{
    each_has_shape(m, m.customs.as_slice()) && in_order(m.customs.as_slice())
}

fn lists_are_short(m: &Module) -> bool
    ensures { IsTrue result ↔ ListsAreShort m.now }
{
    is_short(m.types.len())
        && is_short(m.imports.len())
        && is_short(m.funcs.len())
        && is_short(m.tables.len())
        && is_short(m.memories.len())
        && is_short(m.globals.len())
        && is_short(m.exports.len())
        && is_short(m.elems.len())
        && is_short(m.segments.len())
        && is_short(m.customs.len())
}

/// Whether the module is well-formed. Of memory it takes a number for each sequence of one expression at a time.
pub fn has_shape(alloc: Global, m: &Module) -> Result<bool, AllocError>
    ensures { IfOk result (λ holds. IsTrue holds ↔ HasShape m.now) }
{
    if !lists_are_short(m)
        || !types_have_shape(m.types.as_slice())
        || !imports_have_shape(m.imports.as_slice())
        || !tables_have_shape(m.tables.as_slice())
        || !exports_have_shape(m.exports.as_slice())
        || !customs_have_shape(m)
    {
        return Ok(false);
    }
    if !funcs_have_shape(alloc, m.funcs.as_slice())? {
        return Ok(false);
    }
    if !globals_have_shape(alloc, m.globals.as_slice())? {
        return Ok(false);
    }
    if !elems_have_shape(alloc, m.elems.as_slice())? {
        return Ok(false);
    }
    Ok(segments_have_shape(alloc, m.segments.as_slice())?)
}
