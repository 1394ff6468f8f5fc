// The entries of a module's sections (Binary Format, Modules).
ghost use Rattle.std.specs.Prelude.{◌≡◌, ◌++◌, ◌≤◌, OnOk, is_some};
ghost use Rattle.std.specs.List.{list_all};
ghost use Rattle.wasm_ast.specs.Shape.{ModeHasShape};
ghost use Rattle.wasm_write.specs.Values.{vec_bytes};
ghost use Rattle.wasm_write.specs.SectionEntries.{import_kind_bytes, space_byte as byte_of_space, func_of as func_of_expr, is_func_ref as is_func_ref_kind, has_indices as has_indices_of, index_bytes, func_item_bytes, elem_front, segment_front};

use crate::expressions::put_expr;
use crate::types::type_byte;
use crate::values::{Put, put_count, put_sized, put_vec};
use owi_base::leb::unsigned::put_u;
use std::alloc::{AllocError, Global};
use wasm_ast::{
    Elem, Export, Expr, Func, GlobalDef, Group, Import, ImportKind, Instr, List, Mode, Segment,
    Space, ValType,
};

impl Put for Expr {
    ghost use Rattle.wasm_ast.specs.Shape.{ExprHasShape};
    ghost use Rattle.wasm_write.specs.Instructions.{expr_bytes};

    ghost Shape = { ExprHasShape };

    ghost bytes_of = { expr_bytes };

    fn put(&self, alloc: Global, out: &mut Vec<u8>) -> Result<(), AllocError> {
        put_expr(alloc, out, self)
    }
}

fn put_import_kind(alloc: Global, out: &mut Vec<u8>, kind: &ImportKind) -> Result<(), AllocError>
    ensures { OnOk result (out.new.items ≡ out.old.items ++ import_kind_bytes kind.now) }
{
    match kind {
        ImportKind::Func(ty) => {
            out.push(0x00)?;
            put_u(out, u64::from(*ty))
        }
        ImportKind::Table(ty) => {
            out.push(0x01)?;
            ty.put(alloc, out)
        }
        ImportKind::Memory(ty) => {
            out.push(0x02)?;
            ty.put(alloc, out)
        }
        ImportKind::Global(ty) => {
            out.push(0x03)?;
            ty.put(alloc, out)
        }
    }
}

impl Put for Import {
    ghost use Rattle.wasm_write.specs.SectionEntries.{import_bytes};

    ghost Shape = { λ i. Unit {0} };

    ghost bytes_of = { import_bytes };

    fn put(&self, alloc: Global, out: &mut Vec<u8>) -> Result<(), AllocError> {
        put_sized(out, self.module.as_slice().as_bytes())?;
        put_sized(out, self.name.as_slice().as_bytes())?;
        put_import_kind(alloc, out, &self.kind)
    }
}

impl Put for GlobalDef {
    ghost use Rattle.wasm_ast.specs.Shape.{ExprHasShape};
    ghost use Rattle.wasm_write.specs.SectionEntries.{global_bytes};

    ghost Shape = { λ g. ExprHasShape g.init };

    ghost bytes_of = { global_bytes };

    fn put(&self, alloc: Global, out: &mut Vec<u8>) -> Result<(), AllocError> {
        self.ty.put(alloc, out)?;
        put_expr(alloc, out, &self.init)
    }
}

fn space_byte(space: Space) -> u8
    ensures { result ≡ byte_of_space space }
{
    match space {
        Space::Func => 0x00,
        Space::Table => 0x01,
        Space::Memory => 0x02,
        Space::Global => 0x03,
    }
}

impl Put for Export {
    ghost use Rattle.wasm_write.specs.SectionEntries.{export_bytes};

    ghost Shape = { λ e. Unit {0} };

    ghost bytes_of = { export_bytes };

    fn put(&self, _alloc: Global, out: &mut Vec<u8>) -> Result<(), AllocError> {
        put_sized(out, self.name.as_slice().as_bytes())?;
        out.push(space_byte(self.space))?;
        put_u(out, u64::from(self.index))
    }
}

// The function of an expression that is a single `ref.func`.
fn func_of(item: &Expr) -> Option<u32>
    ensures { result ≡ func_of_expr item.now }
{
    match item.seqs.as_slice() {
        [seq] => match seq.as_slice() {
            [Instr::RefFunc(func)] => Some(*func),
            _ => None,
        },
        _ => None,
    }
}

fn is_func_ref(kind: ValType) -> bool
    ensures { result ≡ is_func_ref_kind kind }
{
    matches!(kind, ValType::FuncRef)
}

fn is_single_func(item: &Expr) -> bool
    ensures { result ≡ is_some (func_of_expr item.now) }
{
    func_of(item).is_some()
}

fn are_single_funcs(items: &[Expr]) -> bool
    ensures { result ≡ list_all (λ item. is_some (func_of_expr item)) items.now }
{
    items.iter().all(|item| is_single_func(item))
}

// Whether the segment's items are written as indices of functions.
fn has_indices(elem: &Elem) -> bool
    ensures { result ≡ has_indices_of elem.now }
{
    is_func_ref(elem.kind) && are_single_funcs(elem.items.as_slice())
}

fn put_index(out: &mut Vec<u8>, func: Option<u32>) -> Result<(), AllocError>
    ensures { OnOk result (out.new.items ≡ out.old.items ++ index_bytes func) }
{
    match func {
        Some(func) => put_u(out, u64::from(func)),
        None => Ok(()),
    }
}

fn put_func_items(out: &mut Vec<u8>, list: &List<Expr>) -> Result<(), AllocError>
    ensures { OnOk result (out.new.items ≡ out.old.items ++ vec_bytes func_item_bytes list.now) }
{
    let items = list.as_slice();
    put_count(out, items.len())?;
    for item in items {
        put_index(out, func_of(item))?;
    }
    Ok(())
}

// The flag, the table and offset, and the kind of an element segment; `first` is the first of the four flags.
fn put_elem_front(
    alloc: Global,
    out: &mut Vec<u8>,
    first: u8,
    kind: u8,
    of_funcs: bool,
    mode: &Mode,
) -> Result<(), AllocError>
    requires low { first ≤ 4 }
    requires shape { ModeHasShape mode.now }
    ensures { OnOk result (out.new.items ≡ out.old.items ++ elem_front first kind of_funcs mode.now) }
{
    match mode {
        Mode::Passive => {
            out.push(first + 1)?;
            out.push(kind)?;
            Ok(())
        }
        Mode::Declared => {
            out.push(first + 3)?;
            out.push(kind)?;
            Ok(())
        }
        Mode::Active { index, offset } => {
            if of_funcs && *index == 0 {
                out.push(first)?;
                put_expr(alloc, out, offset)
            } else {
                out.push(first + 2)?;
                put_u(out, u64::from(*index))?;
                put_expr(alloc, out, offset)?;
                out.push(kind)?;
                Ok(())
            }
        }
    }
}

impl Put for Elem {
    ghost use Rattle.wasm_ast.specs.Shape.{ElemHasShape};
    ghost use Rattle.wasm_write.specs.SectionEntries.{elem_bytes};

    ghost Shape = { ElemHasShape };

    ghost bytes_of = { elem_bytes };

    fn put(&self, alloc: Global, out: &mut Vec<u8>) -> Result<(), AllocError> {
        if has_indices(self) {
            put_elem_front(alloc, out, 0, 0x00, true, &self.mode)?;
            put_func_items(out, &self.items)
        } else {
            let of_funcs = is_func_ref(self.kind);
            put_elem_front(alloc, out, 4, type_byte(self.kind), of_funcs, &self.mode)?;
            put_vec(alloc, out, &self.items)
        }
    }
}

fn put_segment_front(alloc: Global, out: &mut Vec<u8>, mode: &Mode) -> Result<(), AllocError>
    requires { ModeHasShape mode.now }
    ensures { OnOk result (out.new.items ≡ out.old.items ++ segment_front mode.now) }
{
    match mode {
        Mode::Passive => {
            out.push(1)?;
            Ok(())
        }
        Mode::Declared => Ok(()),
        Mode::Active { index, offset } => {
            if *index == 0 {
                out.push(0)?;
                put_expr(alloc, out, offset)
            } else {
                out.push(2)?;
                put_u(out, u64::from(*index))?;
                put_expr(alloc, out, offset)
            }
        }
    }
}

impl Put for Segment {
    ghost use Rattle.wasm_ast.specs.Shape.{SegmentHasShape};
    ghost use Rattle.wasm_write.specs.SectionEntries.{segment_bytes};

    ghost Shape = { SegmentHasShape };

    ghost bytes_of = { segment_bytes };

    fn put(&self, alloc: Global, out: &mut Vec<u8>) -> Result<(), AllocError> {
        put_segment_front(alloc, out, &self.mode)?;
        put_sized(out, self.bytes.as_slice())
    }
}

impl Put for Group {
    ghost use Rattle.wasm_write.specs.SectionEntries.{group_bytes};

    ghost Shape = { λ g. Unit {0} };

    ghost bytes_of = { group_bytes };

    fn put(&self, _alloc: Global, out: &mut Vec<u8>) -> Result<(), AllocError> {
        put_u(out, u64::from(self.count))?;
        out.push(type_byte(self.kind))?;
        Ok(())
    }
}

// Its code: a size, and then the locals and the body.
impl Put for Func {
    ghost use Rattle.wasm_ast.specs.Shape.{FuncHasShape};
    ghost use Rattle.wasm_write.specs.SectionEntries.{code_bytes};

    ghost Shape = { FuncHasShape };

    ghost bytes_of = { code_bytes };

    fn put(&self, alloc: Global, out: &mut Vec<u8>) -> Result<(), AllocError> {
        let mut entry = Vec::new(alloc);
        put_vec(alloc, &mut entry, &self.locals)?;
        put_expr(alloc, &mut entry, &self.body)?;
        put_sized(out, entry.as_slice())
    }
}
