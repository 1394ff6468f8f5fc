// What the types of a module's parts, and of the values of a run, say of them: each number fits its type, and each name is
// UTF-8.
//
// Contracts see a module as plain data, whose numbers have no bounds of their own. These functions read a module through, so
// that the bounds are known of it as data too. They do nothing else.
ghost use Rattle.std.specs.Prelude.{◌^◌, ◌<◌, All, IfSome, IsUtf8};
ghost use Rattle.wasm_ast.specs.Ranges.{IsU32, BlockTypeInRange, KindInRange, ModeInRange, IsInRange, ValueInRange};

use crate::instructions::{Expr, Instr};
use crate::lists::List;
use crate::modules::{
    Custom, Elem, Export, Func, GlobalDef, Import, ImportKind, Mode, Module, Segment,
};
use crate::runs::Value;
use crate::types::{BlockType, Limits, TableType};

// A value of which something is known by its type.
trait HasRange {
    ghost Range: { Self → Type 0 };

    fn see(&self)
        ensures { Range self.now };
}

fn see_all<T: HasRange>(items: &[T])
    ensures { All T.Range items.now }
{
    for item in items {
        item.see();
    }
}

fn see_list<T: HasRange>(list: &List<T>)
    ensures { All T.Range list.now }
{
    see_all(list.as_slice());
}

fn see_option(number: &Option<u32>)
    ensures { IfSome number.now IsU32 }
{
    match number {
        Some(n) => n.see(),
        None => {}
    }
}

impl HasRange for u32 {
    ghost use Rattle.wasm_ast.specs.Ranges.{IsU32};

    ghost Range = { IsU32 };

    fn see(&self) {
        let _n = *self;
    }
}

impl HasRange for Limits {
    ghost use Rattle.wasm_ast.specs.Ranges.{LimitsInRange};

    ghost Range = { LimitsInRange };

    fn see(&self) {
        let _min = self.min;
        see_option(&self.max);
    }
}

impl HasRange for TableType {
    ghost use Rattle.wasm_ast.specs.Ranges.{LimitsInRange};

    ghost Range = { λ t. LimitsInRange t.limits };

    fn see(&self) {
        self.limits.see();
    }
}

fn see_block_type(ty: &BlockType)
    ensures { BlockTypeInRange ty.now }
{
    match ty {
        BlockType::Index(index) => index.see(),
        BlockType::Empty => {}
        BlockType::One(_) => {}
    }
}

impl HasRange for Instr {
    ghost use Rattle.wasm_ast.specs.Ranges.{InstrInRange};

    ghost Range = { InstrInRange };

    fn see(&self) {
        match self {
            Instr::Block { ty, .. } => see_block_type(ty),
            Instr::Loop { ty, .. } => see_block_type(ty),
            Instr::If { ty, .. } => see_block_type(ty),
            Instr::Br(x) => x.see(),
            Instr::BrIf(x) => x.see(),
            Instr::BrTable { labels, last } => {
                see_list(labels);
                last.see();
            }
            Instr::Call(x) => x.see(),
            Instr::CallIndirect { ty, table } => {
                ty.see();
                table.see();
            }
            Instr::RefFunc(x) => x.see(),
            Instr::LocalGet(x) => x.see(),
            Instr::LocalSet(x) => x.see(),
            Instr::LocalTee(x) => x.see(),
            Instr::GlobalGet(x) => x.see(),
            Instr::GlobalSet(x) => x.see(),
            Instr::TableGet(x) => x.see(),
            Instr::TableSet(x) => x.see(),
            Instr::TableInit { elem, table } => {
                elem.see();
                table.see();
            }
            Instr::ElemDrop(x) => x.see(),
            Instr::TableCopy { to, from } => {
                to.see();
                from.see();
            }
            Instr::TableGrow(x) => x.see(),
            Instr::TableSize(x) => x.see(),
            Instr::TableFill(x) => x.see(),
            Instr::Load { offset, .. } => offset.see(),
            Instr::Store { offset, .. } => offset.see(),
            Instr::MemoryInit(x) => x.see(),
            Instr::DataDrop(x) => x.see(),
            Instr::Const32(n) => n.see(),
            Instr::Const64(n) => {
                let _n = *n;
            }
            _ => {}
        }
    }
}

impl HasRange for List<Instr> {
    ghost use Rattle.std.specs.Prelude.{All};
    ghost use Rattle.wasm_ast.specs.Ranges.{InstrInRange};

    ghost Range = { λ instrs. All InstrInRange instrs };

    fn see(&self) {
        see_list(self);
    }
}

impl HasRange for Expr {
    ghost use Rattle.wasm_ast.specs.Ranges.{ExprInRange};

    ghost Range = { ExprInRange };

    fn see(&self) {
        see_list(&self.seqs);
    }
}

fn see_kind(kind: &ImportKind)
    ensures { KindInRange kind.now }
{
    match kind {
        ImportKind::Func(ty) => ty.see(),
        ImportKind::Table(ty) => ty.see(),
        ImportKind::Memory(ty) => ty.see(),
        ImportKind::Global(_) => {}
    }
}

fn see_name(name: &str)
    ensures { IsUtf8 name.now }
{}

impl HasRange for Import {
    ghost use Rattle.wasm_ast.specs.Ranges.{ImportInRange};

    ghost Range = { ImportInRange };

    fn see(&self) {
        see_name(self.module.as_slice());
        see_name(self.name.as_slice());
        see_kind(&self.kind);
    }
}

impl HasRange for Func {
    ghost use Rattle.wasm_ast.specs.Ranges.{FuncInRange};

    ghost Range = { FuncInRange };

    fn see(&self) {
        self.ty.see();
        self.body.see();
    }
}

impl HasRange for GlobalDef {
    ghost use Rattle.wasm_ast.specs.Ranges.{ExprInRange};

    ghost Range = { λ g. ExprInRange g.init };

    fn see(&self) {
        self.init.see();
    }
}

impl HasRange for Export {
    ghost use Rattle.wasm_ast.specs.Ranges.{ExportInRange};

    ghost Range = { ExportInRange };

    fn see(&self) {
        see_name(self.name.as_slice());
        self.index.see();
    }
}

fn see_mode(mode: &Mode)
    ensures { ModeInRange mode.now }
{
    match mode {
        Mode::Active { index, offset } => {
            index.see();
            offset.see();
        }
        Mode::Passive => {}
        Mode::Declared => {}
    }
}

impl HasRange for Elem {
    ghost use Rattle.wasm_ast.specs.Ranges.{ElemInRange};

    ghost Range = { ElemInRange };

    fn see(&self) {
        see_list(&self.items);
        see_mode(&self.mode);
    }
}

fn see_bytes(bytes: &[u8])
    ensures { All (λ b. b < 2 ^ 8) bytes.now }
{}

impl HasRange for Segment {
    ghost use Rattle.wasm_ast.specs.Ranges.{SegmentInRange};

    ghost Range = { SegmentInRange };

    fn see(&self) {
        see_bytes(self.bytes.as_slice());
        see_mode(&self.mode);
    }
}

impl HasRange for Custom {
    ghost use Rattle.std.specs.Prelude.{IsUtf8};

    ghost Range = { λ c. IsUtf8 c.name };

    fn see(&self) {
        see_name(self.name.as_slice());
    }
}

impl HasRange for Value {
    ghost use Rattle.wasm_ast.specs.Ranges.{ValueInRange};

    ghost Range = { ValueInRange };

    fn see(&self) {
        match self {
            Value::I32(n) => n.see(),
            Value::I64(n) => {
                let _n = *n;
            }
            _ => {}
        }
    }
}

/// Law: what the types of values say of their numbers holds of them as data.
pub fn are_in_range(values: &[Value])
    ensures { All ValueInRange values.now }
{
    see_all(values);
}

/// Law: what the types of the parts of a module say holds of it as data.
pub fn is_in_range(m: &Module)
    ensures { IsInRange m.now }
{
    see_list(&m.imports);
    see_list(&m.funcs);
    see_list(&m.tables);
    see_list(&m.memories);
    see_list(&m.globals);
    see_list(&m.exports);
    see_option(&m.start);
    see_list(&m.elems);
    see_list(&m.segments);
    see_list(&m.customs);
}
