// Equality that contracts see as the equality of values.
ghost use Rattle.std.specs.Prelude.{◌≡◌, ◌↔◌, IsTrue};

use crate::instructions::{Expr, Instr};
use crate::lists::List;
use crate::modules::{
    Custom, Elem, Export, Func, GlobalDef, Group, Import, ImportKind, Mode, Module, Segment, Space,
};
use crate::runs::{Cause, Draw, Outcome, Ran, Value};
use crate::texts::Text;
use crate::types::{BlockType, FuncType, GlobalType, Limits, TableType, ValType};

/// Values of which it can be told, without memory, whether contracts see them as equal.
///
/// Lists are compared by it item by item, so it serves where `==` doesn't say that two values are equal.
pub trait Same {
    /// Whether the two values are equal.
    fn same(&self, that: &Self) -> bool
        ensures { IsTrue result ↔ (self.now ≡ that.now) };
}

impl Same for u8 {
    fn same(&self, that: &u8) -> bool {
        self == that
    }
}

impl Same for u32 {
    fn same(&self, that: &u32) -> bool {
        self == that
    }
}

impl Same for u64 {
    fn same(&self, that: &u64) -> bool {
        self == that
    }
}

impl Same for bool {
    fn same(&self, that: &bool) -> bool {
        self == that
    }
}

impl Same for ValType {
    fn same(&self, that: &ValType) -> bool {
        self == that
    }
}

impl Same for Value {
    fn same(&self, that: &Value) -> bool {
        self == that
    }
}

impl Same for Cause {
    fn same(&self, that: &Cause) -> bool {
        self == that
    }
}

impl Same for Draw {
    fn same(&self, that: &Draw) -> bool {
        self == that
    }
}

impl Same for Limits {
    fn same(&self, that: &Limits) -> bool {
        self == that
    }
}

impl Same for TableType {
    fn same(&self, that: &TableType) -> bool {
        self == that
    }
}

impl Same for GlobalType {
    fn same(&self, that: &GlobalType) -> bool {
        self == that
    }
}

impl Same for ImportKind {
    fn same(&self, that: &ImportKind) -> bool {
        self == that
    }
}

impl Same for Group {
    fn same(&self, that: &Group) -> bool {
        self == that
    }
}

impl Same for Space {
    fn same(&self, that: &Space) -> bool {
        self == that
    }
}

impl Same for BlockType {
    fn same(&self, that: &BlockType) -> bool {
        self == that
    }
}

// Item by item.
fn slices_same<T: Same>(these: &[T], those: &[T]) -> bool
    ensures { IsTrue result ↔ (these.now ≡ those.now) }
{
    if these.len() != those.len() {
        return false;
    }
    for i in 0..these.len() {
        if !these[i].same(&those[i]) {
            return false;
        }
    }
    true
}

impl<T: Same> Same for List<T> {
    fn same(&self, that: &List<T>) -> bool {
        slices_same(self.as_slice(), that.as_slice())
    }
}

impl Same for Text {
    fn same(&self, that: &Text) -> bool {
        self.as_slice() == that.as_slice()
    }
}

impl Same for Instr {
    fn same(&self, that: &Instr) -> bool {
        match self {
            Instr::Unreachable => matches!(that, Instr::Unreachable),
            Instr::Nop => matches!(that, Instr::Nop),
            Instr::Block { ty, body } => match that {
                Instr::Block {
                    ty: ty_there,
                    body: body_there,
                } => ty == ty_there && body == body_there,
                _ => false,
            },
            Instr::Loop { ty, body } => match that {
                Instr::Loop {
                    ty: ty_there,
                    body: body_there,
                } => ty == ty_there && body == body_there,
                _ => false,
            },
            Instr::If { ty, then, other } => match that {
                Instr::If {
                    ty: ty_there,
                    then: then_there,
                    other: other_there,
                } => ty == ty_there && then == then_there && other == other_there,
                _ => false,
            },
            Instr::Br(x) => match that {
                Instr::Br(y) => x == y,
                _ => false,
            },
            Instr::BrIf(x) => match that {
                Instr::BrIf(y) => x == y,
                _ => false,
            },
            Instr::BrTable { labels, last } => match that {
                Instr::BrTable {
                    labels: labels_there,
                    last: last_there,
                } => labels.same(labels_there) && last == last_there,
                _ => false,
            },
            Instr::Return => matches!(that, Instr::Return),
            Instr::Call(x) => match that {
                Instr::Call(y) => x == y,
                _ => false,
            },
            Instr::CallIndirect { ty, table } => match that {
                Instr::CallIndirect {
                    ty: ty_there,
                    table: table_there,
                } => ty == ty_there && table == table_there,
                _ => false,
            },
            Instr::RefNull(x) => match that {
                Instr::RefNull(y) => x == y,
                _ => false,
            },
            Instr::RefIsNull => matches!(that, Instr::RefIsNull),
            Instr::RefFunc(x) => match that {
                Instr::RefFunc(y) => x == y,
                _ => false,
            },
            Instr::Discard => matches!(that, Instr::Discard),
            Instr::Select => matches!(that, Instr::Select),
            Instr::SelectTyped(x) => match that {
                Instr::SelectTyped(y) => x.same(y),
                _ => false,
            },
            Instr::LocalGet(x) => match that {
                Instr::LocalGet(y) => x == y,
                _ => false,
            },
            Instr::LocalSet(x) => match that {
                Instr::LocalSet(y) => x == y,
                _ => false,
            },
            Instr::LocalTee(x) => match that {
                Instr::LocalTee(y) => x == y,
                _ => false,
            },
            Instr::GlobalGet(x) => match that {
                Instr::GlobalGet(y) => x == y,
                _ => false,
            },
            Instr::GlobalSet(x) => match that {
                Instr::GlobalSet(y) => x == y,
                _ => false,
            },
            Instr::TableGet(x) => match that {
                Instr::TableGet(y) => x == y,
                _ => false,
            },
            Instr::TableSet(x) => match that {
                Instr::TableSet(y) => x == y,
                _ => false,
            },
            Instr::TableInit { elem, table } => match that {
                Instr::TableInit {
                    elem: elem_there,
                    table: table_there,
                } => elem == elem_there && table == table_there,
                _ => false,
            },
            Instr::ElemDrop(x) => match that {
                Instr::ElemDrop(y) => x == y,
                _ => false,
            },
            Instr::TableCopy { to, from } => match that {
                Instr::TableCopy {
                    to: to_there,
                    from: from_there,
                } => to == to_there && from == from_there,
                _ => false,
            },
            Instr::TableGrow(x) => match that {
                Instr::TableGrow(y) => x == y,
                _ => false,
            },
            Instr::TableSize(x) => match that {
                Instr::TableSize(y) => x == y,
                _ => false,
            },
            Instr::TableFill(x) => match that {
                Instr::TableFill(y) => x == y,
                _ => false,
            },
            Instr::Load { op, align, offset } => match that {
                Instr::Load {
                    op: op_there,
                    align: align_there,
                    offset: offset_there,
                } => op == op_there && align == align_there && offset == offset_there,
                _ => false,
            },
            Instr::Store { op, align, offset } => match that {
                Instr::Store {
                    op: op_there,
                    align: align_there,
                    offset: offset_there,
                } => op == op_there && align == align_there && offset == offset_there,
                _ => false,
            },
            Instr::MemorySize => matches!(that, Instr::MemorySize),
            Instr::MemoryGrow => matches!(that, Instr::MemoryGrow),
            Instr::MemoryInit(x) => match that {
                Instr::MemoryInit(y) => x == y,
                _ => false,
            },
            Instr::DataDrop(x) => match that {
                Instr::DataDrop(y) => x == y,
                _ => false,
            },
            Instr::MemoryCopy => matches!(that, Instr::MemoryCopy),
            Instr::MemoryFill => matches!(that, Instr::MemoryFill),
            Instr::Const32(x) => match that {
                Instr::Const32(y) => x == y,
                _ => false,
            },
            Instr::Const64(x) => match that {
                Instr::Const64(y) => x == y,
                _ => false,
            },
            Instr::Num(x) => match that {
                Instr::Num(y) => x == y,
                _ => false,
            },
        }
    }
}

impl Same for FuncType {
    fn same(&self, that: &FuncType) -> bool {
        self.params.same(&that.params) && self.results.same(&that.results)
    }
}

impl Same for Import {
    fn same(&self, that: &Import) -> bool {
        self.module.same(&that.module) && self.name.same(&that.name) && self.kind == that.kind
    }
}

impl Same for Expr {
    fn same(&self, that: &Expr) -> bool {
        self.seqs.same(&that.seqs)
    }
}

impl Same for Func {
    fn same(&self, that: &Func) -> bool {
        self.ty == that.ty && self.locals.same(&that.locals) && self.body.same(&that.body)
    }
}

impl Same for GlobalDef {
    fn same(&self, that: &GlobalDef) -> bool {
        self.ty == that.ty && self.init.same(&that.init)
    }
}

impl Same for Export {
    fn same(&self, that: &Export) -> bool {
        self.name.same(&that.name) && self.space == that.space && self.index == that.index
    }
}

impl Same for Elem {
    fn same(&self, that: &Elem) -> bool {
        self.kind == that.kind && self.items.same(&that.items) && self.mode.same(&that.mode)
    }
}

impl Same for Segment {
    fn same(&self, that: &Segment) -> bool {
        self.bytes.same(&that.bytes) && self.mode.same(&that.mode)
    }
}

impl Same for Custom {
    fn same(&self, that: &Custom) -> bool {
        self.after == that.after && self.name.same(&that.name) && self.bytes.same(&that.bytes)
    }
}

impl Same for Module {
    fn same(&self, that: &Module) -> bool {
        self.types.same(&that.types)
            && self.imports.same(&that.imports)
            && self.funcs.same(&that.funcs)
            && self.tables.same(&that.tables)
            && self.memories.same(&that.memories)
            && self.globals.same(&that.globals)
            && self.exports.same(&that.exports)
            && self.start == that.start
            && self.elems.same(&that.elems)
            && self.segments.same(&that.segments)
            && self.customs.same(&that.customs)
    }
}

impl Same for Mode {
    fn same(&self, that: &Mode) -> bool {
        match self {
            Mode::Passive => matches!(that, Mode::Passive),
            Mode::Declared => matches!(that, Mode::Declared),
            Mode::Active { index, offset } => match that {
                Mode::Active {
                    index: there,
                    offset: other,
                } => index == there && offset.same(other),
                _ => false,
            },
        }
    }
}

impl Same for Outcome {
    fn same(&self, that: &Outcome) -> bool {
        match self {
            Outcome::Returns(values) => match that {
                Outcome::Returns(there) => values.same(there),
                _ => false,
            },
            Outcome::Traps(cause) => match that {
                Outcome::Traps(there) => cause == there,
                _ => false,
            },
            Outcome::Fails => matches!(that, Outcome::Fails),
            Outcome::Assumes => matches!(that, Outcome::Assumes),
            Outcome::Bound => matches!(that, Outcome::Bound),
            Outcome::Deep => matches!(that, Outcome::Deep),
        }
    }
}

impl Same for Ran {
    fn same(&self, that: &Ran) -> bool {
        self.outcome.same(&that.outcome) && self.draws.same(&that.draws)
    }
}
