// Instructions and expressions (Structure, Instructions).
use crate::lists::List;
use crate::types::{BlockType, ValType};
use std::alloc::AllocError;

/// An instruction (Structure, Instructions).
///
/// A control instruction names the sequences inside it by their numbers in the `seqs` of its expression. A label is a
/// number of labels to pass, from 0 for the innermost. Types, functions, tables, globals and segments are named by their
/// index in the module, imports first; locals by their index in the function, parameters first. Loads, stores and
/// operators are named by their opcode byte (Binary Format, Instructions).
#[derive(Drop)]
pub enum Instr {
    /// `unreachable`: traps.
    Unreachable,
    /// `nop`: does nothing.
    Nop,
    /// `block`: runs the sequence `body`. A branch to its label goes on after it.
    Block {
        ty: BlockType,
        body: u32,
    },
    /// `loop`: runs the sequence `body`. A branch to its label starts it again.
    Loop {
        ty: BlockType,
        body: u32,
    },
    /// `if`: runs the sequence `then` where the condition isn't 0, else the sequence `other`. A branch to its label goes
    /// on after it. An `if` without `else` has an empty `other`.
    If {
        ty: BlockType,
        then: u32,
        other: u32,
    },
    /// `br`: branches to the label.
    Br(u32),
    /// `br_if`: branches to the label where the condition isn't 0.
    BrIf(u32),
    /// `br_table`: branches to the label that stands at the operand's place in `labels`, or to `last` past their end.
    BrTable {
        labels: List<u32>,
        last: u32,
    },
    /// `return`: leaves the function.
    Return,
    /// `call`: calls the function.
    Call(u32),
    /// `call_indirect`: calls the function at the operand's place in `table`, where its type is the type `ty`.
    CallIndirect {
        ty: u32,
        table: u32,
    },
    /// `ref.null`: a null reference of this type, which is a reference type.
    RefNull(ValType),
    /// `ref.is_null`: whether a reference is null.
    RefIsNull,
    /// `ref.func`: a reference to the function.
    RefFunc(u32),
    /// `drop`: throws an operand away.
    Discard,
    /// `select` without types: one of two operands.
    Select,
    /// `select` with these types: one of two operands.
    SelectTyped(List<ValType>),
    /// `local.get`
    LocalGet(u32),
    /// `local.set`
    LocalSet(u32),
    /// `local.tee`
    LocalTee(u32),
    /// `global.get`
    GlobalGet(u32),
    /// `global.set`
    GlobalSet(u32),
    /// `table.get`
    TableGet(u32),
    /// `table.set`
    TableSet(u32),
    /// `table.init`: copies elements of the element segment `elem` into `table`.
    TableInit {
        elem: u32,
        table: u32,
    },
    /// `elem.drop`: gives up the element segment.
    ElemDrop(u32),
    /// `table.copy`: copies elements of the table `from` into the table `to`.
    TableCopy {
        to: u32,
        from: u32,
    },
    /// `table.grow`
    TableGrow(u32),
    /// `table.size`
    TableSize(u32),
    /// `table.fill`
    TableFill(u32),
    /// A load: its opcode byte, the exponent of its alignment, which is below 32, and what is added to the address.
    Load {
        op: u8,
        align: u32,
        offset: u32,
    },
    /// A store: its opcode byte, the exponent of its alignment, which is below 32, and what is added to the address.
    Store {
        op: u8,
        align: u32,
        offset: u32,
    },
    /// `memory.size`
    MemorySize,
    /// `memory.grow`
    MemoryGrow,
    /// `memory.init`: copies bytes of the data segment into the memory.
    MemoryInit(u32),
    /// `data.drop`: gives up the data segment.
    DataDrop(u32),
    /// `memory.copy`
    MemoryCopy,
    /// `memory.fill`
    MemoryFill,
    /// `i32.const`: the value modulo 2^32.
    Const32(u32),
    /// `i64.const`: the value modulo 2^64.
    Const64(u64),
    /// A test, comparison, conversion or other operator on integers, named by its opcode byte.
    Num(u8),
}

impl Clone for Instr {
    ghost use Rattle.std.specs.Prelude.{◌≡◌};

    ghost is_clone = { λ x y. y ≡ x };

    fn clone(&self) -> Result<Instr, AllocError> {
        Ok(match self {
            Instr::Unreachable => Instr::Unreachable,
            Instr::Nop => Instr::Nop,
            Instr::Block { ty, body } => Instr::Block {
                ty: *ty,
                body: *body,
            },
            Instr::Loop { ty, body } => Instr::Loop {
                ty: *ty,
                body: *body,
            },
            Instr::If { ty, then, other } => Instr::If {
                ty: *ty,
                then: *then,
                other: *other,
            },
            Instr::Br(x) => Instr::Br(*x),
            Instr::BrIf(x) => Instr::BrIf(*x),
            Instr::BrTable { labels, last } => {
                let labels = labels.copy()?;
                Instr::BrTable {
                    labels,
                    last: *last,
                }
            }
            Instr::Return => Instr::Return,
            Instr::Call(x) => Instr::Call(*x),
            Instr::CallIndirect { ty, table } => Instr::CallIndirect {
                ty: *ty,
                table: *table,
            },
            Instr::RefNull(x) => Instr::RefNull(*x),
            Instr::RefIsNull => Instr::RefIsNull,
            Instr::RefFunc(x) => Instr::RefFunc(*x),
            Instr::Discard => Instr::Discard,
            Instr::Select => Instr::Select,
            Instr::SelectTyped(x) => Instr::SelectTyped(x.copy()?),
            Instr::LocalGet(x) => Instr::LocalGet(*x),
            Instr::LocalSet(x) => Instr::LocalSet(*x),
            Instr::LocalTee(x) => Instr::LocalTee(*x),
            Instr::GlobalGet(x) => Instr::GlobalGet(*x),
            Instr::GlobalSet(x) => Instr::GlobalSet(*x),
            Instr::TableGet(x) => Instr::TableGet(*x),
            Instr::TableSet(x) => Instr::TableSet(*x),
            Instr::TableInit { elem, table } => Instr::TableInit {
                elem: *elem,
                table: *table,
            },
            Instr::ElemDrop(x) => Instr::ElemDrop(*x),
            Instr::TableCopy { to, from } => Instr::TableCopy {
                to: *to,
                from: *from,
            },
            Instr::TableGrow(x) => Instr::TableGrow(*x),
            Instr::TableSize(x) => Instr::TableSize(*x),
            Instr::TableFill(x) => Instr::TableFill(*x),
            Instr::Load { op, align, offset } => Instr::Load {
                op: *op,
                align: *align,
                offset: *offset,
            },
            Instr::Store { op, align, offset } => Instr::Store {
                op: *op,
                align: *align,
                offset: *offset,
            },
            Instr::MemorySize => Instr::MemorySize,
            Instr::MemoryGrow => Instr::MemoryGrow,
            Instr::MemoryInit(x) => Instr::MemoryInit(*x),
            Instr::DataDrop(x) => Instr::DataDrop(*x),
            Instr::MemoryCopy => Instr::MemoryCopy,
            Instr::MemoryFill => Instr::MemoryFill,
            Instr::Const32(x) => Instr::Const32(*x),
            Instr::Const64(x) => Instr::Const64(*x),
            Instr::Num(x) => Instr::Num(*x),
        })
    }
}

/// An expression: a sequence of instructions with all sequences inside it (Structure, Instructions: Expressions).
///
/// The sequence 0 is the outermost. The others are numbered in the order in which they open, an `If`'s `then` with all
/// inside it before its `other`, and each is named by exactly one control instruction.
#[derive(Drop)]
pub struct Expr {
    /// The sequences, by their numbers.
    pub seqs: List<List<Instr>>,
}

impl Clone for Expr {
    ghost use Rattle.std.specs.Prelude.{◌≡◌};

    ghost is_clone = { λ x y. y ≡ x };

    fn clone(&self) -> Result<Expr, AllocError> {
        let seqs = self.seqs.copy()?;
        Ok(Expr { seqs })
    }
}
