// What the checker does with an instruction that has no sequence inside it.
ghost use Rattle.std.specs.Prelude.{IfOk};
ghost use Rattle.wasm_check.specs.code.Runs.{known, labels_in};
ghost use Rattle.wasm_check.specs.code.Checker.{Answers, acts as acts_of};
ghost use Rattle.wasm_check.specs.code.Kept.{context};

use crate::act::{applies, discard, leaves, may_leave, ref_is_null, select};
use crate::calls::{call, call_indirect, ref_func, select_typed};
use crate::memories::{
    data_drop, load, memory_copy, memory_fill, memory_grow, memory_init, memory_size, store,
};
use crate::numbers::operator;
use crate::open::{OpenSeq, choose, label_of};
use crate::scope::Scope;
use crate::stack::Stack;
use crate::tables::{
    elem_drop, table_copy, table_fill, table_get, table_grow, table_init, table_set, table_size,
};
use crate::variables::{global_get, global_set, local_get, local_set, local_tee};
use std::alloc::{AllocError, Global};
use type_suffixes::Listed;
use wasm_ast::{Instr, ValType};

/// The instruction, in a sequence whose label is `own`, inside the sequences `outer`. The answer is whether it is typed; if
/// it isn't, the stack may have lost operands.
pub fn acts(
    alloc: Global,
    scope: &Scope,
    own: Listed,
    outer: &[OpenSeq],
    i: &Instr,
    s: &mut Stack,
) -> Result<bool, AllocError>
    ensures { IfOk result (λ b. Answers b (acts_of (context scope.now) (labels_in scope.now.types own outer.now) i.now (known scope.now.types s.old)) (known scope.now.types s.new)) }
{
    match i {
        Instr::Unreachable => {
            s.kill(scope);
            Ok(true)
        }
        Instr::Nop => Ok(applies(scope, s, &[], &[])?),
        Instr::Block { .. } | Instr::Loop { .. } | Instr::If { .. } => Ok(false),
        Instr::Br(k) => match label_of(scope, own, outer, *k) {
            None => Ok(false),
            Some(list) => Ok(leaves(scope, s, list)),
        },
        Instr::BrIf(k) => match label_of(scope, own, outer, *k) {
            None => Ok(false),
            Some(list) => Ok(may_leave(scope, s, list)?),
        },
        Instr::BrTable { labels, last } => {
            Ok(choose(alloc, scope, own, outer, labels.as_slice(), *last, s)?)
        }
        Instr::Return => Ok(leaves(scope, s, scope.results())),
        Instr::Call(x) => Ok(call(scope, *x, s)?),
        Instr::CallIndirect { ty, table } => Ok(call_indirect(scope, *ty, *table, s)?),
        Instr::RefNull(kind) => Ok(applies(scope, s, &[], &[*kind])?),
        Instr::RefIsNull => Ok(ref_is_null(scope, s)?),
        Instr::RefFunc(x) => Ok(ref_func(scope, *x, s)?),
        Instr::Discard => Ok(discard(scope, s)),
        Instr::Select => Ok(select(scope, s)?),
        Instr::SelectTyped(kinds) => Ok(select_typed(scope, kinds.as_slice(), s)?),
        Instr::LocalGet(x) => Ok(local_get(scope, *x, s)?),
        Instr::LocalSet(x) => Ok(local_set(scope, *x, s)?),
        Instr::LocalTee(x) => Ok(local_tee(scope, *x, s)?),
        Instr::GlobalGet(x) => Ok(global_get(scope, *x, s)?),
        Instr::GlobalSet(x) => Ok(global_set(scope, *x, s)?),
        Instr::TableGet(x) => Ok(table_get(scope, *x, s)?),
        Instr::TableSet(x) => Ok(table_set(scope, *x, s)?),
        Instr::TableInit { elem, table } => Ok(table_init(scope, *elem, *table, s)?),
        Instr::ElemDrop(x) => Ok(elem_drop(scope, *x, s)?),
        Instr::TableCopy { to, from } => Ok(table_copy(scope, *to, *from, s)?),
        Instr::TableGrow(x) => Ok(table_grow(scope, *x, s)?),
        Instr::TableSize(x) => Ok(table_size(scope, *x, s)?),
        Instr::TableFill(x) => Ok(table_fill(scope, *x, s)?),
        Instr::Load { op, align, offset } => Ok(load(scope, *op, *align, *offset, s)?),
        Instr::Store { op, align, offset } => Ok(store(scope, *op, *align, *offset, s)?),
        Instr::MemorySize => Ok(memory_size(scope, s)?),
        Instr::MemoryGrow => Ok(memory_grow(scope, s)?),
        Instr::MemoryInit(x) => Ok(memory_init(scope, *x, s)?),
        Instr::DataDrop(x) => Ok(data_drop(scope, *x, s)?),
        Instr::MemoryCopy => Ok(memory_copy(scope, s)?),
        Instr::MemoryFill => Ok(memory_fill(scope, s)?),
        Instr::Const32(_) => Ok(applies(scope, s, &[], &[ValType::I32])?),
        Instr::Const64(_) => Ok(applies(scope, s, &[], &[ValType::I64])?),
        Instr::Num(op) => Ok(operator(scope, *op, s)?),
    }
}
