// One step, over any algebra of words and any memory.
ghost use Rattle.std.specs.Prelude.{◌≡◌, ◌<◌, ◌+◌, ◌^◌, List, IfOk, None, Some, map};
ghost use Rattle.std.specs.List.{AllByRecursion};
ghost use Rattle.wasm_rules.specs.Words.{Kept};
ghost use Rattle.wasm_image.specs.Hosts.{AreLinked};
ghost use Rattle.wasm_reduction.specs.Widths.{HasWidths};
ghost use Rattle.wasm_reduction.specs.Maps.{InRange};
ghost use Rattle.wasm_machine.specs.Configurations.{configuration};
ghost use Rattle.wasm_machine.specs.Acts.{Sane, Ready, IsNext, ActsOn};
ghost use Rattle.wasm_machine.specs.Stores.{TablesSmall, CellsReady};
ghost use Rattle.wasm_machine.specs.Steps.{Steps, StepsAnyhow};

use crate::branches::{br, br_if, br_table, return_values};
use crate::calls::{call, call_indirect};
use crate::control::{block, end, if_else, nop, repeat};
use crate::machine::Machine;
use crate::memory::Memory;
use crate::memory_instructions::{
    data_drop, load, memory_copy, memory_fill, memory_grow, memory_init, memory_size, store,
};
use crate::next::{End, Next};
use crate::numeric::{const32, const64, num};
use crate::parametric::{discard, select};
use crate::references::{ref_func, ref_is_null, ref_null};
use crate::tables::{
    elem_drop, table_copy, table_fill, table_get, table_grow, table_init, table_set, table_size,
};
use crate::variables::{global_get, global_set, local_get, local_set, local_tee};
use std::alloc::{AllocError, Global};
use wasm_ast::{Cause, Instr};
use wasm_image::Image;
use wasm_rules::Algebra;

// The instruction that is next, in a function of the module.
fn carry_out<A: Algebra, M: Memory<A>>(
    alloc: Global,
    a: &mut A,
    s: &mut Machine<A::Word>,
    memory: &mut M,
    image: &Image,
    i: &Instr,
) -> Result<Next<A::Word>, AllocError>
    requires ready { Ready A.holds A.Has A.means a.old s.old }
    requires cells { CellsReady A.holds A.Has A.means a.old (M.cells memory.old) }
    requires small { TablesSmall s.old }
    requires linked { AreLinked image.now }
    requires next { IsNext image.now s.old i.now }
    requires range { InRange i.now }
    ensures kept { Kept A.holds A.means a.old a.new }
    ensures acts { IfOk result (λ x. ActsOn A.holds A.means A.kind image.now i.now a.old s.old (M.cells memory.old) a.new s.new (M.cells memory.new) x) }
{
    let m = image.module();
    match i {
        Instr::Unreachable => Ok(Next::Ends(End::Traps(Cause::Unreachable))),
        Instr::Nop => Ok(nop(a, s)),
        Instr::Block { ty, body } => {
            let x = block(a, s, m, *ty, *body)?;
            Ok(x)
        }
        Instr::Loop { ty, body } => {
            let x = repeat(a, s, m, *ty, *body)?;
            Ok(x)
        }
        Instr::If { ty, then, other } => {
            let x = if_else(a, s, m, *ty, *then, *other)?;
            Ok(x)
        }
        Instr::Br(l) => {
            let x = br(alloc, a, s, *l)?;
            Ok(x)
        }
        Instr::BrIf(l) => {
            let x = br_if(alloc, a, s, *l)?;
            Ok(x)
        }
        Instr::BrTable { labels, last } => {
            let x = br_table(alloc, a, s, labels, *last)?;
            Ok(x)
        }
        Instr::Return => {
            let x = return_values(alloc, a, s)?;
            Ok(x)
        }
        Instr::Call(f) => {
            let x = call(a, s, image, *f)?;
            Ok(x)
        }
        Instr::CallIndirect { ty, table } => {
            let x = call_indirect(a, s, image, *ty, *table)?;
            Ok(x)
        }
        Instr::RefNull(kind) => {
            let x = ref_null(a, s, *kind)?;
            Ok(x)
        }
        Instr::RefIsNull => Ok(ref_is_null(a, s)),
        Instr::RefFunc(f) => {
            let x = ref_func(a, s, *f)?;
            Ok(x)
        }
        Instr::Discard => Ok(discard(a, s)),
        Instr::Select => {
            let x = select(a, s)?;
            Ok(x)
        }
        Instr::SelectTyped(_) => {
            let x = select(a, s)?;
            Ok(x)
        }
        Instr::LocalGet(k) => {
            let x = local_get(a, s, *k)?;
            Ok(x)
        }
        Instr::LocalSet(k) => Ok(local_set(a, s, *k)),
        Instr::LocalTee(k) => Ok(local_tee(a, s, *k)),
        Instr::GlobalGet(k) => {
            let x = global_get(a, s, *k)?;
            Ok(x)
        }
        Instr::GlobalSet(k) => Ok(global_set(a, s, *k)),
        Instr::TableGet(t) => {
            let x = table_get(a, s, *t)?;
            Ok(x)
        }
        Instr::TableSet(t) => {
            let x = table_set(a, s, *t)?;
            Ok(x)
        }
        Instr::TableInit { elem, table } => {
            let x = table_init(a, s, *elem, *table)?;
            Ok(x)
        }
        Instr::ElemDrop(e) => Ok(elem_drop(a, s, *e)),
        Instr::TableCopy { to, from } => {
            let x = table_copy(a, s, *to, *from)?;
            Ok(x)
        }
        Instr::TableGrow(t) => {
            let x = table_grow(a, s, m, *t)?;
            Ok(x)
        }
        Instr::TableSize(t) => {
            let x = table_size(a, s, *t)?;
            Ok(x)
        }
        Instr::TableFill(t) => {
            let x = table_fill(a, s, *t)?;
            Ok(x)
        }
        Instr::Load {
            op,
            align: _,
            offset,
        } => {
            let x = load(a, s, memory, *op, *offset)?;
            Ok(x)
        }
        Instr::Store {
            op,
            align: _,
            offset,
        } => {
            let x = store(a, s, memory, *op, *offset)?;
            Ok(x)
        }
        Instr::MemorySize => {
            let x = memory_size(a, s, memory)?;
            Ok(x)
        }
        Instr::MemoryGrow => {
            let x = memory_grow(a, s, memory, m)?;
            Ok(x)
        }
        Instr::MemoryInit(d) => {
            let x = memory_init(a, s, memory, m, *d)?;
            Ok(x)
        }
        Instr::DataDrop(d) => Ok(data_drop(a, s, *d)),
        Instr::MemoryCopy => {
            let x = memory_copy(a, s, memory)?;
            Ok(x)
        }
        Instr::MemoryFill => {
            let x = memory_fill(a, s, memory)?;
            Ok(x)
        }
        Instr::Const32(n) => {
            let x = const32(a, s, *n)?;
            Ok(x)
        }
        Instr::Const64(n) => {
            let x = const64(a, s, *n)?;
            Ok(x)
        }
        Instr::Num(op) => {
            let x = num(a, s, *op)?;
            Ok(x)
        }
    }
}

// What comes in the outermost frame: a call, or the end of the run.
fn step_outside<A: Algebra>(
    alloc: Global,
    a: &mut A,
    s: &mut Machine<A::Word>,
    image: &Image,
) -> Result<Next<A::Word>, AllocError>
    requires sane { Sane A.holds a.old s.old }
    requires units { s.old.units + 1 < 2 ^ 64 }
    requires linked { AreLinked image.now }
    requires widths { (b : List A.Means) × HasWidths A.Has (configuration (A.means a.old) image.now b s.old) }
    requires outside { s.old.frame.func ≡ None }
    ensures kept { Kept A.holds A.means a.old a.new }
    ensures steps { IfOk result (λ x. StepsAnyhow A.holds A.means A.kind image.now a.old s.old a.new s.new x) }
{
    match s.outer_call(image.module()) {
        None => {
            let x = end(alloc, a, s)?;
            Ok(x)
        }
        Some(f) => {
            let x = call(a, s, image, f)?;
            Ok(x)
        }
    }
}

// What comes in a function of the module: its next instruction, or the end of its innermost label.
fn step_inside<A: Algebra, M: Memory<A>>(
    alloc: Global,
    a: &mut A,
    s: &mut Machine<A::Word>,
    memory: &mut M,
    image: &Image,
    f: u32,
) -> Result<Next<A::Word>, AllocError>
    requires sane { Sane A.holds a.old s.old }
    requires units { s.old.units + 1 < 2 ^ 64 }
    requires cells { AllByRecursion (A.holds a.old) (M.cells memory.old) }
    requires linked { AreLinked image.now }
    requires widths { HasWidths A.Has (configuration (A.means a.old) image.now (map (A.means a.old) (M.cells memory.old)) s.old) }
    requires inside { s.old.frame.func ≡ Some f }
    ensures kept { Kept A.holds A.means a.old a.new }
    ensures steps { IfOk result (λ x. Steps A.holds A.means A.kind image.now a.old s.old (M.cells memory.old) a.new s.new (M.cells memory.new) x) }
{
    match s.instruction(f, image.module()) {
        None => {
            let x = end(alloc, a, s)?;
            Ok(x)
        }
        Some(i) => {
            let x = carry_out(alloc, a, s, memory, image, i)?;
            Ok(x)
        }
    }
}

/// One step: what the reduction's step is at the configuration that the state stands for. Where memory is wanting, words that
/// were made before keep their meanings, and the state may be any; it is only to be dropped.
pub fn step<A: Algebra, M: Memory<A>>(
    alloc: Global,
    a: &mut A,
    s: &mut Machine<A::Word>,
    memory: &mut M,
    image: &Image,
) -> Result<Next<A::Word>, AllocError>
    requires sane { Sane A.holds a.old s.old }
    requires units { s.old.units + 1 < 2 ^ 64 }
    requires cells { AllByRecursion (A.holds a.old) (M.cells memory.old) }
    requires linked { AreLinked image.now }
    requires widths { HasWidths A.Has (configuration (A.means a.old) image.now (map (A.means a.old) (M.cells memory.old)) s.old) }
    ensures kept { Kept A.holds A.means a.old a.new }
    ensures steps { IfOk result (λ x. Steps A.holds A.means A.kind image.now a.old s.old (M.cells memory.old) a.new s.new (M.cells memory.new) x) }
{
    match s.function() {
        None => {
            let x = step_outside(alloc, a, s, image)?;
            Ok(x)
        }
        Some(f) => {
            let x = step_inside(alloc, a, s, memory, image, f)?;
            Ok(x)
        }
    }
}
