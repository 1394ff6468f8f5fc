// The fast path of a run: common instructions, carried out with all their questions in one call.
//
// What a step says is large to move, and each question is a step of its own. Here the functions of the machine are called where
// it is known that they go on, and with the answers that their questions will have.
ghost use Rattle.std.specs.Prelude.{List as Items, ◌≡◌, ◌+◌, ◌-◌, ◌<◌, ◌^◌, ◌||◌, ℕ, [], IfOk, MatchOption, OnOk, None, Some, true, length, nat_le, nat_lt, slice_get, slice_index_or};
ghost use Rattle.wasm_ast.specs.declared.instructions.Instr.{Instr as OneInstr};
ghost use Rattle.wasm_rules.specs.Words.{numbers as words};
ghost use Rattle.wasm_image.specs.Hosts.{AreLinked};
ghost use Rattle.wasm_reduction.specs.Configurations.{Config, Value as OneValue};
ghost use Rattle.wasm_reduction.specs.Parametric.{select as select_of};
ghost use Rattle.wasm_reduction.specs.Steps.{act};
ghost use Rattle.wasm_machine.specs.declared.next.Next.TheVariants.{Goes as CodeGoes};
ghost use Rattle.wasm_run.specs.code.Places.{IsAtEnd, IsAtInstruction, IsFastStep, IsOwnEntry, IsOwnFunction, IsOwnReference, MayStep, index_answers};

use crate::bytes::Bytes;
use std::alloc::{AllocError, Global};
use wasm_ast::equals::Same;
use wasm_ast::{BlockType, FuncType, Instr, List, Module};
use wasm_image::Image;
use wasm_machine::branches::{br, br_if, br_table, return_values};
use wasm_machine::calls::{call, call_indirect};
use wasm_machine::control::{block, end, if_else, nop, repeat};
use wasm_machine::machine::Machine;
use wasm_machine::memory::Memory;
use wasm_machine::memory_instructions::{load, store};
use wasm_machine::next::Next;
use wasm_machine::numeric::{const32, const64, num};
use wasm_machine::parametric::{discard, select};
use wasm_machine::values::Reference;
use wasm_machine::variables::{global_get, global_set, local_get, local_set, local_tee};
use wasm_rules::{Access, Numbers};

// That it goes on, where that is known.
#[inline(always)]
fn gone_on(x: Next<u64>) -> bool
    requires { x ≡ CodeGoes }
    ensures { result ≡ true }
{
    match x {
        Next::Goes => true,
        _ => unreachable!(),
    }
}

/// Carries out the next instruction, or the end of a label or a frame, where it is a common one. The answer is whether it
/// was; else nothing has changed.
#[inline(always)]
pub fn fast_step(
    alloc: Global,
    image: &Image,
    steps: u64,
    numbers: &mut Numbers,
    s: &mut Machine<u64>,
    memory: &mut Bytes,
) -> Result<bool, AllocError>
    requires linked { AreLinked image.now }
    requires run { MayStep image.now steps numbers.old s.old memory.old }
    ensures { IfOk result (λ b. IsFastStep b image.now steps s.old memory.old numbers.new s.new memory.new) }
{
    if common_step(alloc, image, steps, numbers, s, memory)? {
        return Ok(true);
    }
    Ok(rare_step(alloc, image, steps, numbers, s, memory)?)
}

// Those of the innermost loops.
#[inline(always)]
fn common_step(
    alloc: Global,
    image: &Image,
    steps: u64,
    numbers: &mut Numbers,
    s: &mut Machine<u64>,
    memory: &mut Bytes,
) -> Result<bool, AllocError>
    requires { MayStep image.now steps numbers.old s.old memory.old }
    ensures { IfOk result (λ b. IsFastStep b image.now steps s.old memory.old numbers.new s.new memory.new) }
{
    if !s.given().is_empty() {
        return Ok(false);
    }
    let m = image.module();
    match s.function() {
        None => Ok(false),
        Some(f) => match s.instruction(f, m) {
            None => Ok(leave(alloc, m, steps, numbers, s, memory)?),
            Some(i) => match i {
                Instr::BrIf(l) => Ok(test_branch(alloc, m, steps, numbers, s, memory, *l)?),
                Instr::If { ty, then, other } => Ok(test_block(
                    m, steps, numbers, s, memory, *ty, *then, *other,
                )?),
                Instr::Load {
                    op,
                    align: _,
                    offset,
                } => Ok(load_within(m, steps, numbers, s, memory, *op, *offset)?),
                Instr::Store {
                    op,
                    align: _,
                    offset,
                } => Ok(store_within(m, steps, numbers, s, memory, *op, *offset)?),
                _ => Ok(straight(alloc, m, steps, numbers, s, memory, i)?),
            },
        },
    }
}

// Those that are met less often. They stand apart, since they would slow the others.
#[inline(never)]
fn rare_step(
    alloc: Global,
    image: &Image,
    steps: u64,
    numbers: &mut Numbers,
    s: &mut Machine<u64>,
    memory: &mut Bytes,
) -> Result<bool, AllocError>
    requires linked { AreLinked image.now }
    requires run { MayStep image.now steps numbers.old s.old memory.old }
    ensures { IfOk result (λ b. IsFastStep b image.now steps s.old memory.old numbers.new s.new memory.new) }
{
    if !s.given().is_empty() {
        return Ok(false);
    }
    let m = image.module();
    match s.function() {
        None => Ok(false),
        Some(f) => match s.instruction(f, m) {
            None => Ok(leave_frame(alloc, m, steps, numbers, s, memory)?),
            Some(i) => match i {
                Instr::Br(l) => Ok(branch_out(alloc, m, steps, numbers, s, memory, *l)?),
                Instr::BrIf(l) => Ok(test_branch_out(alloc, m, steps, numbers, s, memory, *l)?),
                Instr::BrTable { labels, last } => Ok(table_branch(
                    alloc, m, steps, numbers, s, memory, labels, *last,
                )?),
                Instr::Call(x) => Ok(call_within(image, steps, numbers, s, memory, *x)?),
                Instr::CallIndirect { ty, table } => Ok(call_entry(
                    image, steps, numbers, s, memory, *ty, *table,
                )?),
                Instr::Return => Ok(give_results(alloc, m, steps, numbers, s, memory)?),
                Instr::Select => Ok(choose(m, steps, numbers, s, memory, i)?),
                Instr::SelectTyped(_) => Ok(choose(m, steps, numbers, s, memory, i)?),
                Instr::Num(op) => Ok(divide(m, steps, numbers, s, memory, *op)?),
                _ => Ok(false),
            },
        },
    }
}

// The end of a label inside another.
#[inline(always)]
fn leave(
    alloc: Global,
    m: &Module,
    steps: u64,
    numbers: &mut Numbers,
    s: &mut Machine<u64>,
    memory: &Bytes,
) -> Result<bool, AllocError>
    requires { IsAtEnd m.now steps numbers.old s.old memory.now }
    ensures { IfOk result (λ b. IsFastStep b m.now steps s.old memory.now numbers.new s.new memory.now) }
{
    if s.label_count() == 0 {
        return Ok(false);
    }
    Ok(gone_on(end(alloc, numbers, s)?))
}

// The end of a function, where a frame waits for its results.
#[inline(always)]
fn leave_frame(
    alloc: Global,
    m: &Module,
    steps: u64,
    numbers: &mut Numbers,
    s: &mut Machine<u64>,
    memory: &Bytes,
) -> Result<bool, AllocError>
    requires { IsAtEnd m.now steps numbers.old s.old memory.now }
    ensures { IfOk result (λ b. IsFastStep b m.now steps s.old memory.now numbers.new s.new memory.now) }
{
    if s.depth() == 0 {
        return Ok(false);
    }
    Ok(gone_on(end(alloc, numbers, s)?))
}

// Whether l labels wait and one more, or a frame does.
#[inline(always)]
fn leads_on(s: &Machine<u64>, l: u32) -> bool
    ensures { result ≡ (nat_lt l (length s.now.labels - s.now.frame.labels) || nat_lt 0 (length s.now.callers)) }
{
    (l as usize) < s.label_count() || s.depth() > 0
}

// An instruction that asks nothing, or whose questions are left to be asked.
#[inline(always)]
fn straight(
    alloc: Global,
    m: &Module,
    steps: u64,
    numbers: &mut Numbers,
    s: &mut Machine<u64>,
    memory: &Bytes,
    i: &Instr,
) -> Result<bool, AllocError>
    requires { IsAtInstruction m.now steps numbers.old s.old memory.now i.now }
    ensures { IfOk result (λ b. IsFastStep b m.now steps s.old memory.now numbers.new s.new memory.now) }
{
    match i {
        Instr::Nop => Ok(gone_on(nop(numbers, s))),
        Instr::Block { ty, body } => Ok(gone_on(block(numbers, s, m, *ty, *body)?)),
        Instr::Loop { ty, body } => Ok(gone_on(repeat(numbers, s, m, *ty, *body)?)),
        Instr::Br(l) => {
            if *l as usize >= s.label_count() {
                return Ok(false);
            }
            Ok(gone_on(br(alloc, numbers, s, *l)?))
        }
        Instr::Discard => Ok(gone_on(discard(numbers, s))),
        Instr::LocalGet(x) => Ok(gone_on(local_get(numbers, s, *x)?)),
        Instr::LocalSet(x) => Ok(gone_on(local_set(numbers, s, *x))),
        Instr::LocalTee(x) => Ok(gone_on(local_tee(numbers, s, *x))),
        Instr::GlobalGet(x) => Ok(gone_on(global_get(numbers, s, *x)?)),
        Instr::GlobalSet(x) => Ok(gone_on(global_set(numbers, s, *x))),
        Instr::Const32(n) => Ok(gone_on(const32(numbers, s, *n)?)),
        Instr::Const64(n) => Ok(gone_on(const64(numbers, s, *n)?)),
        Instr::Num(op) => match num(numbers, s, *op)? {
            Next::Goes => Ok(true),
            Next::Asks(_, _) => Ok(false),
            _ => unreachable!(),
        },
        _ => Ok(false),
    }
}

// `return`, where a frame waits for the results.
#[inline(always)]
fn give_results(
    alloc: Global,
    m: &Module,
    steps: u64,
    numbers: &mut Numbers,
    s: &mut Machine<u64>,
    memory: &Bytes,
) -> Result<bool, AllocError>
    requires { IsAtInstruction m.now steps numbers.old s.old memory.now OneInstr.Return }
    ensures { IfOk result (λ b. IsFastStep b m.now steps s.old memory.now numbers.new s.new memory.now) }
{
    if s.depth() == 0 {
        return Ok(false);
    }
    Ok(gone_on(return_values(alloc, numbers, s)?))
}

// `br`, where a frame waits for the results of this one.
#[inline(always)]
fn branch_out(
    alloc: Global,
    m: &Module,
    steps: u64,
    numbers: &mut Numbers,
    s: &mut Machine<u64>,
    memory: &Bytes,
    l: u32,
) -> Result<bool, AllocError>
    requires { IsAtInstruction m.now steps numbers.old s.old memory.now (OneInstr.Br l) }
    ensures { IfOk result (λ b. IsFastStep b m.now steps s.old memory.now numbers.new s.new memory.now) }
{
    if s.depth() == 0 {
        return Ok(false);
    }
    Ok(gone_on(br(alloc, numbers, s, l)?))
}

// `br_if`, where a frame waits for the results of this one.
#[inline(always)]
fn test_branch_out(
    alloc: Global,
    m: &Module,
    steps: u64,
    numbers: &mut Numbers,
    s: &mut Machine<u64>,
    memory: &Bytes,
    label: u32,
) -> Result<bool, AllocError>
    requires { IsAtInstruction m.now steps numbers.old s.old memory.now (OneInstr.BrIf label) }
    ensures { IfOk result (λ b. IsFastStep b m.now steps s.old memory.now numbers.new s.new memory.now) }
{
    if s.depth() == 0 {
        return Ok(false);
    }
    let Some(w) = s.word(0, false) else {
        return Ok(false);
    };
    s.note((w != 0) as u64)?;
    Ok(gone_on(br_if(alloc, numbers, s, label)?))
}

// `br_if` to a label that isn't the last of its frame.
#[inline(always)]
fn test_branch(
    alloc: Global,
    m: &Module,
    steps: u64,
    numbers: &mut Numbers,
    s: &mut Machine<u64>,
    memory: &Bytes,
    l: u32,
) -> Result<bool, AllocError>
    requires { IsAtInstruction m.now steps numbers.old s.old memory.now (OneInstr.BrIf l) }
    ensures { IfOk result (λ b. IsFastStep b m.now steps s.old memory.now numbers.new s.new memory.now) }
{
    if l as usize >= s.label_count() {
        return Ok(false);
    }
    let Some(w) = s.word(0, false) else {
        return Ok(false);
    };
    s.note((w != 0) as u64)?;
    Ok(gone_on(br_if(alloc, numbers, s, l)?))
}

// The label of `br_table` at an index: the last one past the others.
#[inline(always)]
fn label_at(labels: &[u32], last: u32, w: u64) -> u32
    requires { w < 2 ^ 32 }
    ensures { result ≡ slice_index_or labels.now w last }
{
    match labels.get(w as usize) {
        Some(l) => *l,
        None => last,
    }
}

// The answers to the questions of `br_table` with n labels, where there are none yet.
#[inline(always)]
fn put_index(answers: &mut Vec<u64>, w: u64, n: usize) -> Result<(), AllocError>
    requires { answers.old.items ≡ [] }
    ensures { OnOk result (answers.new.items ≡ index_answers n w) }
{
    let at = w as usize;
    answers.resize(at.min(n), 1)?;
    if at < n {
        answers.push(0)?;
    }
    Ok(())
}

// The questions of `br_table` have had their answers: whether the index w is another than each place, up to its own.
#[inline(always)]
fn note_index(s: &mut Machine<u64>, w: u64, n: usize) -> Result<(), AllocError>
    requires { s.old.answers ≡ [] }
    ensures { OnOk result (s.new ≡ record (s.old) { answers = index_answers n w }) }
{
    put_index(&mut s.answers, w, n)?;
    Ok(())
}

// `br_table`
#[inline(always)]
fn table_branch(
    alloc: Global,
    m: &Module,
    steps: u64,
    numbers: &mut Numbers,
    s: &mut Machine<u64>,
    memory: &Bytes,
    labels: &List<u32>,
    last: u32,
) -> Result<bool, AllocError>
    requires { IsAtInstruction m.now steps numbers.old s.old memory.now (OneInstr.BrTable labels.now last) }
    ensures { IfOk result (λ b. IsFastStep b m.now steps s.old memory.now numbers.new s.new memory.now) }
{
    let Some(w) = s.word(0, false) else {
        return Ok(false);
    };
    let l = label_at(labels.as_slice(), last, w);
    if !leads_on(s, l) {
        return Ok(false);
    }
    note_index(s, w, labels.as_slice().len())?;
    Ok(gone_on(br_table(alloc, numbers, s, labels, last)?))
}

// `select`. Of two words it asks nothing, of two references about its condition.
#[inline(always)]
fn choose(
    m: &Module,
    steps: u64,
    numbers: &mut Numbers,
    s: &mut Machine<u64>,
    memory: &Bytes,
    i: &Instr,
) -> Result<bool, AllocError>
    requires at { IsAtInstruction m.now steps numbers.old s.old memory.now i.now }
    requires selects { (c : Config ℕ) (vs : Items (OneValue ℕ)) (ns : Items ℕ) → act words m.now c vs ns i.now ≡ select_of words c vs ns }
    ensures { IfOk result (λ b. IsFastStep b m.now steps s.old memory.now numbers.new s.new memory.now) }
{
    match select(numbers, s)? {
        Next::Goes => Ok(true),
        Next::Asks(_, condition) => {
            s.note((condition != 0) as u64)?;
            Ok(gone_on(select(numbers, s)?))
        }
        _ => unreachable!(),
    }
}

// The next instruction has had no answers.
#[inline(always)]
fn forget(s: &mut Machine<u64>)
    ensures { s.new ≡ record (s.old) { answers = [] } }
{
    s.answers.clear();
}

// A division that doesn't trap: neither is its divisor 0, nor its signed quotient too large.
#[inline(always)]
fn divide(
    m: &Module,
    steps: u64,
    numbers: &mut Numbers,
    s: &mut Machine<u64>,
    memory: &Bytes,
    op: u8,
) -> Result<bool, AllocError>
    requires { IsAtInstruction m.now steps numbers.old s.old memory.now (OneInstr.Num op) }
    ensures { IfOk result (λ b. IsFastStep b m.now steps s.old memory.now numbers.new s.new memory.now) }
{
    match num(numbers, s, op)? {
        Next::Goes => Ok(true),
        Next::Asks(_, zero) => {
            if zero != 0 {
                return Ok(false);
            }
            s.note(0)?;
            match num(numbers, s, op)? {
                Next::Goes => Ok(true),
                Next::Asks(_, large) => {
                    if large != 0 {
                        forget(s);
                        return Ok(false);
                    }
                    s.note(0)?;
                    Ok(gone_on(num(numbers, s, op)?))
                }
                _ => unreachable!(),
            }
        }
        _ => unreachable!(),
    }
}

// A call of a function of the module's own.
#[inline(always)]
fn call_within(
    image: &Image,
    steps: u64,
    numbers: &mut Numbers,
    s: &mut Machine<u64>,
    memory: &Bytes,
    x: u32,
) -> Result<bool, AllocError>
    requires linked { AreLinked image.now }
    requires at { IsAtInstruction image.now steps numbers.old s.old memory.now (OneInstr.Call x) }
    ensures { IfOk result (λ b. IsFastStep b image.now steps s.old memory.now numbers.new s.new memory.now) }
{
    match image.host(x) {
        Some(_) => Ok(false),
        None => Ok(gone_on(call(numbers, s, image, x)?)),
    }
}

// A function type of the module.
#[inline(always)]
fn type_at(m: &Module, ty: u32) -> Option<&FuncType>
    ensures { MatchOption result (slice_get m.now.types ty ≡ None) (λ t. slice_get m.now.types ty ≡ Some t.now) }
{
    m.types.as_slice().get(ty as usize)
}

// Whether a function is the module's own and of this type.
#[inline(always)]
fn is_own_function(image: &Image, t: &FuncType, f: u32) -> bool
    ensures { result ≡ true → IsOwnFunction image.now t.now f }
{
    if f as usize >= image.function_count() {
        return false;
    }
    match image.host(f) {
        Some(_) => false,
        None => image.function_type(f).same(t),
    }
}

// Whether a reference is to such a function.
#[inline(always)]
fn is_own_reference(image: &Image, t: &FuncType, r: Reference) -> bool
    ensures { result ≡ true → IsOwnReference image.now t.now r }
{
    match r {
        Reference::Extern => false,
        Reference::Func(function) => match function {
            None => false,
            Some(f) => is_own_function(image, t, f),
        },
    }
}

// Whether the entry of a table at this index is such a reference.
#[inline(always)]
fn is_own_entry(image: &Image, s: &Machine<u64>, ty: u32, table: u32, w: u64) -> bool
    requires { w < 2 ^ 32 }
    ensures { result ≡ true → IsOwnEntry image.now s.now ty table w }
{
    let Some(t) = type_at(image.module(), ty) else {
        return false;
    };
    let Some(r) = s.element(table, w as usize) else {
        return false;
    };
    is_own_reference(image, t, r)
}

// `call_indirect` of a function of the module's own.
#[inline(always)]
fn call_entry(
    image: &Image,
    steps: u64,
    numbers: &mut Numbers,
    s: &mut Machine<u64>,
    memory: &Bytes,
    ty: u32,
    table: u32,
) -> Result<bool, AllocError>
    requires linked { AreLinked image.now }
    requires at { IsAtInstruction image.now steps numbers.old s.old memory.now (OneInstr.CallIndirect ty table) }
    ensures { IfOk result (λ b. IsFastStep b image.now steps s.old memory.now numbers.new s.new memory.now) }
{
    let Some(w) = s.word(0, false) else {
        return Ok(false);
    };
    if !is_own_entry(image, s, ty, table, w) {
        return Ok(false);
    }
    s.note(0)?;
    s.note(w)?;
    Ok(gone_on(call_indirect(numbers, s, image, ty, table)?))
}

// `if`
#[inline(always)]
fn test_block(
    m: &Module,
    steps: u64,
    numbers: &mut Numbers,
    s: &mut Machine<u64>,
    memory: &Bytes,
    ty: BlockType,
    then: u32,
    other: u32,
) -> Result<bool, AllocError>
    requires { IsAtInstruction m.now steps numbers.old s.old memory.now (OneInstr.If ty then other) }
    ensures { IfOk result (λ b. IsFastStep b m.now steps s.old memory.now numbers.new s.new memory.now) }
{
    let Some(w) = s.word(0, false) else {
        return Ok(false);
    };
    s.note((w != 0) as u64)?;
    Ok(gone_on(if_else(numbers, s, m, ty, then, other)?))
}

// Whether the bytes of an access at this address and offset lie in the memory.
#[inline(always)]
fn is_within(memory: &Bytes, at: u64, offset: u32, access: Access) -> bool
    requires { at < 2 ^ 32 }
    ensures { result ≡ nat_le (at + (offset + access.bytes)) (length memory.now) }
{
    at + u64::from(offset) + u64::from(access.bytes) <= memory.length()
}

// A load within the memory.
#[inline(always)]
fn load_within(
    m: &Module,
    steps: u64,
    numbers: &mut Numbers,
    s: &mut Machine<u64>,
    memory: &Bytes,
    op: u8,
    offset: u32,
) -> Result<bool, AllocError>
    requires { (align : ℕ) × IsAtInstruction m.now steps numbers.old s.old memory.now (OneInstr.Load op align offset) }
    ensures { IfOk result (λ b. IsFastStep b m.now steps s.old memory.now numbers.new s.new memory.now) }
{
    let Some(access) = Access::load(op) else {
        return Ok(false);
    };
    let Some(w) = s.word(0, false) else {
        return Ok(false);
    };
    if !is_within(memory, w, offset, access) {
        return Ok(false);
    }
    s.note(0)?;
    s.note(w)?;
    Ok(gone_on(load(numbers, s, memory, op, offset)?))
}

// A store within the memory.
#[inline(always)]
fn store_within(
    m: &Module,
    steps: u64,
    numbers: &mut Numbers,
    s: &mut Machine<u64>,
    memory: &mut Bytes,
    op: u8,
    offset: u32,
) -> Result<bool, AllocError>
    requires { (align : ℕ) × IsAtInstruction m.now steps numbers.old s.old memory.old (OneInstr.Store op align offset) }
    ensures { IfOk result (λ b. IsFastStep b m.now steps s.old memory.old numbers.new s.new memory.new) }
{
    let Some(access) = Access::store(op) else {
        return Ok(false);
    };
    let Some(w) = s.word(1, false) else {
        return Ok(false);
    };
    if !is_within(memory, w, offset, access) {
        return Ok(false);
    }
    s.note(0)?;
    s.note(w)?;
    Ok(gone_on(store(numbers, s, memory, op, offset)?))
}
