// Instantiation and invocation (Execution, Modules): how a run begins.
ghost use Rattle.std.specs.Prelude.{◌≡◌, ◌<◌, ◌*◌, ◌^◌, List as Items, ℕ, All, IfOk, Some, length, map, replicate};
ghost use Rattle.wasm_rules.specs.Words.{Kept};
ghost use Rattle.wasm_image.specs.Sizes.{AreAtMost, most_pages};
ghost use Rattle.wasm_reduction.specs.Memories.{page_bytes};
ghost use Rattle.wasm_reduction.specs.Images.{value_image, values_image};
ghost use Rattle.wasm_reduction.specs.Instantiation.{argument, first_memory, first_config};
ghost use Rattle.wasm_start.specs.code.Starts.{AreByteValues, Instantiates, outermost_frame, first_state};
ghost use Rattle.wasm_start.specs.Starts.{BeginsAs, IsInOrder};
ghost use Rattle.wasm_machine.specs.Values.{value as value_as, ValueHeld, ValuesHeld};

use crate::allocation::{PlainStore, Stop, allocated};
use crate::segments::{start_datas, start_elems};
use std::alloc::{AllocError, Global};
use wasm_ast::{Module, Value as PlainValue};
use wasm_machine::machine::{Frame, Label, Machine};
use wasm_machine::memory::Memory;
use wasm_machine::values::{Reference, Value};
use wasm_rules::Algebra;

/// How a run begins: in a state, or at an end to which the instantiation comes.
#[derive(Drop)]
pub enum Begun<W: Copy> {
    Goes(Machine<W>),
    Ends(Stop),
}

// The store before the start function runs, whose memory is beside it.
fn instantiate<A: Algebra, M: Memory<A>>(
    alloc: Global,
    memory: &mut M,
    m: &Module,
) -> Result<Result<PlainStore, Stop>, AllocError>
    requires { M.cells memory.old ≡ map M.plain (first_memory m.now) }
    ensures { IfOk result (λ r. (c : Items ℕ) × (M.cells memory.new ≡ map M.plain c) × AreByteValues c × Instantiates m.now c r) }
{
    let Some(mut p) = allocated(alloc, m)? else {
        return Ok(Err(Stop::Stuck));
    };
    if let Err(stop) = start_elems(alloc, &mut p, m)? {
        return Ok(Err(stop));
    }
    if let Err(stop) = start_datas(alloc, &mut p, memory, m)? {
        return Ok(Err(stop));
    }
    Ok(Ok(p))
}

// A plain value as a value of words.
fn word_of<A: Algebra>(a: &mut A, v: PlainValue) -> Value<A::Word>
    ensures kept { Kept A.holds A.means a.old a.new }
    ensures held { ValueHeld (A.holds a.new) result }
    ensures means { value_as (A.means a.new) result ≡ value_image A.kind.number (argument v) }
{
    match v {
        PlainValue::I32(n) => Value::I32(a.constant(n as u64)),
        PlainValue::I64(n) => Value::I64(a.constant(n)),
        PlainValue::Func(f) => Value::Ref(Reference::Func(f)),
        PlainValue::Extern => Value::Ref(Reference::Extern),
    }
}

// Plain values as values of words.
fn words_of<A: Algebra>(
    alloc: Global,
    a: &mut A,
    values: &[PlainValue],
) -> Result<Vec<Value<A::Word>>, AllocError>
    ensures kept { Kept A.holds A.means a.old a.new }
    ensures held { IfOk result (λ v. ValuesHeld (A.holds a.new) v.items) }
    ensures means { IfOk result (λ v. map (value_as (A.means a.new)) v.items ≡ values_image A.kind.number (map argument values.now)) }
{
    let mut words = Vec::new(alloc);
    for v in values {
        let w = word_of(a, *v);
        words.push(w)?;
    }
    Ok(words)
}

// The outermost frame, at its beginning.
fn outermost() -> Frame
    ensures { result ≡ outermost_frame }
{
    let here = Label {
        seq: 0,
        place: 0,
        height: 0,
        arity: 0,
        again: false,
    };
    Frame {
        func: None,
        arity: 0,
        base: 0,
        labels: 0,
        floor: 0,
        here,
    }
}

/// How many pages the memory of a module has at the start, each of 65,536 bytes of 0.
pub fn memory_pages(m: &Module) -> u64
    requires few { length m.now.memories < 2 ^ 32 }
    requires small { AreAtMost most_pages m.now.memories }
    ensures { first_memory m.now ≡ replicate (result * page_bytes) 0 }
{
    let mut pages = 0;
    for limits in m.memories.as_slice() {
        pages += limits.min as u64;
    }
    pages
}

/// How the run of the function `entry` with these arguments begins, with its memory, whose cells have to be the bytes that the
/// module states, each of them 0: the state in which the start function, where there is one, is to be called and then the
/// entry; or the end to which the instantiation comes. The only error is that memory ran out.
/// (Execution, Modules: Instantiation and Invocation)
pub fn start<A: Algebra, M: Memory<A>>(
    alloc: Global,
    a: &mut A,
    memory: &mut M,
    m: &Module,
    entry: u32,
    args: &[PlainValue],
) -> Result<Begun<A::Word>, AllocError>
    requires { M.cells memory.old ≡ map M.plain (first_memory m.now) }
    ensures kept { Kept A.holds A.means a.old a.new }
    ensures begins { IfOk result (λ x. BeginsAs (A.means a.new) m.now (map (A.means a.new) (M.cells memory.new)) (first_config A.kind m.now entry args.now) x) }
    ensures order { IfOk result (λ x. IsInOrder A.holds a.new x) }
    ensures held { IfOk result (λ _. All (A.holds a.new) (M.cells memory.new)) }
{
    match instantiate(alloc, memory, m)? {
        Ok(p) => {
            let machine = machine_of(alloc, a, p, entry, args)?;
            Ok(Begun::Goes(machine))
        }
        Err(stop) => Ok(Begun::Ends(stop)),
    }
}

// The machine before its first step.
fn machine_of<A: Algebra>(
    alloc: Global,
    a: &mut A,
    p: PlainStore,
    entry: u32,
    args: &[PlainValue],
) -> Result<Machine<A::Word>, AllocError>
    ensures kept { Kept A.holds A.means a.old a.new }
    ensures operands { IfOk result (λ s. map (value_as (A.means a.new)) s.operands ≡ values_image A.kind.number (map argument args.now)) }
    ensures globals { IfOk result (λ s. map (value_as (A.means a.new)) s.globals ≡ values_image A.kind.number (map argument p.globals)) }
    ensures others { IfOk result (λ s. s ≡ first_state p entry s.operands s.globals) }
    ensures operands_held { IfOk result (λ s. ValuesHeld (A.holds a.new) s.operands) }
    ensures globals_held { IfOk result (λ s. ValuesHeld (A.holds a.new) s.globals) }
{
    let operands = words_of(alloc, a, args)?;
    let globals = words_of(alloc, a, p.globals.as_slice())?;
    Ok(Machine {
        operands,
        locals: Vec::new(alloc),
        labels: Vec::new(alloc),
        frame: outermost(),
        callers: Vec::new(alloc),
        globals,
        tables: p.tables,
        elems: p.elems,
        dropped: p.dropped,
        answers: Vec::new(alloc),
        units: 0,
        entry,
    })
}
