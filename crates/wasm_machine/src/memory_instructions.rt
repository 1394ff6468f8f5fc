// Memory instructions (Execution, Instructions: Memory Instructions).
ghost use Rattle.std.specs.Prelude.{◌≡◌, ℕ, ◌<◌, All, IfOk, length, option_map, slice_get};
ghost use Rattle.wasm_ast.specs.declared.modules.Module.{Module as OneModule};
ghost use Rattle.wasm_ast.specs.declared.instructions.Instr.{Instr};
ghost use Rattle.wasm_rules.specs.Words.{Kept};
ghost use Rattle.wasm_image.specs.Sizes.{most_pages};
ghost use Rattle.wasm_reduction.specs.Ranges.{growth_limit as growth_limit_of};
ghost use Rattle.wasm_machine.specs.Acts.{Ready, Acts, ActsOn};
ghost use Rattle.wasm_machine.specs.Stores.{CellsReady};

use crate::machine::Machine;
use crate::memory::Memory;
use crate::next::{End, Next, Question};
use crate::progress::{Progress, address_at, copy_at, fill_at, word};
use crate::ranges::{Growth, growing, growth_limit};
use crate::values::Value;
use std::alloc::AllocError;
use wasm_ast::{Cause, Module};
use wasm_rules::{Access, Algebra};

/// A load, by its opcode.
#[inline(always)]
pub fn load<A: Algebra, M: Memory<A>>(
    a: &mut A,
    s: &mut Machine<A::Word>,
    memory: &M,
    op: u8,
    offset: u32,
) -> Result<Next<A::Word>, AllocError>
    requires ready { Ready A.holds A.Has A.means a.old s.old }
    requires cells { CellsReady A.holds A.Has A.means a.old (M.cells memory.now) }
    ensures kept { Kept A.holds A.means a.old a.new }
    ensures acts { IfOk result (λ n. (m : OneModule) (align : ℕ) → ActsOn A.holds A.means A.kind m (Instr.Load op align offset)
        a.old s.old (M.cells memory.now) a.new s.new (M.cells memory.now) n) }
{
    let Some(access) = Access::load(op) else {
        return Ok(Next::Ends(End::Stuck));
    };
    let extent = u64::from(offset) + u64::from(access.bytes);
    match address_at(a, s, 0, extent, memory.length(), Cause::Memory)? {
        Progress::Stops(n) => Ok(n),
        Progress::At(at) => {
            let w = memory.load(a, op, at + u64::from(offset))?;
            s.pass();
            s.replace(1, Value::of_word(access.wide, w));
            Ok(Next::Goes)
        }
    }
}

/// A store, by its opcode.
#[inline(always)]
pub fn store<A: Algebra, M: Memory<A>>(
    a: &mut A,
    s: &mut Machine<A::Word>,
    memory: &mut M,
    op: u8,
    offset: u32,
) -> Result<Next<A::Word>, AllocError>
    requires ready { Ready A.holds A.Has A.means a.old s.old }
    requires cells { CellsReady A.holds A.Has A.means a.old (M.cells memory.old) }
    ensures kept { Kept A.holds A.means a.old a.new }
    ensures acts { IfOk result (λ n. (m : OneModule) (align : ℕ) → ActsOn A.holds A.means A.kind m (Instr.Store op align offset)
        a.old s.old (M.cells memory.old) a.new s.new (M.cells memory.new) n) }
{
    let Some(access) = Access::store(op) else {
        return Ok(Next::Ends(End::Stuck));
    };
    let Some(w) = word(a, s, 0, access.wide) else {
        return Ok(Next::Ends(End::Stuck));
    };
    let extent = u64::from(offset) + u64::from(access.bytes);
    match address_at(a, s, 1, extent, memory.length(), Cause::Memory)? {
        Progress::Stops(n) => Ok(n),
        Progress::At(at) => {
            memory.store(a, op, at + u64::from(offset), w)?;
            s.pass();
            s.discard(2);
            Ok(Next::Goes)
        }
    }
}

/// `memory.size`
pub fn memory_size<A: Algebra, M: Memory<A>>(
    a: &mut A,
    s: &mut Machine<A::Word>,
    memory: &M,
) -> Result<Next<A::Word>, AllocError>
    requires ready { Ready A.holds A.Has A.means a.old s.old }
    requires cells { CellsReady A.holds A.Has A.means a.old (M.cells memory.now) }
    ensures kept { Kept A.holds A.means a.old a.new }
    ensures acts { IfOk result (λ n. (m : OneModule) → ActsOn A.holds A.means A.kind m Instr.MemorySize
        a.old s.old (M.cells memory.now) a.new s.new (M.cells memory.now) n) }
{
    let w = a.constant(memory.length() / 65_536);
    s.pass();
    s.push(Value::I32(w))?;
    Ok(Next::Goes)
}

/// `memory.grow`: up to 1,024 pages, and no further than the maximum of the memory. Else nothing changes, and the answer is -1.
pub fn memory_grow<A: Algebra, M: Memory<A>>(
    a: &mut A,
    s: &mut Machine<A::Word>,
    memory: &mut M,
    m: &Module,
) -> Result<Next<A::Word>, AllocError>
    requires ready { Ready A.holds A.Has A.means a.old s.old }
    requires cells { CellsReady A.holds A.Has A.means a.old (M.cells memory.old) }
    ensures kept { Kept A.holds A.means a.old a.new }
    ensures acts { IfOk result (λ n. ActsOn A.holds A.means A.kind m.now Instr.MemoryGrow
        a.old s.old (M.cells memory.old) a.new s.new (M.cells memory.new) n) }
{
    let Some(most) = growth_bound(m) else {
        return Ok(Next::Ends(End::Stuck));
    };
    let Some(count) = word(a, s, 0, false) else {
        return Ok(Next::Ends(End::Stuck));
    };
    let pages = memory.length() / 65_536;
    match growing::<A>(&s.answers, count, pages, most) {
        Growth::Ask(w) => Ok(Next::Asks(Question::Pick, w)),
        Growth::Refused => {
            let w = a.constant(u64::from(u32::MAX));
            s.pass();
            s.replace(1, Value::I32(w));
            Ok(Next::Goes)
        }
        Growth::By(n) => {
            let w = a.constant(pages);
            memory.grow(n)?;
            s.pass();
            s.replace(1, Value::I32(w));
            Ok(Next::Goes)
        }
    }
}

/// `memory.fill`
pub fn memory_fill<A: Algebra, M: Memory<A>>(
    a: &mut A,
    s: &mut Machine<A::Word>,
    memory: &mut M,
) -> Result<Next<A::Word>, AllocError>
    requires ready { Ready A.holds A.Has A.means a.old s.old }
    requires cells { CellsReady A.holds A.Has A.means a.old (M.cells memory.old) }
    ensures kept { Kept A.holds A.means a.old a.new }
    ensures acts { IfOk result (λ n. (m : OneModule) → ActsOn A.holds A.means A.kind m Instr.MemoryFill
        a.old s.old (M.cells memory.old) a.new s.new (M.cells memory.new) n) }
{
    let Some(count) = word(a, s, 0, false) else {
        return Ok(Next::Ends(End::Stuck));
    };
    let Some(w) = word(a, s, 1, false) else {
        return Ok(Next::Ends(End::Stuck));
    };
    match fill_at(a, s, count, memory.length(), Cause::Memory)? {
        Progress::Stops(n) => Ok(n),
        Progress::At(range) => {
            let byte = a.byte(w, 0)?;
            memory.fill(range.to, range.count, byte)?;
            s.pass();
            s.discard(3);
            Ok(Next::Goes)
        }
    }
}

/// `memory.copy`
pub fn memory_copy<A: Algebra, M: Memory<A>>(
    a: &mut A,
    s: &mut Machine<A::Word>,
    memory: &mut M,
) -> Result<Next<A::Word>, AllocError>
    requires ready { Ready A.holds A.Has A.means a.old s.old }
    requires cells { CellsReady A.holds A.Has A.means a.old (M.cells memory.old) }
    ensures kept { Kept A.holds A.means a.old a.new }
    ensures acts { IfOk result (λ n. (m : OneModule) → ActsOn A.holds A.means A.kind m Instr.MemoryCopy
        a.old s.old (M.cells memory.old) a.new s.new (M.cells memory.new) n) }
{
    let size = memory.length();
    match copy_at(a, s, size, size, Cause::Memory)? {
        Progress::Stops(n) => Ok(n),
        Progress::At(range) => {
            memory.copy(range.to, range.from, range.count)?;
            s.pass();
            s.discard(3);
            Ok(Next::Goes)
        }
    }
}

/// `memory.init`: from the data segment x.
pub fn memory_init<A: Algebra, M: Memory<A>>(
    a: &mut A,
    s: &mut Machine<A::Word>,
    memory: &mut M,
    m: &Module,
    x: u32,
) -> Result<Next<A::Word>, AllocError>
    requires ready { Ready A.holds A.Has A.means a.old s.old }
    requires cells { CellsReady A.holds A.Has A.means a.old (M.cells memory.old) }
    ensures kept { Kept A.holds A.means a.old a.new }
    ensures acts { IfOk result (λ n. ActsOn A.holds A.means A.kind m.now (Instr.MemoryInit x)
        a.old s.old (M.cells memory.old) a.new s.new (M.cells memory.new) n) }
{
    let Some(bytes) = s.data(x, m) else {
        return Ok(Next::Ends(End::Stuck));
    };
    let source = bytes.len() as u64;
    match copy_at(a, s, memory.length(), source, Cause::Memory)? {
        Progress::Stops(n) => Ok(n),
        Progress::At(range) => {
            let from = range.from as usize;
            are_bytes(bytes);
            memory.write_bytes(range.to, &bytes[from..from + range.count as usize])?;
            s.pass();
            s.discard(3);
            Ok(Next::Goes)
        }
    }
}

/// `data.drop`
pub fn data_drop<A: Algebra>(a: &A, s: &mut Machine<A::Word>, x: u32) -> Next<A::Word>
    requires { Ready A.holds A.Has A.means a.now s.old }
    ensures { (m : OneModule) → Acts A.holds A.means A.kind m (Instr.DataDrop x) a.now s.old a.now s.new result }
{
    match s.is_dropped(x) {
        None => Next::Ends(End::Stuck),
        Some(_) => {
            s.pass();
            s.drop_data(x);
            Next::Goes
        }
    }
}

// Up to how many pages the memory of the module's own may grow.
fn growth_bound(m: &Module) -> Option<u64>
    ensures { result ≡ option_map (λ l. growth_limit_of l.max most_pages) (slice_get m.now.memories 0) }
{
    let limits = m.memories.as_slice().first()?;
    Some(growth_limit(limits.max, 1_024))
}

// Each byte is below 256.
fn are_bytes(bytes: &[u8])
    ensures { All (λ b. b < 256) bytes.now }
{
    let _ = bytes;
}
