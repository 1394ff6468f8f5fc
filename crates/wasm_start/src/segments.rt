// Segments (Execution, Modules: Instantiation): each is written to its table or to the memory, in order.
ghost use Rattle.std.specs.Prelude.{◌≡◌, ◌<◌, ◌≤◌, ◌+◌, List as Items, ℕ, All, IfOk, Some, nat_lt, length, slice_get};
ghost use Rattle.wasm_ast.specs.declared.modules.Module.{Module as OneModule};
ghost use Rattle.wasm_ast.specs.declared.modules.Mode.{Mode as OneMode};
ghost use Rattle.wasm_reduction.specs.Combinators.{written};
ghost use Rattle.wasm_reduction.specs.Instantiation.{start_elem as elem_started, start_elems as elems_started, start_data as data_started, start_datas as datas_started};
ghost use Rattle.wasm_machine.specs.Configurations.{datas_of};
ghost use Rattle.wasm_start.specs.code.Starts.{store_with, Writes, FromBytes};

use crate::allocation::{PlainStore, Stop};
use crate::constants::offset_of;
use std::alloc::{AllocError, Global};
use wasm_ast::{Cause, Expr, Mode, Module};
use wasm_machine::memory::Memory;
use wasm_machine::values::Reference;
use wasm_rules::Algebra;

// References are written over those of a table, from a place on.
fn overwrite(table: &mut [Reference], place: usize, references: &[Reference])
    requires { place + length references.now ≤ length table.old }
    ensures { table.new ≡ written place references.now table.old }
{
    table[place..place + references.len()].copy_from_slice(references);
}

// Whether so many entries from a place on pass the end.
fn passes(place: u64, count: usize, size: u64) -> bool
    ensures { result ≡ nat_lt size (place + count) }
{
    place > size || count as u64 > size - place
}

// The element segment k, of this mode.
fn start_elem(
    alloc: Global,
    p: &mut PlainStore,
    k: usize,
    mode: &Mode,
) -> Result<Result<(), Stop>, AllocError>
    requires { k < length p.old.elems }
    ensures writes { IfOk result (λ r. (m : OneModule) (b : Items ℕ) → Writes (elem_started k mode.now (store_with m b p.old)) (store_with m b p.new) r) }
    ensures count { length p.new.elems ≡ length p.old.elems }
    ensures dropped { p.new.dropped ≡ p.old.dropped }
{
    match mode {
        Mode::Passive => Ok(Ok(())),
        Mode::Declared => {
            p.elems[k].clear();
            Ok(Ok(()))
        }
        Mode::Active { index, offset } => Ok(write_elem(alloc, p, k, *index, offset)?),
    }
}

// The active element segment k, which is written into the table x.
fn write_elem(
    alloc: Global,
    p: &mut PlainStore,
    k: usize,
    x: u32,
    offset: &Expr,
) -> Result<Result<(), Stop>, AllocError>
    requires { k < length p.old.elems }
    ensures writes { IfOk result (λ r. (m : OneModule) (b : Items ℕ) → Writes (elem_started k (OneMode.Active x offset.now) (store_with m b p.old)) (store_with m b p.new) r) }
    ensures count { length p.new.elems ≡ length p.old.elems }
    ensures dropped { p.new.dropped ≡ p.old.dropped }
{
    let Some(place) = offset_of(alloc, p.globals.as_slice(), offset)? else {
        return Ok(Err(Stop::Stuck));
    };
    let x = x as usize;
    if x >= p.tables.len() {
        return Ok(Err(Stop::Stuck));
    }
    if passes(
        place as u64,
        p.elems[k].as_slice().len(),
        p.tables[x].as_slice().len() as u64,
    ) {
        return Ok(Err(Stop::Traps(Cause::Table)));
    }
    overwrite(&mut p.tables[x], place as usize, p.elems[k].as_slice());
    p.elems[k].clear();
    Ok(Ok(()))
}

// The element segments, in order.
pub(crate) fn start_elems(
    alloc: Global,
    p: &mut PlainStore,
    m: &Module,
) -> Result<Result<(), Stop>, AllocError>
    requires { length p.old.elems ≡ length m.now.elems }
    ensures writes { IfOk result (λ r. (b : Items ℕ) → Writes (elems_started 0 m.now.elems (store_with m.now b p.old)) (store_with m.now b p.new) r) }
    ensures dropped { p.new.dropped ≡ p.old.dropped }
{
    for k in 0..m.elems.len() {
        if let Err(stop) = start_elem(alloc, p, k, &m.elems.get(k).mode)? {
            return Ok(Err(stop));
        }
    }
    Ok(Ok(()))
}

// Whether the data segment k is dropped.
fn mark(dropped: &[bool], k: usize) -> Option<bool>
    ensures { result ≡ slice_get dropped.now k }
{
    dropped.get(k).copied()
}

// The bytes of the data segment k.
fn data_of<'m>(dropped: &[bool], k: usize, m: &'m Module) -> &'m [u8]
    requires within { k < length dropped.now }
    requires there { k < length m.now.segments }
    ensures { slice_get (datas_of dropped.now m.now.segments) k ≡ Some result.now }
{
    let Some(gone) = mark(dropped, k) else {
        unreachable!()
    };
    if gone {
        return &[];
    }
    m.segments.get(k).bytes.as_slice()
}

// Bytes are below 256.
fn see_bytes(bytes: &[u8])
    ensures { All (λ b. b < 256) bytes.now }
{}

// The data segment k, of this mode.
fn start_data<A: Algebra, M: Memory<A>>(
    alloc: Global,
    p: &mut PlainStore,
    memory: &mut M,
    k: usize,
    m: &Module,
    mode: &Mode,
) -> Result<Result<(), Stop>, AllocError>
    requires there { k < length m.now.segments }
    requires count { length p.old.dropped ≡ length m.now.segments }
    ensures writes { IfOk result (λ r. FromBytes M.plain (M.cells memory.old) (M.cells memory.new)
        (λ b c. Writes (data_started k mode.now (store_with m.now b p.old)) (store_with m.now c p.new) r)) }
    ensures counted { IfOk result (λ _. length p.new.dropped ≡ length m.now.segments) }
{
    match mode {
        Mode::Active { offset, .. } => Ok(write_data(alloc, p, memory, k, m, offset)?),
        _ => Ok(Ok(())),
    }
}

// The active data segment k.
fn write_data<A: Algebra, M: Memory<A>>(
    alloc: Global,
    p: &mut PlainStore,
    memory: &mut M,
    k: usize,
    m: &Module,
    offset: &Expr,
) -> Result<Result<(), Stop>, AllocError>
    requires there { k < length m.now.segments }
    requires count { length p.old.dropped ≡ length m.now.segments }
    ensures writes { IfOk result (λ r. (x : ℕ) → FromBytes M.plain (M.cells memory.old) (M.cells memory.new)
        (λ b c. Writes (data_started k (OneMode.Active x offset.now) (store_with m.now b p.old)) (store_with m.now c p.new) r)) }
    ensures counted { IfOk result (λ _. length p.new.dropped ≡ length m.now.segments) }
{
    let Some(place) = offset_of(alloc, p.globals.as_slice(), offset)? else {
        return Ok(Err(Stop::Stuck));
    };
    let bytes = data_of(p.dropped.as_slice(), k, m);
    see_bytes(bytes);
    if passes(place as u64, bytes.len(), memory.length()) {
        return Ok(Err(Stop::Traps(Cause::Memory)));
    }
    memory.write_bytes(place as u64, bytes)?;
    p.dropped[k] = true;
    Ok(Ok(()))
}

// The data segments, in order.
pub(crate) fn start_datas<A: Algebra, M: Memory<A>>(
    alloc: Global,
    p: &mut PlainStore,
    memory: &mut M,
    m: &Module,
) -> Result<Result<(), Stop>, AllocError>
    requires { length p.old.dropped ≡ length m.now.segments }
    ensures writes { IfOk result (λ r. FromBytes M.plain (M.cells memory.old) (M.cells memory.new)
        (λ b c. Writes (datas_started 0 m.now.segments (store_with m.now b p.old)) (store_with m.now c p.new) r)) }
{
    for k in 0..m.segments.len() {
        if let Err(stop) = start_data(alloc, p, memory, k, m, &m.segments.get(k).mode)? {
            return Ok(Err(stop));
        }
    }
    Ok(Ok(()))
}
