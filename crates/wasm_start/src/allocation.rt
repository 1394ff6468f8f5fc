// Allocation (Execution, Modules: Allocation): the store before any segment is written.
ghost use Rattle.std.specs.Prelude.{IfOk, IfSome, map, replicate, option_map};
ghost use Rattle.wasm_reduction.specs.Instantiation.{argument, reference_in, all_of, first_globals as globals_of, first_elems as elems_of, first_tables as tables_of, first_memory, allocated as allocated_of};
ghost use Rattle.wasm_reduction.specs.Tables.{null_of};
ghost use Rattle.wasm_start.specs.code.Starts.{Represents, store_with, HasSegments};
ghost use Rattle.wasm_machine.specs.Values.{reference as reference_as};

use crate::constants::{null, reference_of, value_of};
use std::alloc::{AllocError, Global};
use std::marker::Model;
use wasm_ast::{Cause, Expr, Module, TableType, Value};
use wasm_machine::values::Reference;

/// Why a module can't be instantiated.
#[derive(Clone, Copy)]
pub enum Stop {
    /// An active segment passes the end of its table or memory.
    Traps(Cause),
    /// The standard has no rule. Valid modules never come to it.
    Stuck,
}

/// A module's store but for its memory, on plain values.
#[derive(Drop)]
pub(crate) struct PlainStore {
    pub(crate) globals: Vec<Value>,
    pub(crate) tables: Vec<Vec<Reference>>,
    pub(crate) elems: Vec<Vec<Reference>>,
    pub(crate) dropped: Vec<bool>,
}

impl Model for PlainStore {
    ghost use Rattle.std.specs.Prelude.{map};
    ghost use Rattle.wasm_start.specs.code.Starts.{PlainStore as OneStore};

    ghost Value = { OneStore };

    ghost view = { λ p. record {
      globals = p.globals.items;
      tables = map (λ t. t.items) p.tables.items;
      elems = map (λ t. t.items) p.elems.items;
      dropped = p.dropped.items;
    } };
}

// The values of the globals as they begin, each in view of those before it.
fn first_globals(alloc: Global, m: &Module) -> Result<Option<Vec<Value>>, AllocError>
    ensures { IfOk result (λ told. Represents (λ v. map argument v.items) (globals_of m.now) told) }
{
    let mut globals = Vec::new(alloc);
    for global in m.globals.as_slice() {
        let Some(v) = value_of(alloc, globals.as_slice(), &global.init)? else {
            return Ok(None);
        };
        globals.push(v)?;
    }
    Ok(Some(globals))
}

// The references that these expressions give.
fn references_of(
    alloc: Global,
    globals: &[Value],
    items: &[Expr],
) -> Result<Option<Vec<Reference>>, AllocError>
    ensures { IfOk result (λ told. Represents (λ v. map reference_as v.items) (all_of (map (reference_in (map argument globals.now)) items.now)) told) }
{
    let mut references = Vec::new(alloc);
    for item in items {
        let Some(r) = reference_of(alloc, globals, item)? else {
            return Ok(None);
        };
        references.push(r)?;
    }
    Ok(Some(references))
}

// The references of each element segment.
fn first_elems(
    alloc: Global,
    m: &Module,
    globals: &[Value],
) -> Result<Option<Vec<Vec<Reference>>>, AllocError>
    ensures { IfOk result (λ told. Represents (λ v. map (λ t. map reference_as t.items) v.items) (elems_of m.now (map argument globals.now)) told) }
{
    let mut elems = Vec::new(alloc);
    for elem in m.elems.as_slice() {
        let Some(references) = references_of(alloc, globals, elem.items.as_slice())? else {
            return Ok(None);
        };
        elems.push(references)?;
    }
    Ok(Some(elems))
}

// A table of nulls.
fn table_of(alloc: Global, ty: TableType) -> Result<Option<Vec<Reference>>, AllocError>
    ensures { IfOk result (λ told. Represents (λ v. map reference_as v.items) (option_map (replicate ty.limits.min) (null_of ty.kind)) told) }
{
    let Some(null) = null(ty.kind) else {
        return Ok(None);
    };
    let mut table = Vec::new(alloc);
    table.resize(ty.limits.min as usize, null)?;
    Ok(Some(table))
}

// The tables, of nulls.
fn first_tables(alloc: Global, m: &Module) -> Result<Option<Vec<Vec<Reference>>>, AllocError>
    ensures { IfOk result (λ told. Represents (λ v. map (λ t. map reference_as t.items) v.items) (tables_of m.now) told) }
{
    let mut tables = Vec::new(alloc);
    for ty in m.tables.as_slice() {
        let Some(table) = table_of(alloc, *ty)? else {
            return Ok(None);
        };
        tables.push(table)?;
    }
    Ok(Some(tables))
}

// The store before any segment is written, but for its memory.
pub(crate) fn allocated(alloc: Global, m: &Module) -> Result<Option<PlainStore>, AllocError>
    ensures told { IfOk result (λ told. Represents (λ p. store_with m.now (first_memory m.now) p) (allocated_of m.now) told) }
    ensures counts { IfOk result (λ told. IfSome told (λ p. HasSegments m.now p)) }
{
    let Some(globals) = first_globals(alloc, m)? else {
        return Ok(None);
    };
    let Some(elems) = first_elems(alloc, m, globals.as_slice())? else {
        return Ok(None);
    };
    let Some(tables) = first_tables(alloc, m)? else {
        return Ok(None);
    };
    let mut dropped = Vec::new(alloc);
    dropped.resize(m.segments.len(), false)?;
    Ok(Some(PlainStore {
        globals,
        tables,
        elems,
        dropped,
    }))
}
