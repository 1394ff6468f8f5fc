// The module of all sections (Binary Format, Modules).
ghost use Rattle.std.specs.Prelude.{◌≡◌, ℕ, ◌-◌, ◌≤◌, map, IfOk, slice_index};
ghost use Rattle.std.specs.List.{zip};
ghost use Rattle.wasm_binary.specs.Locals.{Code as OneCode};
ghost use Rattle.wasm_binary.specs.Modules.{funcs_of as funcs_by, last_written, settled as settled_custom, module_of as module_by};

use crate::codes::Code;
use crate::sections::Sections;
use std::alloc::{AllocError, Global};
use wasm_ast::sections::is_written;
use wasm_ast::{Custom, Func, List, Module};

// A function of this type with this code.
fn func_of(ty: u32, code: Code) -> Func
    ensures { result ≡ record { ty = ty; locals = code.locals; body = code.body } }
{
    let Code { locals, body } = code;
    Func { ty, locals, body }
}

// A function of each type with the code at its place.
fn pair_up(alloc: Global, types: &[u32], codes: Vec<Code>) -> Result<Vec<Func>, AllocError>
    ensures { IfOk result (λ funcs. funcs.items
        ≡ map (λ (p : ℕ × OneCode). record { ty = p.0; locals = p.1.locals; body = p.1.body }) (zip types.now codes.items)) }
{
    types
        .iter()
        .zip(codes)
        .map(|(ty, code)| func_of(*ty, code))
        .collect(alloc)
}

// The functions of these types and codes.
fn funcs_of(alloc: Global, types: &[u32], codes: Vec<Code>) -> Result<List<Func>, AllocError>
    ensures { IfOk result (λ funcs. funcs ≡ funcs_by types.now codes.items) }
{
    let funcs = pair_up(alloc, types, codes)?;
    Ok(List::new(funcs))
}

// The last slot up to this one whose section is written, where it is known for the slot before it.
fn last_up_to(m: &Module, slot: u8, before: u8) -> u8
    requires some { 1 ≤ slot }
    requires known { before ≡ last_written m.now (slot - 1) }
    ensures { result ≡ last_written m.now slot }
{
    if is_written(m, slot) { slot } else { before }
}

// For each slot up to 12 the last slot up to it whose section is written; 0 where there is none.
fn last_slots(m: &Module) -> [u8; 13]
    ensures { (slot : ℕ) → slot ≤ 12 → slice_index result slot ≡ last_written m.now slot }
{
    let mut lasts = [0; 13];
    for slot in 1..13 {
        let before = lasts[slot as usize - 1];
        lasts[slot as usize] = last_up_to(m, slot, before);
    }
    lasts
}

// A custom section after the last section before it that is written.
fn settled(m: &Module, lasts: &[u8; 13], custom: Custom) -> Custom
    requires { (slot : ℕ) → slot ≤ 12 → slice_index lasts.now slot ≡ last_written m.now slot }
    ensures { result ≡ settled_custom m.now custom }
{
    let mut custom = custom;
    custom.after = lasts[custom.after.min(12) as usize];
    custom
}

// The custom sections, each after the last section before it that is written.
fn settle(alloc: Global, m: &Module, customs: Vec<Custom>) -> Result<Vec<Custom>, AllocError>
    ensures { IfOk result (λ v. v.items ≡ map (settled_custom m.now) customs.items) }
{
    let lasts = last_slots(m);
    customs
        .into_iter()
        .map(|custom| settled(m, &lasts, custom))
        .collect(alloc)
}

/// The module of all sections. No code is copied.
pub(crate) fn module_of(alloc: Global, sections: Sections) -> Result<Module, AllocError>
    ensures { IfOk result (λ m. m ≡ module_by sections) }
{
    let Sections {
        slot: _,
        types,
        imports,
        type_indices,
        tables,
        memories,
        globals,
        exports,
        start,
        elems,
        data_count: _,
        codes,
        segments,
        customs,
    } = sections;
    let funcs = funcs_of(alloc, type_indices.as_slice(), codes)?;
    let mut module = Module {
        types,
        imports,
        funcs,
        tables,
        memories,
        globals,
        exports,
        start,
        elems,
        segments,
        customs: List::new(Vec::new(alloc)),
    };
    module.customs = List::new(settle(alloc, &module, customs)?);
    Ok(module)
}
