// Sections and modules (Binary Format, Modules).
ghost use Rattle.std.specs.Prelude.{◌≡◌, [], ◌∷◌, ◌++◌, OnOk};
ghost use Rattle.std.specs.List.{flat_map};
ghost use Rattle.owi_base.specs.Leb.{unsigned_bytes};
ghost use Rattle.wasm_ast.specs.Shape.{HasShape};
ghost use Rattle.wasm_write.specs.Values.{vec_bytes};
ghost use Rattle.wasm_write.specs.Modules.{id_of as id_of_slot, start_bytes, contents as contents_of, section_of, section_bytes, custom_section, sections};
ghost use Rattle.wasm_write.specs.Writing.{ArePut, custom_at, with_customs};

use crate::WriteBad;
use crate::values::{put_count, put_sized, put_vec};
use owi_base::leb::unsigned::put_u;
use std::alloc::{AllocError, Global};
use wasm_ast::sections::is_written;
use wasm_ast::{Custom, Func, List, Module};

// The slots of sections, in order.
const SLOTS: [u8; 12] = [1, 2, 3, 4, 5, 6, 7, 8, 9, 10, 11, 12];

fn id_of(slot: u8) -> u8
    ensures { result ≡ id_of_slot slot }
{
    match slot {
        10 => 12,
        11 => 10,
        12 => 11,
        _ => slot,
    }
}

// The indices of the functions' types.
fn put_type_indices(out: &mut Vec<u8>, list: &List<Func>) -> Result<(), AllocError>
    ensures { OnOk result (out.new.items ≡ out.old.items ++ vec_bytes (λ f. unsigned_bytes f.ty) list.now) }
{
    let funcs = list.as_slice();
    put_count(out, funcs.len())?;
    for func in funcs {
        put_u(out, u64::from(func.ty))?;
    }
    Ok(())
}

fn put_start(out: &mut Vec<u8>, start: Option<u32>) -> Result<(), AllocError>
    ensures { OnOk result (out.new.items ≡ out.old.items ++ start_bytes start) }
{
    match start {
        Some(func) => put_u(out, u64::from(func)),
        None => Ok(()),
    }
}

// What the section of a slot holds.
fn put_contents(alloc: Global, out: &mut Vec<u8>, m: &Module, slot: u8) -> Result<(), AllocError>
    requires { HasShape m.now }
    ensures { OnOk result (out.new.items ≡ out.old.items ++ contents_of m.now slot) }
{
    match slot {
        1 => put_vec(alloc, out, &m.types),
        2 => put_vec(alloc, out, &m.imports),
        3 => put_type_indices(out, &m.funcs),
        4 => put_vec(alloc, out, &m.tables),
        5 => put_vec(alloc, out, &m.memories),
        6 => put_vec(alloc, out, &m.globals),
        7 => put_vec(alloc, out, &m.exports),
        8 => put_start(out, m.start),
        9 => put_vec(alloc, out, &m.elems),
        10 => put_count(out, m.segments.len()),
        11 => put_vec(alloc, out, &m.funcs),
        _ => put_vec(alloc, out, &m.segments),
    }
}

fn put_short_section(out: &mut Vec<u8>, id: u8, contents: &[u8]) -> Result<(), AllocError>
    ensures { OnOk result (out.new.items ≡ out.old.items ++ section_bytes (record { id = id; contents = contents.now })) }
{
    out.push(id)?;
    put_sized(out, contents)
}

// A section of this id and these contents.
fn put_section(out: &mut Vec<u8>, id: u8, contents: &[u8]) -> Result<(), WriteBad>
    ensures { ArePut (record { id = id; contents = contents.now } ∷ []) out.old.items out.new.items result }
{
    if contents.len() >= 0x1_0000_0000 {
        return Err(WriteBad::TooLong(id));
    }
    put_short_section(out, id, contents)?;
    Ok(())
}

fn put_custom(alloc: Global, out: &mut Vec<u8>, custom: &Custom) -> Result<(), WriteBad>
    ensures { ArePut (custom_section custom.now ∷ []) out.old.items out.new.items result }
{
    let mut contents = Vec::new(alloc);
    put_sized(&mut contents, custom.name.as_slice().as_bytes())?;
    contents.extend_from_slice(custom.bytes.as_slice())?;
    put_section(out, 0, contents.as_slice())
}

// The section of a slot, where it is one that is written.
fn put_slot(alloc: Global, out: &mut Vec<u8>, m: &Module, slot: u8) -> Result<(), WriteBad>
    requires { HasShape m.now }
    ensures { ArePut (section_of m.now slot) out.old.items out.new.items result }
{
    if !is_written(m, slot) {
        return Ok(());
    }
    let mut contents = Vec::new(alloc);
    put_contents(alloc, &mut contents, m, slot)?;
    put_section(out, id_of(slot), contents.as_slice())
}

// A custom section, where it stands after this slot.
fn put_custom_at(
    alloc: Global,
    out: &mut Vec<u8>,
    custom: &Custom,
    slot: u8,
) -> Result<(), WriteBad>
    ensures { ArePut (custom_at slot custom.now) out.old.items out.new.items result }
{
    if custom.after != slot {
        return Ok(());
    }
    put_custom(alloc, out, custom)
}

// The custom sections that stand after a slot.
fn put_customs(
    alloc: Global,
    out: &mut Vec<u8>,
    list: &List<Custom>,
    slot: u8,
) -> Result<(), WriteBad>
    ensures { ArePut (flat_map (custom_at slot) list.now) out.old.items out.new.items result }
{
    let customs = list.as_slice();
    for custom in customs {
        match put_custom_at(alloc, out, custom, slot) {
            Ok(()) => {}
            Err(bad) => return Err(bad),
        }
    }
    Ok(())
}

// The section of a slot, and the custom sections that stand after it.
fn put_slot_and_customs(
    alloc: Global,
    out: &mut Vec<u8>,
    m: &Module,
    slot: u8,
) -> Result<(), WriteBad>
    requires { HasShape m.now }
    ensures { ArePut (with_customs m.now slot) out.old.items out.new.items result }
{
    match put_slot(alloc, out, m, slot) {
        Ok(()) => put_customs(alloc, out, &m.customs, slot),
        Err(bad) => Err(bad),
    }
}

// The sections of slots in a row, with the custom sections.
fn put_slots(alloc: Global, out: &mut Vec<u8>, m: &Module, slots: &[u8]) -> Result<(), WriteBad>
    requires { HasShape m.now }
    ensures { ArePut (flat_map (with_customs m.now) slots.now) out.old.items out.new.items result }
{
    for slot in slots {
        match put_slot_and_customs(alloc, out, m, *slot) {
            Ok(()) => {}
            Err(bad) => return Err(bad),
        }
    }
    Ok(())
}

// All sections.
pub(crate) fn put_sections(alloc: Global, out: &mut Vec<u8>, m: &Module) -> Result<(), WriteBad>
    requires { HasShape m.now }
    ensures { ArePut (sections m.now) out.old.items out.new.items result }
{
    match put_customs(alloc, out, &m.customs, 0) {
        Ok(()) => put_slots(alloc, out, m, &SLOTS),
        Err(bad) => Err(bad),
    }
}
