// The first fault of a module outside its functions' bodies.
ghost use Rattle.std.specs.Prelude.{◌≡◌, ◌≢◌, ◌↔◌, ◌<◌, ◌^◌, IsTrue, IfOk, MatchOption, length};
ghost use Rattle.wasm_check.specs.declared.sections.Section.TheVariants.{Imports, Functions, Tables, Memories, Globals, Exports, Start, Elements, Code, Data};
ghost use Rattle.wasm_check.specs.Modules.{EntryIsValid, SectionIsValid};
ghost use Rattle.wasm_check.specs.Faults.{IsFirstOf};
ghost use Rattle.wasm_check.specs.Spaces.{AreSpacesOf};
ghost use Rattle.wasm_check.specs.code.Sections.{section_size as section_size_of};

use crate::entries::{
    elem_is_valid, func_is_valid, global_is_valid, import_is_valid, memory_is_valid,
    segment_is_valid, start_is_valid,
};
use crate::exports::first_invalid_export;
use crate::limits::is_table_type;
use crate::sections::Section;
use crate::spaces::Spaces;
use std::alloc::{AllocError, Global};
use wasm_ast::Module;

fn import_entry(m: &Module, k: usize) -> bool
    requires { k < length m.now.imports }
    ensures { IsTrue result ↔ EntryIsValid m.now Imports k }
{
    let import = m.imports.get(k);
    import_is_valid(m, k, import.kind)
}

fn func_entry(m: &Module, k: usize) -> bool
    requires { k < length m.now.funcs }
    ensures { IsTrue result ↔ EntryIsValid m.now Functions k }
{
    let func = m.funcs.get(k);
    func_is_valid(m, func.ty)
}

fn table_entry(m: &Module, k: usize) -> bool
    requires { k < length m.now.tables }
    ensures { IsTrue result ↔ EntryIsValid m.now Tables k }
{
    let table = m.tables.get(k);
    is_table_type(*table)
}

fn memory_entry(m: &Module, k: usize) -> bool
    requires { k < length m.now.memories }
    ensures { IsTrue result ↔ EntryIsValid m.now Memories k }
{
    let memory = m.memories.get(k);
    memory_is_valid(m, k, *memory)
}

fn global_entry(m: &Module, spaces: &Spaces, k: usize) -> bool
    requires spaces { AreSpacesOf m.now spaces.now }
    requires here { k < length m.now.globals }
    ensures { IsTrue result ↔ EntryIsValid m.now Globals k }
{
    let global = m.globals.get(k);
    global_is_valid(m, spaces, k, global)
}

fn elem_entry(m: &Module, spaces: &Spaces, k: usize) -> bool
    requires spaces { AreSpacesOf m.now spaces.now }
    requires here { k < length m.now.elems }
    ensures { IsTrue result ↔ EntryIsValid m.now Elements k }
{
    let elem = m.elems.get(k);
    elem_is_valid(m, spaces, elem)
}

fn data_entry(m: &Module, spaces: &Spaces, k: usize) -> bool
    requires spaces { AreSpacesOf m.now spaces.now }
    requires here { k < length m.now.segments }
    ensures { IsTrue result ↔ EntryIsValid m.now Data k }
{
    let segment = m.segments.get(k);
    segment_is_valid(m, spaces, segment)
}

fn start_entry(m: &Module, spaces: &Spaces) -> bool
    requires { AreSpacesOf m.now spaces.now }
    ensures { IsTrue result ↔ EntryIsValid m.now Start 0 }
{
    match m.start {
        None => true,
        Some(x) => start_is_valid(m, spaces, x),
    }
}

fn entry_is_valid(m: &Module, spaces: &Spaces, s: Section, k: usize) -> bool
    requires spaces { AreSpacesOf m.now spaces.now }
    requires here { k < section_size_of m.now s }
    requires field { s ≢ Code }
    requires other { s ≢ Exports }
    ensures { IsTrue result ↔ EntryIsValid m.now s k }
{
    match s {
        Section::Imports => import_entry(m, k),
        Section::Functions => func_entry(m, k),
        Section::Tables => table_entry(m, k),
        Section::Memories => memory_entry(m, k),
        Section::Globals => global_entry(m, spaces, k),
        Section::Exports => unreachable!(),
        Section::Start => start_entry(m, spaces),
        Section::Elements => elem_entry(m, spaces, k),
        Section::Code => unreachable!(),
        Section::Data => data_entry(m, spaces, k),
    }
}

fn section_size(m: &Module, s: Section) -> usize
    ensures { result ≡ section_size_of m.now s }
{
    match s {
        Section::Imports => m.imports.len(),
        Section::Functions => m.funcs.len(),
        Section::Tables => m.tables.len(),
        Section::Memories => m.memories.len(),
        Section::Globals => m.globals.len(),
        Section::Exports => m.exports.len(),
        Section::Start => 1,
        Section::Elements => m.elems.len(),
        Section::Code => m.funcs.len(),
        Section::Data => m.segments.len(),
    }
}

// The first entry that isn't valid, of a section whose entries are judged alone.
fn first_entry(m: &Module, spaces: &Spaces, s: Section) -> Option<u32>
    requires spaces { AreSpacesOf m.now spaces.now }
    requires field { s ≢ Code }
    requires other { s ≢ Exports }
    requires short { section_size_of m.now s < 2 ^ 32 }
    ensures { MatchOption result (SectionIsValid m.now s) (IsFirstOf m.now s) }
{
    for k in 0..section_size(m, s) {
        if !entry_is_valid(m, spaces, s, k) {
            return Some(k as u32);
        }
    }
    None
}

/// The first entry of the section that isn't valid. Bodies aren't looked at.
pub fn first_invalid(
    alloc: Global,
    m: &Module,
    spaces: &Spaces,
    s: Section,
) -> Result<Option<u32>, AllocError>
    requires spaces { AreSpacesOf m.now spaces.now }
    requires field { s ≢ Code }
    requires short { section_size_of m.now s < 2 ^ 32 }
    ensures { IfOk result (λ r. MatchOption r (SectionIsValid m.now s) (IsFirstOf m.now s)) }
{
    match s {
        Section::Exports => Ok(first_invalid_export(alloc, m, spaces)?),
        _ => Ok(first_entry(m, spaces, s)),
    }
}
