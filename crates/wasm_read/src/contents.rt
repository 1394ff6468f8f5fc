// The contents of a section, by its id (Binary Format, Modules: Sections).
ghost use Rattle.std.specs.Prelude.{◌≤◌, [], ◌∷◌, ◌++◌, length, IfOk, Some};
ghost use Rattle.wasm_binary.specs.Types.{func_type, table_type, limits};
ghost use Rattle.wasm_binary.specs.SectionEntries.{import as import_form, global as global_form, export as export_form, elem as elem_form};
ghost use Rattle.wasm_binary.specs.Values.{u32 as u32_form, vec};
ghost use Rattle.wasm_binary.specs.Modules.{into, custom, code_section, data_section, contents as contents_by_id};
ghost use Rattle.wasm_binary.specs.Modules.{same_count, same_as_announced};
ghost use Rattle.grammar_forms.specs.Forms.{checked};
ghost use Rattle.wasm_read.specs.Views.{Agrees};

use crate::bad::ReadBad;
use crate::customs::read_custom;
use crate::entries::{read_many, read_vec};
use crate::entries_by::read_many_by;
use crate::numbers::read_u32;
use crate::sections::Sections;
use crate::views::View;
use std::alloc::Global;

// A custom section of this length.
fn read_custom_section(
    alloc: Global,
    view: &View,
    at: usize,
    sections: Sections,
    len: u32,
) -> Result<(Sections, usize), ReadBad>
    requires { at ≤ length view.now.bytes }
    ensures agrees { Agrees ((into (custom sections.slot len) (λ x. record sections { customs = sections.customs ++ x ∷ [] })).read view.now at) result }
    ensures within { IfOk result (λ x. x.1 ≤ length view.now.bytes) }
{
    let mut sections = sections;
    let (custom, at) = read_custom(alloc, view, at, sections.slot, len)?;
    sections.customs.push(custom)?;
    Ok((sections, at))
}

// The types.
fn read_types(
    alloc: Global,
    view: &View,
    at: usize,
    sections: Sections,
) -> Result<(Sections, usize), ReadBad>
    requires { at ≤ length view.now.bytes }
    ensures agrees { Agrees ((into (vec func_type) (λ xs. record sections { slot = 1; types = xs })).read view.now at) result }
    ensures within { IfOk result (λ x. x.1 ≤ length view.now.bytes) }
{
    let mut sections = sections;
    let (types, at) = read_vec(alloc, view, at)?;
    sections.slot = 1;
    sections.types = types;
    Ok((sections, at))
}

// The imports.
fn read_imports(
    alloc: Global,
    view: &View,
    at: usize,
    sections: Sections,
) -> Result<(Sections, usize), ReadBad>
    requires { at ≤ length view.now.bytes }
    ensures agrees { Agrees ((into (vec import_form) (λ xs. record sections { slot = 2; imports = xs })).read view.now at) result }
    ensures within { IfOk result (λ x. x.1 ≤ length view.now.bytes) }
{
    let mut sections = sections;
    let (imports, at) = read_vec(alloc, view, at)?;
    sections.slot = 2;
    sections.imports = imports;
    Ok((sections, at))
}

// The types of the functions.
fn read_type_indices(
    alloc: Global,
    view: &View,
    at: usize,
    sections: Sections,
) -> Result<(Sections, usize), ReadBad>
    requires { at ≤ length view.now.bytes }
    ensures agrees { Agrees ((into (vec u32_form) (λ xs. record sections { slot = 3; type_indices = xs })).read view.now at) result }
    ensures within { IfOk result (λ x. x.1 ≤ length view.now.bytes) }
{
    let mut sections = sections;
    let (type_indices, at) = read_vec(alloc, view, at)?;
    sections.slot = 3;
    sections.type_indices = type_indices;
    Ok((sections, at))
}

// The tables.
fn read_tables(
    alloc: Global,
    view: &View,
    at: usize,
    sections: Sections,
) -> Result<(Sections, usize), ReadBad>
    requires { at ≤ length view.now.bytes }
    ensures agrees { Agrees ((into (vec table_type) (λ xs. record sections { slot = 4; tables = xs })).read view.now at) result }
    ensures within { IfOk result (λ x. x.1 ≤ length view.now.bytes) }
{
    let mut sections = sections;
    let (tables, at) = read_vec(alloc, view, at)?;
    sections.slot = 4;
    sections.tables = tables;
    Ok((sections, at))
}

// The memories.
fn read_memories(
    alloc: Global,
    view: &View,
    at: usize,
    sections: Sections,
) -> Result<(Sections, usize), ReadBad>
    requires { at ≤ length view.now.bytes }
    ensures agrees { Agrees ((into (vec limits) (λ xs. record sections { slot = 5; memories = xs })).read view.now at) result }
    ensures within { IfOk result (λ x. x.1 ≤ length view.now.bytes) }
{
    let mut sections = sections;
    let (memories, at) = read_vec(alloc, view, at)?;
    sections.slot = 5;
    sections.memories = memories;
    Ok((sections, at))
}

// The globals.
fn read_globals(
    alloc: Global,
    view: &View,
    at: usize,
    sections: Sections,
) -> Result<(Sections, usize), ReadBad>
    requires { at ≤ length view.now.bytes }
    ensures agrees { Agrees ((into (vec global_form) (λ xs. record sections { slot = 6; globals = xs })).read view.now at) result }
    ensures within { IfOk result (λ x. x.1 ≤ length view.now.bytes) }
{
    let mut sections = sections;
    let (globals, at) = read_vec(alloc, view, at)?;
    sections.slot = 6;
    sections.globals = globals;
    Ok((sections, at))
}

// The exports.
fn read_exports(
    alloc: Global,
    view: &View,
    at: usize,
    sections: Sections,
) -> Result<(Sections, usize), ReadBad>
    requires { at ≤ length view.now.bytes }
    ensures agrees { Agrees ((into (vec export_form) (λ xs. record sections { slot = 7; exports = xs })).read view.now at) result }
    ensures within { IfOk result (λ x. x.1 ≤ length view.now.bytes) }
{
    let mut sections = sections;
    let (exports, at) = read_vec(alloc, view, at)?;
    sections.slot = 7;
    sections.exports = exports;
    Ok((sections, at))
}

// The function that runs when the module starts.
fn read_start(view: &View, at: usize, sections: Sections) -> Result<(Sections, usize), ReadBad>
    requires { at ≤ length view.now.bytes }
    ensures agrees { Agrees ((into u32_form (λ x. record sections { slot = 8; start = Some x })).read view.now at) result }
    ensures within { IfOk result (λ x. x.1 ≤ length view.now.bytes) }
{
    let mut sections = sections;
    let (start, at) = read_u32(view, at)?;
    sections.slot = 8;
    sections.start = Some(start);
    Ok((sections, at))
}

// The element segments.
fn read_elems(
    alloc: Global,
    view: &View,
    at: usize,
    sections: Sections,
) -> Result<(Sections, usize), ReadBad>
    requires { at ≤ length view.now.bytes }
    ensures agrees { Agrees ((into (vec elem_form) (λ xs. record sections { slot = 9; elems = xs })).read view.now at) result }
    ensures within { IfOk result (λ x. x.1 ≤ length view.now.bytes) }
{
    let mut sections = sections;
    let (elems, at) = read_vec(alloc, view, at)?;
    sections.slot = 9;
    sections.elems = elems;
    Ok((sections, at))
}

// How many data segments are announced.
fn read_data_count(view: &View, at: usize, sections: Sections) -> Result<(Sections, usize), ReadBad>
    requires { at ≤ length view.now.bytes }
    ensures agrees { Agrees ((into u32_form (λ x. record sections { slot = 10; data_count = Some x })).read view.now at) result }
    ensures within { IfOk result (λ x. x.1 ≤ length view.now.bytes) }
{
    let mut sections = sections;
    let (count, at) = read_u32(view, at)?;
    sections.slot = 10;
    sections.data_count = Some(count);
    Ok((sections, at))
}

// How many codes there are: as many as functions.
fn read_code_count(view: &View, at: usize, funcs: usize) -> Result<(u32, usize), ReadBad>
    requires { at ≤ length view.now.bytes }
    ensures agrees { Agrees ((checked u32_form (same_count funcs)).read view.now at) result }
    ensures within { IfOk result (λ x. x.1 ≤ length view.now.bytes) }
{
    let (count, next) = read_u32(view, at)?;
    if count as usize == funcs {
        Ok((count, next))
    } else {
        Err(ReadBad::Count {
            left: funcs as u64,
            right: count as u64,
            at: at as u64,
        })
    }
}

// The codes of the functions.
fn read_codes(
    alloc: Global,
    view: &View,
    at: usize,
    sections: Sections,
) -> Result<(Sections, usize), ReadBad>
    requires { at ≤ length view.now.bytes }
    ensures agrees { Agrees ((into (code_section sections) (λ xs. record sections { slot = 11; codes = xs })).read view.now at) result }
    ensures within { IfOk result (λ x. x.1 ≤ length view.now.bytes) }
{
    let mut sections = sections;
    let (count, at) = read_code_count(view, at, sections.type_indices.len())?;
    let has_data_count = sections.data_count.is_some();
    let (codes, at) = read_many_by(alloc, view, at, count, has_data_count)?;
    sections.slot = 11;
    sections.codes = codes;
    Ok((sections, at))
}

// How many data segments there are: as many as were announced, if so.
fn read_segment_count(
    view: &View,
    at: usize,
    announced: Option<u32>,
) -> Result<(u32, usize), ReadBad>
    requires { at ≤ length view.now.bytes }
    ensures agrees { Agrees ((checked u32_form (same_as_announced announced)).read view.now at) result }
    ensures within { IfOk result (λ x. x.1 ≤ length view.now.bytes) }
{
    let (count, next) = read_u32(view, at)?;
    match announced {
        None => Ok((count, next)),
        Some(announced) if announced == count => Ok((count, next)),
        Some(announced) => Err(ReadBad::Count {
            left: announced as u64,
            right: count as u64,
            at: at as u64,
        }),
    }
}

// The data segments.
fn read_segments(
    alloc: Global,
    view: &View,
    at: usize,
    sections: Sections,
) -> Result<(Sections, usize), ReadBad>
    requires { at ≤ length view.now.bytes }
    ensures agrees { Agrees ((into (data_section sections) (λ xs. record sections { slot = 12; segments = xs })).read view.now at) result }
    ensures within { IfOk result (λ x. x.1 ≤ length view.now.bytes) }
{
    let mut sections = sections;
    let (count, at) = read_segment_count(view, at, sections.data_count)?;
    let (segments, at) = read_many(alloc, view, at, count)?;
    sections.slot = 12;
    sections.segments = segments;
    Ok((sections, at))
}

/// The contents of a section of this id and length, put to what the sections before it hold.
pub(crate) fn read_contents(
    alloc: Global,
    view: &View,
    at: usize,
    sections: Sections,
    id: u8,
    len: u32,
) -> Result<(Sections, usize), ReadBad>
    requires { at ≤ length view.now.bytes }
    ensures agrees { Agrees ((contents_by_id sections id len).read view.now at) result }
    ensures within { IfOk result (λ x. x.1 ≤ length view.now.bytes) }
{
    match id {
        0 => read_custom_section(alloc, view, at, sections, len),
        1 => read_types(alloc, view, at, sections),
        2 => read_imports(alloc, view, at, sections),
        3 => read_type_indices(alloc, view, at, sections),
        4 => read_tables(alloc, view, at, sections),
        5 => read_memories(alloc, view, at, sections),
        6 => read_globals(alloc, view, at, sections),
        7 => read_exports(alloc, view, at, sections),
        8 => read_start(view, at, sections),
        9 => read_elems(alloc, view, at, sections),
        12 => read_data_count(view, at, sections),
        10 => read_codes(alloc, view, at, sections),
        _ => read_segments(alloc, view, at, sections),
    }
}
