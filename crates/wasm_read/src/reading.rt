// All sections, one after another (Binary Format, Modules).
ghost use Rattle.std.specs.Prelude.{◌≡◌, ◌≢◌, List, false, MatchBool, suc, ◌^◌, ◌<◌, ◌≤◌, length, IfOk, IfErr, IfSome, Ok, Err};
ghost use Rattle.wasm_ast.specs.declared.modules.Custom.{Custom as OneCustom};
ghost use Rattle.wasm_binary.specs.Modules.{no_sections, front, fixed_byte, module_of as module_by};
ghost use Rattle.wasm_binary.specs.Reading.{read_binary, read_sections as read_all_sections};
ghost use Rattle.grammar_forms.specs.Forms.{any_byte, checked};
ghost use Rattle.wasm_read.specs.Refusals.{fault_of};
ghost use Rattle.wasm_read.specs.Stripped.{Keeps};
ghost use Rattle.wasm_read.specs.Views.{Agrees};
ghost use Rattle.wasm_read.specs.Wholes.{Answers};

use crate::assembly::module_of;
use crate::bad::ReadBad;
use crate::counts::check_counts;
use crate::framing::{read_id, read_sized_contents};
use crate::numbers::read_byte;
use crate::passing::pass_custom;
use crate::sections::Sections;
use crate::views::View;
use std::alloc::Global;
use wasm_ast::Module;

// A byte of the magic number or the version.
fn read_fixed(view: &View, at: usize, wanted: u8) -> Result<(u8, usize), ReadBad>
    requires { at ≤ length view.now.bytes }
    ensures agrees { Agrees ((checked any_byte (fixed_byte wanted)).read view.now at) result }
    ensures within { IfOk result (λ x. x.1 ≤ length view.now.bytes) }
{
    let (byte, next) = read_byte(view, at)?;
    if byte == wanted {
        Ok((byte, next))
    } else {
        Err(ReadBad::Magic { at: at as u64 })
    }
}

// The magic number and the version.
fn read_front(view: &View) -> Result<(u8, usize), ReadBad>
    ensures agrees { Agrees (front.read view.now 0) result }
    ensures within { IfOk result (λ x. x.1 ≤ length view.now.bytes) }
{
    let (_, at) = read_fixed(view, 0, 0x00)?;
    let (_, at) = read_fixed(view, at, 0x61)?;
    let (_, at) = read_fixed(view, at, 0x73)?;
    let (_, at) = read_fixed(view, at, 0x6D)?;
    let (_, at) = read_fixed(view, at, 0x01)?;
    let (_, at) = read_fixed(view, at, 0x00)?;
    let (_, at) = read_fixed(view, at, 0x00)?;
    let (_, at) = read_fixed(view, at, 0x00)?;
    Ok((0, at))
}

// Whether what a section of this id holds is kept: all but custom ones are, and those too where keeps says so.
fn is_kept(id: u8, keeps: bool) -> bool
    ensures { MatchBool result (keeps ≡ false → id ≢ 0) ((keeps ≡ false) × (id ≡ 0)) }
{
    keeps || id != 0
}

// All sections from a place on. Custom ones are kept where keeps says so, and passed over where it doesn't.
fn read_sections(alloc: Global, view: &View, start: usize, keeps: bool) -> Result<Sections, ReadBad>
    requires { start ≤ length view.now.bytes }
    ensures read { IfOk result (λ s. (all : List OneCustom) × Keeps keeps all s.customs
        × (read_all_sections (suc (length view.now.bytes)) view.now no_sections start ≡ Ok (module_by (record s { customs = all })))) }
    ensures trouble { IfErr result (λ bad. IfSome (fault_of bad)
        (λ fault. read_all_sections (suc (length view.now.bytes)) view.now no_sections start ≡ Err fault)) }
{
    let mut sections = Sections::new(alloc);
    let mut at = start;
    'sections: while at < view.bytes().len() {
        let (id, contents) = read_id(view, at, &sections)?;
        if is_kept(id, keeps) {
            let (more, next) = read_sized_contents(alloc, view, contents, sections, id)?;
            sections = more;
            at = next;
        } else {
            at = pass_custom(view, contents)?;
        }
    }
    check_counts(&sections, at)?;
    Ok(sections)
}

/// The module that the bytes spell as a whole, or their first trouble. Its custom sections are kept where keeps says so; where
/// it doesn't, the module is told without them.
pub(crate) fn read_whole(alloc: Global, bytes: &[u8], keeps: bool) -> Result<Module, ReadBad>
    ensures answers { Answers keeps (read_binary bytes.now) result }
    ensures few { IfOk result (λ m. length m.customs < 2 ^ 32) }
{
    let view = View::whole(bytes);
    let (_, at) = read_front(&view)?;
    let sections = read_sections(alloc, &view, at, keeps)?;
    // Any list of a module has fewer than 2^32 entries; no number in the bytes bounds the custom sections.
    if sections.customs.len() > u32::MAX as usize {
        return Err(ReadBad::NoMemory);
    }
    Ok(module_of(alloc, sections)?)
}
