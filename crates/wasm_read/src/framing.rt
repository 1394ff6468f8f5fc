// One section: its id, its length and its contents (Binary Format, Modules: Sections).
ghost use Rattle.std.specs.Prelude.{◌≡◌, ◌≤◌, length, IfOk};
ghost use Rattle.grammar_forms.specs.Forms.{any_byte, checked};
ghost use Rattle.wasm_binary.specs.Modules.{next_id, slot_of as slot_by_id, sized_contents};
ghost use Rattle.wasm_read.specs.Views.{Agrees};

use crate::bad::ReadBad;
use crate::contents::read_contents;
use crate::numbers::{read_byte, read_u32};
use crate::sections::Sections;
use crate::views::View;
use std::alloc::Global;

// The place of a section among all, by its id.
fn slot_of(id: u8) -> u8
    requires { id ≤ 12 }
    ensures { result ≡ slot_by_id id }
{
    match id {
        12 => 10,
        10 => 11,
        11 => 12,
        _ => id,
    }
}

/// The id of a section that may come next.
pub(crate) fn read_id(view: &View, at: usize, sections: &Sections) -> Result<(u8, usize), ReadBad>
    requires { at ≤ length view.now.bytes }
    ensures agrees { Agrees ((checked any_byte (next_id sections.now)).read view.now at) result }
    ensures within { IfOk result (λ x. x.1 ≤ length view.now.bytes) }
{
    let (id, next) = read_byte(view, at)?;
    if id > 12 {
        return Err(ReadBad::Byte { at: at as u64 });
    }
    if id == 0 || sections.slot < slot_of(id) {
        Ok((id, next))
    } else {
        Err(ReadBad::Order { at: at as u64 })
    }
}

/// The length of a section of this id, and contents of this length, put to what the sections before it hold.
pub(crate) fn read_sized_contents(
    alloc: Global,
    view: &View,
    at: usize,
    sections: Sections,
    id: u8,
) -> Result<(Sections, usize), ReadBad>
    requires { at ≤ length view.now.bytes }
    ensures agrees { Agrees ((sized_contents sections id).read view.now at) result }
    ensures within { IfOk result (λ x. x.1 ≤ length view.now.bytes) }
{
    let (len, start) = read_u32(view, at)?;
    let end = view.end_after(start, len);
    let inner = view.up_to(end);
    let (sections, next) = read_contents(alloc, &inner, start, sections, id, len)?;
    if next == end {
        Ok((sections, next))
    } else {
        Err(inner.left_over(next))
    }
}
