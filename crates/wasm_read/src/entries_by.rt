// Vectors of entries whose form depends on a test that is known beforehand (Binary Format, Conventions: Vectors).
ghost use Rattle.std.specs.Prelude.{◌≡◌, ◌≤◌, length, IfOk, IfErr, IfSome, Ok, Err};
ghost use Rattle.grammar_forms.specs.Forms.{many};
ghost use Rattle.wasm_binary.specs.Values.{vec};
ghost use Rattle.wasm_read.specs.Refusals.{fault_of};
ghost use Rattle.wasm_read.specs.Views.{Agrees};

use crate::bad::ReadBad;
use crate::codes::{Code, read_code};
use crate::numbers::read_u32;
use crate::views::View;
use std::alloc::Global;

/// What stands in vectors in one of two forms, by a test that is known beforehand.
pub(crate) trait EntryBy: Drop {
    ghost use Rattle.std.specs.Prelude.{Bool};
    ghost use Rattle.grammar_forms.specs.Forms.{Form};
    ghost use Rattle.wasm_binary.specs.Faults.{Fault};

    ghost form: { Bool → Form Fault Self };

    /// The entry that begins at a place, and the place after it.
    fn read_by(alloc: Global, view: &View, at: usize, test: bool) -> Result<(Self, usize), ReadBad>
        requires { at ≤ length view.now.bytes }
        ensures agrees { Agrees ((form test).read view.now at) result }
        ensures within { IfOk result (λ x. x.1 ≤ length view.now.bytes) };
}

/// A vector: a count and that many entries.
pub(crate) fn read_vec_by<T: EntryBy>(
    alloc: Global,
    view: &View,
    at: usize,
    test: bool,
) -> Result<(Vec<T>, usize), ReadBad>
    requires { at ≤ length view.now.bytes }
    ensures entries { IfOk result (λ x. (vec (T.form test)).read view.now at ≡ Ok (x.0.items, x.1)) }
    ensures trouble { IfErr result (λ bad. IfSome (fault_of bad)
        (λ fault. (vec (T.form test)).read view.now at ≡ Err fault)) }
    ensures within { IfOk result (λ x. x.1 ≤ length view.now.bytes) }
{
    let (count, at) = read_u32(view, at)?;
    read_many_by(alloc, view, at, count, test)
}

/// This many entries. It takes memory for an entry once that entry is read.
pub(crate) fn read_many_by<T: EntryBy>(
    alloc: Global,
    view: &View,
    start: usize,
    count: u32,
    test: bool,
) -> Result<(Vec<T>, usize), ReadBad>
    requires { start ≤ length view.now.bytes }
    ensures entries { IfOk result (λ x. (many (T.form test) count).read view.now start ≡ Ok (x.0.items, x.1)) }
    ensures trouble { IfErr result (λ bad. IfSome (fault_of bad)
        (λ fault. (many (T.form test) count).read view.now start ≡ Err fault)) }
    ensures within { IfOk result (λ x. x.1 ≤ length view.now.bytes) }
{
    let mut entries = Vec::new(alloc);
    let mut at = start;
    for _ in 0..count {
        let (entry, next) = T::read_by(alloc, view, at, test)?;
        entries.push(entry)?;
        at = next;
    }
    entries.shrink_to_fit();
    Ok((entries, at))
}

impl EntryBy for Code {
    ghost use Rattle.wasm_binary.specs.Locals.{code};

    ghost form = { λ has_data_count. code has_data_count };

    fn read_by(
        alloc: Global,
        view: &View,
        at: usize,
        has_data_count: bool,
    ) -> Result<(Code, usize), ReadBad> {
        read_code(alloc, view, at, has_data_count)
    }
}
