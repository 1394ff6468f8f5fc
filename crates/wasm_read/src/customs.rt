// Custom sections (Binary Format, Modules: Custom Section).
ghost use Rattle.std.specs.Prelude.{◌≡◌, ℕ, ◌≤◌, length, IfOk, IfErr, IfSome, Ok, Err};
ghost use Rattle.wasm_binary.specs.Modules.{custom as custom_form};
ghost use Rattle.wasm_read.specs.Refusals.{fault_of};
ghost use Rattle.wasm_read.specs.Views.{Agrees};

use crate::bad::ReadBad;
use crate::names::{read_slice, read_str};
use crate::views::View;
use std::alloc::Global;
use wasm_ast::{Custom, List, Text};

/// The contents of a custom section of this length, as they stand in the input: a name, the bytes after it, and the place
/// after both.
pub(crate) fn find_custom<'a>(
    view: &'a View,
    at: usize,
    len: u32,
) -> Result<(&'a str, &'a [u8], usize), ReadBad>
    requires { at ≤ length view.now.bytes }
    ensures found { (slot : ℕ) → IfOk result (λ x. (custom_form slot len).read view.now at
        ≡ Ok (record { after = slot; name = x.0.now; bytes = x.1.now }, x.2)) }
    ensures trouble { (slot : ℕ) → IfErr result (λ bad. IfSome (fault_of bad)
        (λ fault. (custom_form slot len).read view.now at ≡ Err fault)) }
    ensures within { IfOk result (λ x. x.2 ≤ length view.now.bytes) }
{
    let (name, next) = read_str(view, at)?;
    let left = (len as usize).saturating_sub(next - at);
    let (bytes, next) = read_slice(view, next, left)?;
    Ok((name, bytes, next))
}

/// The contents of a custom section of this length, after the section of this slot: a name and the bytes after it.
pub(crate) fn read_custom(
    alloc: Global,
    view: &View,
    at: usize,
    slot: u8,
    len: u32,
) -> Result<(Custom, usize), ReadBad>
    requires { at ≤ length view.now.bytes }
    ensures agrees { Agrees ((custom_form slot len).read view.now at) result }
    ensures within { IfOk result (λ x. x.1 ≤ length view.now.bytes) }
{
    let (name, bytes, next) = find_custom(view, at, len)?;
    let name = Text::new(String::from_str(alloc, name)?);
    let bytes = List::new(bytes.to_vec(alloc)?);
    Ok((
        Custom {
            after: slot,
            name,
            bytes,
        },
        next,
    ))
}
