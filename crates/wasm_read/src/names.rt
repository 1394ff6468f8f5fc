// Texts and runs of bytes (Binary Format, Values: Names; Conventions: Vectors).
ghost use Rattle.std.specs.Prelude.{◌≡◌, ◌+◌, ◌≤◌, length, IfOk, IfErr, IfSome, Ok, Err};
ghost use Rattle.grammar_forms.specs.Forms.{any_byte, many};
ghost use Rattle.wasm_binary.specs.Values.{name, vec};
ghost use Rattle.wasm_read.specs.Refusals.{fault_of};
ghost use Rattle.wasm_read.specs.Views.{Agrees};

use crate::bad::ReadBad;
use crate::numbers::read_u32;
use crate::views::View;
use std::alloc::Global;
use wasm_ast::{List, Text};

/// This many bytes, as they stand in the input.
pub(crate) fn read_slice<'a>(
    view: &'a View,
    at: usize,
    count: usize,
) -> Result<(&'a [u8], usize), ReadBad>
    requires { at ≤ length view.now.bytes }
    ensures slice { IfOk result (λ x. (many any_byte count).read view.now at ≡ Ok (x.0.now, x.1)) }
    ensures trouble { IfErr result (λ bad. IfSome (fault_of bad)
        (λ fault. (many any_byte count).read view.now at ≡ Err fault)) }
    ensures within { IfOk result (λ x. x.1 ≤ length view.now.bytes) }
{
    let bytes = view.bytes();
    if count <= bytes.len() - at {
        Ok((&bytes[at..at + count], at + count))
    } else {
        Err(view.ended())
    }
}

/// This many bytes.
pub(crate) fn read_bytes(
    alloc: Global,
    view: &View,
    at: usize,
    count: usize,
) -> Result<(List<u8>, usize), ReadBad>
    requires { at ≤ length view.now.bytes }
    ensures agrees { Agrees ((many any_byte count).read view.now at) result }
    ensures within { IfOk result (λ x. x.1 ≤ length view.now.bytes) }
{
    let (bytes, next) = read_slice(view, at, count)?;
    Ok((List::new(bytes.to_vec(alloc)?), next))
}

/// A vector of bytes.
pub(crate) fn read_byte_vec(
    alloc: Global,
    view: &View,
    at: usize,
) -> Result<(List<u8>, usize), ReadBad>
    requires { at ≤ length view.now.bytes }
    ensures agrees { Agrees ((vec any_byte).read view.now at) result }
    ensures within { IfOk result (λ x. x.1 ≤ length view.now.bytes) }
{
    let (count, at) = read_u32(view, at)?;
    read_bytes(alloc, view, at, count as usize)
}

/// A name, as it stands in the input: a vector of bytes in UTF-8.
pub(crate) fn read_str<'a>(view: &'a View, at: usize) -> Result<(&'a str, usize), ReadBad>
    requires { at ≤ length view.now.bytes }
    ensures text { IfOk result (λ x. name.read view.now at ≡ Ok (x.0.now, x.1)) }
    ensures trouble { IfErr result (λ bad. IfSome (fault_of bad) (λ fault. name.read view.now at ≡ Err fault)) }
    ensures within { IfOk result (λ x. x.1 ≤ length view.now.bytes) }
{
    let (count, start) = read_u32(view, at)?;
    let (bytes, next) = read_slice(view, start, count as usize)?;
    match str::from_utf8(bytes) {
        Ok(text) => Ok((text, next)),
        Err(_) => Err(ReadBad::Utf8 { at: start as u64 }),
    }
}

/// A name.
pub(crate) fn read_name(alloc: Global, view: &View, at: usize) -> Result<(Text, usize), ReadBad>
    requires { at ≤ length view.now.bytes }
    ensures agrees { Agrees (name.read view.now at) result }
    ensures within { IfOk result (λ x. x.1 ≤ length view.now.bytes) }
{
    let (text, next) = read_str(view, at)?;
    Ok((Text::new(String::from_str(alloc, text)?), next))
}
