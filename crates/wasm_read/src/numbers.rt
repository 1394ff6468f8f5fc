// Bytes and numbers (Binary Format, Values).
ghost use Rattle.std.specs.Prelude.{◌≡◌, ◌+◌, ◌<◌, ◌≤◌, length, IfOk, Some, Ok, Err};
ghost use Rattle.grammar_forms.specs.Forms.{any_byte, said};
ghost use Rattle.wasm_binary.specs.Faults.{leb};
ghost use Rattle.owi_base.specs.Leb.{HasBits};
ghost use Rattle.wasm_binary.specs.Values.{u32 as u32_form, s32 as s32_form, s33 as s33_form, s64 as s64_form, tag};
ghost use Rattle.wasm_read.specs.Refusals.{fault_of};
ghost use Rattle.wasm_read.specs.Views.{Agrees};

use crate::bad::ReadBad;
use crate::views::View;
use owi_base::{LebBad, leb_s, leb_u};

/// The byte at a place.
pub(crate) fn read_byte(view: &View, at: usize) -> Result<(u8, usize), ReadBad>
    requires { at ≤ length view.now.bytes }
    ensures agrees { Agrees (any_byte.read view.now at) result }
    ensures within { IfOk result (λ x. x.1 ≤ length view.now.bytes) }
{
    match view.bytes().get(at) {
        Some(byte) => Ok((*byte, at + 1)),
        None => Err(view.ended()),
    }
}

/// This byte and no other.
pub(crate) fn read_tag(view: &View, at: usize, wanted: u8) -> Result<(u8, usize), ReadBad>
    requires { at ≤ length view.now.bytes }
    ensures agrees { Agrees ((tag wanted).read view.now at) result }
    ensures within { IfOk result (λ x. x.1 ≤ length view.now.bytes) }
{
    let (byte, next) = read_byte(view, at)?;
    if byte == wanted {
        Ok((byte, next))
    } else {
        Err(ReadBad::Byte { at: at as u64 })
    }
}

// What is said of a number's trouble.
fn number_trouble(view: &View, at: usize, bad: LebBad) -> ReadBad
    ensures { fault_of result ≡ Some (said leb view.now at bad) }
{
    match bad {
        LebBad::Cut => view.ended(),
        LebBad::Long | LebBad::Range => ReadBad::Leb { at: at as u64 },
    }
}

/// A number below 2^32.
pub(crate) fn read_u32(view: &View, at: usize) -> Result<(u32, usize), ReadBad>
    requires { at ≤ length view.now.bytes }
    ensures agrees { Agrees (u32_form.read view.now at) result }
    ensures within { IfOk result (λ x. x.1 ≤ length view.now.bytes) }
{
    match leb_u(view.bytes(), at, 32) {
        Ok((value, next)) => Ok((value as u32, next)),
        Err(bad) => Err(number_trouble(view, at, bad)),
    }
}

/// A number of 32 bits.
pub(crate) fn read_s32(view: &View, at: usize) -> Result<(i32, usize), ReadBad>
    requires { at ≤ length view.now.bytes }
    ensures agrees { Agrees (s32_form.read view.now at) result }
    ensures within { IfOk result (λ x. x.1 ≤ length view.now.bytes) }
{
    match leb_s(view.bytes(), at, 32) {
        Ok((value, next)) => Ok((value as i32, next)),
        Err(bad) => Err(number_trouble(view, at, bad)),
    }
}

/// A number of 33 bits.
pub(crate) fn read_s33(view: &View, at: usize) -> Result<(i64, usize), ReadBad>
    requires { at ≤ length view.now.bytes }
    ensures agrees { Agrees (s33_form.read view.now at) result }
    ensures small { IfOk result (λ x. HasBits 33 x.0) }
    ensures within { IfOk result (λ x. x.1 ≤ length view.now.bytes) }
{
    match leb_s(view.bytes(), at, 33) {
        Ok((value, next)) => Ok((value, next)),
        Err(bad) => Err(number_trouble(view, at, bad)),
    }
}

/// A number of 64 bits.
pub(crate) fn read_s64(view: &View, at: usize) -> Result<(i64, usize), ReadBad>
    requires { at ≤ length view.now.bytes }
    ensures agrees { Agrees (s64_form.read view.now at) result }
    ensures within { IfOk result (λ x. x.1 ≤ length view.now.bytes) }
{
    match leb_s(view.bytes(), at, 64) {
        Ok((value, next)) => Ok((value, next)),
        Err(bad) => Err(number_trouble(view, at, bad)),
    }
}
