// Unsigned numbers in LEB128.
ghost use Rattle.std.specs.Prelude.{◌≡◌, ◌↔◌, ℕ, ◌+◌, ◌^◌, ◌<◌, ◌≤◌, List, ◌++◌, All, length, drop, IfOk, OnOk, OnErr, Ok, Err};
ghost use Rattle.owi_base.specs.Leb.{SpellsUnsigned, UnsignedTrouble, unsigned_bytes};
ghost use Rattle.owi_base.specs.LebReading.{read_unsigned, placed};

use crate::leb::LebBad;
use std::alloc::AllocError;

// The number at the front, and how many bytes it takes.
fn unsigned_at_front(bytes: &[u8], width: u32) -> Result<(u64, usize), LebBad>
    requires { width ≤ 64 }
    ensures exact { result ≡ read_unsigned width bytes.now }
    ensures small { IfOk result (λ x. x.0 < 2 ^ width) }
    ensures within { IfOk result (λ x. x.1 ≤ length bytes.now) }
{
    let (byte, rest) = bytes.split_first().ok_or(LebBad::Cut)?;
    let byte = u64::from(*byte);
    if width > 7 {
        if byte < 128 {
            return Ok((byte, 1));
        }
        let (high, count) = unsigned_at_front(rest, width - 7)?;
        return Ok((byte - 128 + 128 * high, 1 + count));
    }
    if byte >= 128 {
        return Err(LebBad::Long);
    }
    if byte >= 1 << width {
        return Err(LebBad::Range);
    }
    Ok((byte, 1))
}

// The number that begins at a place, and the place after it.
fn unsigned_at(bytes: &[u8], at: usize, width: u32) -> Result<(u64, usize), LebBad>
    requires here { at ≤ length bytes.now }
    requires wide { width ≤ 64 }
    ensures exact { result ≡ placed at (read_unsigned width (drop at bytes.now)) }
    ensures small { IfOk result (λ x. x.0 < 2 ^ width) }
    ensures within { IfOk result (λ x. x.1 ≤ length bytes.now) }
{
    match unsigned_at_front(&bytes[at..], width) {
        Ok((value, count)) => Ok((value, at + count)),
        Err(bad) => Err(bad),
    }
}

/// The number below 2^`width` whose spelling begins at the place `at`, and the place after it. The width is at most 64.
///
/// It refuses exactly where the bytes from there begin with no spelling of such a number: `Cut` where they end inside
/// it, `Long` where the last byte that is permitted goes on, else `Range` where its unused bits aren't zero.
pub fn leb_u(bytes: &[u8], at: usize, width: u32) -> Result<(u64, usize), LebBad>
    requires here { at ≤ length bytes.now }
    requires wide { width ≤ 64 }

    // What is read is spelled there, and what is spelled there is read, whatever follows.
    ensures spelled { IfOk result (λ x. (text rest : List ℕ) × (drop at bytes.now ≡ text ++ rest)
        × (x.1 ≡ at + length text) × SpellsUnsigned width text x.0) }
    ensures only { (text rest : List ℕ) (n : ℕ) → drop at bytes.now ≡ text ++ rest → SpellsUnsigned width text n
        → result ≡ Ok (n, at + length text) }
    ensures trouble { (bad : LebBad) → (result ≡ Err bad) ↔ UnsignedTrouble width (drop at bytes.now) bad }

    ensures within { IfOk result (λ x. x.1 ≤ length bytes.now) }
    ensures small { IfOk result (λ x. x.0 < 2 ^ width) }
{
    unsigned_at(bytes, at, width)
}

// Puts the digits of a number to the base 128 at the end, each but the last with 128 added.
fn put_digits(out: &mut Vec<u8>, value: u64) -> Result<(), AllocError>
    ensures ok { OnOk result (out.new.items ≡ out.old.items ++ unsigned_bytes value) }
    ensures err { OnErr result (out.new.items ≡ out.old.items) }
{
    if value < 128 {
        out.push(value as u8)?;
        return Ok(());
    }
    out.push((value % 128) as u8 + 128)?;
    match put_digits(out, value / 128) {
        Ok(()) => Ok(()),
        Err(wanting) => {
            out.pop();
            Err(wanting)
        }
    }
}

/// Puts the shortest spelling of a number at the end. Where memory is wanting, the vector stays as it was.
pub fn put_u(out: &mut Vec<u8>, value: u64) -> Result<(), AllocError>
    ensures ok { OnOk result (out.new.items ≡ out.old.items ++ unsigned_bytes value) }
    ensures err { OnErr result (out.new.items ≡ out.old.items) }

    // It is a spelling at each width that the number has, and no other is shorter.
    ensures spells { (width : ℕ) → value < 2 ^ width → SpellsUnsigned width (unsigned_bytes value) value }
    ensures shortest { (width : ℕ) (text : List ℕ) → All (λ b. b < 256) text → SpellsUnsigned width text value
        → length (unsigned_bytes value) ≤ length text }
{
    put_digits(out, value)
}

/// Law: where the shortest spelling of a number stands, [`leb_u`] reads the number and the place after it, at each width
/// that the number has and whatever follows.
pub fn read_put_u(bytes: &[u8], at: usize, width: u32, value: u64) -> Result<(u64, usize), LebBad>
    requires here { at ≤ length bytes.now }
    requires wide { width ≤ 64 }
    requires small { value < 2 ^ width }
    requires stands { (rest : List ℕ) × (drop at bytes.now ≡ unsigned_bytes value ++ rest) }
    ensures { result ≡ Ok (value, at + length (unsigned_bytes value)) }
{
    leb_u(bytes, at, width)
}
