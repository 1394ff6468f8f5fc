// Signed numbers in LEB128.
ghost use Rattle.std.specs.Prelude.{◌≡◌, ◌↔◌, ℕ, ℤ, ◌+◌, ◌-◌, pos, ◌+ℤ◌, ◌*ℤ◌, ◌<◌, ◌≤◌, List, ◌++◌, All, length, drop, IfOk, OnOk, OnErr, Ok, Err, nat_lt};
ghost use Rattle.owi_base.specs.Leb.{HasBits, SpellsSigned, SignedTrouble, last_value, low_bits as low_bits_of, high_part as high_part_of, distance, signed_bytes};
ghost use Rattle.owi_base.specs.LebReading.{read_signed, placed};

use crate::leb::LebBad;
use std::alloc::AllocError;

// What a last byte stands for.
fn value_of(byte: u8) -> i64
    requires { byte < 128 }
    ensures { result ≡ last_value byte }
{
    if byte < 64 {
        i64::from(byte)
    } else {
        i64::from(byte) - 128
    }
}

// The number of its low seven bits and the rest.
fn joined(low: u8, high: i64, width: u32) -> i64
    requires low { low < 128 }
    requires more { 7 < width }
    requires wide { width ≤ 64 }
    requires high { HasBits (width - 7) high }
    ensures value { result ≡ pos low +ℤ (pos 128 *ℤ high) }
    ensures bits { HasBits width result }
{
    i64::from(low) + 128 * high
}

// The number at the front, and how many bytes it takes.
fn signed_at_front(bytes: &[u8], width: u32) -> Result<(i64, usize), LebBad>
    requires some { 1 ≤ width }
    requires wide { width ≤ 64 }
    ensures exact { result ≡ read_signed width bytes.now }
    ensures small { IfOk result (λ x. HasBits width x.0) }
    ensures within { IfOk result (λ x. x.1 ≤ length bytes.now) }
{
    let (byte, rest) = bytes.split_first().ok_or(LebBad::Cut)?;
    let byte = *byte;
    if width > 7 {
        if byte < 128 {
            return Ok((value_of(byte), 1));
        }
        let (high, count) = signed_at_front(rest, width - 7)?;
        return Ok((joined(byte - 128, high, width), 1 + count));
    }
    if byte >= 128 {
        return Err(LebBad::Long);
    }
    let half = 1u32 << (width - 1);
    if u32::from(byte) < half || u32::from(byte) + half >= 128 {
        return Ok((value_of(byte), 1));
    }
    Err(LebBad::Range)
}

// The number that begins at a place, and the place after it.
fn signed_at(bytes: &[u8], at: usize, width: u32) -> Result<(i64, usize), LebBad>
    requires here { at ≤ length bytes.now }
    requires some { 1 ≤ width }
    requires wide { width ≤ 64 }
    ensures exact { result ≡ placed at (read_signed width (drop at bytes.now)) }
    ensures small { IfOk result (λ x. HasBits width x.0) }
    ensures within { IfOk result (λ x. x.1 ≤ length bytes.now) }
{
    match signed_at_front(&bytes[at..], width) {
        Ok((value, count)) => Ok((value, at + count)),
        Err(bad) => Err(bad),
    }
}

/// The number of `width` bits, in two's complement, whose spelling begins at the place `at`, and the place after it. The
/// width is from 1 to 64.
///
/// It refuses exactly where the bytes from there begin with no spelling of such a number: `Cut` where they end inside
/// it, `Long` where the last byte that is permitted goes on, else `Range` where its unused bits don't repeat the sign.
pub fn leb_s(bytes: &[u8], at: usize, width: u32) -> Result<(i64, usize), LebBad>
    requires here { at ≤ length bytes.now }
    requires some { 1 ≤ width }
    requires wide { width ≤ 64 }

    // What is read is spelled there, and what is spelled there is read, whatever follows.
    ensures spelled { IfOk result (λ x. (text rest : List ℕ) × (drop at bytes.now ≡ text ++ rest)
        × (x.1 ≡ at + length text) × SpellsSigned width text x.0) }
    ensures only { (text rest : List ℕ) (z : ℤ) → drop at bytes.now ≡ text ++ rest → SpellsSigned width text z
        → result ≡ Ok (z, at + length text) }
    ensures trouble { (bad : LebBad) → (result ≡ Err bad) ↔ SignedTrouble width (drop at bytes.now) bad }

    ensures within { IfOk result (λ x. x.1 ≤ length bytes.now) }
    ensures small { IfOk result (λ x. HasBits width x.0) }
{
    signed_at(bytes, at, width)
}

// Whether one byte spells a number.
fn is_one_byte(value: i64) -> bool
    ensures { result ≡ nat_lt (distance value) 64 }
{
    value >= -64 && value < 64
}

// The low seven bits of a number in two's complement.
fn low_bits(value: i64) -> u8
    ensures { result ≡ low_bits_of value }
{
    value.rem_euclid(128) as u8
}

// What is left of a number in two's complement without its low seven bits.
fn high_part(value: i64) -> i64
    ensures { result ≡ high_part_of value }
{
    value.div_euclid(128)
}

// Puts the digits of a number to the base 128 in two's complement at the end, each but the last with 128 added.
fn put_digits(out: &mut Vec<u8>, value: i64) -> Result<(), AllocError>
    ensures ok { OnOk result (out.new.items ≡ out.old.items ++ signed_bytes value) }
    ensures err { OnErr result (out.new.items ≡ out.old.items) }
{
    let low = low_bits(value);
    if is_one_byte(value) {
        out.push(low)?;
        return Ok(());
    }
    out.push(low + 128)?;
    match put_digits(out, high_part(value)) {
        Ok(()) => Ok(()),
        Err(wanting) => {
            out.pop();
            Err(wanting)
        }
    }
}

/// Puts the shortest spelling of a number, in two's complement, at the end. Where memory is wanting, the vector stays as
/// it was.
pub fn put_s(out: &mut Vec<u8>, value: i64) -> Result<(), AllocError>
    ensures ok { OnOk result (out.new.items ≡ out.old.items ++ signed_bytes value) }
    ensures err { OnErr result (out.new.items ≡ out.old.items) }

    // It is a spelling at each width that the number has, and no other is shorter.
    ensures spells { (width : ℕ) → HasBits width value → SpellsSigned width (signed_bytes value) value }
    ensures shortest { (width : ℕ) (text : List ℕ) → All (λ b. b < 256) text → SpellsSigned width text value
        → length (signed_bytes value) ≤ length text }
{
    put_digits(out, value)
}

/// Law: where the shortest spelling of a number stands, [`leb_s`] reads the number and the place after it, at each width
/// that the number has and whatever follows.
pub fn read_put_s(bytes: &[u8], at: usize, width: u32, value: i64) -> Result<(i64, usize), LebBad>
    requires here { at ≤ length bytes.now }
    requires some { 1 ≤ width }
    requires wide { width ≤ 64 }
    requires small { HasBits width value }
    requires stands { (rest : List ℕ) × (drop at bytes.now ≡ signed_bytes value ++ rest) }
    ensures { result ≡ Ok (value, at + length (signed_bytes value)) }
{
    leb_s(bytes, at, width)
}
