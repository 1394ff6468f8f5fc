// Numbers in bytes: what loads make of them, and what stores put there.
ghost use Rattle.std.specs.Prelude.{◌≡◌, ◌≤◌, ◌++◌, IsSome, length, take, drop};
ghost use Rattle.wasm_rules.specs.Words.{numbers, HasNumber};
ghost use Rattle.wasm_rules.specs.Accesses.{load_of, store_of, load_bytes, load_bits, loaded, stored, store_bytes};

use byteorder::{ByteOrder, LittleEndian};
use int_ops::un;

/// The number that the load of an opcode makes of the first bytes.
#[tactic(auto, using(crate::proofs::ByteLemmas::joined_front), unfolding(wasm_rules::specs::Accesses::load_of, int_ops::specs::Operators::operator_of))]
pub fn loaded_number(op: u8, bytes: &[u8]) -> u64
    requires load { IsSome (load_of op) }
    requires within { load_bytes op ≤ length bytes.now }
    ensures exact { result ≡ loaded numbers op (take (load_bytes op) bytes.now) }
    ensures width { HasNumber (load_bits op) result }
{
    match op {
        0x28 | 0x35 => u64::from(LittleEndian::read_u32(bytes)),
        0x29 => LittleEndian::read_u64(bytes),
        0x2C => un(0xC0, u64::from(bytes[0])),
        0x2D | 0x31 => u64::from(bytes[0]),
        0x2E => un(0xC1, u64::from(LittleEndian::read_u16(bytes))),
        0x2F | 0x33 => u64::from(LittleEndian::read_u16(bytes)),
        0x30 => un(0xC2, u64::from(bytes[0])),
        0x32 => un(0xC3, u64::from(LittleEndian::read_u16(bytes))),
        0x34 => un(0xC4, u64::from(LittleEndian::read_u32(bytes))),
        _ => unreachable!(),
    }
}

/// The bytes that the store of an opcode makes of a number are written over the first ones.
#[tactic(auto, using(crate::proofs::ByteLemmas::low_bytes1, crate::proofs::ByteLemmas::low_bytes2, crate::proofs::ByteLemmas::low_bytes4, crate::proofs::ByteLemmas::low_bytes8), unfolding(wasm_rules::specs::Accesses::store_of))]
pub fn store_number(op: u8, bytes: &mut [u8], w: u64)
    requires store { IsSome (store_of op) }
    requires within { store_bytes op ≤ length bytes.old }
    ensures { bytes.new ≡ stored numbers op w ++ drop (store_bytes op) bytes.old }
{
    match op {
        0x36 | 0x3E => LittleEndian::write_u32(bytes, (w % (1 << 32)) as u32),
        0x37 => LittleEndian::write_u64(bytes, w),
        0x3A | 0x3C => bytes[0] = (w % (1 << 8)) as u8,
        0x3B | 0x3D => LittleEndian::write_u16(bytes, (w % (1 << 16)) as u16),
        _ => unreachable!(),
    }
}
