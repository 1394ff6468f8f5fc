// Operators, loads and stores by their names.

/// The opcode byte of an operator.
pub fn operator(word: &str) -> Option<u8> {
    match word {
        "i32.eqz" => Some(0x45),
        "i32.eq" => Some(0x46),
        "i64.eqz" => Some(0x50),
        "i64.eq" => Some(0x51),
        "i32.clz" => Some(0x67),
        "i32.add" => Some(0x6A),
        "i32.sub" => Some(0x6B),
        "i32.mul" => Some(0x6C),
        "i32.div_s" => Some(0x6D),
        "i32.div_u" => Some(0x6E),
        "i32.and" => Some(0x71),
        "i64.clz" => Some(0x79),
        "i64.add" => Some(0x7C),
        "i64.sub" => Some(0x7D),
        "i64.mul" => Some(0x7E),
        "i64.div_s" => Some(0x7F),
        "i64.xor" => Some(0x85),
        "i32.wrap_i64" => Some(0xA7),
        "i64.extend_i32_s" => Some(0xAC),
        "i32.extend8_s" => Some(0xC0),
        "i64.extend32_s" => Some(0xC4),
        _ => None,
    }
}

/// The opcode byte of a load.
pub fn load(word: &str) -> Option<u8> {
    match word {
        "i32.load" => Some(0x28),
        "i64.load" => Some(0x29),
        "i32.load8_s" => Some(0x2C),
        "i32.load16_u" => Some(0x2F),
        "i64.load8_u" => Some(0x31),
        "i64.load16_s" => Some(0x32),
        "i64.load32_u" => Some(0x35),
        _ => None,
    }
}

/// The opcode byte of a store.
pub fn store(word: &str) -> Option<u8> {
    match word {
        "i32.store" => Some(0x36),
        "i64.store" => Some(0x37),
        "i32.store8" => Some(0x3A),
        "i32.store16" => Some(0x3B),
        "i64.store8" => Some(0x3C),
        "i64.store16" => Some(0x3D),
        "i64.store32" => Some(0x3E),
        _ => None,
    }
}
