// Loads and stores by their opcodes.
ghost use Rattle.std.specs.Prelude.{◌≡◌, Some, None};
ghost use Rattle.wasm_rules.specs.Accesses.{load_of, store_of};

/// Which bytes an instruction loads or stores, and how.
#[derive(Clone, Copy, Debug, PartialEq, Eq)]
pub struct Access {
    /// How many bytes: 1, 2, 4 or 8.
    pub bytes: u32,
    /// Whether the word is an i64; else it is an i32.
    pub wide: bool,
    /// The opcode of the operator that extends the sign of the loaded bytes, where the load is a signed one.
    pub extend: Option<u8>,
}

impl Access {
    fn full(bytes: u32, wide: bool) -> Option<Access>
        ensures { result ≡ Some (record { bytes = bytes; wide = wide; extend = None }) }
    {
        Some(Access {
            bytes,
            wide,
            extend: None,
        })
    }

    fn signed(bytes: u32, wide: bool, extend: u8) -> Option<Access>
        ensures { result ≡ Some (record { bytes = bytes; wide = wide; extend = Some extend }) }
    {
        Some(Access {
            bytes,
            wide,
            extend: Some(extend),
        })
    }

    /// The load of an opcode; None where the opcode is of no load.
    #[tactic(auto, unfolding(crate::specs::Accesses::load_of))]
    pub fn load(op: u8) -> Option<Access>
        ensures { result ≡ load_of op }
    {
        match op {
            0x28 => Access::full(4, false),
            0x29 => Access::full(8, true),
            0x2C => Access::signed(1, false, 0xC0),
            0x2D => Access::full(1, false),
            0x2E => Access::signed(2, false, 0xC1),
            0x2F => Access::full(2, false),
            0x30 => Access::signed(1, true, 0xC2),
            0x31 => Access::full(1, true),
            0x32 => Access::signed(2, true, 0xC3),
            0x33 => Access::full(2, true),
            0x34 => Access::signed(4, true, 0xC4),
            0x35 => Access::full(4, true),
            _ => None,
        }
    }

    /// The store of an opcode; None where the opcode is of no store.
    #[tactic(auto, unfolding(crate::specs::Accesses::store_of))]
    pub fn store(op: u8) -> Option<Access>
        ensures { result ≡ store_of op }
    {
        match op {
            0x36 => Access::full(4, false),
            0x37 => Access::full(8, true),
            0x3A => Access::full(1, false),
            0x3B => Access::full(2, false),
            0x3C => Access::full(1, true),
            0x3D => Access::full(2, true),
            0x3E => Access::full(4, true),
            _ => None,
        }
    }
}
