// The classes of opcodes (Binary Format, Instructions).
ghost use Rattle.std.specs.Prelude.{◌≡◌};
ghost use Rattle.wasm_ast.specs.Opcodes.{is_load as is_load_op, is_store as is_store_op, is_unary as is_unary_op, is_binary as is_binary_op, is_numeric as is_numeric_op};

/// Whether the opcode byte is a load's.
pub fn is_load(op: u8) -> bool
    ensures { result ≡ is_load_op op }
{
    matches!(op, 0x28..=0x29 | 0x2C..=0x35)
}

/// Whether the opcode byte is a store's.
pub fn is_store(op: u8) -> bool
    ensures { result ≡ is_store_op op }
{
    matches!(op, 0x36..=0x37 | 0x3A..=0x3E)
}

/// Whether the opcode byte is an operator's of one operand.
pub fn is_unary(op: u8) -> bool
    ensures { result ≡ is_unary_op op }
{
    matches!(op, 0x45 | 0x50 | 0x67..=0x69 | 0x79..=0x7B | 0xA7 | 0xAC..=0xAD | 0xC0..=0xC4)
}

/// Whether the opcode byte is an operator's of two operands.
pub fn is_binary(op: u8) -> bool
    ensures { result ≡ is_binary_op op }
{
    matches!(op, 0x46..=0x4F | 0x51..=0x5A | 0x6A..=0x78 | 0x7C..=0x8A)
}

/// Whether the opcode byte is an operator's.
pub fn is_numeric(op: u8) -> bool
    ensures { result ≡ is_numeric_op op }
{
    is_unary(op) || is_binary(op)
}
