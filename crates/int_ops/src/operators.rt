// What an operator is.
ghost use Rattle.std.specs.Prelude.{◌≡◌};
ghost use Rattle.int_ops.specs.Integers.{least, minus_one};
ghost use Rattle.int_ops.specs.Operators.{bits_of};

/// The width of an integer type: i32 or i64.
#[derive(Clone, Copy, Debug, PartialEq, Eq)]
pub enum Width {
    W32,
    W64,
}

impl Width {
    /// How many bits it has.
    pub fn bits(self) -> u32
        ensures { result ≡ bits_of self }
    {
        match self {
            Width::W32 => 32,
            Width::W64 => 64,
        }
    }

    /// The least signed number, as it is written: the highest bit alone.
    pub fn least(self) -> u64
        ensures { result ≡ least (bits_of self) }
    {
        1 << (self.bits() - 1)
    }

    /// -1, as it is written: all bits.
    pub fn minus_one(self) -> u64
        ensures { result ≡ minus_one (bits_of self) }
    {
        u64::MAX >> (64 - self.bits())
    }
}

/// An operation on one integer.
#[derive(Clone, Copy, Debug, PartialEq, Eq)]
pub enum Unary {
    Eqz,
    Clz,
    Ctz,
    Popcnt,
    Wrap,
    ExtendU,
    /// The lowest 8 bits are extended with their sign.
    Extend8,
    Extend16,
    Extend32,
}

/// An operation on two integers of one width.
#[derive(Clone, Copy, Debug, PartialEq, Eq)]
pub enum Binary {
    Eq,
    Ne,
    LtS,
    LtU,
    GtS,
    GtU,
    LeS,
    LeU,
    GeS,
    GeU,
    Add,
    Sub,
    Mul,
    DivS,
    DivU,
    RemS,
    RemU,
    And,
    Or,
    Xor,
    Shl,
    ShrS,
    ShrU,
    Rotl,
    Rotr,
}

/// What an operator computes, by its number of operands.
#[derive(Clone, Copy, Debug, PartialEq, Eq)]
pub enum Operation {
    OfOne(Unary),
    OfTwo(Binary),
}

/// An operator: what it computes, of operands of which width, and the width of the result.
#[derive(Clone, Copy, Debug, PartialEq, Eq)]
pub struct Operator {
    pub operation: Operation,
    pub operand: Width,
    pub result: Width,
}

/// Why an operator traps.
#[derive(Clone, Copy, Debug, PartialEq, Eq)]
pub enum Trap {
    /// It divides by 0.
    DivZero,
    /// A signed quotient is too large: the least number divided by -1.
    Overflow,
}
