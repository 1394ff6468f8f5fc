// What a run takes and gives (Execution, Runtime Structure: Values and Results).
use crate::lists::List;
use std::alloc::AllocError;

/// A value (Execution, Runtime Structure: Values).
#[derive(Clone, Copy, Debug, PartialEq, Eq)]
pub enum Value {
    /// An integer of 32 bits, modulo 2^32.
    I32(u32),
    /// An integer of 64 bits, modulo 2^64.
    I64(u64),
    /// A `funcref`: null, or the function of this index, imports first.
    Func(Option<u32>),
    /// The null `externref`. There is no other.
    Extern,
}

/// Why a run traps (Execution, Instructions).
#[derive(Clone, Copy, Debug, PartialEq, Eq)]
pub enum Cause {
    /// `unreachable` was run.
    Unreachable,
    /// An integer was divided by 0.
    DivZero,
    /// A signed quotient doesn't fit its width.
    Overflow,
    /// A memory or a data segment was accessed out of bounds.
    Memory,
    /// A table or an element segment was accessed out of bounds.
    Table,
    /// `call_indirect` past the end of its table.
    Undefined,
    /// `call_indirect` of a null reference.
    Uninitialized,
    /// `call_indirect` of a function of another type.
    Mismatch,
}

/// How a run ends.
#[derive(Debug, Drop)]
pub enum Outcome {
    /// The exported function returned these values.
    Returns(List<Value>),
    /// An instruction trapped.
    Traps(Cause),
    /// The host function `assert` was called with 0.
    Fails,
    /// The host function `assume` was called with 0.
    Assumes,
    /// The bound on steps was reached.
    Bound,
    /// A call would have passed the bound on frames.
    Deep,
}

impl Clone for Outcome {
    ghost use Rattle.std.specs.Prelude.{◌≡◌};

    ghost is_clone = { λ x y. y ≡ x };

    fn clone(&self) -> Result<Outcome, AllocError> {
        Ok(match self {
            Outcome::Returns(values) => Outcome::Returns(values.copy()?),
            Outcome::Traps(cause) => Outcome::Traps(*cause),
            Outcome::Fails => Outcome::Fails,
            Outcome::Assumes => Outcome::Assumes,
            Outcome::Bound => Outcome::Bound,
            Outcome::Deep => Outcome::Deep,
        })
    }
}

/// A number that a run took from its input for a symbol.
#[derive(Clone, Copy, Debug, PartialEq, Eq)]
pub struct Draw {
    /// Whether the symbol has 64 bits, else 32.
    pub wide: bool,
    /// The number, below 2^32 where the symbol has 32 bits.
    pub value: u64,
}

/// What a run gives.
#[derive(Debug, Drop)]
pub struct Ran {
    /// How it ended.
    pub outcome: Outcome,
    /// The numbers that it took, in order.
    pub draws: List<Draw>,
}

impl Clone for Ran {
    ghost use Rattle.std.specs.Prelude.{◌≡◌};

    ghost is_clone = { λ x y. y ≡ x };

    fn clone(&self) -> Result<Ran, AllocError> {
        let outcome = self.outcome.clone()?;
        let draws = self.draws.copy()?;
        Ok(Ran { outcome, draws })
    }
}
