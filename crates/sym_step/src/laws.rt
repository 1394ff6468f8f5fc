// A law of picks.
ghost use Rattle.std.specs.Prelude.{◌≡◌, ℕ, List};
ghost use Rattle.int_ops.specs.Operators.{total};
ghost use Rattle.bv_terms.specs.Terms.{Term, value_of};
ghost use Rattle.sym_state.specs.NextNodes.{IsOther};

/// A term whose value at each input is `i32.ne`, of opcode 0x47, of the value of another term and a number says whether that term is
/// another number.
pub fn i32_ne_says_other()
    ensures { (t other : Term) (a : ℕ) → ((input : List ℕ) → value_of input other ≡ total 0x47 (value_of input t) a) → IsOther other t a }
{}
