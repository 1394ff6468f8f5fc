// Laws of the operators, over their definitions.
ghost use Rattle.std.specs.Prelude.{◌≡◌, ℕ, ◌+◌, ◌-◌, ◌*◌, ◌/◌, ◌%◌, ◌^◌, ◌<◌, ◌↔◌, ◌+ℤ◌, ◌*ℤ◌, IsTrue, IfOk, Err};
ghost use Rattle.int_ops.specs.declared.operators.Trap.TheVariants.{DivZero, Overflow};
ghost use Rattle.int_ops.specs.Integers.{signed, unsigned, div_s, rem_s, rotl, rotr, least, minus_one};
ghost use Rattle.int_ops.specs.declared.operators.Binary.{Binary as BinaryOperation};
ghost use Rattle.int_ops.specs.declared.operators.Unary.TheVariants.{Eqz};
ghost use Rattle.int_ops.specs.declared.operators.Binary.TheVariants.{Eq, Ne, LtS, LtU, GtS, GtU, LeS, LeU, GeS, GeU};
ghost use Rattle.int_ops.specs.Operators.{is_unary, is_binary, operand_bits, result_bits, unary, binary, total, unary_value, binary_value, partial_value, divides, is_div_s};
ghost use Rattle.int_ops.specs.Bytes.{joined, bytes_of};

/// Every result has the width that its operator gives it.
pub fn results_fit()
    ensures unary { (op x : ℕ) → IsTrue (is_unary op) → x < 2 ^ operand_bits op → unary op x < 2 ^ result_bits op }
    ensures binary { (op x y : ℕ) → IsTrue (is_binary op) → x < 2 ^ operand_bits op → y < 2 ^ operand_bits op → IfOk (binary op x y) (λ r. r < 2 ^ result_bits op) }
    ensures total { (op x y : ℕ) → IsTrue (is_binary op) → x < 2 ^ operand_bits op → y < 2 ^ operand_bits op → total op x y < 2 ^ result_bits op }
{}

/// The total operators give what the others give, and the least number where a signed quotient is too large.
pub fn totals_agree()
    ensures defined { (op x y : ℕ) → IsTrue (is_binary op) → IfOk (binary op x y) (λ r. total op x y ≡ r) }
    ensures overflow { (op x y : ℕ) → binary op x y ≡ Err Overflow → total op x y ≡ x }
{}

/// An operation traps for a division by 0 exactly where it divides by 0, and for an overflow exactly where it is the signed
/// quotient of the least number by -1.
pub fn traps()
    ensures zero { (operation : BinaryOperation) (N x y : ℕ) → (partial_value operation N x y ≡ Err DivZero) ↔ (IsTrue (divides operation) × (y ≡ 0)) }
    ensures overflow { (operation : BinaryOperation) (N x y : ℕ) → 0 < N
        → (partial_value operation N x y ≡ Err Overflow) ↔ (IsTrue (is_div_s operation) × (x ≡ least N) × (y ≡ minus_one N)) }
{}

/// The quotient times the divisor and the remainder make the dividend.
pub fn quotients_and_remainders()
    ensures unsigned { (x y : ℕ) → x / y * y + x % y ≡ x }
    ensures signed { (N x y : ℕ) → 0 < N → x < 2 ^ N → y < 2 ^ N → 0 < y → ((x ≡ least N) × (y ≡ minus_one N) → ⊥)
        → signed N (div_s N x y) *ℤ signed N y +ℤ signed N (rem_s N x y) ≡ signed N x }
{}

/// The signed interpretation and its inverse.
pub fn signs()
    ensures { (N x : ℕ) → 0 < N → x < 2 ^ N → unsigned N (signed N x) ≡ x }
{}

/// A rotation right undoes the rotation left.
pub fn rotations()
    ensures { (N x count : ℕ) → 0 < N → x < 2 ^ N → rotr N (rotl N x count) count ≡ x }
{}

/// The comparisons with their operands swapped, and negated; a test for 0 is a comparison with 0.
pub fn comparisons()
    ensures zero { (N x : ℕ) → unary_value Eqz N 32 x ≡ binary_value Eq N x 0 }
    ensures swapped { (N x y : ℕ) → (binary_value Eq N x y ≡ binary_value Eq N y x) × (binary_value Ne N x y ≡ binary_value Ne N y x)
        × (binary_value GtS N x y ≡ binary_value LtS N y x) × (binary_value GtU N x y ≡ binary_value LtU N y x)
        × (binary_value GeS N x y ≡ binary_value LeS N y x) × (binary_value GeU N x y ≡ binary_value LeU N y x) }
    ensures negated { (N x y : ℕ) → (binary_value Ne N x y ≡ 1 - binary_value Eq N x y)
        × (binary_value GeS N x y ≡ 1 - binary_value LtS N x y) × (binary_value GeU N x y ≡ 1 - binary_value LtU N x y)
        × (binary_value LeS N x y ≡ 1 - binary_value GtS N x y) × (binary_value LeU N x y ≡ 1 - binary_value GtU N x y) }
{}

/// The bytes of a number make it again.
pub fn bytes_join()
    ensures { (n x : ℕ) → x < 256 ^ n → joined (bytes_of n x) ≡ x }
{}
