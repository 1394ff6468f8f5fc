// What words can do.
ghost use Rattle.std.specs.Prelude.{◌≡◌, ℕ, ◌^◌, ◌<◌, List, Option, IsTrue, Ok, IfOk, IfSome, All, length, map};
ghost use Rattle.int_ops.specs.Operators.{is_unary, is_binary, operand_bits, result_bits, unary, total as total_of};
ghost use Rattle.int_ops.specs.Bytes.{byte_of, joined};
ghost use Rattle.wasm_rules.specs.Words.{Kind, Kept, HasSome, CanJoin, bits_where, chosen};

use int_ops::{byte, join, total, un};
use std::alloc::AllocError;

/// A store of words, in which instructions compute. Plain numbers are one, and a graph of terms is another.
///
/// A word has three meanings. `means` says which word of the kind it is: a number, or a term. `Has` says which widths that
/// has, of 8, 32 and 64 bits. `value` is the number that it is at an input, which is a list of numbers. The law of an
/// algebra is in the clauses `value`: each result has, at every input, the value that the operator gives of the values of
/// its operands. Words that are held keep all three meanings, also where a call is refused for want of memory.
pub trait Algebra {
    type Word: Copy;

    ghost Means: { Type 0 };

    ghost kind: { Kind Means };

    ghost Has: { ℕ → Means → Type 0 };

    ghost value: { List ℕ → Means → ℕ };

    /// Which number a word of the kind is, where it is one.
    ghost number_of: { Means → Option ℕ };

    ghost holds: { Self → Self.Word → Type 0 };

    ghost means: { Self → Self.Word → Means };

    /// A number as a word. It has each width whose power of 2 it is below.
    fn constant(&mut self, n: u64) -> Self::Word
        ensures held { holds self.new result }
        ensures means { means self.new result ≡ kind.number n }
        ensures width { (bits : ℕ) → n < 2 ^ bits → Has bits (means self.new result) }
        ensures value { (input : List ℕ) → value input (means self.new result) ≡ n }
        ensures keeps { Kept holds means self.old self.new };

    /// The operator of a unary opcode.
    fn un(&mut self, op: u8, a: Self::Word) -> Result<Self::Word, AllocError>
        requires unary { IsTrue (is_unary op) }
        requires a_held { holds self.old a }
        requires a_width { Has (operand_bits op) (means self.old a) }
        ensures held { IfOk result (λ w. holds self.new w) }
        ensures means { IfOk result (λ w. means self.new w ≡ kind.unary op (means self.old a)) }
        ensures width { IfOk result (λ w. Has (result_bits op) (means self.new w)) }
        ensures value { IfOk result (λ w. (input : List ℕ) → value input (means self.new w) ≡ unary op (value input (means self.old a))) }
        ensures keeps { Kept holds means self.old self.new };

    /// The operator of a binary opcode, without traps.
    fn bin(&mut self, op: u8, a: Self::Word, b: Self::Word) -> Result<Self::Word, AllocError>
        requires binary { IsTrue (is_binary op) }
        requires a_held { holds self.old a }
        requires b_held { holds self.old b }
        requires a_width { Has (operand_bits op) (means self.old a) }
        requires b_width { Has (operand_bits op) (means self.old b) }
        ensures held { IfOk result (λ w. holds self.new w) }
        ensures means { IfOk result (λ w. means self.new w ≡ kind.binary op (means self.old a) (means self.old b)) }
        ensures width { IfOk result (λ w. Has (result_bits op) (means self.new w)) }
        ensures value { IfOk result (λ w. (input : List ℕ) → value input (means self.new w) ≡ total_of op (value input (means self.old a)) (value input (means self.old b))) }
        ensures keeps { Kept holds means self.old self.new };

    /// The word a where c isn't 0, else b. Both have 64 bits where wide, else 32.
    fn choose(
        &mut self,
        wide: bool,
        c: Self::Word,
        a: Self::Word,
        b: Self::Word,
    ) -> Result<Self::Word, AllocError>
        requires c_held { holds self.old c }
        requires a_held { holds self.old a }
        requires b_held { holds self.old b }
        requires c_width { HasSome Has (means self.old c) }
        requires a_width { Has (bits_where wide) (means self.old a) }
        requires b_width { Has (bits_where wide) (means self.old b) }
        ensures held { IfOk result (λ w. holds self.new w) }
        ensures means { IfOk result (λ w. means self.new w ≡ kind.choose wide (means self.old c) (means self.old a) (means self.old b)) }
        ensures width { IfOk result (λ w. Has (bits_where wide) (means self.new w)) }
        ensures value { IfOk result (λ w. (input : List ℕ) → value input (means self.new w) ≡ chosen (value input (means self.old c)) (value input (means self.old a)) (value input (means self.old b))) }
        ensures keeps { Kept holds means self.old self.new };

    /// Byte i of a word, the lowest first.
    fn byte(&mut self, a: Self::Word, i: u32) -> Result<Self::Word, AllocError>
        requires place { i < 8 }
        requires a_held { holds self.old a }
        requires a_width { HasSome Has (means self.old a) }
        ensures held { IfOk result (λ w. holds self.new w) }
        ensures means { IfOk result (λ w. means self.new w ≡ kind.byte (means self.old a) i) }
        ensures width { IfOk result (λ w. Has 8 (means self.new w)) }
        ensures value { IfOk result (λ w. (input : List ℕ) → value input (means self.new w) ≡ byte_of (value input (means self.old a)) i) }
        ensures keeps { Kept holds means self.old self.new };

    /// One, two or four bytes joined, the lowest first, to 32 bits, or where wide to 64, and then also eight.
    fn join(&mut self, wide: bool, bytes: &[Self::Word]) -> Result<Self::Word, AllocError>
        requires count { CanJoin wide (length bytes.now) }
        requires bytes_held { All (holds self.old) bytes.now }
        requires bytes_width { All (λ b. Has 8 (means self.old b)) bytes.now }
        ensures held { IfOk result (λ w. holds self.new w) }
        ensures means { IfOk result (λ w. means self.new w ≡ kind.join wide (map (means self.old) bytes.now)) }
        ensures width { IfOk result (λ w. Has (bits_where wide) (means self.new w)) }
        ensures value { IfOk result (λ w. (input : List ℕ) → value input (means self.new w) ≡ joined (map (λ b. value input (means self.old b)) bytes.now)) }
        ensures keeps { Kept holds means self.old self.new };

    /// The number that a word is, where it is one and no term.
    fn number(&self, a: Self::Word) -> Option<u64>
        requires { holds self.now a }
        ensures exact { result ≡ number_of (means self.now a) }
        ensures means { IfSome result (λ n. means self.now a ≡ kind.number n) };

    /// A word that has a width is below that power of 2 at every input.
    ghost below: { (bits : ℕ) (m : Means) (input : List ℕ) → Has bits m → value input m < 2 ^ bits };
}

/// Plain numbers. No call refuses: each gives the number that the operator gives.
#[derive(Drop)]
pub struct Numbers;

impl Algebra for Numbers {
    ghost use Rattle.std.specs.Prelude.{Some};
    ghost use Rattle.wasm_rules.specs.Words.{numbers, HasNumber};

    type Word = u64;

    ghost Means = { ℕ };

    ghost kind = { numbers };

    ghost Has = { HasNumber };

    ghost value = { λ _ n. n };

    ghost number_of = { λ n. Some n };

    ghost holds = { λ _ w. w < 2 ^ 64 };

    ghost means = { λ _ w. w };

    ghost below = { λ _ _ _ h. h };

    fn constant(&mut self, n: u64) -> u64 {
        n
    }

    #[inline(always)]
    fn un(&mut self, op: u8, a: u64) -> Result<u64, AllocError>
        requires unary { IsTrue (is_unary op) }
        requires a_width { HasNumber (operand_bits op) a }
        ensures exact { result ≡ Ok (unary op a) }
        ensures width { IfOk result (HasNumber (result_bits op)) }
    {
        Ok(un(op, a))
    }

    #[inline(always)]
    fn bin(&mut self, op: u8, a: u64, b: u64) -> Result<u64, AllocError>
        requires binary { IsTrue (is_binary op) }
        requires a_width { HasNumber (operand_bits op) a }
        requires b_width { HasNumber (operand_bits op) b }
        ensures exact { result ≡ Ok (total_of op a b) }
        ensures width { IfOk result (HasNumber (result_bits op)) }
    {
        Ok(total(op, a, b))
    }

    fn choose(&mut self, wide: bool, c: u64, a: u64, b: u64) -> Result<u64, AllocError>
        requires a_width { HasNumber (bits_where wide) a }
        requires b_width { HasNumber (bits_where wide) b }
        ensures exact { result ≡ Ok (chosen c a b) }
        ensures width { IfOk result (HasNumber (bits_where wide)) }
    {
        Ok(if c == 0 { b } else { a })
    }

    fn byte(&mut self, a: u64, i: u32) -> Result<u64, AllocError>
        requires place { i < 8 }
        ensures exact { result ≡ Ok (byte_of a i) }
        ensures width { IfOk result (HasNumber 8) }
    {
        Ok(byte(a, i))
    }

    fn join(&mut self, wide: bool, bytes: &[u64]) -> Result<u64, AllocError>
        requires count { CanJoin wide (length bytes.now) }
        requires bytes_width { All (HasNumber 8) bytes.now }
        ensures exact { result ≡ Ok (joined bytes.now) }
        ensures width { IfOk result (HasNumber (bits_where wide)) }
    {
        Ok(join(bytes))
    }

    fn number(&self, a: u64) -> Option<u64> {
        Some(a)
    }
}
