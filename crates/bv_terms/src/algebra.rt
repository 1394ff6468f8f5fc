// Terms as words of an algebra.
ghost use Rattle.std.specs.Prelude.{◌≡◌, ℕ, ◌<◌, List as Items, IfOk, OnErr, IsTrue, All, length, map};
ghost use Rattle.int_ops.specs.Operators.{is_unary, is_binary, operand_bits, result_bits, unary, total};
ghost use Rattle.int_ops.specs.Bytes.{byte_of, joined};
ghost use Rattle.wasm_rules.specs.Words.{Kept, HasSome, CanJoin, bits_where, chosen};
ghost use Rattle.bv_terms.specs.Terms.{Number, HasWidth, HasBits, number_of, value_of};
ghost use Rattle.bv_terms.specs.Making.{terms};
ghost use Rattle.bv_terms.specs.Graphs.{Holds, term_of, Makes};

use crate::graph::Graph;
use crate::words::{Form, Word};
use std::alloc::AllocError;
use wasm_rules::Algebra;

/// The words of a graph are numbers and its terms. Each call makes the term that the making rules give.
impl Algebra for Graph {
    ghost use Rattle.bv_terms.specs.Terms.{Term};

    type Word = Word;

    ghost Means = { Term };

    ghost kind = { terms };

    ghost Has = { HasBits };

    ghost value = { value_of };

    ghost number_of = { number_of };

    ghost holds = { Holds };

    ghost means = { term_of };

    ghost below = { λ _ _ input has. has.1 input };

    fn constant(&mut self, n: u64) -> Word
        ensures number { term_of self.new result ≡ Number n }
        ensures held { Holds self.new result }
        ensures same { self.new ≡ self.old }
    {
        Word::Num(n)
    }

    fn un(&mut self, op: u8, a: Word) -> Result<Word, AllocError>
        requires unary { IsTrue (is_unary op) }
        requires a_held { Holds self.old a }
        requires a_width { HasWidth (operand_bits op) (term_of self.old a) }
        ensures ok { IfOk result (λ w. Makes self.old (terms.unary op (term_of self.old a)) w self.new) }
        ensures width { IfOk result (λ w. HasBits (result_bits op) (term_of self.new w)) }
        ensures value { IfOk result (λ w. (input : Items ℕ) → value_of input (term_of self.new w) ≡ unary op (value_of input (term_of self.old a))) }
        ensures keeps { Kept Holds term_of self.old self.new }
        ensures err { OnErr result (self.new ≡ self.old) }
    {
        self.make(Form::Un { op, a })
    }

    fn bin(&mut self, op: u8, a: Word, b: Word) -> Result<Word, AllocError>
        requires binary { IsTrue (is_binary op) }
        requires a_held { Holds self.old a }
        requires b_held { Holds self.old b }
        requires a_width { HasWidth (operand_bits op) (term_of self.old a) }
        requires b_width { HasWidth (operand_bits op) (term_of self.old b) }
        ensures ok { IfOk result (λ w. Makes self.old (terms.binary op (term_of self.old a) (term_of self.old b)) w self.new) }
        ensures width { IfOk result (λ w. HasBits (result_bits op) (term_of self.new w)) }
        ensures value { IfOk result (λ w. (input : Items ℕ) → value_of input (term_of self.new w) ≡ total op (value_of input (term_of self.old a)) (value_of input (term_of self.old b))) }
        ensures keeps { Kept Holds term_of self.old self.new }
        ensures err { OnErr result (self.new ≡ self.old) }
    {
        self.make(Form::Bin { op, a, b })
    }

    fn choose(&mut self, wide: bool, c: Word, a: Word, b: Word) -> Result<Word, AllocError>
        requires c_held { Holds self.old c }
        requires a_held { Holds self.old a }
        requires b_held { Holds self.old b }
        requires c_width { HasSome HasWidth (term_of self.old c) }
        requires a_width { HasWidth (bits_where wide) (term_of self.old a) }
        requires b_width { HasWidth (bits_where wide) (term_of self.old b) }
        ensures ok { IfOk result (λ w. Makes self.old (terms.choose wide (term_of self.old c) (term_of self.old a) (term_of self.old b)) w self.new) }
        ensures width { IfOk result (λ w. HasBits (bits_where wide) (term_of self.new w)) }
        ensures value { IfOk result (λ w. (input : Items ℕ) → value_of input (term_of self.new w) ≡ chosen (value_of input (term_of self.old c)) (value_of input (term_of self.old a)) (value_of input (term_of self.old b))) }
        ensures keeps { Kept Holds term_of self.old self.new }
        ensures err { OnErr result (self.new ≡ self.old) }
    {
        self.make(Form::Choose { wide, c, a, b })
    }

    fn byte(&mut self, a: Word, i: u32) -> Result<Word, AllocError>
        requires place { i < 8 }
        requires a_held { Holds self.old a }
        requires a_width { HasSome HasWidth (term_of self.old a) }
        ensures ok { IfOk result (λ w. Makes self.old (terms.byte (term_of self.old a) i) w self.new) }
        ensures width { IfOk result (λ w. HasBits 8 (term_of self.new w)) }
        ensures value { IfOk result (λ w. (input : Items ℕ) → value_of input (term_of self.new w) ≡ byte_of (value_of input (term_of self.old a)) i) }
        ensures keeps { Kept Holds term_of self.old self.new }
        ensures err { OnErr result (self.new ≡ self.old) }
    {
        self.make(Form::Byte { a, i })
    }

    fn join(&mut self, wide: bool, bytes: &[Word]) -> Result<Word, AllocError>
        requires count { CanJoin wide (length bytes.now) }
        requires bytes_held { All (Holds self.old) bytes.now }
        requires bytes_width { All (λ b. HasWidth 8 (term_of self.old b)) bytes.now }
        ensures ok { IfOk result (λ w. Makes self.old (terms.join wide (map (term_of self.old) bytes.now)) w self.new) }
        ensures width { IfOk result (λ w. HasBits (bits_where wide) (term_of self.new w)) }
        ensures value { IfOk result (λ w. (input : Items ℕ) → value_of input (term_of self.new w) ≡ joined (map (λ b. value_of input (term_of self.old b)) bytes.now)) }
        ensures keeps { Kept Holds term_of self.old self.new }
        ensures err { OnErr result (self.new ≡ self.old) }
    {
        let bytes = self.listed(bytes)?;
        self.make(Form::Join { wide, bytes })
    }

    fn number(&self, a: Word) -> Option<u64>
        requires { Holds self.now a }
        ensures { result ≡ number_of (term_of self.now a) }
    {
        self.as_number(a)
    }
}
