// The making rules that go by the operation on two operands, in code.
ghost use Rattle.std.specs.Prelude.{◌≡◌, ◌↔◌, ◌+◌, Some, IsTrue, length};
ghost use Rattle.int_ops.specs.Operators.{bits_of};
ghost use Rattle.bv_terms.specs.declared.words.Form.TheVariants.{Bin as BinOf};
ghost use Rattle.bv_terms.specs.Terms.{is_same};
ghost use Rattle.bv_terms.specs.Making.{by_operation, is_the as is_the_number, other_side as side_rule, no_side as clearing_rule, zero_on_left as left_zero, zero_on_right as right_zero, adds_nothing as zero_rule, one_on_left as left_one, one_on_right as right_one, changes_nothing as one_rule, clearing_left as left_clearing, clearing_right as right_clearing, leaves_nothing as clearing, with_itself as itself_rule, of_same as same_rule};
ghost use Rattle.bv_terms.specs.Graphs.{IsBelow, OperandsBelow, word_among, form_among, terms_of, IsGraph, RuleGives};
ghost use Rattle.bv_terms.specs.Operations.{IsOnTwo};

use crate::forms::Forms;
use crate::words::{Form, Word};
use int_ops::{Binary, Operation, Width, operator};

/// An operation on two words, with their width.
#[derive(Clone, Copy)]
pub struct OnTwo {
    operation: Binary,
    width: Width,
    a: Word,
    b: Word,
}

/// The operation of a form, where it is one on two words.
fn on_two(form: &Form) -> Option<OnTwo>
    ensures { IsOnTwo form.now result }
{
    match form {
        Form::Bin { op, a, b } => of_opcode(*op, *a, *b),
        _ => None,
    }
}

fn of_opcode(op: u8, a: Word, b: Word) -> Option<OnTwo>
    ensures { IsOnTwo (BinOf op a b) result }
{
    match operator(op) {
        Some(of) => match of.operation {
            Operation::OfTwo(operation) => Some(OnTwo {
                operation,
                width: of.operand,
                a,
                b,
            }),
            Operation::OfOne(_) => None,
        },
        None => None,
    }
}

/// add, or, xor with the number 0 on either side, and sub, shifts and rotations with the number 0 on the right, give the other
/// side.
pub fn adds_nothing(forms: &Forms, form: &Form) -> Option<Word>
    requires kept { IsGraph forms.now }
    requires below { OperandsBelow (256 + length forms.now) form.now }
    ensures { RuleGives forms.now (by_operation zero_rule (form_among (terms_of forms.now) form.now)) result }
{
    match on_two(form) {
        Some(of) => other_side(
            forms,
            zero_on_left(of.operation),
            zero_on_right(of.operation),
            of.a,
            of.b,
        ),
        None => None,
    }
}

/// mul with the number 1 on either side, and with the number of all ones on either side, and div_s, div_u with the number 1 on
/// the right, give the other side.
pub fn changes_nothing(forms: &Forms, form: &Form) -> Option<Word>
    requires kept { IsGraph forms.now }
    requires below { OperandsBelow (256 + length forms.now) form.now }
    ensures { RuleGives forms.now (by_operation one_rule (form_among (terms_of forms.now) form.now)) result }
{
    match on_two(form) {
        Some(of) => other_side(
            forms,
            one_on_left(of.operation, of.width),
            one_on_right(of.operation, of.width),
            of.a,
            of.b,
        ),
        None => None,
    }
}

/// mul, and with the number 0 on either side, and rem_s, rem_u with the number 1 on the right, give 0.
pub fn leaves_nothing(forms: &Forms, form: &Form) -> Option<Word>
    requires kept { IsGraph forms.now }
    requires below { OperandsBelow (256 + length forms.now) form.now }
    ensures { RuleGives forms.now (by_operation clearing (form_among (terms_of forms.now) form.now)) result }
{
    match on_two(form) {
        Some(of) => no_side(
            forms,
            clearing_left(of.operation),
            clearing_right(of.operation),
            of.a,
            of.b,
        ),
        None => None,
    }
}

/// For two operands that are the same word: and, or give it, and comparisons, xor and sub give 0 or 1.
pub fn of_same(forms: &Forms, form: &Form) -> Option<Word>
    requires kept { IsGraph forms.now }
    requires below { OperandsBelow (256 + length forms.now) form.now }
    ensures { RuleGives forms.now (by_operation same_rule (form_among (terms_of forms.now) form.now)) result }
{
    match on_two(form) {
        Some(of) => where_same(forms, of.operation, of.width, of.a, of.b),
        None => None,
    }
}

// ---- the parts of the rules

fn other_side(
    forms: &Forms,
    left: Option<u64>,
    right: Option<u64>,
    a: Word,
    b: Word,
) -> Option<Word>
    requires kept { IsGraph forms.now }
    requires a_below { IsBelow (256 + length forms.now) a }
    requires b_below { IsBelow (256 + length forms.now) b }
    ensures { RuleGives forms.now (side_rule left right (word_among (terms_of forms.now) a) (word_among (terms_of forms.now) b)) result }
{
    if is_the(forms, left, a) {
        return Some(b);
    }
    if is_the(forms, right, b) {
        return Some(a);
    }
    None
}

fn no_side(forms: &Forms, left: Option<u64>, right: Option<u64>, a: Word, b: Word) -> Option<Word>
    requires kept { IsGraph forms.now }
    requires a_below { IsBelow (256 + length forms.now) a }
    requires b_below { IsBelow (256 + length forms.now) b }
    ensures { RuleGives forms.now (clearing_rule left right (word_among (terms_of forms.now) a) (word_among (terms_of forms.now) b)) result }
{
    if is_the(forms, left, a) || is_the(forms, right, b) {
        Some(Word::Num(0))
    } else {
        None
    }
}

fn where_same(forms: &Forms, operation: Binary, width: Width, a: Word, b: Word) -> Option<Word>
    requires kept { IsGraph forms.now }
    requires a_below { IsBelow (256 + length forms.now) a }
    requires b_below { IsBelow (256 + length forms.now) b }
    ensures { RuleGives forms.now (same_rule operation (bits_of width) (word_among (terms_of forms.now) a) (word_among (terms_of forms.now) b)) result }
{
    if are_same(forms, a, b) {
        with_itself(forms, operation, a)
    } else {
        None
    }
}

/// Whether a word is the number that is wanted, where one is.
pub fn is_the(forms: &Forms, wanted: Option<u64>, word: Word) -> bool
    requires kept { IsGraph forms.now }
    requires below { IsBelow (256 + length forms.now) word }
    ensures { result ≡ is_the_number wanted (word_among (terms_of forms.now) word) }
{
    match wanted {
        Some(n) => is_number(forms, n, word),
        None => false,
    }
}

fn is_number(forms: &Forms, n: u64, word: Word) -> bool
    requires kept { IsGraph forms.now }
    requires below { IsBelow (256 + length forms.now) word }
    ensures { result ≡ is_the_number (Some n) (word_among (terms_of forms.now) word) }
{
    match word {
        Word::Num(m) => n == m,
        Word::Term(_) => false,
    }
}

/// Whether two words are the same term.
pub fn are_same(forms: &Forms, a: Word, b: Word) -> bool
    requires kept { IsGraph forms.now }
    requires a_below { IsBelow (256 + length forms.now) a }
    requires b_below { IsBelow (256 + length forms.now) b }
    ensures { result ≡ is_same (word_among (terms_of forms.now) a) (word_among (terms_of forms.now) b) }
{
    is_word(a, b)
}

fn is_word(a: Word, b: Word) -> bool
    ensures { IsTrue result ↔ (a ≡ b) }
{
    a == b
}

// ---- which numbers and which operations

fn zero_on_left(operation: Binary) -> Option<u64>
    ensures { result ≡ left_zero operation }
{
    match operation {
        Binary::Add => Some(0),
        Binary::Or => Some(0),
        Binary::Xor => Some(0),
        _ => None,
    }
}

fn zero_on_right(operation: Binary) -> Option<u64>
    ensures { result ≡ right_zero operation }
{
    match operation {
        Binary::Add => Some(0),
        Binary::Or => Some(0),
        Binary::Xor => Some(0),
        Binary::Sub => Some(0),
        Binary::Shl => Some(0),
        Binary::ShrS => Some(0),
        Binary::ShrU => Some(0),
        Binary::Rotl => Some(0),
        Binary::Rotr => Some(0),
        _ => None,
    }
}

fn one_on_left(operation: Binary, width: Width) -> Option<u64>
    ensures { result ≡ left_one operation (bits_of width) }
{
    match operation {
        Binary::Mul => Some(1),
        Binary::And => Some(width.minus_one()),
        _ => None,
    }
}

fn one_on_right(operation: Binary, width: Width) -> Option<u64>
    ensures { result ≡ right_one operation (bits_of width) }
{
    match operation {
        Binary::Mul => Some(1),
        Binary::And => Some(width.minus_one()),
        Binary::DivS => Some(1),
        Binary::DivU => Some(1),
        _ => None,
    }
}

fn clearing_left(operation: Binary) -> Option<u64>
    ensures { result ≡ left_clearing operation }
{
    match operation {
        Binary::Mul => Some(0),
        Binary::And => Some(0),
        _ => None,
    }
}

fn clearing_right(operation: Binary) -> Option<u64>
    ensures { result ≡ right_clearing operation }
{
    match operation {
        Binary::Mul => Some(0),
        Binary::And => Some(0),
        Binary::RemS => Some(1),
        Binary::RemU => Some(1),
        _ => None,
    }
}

/// What an operation gives of one word twice.
fn with_itself(forms: &Forms, operation: Binary, a: Word) -> Option<Word>
    requires a_below { IsBelow (256 + length forms.now) a }
    ensures { RuleGives forms.now (itself_rule operation (word_among (terms_of forms.now) a)) result }
{
    match operation {
        Binary::And => Some(a),
        Binary::Or => Some(a),
        Binary::Xor => Some(Word::Num(0)),
        Binary::Sub => Some(Word::Num(0)),
        Binary::Ne => Some(Word::Num(0)),
        Binary::LtS => Some(Word::Num(0)),
        Binary::LtU => Some(Word::Num(0)),
        Binary::GtS => Some(Word::Num(0)),
        Binary::GtU => Some(Word::Num(0)),
        Binary::Eq => Some(Word::Num(1)),
        Binary::LeS => Some(Word::Num(1)),
        Binary::LeU => Some(Word::Num(1)),
        Binary::GeS => Some(Word::Num(1)),
        Binary::GeU => Some(Word::Num(1)),
        _ => None,
    }
}
