// The making rules, in code: each says which word is made in place of a form, where it fits.
ghost use Rattle.std.specs.Prelude.{◌==◌, ◌&&◌, Some, None, ◌≡◌, ◌↔◌, ◌+◌, ◌<◌, ◌≤◌, List, All, IsTrue, map, length, slice_get, unwrap_or};
ghost use Rattle.int_ops.specs.Operators.{is_unary, is_binary, operand_bits, result_bits};
ghost use Rattle.wasm_rules.specs.Words.{bits_where};
ghost use Rattle.bv_terms.specs.declared.words.Word.TheVariants.{Num};
ghost use Rattle.bv_terms.specs.Terms.{Term, Unary as UnaryOf, Binary as BinaryOf, Choose as ChooseOf, Byte as ByteOf, Join as JoinOf, bytes_from, HasWidth, width_of, are_same};
ghost use Rattle.bv_terms.specs.Making.{of_numbers as numbers_rule, chosen_side as choice_rule, chosen_by as by_condition, byte_of_join as byte_rule, join_of_bytes as join_rule, whole as whole_or_none, bytes_of_term, bytes_where, first_of, rules};
ghost use Rattle.bv_terms.specs.Graphs.{IsBelow, OperandsBelow, word_among, form_among, terms_of, IsGraph, RuleGives};

use crate::comparisons::of_comparison;
use crate::forms::Forms;
use crate::operations::{adds_nothing, are_same, changes_nothing, leaves_nothing, of_same};
use crate::words::{FIRST, Form, Word};
use int_ops::{byte, join, operator, total, un};

/// The word that the first rule that fits gives.
pub fn by_rules(forms: &Forms, form: &Form) -> Option<Word>
    requires kept { IsGraph forms.now }
    requires below { OperandsBelow (256 + length forms.now) form.now }
    requires typed { HasWidth (width_of (form_among (terms_of forms.now) form.now)) (form_among (terms_of forms.now) form.now) }
    ensures { RuleGives forms.now (first_of rules (form_among (terms_of forms.now) form.now)) result }
{
    if let Some(word) = of_numbers(forms, form) {
        return Some(word);
    }
    if let Some(word) = chosen_side(forms, form) {
        return Some(word);
    }
    if let Some(word) = byte_of_join(forms, form) {
        return Some(word);
    }
    if let Some(word) = join_of_bytes(forms, form) {
        return Some(word);
    }
    if let Some(word) = adds_nothing(forms, form) {
        return Some(word);
    }
    if let Some(word) = changes_nothing(forms, form) {
        return Some(word);
    }
    if let Some(word) = leaves_nothing(forms, form) {
        return Some(word);
    }
    if let Some(word) = of_comparison(forms, form) {
        return Some(word);
    }
    of_same(forms, form)
}

/// An operation whose operands are all numbers gives the number.
fn of_numbers(forms: &Forms, form: &Form) -> Option<Word>
    requires kept { IsGraph forms.now }
    requires below { OperandsBelow (256 + length forms.now) form.now }
    requires typed { HasWidth (width_of (form_among (terms_of forms.now) form.now)) (form_among (terms_of forms.now) form.now) }
    ensures { RuleGives forms.now (numbers_rule (form_among (terms_of forms.now) form.now)) result }
{
    match form {
        Form::Symbol { number: _, wide: _ } => None,
        Form::Un { op, a } => unary_number(forms, *op, *a),
        Form::Bin { op, a, b } => binary_number(forms, *op, *a, *b),
        Form::Choose { wide, c, a, b } => chosen_number(forms, *wide, *c, *a, *b),
        Form::Byte { a, i } => byte_number(forms, *a, *i),
        Form::Join { wide, bytes } => joined_number(forms, *wide, bytes.as_slice()),
    }
}

fn unary_number(forms: &Forms, op: u8, a: Word) -> Option<Word>
    requires kept { IsGraph forms.now }
    requires below { IsBelow (256 + length forms.now) a }
    requires unary { IsTrue (is_unary op) }
    requires width { HasWidth (operand_bits op) (word_among (terms_of forms.now) a) }
    ensures { RuleGives forms.now (numbers_rule (UnaryOf op (word_among (terms_of forms.now) a))) result }
{
    match a {
        Word::Num(n) => Some(Word::Num(un(op, n))),
        Word::Term(_) => None,
    }
}

fn binary_number(forms: &Forms, op: u8, a: Word, b: Word) -> Option<Word>
    requires kept { IsGraph forms.now }
    requires a_below { IsBelow (256 + length forms.now) a }
    requires b_below { IsBelow (256 + length forms.now) b }
    requires binary { IsTrue (is_binary op) }
    requires a_width { HasWidth (operand_bits op) (word_among (terms_of forms.now) a) }
    requires b_width { HasWidth (operand_bits op) (word_among (terms_of forms.now) b) }
    ensures { RuleGives forms.now (numbers_rule (BinaryOf op (word_among (terms_of forms.now) a) (word_among (terms_of forms.now) b))) result }
{
    match a {
        Word::Num(n) => match b {
            Word::Num(m) => Some(Word::Num(total(op, n, m))),
            Word::Term(_) => None,
        },
        Word::Term(_) => None,
    }
}

fn chosen_number(forms: &Forms, wide: bool, c: Word, a: Word, b: Word) -> Option<Word>
    requires kept { IsGraph forms.now }
    requires c_below { IsBelow (256 + length forms.now) c }
    requires a_below { IsBelow (256 + length forms.now) a }
    requires b_below { IsBelow (256 + length forms.now) b }
    ensures { RuleGives forms.now (numbers_rule (ChooseOf wide (word_among (terms_of forms.now) c) (word_among (terms_of forms.now) a) (word_among (terms_of forms.now) b))) result }
{
    match c {
        Word::Num(k) => match a {
            Word::Num(n) => match b {
                Word::Num(m) => Some(Word::Num(if k == 0 { m } else { n })),
                Word::Term(_) => None,
            },
            Word::Term(_) => None,
        },
        Word::Term(_) => None,
    }
}

fn byte_number(forms: &Forms, a: Word, i: u32) -> Option<Word>
    requires kept { IsGraph forms.now }
    requires below { IsBelow (256 + length forms.now) a }
    requires place { i < 8 }
    ensures { RuleGives forms.now (numbers_rule (ByteOf (word_among (terms_of forms.now) a) i)) result }
{
    match a {
        Word::Num(n) => Some(Word::Num(byte(n, i))),
        Word::Term(_) => None,
    }
}

fn joined_number(forms: &Forms, wide: bool, bytes: &[Word]) -> Option<Word>
    requires kept { IsGraph forms.now }
    requires below { All (IsBelow (256 + length forms.now)) bytes.now }
    requires count { length bytes.now ≤ 8 }
    requires each { All (λ b. HasWidth 8 (word_among (terms_of forms.now) b)) bytes.now }
    ensures { RuleGives forms.now (numbers_rule (JoinOf wide (bytes_from (map (word_among (terms_of forms.now)) bytes.now)))) result }
{
    let mut all = [0; 8];
    for i in 0..bytes.len() {
        match bytes[i] {
            Word::Num(n) => all[i] = n,
            Word::Term(_) => return None,
        }
    }
    Some(Word::Num(join(&all[..bytes.len()])))
}

/// A choice by a number gives the chosen side, and a choice of one word twice gives that word.
fn chosen_side(forms: &Forms, form: &Form) -> Option<Word>
    requires kept { IsGraph forms.now }
    requires below { OperandsBelow (256 + length forms.now) form.now }
    ensures { RuleGives forms.now (choice_rule (form_among (terms_of forms.now) form.now)) result }
{
    match form {
        Form::Choose { wide, c, a, b } => side(forms, *wide, *c, *a, *b),
        _ => None,
    }
}

fn side(forms: &Forms, wide: bool, c: Word, a: Word, b: Word) -> Option<Word>
    requires kept { IsGraph forms.now }
    requires c_below { IsBelow (256 + length forms.now) c }
    requires a_below { IsBelow (256 + length forms.now) a }
    requires b_below { IsBelow (256 + length forms.now) b }
    ensures { RuleGives forms.now (choice_rule (ChooseOf wide (word_among (terms_of forms.now) c) (word_among (terms_of forms.now) a) (word_among (terms_of forms.now) b))) result }
{
    match c {
        Word::Num(n) => Some(if n == 0 { b } else { a }),
        Word::Term(_) => either_side(forms, a, b),
    }
}

fn either_side(forms: &Forms, a: Word, b: Word) -> Option<Word>
    requires kept { IsGraph forms.now }
    requires a_below { IsBelow (256 + length forms.now) a }
    requires b_below { IsBelow (256 + length forms.now) b }
    ensures { RuleGives forms.now (by_condition None (word_among (terms_of forms.now) a) (word_among (terms_of forms.now) b)) result }
{
    if are_same(forms, a, b) { Some(a) } else { None }
}

/// A byte of a join is the joined byte at its place, and 0 past them.
fn byte_of_join(forms: &Forms, form: &Form) -> Option<Word>
    requires kept { IsGraph forms.now }
    requires below { OperandsBelow (256 + length forms.now) form.now }
    ensures { RuleGives forms.now (byte_rule (form_among (terms_of forms.now) form.now)) result }
{
    match form {
        Form::Byte { a, i } => byte_of_word(forms, *a, *i),
        _ => None,
    }
}

fn byte_of_word(forms: &Forms, a: Word, i: u32) -> Option<Word>
    requires kept { IsGraph forms.now }
    requires below { IsBelow (256 + length forms.now) a }
    ensures { RuleGives forms.now (byte_rule (ByteOf (word_among (terms_of forms.now) a) i)) result }
{
    match a {
        Word::Num(_) => None,
        Word::Term(t) => match forms.get(t - FIRST) {
            Form::Join { wide: _, bytes } => Some(byte_at(bytes.as_slice(), i as usize)),
            _ => None,
        },
    }
}

fn byte_at(bytes: &[Word], i: usize) -> Word
    ensures { result ≡ unwrap_or (slice_get bytes.now i) (Num 0) }
{
    if i < bytes.len() {
        bytes[i]
    } else {
        Word::Num(0)
    }
}

/// A join, to the width of a term, of all bytes of that one term in order is the term.
fn join_of_bytes(forms: &Forms, form: &Form) -> Option<Word>
    requires kept { IsGraph forms.now }
    requires below { OperandsBelow (256 + length forms.now) form.now }
    ensures { RuleGives forms.now (join_rule (form_among (terms_of forms.now) form.now)) result }
{
    match form {
        Form::Join { wide, bytes } => whole(forms, *wide, bytes.as_slice()),
        _ => None,
    }
}

fn whole(forms: &Forms, wide: bool, bytes: &[Word]) -> Option<Word>
    requires kept { IsGraph forms.now }
    requires below { All (IsBelow (256 + length forms.now)) bytes.now }
    ensures { RuleGives forms.now (join_rule (JoinOf wide (bytes_from (map (word_among (terms_of forms.now)) bytes.now)))) result }
{
    if bytes.is_empty() {
        return None;
    }
    whole_from(forms, wide, bytes, bytes[0])
}

fn whole_from(forms: &Forms, wide: bool, bytes: &[Word], first: Word) -> Option<Word>
    requires kept { IsGraph forms.now }
    requires below { All (IsBelow (256 + length forms.now)) bytes.now }
    requires first { slice_get bytes.now 0 ≡ Some first }
    requires first_below { IsBelow (256 + length forms.now) first }
    ensures { RuleGives forms.now (join_rule (JoinOf wide (bytes_from (map (word_among (terms_of forms.now)) bytes.now)))) result }
{
    match first {
        Word::Num(_) => None,
        Word::Term(t) => match forms.get(t - FIRST) {
            Form::Byte { a, i: _ } => where_whole(forms, wide, bytes, *a),
            _ => None,
        },
    }
}

fn where_whole(forms: &Forms, wide: bool, bytes: &[Word], a: Word) -> Option<Word>
    requires kept { IsGraph forms.now }
    requires below { All (IsBelow (256 + length forms.now)) bytes.now }
    requires a_below { IsBelow (256 + length forms.now) a }
    ensures { RuleGives forms.now (whole_or_none wide (bytes_from (map (word_among (terms_of forms.now)) bytes.now)) (word_among (terms_of forms.now) a)) result }
{
    if is_whole(forms, wide, bytes, a) {
        Some(a)
    } else {
        None
    }
}

/// Whether a word has the width of the join, and the words joined are all its bytes.
fn is_whole(forms: &Forms, wide: bool, bytes: &[Word], a: Word) -> bool
    requires kept { IsGraph forms.now }
    requires below { All (IsBelow (256 + length forms.now)) bytes.now }
    requires a_below { IsBelow (256 + length forms.now) a }
    ensures { result ≡ (width_of (word_among (terms_of forms.now) a) == bits_where wide && are_same (bytes_from (map (word_among (terms_of forms.now)) bytes.now)) (bytes_of_term (word_among (terms_of forms.now) a) 0 (bytes_where wide))) }
{
    width(forms, a) == bits(wide) && are_all_bytes(forms, bytes, a, wide)
}

fn bits(wide: bool) -> u32
    ensures { result ≡ bits_where wide }
{
    if wide { 64 } else { 32 }
}

/// The own width of a word, and 0 of a number.
fn width(forms: &Forms, word: Word) -> u32
    requires kept { IsGraph forms.now }
    requires below { IsBelow (256 + length forms.now) word }
    ensures { result ≡ width_of (word_among (terms_of forms.now) word) }
{
    match word {
        Word::Num(_) => 0,
        Word::Term(t) => width_of_form(forms.get(t - FIRST)),
    }
}

fn width_of_form(form: &Form) -> u32
    ensures { (terms : List Term) → result ≡ width_of (form_among terms form.now) }
{
    match form {
        Form::Symbol { number: _, wide } => bits(*wide),
        Form::Un { op, a: _ } => result_width(*op),
        Form::Bin { op, a: _, b: _ } => result_width(*op),
        Form::Choose {
            wide,
            c: _,
            a: _,
            b: _,
        } => bits(*wide),
        Form::Byte { a: _, i: _ } => 8,
        Form::Join { wide, bytes: _ } => bits(*wide),
    }
}

fn result_width(op: u8) -> u32
    ensures { result ≡ result_bits op }
{
    match operator(op) {
        Some(operator) => operator.result.bits(),
        None => 0,
    }
}

/// Whether the words are all bytes of one word, in order.
fn are_all_bytes(forms: &Forms, bytes: &[Word], a: Word, wide: bool) -> bool
    requires kept { IsGraph forms.now }
    requires below { All (IsBelow (256 + length forms.now)) bytes.now }
    requires a_below { IsBelow (256 + length forms.now) a }
    ensures { result ≡ are_same (bytes_from (map (word_among (terms_of forms.now)) bytes.now)) (bytes_of_term (word_among (terms_of forms.now) a) 0 (bytes_where wide)) }
{
    if bytes.len() != count(wide) {
        return false;
    }
    for i in 0..bytes.len() {
        if !is_byte(forms, bytes[i], a, i as u32) {
            return false;
        }
    }
    true
}

fn count(wide: bool) -> usize
    ensures { result ≡ bytes_where wide }
{
    if wide { 8 } else { 4 }
}

/// Whether a word is byte i of another.
fn is_byte(forms: &Forms, word: Word, a: Word, i: u32) -> bool
    requires kept { IsGraph forms.now }
    requires below { IsBelow (256 + length forms.now) word }
    requires a_below { IsBelow (256 + length forms.now) a }
    ensures { IsTrue result ↔ (word_among (terms_of forms.now) word ≡ ByteOf (word_among (terms_of forms.now) a) i) }
{
    match word {
        Word::Num(_) => false,
        Word::Term(t) => match forms.get(t - FIRST) {
            Form::Byte { a: b, i: j } => are_equal(*b, *j, a, i),
            _ => false,
        },
    }
}

fn are_equal(b: Word, j: u32, a: Word, i: u32) -> bool
    ensures { IsTrue result ↔ ((b ≡ a) × (j ≡ i)) }
{
    b == a && j == i
}
