// The making rule of a comparison that is tested again, in code.
ghost use Rattle.std.specs.Prelude.{◌≡◌, ◌+◌, Some, List, length};
ghost use Rattle.bv_terms.specs.Terms.{Term, Unary as UnaryOf, Binary as BinaryOf};
ghost use Rattle.bv_terms.specs.Making.{compares as compares_at, is_comparison as is_compared, under_eqz as operand_of_eqz, where_compared as if_compared, of_comparison as comparison_rule};
ghost use Rattle.bv_terms.specs.Graphs.{IsBelow, OperandsBelow, word_among, form_among, terms_of, IsGraph, RuleGives};

use crate::forms::Forms;
use crate::operations::is_the;
use crate::words::{FIRST, Form, Word};

const I32_EQZ: u8 = 0x45;

const I32_NE: u8 = 0x47;

/// i32.eqz of i32.eqz of a comparison gives that comparison; i32.ne of a comparison and, on the right, the number 0 gives that
/// comparison.
pub fn of_comparison(forms: &Forms, form: &Form) -> Option<Word>
    requires kept { IsGraph forms.now }
    requires below { OperandsBelow (256 + length forms.now) form.now }
    ensures { RuleGives forms.now (comparison_rule (form_among (terms_of forms.now) form.now)) result }
{
    match form {
        Form::Un { op, a } => eqz_of(forms, *op, *a),
        Form::Bin { op, a, b } => ne_of(forms, *op, *a, *b),
        _ => None,
    }
}

fn eqz_of(forms: &Forms, op: u8, a: Word) -> Option<Word>
    requires kept { IsGraph forms.now }
    requires below { IsBelow (256 + length forms.now) a }
    ensures { RuleGives forms.now (comparison_rule (UnaryOf op (word_among (terms_of forms.now) a))) result }
{
    if op != I32_EQZ {
        return None;
    }
    match under_eqz(forms, a) {
        Some(t) => where_compared(forms, t),
        None => None,
    }
}

fn ne_of(forms: &Forms, op: u8, a: Word, b: Word) -> Option<Word>
    requires kept { IsGraph forms.now }
    requires a_below { IsBelow (256 + length forms.now) a }
    requires b_below { IsBelow (256 + length forms.now) b }
    ensures { RuleGives forms.now (comparison_rule (BinaryOf op (word_among (terms_of forms.now) a) (word_among (terms_of forms.now) b))) result }
{
    if op == I32_NE && is_the(forms, Some(0), b) {
        where_compared(forms, a)
    } else {
        None
    }
}

fn where_compared(forms: &Forms, word: Word) -> Option<Word>
    requires kept { IsGraph forms.now }
    requires below { IsBelow (256 + length forms.now) word }
    ensures { RuleGives forms.now (if_compared (Some (word_among (terms_of forms.now) word))) result }
{
    if is_comparison(forms, word) {
        Some(word)
    } else {
        None
    }
}

/// What a word is the i32.eqz of.
fn under_eqz(forms: &Forms, word: Word) -> Option<Word>
    requires kept { IsGraph forms.now }
    requires below { IsBelow (256 + length forms.now) word }
    ensures { RuleGives forms.now (operand_of_eqz (word_among (terms_of forms.now) word)) result }
{
    match word {
        Word::Num(_) => None,
        Word::Term(t) => match forms.get(t - FIRST) {
            Form::Un { op, a } => operand_where_eqz(forms, *op, *a),
            _ => None,
        },
    }
}

fn operand_where_eqz(forms: &Forms, op: u8, a: Word) -> Option<Word>
    requires below { IsBelow (256 + length forms.now) a }
    ensures { RuleGives forms.now (operand_of_eqz (UnaryOf op (word_among (terms_of forms.now) a))) result }
{
    if op == I32_EQZ { Some(a) } else { None }
}

/// Whether a word is a comparison: its value is 0 or 1.
fn is_comparison(forms: &Forms, word: Word) -> bool
    requires kept { IsGraph forms.now }
    requires below { IsBelow (256 + length forms.now) word }
    ensures { result ≡ is_compared (word_among (terms_of forms.now) word) }
{
    match word {
        Word::Num(_) => false,
        Word::Term(t) => form_compares(forms.get(t - FIRST)),
    }
}

fn form_compares(form: &Form) -> bool
    ensures { (terms : List Term) → result ≡ is_compared (form_among terms form.now) }
{
    match form {
        Form::Un { op, a: _ } => compares(*op),
        Form::Bin { op, a: _, b: _ } => compares(*op),
        Form::Symbol { number: _, wide: _ } => false,
        Form::Choose {
            wide: _,
            c: _,
            a: _,
            b: _,
        } => false,
        Form::Byte { a: _, i: _ } => false,
        Form::Join { wide: _, bytes: _ } => false,
    }
}

/// Whether an opcode is of a test or a comparison.
fn compares(op: u8) -> bool
    ensures { result ≡ compares_at op }
{
    I32_EQZ <= op && op <= 0x5A
}
