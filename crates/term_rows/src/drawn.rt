// Which terms of a graph are over symbols of given widths.
ghost use Rattle.std.specs.Prelude.{◌≡◌, ◌↔◌, IsTrue, IfOk, All, slice_get, Some};
ghost use Rattle.bv_terms.specs.declared.words.Word.TheVariants.{Term as Numbered};
ghost use Rattle.bv_terms.specs.Graphs.{Holds};
ghost use Rattle.term_rows.specs.Sessions.{HaveSymbols, IsOver, AreOver, IsAsked, is_over as is_over_of};

use bv_terms::{Form, Graph, TermId, Word};
use std::alloc::{AllocError, Global};

/// The number of the first term of a graph.
const FIRST: TermId = 256;

/// The widths of symbols (true is 64 bits), and for each term of a graph whether all its symbols are among them.
#[derive(Drop)]
pub struct Drawn {
    pub draws: Vec<bool>,
    pub flags: Vec<bool>,
}

// Whether a word is a number, or a term with a true flag.
fn is_over(word: Word, flags: &[bool]) -> bool
    ensures { result ≡ is_over_of flags.now word }
{
    match word {
        Word::Num(_) => true,
        Word::Term(t) => {
            let place = t.saturating_sub(FIRST);
            place < flags.len() as u64 && flags[place as usize]
        }
    }
}

fn are_over(words: &[Word], flags: &[bool]) -> bool
    ensures { IsTrue result ↔ All (λ word. IsTrue (is_over_of flags.now word)) words.now }
{
    words.iter().all(|word| is_over(*word, flags))
}

// Whether the symbol of a number was drawn with a width.
fn was_drawn(draws: &[bool], number: u64, wide: bool) -> bool
    ensures { IsTrue result → slice_get draws.now number ≡ Some wide }
{
    if number < draws.len() as u64 {
        let drawn = draws[number as usize];
        if wide { drawn } else { !drawn }
    } else {
        false
    }
}

// Whether a form is a symbol with its width, or each of its operands is a number or a term with a true flag.
fn form_is_over(form: &Form, draws: &[bool], flags: &[bool]) -> bool
    ensures { IsTrue result → IsOver draws.now flags.now form.now }
{
    match form {
        Form::Symbol { number, wide } => was_drawn(draws, *number, *wide),
        Form::Un { op: _, a } => is_over(*a, flags),
        Form::Bin { op: _, a, b } => is_over(*a, flags) && is_over(*b, flags),
        Form::Choose { wide: _, c, a, b } => {
            is_over(*c, flags) && is_over(*a, flags) && is_over(*b, flags)
        }
        Form::Byte { a, i: _ } => is_over(*a, flags),
        Form::Join { wide: _, bytes } => are_over(bytes.as_slice(), flags),
    }
}

fn flags_of(alloc: Global, g: &Graph, draws: &[bool]) -> Result<Vec<bool>, AllocError>
    ensures { IfOk result (λ flags. HaveSymbols g.now draws.now flags.items) }
{
    let mut flags = Vec::new(alloc);
    for place in 0..g.terms() {
        let form = g.form(FIRST + place);
        flags.push(form_is_over(form, draws, flags.as_slice()))?;
    }
    Ok(flags)
}

impl Drawn {
    /// Symbols of these widths, and a graph.
    pub fn new(alloc: Global, g: &Graph, draws: Vec<bool>) -> Result<Drawn, AllocError>
        ensures { IfOk result (AreOver g.now) }
    {
        let flags = flags_of(alloc, g, draws.as_slice())?;
        Ok(Drawn { draws, flags })
    }

    /// Whether all symbols of a term of that graph are among these.
    pub fn has(&self, g: &Graph, t: TermId) -> bool
        requires held { Holds g.now (Numbered t) }
        requires over { AreOver g.now self.now }
        ensures { IsTrue result → IsAsked g.now self.now t }
    {
        let _terms = g.terms();
        is_over(Word::Term(t), self.flags.as_slice())
    }
}
