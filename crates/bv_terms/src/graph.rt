// The graph of terms.
ghost use Rattle.std.specs.Prelude.{◌≡◌, ◌+◌, ◌-◌, [], length, slice_get, Some, IfOk, IfErr, OnErr};
ghost use Rattle.bv_terms.specs.declared.words.Word.TheVariants.{Term as Numbered};
ghost use Rattle.bv_terms.specs.Making.{made};
ghost use Rattle.bv_terms.specs.Terms.{Symbol as SymbolOf, HasWidth, number_of, width_of};
ghost use Rattle.bv_terms.specs.Graphs.{Holds, OperandsBelow, term_of, form_term, Makes, Draws};

use crate::forms::Forms;
use crate::rules::by_rules;
use crate::words::{FIRST, Form, TermId, Word};
use std::alloc::{AllocError, Global};
use std::marker::Model;
use wasm_ast::List;

/// The greatest number of terms that a graph has.
const MOST: u64 = 1 << 60;

/// A graph of terms, each distinct term there once.
///
/// Contracts see it as the list of the forms of its terms, with the number of the symbols that were drawn. The numbers of
/// the terms are those from 256 on, in the order of the list, and the operands of a term come before it. The calls that make
/// words are those of `Algebra`: they follow the making rules, keep all terms with their numbers, and make no term that is
/// there. A refusal leaves the graph as it was. With 2^60 terms, a call that would make one more refuses.
#[derive(Drop)]
pub struct Graph {
    forms: Forms,
    drawn: u64,
    alloc: Global,
}

impl Model for Graph {
    ghost use Rattle.std.specs.Prelude.{◌≤◌, ◌^◌};
    ghost use Rattle.bv_terms.specs.Graphs.{TermGraph, IsGraph};

    ghost Value = { TermGraph };

    ghost view = { λ g. record { forms = g.forms; drawn = g.drawn } };

    ghost invariant = { λ g. IsGraph g.forms × (g.drawn ≤ 2 ^ 60) };
}

impl Graph {
    ghost use Rattle.bv_terms.specs.Graphs.{IsGraph};

    /// The graph without terms.
    pub fn new(alloc: Global) -> Result<Graph, AllocError>
        ensures { IfOk result (λ g. g ≡ record { forms = []; drawn = 0 }) }
    {
        Ok(Graph {
            forms: Forms::new(alloc),
            drawn: 0,
            alloc,
        })
    }

    /// The next symbol, of 64 bits where wide, else of 32. The first has the number 0. A refusal draws none.
    pub fn draw(&mut self, wide: bool) -> Result<Word, AllocError>
        ensures ok { IfOk result (λ w. Draws self.old wide w self.new) }
        ensures err { OnErr result (self.new ≡ self.old) }
    {
        if self.drawn >= MOST {
            return Err(AllocError);
        }
        let word = self.make(Form::Symbol {
            number: self.drawn,
            wide,
        })?;
        self.drawn += 1;
        Ok(word)
    }

    /// The symbol of a number, from 0 on, of 64 bits where wide, else of 32: the one that is there, or a new term.
    pub fn symbol(&mut self, number: u64, wide: bool) -> Result<Word, AllocError>
        ensures ok { IfOk result (λ w. Makes self.old (SymbolOf number wide) w self.new) }
        ensures err { OnErr result (self.new ≡ self.old) }
    {
        self.plain(Form::Symbol { number, wide })
    }

    /// How many terms the graph has. Their numbers are those from 256 on.
    pub fn terms(&self) -> u64
        ensures count { result ≡ length self.now.forms }
        ensures kept { IsGraph self.now.forms }
    {
        self.forms.len()
    }

    /// The form of a term of the graph, with its operands as words of the graph, which are numbers and terms before it.
    pub fn form(&self, t: TermId) -> &Form
        requires { Holds self.now (Numbered t) }
        ensures form { slice_get self.now.forms (t - 256) ≡ Some result.now }
        ensures means { term_of self.now (Numbered t) ≡ form_term self.now result.now }
        ensures typed { HasWidth (width_of (form_term self.now result.now)) (form_term self.now result.now) }
        ensures operands { OperandsBelow t result.now }
    {
        self.forms.get(t - FIRST)
    }

    /// Two graphs equal to this one, with the same numbers. Where memory is wanting, it comes back.
    pub fn freeze(self) -> Result<(Graph, Graph), Graph>
        ensures first { IfOk result (λ both. both.0 ≡ self) }
        ensures second { IfOk result (λ both. both.1 ≡ self) }
        ensures back { IfErr result (λ graph. graph ≡ self) }
    {
        let Graph {
            forms,
            drawn,
            alloc,
        } = self;
        match forms.merged().share() {
            Ok((one, other)) => Ok((
                Graph {
                    forms: one,
                    drawn,
                    alloc,
                },
                Graph {
                    forms: other,
                    drawn,
                    alloc,
                },
            )),
            Err(forms) => Err(Graph {
                forms,
                drawn,
                alloc,
            }),
        }
    }

    /// Makes the term of a form, by the making rules.
    pub(crate) fn make(&mut self, form: Form) -> Result<Word, AllocError>
        requires below { OperandsBelow (256 + length self.old.forms) form }
        requires typed { HasWidth (width_of (form_term self.old form)) (form_term self.old form) }
        ensures ok { IfOk result (λ w. Makes self.old (made (form_term self.old form)) w self.new) }
        ensures err { OnErr result (self.new ≡ self.old) }
    {
        match by_rules(&self.forms, &form) {
            Some(word) => Ok(word),
            None => self.plain(form),
        }
    }

    /// The plain term of a form: the one that is there, or a new one.
    fn plain(&mut self, form: Form) -> Result<Word, AllocError>
        requires below { OperandsBelow (256 + length self.old.forms) form }
        requires typed { HasWidth (width_of (form_term self.old form)) (form_term self.old form) }
        ensures ok { IfOk result (λ w. Makes self.old (form_term self.old form) w self.new) }
        ensures err { OnErr result (self.new ≡ self.old) }
    {
        let key = self.forms.key(&form)?;
        if let Some(i) = self.forms.find(&key) {
            return Ok(Word::Term(FIRST + i));
        }
        let count = self.forms.len();
        if count >= MOST {
            return Err(AllocError);
        }
        self.forms.push(form, key)?;
        Ok(Word::Term(FIRST + count))
    }

    /// The number that a word is, where it is one.
    pub(crate) fn as_number(&self, a: Word) -> Option<u64>
        requires { Holds self.now a }
        ensures { result ≡ number_of (term_of self.now a) }
    {
        // No term of the graph is a number.
        let _terms = &self.forms;
        match a {
            Word::Num(n) => Some(n),
            Word::Term(_) => None,
        }
    }

    /// The words in a list.
    pub(crate) fn listed(&self, words: &[Word]) -> Result<List<Word>, AllocError>
        ensures { IfOk result (λ list. list ≡ words.now) }
    {
        let items = words.to_vec(self.alloc)?;
        Ok(List::new(items))
    }
}
