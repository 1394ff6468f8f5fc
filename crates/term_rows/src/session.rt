// Words of a graph in a list, each with its width.
ghost use Rattle.std.specs.Prelude.{◌≡◌, IsTrue, IfOk, IfSome, All};
ghost use Rattle.int_ops.specs.Operators.{is_unary, is_binary};
ghost use Rattle.wasm_rules.specs.Words.{CanJoin, bits_where};
ghost use Rattle.bv_terms.specs.declared.words.Word.TheVariants.{Term as Numbered};
ghost use Rattle.bv_terms.specs.Graphs.{Holds};
ghost use Rattle.term_rows.specs.Sessions.{IsWord, IsSome, HasWidths};

use crate::forms::text_of;
use bv_terms::{Graph, Marks, TermId, Word, value_at};
use int_ops::{Operation, Operator, operator};
use std::alloc::{AllocError, Global};
use std::marker::Model;
use wasm_rules::Algebra;

/// A word and its width in bits: 8, 32 or 64.
#[derive(Clone, Copy)]
pub struct Entry {
    word: Word,
    bits: u32,
}

/// A graph and words of it. Contracts see it as the graph.
#[derive(Drop)]
pub struct Session {
    alloc: Global,
    graph: Graph,
    entries: Vec<Entry>,
}

impl Model for Session {
    ghost use Rattle.std.specs.Prelude.{All};
    ghost use Rattle.bv_terms.specs.Graphs.{TermGraph};
    ghost use Rattle.term_rows.specs.Sessions.{IsEntry};

    ghost Value = { TermGraph };

    ghost view = { λ d. d.graph };

    ghost invariant = { λ d. All (IsEntry d.graph) d.entries.items };
}

fn unary(op: u8) -> Option<Operator>
    ensures class { IfSome result (λ o. IsTrue (is_unary op)) }
    ensures widths { IfSome result (HasWidths op) }
{
    let of = operator(op)?;
    match of.operation {
        Operation::OfOne(_) => Some(of),
        Operation::OfTwo(_) => None,
    }
}

fn binary(op: u8) -> Option<Operator>
    ensures class { IfSome result (λ o. IsTrue (is_binary op)) }
    ensures widths { IfSome result (HasWidths op) }
{
    let of = operator(op)?;
    match of.operation {
        Operation::OfOne(_) => None,
        Operation::OfTwo(_) => Some(of),
    }
}

fn bits(wide: bool) -> u32
    ensures { result ≡ bits_where wide }
{
    if wide { 64 } else { 32 }
}

fn can_join(wide: bool, count: usize) -> bool
    ensures { IsTrue result → CanJoin wide count }
{
    match count {
        1 => true,
        2 => true,
        4 => true,
        8 => wide,
        _ => false,
    }
}

impl Session {
    /// An empty graph and no words.
    pub fn new(alloc: Global) -> Result<Session, AllocError> {
        let graph = Graph::new(alloc)?;
        let entries = Vec::new(alloc);
        Ok(Session {
            alloc,
            graph,
            entries,
        })
    }

    // The word at this place, if it was made with this width.
    fn word(&self, place: u64, bits: u32) -> Option<Word>
        ensures { IfSome result (IsWord self.now bits) }
    {
        if place >= self.entries.len() as u64 {
            return None;
        }
        let entry = self.entries[place as usize];
        if entry.bits == bits {
            Some(entry.word)
        } else {
            None
        }
    }

    // The word at this place.
    fn any(&self, place: u64) -> Option<Word>
        ensures { IfSome result (IsSome self.now) }
    {
        if let Some(word) = self.word(place, 8) {
            return Some(word);
        }
        if let Some(word) = self.word(place, 32) {
            return Some(word);
        }
        self.word(place, 64)
    }

    // The words at these places, if they are bytes.
    fn bytes(&self, places: &[u64]) -> Result<Option<Vec<Word>>, AllocError>
        ensures { IfOk result (λ found. IfSome found (λ v. All (IsWord self.now 8) v.items)) }
    {
        let mut words = Vec::new(self.alloc);
        for place in places {
            let Some(word) = self.word(*place, 8) else {
                return Ok(None);
            };
            words.push(word)?;
        }
        Ok(Some(words))
    }

    fn push(&mut self, word: Word, bits: u32) -> Result<Option<Word>, AllocError>
        requires { IsWord self.old bits word }
    {
        self.entries.push(Entry { word, bits })?;
        Ok(Some(word))
    }

    /// A number of 64 bits where wide, else of 32.
    pub fn constant(&mut self, wide: bool, n: u64) -> Result<Option<Word>, AllocError> {
        if !wide && n >= 0x1_0000_0000 {
            return Ok(None);
        }
        let word = self.graph.constant(n);
        self.push(word, bits(wide))
    }

    /// The next symbol.
    pub fn draw(&mut self, wide: bool) -> Result<Option<Word>, AllocError> {
        let word = self.graph.draw(wide)?;
        self.push(word, bits(wide))
    }

    /// The symbol of a number.
    pub fn symbol(&mut self, number: u64, wide: bool) -> Result<Option<Word>, AllocError> {
        let word = self.graph.symbol(number, wide)?;
        self.push(word, bits(wide))
    }

    /// The operator of a unary opcode, on the word at a place.
    pub fn un(&mut self, op: u8, a: u64) -> Result<Option<Word>, AllocError> {
        let Some(of) = unary(op) else {
            return Ok(None);
        };
        let Some(a) = self.word(a, of.operand.bits()) else {
            return Ok(None);
        };
        let word = self.graph.un(op, a)?;
        self.push(word, of.result.bits())
    }

    /// The operator of a binary opcode.
    pub fn bin(&mut self, op: u8, a: u64, b: u64) -> Result<Option<Word>, AllocError> {
        let Some(of) = binary(op) else {
            return Ok(None);
        };
        let Some(a) = self.word(a, of.operand.bits()) else {
            return Ok(None);
        };
        let Some(b) = self.word(b, of.operand.bits()) else {
            return Ok(None);
        };
        let word = self.graph.bin(op, a, b)?;
        self.push(word, of.result.bits())
    }

    /// The first of two words where the condition isn't 0, else the second.
    pub fn choose(
        &mut self,
        wide: bool,
        c: u64,
        a: u64,
        b: u64,
    ) -> Result<Option<Word>, AllocError> {
        let Some(c) = self.any(c) else {
            return Ok(None);
        };
        let Some(a) = self.word(a, bits(wide)) else {
            return Ok(None);
        };
        let Some(b) = self.word(b, bits(wide)) else {
            return Ok(None);
        };
        let word = self.graph.choose(wide, c, a, b)?;
        self.push(word, bits(wide))
    }

    /// Byte i of a word.
    pub fn byte(&mut self, a: u64, i: u64) -> Result<Option<Word>, AllocError> {
        if i >= 8 {
            return Ok(None);
        }
        let Some(a) = self.any(a) else {
            return Ok(None);
        };
        let word = self.graph.byte(a, i as u32)?;
        self.push(word, 8)
    }

    /// The bytes at these places joined.
    pub fn join(&mut self, wide: bool, places: &[u64]) -> Result<Option<Word>, AllocError> {
        let Some(bytes) = self.bytes(places)? else {
            return Ok(None);
        };
        if !can_join(wide, bytes.len()) {
            return Ok(None);
        }
        let word = self.graph.join(wide, bytes.as_slice())?;
        self.push(word, bits(wide))
    }

    /// How many terms the graph has.
    pub fn count(&self) -> u64 {
        self.graph.terms()
    }

    /// The value of the word at a place, at an input.
    pub fn value(&self, place: u64, input: &[u64]) -> Result<Option<u64>, AllocError> {
        let Some(word) = self.any(place) else {
            return Ok(None);
        };
        let mut marks = Marks::new(self.alloc, self.graph.terms())?;
        Ok(Some(value_at(&self.graph, word, input, &mut marks)))
    }

    /// The graph.
    pub fn graph(&self) -> &Graph
        ensures { result.now ≡ self.now }
    {
        &self.graph
    }

    /// The term at a place, where it is one.
    pub fn term(&self, place: u64) -> Option<TermId>
        ensures { IfSome result (λ t. Holds self.now (Numbered t)) }
    {
        match self.any(place)? {
            Word::Term(t) => Some(t),
            Word::Num(_) => None,
        }
    }

    /// The term of 32 bits at a place, where it is one.
    pub fn narrow(&self, place: u64) -> Option<TermId>
        ensures { IfSome result (λ t. IsWord self.now 32 (Numbered t)) }
    {
        match self.word(place, 32)? {
            Word::Term(t) => Some(t),
            Word::Num(_) => None,
        }
    }

    /// How many words there are.
    pub fn words(&self) -> u64 {
        self.entries.len() as u64
    }

    /// The number that the word at a place is, where it is one.
    pub fn number(&self, place: u64) -> Option<u64> {
        let word = self.any(place)?;
        self.graph.number(word)
    }

    /// The form of the word at a place, where it is a term.
    pub fn form(&self, place: u64) -> Result<Option<String>, AllocError> {
        match self.any(place) {
            Some(Word::Term(t)) => Ok(Some(text_of(self.alloc, self.graph.form(t))?)),
            _ => Ok(None),
        }
    }

    /// Two sessions with the same words, over the two graphs of a freeze.
    pub fn freeze(self) -> Result<(Session, Session), AllocError> {
        let alloc = self.alloc;
        let graph = self.graph;
        let entries = self.entries;
        let others = entries.to_vec(alloc)?;
        match graph.freeze() {
            Ok((one, other)) => {
                let first = Session {
                    alloc,
                    graph: one,
                    entries,
                };
                let second = Session {
                    alloc,
                    graph: other,
                    entries: others,
                };
                Ok((first, second))
            }
            Err(_graph) => Err(AllocError),
        }
    }
}
