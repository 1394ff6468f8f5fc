// Lists of value types with the words of all their beginnings.
ghost use Rattle.std.specs.Prelude.{◌≡◌, ◌++◌, ◌∷◌, List, [], true, IfOk, IfSome, OnOk, OnErr, length, take};
ghost use Rattle.wasm_ast.specs.declared.types.ValType.{ValType};
ghost use Rattle.type_suffixes.specs.Words.{word, EndsWith};
ghost use Rattle.type_suffixes.specs.code.Spans.{lists_of, AreBegun};

use crate::words::Words;
use std::alloc::{AllocError, Global};
use std::marker::Model;
use wasm_ast::ValType;

/// Lists of value types, each by its number: 0, 1 .. in the order in which they were added. Once they are linked it is known
/// quickly whether the first types of one end with the first types of another. Whether two begin alike is known without
/// links. The lists themselves aren't kept, only the words of their beginnings.
#[derive(Drop)]
pub struct Endings {
    // the beginnings of the lists
    words: Words,
    // the words of the beginnings of each list, one list after another
    numbers: Vec<u32>,
    // where those of each list stand
    spans: Vec<Span>,
    // the words of the list that is added
    latest: Vec<u32>,
}

// Where the numbers of a list's beginnings stand, from its first 0 types on.
#[derive(Clone, Copy)]
struct Span {
    start: usize,
    // how many types the list has
    count: usize,
}

impl Model for Endings {
    ghost use Rattle.std.specs.Prelude.{List};
    ghost use Rattle.wasm_ast.specs.declared.types.ValType.{ValType};

    ghost Value = { List (List ValType) };

    ghost use Rattle.type_suffixes.specs.code.Spans.{lists_of, AreBegun};

    ghost view = { λ e. lists_of e.words e.numbers.items e.spans.items };

    ghost invariant = { λ e. AreBegun e.words e.numbers.items e.spans.items };
}

// The word of the first n types of this list, if it has so many.
fn beginning(numbers: &Vec<u32>, spans: &Vec<Span>, list: usize, n: usize) -> Option<u32>
    ensures { IfSome result (λ k. (all : List (List ValType)) → AreBegun all numbers.now.items spans.now.items → word all k ≡ take n (word (lists_of all numbers.now.items spans.now.items) list)) }
{
    let span = match spans.get(list) {
        None => return None,
        Some(span) => *span,
    };
    if span.count < n {
        return None;
    }
    let place = match span.start.checked_add(n) {
        None => return None,
        Some(place) => place,
    };
    match numbers.get(place) {
        None => None,
        Some(number) => Some(*number),
    }
}

impl Endings {
    /// No list.
    pub fn new(alloc: Global) -> Result<Endings, AllocError>
        ensures { IfOk result (λ e. e ≡ []) }
    {
        let words = Words::new(alloc)?;
        Ok(Endings {
            words,
            numbers: Vec::new(alloc),
            spans: Vec::new(alloc),
            latest: Vec::new(alloc),
        })
    }

    /// How many lists were added: the number of the list that is added next.
    pub fn len(&self) -> usize
        ensures { result ≡ length self.now }
    {
        self.spans.len()
    }

    /// Adds a list. Where memory runs out, and where its beginnings would make more than 2 ^ 32 words, an error comes, and
    /// the lists are as they were.
    pub fn add(&mut self, types: &[ValType]) -> Result<(), AllocError>
        ensures added { OnOk result (self.new ≡ self.old ++ types.now ∷ []) }
        ensures refused { OnErr result (self.new ≡ self.old) }
    {
        self.latest.clear();
        self.words.spell(types, &mut self.latest)?;
        let start = self.numbers.len();
        self.numbers.extend_from_slice(self.latest.as_slice())?;
        self.spans.push(Span {
            start,
            count: types.len(),
        })?;
        Ok(())
    }

    /// Links the words, once all lists are added, in a time that is linear in their number. Where memory runs out an error
    /// comes, and not all are linked.
    pub fn link(&mut self, alloc: Global) -> Result<(), AllocError>
        ensures { self.new ≡ self.old }
    {
        self.words.link(alloc)
    }

    /// Whether the first `count` types of the list `longer` end with the first `n` types of the list `shorter`. It is `false`
    /// where there is no list of a number or it has fewer types, and it may be `false` though they do, if not all words are
    /// linked or a list was added since.
    pub fn ends_with(&self, longer: usize, count: usize, shorter: usize, n: usize) -> bool
        ensures { result ≡ true → EndsWith (take count (word self.now longer)) (take n (word self.now shorter)) }
    {
        let whole = match beginning(&self.numbers, &self.spans, longer, count) {
            None => return false,
            Some(whole) => whole,
        };
        let end = match beginning(&self.numbers, &self.spans, shorter, n) {
            None => return false,
            Some(end) => end,
        };
        self.words.ends_with(whole, end)
    }

    /// Whether the first `n` types of two lists are the same. It is `false` where there is no list of a number or one has fewer
    /// types.
    pub fn begins_alike(&self, one: usize, other: usize, n: usize) -> bool
        ensures { result ≡ true → take n (word self.now one) ≡ take n (word self.now other) }
    {
        let first = match beginning(&self.numbers, &self.spans, one, n) {
            None => return false,
            Some(first) => first,
        };
        let second = match beginning(&self.numbers, &self.spans, other, n) {
            None => return false,
            Some(second) => second,
        };
        first == second
    }
}
