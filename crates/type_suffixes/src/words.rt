// Words of value types in one tree, with links from each to words that it ends with.
ghost use Rattle.std.specs.Prelude.{◌≡◌, ◌<◌, ◌++◌, ◌∷◌, [], ◌⊎◌, true, Some, IfOk, IfSome, OnOk, OnErr, length, slice_get};
ghost use Rattle.type_suffixes.specs.Words.{word as word_at, EndsWith, Keeps, AreBeginnings};
ghost use Rattle.type_suffixes.specs.code.Links.{spelled, after_of, leading, IsLink, HasLinks, IsTree, IsSameWord, IsSpelled};

use std::alloc::{AllocError, Global};
use std::marker::Model;
use wasm_ast::ValType;

/// Words: lists of value types that were added, and all that they begin with, each by its number. The word 0 is the empty one.
#[derive(Drop)]
pub struct Words {
    words: Vec<Word>,
}

// One word. The word 0 is the empty one, whatever its fields `before` and `last` say.
#[derive(Clone, Copy)]
struct Word {
    // the word without its last type
    before: u32,
    // the last type
    last: ValType,
    // how many types it has
    length: u32,
    // a shorter word with which it ends: the longest one, once linked
    end: u32,
    // how often `end` leads on from here, before the empty word
    depth: u32,
    // a word further along `end`, with which it ends: jumps of growing size, so that a walk to any length takes few of them
    far: u32,
    // for each type a word with which this one and the type end: the word that goes on so, where there is one, and else,
    // once linked, the longest
    after: After,
}

// A word for each type.
#[derive(Clone, Copy)]
struct After {
    by_i32: u32,
    by_i64: u32,
    by_funcref: u32,
    by_externref: u32,
}

impl Model for Words {
    ghost use Rattle.std.specs.Prelude.{List};
    ghost use Rattle.wasm_ast.specs.declared.types.ValType.{ValType};

    ghost Value = { List (List ValType) };

    ghost use Rattle.type_suffixes.specs.code.Links.{spelled, IsTree};

    ghost view = { λ w. spelled w.words.items };

    ghost invariant = { λ w. IsTree w.words.items };
}

/// Whether the types are one.
pub fn same(t: ValType, u: ValType) -> bool
    ensures { result ≡ true → t ≡ u }
{
    match t {
        ValType::I32 => matches!(u, ValType::I32),
        ValType::I64 => matches!(u, ValType::I64),
        ValType::FuncRef => matches!(u, ValType::FuncRef),
        ValType::ExternRef => matches!(u, ValType::ExternRef),
    }
}

// Where the word leads on by the type.
fn leads_to(w: &Word, t: ValType) -> u32
    ensures { result ≡ after_of w.now t }
{
    match t {
        ValType::I32 => w.after.by_i32,
        ValType::I64 => w.after.by_i64,
        ValType::FuncRef => w.after.by_funcref,
        ValType::ExternRef => w.after.by_externref,
    }
}

// A word that leads nowhere but to the empty one.
fn fresh(before: u32, last: ValType, length: u32) -> Word
    ensures before { result.before ≡ before }
    ensures last { result.last ≡ last }
    ensures end { result.end ≡ 0 }
    ensures far { result.far ≡ 0 }
    ensures after { (t : ValType) → after_of result t ≡ 0 }
{
    Word {
        before,
        last,
        length,
        end: 0,
        depth: 0,
        far: 0,
        after: After {
            by_i32: 0,
            by_i64: 0,
            by_funcref: 0,
            by_externref: 0,
        },
    }
}

// The word, which leads on to another by the type.
fn led(w: Word, t: ValType, k: u32) -> Word
    ensures { result ≡ leading w t k }
{
    let mut w = w;
    match t {
        ValType::I32 => w.after.by_i32 = k,
        ValType::I64 => w.after.by_i64 = k,
        ValType::FuncRef => w.after.by_funcref = k,
        ValType::ExternRef => w.after.by_externref = k,
    }
    w
}

// Where a word leads, or where another does, if it leads to the empty one.
fn filled(own: u32, other: u32) -> u32
    ensures { (result ≡ own) ⊎ (result ≡ other) }
{
    if own == 0 { other } else { own }
}

// The word with its links, where it ends with the word `e` of the number `end`.
fn linked(w: Word, end: u32, e: &Word, far: u32) -> Word
    ensures same { IsSameWord w result }
    ensures end { result.end ≡ end }
    ensures far { result.far ≡ far }
    ensures after { (t : ValType) → (after_of result t ≡ after_of w t) ⊎ (after_of result t ≡ after_of e.now t) }
{
    let by_i32 = filled(w.after.by_i32, e.after.by_i32);
    let by_i64 = filled(w.after.by_i64, e.after.by_i64);
    let by_funcref = filled(w.after.by_funcref, e.after.by_funcref);
    let by_externref = filled(w.after.by_externref, e.after.by_externref);
    Word {
        before: w.before,
        last: w.last,
        length: w.length,
        end,
        depth: e.depth.saturating_add(1),
        far,
        after: After {
            by_i32,
            by_i64,
            by_funcref,
            by_externref,
        },
    }
}

// Whether there is a word of this number.
#[tactic(auto, using(crate::proofs::Trees::word_there))]
fn is_word(words: &Vec<Word>, k: u32) -> bool
    requires tree { IsTree words.now.items }
    ensures { result ≡ true → k < length (spelled words.now.items) }
{
    (k as usize) < words.len()
}

// The word of this number.
#[tactic(auto, using(crate::proofs::Trees::there_word))]
fn at(words: &Vec<Word>, k: u32) -> Word
    requires tree { IsTree words.now.items }
    requires within { k < length (spelled words.now.items) }
    ensures is { slice_get words.now.items k ≡ Some result }
    ensures links { HasLinks (spelled words.now.items) (word_at (spelled words.now.items) k) result }
{
    words[k as usize]
}

// Puts the word, which is spelled as that of the number k, in its place.
#[tactic(auto, using(crate::proofs::Trees::there_word))]
fn put(words: &mut Vec<Word>, k: u32, w: Word)
    requires tree { IsTree words.old.items }
    requires within { k < length (spelled words.old.items) }
    requires same { (old : Word) → slice_get words.old.items k ≡ Some old → IsSameWord old w }
    requires links { HasLinks (spelled words.old.items) (word_at (spelled words.old.items) k) w }
    ensures tree { IsTree words.new.items }
    ensures spelled { spelled words.new.items ≡ spelled words.old.items }
{
    words[k as usize] = w;
}

// Lets the word lead on to another by the type.
fn lead(words: &mut Vec<Word>, from: u32, t: ValType, k: u32)
    requires tree { IsTree words.old.items }
    requires within { from < length (spelled words.old.items) }
    requires link { IsLink (spelled words.old.items) (word_at (spelled words.old.items) from ++ t ∷ []) k }
    ensures tree { IsTree words.new.items }
    ensures spelled { spelled words.new.items ≡ spelled words.old.items }
{
    let w = at(words, from);
    put(words, from, led(w, t, k));
}

// One more word, which goes on from another by the type.
#[tactic(auto, using(crate::proofs::Trees::counted))]
fn push(words: &mut Vec<Word>, from: u32, t: ValType) -> Result<u32, AllocError>
    requires tree { IsTree words.old.items }
    requires within { from < length (spelled words.old.items) }
    ensures tree { IsTree words.new.items }
    ensures spelled { IfOk result (λ _. spelled words.new.items ≡ spelled words.old.items ++ (word_at (spelled words.old.items) from ++ t ∷ []) ∷ []) }
    ensures number { IfOk result (λ k. k ≡ length (spelled words.old.items)) }
    ensures refused { OnErr result (words.new.items ≡ words.old.items) }
{
    let number = match u32::try_from(words.len()) {
        Ok(number) => number,
        Err(_) => return Err(AllocError),
    };
    let length = at(words, from).length.saturating_add(1);
    words.push(fresh(from, t, length))?;
    Ok(number)
}

// The word that goes on from this one by the type, if there is one.
fn next(words: &Vec<Word>, from: u32, t: ValType) -> Option<u32>
    requires tree { IsTree words.now.items }
    requires within { from < length (spelled words.now.items) }
    ensures { IfSome result (λ k. IsSpelled (spelled words.now.items) (word_at (spelled words.now.items) from ++ t ∷ []) k) }
{
    let k = leads_to(&at(words, from), t);
    if k == 0 {
        return None;
    }
    let w = at(words, k);
    if w.before == from && same(w.last, t) {
        return Some(k);
    }
    None
}

// The word that goes on from this one by the type, which is added if there is none.
fn add(words: &mut Vec<Word>, from: u32, t: ValType) -> Result<u32, AllocError>
    requires tree { IsTree words.old.items }
    requires within { from < length (spelled words.old.items) }
    ensures tree { IsTree words.new.items }
    ensures spelled { IfOk result (λ k. slice_get (spelled words.new.items) k ≡ Some (word_at (spelled words.old.items) from ++ t ∷ [])) }
    ensures kept { Keeps (spelled words.old.items) (spelled words.new.items) }
    ensures refused { OnErr result (spelled words.new.items ≡ spelled words.old.items) }
{
    match next(words, from, t) {
        Some(k) => Ok(k),
        None => {
            let k = push(words, from, t)?;
            lead(words, from, t, k);
            Ok(k)
        }
    }
}

// A word with which this one and the type end: where a word leads on by the type with which this one ends.
fn end_on(words: &Vec<Word>, from: u32, t: ValType) -> u32
    requires tree { IsTree words.now.items }
    requires within { from < length (spelled words.now.items) }
    ensures { IsLink (spelled words.now.items) (word_at (spelled words.now.items) from ++ t ∷ []) result }
{
    if from == 0 {
        return 0;
    }
    let end = at(words, from).end;
    leads_to(&at(words, end), t)
}

// Where the jump leads of a word that ends with this one. Two jumps of one size are followed by one of both and a step.
fn far_of(words: &Vec<Word>, end: u32) -> u32
    requires tree { IsTree words.now.items }
    requires within { end < length (spelled words.now.items) }
    ensures { IsLink (spelled words.now.items) (word_at (spelled words.now.items) end) result }
{
    let e = at(words, end);
    let far = at(words, e.far);
    let further = at(words, far.far);
    let first = e.depth.saturating_sub(far.depth);
    let second = far.depth.saturating_sub(further.depth);
    if first == second { far.far } else { end }
}

// Links the word that goes on from this one by the type, if there is one, and tells its number.
fn link_next(words: &mut Vec<Word>, from: u32, t: ValType) -> Option<u32>
    requires tree { IsTree words.old.items }
    requires within { from < length (spelled words.old.items) }
    ensures tree { IsTree words.new.items }
    ensures spelled { spelled words.new.items ≡ spelled words.old.items }
{
    match next(words, from, t) {
        None => None,
        Some(k) => {
            let end = end_on(words, from, t);
            let e = at(words, end);
            let far = far_of(words, end);
            let w = at(words, k);
            put(words, k, linked(w, end, &e, far));
            Some(k)
        }
    }
}

// The same, and puts the word in a queue.
fn queue_next(
    words: &mut Vec<Word>,
    queue: &mut Vec<u32>,
    from: u32,
    t: ValType,
) -> Result<(), AllocError>
    requires tree { IsTree words.old.items }
    requires within { from < length (spelled words.old.items) }
    ensures tree { IsTree words.new.items }
    ensures spelled { spelled words.new.items ≡ spelled words.old.items }
{
    match link_next(words, from, t) {
        None => Ok(()),
        Some(k) => {
            queue.push(k)?;
            Ok(())
        }
    }
}

// The same of each word that goes on from this one.
fn queue_all(words: &mut Vec<Word>, queue: &mut Vec<u32>, from: u32) -> Result<(), AllocError>
    requires tree { IsTree words.old.items }
    requires within { from < length (spelled words.old.items) }
    ensures tree { IsTree words.new.items }
    ensures spelled { spelled words.new.items ≡ spelled words.old.items }
{
    queue_next(words, queue, from, ValType::I32)?;
    queue_next(words, queue, from, ValType::I64)?;
    queue_next(words, queue, from, ValType::FuncRef)?;
    queue_next(words, queue, from, ValType::ExternRef)?;
    Ok(())
}

// Links all words, the shorter before the longer.
fn link_all(alloc: Global, words: &mut Vec<Word>) -> Result<(), AllocError>
    requires tree { IsTree words.old.items }
    ensures tree { IsTree words.new.items }
    ensures spelled { spelled words.new.items ≡ spelled words.old.items }
{
    let mut queue = Vec::new(alloc);
    queue.push(0)?;
    for i in 0..words.len() {
        let from = match queue.get(i) {
            None => return Ok(()),
            Some(k) => *k,
        };
        if !is_word(words, from) {
            return Ok(());
        }
        queue_all(words, &mut queue, from)?;
    }
    Ok(())
}

// A word with which this one ends, that is not shorter than is wanted, if this one is longer: as far as its links lead at once.
fn step(words: &Vec<Word>, w: &Word, wanted: u32) -> u32
    requires tree { IsTree words.now.items }
    requires far { w.now.far < length (spelled words.now.items) }
    ensures { (result ≡ w.now.far) ⊎ (result ≡ w.now.end) }
{
    if wanted <= at(words, w.far).length {
        w.far
    } else {
        w.end
    }
}

// Whether a word ends with another, as far as the links tell.
fn ends(words: &Vec<Word>, longer: u32, shorter: u32) -> bool
    requires tree { IsTree words.now.items }
    ensures { result ≡ true → EndsWith (word_at (spelled words.now.items) longer) (word_at (spelled words.now.items) shorter) }
{
    if !is_word(words, longer) || !is_word(words, shorter) {
        return false;
    }
    let wanted = at(words, shorter).length;
    let mut here = longer;
    for _turn in 0..at(words, longer).length {
        let w = at(words, here);
        if w.length <= wanted {
            return here == shorter;
        }
        here = step(words, &w, wanted);
    }
    here == shorter
}

impl Words {
    /// Only the empty word.
    pub fn new(alloc: Global) -> Result<Words, AllocError>
        ensures { IfOk result (λ w. w ≡ [] ∷ []) }
    {
        let mut words = Vec::new(alloc);
        words.push(fresh(0, ValType::I32, 0))?;
        Ok(Words { words })
    }

    /// The number of the empty word.
    pub fn empty(&self) -> u32
        ensures { slice_get self.now result ≡ Some [] }
    {
        let _words = &self.words;
        0
    }

    /// The number of the word that goes on from this one by the type. It is added if it isn't there. Where memory runs out,
    /// and at 2 ^ 32 words, an error comes, and the words are as they were.
    pub fn add(&mut self, word: u32, t: ValType) -> Result<u32, AllocError>
        requires { word < length self.old }
        ensures spelled { IfOk result (λ k. slice_get self.new k ≡ Some (word_at self.old word ++ t ∷ [])) }
        ensures kept { Keeps self.old self.new }
        ensures refused { OnErr result (self.new ≡ self.old) }
    {
        add(&mut self.words, word, t)
    }

    /// Adds a list of types with all that it begins with, and puts the numbers of its first 0, 1 .. types, of all of them last,
    /// behind what is in `numbers`. An error comes as in `add`; then some of the beginnings may be missing.
    pub fn spell(&mut self, types: &[ValType], numbers: &mut Vec<u32>) -> Result<(), AllocError>
        ensures spelled { OnOk result (AreBeginnings self.new types.now (length types.now) numbers.old.items numbers.new.items) }
        ensures kept { Keeps self.old self.new }
    {
        let mut word = self.empty();
        numbers.push(word)?;
        for t in types {
            word = self.add(word, *t)?;
            numbers.push(word)?;
        }
        Ok(())
    }

    /// Links the words, once all are added, in a time that is linear in their number, with a queue of their numbers. Where
    /// memory runs out an error comes, and not all are linked.
    pub fn link(&mut self, alloc: Global) -> Result<(), AllocError>
        ensures { self.new ≡ self.old }
    {
        link_all(alloc, &mut self.words)
    }

    /// Whether a word ends with another, as each ends with itself and with the empty one. It is `false` where there is no word
    /// of a number, and it may be `false` though the word does, if not all words are linked or some were added since.
    pub fn ends_with(&self, longer: u32, shorter: u32) -> bool
        ensures { result ≡ true → EndsWith (word_at self.now longer) (word_at self.now shorter) }
    {
        ends(&self.words, longer, shorter)
    }
}
