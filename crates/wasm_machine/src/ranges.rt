// The questions of accesses to tables and memories, and of their growth (Execution, Instructions: Table Instructions, Memory
// Instructions).
//
// These functions say of the answers that an instruction has had so far what comes next: a question, that the access is out
// of bounds, or the numbers that were picked. They know neither the machine nor the memory.
ghost use Rattle.std.specs.Prelude.{◌≡◌, ℕ, ◌+◌, ◌<◌, ◌≤◌, ◌^◌, List, ◌∷◌, [], nat_lt, IfOk, MatchOption, length, slice_get, drop};
ghost use Rattle.wasm_ast.specs.declared.runs.Cause.{Cause as OneCause};
ghost use Rattle.wasm_rules.specs.Words.{Kept};
ghost use Rattle.wasm_reduction.specs.Configurations.{Reference as OneReference, Value as OneValue, Config, Next as Step};
ghost use Rattle.wasm_reduction.specs.Ranges.{with_element, indexing as indexing_of, ends_past as past_end, addressing as addressing_of, range_ends_past as range_past_end, filling as filling_of, copying as copying_of, growing as growing_of, growth_limit as growth_limit_of};
ghost use Rattle.wasm_machine.specs.code.RangeProgress.{reached, AskHeld, IfAt, FillWithin, CopyWithin, grows, GrowthAsks, IfGrows};

use crate::next::Question;
use std::alloc::AllocError;
use wasm_rules::Algebra;

/// What an access has come to: it has a question of a word to ask; it is out of bounds; or all is picked.
#[derive(Drop)]
pub enum Reached<W: Copy, P: Drop> {
    Ask(Question, W),
    OutOfBounds,
    At(P),
}

/// Where to fill, and how much.
#[derive(Clone, Copy)]
pub struct FillRange {
    pub to: u64,
    pub count: u64,
}

/// Where to copy to, where from, and how much.
#[derive(Clone, Copy)]
pub struct CopyRange {
    pub to: u64,
    pub from: u64,
    pub count: u64,
}

// An answer, and those after it.
fn first(answers: &[u64]) -> Option<(u64, &[u64])>
    ensures { MatchOption result (answers.now ≡ []) (λ x. answers.now ≡ x.0 ∷ x.1.now) }
{
    match answers {
        [] => None,
        [n, rest @ ..] => Some((*n, rest)),
    }
}

// Whether a range passes the size.
fn passes(place: u64, extent: u64, size: u64) -> bool
    ensures { result ≡ nat_lt size (place + extent) }
{
    place > size || extent > size - place
}

// The word that isn't 0 where a range ends past the size.
#[tactic(auto, unfolding(int_ops::specs::Operators::operator_of))]
fn ends_past<A: Algebra>(
    a: &mut A,
    place: A::Word,
    extent: A::Word,
    size: u64,
) -> Result<A::Word, AllocError>
    requires place_held { A.holds a.old place }
    requires place_width { A.Has 32 (A.means a.old place) }
    requires extent_held { A.holds a.old extent }
    requires extent_width { A.Has 64 (A.means a.old extent) }
    ensures held { IfOk result (λ w. A.holds a.new w) }
    ensures means { IfOk result (λ w. A.means a.new w ≡ past_end A.kind (A.means a.old place) (A.means a.old extent) size) }
    ensures width { IfOk result (λ w. A.Has 32 (A.means a.new w)) }
    ensures keeps { Kept A.holds A.means a.old a.new }
{
    let from = a.un(0xAD, place)?;
    let end = a.bin(0x7C, from, extent)?;
    let all = a.constant(size);
    Ok(a.bin(0x56, end, all)?)
}

// The same where the extent is a word of 32 bits.
#[tactic(auto, unfolding(int_ops::specs::Operators::operator_of))]
fn range_ends_past<A: Algebra>(
    a: &mut A,
    place: A::Word,
    count: A::Word,
    size: u64,
) -> Result<A::Word, AllocError>
    requires place_held { A.holds a.old place }
    requires place_width { A.Has 32 (A.means a.old place) }
    requires count_held { A.holds a.old count }
    requires count_width { A.Has 32 (A.means a.old count) }
    ensures held { IfOk result (λ w. A.holds a.new w) }
    ensures means { IfOk result (λ w. A.means a.new w ≡ range_past_end A.kind (A.means a.old place) (A.means a.old count) size) }
    ensures width { IfOk result (λ w. A.Has 32 (A.means a.new w)) }
    ensures keeps { Kept A.holds A.means a.old a.new }
{
    let extent = a.un(0xAD, count)?;
    Ok(ends_past(a, place, extent, size)?)
}

// i32.ge_u of an index and a size.
#[tactic(auto, unfolding(int_ops::specs::Operators::operator_of))]
fn index_past<A: Algebra>(a: &mut A, index: A::Word, size: u64) -> Result<A::Word, AllocError>
    requires held { A.holds a.old index }
    requires width { A.Has 32 (A.means a.old index) }
    requires small { size < 2 ^ 32 }
    ensures held { IfOk result (λ w. A.holds a.new w) }
    ensures means { IfOk result (λ w. A.means a.new w ≡ A.kind.binary 0x4F (A.means a.old index) (A.kind.number size)) }
    ensures keeps { Kept A.holds A.means a.old a.new }
{
    let all = a.constant(size);
    Ok(a.bin(0x4F, index, all)?)
}

// i32.or of the tests of the source and of the target.
#[tactic(auto, unfolding(int_ops::specs::Operators::operator_of))]
fn copy_ends_past<A: Algebra>(
    a: &mut A,
    to: A::Word,
    from: A::Word,
    count: A::Word,
    target_size: u64,
    source_size: u64,
) -> Result<A::Word, AllocError>
    requires to_held { A.holds a.old to }
    requires to_width { A.Has 32 (A.means a.old to) }
    requires from_held { A.holds a.old from }
    requires from_width { A.Has 32 (A.means a.old from) }
    requires count_held { A.holds a.old count }
    requires count_width { A.Has 32 (A.means a.old count) }
    ensures held { IfOk result (λ w. A.holds a.new w) }
    ensures means { IfOk result (λ w. A.means a.new w ≡ A.kind.binary 0x72
        (range_past_end A.kind (A.means a.old from) (A.means a.old count) source_size)
        (range_past_end A.kind (A.means a.old to) (A.means a.old count) target_size)) }
    ensures keeps { Kept A.holds A.means a.old a.new }
{
    let source = range_ends_past(a, from, count, source_size)?;
    let target = range_ends_past(a, to, count, target_size)?;
    Ok(a.bin(0x72, source, target)?)
}

/// The index of an element, where there are so many.
pub fn indexing<A: Algebra>(
    a: &mut A,
    answers: &[u64],
    index: A::Word,
    size: u64,
) -> Result<Reached<A::Word, u64>, AllocError>
    requires held { A.holds a.old index }
    requires width { A.Has 32 (A.means a.old index) }
    requires small { size < 2 ^ 32 }
    ensures held { IfOk result (AskHeld (A.holds a.new)) }
    ensures keeps { Kept A.holds A.means a.old a.new }
    ensures same { IfOk result (λ x. IfAt x (λ i. a.new ≡ a.old)) }
    ensures within { IfOk result (λ x. IfAt x (λ i. i < size)) }
    ensures says { IfOk result (λ x. (cause : OneCause) (elements : List OneReference) (go : ℕ → OneReference → List ℕ → Step A.Means) → length elements ≡ size →
        indexing_of A.kind cause (A.means a.old index) elements answers.now go
        ≡ reached (A.means a.new) cause (λ i. with_element cause (slice_get elements i) (λ r. go i r (drop 2 answers.now))) x) }
{
    let Some((past, picks)) = first(answers) else {
        let w = index_past(a, index, size)?;
        return Ok(Reached::Ask(Question::Test, w));
    };
    if past != 0 {
        return Ok(Reached::OutOfBounds);
    }
    let Some((i, _)) = first(picks) else {
        return Ok(Reached::Ask(Question::Pick, index));
    };
    if i >= size {
        return Ok(Reached::OutOfBounds);
    }
    Ok(Reached::At(i))
}

/// The address of an access whose bytes end this far from it, in a memory of so many bytes.
#[inline(always)]
pub fn addressing<A: Algebra>(
    a: &mut A,
    answers: &[u64],
    address: A::Word,
    extent: u64,
    size: u64,
) -> Result<Reached<A::Word, u64>, AllocError>
    requires held { A.holds a.old address }
    requires width { A.Has 32 (A.means a.old address) }
    ensures held { IfOk result (AskHeld (A.holds a.new)) }
    ensures keeps { Kept A.holds A.means a.old a.new }
    ensures same { IfOk result (λ x. IfAt x (λ at. a.new ≡ a.old)) }
    ensures within { IfOk result (λ x. IfAt x (λ at. at + extent ≤ size)) }
    ensures says { IfOk result (λ x. (cause : OneCause) (go : ℕ → Step A.Means) →
        addressing_of A.kind cause (A.means a.old address) extent size answers.now go ≡ reached (A.means a.new) cause go x) }
{
    let Some((past, picks)) = first(answers) else {
        let extent = a.constant(extent);
        let w = ends_past(a, address, extent, size)?;
        return Ok(Reached::Ask(Question::Test, w));
    };
    if past != 0 {
        return Ok(Reached::OutOfBounds);
    }
    let Some((at, _)) = first(picks) else {
        return Ok(Reached::Ask(Question::Pick, address));
    };
    if passes(at, extent, size) {
        return Ok(Reached::OutOfBounds);
    }
    Ok(Reached::At(at))
}

/// Where to fill, and how much, in a table or a memory of this size.
pub fn filling<A: Algebra>(
    a: &mut A,
    answers: &[u64],
    to: A::Word,
    count: A::Word,
    size: u64,
) -> Result<Reached<A::Word, FillRange>, AllocError>
    requires to_held { A.holds a.old to }
    requires to_width { A.Has 32 (A.means a.old to) }
    requires count_held { A.holds a.old count }
    requires count_width { A.Has 32 (A.means a.old count) }
    ensures held { IfOk result (AskHeld (A.holds a.new)) }
    ensures keeps { Kept A.holds A.means a.old a.new }
    ensures same { IfOk result (λ x. IfAt x (λ r. a.new ≡ a.old)) }
    ensures within { IfOk result (λ x. IfAt x (FillWithin size)) }
    ensures says { IfOk result (λ x. (cause : OneCause) (go : ℕ → ℕ → Step A.Means) →
        filling_of A.kind cause (A.means a.old to) (A.means a.old count) size answers.now go ≡ reached (A.means a.new) cause (λ r. go r.to r.count) x) }
{
    let Some((past, picks)) = first(answers) else {
        let w = range_ends_past(a, to, count, size)?;
        return Ok(Reached::Ask(Question::Test, w));
    };
    if past != 0 {
        return Ok(Reached::OutOfBounds);
    }
    let Some((t, picks)) = first(picks) else {
        return Ok(Reached::Ask(Question::Pick, to));
    };
    let Some((n, _)) = first(picks) else {
        return Ok(Reached::Ask(Question::Pick, count));
    };
    if passes(t, n, size) {
        return Ok(Reached::OutOfBounds);
    }
    Ok(Reached::At(FillRange { to: t, count: n }))
}

/// Where to copy to, where from, and how much, between tables, memories or segments of these sizes.
pub fn copying<A: Algebra>(
    a: &mut A,
    answers: &[u64],
    to: A::Word,
    from: A::Word,
    count: A::Word,
    target_size: u64,
    source_size: u64,
) -> Result<Reached<A::Word, CopyRange>, AllocError>
    requires to_held { A.holds a.old to }
    requires to_width { A.Has 32 (A.means a.old to) }
    requires from_held { A.holds a.old from }
    requires from_width { A.Has 32 (A.means a.old from) }
    requires count_held { A.holds a.old count }
    requires count_width { A.Has 32 (A.means a.old count) }
    ensures held { IfOk result (AskHeld (A.holds a.new)) }
    ensures keeps { Kept A.holds A.means a.old a.new }
    ensures same { IfOk result (λ x. IfAt x (λ r. a.new ≡ a.old)) }
    ensures within { IfOk result (λ x. IfAt x (CopyWithin target_size source_size)) }
    ensures says { IfOk result (λ x. (cause : OneCause) (go : ℕ → ℕ → ℕ → Step A.Means) →
        copying_of A.kind cause (A.means a.old to) (A.means a.old from) (A.means a.old count) target_size source_size answers.now go
        ≡ reached (A.means a.new) cause (λ r. go r.to r.from r.count) x) }
{
    let Some((past, picks)) = first(answers) else {
        let w = copy_ends_past(a, to, from, count, target_size, source_size)?;
        return Ok(Reached::Ask(Question::Test, w));
    };
    if past != 0 {
        return Ok(Reached::OutOfBounds);
    }
    let Some((t, picks)) = first(picks) else {
        return Ok(Reached::Ask(Question::Pick, to));
    };
    let Some((f, picks)) = first(picks) else {
        return Ok(Reached::Ask(Question::Pick, from));
    };
    let Some((n, _)) = first(picks) else {
        return Ok(Reached::Ask(Question::Pick, count));
    };
    if passes(f, n, source_size) || passes(t, n, target_size) {
        return Ok(Reached::OutOfBounds);
    }
    Ok(Reached::At(CopyRange {
        to: t,
        from: f,
        count: n,
    }))
}

/// What a growth has come to: its count is to be picked; there is no room for it; or it grows by so much.
#[derive(Drop)]
pub enum Growth<W: Copy> {
    Ask(W),
    Refused,
    By(u64),
}

/// How far to grow, from this size to no more than the most.
pub fn growing<A: Algebra>(answers: &[u64], count: A::Word, size: u64, most: u64) -> Growth<A::Word>
    ensures asks { GrowthAsks result count }
    ensures within { IfGrows result (λ n. size + n ≤ most) }
    ensures says { (h : A.Word → A.Means) (c : Config A.Means) (rest : List (OneValue A.Means)) (go : ℕ → Config A.Means) →
        growing_of A.kind c rest (h count) size most answers.now go ≡ grows A.kind h c rest size go result }
{
    let Some((n, _)) = first(answers) else {
        return Growth::Ask(count);
    };
    if passes(size, n, most) {
        return Growth::Refused;
    }
    Growth::By(n)
}

/// The size up to which something may grow: a maximum that is given counts as far as it is below the general one.
pub fn growth_limit(maximum: Option<u32>, most: u64) -> u64
    ensures { result ≡ growth_limit_of maximum most }
{
    match maximum {
        None => most,
        Some(n) => u64::from(n).min(most),
    }
}
