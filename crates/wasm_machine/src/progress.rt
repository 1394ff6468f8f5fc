// The operands of instructions that access a table or a memory, with the questions on them.
ghost use Rattle.std.specs.Prelude.{◌≡◌, ℕ, ◌+◌, ◌<◌, ◌≤◌, ◌^◌, false, List, IfOk, IfSome, length, drop, slice_get, option_map};
ghost use Rattle.wasm_rules.specs.Words.{Kept, bits_where};
ghost use Rattle.wasm_reduction.specs.Configurations.{Reference as OneReference, Value as OneValue, Next as Step};
ghost use Rattle.wasm_reduction.specs.Combinators.{with_found, with_word, with_reference};
ghost use Rattle.wasm_reduction.specs.Ranges.{with_element, indexing as indexing_of, addressing as addressing_of, filling as filling_of, copying as copying_of, with_copy};
ghost use Rattle.wasm_machine.specs.States.{own};
ghost use Rattle.wasm_machine.specs.Values.{reference as reference_of};
ghost use Rattle.wasm_machine.specs.Configurations.{image};
ghost use Rattle.wasm_machine.specs.Acts.{Ready};
ghost use Rattle.wasm_machine.specs.code.RangeProgress.{FillWithin, CopyWithin};
ghost use Rattle.wasm_machine.specs.code.InstructionProgress.{came_to, ProgressHeld, IfCame};

use crate::machine::Machine;
use crate::next::{End, Next};
use crate::ranges::{CopyRange, FillRange, Reached, addressing, copying, filling, indexing};
use crate::values::Reference;
use std::alloc::AllocError;
use wasm_ast::Cause;
use wasm_rules::Algebra;

/// What an instruction has come to: a question or an end that it says at once, or all that it needs is picked.
#[derive(Drop)]
pub enum Progress<W: Copy, P: Drop> {
    Stops(Next<W>),
    At(P),
}

/// The word at a place of the innermost label, the last at 0, where it is an i64 if wide, else an i32.
#[inline(always)]
pub fn word<A: Algebra>(a: &A, s: &Machine<A::Word>, k: usize, wide: bool) -> Option<A::Word>
    requires { Ready A.holds A.Has A.means a.now s.now }
    ensures found { (go : A.Means → List (OneValue A.Means) → Step A.Means) → with_word wide (drop k (own (image (A.means a.now) s.now))) go
        ≡ with_found (option_map (A.means a.now) result) (λ w. go w (drop (k + 1) (own (image (A.means a.now) s.now)))) }
    ensures held { IfSome result (A.holds a.now) }
    ensures width { IfSome result (λ w. A.Has (bits_where wide) (A.means a.now w)) }
    ensures there { IfSome result (λ w. k < length (own s.now)) }
{
    s.word(k, wide)
}

/// The reference at a place of the innermost label, the last at 0.
pub fn reference<A: Algebra>(a: &A, s: &Machine<A::Word>, k: usize) -> Option<Reference>
    ensures found { (go : OneReference → List (OneValue A.Means) → Step A.Means) → with_reference (drop k (own (image (A.means a.now) s.now))) go
        ≡ with_found (option_map reference_of result) (λ r. go r (drop (k + 1) (own (image (A.means a.now) s.now)))) }
    ensures there { IfSome result (λ r. k < length (own s.now)) }
{
    s.reference(k)
}

/// The address, at a place of the innermost label, of an access whose bytes end this far from it, in a memory of so many
/// bytes.
#[inline(always)]
pub fn address_at<A: Algebra>(
    a: &mut A,
    s: &Machine<A::Word>,
    k: usize,
    extent: u64,
    size: u64,
    cause: Cause,
) -> Result<Progress<A::Word, u64>, AllocError>
    requires { Ready A.holds A.Has A.means a.old s.now }
    ensures keeps { Kept A.holds A.means a.old a.new }
    ensures held { IfOk result (ProgressHeld (A.holds a.new)) }
    ensures within { IfOk result (λ x. IfCame x (λ at. at + extent ≤ size)) }
    ensures same { IfOk result (λ x. IfCame x (λ at. a.new ≡ a.old)) }
    ensures there { IfOk result (λ x. IfCame x (λ at. k < length (own s.now))) }
    ensures says { IfOk result (λ x. (go : ℕ → List (OneValue A.Means) → Step A.Means) →
        with_word false (drop k (own (image (A.means a.old) s.now))) (λ address rest. addressing_of A.kind cause address extent size s.now.answers (λ at. go at rest))
        ≡ came_to (A.means a.new) (λ at. go at (drop (k + 1) (own (image (A.means a.old) s.now)))) x) }
{
    let Some(address) = word(a, s, k, false) else {
        return Ok(Progress::Stops(Next::Ends(End::Stuck)));
    };
    match addressing(a, &s.answers, address, extent, size)? {
        Reached::Ask(q, w) => Ok(Progress::Stops(Next::Asks(q, w))),
        Reached::OutOfBounds => Ok(Progress::Stops(Next::Ends(End::Traps(cause)))),
        Reached::At(at) => Ok(Progress::At(at)),
    }
}

/// The index, at a place of the innermost label, of an element, where there are so many.
pub fn index_at<A: Algebra>(
    a: &mut A,
    s: &Machine<A::Word>,
    k: usize,
    size: u64,
    cause: Cause,
) -> Result<Progress<A::Word, u64>, AllocError>
    requires ready { Ready A.holds A.Has A.means a.old s.now }
    requires small { size < 2 ^ 32 }
    ensures keeps { Kept A.holds A.means a.old a.new }
    ensures held { IfOk result (ProgressHeld (A.holds a.new)) }
    ensures within { IfOk result (λ x. IfCame x (λ i. i < size)) }
    ensures there { IfOk result (λ x. IfCame x (λ i. k < length (own s.now))) }
    ensures says { IfOk result (λ x. (elements : List OneReference) (go : ℕ → OneReference → List (OneValue A.Means) → Step A.Means) → length elements ≡ size →
        with_word false (drop k (own (image (A.means a.old) s.now))) (λ index rest. indexing_of A.kind cause index elements s.now.answers (λ i r ns. go i r rest))
        ≡ came_to (A.means a.new) (λ i. with_element cause (slice_get elements i) (λ r. go i r (drop (k + 1) (own (image (A.means a.old) s.now))))) x) }
{
    let Some(index) = word(a, s, k, false) else {
        return Ok(Progress::Stops(Next::Ends(End::Stuck)));
    };
    match indexing(a, &s.answers, index, size)? {
        Reached::Ask(q, w) => Ok(Progress::Stops(Next::Asks(q, w))),
        Reached::OutOfBounds => Ok(Progress::Stops(Next::Ends(End::Traps(cause)))),
        Reached::At(i) => Ok(Progress::At(i)),
    }
}

/// Where to fill, as the operand at the place 2, and this much, in a table or a memory of this size.
pub fn fill_at<A: Algebra>(
    a: &mut A,
    s: &Machine<A::Word>,
    count: A::Word,
    size: u64,
    cause: Cause,
) -> Result<Progress<A::Word, FillRange>, AllocError>
    requires ready { Ready A.holds A.Has A.means a.old s.now }
    requires count_held { A.holds a.old count }
    requires count_width { A.Has 32 (A.means a.old count) }
    ensures keeps { Kept A.holds A.means a.old a.new }
    ensures held { IfOk result (ProgressHeld (A.holds a.new)) }
    ensures within { IfOk result (λ x. IfCame x (FillWithin size)) }
    ensures same { IfOk result (λ x. IfCame x (λ r. a.new ≡ a.old)) }
    ensures there { IfOk result (λ x. IfCame x (λ r. 2 < length (own s.now))) }
    ensures says { IfOk result (λ x. (go : ℕ → ℕ → List (OneValue A.Means) → Step A.Means) →
        with_word false (drop 2 (own (image (A.means a.old) s.now))) (λ to rest. filling_of A.kind cause to (A.means a.old count) size s.now.answers (λ t n. go t n rest))
        ≡ came_to (A.means a.new) (λ r. go r.to r.count (drop 3 (own (image (A.means a.old) s.now)))) x) }
{
    let Some(to) = word(a, s, 2, false) else {
        return Ok(Progress::Stops(Next::Ends(End::Stuck)));
    };
    match filling(a, &s.answers, to, count, size)? {
        Reached::Ask(q, w) => Ok(Progress::Stops(Next::Asks(q, w))),
        Reached::OutOfBounds => Ok(Progress::Stops(Next::Ends(End::Traps(cause)))),
        Reached::At(range) => Ok(Progress::At(range)),
    }
}

/// Where to copy to, where from, and how much: the last three operands, between tables, memories or segments of these sizes.
pub fn copy_at<A: Algebra>(
    a: &mut A,
    s: &Machine<A::Word>,
    target_size: u64,
    source_size: u64,
    cause: Cause,
) -> Result<Progress<A::Word, CopyRange>, AllocError>
    requires { Ready A.holds A.Has A.means a.old s.now }
    ensures keeps { Kept A.holds A.means a.old a.new }
    ensures held { IfOk result (ProgressHeld (A.holds a.new)) }
    ensures within { IfOk result (λ x. IfCame x (CopyWithin target_size source_size)) }
    ensures same { IfOk result (λ x. IfCame x (λ r. a.new ≡ a.old)) }
    ensures there { IfOk result (λ x. IfCame x (λ r. 2 < length (own s.now))) }
    ensures says { IfOk result (λ x. (go : ℕ → ℕ → ℕ → List (OneValue A.Means) → Step A.Means) →
        with_copy (own (image (A.means a.old) s.now)) (λ to from count rest. copying_of A.kind cause to from count target_size source_size s.now.answers (λ t f n. go t f n rest))
        ≡ came_to (A.means a.new) (λ r. go r.to r.from r.count (drop 3 (own (image (A.means a.old) s.now)))) x) }
{
    let Some(count) = word(a, s, 0, false) else {
        return Ok(Progress::Stops(Next::Ends(End::Stuck)));
    };
    let Some(from) = word(a, s, 1, false) else {
        return Ok(Progress::Stops(Next::Ends(End::Stuck)));
    };
    let Some(to) = word(a, s, 2, false) else {
        return Ok(Progress::Stops(Next::Ends(End::Stuck)));
    };
    match copying(a, &s.answers, to, from, count, target_size, source_size)? {
        Reached::Ask(q, w) => Ok(Progress::Stops(Next::Asks(q, w))),
        Reached::OutOfBounds => Ok(Progress::Stops(Next::Ends(End::Traps(cause)))),
        Reached::At(range) => Ok(Progress::At(range)),
    }
}
