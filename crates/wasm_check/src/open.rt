// The open sequences of a body, and what opening, `else` and `end` do with them.
ghost use Rattle.std.specs.Prelude.{◌≡◌, ◌∷◌, IfOk, MatchOption, None, Some, Option, List, false, true, length, slice_get};
ghost use Rattle.wasm_ast.specs.declared.instructions.Instr.TheVariants.{BrTable};
ghost use Rattle.wasm_check.specs.declared.operands.Operand.TheVariants.{Of};
ghost use Rattle.wasm_check.specs.Operands.{operands};
ghost use Rattle.wasm_check.specs.Operators.{arrow};
ghost use Rattle.wasm_check.specs.Contexts.{Context};
ghost use Rattle.type_suffixes.specs.Lists.{listed};
ghost use Rattle.wasm_check.specs.code.Runs.{known, open_of, open_seqs, labels_in};
ghost use Rattle.wasm_check.specs.code.Carried.{SeenPass, CanCarry, CanTake, Decide};
ghost use Rattle.wasm_check.specs.code.Checker.{Answers, SomeBy, Open, when, each_fits, acts as acts_of, finished as finished_of, finished_other, opened as opened_of, opens as opens_of, turns as turns_of, ends as ends_of};

use crate::scope::Scope;
use crate::stack::Stack;
use std::alloc::{AllocError, Global};
use type_suffixes::{Listed, Seen};
use wasm_ast::ValType;

/// An open sequence: what a branch to its label carries, what it takes and gives, whether it is the first part of an
/// `if`, and its operands.
#[derive(Drop)]
pub struct OpenSeq {
    pub label: Listed,
    pub params: Listed,
    pub results: Listed,
    pub first: bool,
    pub stack: Stack,
}

/// What a branch to the label carries, by its number: `own` is of the innermost sequence, the others are in `outer`.
pub fn label_of(_scope: &Scope, own: Listed, outer: &[OpenSeq], k: u32) -> Option<Listed>
    ensures { MatchOption result (slice_get (labels_in _scope.now.types own outer.now) k ≡ None) (λ l. slice_get (labels_in _scope.now.types own outer.now) k ≡ Some (listed _scope.now.types l)) }
{
    if k == 0 {
        return Some(own);
    }
    let k = k as usize;
    if k > outer.len() {
        return None;
    }
    let there = &outer[outer.len() - k];
    Some(there.label)
}

// Whether the operands match the types of the list, which has as many as wanted. They match those wanted, and the last `hold`
// types decide.
fn can_take(scope: &Scope, list: Listed, wanted: Listed, hold: usize, s: &Stack) -> bool
    requires count { length (listed scope.now.types list) ≡ length (listed scope.now.types wanted) }
    requires decide { Decide (listed scope.now.types wanted) (known scope.now.types s.now) hold }
    ensures { CanTake result (listed scope.now.types list) (known scope.now.types s.now) }
{
    if scope.ends_alike(list, wanted, hold) {
        return true;
    }
    let mut rest = s.peek(scope);
    rest.take_list(scope, list)
}

// Whether the label is there, carries as many types as wanted, and the operands match them. Of the labels of one name it
// looks at one.
fn fits_one(
    scope: &Scope,
    own: Listed,
    outer: &[OpenSeq],
    wanted: Listed,
    hold: usize,
    k: u32,
    s: &Stack,
    seen: &mut Seen,
) -> Result<bool, AllocError>
    requires decide { Decide (listed scope.now.types wanted) (known scope.now.types s.now) hold }
    requires pass { SeenPass scope.now.types (listed scope.now.types wanted) (known scope.now.types s.now) seen.old }
    ensures fits { IfOk result (λ b. CanCarry b (labels_in scope.now.types own outer.now) (listed scope.now.types wanted) (known scope.now.types s.now) k) }
    ensures pass { IfOk result (λ b. SeenPass scope.now.types (listed scope.now.types wanted) (known scope.now.types s.now) seen.new) }
{
    let Some(list) = label_of(scope, own, outer, k) else {
        return Ok(false);
    };
    if seen.has(list) {
        return Ok(true);
    }
    if scope.list(list).len() != scope.list(wanted).len() {
        return Ok(false);
    }
    if !can_take(scope, list, wanted, hold, s) {
        return Ok(false);
    }
    seen.put(list)?;
    Ok(true)
}

// Whether each of these labels is there, carries as many types as wanted, and the operands match them.
fn each(
    alloc: Global,
    scope: &Scope,
    own: Listed,
    outer: &[OpenSeq],
    wanted: Listed,
    hold: usize,
    labels: &[u32],
    s: &Stack,
) -> Result<bool, AllocError>
    requires { Decide (listed scope.now.types wanted) (known scope.now.types s.now) hold }
    ensures { IfOk result (λ b. SomeBy b (each_fits (labels_in scope.now.types own outer.now) (listed scope.now.types wanted) labels.now (known scope.now.types s.now).dead (known scope.now.types s.now).ops) (known scope.now.types s.now).ops) }
{
    let mut seen = Seen::new(alloc);
    for k in labels {
        if !fits_one(scope, own, outer, wanted, hold, *k, s, &mut seen)? {
            return Ok(false);
        }
    }
    Ok(true)
}

/// `br_table`. It costs its labels, and the runs of operands once. What labels carry is compared by its number, or has few types,
/// or is used seldom.
pub fn choose(
    alloc: Global,
    scope: &Scope,
    own: Listed,
    outer: &[OpenSeq],
    labels: &[u32],
    last: u32,
    s: &mut Stack,
) -> Result<bool, AllocError>
    ensures { IfOk result (λ b. (C : Context) → Answers b (acts_of C (labels_in scope.now.types own outer.now) (BrTable labels.now last) (known scope.now.types s.old)) (known scope.now.types s.new)) }
{
    if !s.take(scope, ValType::I32) {
        return Ok(false);
    }
    let Some(wanted) = label_of(scope, own, outer, last) else {
        return Ok(false);
    };
    let mut rest = s.peek(scope);
    if !rest.take_list(scope, wanted) {
        return Ok(false);
    }
    let hold = s.decisive(scope, wanted);
    if !each(alloc, scope, own, outer, wanted, hold, labels, s)? {
        return Ok(false);
    }
    s.kill(scope);
    Ok(true)
}

// Whether a sequence with these results may end with these operands.
fn finished(scope: &Scope, results: Listed, s: &Stack) -> bool
    ensures { (go : Option (List Open)) → finished_of (listed scope.now.types results) (known scope.now.types s.now) go ≡ when result go }
{
    let mut rest = s.peek(scope);
    if !rest.take_list(scope, results) {
        return false;
    }
    rest.is_empty(scope)
}

fn fresh(alloc: Global, scope: &Scope, types: Listed) -> Result<Stack, AllocError>
    ensures { IfOk result (λ s. known scope.now.types s ≡ record { dead = false; ops = operands (listed scope.now.types types) }) }
{
    let mut stack = Stack::new(alloc, scope);
    stack.put_list(scope, types)?;
    Ok(stack)
}

/// Opens a `block` or a `loop` of the type `[params] → [results]` in the sequence `o`.
pub fn opens(
    alloc: Global,
    scope: &Scope,
    seqs: &mut Vec<OpenSeq>,
    label: Listed,
    params: Listed,
    results: Listed,
    o: OpenSeq,
) -> Result<bool, AllocError>
    ensures { IfOk result (λ b. SomeBy b (opens_of (operands (listed scope.now.types params)) (opened_of (listed scope.now.types label) (arrow (listed scope.now.types params) (listed scope.now.types results)) false) (open_of scope.now.types o) (open_seqs scope.now.types seqs.old.items)) (open_seqs scope.now.types seqs.new.items)) }
{
    let mut o = o;
    if !o.stack.take_list(scope, params) {
        return Ok(false);
    }
    let stack = fresh(alloc, scope, params)?;
    seqs.push(o)?;
    seqs.push(OpenSeq {
        label,
        params,
        results,
        first: false,
        stack,
    })?;
    Ok(true)
}

/// Opens an `if` of the type `[params] → [results]` in the sequence `o`.
pub fn opens_if(
    alloc: Global,
    scope: &Scope,
    seqs: &mut Vec<OpenSeq>,
    params: Listed,
    results: Listed,
    o: OpenSeq,
) -> Result<bool, AllocError>
    ensures { IfOk result (λ b. SomeBy b (opens_of (Of ValType.I32 ∷ operands (listed scope.now.types params)) (opened_of (listed scope.now.types results) (arrow (listed scope.now.types params) (listed scope.now.types results)) true) (open_of scope.now.types o) (open_seqs scope.now.types seqs.old.items)) (open_seqs scope.now.types seqs.new.items)) }
{
    let mut o = o;
    if !o.stack.take(scope, ValType::I32) {
        return Ok(false);
    }
    if !o.stack.take_list(scope, params) {
        return Ok(false);
    }
    let stack = fresh(alloc, scope, params)?;
    seqs.push(o)?;
    seqs.push(OpenSeq {
        label: results,
        params,
        results,
        first: true,
        stack,
    })?;
    Ok(true)
}

/// `else`
pub fn turns(
    alloc: Global,
    scope: &Scope,
    seqs: &mut Vec<OpenSeq>,
    o: OpenSeq,
) -> Result<bool, AllocError>
    ensures { IfOk result (λ b. SomeBy b (turns_of (open_of scope.now.types o) (open_seqs scope.now.types seqs.old.items)) (open_seqs scope.now.types seqs.new.items)) }
{
    if !o.first {
        return Ok(false);
    }
    if !finished(scope, o.results, &o.stack) {
        return Ok(false);
    }
    let stack = fresh(alloc, scope, o.params)?;
    seqs.push(OpenSeq {
        label: o.label,
        params: o.params,
        results: o.results,
        first: false,
        stack,
    })?;
    Ok(true)
}

// Whether a part of an `if` that isn't written may be empty.
fn other_finished(alloc: Global, scope: &Scope, o: &OpenSeq) -> Result<bool, AllocError>
    ensures { IfOk result (λ b. (go : Option (List Open)) → finished_other o.now.first (open_of scope.now.types o.now) go ≡ when b go) }
{
    if !o.first {
        return Ok(true);
    }
    let stack = fresh(alloc, scope, o.params)?;
    Ok(finished(scope, o.results, &stack))
}

/// `end`
pub fn ends(
    alloc: Global,
    scope: &Scope,
    seqs: &mut Vec<OpenSeq>,
    o: OpenSeq,
) -> Result<bool, AllocError>
    ensures { IfOk result (λ b. SomeBy b (ends_of (open_of scope.now.types o) (open_seqs scope.now.types seqs.old.items)) (open_seqs scope.now.types seqs.new.items)) }
{
    if !finished(scope, o.results, &o.stack) {
        return Ok(false);
    }
    if !other_finished(alloc, scope, &o)? {
        return Ok(false);
    }
    let Some(mut around) = seqs.pop() else {
        return Ok(true);
    };
    around.stack.put_list(scope, o.results)?;
    seqs.push(around)?;
    Ok(true)
}
