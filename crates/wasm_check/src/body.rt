// The checker of a function's body: a stack of open sequences, and a walk through the body.
ghost use Rattle.std.specs.Prelude.{◌≡◌, ◌<◌, ◌-◌, IfOk, MatchOption, Option, true, false, None, Some};
ghost use Rattle.wasm_ast.specs.Shape.{ExprHasShape};
ghost use Rattle.wasm_check.specs.code.Runs.{open_of, open_seqs};
ghost use Rattle.wasm_check.specs.code.Checker.{SomeBy, on_open, reads as reads_of, start_of};
ghost use Rattle.wasm_check.specs.Trees.{Token, Does, Opens_block, Opens_loop, Opens_if};
ghost use Rattle.wasm_check.specs.code.Walk.{token_of};
ghost use Rattle.wasm_check.specs.code.Progress.{IsWritten, IsFoundIn, BodyPasses, BodyStopsAt};
ghost use Rattle.wasm_check.specs.code.Kept.{context};

use crate::open::{OpenSeq, ends, opens, opens_if, turns};
use crate::plain::acts;
use crate::scope::Scope;
use crate::stack::Stack;
use crate::walk::{Written, instr_at, walk};
use std::alloc::{AllocError, Global};
use type_suffixes::Listed;
use wasm_ast::{BlockType, Expr, Instr, List};

fn plain(
    alloc: Global,
    scope: &Scope,
    seqs: &mut Vec<OpenSeq>,
    i: &Instr,
    o: OpenSeq,
) -> Result<bool, AllocError>
    ensures { IfOk result (λ b. SomeBy b (on_open (context scope.now) (Does i.now) (open_of scope.now.types o) (open_seqs scope.now.types seqs.old.items)) (open_seqs scope.now.types seqs.new.items)) }
{
    let mut o = o;
    if !acts(alloc, scope, o.label, seqs.as_slice(), i, &mut o.stack)? {
        return Ok(false);
    }
    seqs.push(o)?;
    Ok(true)
}

fn block(
    alloc: Global,
    scope: &Scope,
    seqs: &mut Vec<OpenSeq>,
    ty: &BlockType,
    o: OpenSeq,
) -> Result<bool, AllocError>
    ensures { IfOk result (λ b. SomeBy b (on_open (context scope.now) (Opens_block ty.now) (open_of scope.now.types o) (open_seqs scope.now.types seqs.old.items)) (open_seqs scope.now.types seqs.new.items)) }
{
    match scope.block(ty) {
        None => Ok(false),
        Some((params, results)) => Ok(opens(alloc, scope, seqs, results, params, results, o)?),
    }
}

fn repeats(
    alloc: Global,
    scope: &Scope,
    seqs: &mut Vec<OpenSeq>,
    ty: &BlockType,
    o: OpenSeq,
) -> Result<bool, AllocError>
    ensures { IfOk result (λ b. SomeBy b (on_open (context scope.now) (Opens_loop ty.now) (open_of scope.now.types o) (open_seqs scope.now.types seqs.old.items)) (open_seqs scope.now.types seqs.new.items)) }
{
    match scope.block(ty) {
        None => Ok(false),
        Some((params, results)) => Ok(opens(alloc, scope, seqs, params, params, results, o)?),
    }
}

fn branches(
    alloc: Global,
    scope: &Scope,
    seqs: &mut Vec<OpenSeq>,
    ty: &BlockType,
    o: OpenSeq,
) -> Result<bool, AllocError>
    ensures { IfOk result (λ b. SomeBy b (on_open (context scope.now) (Opens_if ty.now) (open_of scope.now.types o) (open_seqs scope.now.types seqs.old.items)) (open_seqs scope.now.types seqs.new.items)) }
{
    match scope.block(ty) {
        None => Ok(false),
        Some((params, results)) => Ok(opens_if(alloc, scope, seqs, params, results, o)?),
    }
}

fn instruction(
    alloc: Global,
    scope: &Scope,
    seqs: &mut Vec<OpenSeq>,
    i: &Instr,
    o: OpenSeq,
) -> Result<bool, AllocError>
    ensures { IfOk result (λ b. SomeBy b (on_open (context scope.now) (token_of i.now) (open_of scope.now.types o) (open_seqs scope.now.types seqs.old.items)) (open_seqs scope.now.types seqs.new.items)) }
{
    match i {
        Instr::Block { ty, .. } => Ok(block(alloc, scope, seqs, ty, o)?),
        Instr::Loop { ty, .. } => Ok(repeats(alloc, scope, seqs, ty, o)?),
        Instr::If { ty, .. } => Ok(branches(alloc, scope, seqs, ty, o)?),
        _ => Ok(plain(alloc, scope, seqs, i, o)?),
    }
}

// What is written next, in the sequence `o` inside the others.
fn reads_in(
    alloc: Global,
    scope: &Scope,
    code: &List<List<Instr>>,
    seqs: &mut Vec<OpenSeq>,
    w: Written,
    o: OpenSeq,
) -> Result<bool, AllocError>
    ensures { IfOk result (λ b. (t : Token) → IsWritten code.now w t → SomeBy b (on_open (context scope.now) t (open_of scope.now.types o) (open_seqs scope.now.types seqs.old.items)) (open_seqs scope.now.types seqs.new.items)) }
{
    match w {
        Written::Instruction { seq, at } => match instr_at(code, seq, at) {
            None => Ok(false),
            Some(i) => { Ok(instruction(alloc, scope, seqs, i, o)?) }
        },
        Written::Other => Ok(turns(alloc, scope, seqs, o)?),
        Written::End => Ok(ends(alloc, scope, seqs, o)?),
        Written::Over => Ok(false),
    }
}

fn reads(
    alloc: Global,
    scope: &Scope,
    code: &List<List<Instr>>,
    seqs: &mut Vec<OpenSeq>,
    w: Written,
) -> Result<bool, AllocError>
    ensures { IfOk result (λ b. (t : Token) → IsWritten code.now w t → SomeBy b (reads_of (context scope.now) t (open_seqs scope.now.types seqs.old.items)) (open_seqs scope.now.types seqs.new.items)) }
{
    let Some(o) = seqs.pop() else {
        return Ok(false);
    };
    Ok(reads_in(alloc, scope, code, seqs, w, o)?)
}

fn start(alloc: Global, scope: &Scope) -> Result<Vec<OpenSeq>, AllocError>
    ensures { IfOk result (λ v. open_seqs scope.now.types v.items ≡ start_of (context scope.now)) }
{
    let mut seqs = Vec::new(alloc);
    let stack = Stack::new(alloc, scope);
    seqs.push(OpenSeq {
        label: scope.results(),
        params: Listed::Nothing,
        results: scope.results(),
        first: false,
        stack,
    })?;
    Ok(seqs)
}

// The place of the first instruction that isn't typed.
fn find_fault(
    alloc: Global,
    scope: &Scope,
    code: &List<List<Instr>>,
) -> Result<Option<u64>, AllocError>
    ensures { IfOk result (IsFoundIn (context scope.now) code.now) }
{
    let mut walker = walk(alloc)?;
    let mut seqs = start(alloc, scope)?;
    for at in 0..u64::MAX {
        let w = walker.next(code)?;
        if let Written::Over = w {
            return Ok(None);
        }
        if !reads(alloc, scope, code, &mut seqs, w)? {
            return Ok(Some(at));
        }
    }
    Ok(None)
}

/// The place of the first fault of the body, in the context of a function.
pub fn body_fault(alloc: Global, scope: &Scope, body: &Expr) -> Result<Option<u64>, AllocError>
    requires { ExprHasShape body.now }
    ensures { IfOk result (λ r. MatchOption r (BodyPasses (context scope.now) body.now) (BodyStopsAt (context scope.now) body.now)) }
{
    Ok(find_fault(alloc, scope, &body.seqs)?)
}
