// Control instructions: blocks, and the ends of labels and frames (Execution, Instructions: Control Instructions, Blocks).
ghost use Rattle.std.specs.Prelude.{◌≡◌, ◌≤◌, ◌+◌, ◌<◌, ◌^◌, true, false, IfOk, Some, None, length, take, option_map};
ghost use Rattle.wasm_ast.specs.declared.modules.Module.{Module as OneModule};
ghost use Rattle.wasm_ast.specs.declared.instructions.Instr.{Instr};
ghost use Rattle.wasm_reduction.specs.Functions.{block_type as block_type_of};
ghost use Rattle.wasm_reduction.specs.Control.{finish, give_back as give_back_of};
ghost use Rattle.wasm_machine.specs.States.{own, passed};
ghost use Rattle.wasm_machine.specs.Configurations.{image as image_of, configuration};
ghost use Rattle.wasm_machine.specs.Acts.{Sane, Ready, IsNext, Acts};
ghost use Rattle.wasm_machine.specs.code.Simulation.{SimulatesWithoutAsking, arities_of, carried_by, opening, IsOpening};
ghost use Rattle.wasm_machine.specs.code.SelectOperands.{by_answer};

use crate::machine::Machine;
use crate::next::{End, Next, Question};
use std::alloc::{AllocError, Global};
use wasm_ast::{BlockType, Module};
use wasm_rules::Algebra;

/// `nop`.
#[inline(always)]
pub fn nop<A: Algebra>(a: &A, s: &mut Machine<A::Word>) -> Next<A::Word>
    requires { Ready A.holds A.Has A.means a.now s.old }
    ensures { (m : OneModule) → Acts A.holds A.means A.kind m Instr.Nop a.now s.old a.now s.new result }
{
    s.pass();
    Next::Goes
}

/// How many values a block takes and gives.
#[derive(Clone, Copy)]
pub struct Arities {
    pub params: usize,
    pub results: usize,
}

// How many values a block of this type takes and gives.
fn block_arities(m: &Module, ty: BlockType) -> Option<Arities>
    ensures { result ≡ option_map arities_of (block_type_of m.now ty) }
{
    match ty {
        BlockType::Empty => Some(Arities {
            params: 0,
            results: 0,
        }),
        BlockType::One(_) => Some(Arities {
            params: 0,
            results: 1,
        }),
        BlockType::Index(ty) => match m.types.as_slice().get(ty as usize) {
            None => None,
            Some(t) => Some(Arities {
                params: t.params.len(),
                results: t.results.len(),
            }),
        },
    }
}

// Into a block, or into a loop where again.
#[inline(always)]
fn open<A: Algebra>(
    a: &A,
    s: &mut Machine<A::Word>,
    m: &Module,
    ty: BlockType,
    body: u32,
    again: bool,
) -> Result<Next<A::Word>, AllocError>
    requires sane { Sane A.holds a.now s.old }
    requires place { s.old.frame.here.place + 1 < 2 ^ 64 }
    requires units { s.old.units + 1 < 2 ^ 64 }
    requires opening { IsOpening m.now s.old again ty body }
    ensures { IfOk result (λ x. SimulatesWithoutAsking A.holds A.means m.now a.now s.new x
        (λ b. opening again m.now (configuration (A.means a.now) m.now b (passed s.old)) (own (image_of (A.means a.now) s.old)) ty body)) }
{
    match block_arities(m, ty) {
        None => Ok(Next::Ends(End::Stuck)),
        Some(n) => {
            if s.own_count() < n.params {
                return Ok(Next::Ends(End::Stuck));
            }
            s.enter(body, n.params, carried(n, again), again)?;
            Ok(Next::Goes)
        }
    }
}

// How many values a branch to the label carries.
fn carried(n: Arities, again: bool) -> usize
    ensures { result ≡ carried_by n again }
{
    if again { n.params } else { n.results }
}

/// `block`.
#[inline(always)]
pub fn block<A: Algebra>(
    a: &A,
    s: &mut Machine<A::Word>,
    m: &Module,
    ty: BlockType,
    body: u32,
) -> Result<Next<A::Word>, AllocError>
    requires ready { Ready A.holds A.Has A.means a.now s.old }
    requires next { IsNext m.now s.old (Instr.Block ty body) }
    ensures { IfOk result (λ x. Acts A.holds A.means A.kind m.now (Instr.Block ty body) a.now s.old a.now s.new x) }
{
    let next = open(a, s, m, ty, body, false)?;
    Ok(next)
}

/// `loop`.
#[inline(always)]
pub fn repeat<A: Algebra>(
    a: &A,
    s: &mut Machine<A::Word>,
    m: &Module,
    ty: BlockType,
    body: u32,
) -> Result<Next<A::Word>, AllocError>
    requires ready { Ready A.holds A.Has A.means a.now s.old }
    requires next { IsNext m.now s.old (Instr.Loop ty body) }
    ensures { IfOk result (λ x. Acts A.holds A.means A.kind m.now (Instr.Loop ty body) a.now s.old a.now s.new x) }
{
    let next = open(a, s, m, ty, body, true)?;
    Ok(next)
}

/// `if`.
#[inline(always)]
pub fn if_else<A: Algebra>(
    a: &A,
    s: &mut Machine<A::Word>,
    m: &Module,
    ty: BlockType,
    first: u32,
    other: u32,
) -> Result<Next<A::Word>, AllocError>
    requires ready { Ready A.holds A.Has A.means a.now s.old }
    requires next { IsNext m.now s.old (Instr.If ty first other) }
    ensures { IfOk result (λ x. Acts A.holds A.means A.kind m.now (Instr.If ty first other) a.now s.old a.now s.new x) }
{
    match s.word(0, false) {
        None => Ok(Next::Ends(End::Stuck)),
        Some(condition) => match s.answer(0) {
            None => Ok(Next::Asks(Question::Test, condition)),
            Some(n) => {
                s.discard(1);
                let next = open(a, s, m, ty, by_test(n, other, first), false)?;
                Ok(next)
            }
        },
    }
}

// What comes after the answer 0, or after another.
fn by_test(n: u64, at_zero: u32, at_other: u32) -> u32
    ensures { result ≡ by_answer n at_zero at_other }
{
    if n == 0 { at_zero } else { at_other }
}

// Back to the frame that waits, or the end of the run, with the last n operands.
#[inline(always)]
pub(crate) fn give_back<A: Algebra>(
    alloc: Global,
    a: &A,
    s: &mut Machine<A::Word>,
    n: usize,
) -> Result<Next<A::Word>, AllocError>
    requires sane { Sane A.holds a.now s.old }
    requires within { n ≤ length (own s.old) }
    ensures { IfOk result (λ x. (m : OneModule) → SimulatesWithoutAsking A.holds A.means m a.now s.new x
        (λ b. give_back_of (configuration (A.means a.now) m b s.old) (take n (own (image_of (A.means a.now) s.old))) (configuration (A.means a.now) m b s.old).callers)) }
{
    if s.give_back(n) {
        return Ok(Next::Goes);
    }
    let values = s.last(alloc, n)?;
    Ok(Next::Ends(End::Returns(values)))
}

/// The end of a label, or of a frame, where no instruction is next.
#[inline(always)]
pub fn end<A: Algebra>(
    alloc: Global,
    a: &A,
    s: &mut Machine<A::Word>,
) -> Result<Next<A::Word>, AllocError>
    requires { Sane A.holds a.now s.old }
    ensures { IfOk result (λ x. (m : OneModule) → SimulatesWithoutAsking A.holds A.means m a.now s.new x
        (λ b. finish (configuration (A.means a.now) m b s.old) (own (image_of (A.means a.now) s.old)) (configuration (A.means a.now) m b s.old).frame.outer)) }
{
    if s.label_count() > 0 {
        s.leave();
        return Ok(Next::Goes);
    }
    let n = s.own_count();
    let next = give_back(alloc, a, s, n)?;
    Ok(next)
}
