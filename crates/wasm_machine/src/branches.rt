// Branches (Execution, Instructions: Control Instructions).
ghost use Rattle.std.specs.Prelude.{◌≡◌, ◌<◌, ◌^◌, false, IfOk, Some, length};
ghost use Rattle.wasm_ast.specs.declared.modules.Module.{Module as OneModule};
ghost use Rattle.wasm_ast.specs.declared.instructions.Instr.{Instr};
ghost use Rattle.wasm_rules.specs.Words.{Kept};
ghost use Rattle.wasm_reduction.specs.Control.{br as br_of};
ghost use Rattle.wasm_machine.specs.States.{own};
ghost use Rattle.wasm_machine.specs.Configurations.{image as image_of, configuration};
ghost use Rattle.wasm_machine.specs.Acts.{Sane, Ready, Acts};
ghost use Rattle.wasm_machine.specs.code.Simulation.{SimulatesWithoutAsking};
ghost use Rattle.wasm_machine.specs.code.Choices.{choice_of};

use crate::control::give_back;
use crate::machine::Machine;
use crate::next::{End, Next, Question};
use std::alloc::{AllocError, Global};
use wasm_ast::List;
use wasm_rules::Algebra;

// A branch past l labels, of which the last is the body's.
#[inline(always)]
fn jump<A: Algebra>(
    alloc: Global,
    a: &A,
    s: &mut Machine<A::Word>,
    l: u32,
) -> Result<Next<A::Word>, AllocError>
    requires { Sane A.holds a.now s.old }
    ensures { IfOk result (λ x. (m : OneModule) → SimulatesWithoutAsking A.holds A.means m a.now s.new x
        (λ b. br_of (configuration (A.means a.now) m b s.old) (own (image_of (A.means a.now) s.old)) l)) }
{
    let k = l as usize;
    let count = s.label_count();
    if k > count {
        return Ok(Next::Ends(End::Stuck));
    }
    let arity = s.label(k).arity;
    if s.own_count() < arity {
        return Ok(Next::Ends(End::Stuck));
    }
    if k == count {
        let next = give_back(alloc, a, s, arity)?;
        return Ok(next);
    }
    s.branch(k);
    Ok(Next::Goes)
}

/// `br`.
#[inline(always)]
pub fn br<A: Algebra>(
    alloc: Global,
    a: &A,
    s: &mut Machine<A::Word>,
    l: u32,
) -> Result<Next<A::Word>, AllocError>
    requires { Ready A.holds A.Has A.means a.now s.old }
    ensures { IfOk result (λ x. (m : OneModule) → Acts A.holds A.means A.kind m (Instr.Br l) a.now s.old a.now s.new x) }
{
    s.pass();
    let next = jump(alloc, a, s, l)?;
    Ok(next)
}

/// `br_if`.
#[inline(always)]
pub fn br_if<A: Algebra>(
    alloc: Global,
    a: &A,
    s: &mut Machine<A::Word>,
    l: u32,
) -> Result<Next<A::Word>, AllocError>
    requires { Ready A.holds A.Has A.means a.now s.old }
    ensures { IfOk result (λ x. (m : OneModule) → Acts A.holds A.means A.kind m (Instr.BrIf l) a.now s.old a.now s.new x) }
{
    match s.word(0, false) {
        None => Ok(Next::Ends(End::Stuck)),
        Some(condition) => match s.answer(0) {
            None => Ok(Next::Asks(Question::Test, condition)),
            Some(n) => {
                s.pass();
                s.discard(1);
                if n == 0 {
                    return Ok(Next::Goes);
                }
                let next = jump(alloc, a, s, l)?;
                Ok(next)
            }
        },
    }
}

/// Where the questions of `br_table` stand.
#[derive(Clone, Copy)]
pub enum Choice {
    /// It is to be asked whether the index is another than this.
    Ask(u64),
    /// The branch is to this label.
    Label(u32),
}

// Where the questions of `br_table` stand after these answers.
fn choose(labels: &[u32], last: u32, answers: &[u64]) -> Choice
    ensures { result ≡ choice_of labels.now last answers.now 0 }
{
    for k in 0..labels.len() {
        if k >= answers.len() {
            return Choice::Ask(k as u64);
        }
        if answers[k] == 0 {
            return Choice::Label(labels[k]);
        }
    }
    Choice::Label(last)
}

// Whether the index is another than this number, as a word.
#[tactic(auto, unfolding(int_ops::specs::Operators::operator_of))]
fn differs<A: Algebra>(a: &mut A, index: A::Word, k: u64) -> Result<A::Word, AllocError>
    requires held { A.holds a.old index }
    requires wide { A.Has 32 (A.means a.old index) }
    requires small { k < 2 ^ 32 }
    ensures kept { Kept A.holds A.means a.old a.new }
    ensures held { IfOk result (λ w. A.holds a.new w) }
    ensures means { IfOk result (λ w. A.means a.new w ≡ A.kind.binary 0x47 (A.means a.old index) (A.kind.number k)) }
{
    let number = a.constant(k);
    Ok(a.bin(0x47, index, number)?)
}

/// `br_table`.
pub fn br_table<A: Algebra>(
    alloc: Global,
    a: &mut A,
    s: &mut Machine<A::Word>,
    labels: &List<u32>,
    last: u32,
) -> Result<Next<A::Word>, AllocError>
    requires ready { Ready A.holds A.Has A.means a.old s.old }
    requires few { length labels.now < 2 ^ 32 }
    ensures kept { Kept A.holds A.means a.old a.new }
    ensures acts { IfOk result (λ x. (m : OneModule) → Acts A.holds A.means A.kind m (Instr.BrTable labels.now last) a.old s.old a.new s.new x) }
{
    match s.word(0, false) {
        None => Ok(Next::Ends(End::Stuck)),
        Some(index) => match choose(labels.as_slice(), last, s.given()) {
            Choice::Ask(k) => {
                let w = differs(a, index, k)?;
                Ok(Next::Asks(Question::Test, w))
            }
            Choice::Label(l) => {
                s.pass();
                s.discard(1);
                let next = jump(alloc, a, s, l)?;
                Ok(next)
            }
        },
    }
}

/// `return`.
pub fn return_values<A: Algebra>(
    alloc: Global,
    a: &A,
    s: &mut Machine<A::Word>,
) -> Result<Next<A::Word>, AllocError>
    requires { Ready A.holds A.Has A.means a.now s.old }
    ensures { IfOk result (λ x. (m : OneModule) → Acts A.holds A.means A.kind m Instr.Return a.now s.old a.now s.new x) }
{
    let arity = s.frame_arity();
    if s.own_count() < arity {
        return Ok(Next::Ends(End::Stuck));
    }
    s.pass();
    let next = give_back(alloc, a, s, arity)?;
    Ok(next)
}
