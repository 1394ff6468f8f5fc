// Parametric instructions (Execution, Instructions: Parametric Instructions).
ghost use Rattle.std.specs.Prelude.{◌≡◌, false, IfOk, Some};
ghost use Rattle.wasm_ast.specs.declared.modules.Module.{Module as OneModule};
ghost use Rattle.wasm_ast.specs.declared.instructions.Instr.{Instr};
ghost use Rattle.wasm_rules.specs.Words.{Kept};
ghost use Rattle.wasm_machine.specs.Acts.{Ready, Acts};
ghost use Rattle.wasm_machine.specs.Values.{valued};
ghost use Rattle.wasm_machine.specs.code.SelectOperands.{SelectOperands, by_answer};
ghost use Rattle.wasm_machine.specs.declared.values.Value.{Value as OneValue};

use crate::machine::Machine;
use crate::next::{End, Next, Question};
use crate::values::{Reference, Value};
use std::alloc::AllocError;
use wasm_rules::Algebra;

/// `drop`.
#[inline(always)]
pub fn discard<A: Algebra>(a: &A, s: &mut Machine<A::Word>) -> Next<A::Word>
    requires { Ready A.holds A.Has A.means a.now s.old }
    ensures { (m : OneModule) → Acts A.holds A.means A.kind m Instr.Discard a.now s.old a.now s.new result }
{
    match s.operand(0) {
        None => Next::Ends(End::Stuck),
        Some(_) => {
            s.pass();
            s.discard(1);
            Next::Goes
        }
    }
}

/// `select`, without types or with them.
pub fn select<A: Algebra>(a: &mut A, s: &mut Machine<A::Word>) -> Result<Next<A::Word>, AllocError>
    requires { Ready A.holds A.Has A.means a.old s.old }
    ensures kept { Kept A.holds A.means a.old a.new }
    ensures acts { IfOk result (λ x. (m : OneModule) → Acts A.holds A.means A.kind m Instr.Select a.old s.old a.new s.new x) }
{
    match s.word(0, false) {
        None => Ok(Next::Ends(End::Stuck)),
        Some(condition) => match s.operand(1) {
            None => Ok(Next::Ends(End::Stuck)),
            Some(second) => match s.operand(2) {
                None => Ok(Next::Ends(End::Stuck)),
                Some(first) => {
                    let next = choose(a, s, condition, first, second)?;
                    Ok(next)
                }
            },
        },
    }
}

// One of two values.
fn choose<A: Algebra>(
    a: &mut A,
    s: &mut Machine<A::Word>,
    condition: A::Word,
    first: Value<A::Word>,
    second: Value<A::Word>,
) -> Result<Next<A::Word>, AllocError>
    requires ready { Ready A.holds A.Has A.means a.old s.old }
    requires three { SelectOperands s.old condition first second }
    ensures kept { Kept A.holds A.means a.old a.new }
    ensures acts { IfOk result (λ x. (m : OneModule) → Acts A.holds A.means A.kind m Instr.Select a.old s.old a.new s.new x) }
{
    match first {
        Value::I32(x) => {
            let next = choose_word(a, s, condition, false, x, second)?;
            Ok(next)
        }
        Value::I64(x) => {
            let next = choose_word(a, s, condition, true, x, second)?;
            Ok(next)
        }
        Value::Ref(r) => Ok(choose_reference(a, s, condition, r, second)),
    }
}

// One of two words.
fn choose_word<A: Algebra>(
    a: &mut A,
    s: &mut Machine<A::Word>,
    condition: A::Word,
    wide: bool,
    first: A::Word,
    second: Value<A::Word>,
) -> Result<Next<A::Word>, AllocError>
    requires ready { Ready A.holds A.Has A.means a.old s.old }
    requires three { SelectOperands s.old condition (valued wide first) second }
    ensures kept { Kept A.holds A.means a.old a.new }
    ensures acts { IfOk result (λ x. (m : OneModule) → Acts A.holds A.means A.kind m Instr.Select a.old s.old a.new s.new x) }
{
    match second.word(wide) {
        None => Ok(Next::Ends(End::Stuck)),
        Some(other) => {
            let w = a.choose(wide, condition, first, other)?;
            s.pass();
            s.replace(3, Value::of_word(wide, w));
            Ok(Next::Goes)
        }
    }
}

// One of two references: the condition is asked.
fn choose_reference<A: Algebra>(
    a: &A,
    s: &mut Machine<A::Word>,
    condition: A::Word,
    first: Reference,
    second: Value<A::Word>,
) -> Next<A::Word>
    requires ready { Ready A.holds A.Has A.means a.now s.old }
    requires three { SelectOperands s.old condition (OneValue.Ref first) second }
    ensures { (m : OneModule) → Acts A.holds A.means A.kind m Instr.Select a.now s.old a.now s.new result }
{
    match second.reference() {
        None => Next::Ends(End::Stuck),
        Some(other) => match s.answer(0) {
            None => Next::Asks(Question::Test, condition),
            Some(n) => {
                s.pass();
                s.replace(3, Value::Ref(one_of(n, other, first)));
                Next::Goes
            }
        },
    }
}

// The first where the answer is 0, else the second.
fn one_of(n: u64, at_zero: Reference, at_other: Reference) -> Reference
    ensures { result ≡ by_answer n at_zero at_other }
{
    if n == 0 { at_zero } else { at_other }
}
