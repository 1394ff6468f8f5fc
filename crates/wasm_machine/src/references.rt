// Reference instructions (Execution, Instructions: Reference Instructions).
ghost use Rattle.std.specs.Prelude.{◌≡◌, IfOk, Some, option_map};
ghost use Rattle.wasm_ast.specs.declared.modules.Module.{Module as OneModule};
ghost use Rattle.wasm_ast.specs.declared.instructions.Instr.{Instr};
ghost use Rattle.wasm_rules.specs.Words.{Kept};
ghost use Rattle.int_ops.specs.Integers.{truth as truth_of};
ghost use Rattle.wasm_reduction.specs.Tables.{null_of as null_of_kind, is_null as is_null_reference};
ghost use Rattle.wasm_machine.specs.Values.{reference};
ghost use Rattle.wasm_machine.specs.Acts.{Ready, Acts};

use crate::machine::Machine;
use crate::next::{End, Next};
use crate::values::{Reference, Value};
use std::alloc::AllocError;
use wasm_ast::ValType;
use wasm_rules::Algebra;

/// `ref.null`.
pub fn ref_null<A: Algebra>(
    a: &A,
    s: &mut Machine<A::Word>,
    kind: ValType,
) -> Result<Next<A::Word>, AllocError>
    requires { Ready A.holds A.Has A.means a.now s.old }
    ensures { IfOk result (λ r. (m : OneModule) → Acts A.holds A.means A.kind m (Instr.RefNull kind) a.now s.old a.now s.new r) }
{
    match null_of(kind) {
        None => Ok(Next::Ends(End::Stuck)),
        Some(r) => {
            s.pass();
            s.push(Value::Ref(r))?;
            Ok(Next::Goes)
        }
    }
}

// The null of a reference type.
fn null_of(kind: ValType) -> Option<Reference>
    ensures { null_of_kind kind ≡ option_map reference result }
{
    match kind {
        ValType::FuncRef => Some(Reference::Func(None)),
        ValType::ExternRef => Some(Reference::Extern),
        _ => None,
    }
}

fn is_null(r: Reference) -> bool
    ensures { result ≡ is_null_reference (reference r) }
{
    match r {
        Reference::Func(None) => true,
        Reference::Func(Some(_)) => false,
        Reference::Extern => true,
    }
}

/// `ref.is_null`.
pub fn ref_is_null<A: Algebra>(a: &mut A, s: &mut Machine<A::Word>) -> Next<A::Word>
    requires { Ready A.holds A.Has A.means a.old s.old }
    ensures kept { Kept A.holds A.means a.old a.new }
    ensures acts { (m : OneModule) → Acts A.holds A.means A.kind m Instr.RefIsNull a.old s.old a.new s.new result }
{
    match s.reference(0) {
        None => Next::Ends(End::Stuck),
        Some(r) => {
            let w = a.constant(truth(is_null(r)));
            s.pass();
            s.replace(1, Value::I32(w));
            Next::Goes
        }
    }
}

// 1 where it holds, else 0.
fn truth(b: bool) -> u64
    ensures { result ≡ truth_of b }
{
    if b { 1 } else { 0 }
}

/// `ref.func`.
pub fn ref_func<A: Algebra>(
    a: &A,
    s: &mut Machine<A::Word>,
    x: u32,
) -> Result<Next<A::Word>, AllocError>
    requires { Ready A.holds A.Has A.means a.now s.old }
    ensures { IfOk result (λ r. (m : OneModule) → Acts A.holds A.means A.kind m (Instr.RefFunc x) a.now s.old a.now s.new r) }
{
    s.pass();
    s.push(Value::Ref(Reference::Func(Some(x))))?;
    Ok(Next::Goes)
}
