// Variable instructions (Execution, Instructions: Variable Instructions).
ghost use Rattle.std.specs.Prelude.{IfOk, Some};
ghost use Rattle.wasm_ast.specs.declared.modules.Module.{Module as OneModule};
ghost use Rattle.wasm_ast.specs.declared.instructions.Instr.{Instr};
ghost use Rattle.wasm_machine.specs.Acts.{Ready, Acts};

use crate::machine::Machine;
use crate::next::{End, Next};
use std::alloc::AllocError;
use wasm_rules::Algebra;

/// `local.get`.
#[inline(always)]
pub fn local_get<A: Algebra>(
    a: &A,
    s: &mut Machine<A::Word>,
    x: u32,
) -> Result<Next<A::Word>, AllocError>
    requires { Ready A.holds A.Has A.means a.now s.old }
    ensures { IfOk result (λ r. (m : OneModule) → Acts A.holds A.means A.kind m (Instr.LocalGet x) a.now s.old a.now s.new r) }
{
    match s.local(x) {
        None => Ok(Next::Ends(End::Stuck)),
        Some(v) => {
            s.pass();
            s.push(v)?;
            Ok(Next::Goes)
        }
    }
}

/// `local.set`.
#[inline(always)]
pub fn local_set<A: Algebra>(a: &A, s: &mut Machine<A::Word>, x: u32) -> Next<A::Word>
    requires { Ready A.holds A.Has A.means a.now s.old }
    ensures { (m : OneModule) → Acts A.holds A.means A.kind m (Instr.LocalSet x) a.now s.old a.now s.new result }
{
    match s.local(x) {
        None => Next::Ends(End::Stuck),
        Some(_) => match s.operand(0) {
            None => Next::Ends(End::Stuck),
            Some(v) => {
                s.pass();
                s.discard(1);
                s.set_local(x, v);
                Next::Goes
            }
        },
    }
}

/// `local.tee`.
#[inline(always)]
pub fn local_tee<A: Algebra>(a: &A, s: &mut Machine<A::Word>, x: u32) -> Next<A::Word>
    requires { Ready A.holds A.Has A.means a.now s.old }
    ensures { (m : OneModule) → Acts A.holds A.means A.kind m (Instr.LocalTee x) a.now s.old a.now s.new result }
{
    match s.local(x) {
        None => Next::Ends(End::Stuck),
        Some(_) => match s.operand(0) {
            None => Next::Ends(End::Stuck),
            Some(v) => {
                s.pass();
                s.set_local(x, v);
                Next::Goes
            }
        },
    }
}

/// `global.get`.
#[inline(always)]
pub fn global_get<A: Algebra>(
    a: &A,
    s: &mut Machine<A::Word>,
    x: u32,
) -> Result<Next<A::Word>, AllocError>
    requires { Ready A.holds A.Has A.means a.now s.old }
    ensures { IfOk result (λ r. (m : OneModule) → Acts A.holds A.means A.kind m (Instr.GlobalGet x) a.now s.old a.now s.new r) }
{
    match s.global(x) {
        None => Ok(Next::Ends(End::Stuck)),
        Some(v) => {
            s.pass();
            s.push(v)?;
            Ok(Next::Goes)
        }
    }
}

/// `global.set`.
#[inline(always)]
pub fn global_set<A: Algebra>(a: &A, s: &mut Machine<A::Word>, x: u32) -> Next<A::Word>
    requires { Ready A.holds A.Has A.means a.now s.old }
    ensures { (m : OneModule) → Acts A.holds A.means A.kind m (Instr.GlobalSet x) a.now s.old a.now s.new result }
{
    match s.global(x) {
        None => Next::Ends(End::Stuck),
        Some(_) => match s.operand(0) {
            None => Next::Ends(End::Stuck),
            Some(v) => {
                s.pass();
                s.discard(1);
                s.set_global(x, v);
                Next::Goes
            }
        },
    }
}
