// The bounds of a run, as far as the state of the machine tells them (on units, and on frames). Each run asks here, whatever
// its words are.
ghost use Rattle.std.specs.Prelude.{◌≡◌, ℕ, List, None, ◌&&◌, nat_le, nat_lt, length};
ghost use Rattle.wasm_ast.specs.declared.modules.Module.{Module as OneModule};
ghost use Rattle.wasm_reduction.specs.Runs.{is_due as is_due_at, most_frames};
ghost use Rattle.wasm_machine.specs.Configurations.{configuration, code_of};

use crate::machine::Machine;
use wasm_ast::Module;
use wasm_rules::Algebra;

const MOST_FRAMES: usize = 1_024;

/// Whether a call is too deep: more than 1,024 frames beside the outermost one.
#[inline(always)]
pub fn is_deep<A: Algebra>(a: &A, s: &Machine<A::Word>) -> bool
    ensures { (m : OneModule) (b : List A.Means) → result ≡ nat_lt most_frames (length (configuration (A.means a.now) m b s.now).callers) }
{
    s.depth() > MOST_FRAMES
}

/// Whether all units are spent, and an instruction is next, which costs one.
#[inline(always)]
#[tactic(auto, using(crate::proofs::BoundLaws::spent_no))]
pub fn is_spent<A: Algebra>(a: &A, s: &Machine<A::Word>, m: &Module, steps: u64) -> bool
    ensures { (b : List A.Means) → result ≡ (is_due_at (configuration (A.means a.now) m.now b s.now).frame.here.code (configuration (A.means a.now) m.now b s.now).callers && nat_le steps s.now.units) }
{
    if s.units < steps {
        return false;
    }
    is_due(a, s, m)
}

/// Whether an instruction of a function is next, which costs a unit.
#[cold]
#[inline(never)]
pub fn is_due<A: Algebra>(a: &A, s: &Machine<A::Word>, m: &Module) -> bool
    ensures { (b : List A.Means) → result ≡ is_due_at (configuration (A.means a.now) m.now b s.now).frame.here.code (configuration (A.means a.now) m.now b s.now).callers }
{
    if s.depth() == 0 {
        return false;
    }
    match s.frame.func {
        Some(f) => s.instruction(f, m).is_some(),
        None => s.frame.here.place < outer_calls(m),
    }
}

// How many calls the outermost frame makes: that of the start function, where there is one, and that of the entry.
fn outer_calls(m: &Module) -> usize
    ensures { (entry : ℕ) → result ≡ length (code_of m.now entry None 0) }
{
    if m.start.is_some() { 2 } else { 1 }
}
