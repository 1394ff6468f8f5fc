// Calls (Execution, Instructions: Function Calls).
ghost use Rattle.std.specs.Prelude.{List, MatchOption, None, ◌≡◌, ◌≤◌, ◌+◌, ◌<◌, ℕ, true, false, IfOk, Some, length, drop, slice_get, option_map};
ghost use Rattle.wasm_ast.specs.declared.modules.Module.{Module as OneModule};
ghost use Rattle.wasm_ast.specs.declared.instructions.Instr.{Instr};
ghost use Rattle.wasm_rules.specs.Words.{Kept};
ghost use Rattle.wasm_image.specs.Hosts.{AreLinked};
ghost use Rattle.wasm_reduction.specs.Configurations.{FuncRef};
ghost use Rattle.wasm_reduction.specs.Functions.{Code, same_function_type, defined_as};
ghost use Rattle.wasm_reduction.specs.Control.{call as call_of, calling_host, calling as calling_of, calling_reference};
ghost use Rattle.wasm_machine.specs.States.{own, passed};
ghost use Rattle.wasm_machine.specs.Configurations.{image as image_of, configuration};
ghost use Rattle.wasm_machine.specs.Acts.{Ready, Acts};
ghost use Rattle.wasm_machine.specs.code.Simulation.{Simulates};
ghost use Rattle.wasm_machine.specs.Stores.{TablesSmall};
ghost use Rattle.wasm_machine.specs.Values.{reference, word_at};
ghost use Rattle.wasm_image.specs.declared.hosts.Host.{Host as OneHost};

use crate::machine::Machine;
use crate::next::{End, Next, Question};
use crate::ranges::{Reached, indexing};
use crate::values::Reference;
use std::alloc::AllocError;
use wasm_ast::equals::Same;
use wasm_ast::{Cause, Func, FuncType, Module};
use wasm_image::{Host, Image};
use wasm_rules::Algebra;

// A function type of the module.
fn type_at(m: &Module, ty: u32) -> Option<&FuncType>
    ensures { MatchOption result (slice_get m.now.types ty ≡ None) (λ t. slice_get m.now.types ty ≡ Some t.now) }
{
    m.types.as_slice().get(ty as usize)
}

// A function of the module's own.
fn code_at(m: &Module, g: usize) -> Option<&Func>
    ensures { MatchOption result (length m.now.funcs ≤ g) (λ f. slice_get m.now.funcs g ≡ Some f.now) }
{
    m.funcs.as_slice().get(g)
}

// A call of a host function, where k operands lie above its own and j answers were given before. It makes no frame.
fn call_host<A: Algebra>(
    a: &A,
    s: &mut Machine<A::Word>,
    host: Host,
    k: usize,
    j: usize,
) -> Next<A::Word>
    requires ready { Ready A.holds A.Has A.means a.now s.old }
    requires above { k ≤ length (own s.old) }
    requires one { k ≤ 1 }
    ensures { (m : OneModule) → Simulates A.holds A.means m a.now s.old s.new result
        (λ b. calling_host (configuration (A.means a.now) m b (passed s.old)) (drop k (own (image_of (A.means a.now) s.old))) (drop j s.old.answers) (Some host)) }
{
    match host {
        Host::SymbolI32 => {
            s.pass();
            s.discard(k);
            Next::Draws(false)
        }
        Host::SymbolI64 => {
            s.pass();
            s.discard(k);
            Next::Draws(true)
        }
        Host::Assume => assume(a, s, k, j),
        Host::Assert => assert(a, s, k, j),
    }
}

// `assume`.
fn assume<A: Algebra>(a: &A, s: &mut Machine<A::Word>, k: usize, j: usize) -> Next<A::Word>
    requires ready { Ready A.holds A.Has A.means a.now s.old }
    requires above { k ≤ length (own s.old) }
    requires one { k ≤ 1 }
    ensures { (m : OneModule) → Simulates A.holds A.means m a.now s.old s.new result
        (λ b. calling_host (configuration (A.means a.now) m b (passed s.old)) (drop k (own (image_of (A.means a.now) s.old))) (drop j s.old.answers) (Some OneHost.Assume)) }
{
    match s.word(k, false) {
        None => Next::Ends(End::Stuck),
        Some(condition) => match s.answer(j) {
            None => Next::Asks(Question::Assume, condition),
            Some(n) => {
                if n == 0 {
                    return Next::Ends(End::Assumes);
                }
                s.pass();
                s.discard(k + 1);
                Next::Goes
            }
        },
    }
}

// `assert`.
fn assert<A: Algebra>(a: &A, s: &mut Machine<A::Word>, k: usize, j: usize) -> Next<A::Word>
    requires ready { Ready A.holds A.Has A.means a.now s.old }
    requires above { k ≤ length (own s.old) }
    requires one { k ≤ 1 }
    ensures { (m : OneModule) → Simulates A.holds A.means m a.now s.old s.new result
        (λ b. calling_host (configuration (A.means a.now) m b (passed s.old)) (drop k (own (image_of (A.means a.now) s.old))) (drop j s.old.answers) (Some OneHost.Assert)) }
{
    match s.word(k, false) {
        None => Next::Ends(End::Stuck),
        Some(condition) => match s.answer(j) {
            None => Next::Asks(Question::Test, condition),
            Some(n) => {
                if n == 0 {
                    return Next::Ends(End::Fails);
                }
                s.pass();
                s.discard(k + 1);
                Next::Goes
            }
        },
    }
}

// A call of a function of the module's own, where k operands lie above its arguments. It makes a frame.
fn call_code<A: Algebra>(
    a: &mut A,
    s: &mut Machine<A::Word>,
    m: &Module,
    g: u32,
    f: &Func,
    k: usize,
) -> Result<Next<A::Word>, AllocError>
    requires ready { Ready A.holds A.Has A.means a.old s.old }
    requires above { k ≤ length (own s.old) }
    requires one { k ≤ 1 }
    requires code { slice_get m.now.funcs g ≡ Some f.now }
    ensures kept { Kept A.holds A.means a.old a.new }
    ensures tells { IfOk result (λ x. (ns : List ℕ) → Simulates A.holds A.means m.now a.new s.old s.new x
        (λ b. calling_of A.kind m.now (configuration (A.means a.old) m.now b (passed s.old)) (drop k (own (image_of (A.means a.old) s.old))) ns (defined_as f.now) (Code f.now))) }
{
    match type_at(m, f.ty) {
        None => Ok(Next::Ends(End::Stuck)),
        Some(t) => {
            let params = t.params.len();
            let results = t.results.len();
            if s.own_count().saturating_sub(k) < params {
                return Ok(Next::Ends(End::Stuck));
            }
            let zero = a.constant(0);
            s.pass();
            s.discard(k);
            s.invoke(g, f, params, results, zero)?;
            Ok(Next::Goes)
        }
    }
}

// A call of the function x, where k operands lie above its arguments and j answers were given before.
fn call_function<A: Algebra>(
    a: &mut A,
    s: &mut Machine<A::Word>,
    image: &Image,
    x: u32,
    k: usize,
    j: usize,
) -> Result<Next<A::Word>, AllocError>
    requires ready { Ready A.holds A.Has A.means a.old s.old }
    requires above { k ≤ length (own s.old) }
    requires one { k ≤ 1 }
    requires linked { AreLinked image.now }
    ensures kept { Kept A.holds A.means a.old a.new }
    ensures tells { IfOk result (λ r. Simulates A.holds A.means image.now a.new s.old s.new r
        (λ b. call_of A.kind image.now (configuration (A.means a.old) image.now b (passed s.old)) (drop k (own (image_of (A.means a.old) s.old))) (drop j s.old.answers) x)) }
{
    match image.host(x) {
        Some(host) => Ok(call_host(a, s, host, k, j)),
        None => {
            let imported = image.imported_count();
            let at = x as usize;
            if at < imported {
                return Ok(Next::Ends(End::Stuck));
            }
            let g = at - imported;
            let m = image.module();
            match code_at(m, g) {
                None => Ok(Next::Ends(End::Stuck)),
                Some(f) => {
                    let next = call_code(a, s, m, g as u32, f, k)?;
                    Ok(next)
                }
            }
        }
    }
}

/// `call`.
pub fn call<A: Algebra>(
    a: &mut A,
    s: &mut Machine<A::Word>,
    image: &Image,
    x: u32,
) -> Result<Next<A::Word>, AllocError>
    requires ready { Ready A.holds A.Has A.means a.old s.old }
    requires linked { AreLinked image.now }
    ensures kept { Kept A.holds A.means a.old a.new }
    ensures acts { IfOk result (λ r. Acts A.holds A.means A.kind image.now (Instr.Call x) a.old s.old a.new s.new r) }
{
    let next = call_function(a, s, image, x, 0, 0)?;
    Ok(next)
}

// Whether two function types are the same.
fn is_same_type(s: &FuncType, t: &FuncType) -> bool
    ensures { result ≡ same_function_type s.now t.now }
{
    s.same(t)
}

/// `call_indirect`.
pub fn call_indirect<A: Algebra>(
    a: &mut A,
    s: &mut Machine<A::Word>,
    image: &Image,
    ty: u32,
    table: u32,
) -> Result<Next<A::Word>, AllocError>
    requires ready { Ready A.holds A.Has A.means a.old s.old }
    requires linked { AreLinked image.now }
    requires small { TablesSmall s.old }
    ensures kept { Kept A.holds A.means a.old a.new }
    ensures acts { IfOk result (λ r. Acts A.holds A.means A.kind image.now (Instr.CallIndirect ty table) a.old s.old a.new s.new r) }
{
    match type_at(image.module(), ty) {
        None => Ok(Next::Ends(End::Stuck)),
        Some(t) => match s.table_length(table) {
            None => Ok(Next::Ends(End::Stuck)),
            Some(size) => match s.word(0, false) {
                None => Ok(Next::Ends(End::Stuck)),
                Some(index) => {
                    let next = call_element(a, s, image, ty, t, table, size, index)?;
                    Ok(next)
                }
            },
        },
    }
}

// A call of the element at an index, of a table of so many elements.
fn call_element<A: Algebra>(
    a: &mut A,
    s: &mut Machine<A::Word>,
    image: &Image,
    ty: u32,
    t: &FuncType,
    table: u32,
    size: u64,
    index: A::Word,
) -> Result<Next<A::Word>, AllocError>
    requires ready { Ready A.holds A.Has A.means a.old s.old }
    requires linked { AreLinked image.now }
    requires small { TablesSmall s.old }
    requires typed { slice_get image.now.types ty ≡ Some t.now }
    requires table { Some size ≡ option_map length (slice_get s.old.tables table) }
    requires index { Some index ≡ word_at false (own s.old) 0 }
    ensures kept { Kept A.holds A.means a.old a.new }
    ensures acts { IfOk result (λ r. Acts A.holds A.means A.kind image.now (Instr.CallIndirect ty table) a.old s.old a.new s.new r) }
{
    let reached = indexing(a, s.given(), index, size)?;
    match reached {
        Reached::Ask(q, w) => Ok(Next::Asks(q, w)),
        Reached::OutOfBounds => Ok(Next::Ends(End::Traps(Cause::Undefined))),
        Reached::At(i) => match s.element(table, i as usize) {
            None => Ok(Next::Ends(End::Traps(Cause::Undefined))),
            Some(r) => {
                let next = call_reference(a, s, image, t, r)?;
                Ok(next)
            }
        },
    }
}

// A call of what a reference is to, where that has the type t. Its index lies above its arguments, and two answers were
// given before.
fn call_reference<A: Algebra>(
    a: &mut A,
    s: &mut Machine<A::Word>,
    image: &Image,
    t: &FuncType,
    r: Reference,
) -> Result<Next<A::Word>, AllocError>
    requires ready { Ready A.holds A.Has A.means a.old s.old }
    requires above { 1 ≤ length (own s.old) }
    requires linked { AreLinked image.now }
    ensures kept { Kept A.holds A.means a.old a.new }
    ensures tells { IfOk result (λ x. Simulates A.holds A.means image.now a.new s.old s.new x
        (λ b. calling_reference A.kind image.now (configuration (A.means a.old) image.now b (passed s.old)) (drop 1 (own (image_of (A.means a.old) s.old))) (drop 2 s.old.answers) t.now (reference r))) }
{
    match r {
        Reference::Extern => Ok(Next::Ends(End::Stuck)),
        Reference::Func(function) => match function {
            None => Ok(Next::Ends(End::Traps(Cause::Uninitialized))),
            Some(f) => {
                let next = call_of_type(a, s, image, t, f)?;
                Ok(next)
            }
        },
    }
}

// A call of the function f, where it has the type t. Its index lies above its arguments, and two answers were given before.
fn call_of_type<A: Algebra>(
    a: &mut A,
    s: &mut Machine<A::Word>,
    image: &Image,
    t: &FuncType,
    f: u32,
) -> Result<Next<A::Word>, AllocError>
    requires ready { Ready A.holds A.Has A.means a.old s.old }
    requires above { 1 ≤ length (own s.old) }
    requires linked { AreLinked image.now }
    ensures kept { Kept A.holds A.means a.old a.new }
    ensures tells { IfOk result (λ r. Simulates A.holds A.means image.now a.new s.old s.new r
        (λ b. calling_reference A.kind image.now (configuration (A.means a.old) image.now b (passed s.old)) (drop 1 (own (image_of (A.means a.old) s.old))) (drop 2 s.old.answers) t.now (FuncRef (Some f)))) }
{
    if f as usize >= image.function_count() {
        return Ok(Next::Ends(End::Stuck));
    }
    if !is_same_type(image.function_type(f), t) {
        return Ok(Next::Ends(End::Traps(Cause::Mismatch)));
    }
    let next = call_function(a, s, image, f, 1, 2)?;
    Ok(next)
}
