// Table instructions (Execution, Instructions: Table Instructions).
ghost use Rattle.std.specs.Prelude.{◌≡◌, IfOk, option_map, slice_get};
ghost use Rattle.wasm_ast.specs.declared.modules.Module.{Module as OneModule};
ghost use Rattle.wasm_ast.specs.declared.instructions.Instr.{Instr};
ghost use Rattle.wasm_rules.specs.Words.{Kept};
ghost use Rattle.wasm_image.specs.Sizes.{most_elements as most_elements_of};
ghost use Rattle.wasm_reduction.specs.Ranges.{growth_limit as growth_limit_of};
ghost use Rattle.wasm_machine.specs.Acts.{Ready, Acts};
ghost use Rattle.wasm_machine.specs.Stores.{TablesSmall};

use crate::machine::Machine;
use crate::next::{End, Next, Question};
use crate::progress::{Progress, copy_at, fill_at, index_at, reference, word};
use crate::ranges::{Growth, growing, growth_limit};
use crate::values::Value;
use std::alloc::AllocError;
use wasm_ast::{Cause, Module};
use wasm_rules::Algebra;

/// `table.get`
pub fn table_get<A: Algebra>(
    a: &mut A,
    s: &mut Machine<A::Word>,
    x: u32,
) -> Result<Next<A::Word>, AllocError>
    requires ready { Ready A.holds A.Has A.means a.old s.old }
    requires small { TablesSmall s.old }
    ensures kept { Kept A.holds A.means a.old a.new }
    ensures acts { IfOk result (λ n. (m : OneModule) → Acts A.holds A.means A.kind m (Instr.TableGet x) a.old s.old a.new s.new n) }
{
    let Some(size) = s.table_length(x) else {
        return Ok(Next::Ends(End::Stuck));
    };
    match index_at(a, s, 0, size, Cause::Table)? {
        Progress::Stops(n) => Ok(n),
        Progress::At(i) => {
            let Some(r) = s.element(x, i as usize) else {
                return Ok(Next::Ends(End::Traps(Cause::Table)));
            };
            s.pass();
            s.replace(1, Value::Ref(r));
            Ok(Next::Goes)
        }
    }
}

/// `table.set`
pub fn table_set<A: Algebra>(
    a: &mut A,
    s: &mut Machine<A::Word>,
    x: u32,
) -> Result<Next<A::Word>, AllocError>
    requires ready { Ready A.holds A.Has A.means a.old s.old }
    requires small { TablesSmall s.old }
    ensures kept { Kept A.holds A.means a.old a.new }
    ensures acts { IfOk result (λ n. (m : OneModule) → Acts A.holds A.means A.kind m (Instr.TableSet x) a.old s.old a.new s.new n) }
{
    let Some(size) = s.table_length(x) else {
        return Ok(Next::Ends(End::Stuck));
    };
    let Some(r) = reference(a, s, 0) else {
        return Ok(Next::Ends(End::Stuck));
    };
    match index_at(a, s, 1, size, Cause::Table)? {
        Progress::Stops(n) => Ok(n),
        Progress::At(i) => {
            s.pass();
            s.discard(2);
            s.set_element(x, i as usize, r);
            Ok(Next::Goes)
        }
    }
}

/// `table.size`
pub fn table_size<A: Algebra>(
    a: &mut A,
    s: &mut Machine<A::Word>,
    x: u32,
) -> Result<Next<A::Word>, AllocError>
    requires { Ready A.holds A.Has A.means a.old s.old }
    ensures kept { Kept A.holds A.means a.old a.new }
    ensures acts { IfOk result (λ n. (m : OneModule) → Acts A.holds A.means A.kind m (Instr.TableSize x) a.old s.old a.new s.new n) }
{
    let Some(size) = s.table_length(x) else {
        return Ok(Next::Ends(End::Stuck));
    };
    let w = a.constant(size);
    s.pass();
    s.push(Value::I32(w))?;
    Ok(Next::Goes)
}

/// `table.grow`: up to 65,536 elements, and no further than the maximum of the table. Else nothing changes, and the answer is -1.
pub fn table_grow<A: Algebra>(
    a: &mut A,
    s: &mut Machine<A::Word>,
    m: &Module,
    x: u32,
) -> Result<Next<A::Word>, AllocError>
    requires { Ready A.holds A.Has A.means a.old s.old }
    ensures kept { Kept A.holds A.means a.old a.new }
    ensures acts { IfOk result (λ n. Acts A.holds A.means A.kind m.now (Instr.TableGrow x) a.old s.old a.new s.new n) }
{
    let Some(size) = s.table_length(x) else {
        return Ok(Next::Ends(End::Stuck));
    };
    let Some(most) = most_elements(m, x) else {
        return Ok(Next::Ends(End::Stuck));
    };
    let Some(count) = word(a, s, 0, false) else {
        return Ok(Next::Ends(End::Stuck));
    };
    let Some(r) = reference(a, s, 1) else {
        return Ok(Next::Ends(End::Stuck));
    };
    match growing::<A>(&s.answers, count, size, most) {
        Growth::Ask(w) => Ok(Next::Asks(Question::Pick, w)),
        Growth::Refused => {
            let w = a.constant(u64::from(u32::MAX));
            s.pass();
            s.replace(2, Value::I32(w));
            Ok(Next::Goes)
        }
        Growth::By(n) => {
            let w = a.constant(size);
            s.pass();
            s.replace(2, Value::I32(w));
            s.grow_table(x, n as usize, r)?;
            Ok(Next::Goes)
        }
    }
}

/// `table.fill`
pub fn table_fill<A: Algebra>(
    a: &mut A,
    s: &mut Machine<A::Word>,
    x: u32,
) -> Result<Next<A::Word>, AllocError>
    requires { Ready A.holds A.Has A.means a.old s.old }
    ensures kept { Kept A.holds A.means a.old a.new }
    ensures acts { IfOk result (λ n. (m : OneModule) → Acts A.holds A.means A.kind m (Instr.TableFill x) a.old s.old a.new s.new n) }
{
    let Some(size) = s.table_length(x) else {
        return Ok(Next::Ends(End::Stuck));
    };
    let Some(count) = word(a, s, 0, false) else {
        return Ok(Next::Ends(End::Stuck));
    };
    let Some(r) = reference(a, s, 1) else {
        return Ok(Next::Ends(End::Stuck));
    };
    match fill_at(a, s, count, size, Cause::Table)? {
        Progress::Stops(n) => Ok(n),
        Progress::At(range) => {
            s.pass();
            s.discard(3);
            s.fill_table(x, range.to as usize, range.count as usize, r);
            Ok(Next::Goes)
        }
    }
}

/// `table.copy`: from the table y to the table x, which may be the same.
pub fn table_copy<A: Algebra>(
    a: &mut A,
    s: &mut Machine<A::Word>,
    x: u32,
    y: u32,
) -> Result<Next<A::Word>, AllocError>
    requires { Ready A.holds A.Has A.means a.old s.old }
    ensures kept { Kept A.holds A.means a.old a.new }
    ensures acts { IfOk result (λ n. (m : OneModule) → Acts A.holds A.means A.kind m (Instr.TableCopy x y) a.old s.old a.new s.new n) }
{
    let Some(target) = s.table_length(x) else {
        return Ok(Next::Ends(End::Stuck));
    };
    let Some(source) = s.table_length(y) else {
        return Ok(Next::Ends(End::Stuck));
    };
    match copy_at(a, s, target, source, Cause::Table)? {
        Progress::Stops(n) => Ok(n),
        Progress::At(range) => {
            s.pass();
            s.discard(3);
            s.copy_table(
                x,
                y,
                range.to as usize,
                range.from as usize,
                range.count as usize,
            );
            Ok(Next::Goes)
        }
    }
}

/// `table.init`: from the element segment e to the table x.
pub fn table_init<A: Algebra>(
    a: &mut A,
    s: &mut Machine<A::Word>,
    e: u32,
    x: u32,
) -> Result<Next<A::Word>, AllocError>
    requires { Ready A.holds A.Has A.means a.old s.old }
    ensures kept { Kept A.holds A.means a.old a.new }
    ensures acts { IfOk result (λ n. (m : OneModule) → Acts A.holds A.means A.kind m (Instr.TableInit e x) a.old s.old a.new s.new n) }
{
    let Some(target) = s.table_length(x) else {
        return Ok(Next::Ends(End::Stuck));
    };
    let Some(source) = s.elem_length(e) else {
        return Ok(Next::Ends(End::Stuck));
    };
    match copy_at(a, s, target, source, Cause::Table)? {
        Progress::Stops(n) => Ok(n),
        Progress::At(range) => {
            s.pass();
            s.discard(3);
            s.init_table(
                e,
                x,
                range.to as usize,
                range.from as usize,
                range.count as usize,
            );
            Ok(Next::Goes)
        }
    }
}

/// `elem.drop`
pub fn elem_drop<A: Algebra>(a: &A, s: &mut Machine<A::Word>, e: u32) -> Next<A::Word>
    requires { Ready A.holds A.Has A.means a.now s.old }
    ensures { (m : OneModule) → Acts A.holds A.means A.kind m (Instr.ElemDrop e) a.now s.old a.now s.new result }
{
    match s.elem_length(e) {
        None => Next::Ends(End::Stuck),
        Some(_) => {
            s.pass();
            s.drop_elem(e);
            Next::Goes
        }
    }
}

// Up to how many elements a table of the module's own may grow.
fn most_elements(m: &Module, x: u32) -> Option<u64>
    ensures { result ≡ option_map (λ t. growth_limit_of t.limits.max most_elements_of) (slice_get m.now.tables x) }
{
    let table = m.tables.as_slice().get(x as usize)?;
    Some(growth_limit(table.limits.max, 65_536))
}
