// What the checker does with a plain instruction.
ghost use Rattle.std.specs.Prelude.{◌≡◌, ◌∷◌, [], IfOk, None, Some};
ghost use Rattle.wasm_ast.specs.declared.instructions.Instr.TheVariants.{RefIsNull, Discard, Select};
ghost use Rattle.wasm_check.specs.Operands.{operands};
ghost use Rattle.wasm_check.specs.Contexts.{Context};
ghost use Rattle.type_suffixes.specs.Lists.{listed};
ghost use Rattle.wasm_check.specs.code.Runs.{known};
ghost use Rattle.wasm_check.specs.code.Checker.{Answers, bind, common as common_of, numeric as numeric_of, joined as joined_type, reference as reference_of, dead_end, popped, onto, applies as applies_of, acts as acts_of};

use crate::operands::Operand;
use crate::scope::Scope;
use crate::stack::Stack;
use std::alloc::AllocError;
use type_suffixes::Listed;
use wasm_ast::ValType;

fn is_reference(t: Operand) -> bool
    ensures { result ≡ reference_of t }
{
    !matches!(t, Operand::Of(ValType::I32) | Operand::Of(ValType::I64))
}

fn is_numeric(t: Operand) -> bool
    ensures { result ≡ numeric_of t }
{
    !matches!(
        t,
        Operand::Of(ValType::FuncRef) | Operand::Of(ValType::ExternRef)
    )
}

// The type that both match and that tells most of them.
fn common(t: Operand, u: Operand) -> Option<Operand>
    ensures { result ≡ common_of t u }
{
    match t {
        Operand::Bottom => Some(u),
        Operand::Of(kind) => match u {
            Operand::Bottom => Some(Operand::Of(kind)),
            Operand::Of(other) => {
                if kind == other {
                    Some(Operand::Of(kind))
                } else {
                    None
                }
            }
        },
    }
}

// The type of what `select` gives of two operands.
fn joined(t: Operand, u: Operand) -> Option<Operand>
    ensures { result ≡ joined_type t u }
{
    let both = common(t, u)?;
    if is_numeric(both) { Some(both) } else { None }
}

/// An instruction of the type `[params] → [results]`. The answer is whether it is typed; if it isn't, the stack may have
/// lost operands.
pub fn applies(
    scope: &Scope,
    s: &mut Stack,
    params: &[ValType],
    results: &[ValType],
) -> Result<bool, AllocError>
    ensures { IfOk result (λ b. Answers b (applies_of params.now results.now (known scope.now.types s.old)) (known scope.now.types s.new)) }
{
    if !s.take_all(scope, params) {
        return Ok(false);
    }
    s.put_all(scope, results)?;
    Ok(true)
}

/// An instruction whose params and results are lists of the module.
pub fn applies_lists(
    scope: &Scope,
    s: &mut Stack,
    params: Listed,
    results: Listed,
) -> Result<bool, AllocError>
    ensures { IfOk result (λ b. Answers b (applies_of (listed scope.now.types params) (listed scope.now.types results) (known scope.now.types s.old)) (known scope.now.types s.new)) }
{
    if !s.take_list(scope, params) {
        return Ok(false);
    }
    s.put_list(scope, results)?;
    Ok(true)
}

/// `ref.is_null`
pub fn ref_is_null(scope: &Scope, s: &mut Stack) -> Result<bool, AllocError>
    ensures { IfOk result (λ b. (C : Context) → Answers b (acts_of C [] RefIsNull (known scope.now.types s.old)) (known scope.now.types s.new)) }
{
    let Some(t) = s.pop(scope) else {
        return Ok(false);
    };
    if !is_reference(t) {
        return Ok(false);
    }
    s.push(scope, Operand::Of(ValType::I32))?;
    Ok(true)
}

/// `drop`
pub fn discard(scope: &Scope, s: &mut Stack) -> bool
    ensures { (C : Context) → Answers result (acts_of C [] Discard (known scope.now.types s.old)) (known scope.now.types s.new) }
{
    s.pop(scope).is_some()
}

/// `select` without types
pub fn select(scope: &Scope, s: &mut Stack) -> Result<bool, AllocError>
    ensures { IfOk result (λ b. (C : Context) → Answers b (acts_of C [] Select (known scope.now.types s.old)) (known scope.now.types s.new)) }
{
    if !s.take(scope, ValType::I32) {
        return Ok(false);
    }
    let Some(t) = s.pop(scope) else {
        return Ok(false);
    };
    let Some(u) = s.pop(scope) else {
        return Ok(false);
    };
    let Some(both) = joined(t, u) else {
        return Ok(false);
    };
    s.push(scope, both)?;
    Ok(true)
}

/// An unconditional branch that carries these operands.
pub fn leaves(scope: &Scope, s: &mut Stack, carried: Listed) -> bool
    ensures { Answers result (bind (popped (operands (listed scope.now.types carried)) (known scope.now.types s.old)) (λ gone. Some dead_end)) (known scope.now.types s.new) }
{
    if !s.take_list(scope, carried) {
        return false;
    }
    s.kill(scope);
    true
}

/// `br_if` to a label whose branches carry these operands.
pub fn may_leave(scope: &Scope, s: &mut Stack, carried: Listed) -> Result<bool, AllocError>
    ensures { IfOk result (λ b. Answers b (bind (popped (Operand.Of ValType.I32 ∷ operands (listed scope.now.types carried)) (known scope.now.types s.old)) (λ left. Some (onto (operands (listed scope.now.types carried)) left))) (known scope.now.types s.new)) }
{
    if !s.take(scope, ValType::I32) {
        return Ok(false);
    }
    if !s.take_list(scope, carried) {
        return Ok(false);
    }
    s.put_list(scope, carried)?;
    Ok(true)
}
