// The results of a run over terms.
ghost use Rattle.std.specs.Prelude.{◌≡◌, IfOk, map};
ghost use Rattle.sym_step.specs.code.Ends.{given_of};

use bv_terms::Word;
use std::alloc::{AllocError, Global};
use sym_state::Given;
use wasm_machine::values::{Reference, Value};

// A value as a result.
fn result_of(v: Value<Word>) -> Given
    ensures { result ≡ given_of v }
{
    match v {
        Value::I32(w) => Given::I32(w),
        Value::I64(w) => Given::I64(w),
        Value::Ref(Reference::Func(f)) => Given::Func(f),
        Value::Ref(Reference::Extern) => Given::Extern,
    }
}

/// Values as results.
pub fn results_of(alloc: Global, values: &[Value<Word>]) -> Result<Vec<Given>, AllocError>
    ensures { IfOk result (λ results. results.items ≡ map given_of values.now) }
{
    let mut results = Vec::new(alloc);
    for v in values {
        results.push(result_of(*v))?;
    }
    Ok(results)
}
