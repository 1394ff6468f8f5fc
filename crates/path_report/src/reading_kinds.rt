// Reading how a path ends.
ghost use Rattle.std.specs.Prelude.{◌≡◌, List as Items, All, IfOk, IfSome, Some, map};
ghost use Rattle.wasm_ast.specs.declared.runs.Value.{Value as OneValue};
ghost use Rattle.fork_tree.specs.declared.rows.Kind.{Kind as OneKind};
ghost use Rattle.fork_tree.specs.declared.rows.Kind.TheVariants.{Returns};
ghost use Rattle.path_report.specs.Report.{kind_text, value_text};
ghost use Rattle.path_report.specs.Reading.{Fits, IsOutcome};
ghost use Rattle.path_report.specs.code.Words.{IsPlainOutcome, list_words, kind_words};

use crate::reading_values::values_of;
use crate::values::put_list;
use fork_tree::Kind;
use std::alloc::{AllocError, Global};
use wasm_ast::Cause;

/// The outcome that has these words, if there is one; else an outcome or none.
pub fn kind_of(alloc: Global, words: &[&str]) -> Result<Option<Kind>, AllocError>
    ensures fits { IfOk result (λ read. IfSome read (λ kind. IsOutcome kind)) }
    ensures only { IfOk result (λ read. (kind : OneKind) → IsOutcome kind → map (λ w. w.now) words.now ≡ kind_words kind → read ≡ Some kind) }
{
    match words {
        [first, rest @ ..] => {
            if *first == "returns" {
                return returning(alloc, rest);
            }
            let mut text = String::new(alloc);
            put_list(&mut text, words)?;
            Ok(plain_kind(text.as_str()))
        }
        [] => Ok(None),
    }
}

// The outcome of these results.
fn returning(alloc: Global, words: &[&str]) -> Result<Option<Kind>, AllocError>
    ensures fits { IfOk result (λ read. IfSome read (λ kind. IsOutcome kind)) }
    ensures only { IfOk result (λ read. (values : Items OneValue) → All Fits values → map (λ w. w.now) words.now ≡ list_words (map value_text values) → read ≡ Some (Returns values)) }
{
    match values_of(alloc, words)? {
        Some(values) => Ok(Some(Kind::Returns(values))),
        None => Ok(None),
    }
}

// The outcome without results that has this text.
fn plain_kind(text: &str) -> Option<Kind>
    ensures fits { IfSome result (λ kind. IsOutcome kind) }
    ensures only { (kind : OneKind) → IsPlainOutcome kind → text.now ≡ kind_text kind → result ≡ Some kind }
{
    match text {
        "traps unreachable" => Some(Kind::Traps(Cause::Unreachable)),
        "traps integer divide by zero" => Some(Kind::Traps(Cause::DivZero)),
        "traps integer overflow" => Some(Kind::Traps(Cause::Overflow)),
        "traps out of bounds memory access" => Some(Kind::Traps(Cause::Memory)),
        "traps out of bounds table access" => Some(Kind::Traps(Cause::Table)),
        "traps undefined element" => Some(Kind::Traps(Cause::Undefined)),
        "traps uninitialized element" => Some(Kind::Traps(Cause::Uninitialized)),
        "traps indirect call type mismatch" => Some(Kind::Traps(Cause::Mismatch)),
        "fails" => Some(Kind::Fails),
        "bound" => Some(Kind::Bound),
        "deep" => Some(Kind::Deep),
        _ => None,
    }
}
