// Saying whether the module of a source is valid.
ghost use Rattle.std.specs.Prelude.{◌≡◌, IfOk};
ghost use Rattle.wasm_ast.specs.Shape.{HasShape};
ghost use Rattle.wasm_ast.specs.declared.modules.Module.{Module as OneModule};
ghost use Rattle.wasm_binary.specs.Modules.{IsBinary};
ghost use Rattle.wasm_read.specs.Stripped.{stripped};
ghost use Rattle.owi_cmd.specs.Sources.{AnswersShort, IsOfSource};
ghost use Rattle.owi_cmd.specs.declared.words.Command.TheVariants.{Validate};

use crate::image::invalid;
use crate::source::read_stripped_source;
use crate::status::Status;
use crate::written::Written;
use std::alloc::{AllocError, Global};
use wasm_ast::Module;
use wasm_check::check;

/// `valid`, or the first fault of the module of the source. Custom sections have no part in either, and are passed over.
pub fn validate(alloc: Global, source: &[u8]) -> Result<Written, AllocError>
    ensures answered { IfOk result (λ w. AnswersShort Validate source.now w.status w.bytes.items) }
    ensures drained { IfOk result (λ w. IsOfSource w.status) }
{
    match read_stripped_source(alloc, source)? {
        Ok(m) => judge(alloc, source, m),
        Err(refusal) => Ok(refusal),
    }
}

// What is said of the module of the source, which is told without its custom sections.
fn judge(alloc: Global, source: &[u8], m: Module) -> Result<Written, AllocError>
    requires spelled { (whole : OneModule) × IsBinary whole source.now × (m ≡ stripped whole) }
    requires shape { HasShape m }
    ensures answered { IfOk result (λ w. AnswersShort Validate source.now w.status w.bytes.items) }
    ensures drained { IfOk result (λ w. IsOfSource w.status) }
{
    match check(alloc, m) {
        Ok(_checked) => {
            let bytes = Vec::from_slice(alloc, b"valid\n")?;
            Ok(Written {
                status: Status::Done,
                bytes,
            })
        }
        Err(unchecked) => invalid(alloc, unchecked.why),
    }
}
