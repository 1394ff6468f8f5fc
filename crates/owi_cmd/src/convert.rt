// Writing the module of a source in the binary form.
ghost use Rattle.std.specs.Prelude.{IfOk};
ghost use Rattle.wasm_binary.specs.Modules.{IsBinary};
ghost use Rattle.wasm_ast.specs.Shape.{HasShape};
ghost use Rattle.owi_cmd.specs.Sources.{AnswersShort, IsOfSource};
ghost use Rattle.owi_cmd.specs.declared.words.Command.TheVariants.{ConvertBinary};

use crate::source::read_source;
use crate::status::Status;
use crate::written::Written;
use std::alloc::{AllocError, Global};
use wasm_ast::Module;
use wasm_write::{WriteBad, write_module};

/// The shortest spelling of the module of the source. Validity isn't asked.
pub fn convert_binary(alloc: Global, source: &[u8]) -> Result<Written, AllocError>
    ensures answered { IfOk result (λ w. AnswersShort ConvertBinary source.now w.status w.bytes.items) }
    ensures drained { IfOk result (λ w. IsOfSource w.status) }
{
    match read_source(alloc, source)? {
        Ok(m) => write(alloc, source, &m),
        Err(refusal) => Ok(refusal),
    }
}

// What is written of the module of the source.
fn write(alloc: Global, source: &[u8], m: &Module) -> Result<Written, AllocError>
    requires spelled { IsBinary m.now source.now }
    requires shape { HasShape m.now }
    ensures answered { IfOk result (λ w. AnswersShort ConvertBinary source.now w.status w.bytes.items) }
    ensures drained { IfOk result (λ w. IsOfSource w.status) }
{
    match write_module(alloc, m) {
        Ok(bytes) => Ok(Written {
            status: Status::Done,
            bytes,
        }),
        Err(WriteBad::TooLong(_)) => {
            let bytes = Vec::from_slice(alloc, b"limit output\n")?;
            Ok(Written {
                status: Status::Limit,
                bytes,
            })
        }
        Err(WriteBad::NoMemory) => Err(AllocError),
    }
}
