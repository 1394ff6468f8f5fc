// Reading the module of a source.
ghost use Rattle.std.specs.Prelude.{◌≡◌, ◌↔◌, ◌++◌, IsTrue, IfOk, IfErr, IsSomeAnd, codes, decimal};
ghost use Rattle.wasm_ast.specs.Shape.{HasShape};
ghost use Rattle.wasm_binary.specs.Modules.{IsBinary};
ghost use Rattle.wasm_ast.specs.declared.modules.Module.{Module as OneModule};
ghost use Rattle.wasm_read.specs.Refusals.{fault_of};
ghost use Rattle.wasm_read.specs.Stripped.{stripped};
ghost use Rattle.owi_cmd.specs.Report.{line};
ghost use Rattle.owi_cmd.specs.Faults.{fault_status, fault_text};
ghost use Rattle.owi_cmd.specs.Sources.{IsText as HasText, AnswersShort, IsOfSource};
ghost use Rattle.owi_cmd.specs.declared.words.Command.{Command as OneCommand};

use crate::status::Status;
use crate::written::Written;
use std::alloc::{AllocError, Global};
use wasm_ast::Module;
use wasm_read::{ReadBad, read_module, read_stripped};

/// The module that the source spells, or what every command answers where it spells none, or isn't read yet.
pub fn read_source(alloc: Global, source: &[u8]) -> Result<Result<Module, Written>, AllocError>
    ensures spelled { IfOk result (λ read. IfOk read (λ m. IsBinary m source.now)) }
    ensures shape { IfOk result (λ read. IfOk read HasShape) }
    ensures refused { IfOk result (λ read. IfErr read (λ w. (command : OneCommand) → AnswersShort command source.now w.status w.bytes.items)) }
    ensures drained { IfOk result (λ read. IfErr read (λ w. IsOfSource w.status)) }
{
    if is_text(source) {
        return Ok(Err(not_yet(alloc)?));
    }
    match read_module(alloc, source) {
        Ok(m) => Ok(Ok(m)),
        Err(bad) => Ok(Err(refused(alloc, bad)?)),
    }
}

/// The module that the source spells, without its custom sections, or what every command answers where it spells none, or
/// isn't read yet.
pub fn read_stripped_source(
    alloc: Global,
    source: &[u8],
) -> Result<Result<Module, Written>, AllocError>
    ensures spelled { IfOk result (λ read. IfOk read (λ m. (whole : OneModule) × IsBinary whole source.now × (m ≡ stripped whole))) }
    ensures shape { IfOk result (λ read. IfOk read HasShape) }
    ensures refused { IfOk result (λ read. IfErr read (λ w. (command : OneCommand) → AnswersShort command source.now w.status w.bytes.items)) }
    ensures drained { IfOk result (λ read. IfErr read (λ w. IsOfSource w.status)) }
{
    if is_text(source) {
        return Ok(Err(not_yet(alloc)?));
    }
    match read_stripped(alloc, source) {
        Ok(m) => Ok(Ok(m)),
        Err(bad) => Ok(Err(refused(alloc, bad)?)),
    }
}

/// The answer to a source that can't be carried out yet.
pub fn not_yet(alloc: Global) -> Result<Written, AllocError>
    ensures status { IfOk result (λ w. w.status ≡ Status.NotYet) }
    ensures bytes { IfOk result (λ w. w.bytes.items ≡ line (codes "not yet")) }
{
    let bytes = Vec::from_slice(alloc, b"not yet\n")?;
    Ok(Written {
        status: Status::NotYet,
        bytes,
    })
}

fn is_text(source: &[u8]) -> bool
    ensures { IsTrue result ↔ HasText source.now }
{
    !matches!(source, [0, ..])
}

// What is said of this trouble.
fn refused(alloc: Global, bad: ReadBad) -> Result<Written, AllocError>
    ensures { IfOk result (λ w. IsSomeAnd (fault_of bad)
        (λ fault. (w.status ≡ fault_status fault) × (w.bytes.items ≡ line (fault_text fault)))) }
{
    match bad {
        ReadBad::Cut { at } => malformed(alloc, "malformed cut at ", at),
        ReadBad::Magic { at } => malformed(alloc, "malformed magic at ", at),
        ReadBad::Leb { at } => malformed(alloc, "malformed leb at ", at),
        ReadBad::Byte { at } => malformed(alloc, "malformed byte at ", at),
        ReadBad::Utf8 { at } => malformed(alloc, "malformed utf8 at ", at),
        ReadBad::Order { at } => malformed(alloc, "malformed order at ", at),
        ReadBad::Size { at } => malformed(alloc, "malformed size at ", at),
        ReadBad::Count { at, .. } => malformed(alloc, "malformed count at ", at),
        ReadBad::DataCount { at } => malformed(alloc, "malformed datacount at ", at),
        ReadBad::Outside { at } => placed(alloc, Status::Outside, "outside at ", at),
        ReadBad::Locals { at, .. } => placed(alloc, Status::Limit, "limit locals at ", at),
        ReadBad::NoMemory => Err(AllocError),
    }
}

fn malformed(alloc: Global, text: &str, at: u64) -> Result<Written, AllocError>
    ensures { IfOk result (λ w. (w.status ≡ Status.Malformed) × (w.bytes.items ≡ line (text.now ++ decimal at))) }
{
    placed(alloc, Status::Malformed, text, at)
}

// A line of a text and a place.
fn placed(alloc: Global, status: Status, text: &str, at: u64) -> Result<Written, AllocError>
    ensures { IfOk result (λ w. (w.status ≡ status) × (w.bytes.items ≡ line (text.now ++ decimal at))) }
{
    let mut line = String::from_str(alloc, text)?;
    writeln!(line, "{at}")?;
    Ok(Written {
        status,
        bytes: line.into_bytes(),
    })
}
