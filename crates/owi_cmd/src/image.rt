// From the module of a source to what can be run.
ghost use Rattle.std.specs.Prelude.{◌≡◌, ◌≢◌, ◌++◌, ◌<◌, IfOk, IfErr, IfSome, IfNone, length, codes, decimal};
ghost use Rattle.wasm_ast.specs.Shape.{HasShape};
ghost use Rattle.wasm_binary.specs.Modules.{IsBinary};
ghost use Rattle.wasm_image.specs.Ready.{IsReady};
ghost use Rattle.owi_cmd.specs.Report.{line, name_text};
ghost use Rattle.owi_cmd.specs.Faults.{why_text, large_text};
ghost use Rattle.owi_cmd.specs.Sources.{AsksValidity, AsksToRun, SpellsValid, SpellsReady, AnswersShort, IsOfSource};
ghost use Rattle.owi_cmd.specs.declared.words.Command.{Command as OneCommand};

use crate::report::put_name;
use crate::source::read_source;
use crate::status::Status;
use crate::written::Written;
use std::alloc::{AllocError, Global};
use wasm_ast::{Import, Module};
use wasm_check::{Checked, Why, check};
use wasm_image::{Image, Large, too_large, unlinked};

/// The valid module that the source spells, or what every command answers that asks for one.
pub fn read_valid(alloc: Global, source: &[u8]) -> Result<Result<Checked, Written>, AllocError>
    ensures valid { IfOk result (λ read. IfOk read (λ m. SpellsValid source.now m)) }
    ensures refused { IfOk result (λ read. IfErr read (λ w. (command : OneCommand) → AsksValidity command
        → AnswersShort command source.now w.status w.bytes.items)) }
    ensures drained { IfOk result (λ read. IfErr read (λ w. IsOfSource w.status)) }
{
    match read_source(alloc, source)? {
        Ok(m) => judged(alloc, source, m),
        Err(refusal) => Ok(Err(refusal)),
    }
}

// The module of the source, where it is valid.
fn judged(alloc: Global, source: &[u8], m: Module) -> Result<Result<Checked, Written>, AllocError>
    requires spelled { IsBinary m source.now }
    requires shape { HasShape m }
    ensures valid { IfOk result (λ read. IfOk read (λ m. SpellsValid source.now m)) }
    ensures refused { IfOk result (λ read. IfErr read (λ w. (command : OneCommand) → AsksValidity command
        → AnswersShort command source.now w.status w.bytes.items)) }
    ensures drained { IfOk result (λ read. IfErr read (λ w. IsOfSource w.status)) }
{
    match check(alloc, m) {
        Ok(checked) => Ok(Ok(checked)),
        Err(unchecked) => Ok(Err(invalid(alloc, unchecked.why)?)),
    }
}

/// The image of the module that the source spells, where it can be run, or what every command answers that runs one.
pub fn read_image(alloc: Global, source: &[u8]) -> Result<Result<Image, Written>, AllocError>
    ensures ready { IfOk result (λ read. IfOk read (λ m. SpellsReady source.now m)) }
    ensures refused { IfOk result (λ read. IfErr read (λ w. (command : OneCommand) → AsksToRun command
        → AnswersShort command source.now w.status w.bytes.items)) }
    ensures drained { IfOk result (λ read. IfErr read (λ w. IsOfSource w.status)) }
{
    match read_valid(alloc, source)? {
        Ok(checked) => {
            let image = Image::new(alloc, checked)?;
            match not_ready(alloc, source, &image)? {
                None => Ok(Ok(image)),
                Some(refusal) => Ok(Err(refusal)),
            }
        }
        Err(refusal) => Ok(Err(refusal)),
    }
}

// What is said of an image that can't be run.
fn not_ready(alloc: Global, source: &[u8], image: &Image) -> Result<Option<Written>, AllocError>
    requires { SpellsValid source.now image.now }
    ensures ready { IfOk result (λ refusal. IfNone refusal (IsReady image.now)) }
    ensures refused { IfOk result (λ refusal. IfSome refusal (λ w. (command : OneCommand) → AsksToRun command
        → AnswersShort command source.now w.status w.bytes.items)) }
    ensures drained { IfOk result (λ refusal. IfSome refusal (λ w. IsOfSource w.status)) }
{
    if let Some(number) = unlinked(image) {
        let import = image.module().imports.get(number as usize);
        return Ok(Some(unlinked_import(alloc, import)?));
    }
    if let Some(large) = too_large(image) {
        return Ok(Some(oversized(alloc, large)?));
    }
    Ok(None)
}

/// What is said of a fault.
pub fn invalid(alloc: Global, why: Why) -> Result<Written, AllocError>
    ensures known { IfOk result (λ _. why ≢ Why.NoMemory) }
    ensures status { IfOk result (λ w. w.status ≡ Status.Invalid) }
    ensures bytes { IfOk result (λ w. w.bytes.items ≡ line (why_text why)) }
{
    let bytes = match why {
        Why::Field { section, entry } => field_line(alloc, section, entry)?,
        Why::Code { function, place } => code_line(alloc, function, place)?,
        Why::NoMemory => return Err(AllocError),
    };
    Ok(Written {
        status: Status::Invalid,
        bytes,
    })
}

fn field_line(alloc: Global, section: u8, entry: u32) -> Result<Vec<u8>, AllocError>
    ensures { IfOk result (λ bytes. bytes.items ≡ line (why_text (Why.Field section entry))) }
{
    let mut line = String::new(alloc);
    writeln!(line, "invalid section {section} entry {entry}")?;
    Ok(line.into_bytes())
}

fn code_line(alloc: Global, function: u64, place: u64) -> Result<Vec<u8>, AllocError>
    ensures { IfOk result (λ bytes. bytes.items ≡ line (why_text (Why.Code function place))) }
{
    let mut line = String::new(alloc);
    writeln!(line, "invalid function {function} at {place}")?;
    Ok(line.into_bytes())
}

// What is said of an import that is no host function.
fn unlinked_import(alloc: Global, import: &Import) -> Result<Written, AllocError>
    ensures status { IfOk result (λ w. w.status ≡ Status.Unlinked) }
    ensures bytes { IfOk result (λ w. w.bytes.items
        ≡ line (codes "unlinked " ++ name_text import.now.module ++ codes " " ++ name_text import.now.name)) }
{
    let mut line = String::from_str(alloc, "unlinked ")?;
    put_name(&mut line, &import.module)?;
    line.push(' ')?;
    put_name(&mut line, &import.name)?;
    line.push('\n')?;
    Ok(Written {
        status: Status::Unlinked,
        bytes: line.into_bytes(),
    })
}

// What is said of a size that is too large.
fn oversized(alloc: Global, large: Large) -> Result<Written, AllocError>
    ensures status { IfOk result (λ w. w.status ≡ Status.Limit) }
    ensures bytes { IfOk result (λ w. w.bytes.items ≡ line (large_text large)) }
{
    let bytes = match large {
        Large::Memory(pages) => size_line(alloc, "limit memory ", pages as u64)?,
        Large::Tables(count) => size_line(alloc, "limit tables ", count)?,
        Large::Table(elements) => size_line(alloc, "limit table ", elements as u64)?,
    };
    Ok(Written {
        status: Status::Limit,
        bytes,
    })
}

fn size_line(alloc: Global, text: &str, size: u64) -> Result<Vec<u8>, AllocError>
    ensures { IfOk result (λ bytes. bytes.items ≡ line (text.now ++ decimal size)) }
{
    let mut line = String::from_str(alloc, text)?;
    writeln!(line, "{size}")?;
    Ok(line.into_bytes())
}
