// The function that a command names.
ghost use Rattle.std.specs.Prelude.{◌≡◌, IfOk, IfErr, codes, ◌++◌};
ghost use Rattle.wasm_image.specs.Entries.{IsEntry};
ghost use Rattle.owi_cmd.specs.Report.{line, name_text};
ghost use Rattle.owi_cmd.specs.Sources.{SpellsReady, AnswersShort, IsOfSource};
ghost use Rattle.owi_cmd.specs.declared.report.Bounds.{Bounds as OneBounds};
ghost use Rattle.owi_cmd.specs.declared.words.Command.TheVariants.{Explore, Run};
ghost use Rattle.owi_cmd.specs.declared.words.RunOptions.{RunOptions as OneRunOptions};

use crate::image::read_image;
use crate::report::put_name;
use crate::status::Status;
use crate::written::Written;
use std::alloc::{AllocError, Global};
use wasm_ast::{Text, Value};
use wasm_image::{Image, entry_of};

/// A module that can be run, and a function of it by its index, imports counted.
#[derive(Drop)]
pub struct Entry {
    pub image: Image,
    pub function: u32,
}

/// The function that the module of the source exports by this name, where it takes these arguments; or what the commands that
/// run it answer.
pub fn read_entry(
    alloc: Global,
    name: &Text,
    args: &[Value],
    source: &[u8],
) -> Result<Result<Entry, Written>, AllocError>
    ensures ready { IfOk result (λ read. IfOk read (λ e. SpellsReady source.now e.image)) }
    ensures entry { IfOk result (λ read. IfOk read (λ e. IsEntry e.image name.now args.now e.function)) }
    ensures explored { IfOk result (λ read. IfErr read (λ w. (bounds : OneBounds)
        → AnswersShort (Explore name.now args.now bounds) source.now w.status w.bytes.items)) }
    ensures run { IfOk result (λ read. IfErr read (λ w. (options : OneRunOptions)
        → AnswersShort (Run name.now args.now options) source.now w.status w.bytes.items)) }
    ensures drained { IfOk result (λ read. IfErr read (λ w. IsOfSource w.status)) }
{
    match read_image(alloc, source)? {
        Ok(image) => entered(alloc, name, args, source, image),
        Err(refusal) => Ok(Err(refusal)),
    }
}

// The same of a module that can be run.
fn entered(
    alloc: Global,
    name: &Text,
    args: &[Value],
    source: &[u8],
    image: Image,
) -> Result<Result<Entry, Written>, AllocError>
    requires { SpellsReady source.now image }
    ensures ready { IfOk result (λ read. IfOk read (λ e. SpellsReady source.now e.image)) }
    ensures entry { IfOk result (λ read. IfOk read (λ e. IsEntry e.image name.now args.now e.function)) }
    ensures explored { IfOk result (λ read. IfErr read (λ w. (bounds : OneBounds)
        → AnswersShort (Explore name.now args.now bounds) source.now w.status w.bytes.items)) }
    ensures run { IfOk result (λ read. IfErr read (λ w. (options : OneRunOptions)
        → AnswersShort (Run name.now args.now options) source.now w.status w.bytes.items)) }
    ensures drained { IfOk result (λ read. IfErr read (λ w. IsOfSource w.status)) }
{
    match entry_of(&image, name.as_slice(), args) {
        Ok(function) => Ok(Ok(Entry { image, function })),
        Err(_) => {
            let bytes = entry_line(alloc, name)?;
            Ok(Err(Written {
                status: Status::Entry,
                bytes,
            }))
        }
    }
}

fn entry_line(alloc: Global, name: &Text) -> Result<Vec<u8>, AllocError>
    ensures { IfOk result (λ bytes. bytes.items ≡ line (codes "entry " ++ name_text name.now)) }
{
    let mut line = String::from_str(alloc, "entry ")?;
    put_name(&mut line, name)?;
    line.push('\n')?;
    Ok(line.into_bytes())
}
