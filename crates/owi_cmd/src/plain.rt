// The top call.
ghost use Rattle.std.specs.Prelude.{◌≡◌, ◌≢◌, ◌+◌, [], List, ℕ, OnSome, IfSome, Some, MatchResult, IfOk, IfErr, ◌<◌, ◌≤◌, length, map, take};
ghost use Rattle.std.specs.Io.KnownBytes.{Appends};
ghost use Rattle.owi_base.specs.Outside.{GaveAtMost, Rose};
ghost use Rattle.owi_cmd.specs.Words.{Spells, IsSpelled};
ghost use Rattle.owi_cmd.specs.Answer.{Answers, HasReadAll, fixed_line};
ghost use Rattle.owi_cmd.specs.Sources.{AnswersShort, AnswersSource, IsOfSource, most_bytes};
ghost use Rattle.owi_cmd.specs.declared.words.Command.{Command as OneCommand};
ghost use Rattle.owi_cmd.specs.declared.status.Status.{Status as OneStatus};

use crate::convert::convert_binary;
use crate::explore::explore;
use crate::run::run_once;
use crate::status::Status;
use crate::validate::validate;
use crate::words::{Command, read_words};
use crate::written::Written;
use owi_base::{ReadAll, Sink, Source, read_all, write_all};
use std::alloc::{AllocError, Global};

const MOST_BYTES: u64 = 16_777_216;

/// Carries out the command that the words spell, on the bytes of the source, and writes its answer to the sink.
///
/// The refusals come in this order: `Usage`, `ReadFault`, `Limit` of the length, `NotYet` of a text, `Malformed`, `Outside` or
/// `Limit` by the first trouble of the bytes, `Invalid`, `Unlinked`, `Limit` of a size,
/// `Entry`, `NotYet` of a module with an import that is to be explored, `Limit` of the output. All output is made before the
/// first write, so `NoMemory` never follows a write.
pub fn owi_plain<S: Source, K: Sink>(
    alloc: Global,
    words: &[&str],
    source: &mut S,
    out: &mut K,
) -> Status
    // Every status but that of a failed write is an answer, and its bytes are written.
    ensures answered { result ≢ Status.WriteFault → ((bytes : List ℕ)
        × Answers (map (λ w. w.now) words.now) (S.left source.old) (Rose (S.faults source.old) (S.faults source.new)) result bytes
        × Appends (K.written out.old) (K.written out.new) bytes) }

    // A write fails only where the sink failed. The first bytes of an answer are written then, and no others.
    ensures write_fault { result ≡ Status.WriteFault → Rose (K.faults out.old) (K.faults out.new) }
    ensures front { result ≡ Status.WriteFault → ((status : OneStatus) × (bytes : List ℕ) × (count : ℕ)
        × Answers (map (λ w. w.now) words.now) (S.left source.old) (Rose (S.faults source.old) (S.faults source.new)) status bytes
        × Appends (K.written out.old) (K.written out.new) (take count bytes)) }

    // Where the words spell no command, nothing is read; with a status from the module on, all is read, and with that of a
    // limit too, unless it is the limit of the length. At most one byte past that limit is taken.
    ensures unread { ((command : OneCommand) → ¬ Spells (map (λ w. w.now) words.now) command) → source.new ≡ source.old }
    ensures drained { HasReadAll result → OnSome (S.left source.old) (S.left source.new ≡ Some []) }
    ensures limited { result ≡ Status.Limit → IfSome (S.left source.old) (λ left. length left ≤ most_bytes → S.left source.new ≡ Some []) }
    ensures taken { GaveAtMost (most_bytes + 1) (S.left source.old) (S.left source.new) }
{
    match answer(alloc, words, source) {
        Ok(written) => match write_all(out, written.bytes.as_slice()) {
            Ok(()) => written.status,
            Err(_) => Status::WriteFault,
        },
        Err(status) => match write_all(out, line_of(status)) {
            Ok(()) => status,
            Err(_) => Status::WriteFault,
        },
    }
}

// What is to be written, or a status whose line is fixed.
fn answer<S: Source>(alloc: Global, words: &[&str], source: &mut S) -> Result<Written, Status>
    ensures answered { MatchResult result
        (λ w. Answers (map (λ w. w.now) words.now) (S.left source.old) (Rose (S.faults source.old) (S.faults source.new)) w.status w.bytes.items)
        (λ status. Answers (map (λ w. w.now) words.now) (S.left source.old) (Rose (S.faults source.old) (S.faults source.new)) status (fixed_line status)) }
    ensures unread { ((command : OneCommand) → ¬ Spells (map (λ w. w.now) words.now) command) → source.new ≡ source.old }
    ensures drained { MatchResult result
        (λ w. (w.status ≢ Status.WriteFault) × OnSome (S.left source.old) (S.left source.new ≡ Some []))
        (λ status. (status ≢ Status.WriteFault) × ¬ HasReadAll status) }
    ensures limited { IfErr result (λ status. status ≡ Status.Limit → IfSome (S.left source.old) (λ left. most_bytes < length left)) }
    ensures taken { GaveAtMost (most_bytes + 1) (S.left source.old) (S.left source.new) }
{
    let Some(command) = read_words(alloc, words)? else {
        return Err(Status::Usage);
    };
    let bytes = match read_all(alloc, source, MOST_BYTES) {
        Ok(bytes) => bytes,
        Err(ReadAll::ReadFault) => return Err(Status::ReadFault),
        Err(ReadAll::TooLong) => return Err(Status::Limit),
        Err(ReadAll::NoMemory) => return Err(Status::NoMemory),
    };
    Ok(carried_out(alloc, command, bytes.as_slice())?)
}

// What the command answers to the bytes of a whole source.
fn carried_out(alloc: Global, command: Command, source: &[u8]) -> Result<Written, AllocError>
    requires { IsSpelled command }
    ensures answered { IfOk result (λ w. AnswersShort command source.now w.status w.bytes.items) }
    ensures drained { IfOk result (λ w. IsOfSource w.status) }
{
    match command {
        Command::Explore { name, args, bounds } => Ok(explore(alloc, name, args, bounds, source)?),
        Command::Run {
            name,
            args,
            options,
        } => Ok(run_once(alloc, name, args, options, source)?),
        Command::ConvertBinary => Ok(convert_binary(alloc, source)?),
        Command::Validate => Ok(validate(alloc, source)?),
    }
}

// The line of a refusal that names nothing.
fn line_of(status: Status) -> &'static [u8]
    ensures { result.now ≡ fixed_line status }
{
    match status {
        Status::Usage => b"usage\n",
        Status::Limit => b"limit length\n",
        Status::ReadFault => b"read fault\n",
        Status::NoMemory => b"no memory\n",
        _ => b"",
    }
}
