// The program: the words after its name, standard input and standard output.
#![tactic(auto)]

use owi_base::{InSource, OutSink};
use owi_cmd::{Status, owi_plain};
use std::alloc::{AllocError, Global};
use std::io::ErrorKind;
use std::process::ExitCode;
use std::{env, io};

// The words after the program's name.
fn words_of(rt: &HostRuntime) -> io::Result<Vec<String>> {
    let mut words = Vec::new(rt.alloc());
    for word in env::args(rt)?.skip(1) {
        words.push(word)?;
    }
    Ok(words)
}

fn lent(alloc: Global, words: &[String]) -> Result<Vec<&str>, AllocError> {
    let mut lent = Vec::new(alloc);
    for word in words {
        lent.push(word.as_str())?;
    }
    Ok(lent)
}

fn run(rt: &HostRuntime) -> io::Result<Status> {
    let words = match words_of(rt) {
        Ok(words) => words,
        // A word that isn't UTF-8 is part of no command, as no words are.
        Err(error) if error.kind() == ErrorKind::InvalidData => Vec::new(rt.alloc()),
        Err(error) => return Err(error),
    };
    let lent = lent(rt.alloc(), words.as_slice())?;
    let mut source = InSource::new(rt.reader());
    let mut out = OutSink::new(io::writer(rt));
    Ok(owi_plain(rt.alloc(), lent.as_slice(), &mut source, &mut out))
}

fn main(rt: HostRuntime) -> ExitCode {
    let status = run(&rt).unwrap_or(Status::NoMemory);
    ExitCode::from(status.number())
}
