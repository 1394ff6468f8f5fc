// The source and the sink of a line.
ghost use Rattle.std.specs.Prelude.{None};

use owi_base::{Failed, MemSink, MemSource, Source};
use row_words::bytes_of;
use std::alloc::{AllocError, Global};

/// The source of a line.
#[derive(Drop)]
pub enum Given {
    Bytes(MemSource),
    Zeros(Zeros),
}

/// A source of zeros, which it makes as they are asked for. It doesn't tell what is left.
#[derive(Drop)]
pub struct Zeros {
    left: usize,
}

impl Source for Zeros {
    ghost left = { λ _. None };

    ghost faults = { λ _. 0 };

    fn read(&mut self, into: &mut [u8]) -> Result<usize, Failed> {
        let count = self.left.min(into.len());
        into[..count].fill(0);
        self.left -= count;
        Ok(count)
    }
}

/// What stands after the words: the source, and the sink, which has room for 1,000 bytes where no other is given.
pub fn source_and_sink(alloc: Global, rest: &str) -> Result<(Given, MemSink), AllocError> {
    let (rest, into) = rest.split_once(" into ").unwrap_or((rest, "1000 1000"));
    let (source, from) = rest.split_once(" from ").unwrap_or((rest, "4096"));
    let given = match source.strip_prefix("zeros ") {
        Some(count) => Given::Zeros(Zeros {
            left: count.parse::<usize>().unwrap_or(0),
        }),
        None => {
            let numbers = numbers_of(alloc, from)?;
            let (most, fails) = first_of(alloc, numbers.as_slice())?;
            Given::Bytes(MemSource::new(bytes_of(alloc, source)?, most.max(1), fails))
        }
    };
    let numbers = numbers_of(alloc, into)?;
    let room = numbers.first().copied().unwrap_or(0).min(1000);
    let (most, fails) = first_of(alloc, numbers.get(1..).unwrap_or(&[]))?;
    let sink = MemSink::new(alloc, room, most.max(1), fails)?;
    Ok((given, sink))
}

fn numbers_of(alloc: Global, text: &str) -> Result<Vec<u64>, AllocError> {
    let mut numbers = Vec::new(alloc);
    for word in text.split(' ') {
        numbers.push(word.parse::<u64>().unwrap_or(0))?;
    }
    Ok(numbers)
}

// The first number, and those after it.
fn first_of(alloc: Global, numbers: &[u64]) -> Result<(u64, Vec<u64>), AllocError> {
    match numbers {
        [] => Ok((1, Vec::new(alloc))),
        [first, rest @ ..] => Ok((*first, rest.to_vec(alloc)?)),
    }
}
