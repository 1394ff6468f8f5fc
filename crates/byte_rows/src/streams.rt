// A reader and a writer of the system that have a trouble, and a source of zeros.
ghost use Rattle.std.specs.Prelude.{◌≤◌};

use owi_base::{Failed, Source};
use std::io;
use std::io::{ErrorKind, Read, Write};

/// What goes wrong at the second call of a stream.
#[derive(Clone, Copy, PartialEq, Eq)]
pub enum Trouble {
    Fails,
    TakesNothing,
    FailsToFlush,
}

/// Gives and takes at most two bytes a call.
#[derive(Drop)]
pub struct Stream {
    trouble: Trouble,
    calls: u64,
}

impl Stream {
    /// A stream with this trouble at its second call.
    pub fn with(trouble: Trouble) -> Stream {
        Stream { trouble, calls: 0 }
    }

    fn is_in(&self, trouble: Trouble) -> bool {
        self.calls == 2 && self.trouble == trouble
    }
}

impl Read for Stream {
    fn read(&mut self, buf: &mut [u8]) -> io::Result<usize> {
        self.calls = self.calls.saturating_add(1);
        if self.is_in(Trouble::Fails) {
            return Err(ErrorKind::Other.into());
        }
        let count = buf.len().min(2);
        buf[..count].fill(7);
        Ok(count)
    }
}

impl Write for Stream {
    fn write(&mut self, buf: &[u8]) -> io::Result<usize> {
        self.calls = self.calls.saturating_add(1);
        if self.is_in(Trouble::Fails) {
            return Err(ErrorKind::Other.into());
        }
        if self.is_in(Trouble::TakesNothing) {
            return Ok(0);
        }
        Ok(buf.len().min(2))
    }

    fn flush(&mut self) -> io::Result<()> {
        if self.is_in(Trouble::FailsToFlush) {
            return Err(ErrorKind::Other.into());
        }
        Ok(())
    }
}

/// So many zero bytes, which it doesn't hold.
#[derive(Drop)]
pub struct Zeros {
    pub left: u64,
}

impl Source for Zeros {
    ghost use Rattle.std.specs.Prelude.{None};

    ghost left = { λ _. None };

    ghost faults = { λ _. 0 };

    fn read(&mut self, into: &mut [u8]) -> Result<usize, Failed> {
        let count = self.left.min(into.len() as u64);
        into[..count as usize].fill(0);
        self.left -= count;
        Ok(count as usize)
    }
}
