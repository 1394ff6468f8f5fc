// A source over a reader of the system, and a sink over a writer of it.
ghost use Rattle.std.specs.Prelude.{◌≡◌, ◌↔◌, ◌<◌, ◌≤◌, [], length, take, drop, IfOk, IfSome, OnErr, OnOk};
ghost use Rattle.std.specs.Io.KnownBytes.{Appends, Consumes, Keeps};
ghost use Rattle.owi_base.specs.Outside.{one_more};
ghost use Rattle.owi_base.specs.System.{TookFront};

use crate::outside::{Failed, Sink, Source};
use std::io::{Read, Write};
use std::marker::Model;

/// How many bytes one read asks of the reader at most.
const PIECE: usize = 4096;

/// The bytes of a reader. It tells of them what the reader tells, and counts each error of the reader.
#[derive(Drop)]
pub struct InSource<R: Read> {
    reader: R,
    faults: u64,
}

impl<R: Read> Model for InSource<R> {
    ghost use Rattle.owi_base.specs.System.{SourceOutside};

    ghost Value = { SourceOutside };

    ghost view = { λ s. record { left = R.remaining s.reader; faults = s.faults } };
}

impl<R: Read> InSource<R> {
    /// A source of what this reader gives.
    pub fn new(reader: R) -> InSource<R>
        ensures { result ≡ record { left = R.remaining reader; faults = 0 } }
    {
        InSource { reader, faults: 0 }
    }
}

impl<R: Read> Source for InSource<R> {
    ghost left = { λ s. s.left };

    ghost faults = { λ s. s.faults };

    fn read(&mut self, into: &mut [u8]) -> Result<usize, Failed>
        requires { 0 < length into.old }
        ensures within { IfOk result (λ n. n ≤ length into.new) }
        ensures bytes { IfOk result (λ n. Consumes self.old.left self.new.left (take n into.new)) }
        ensures rest { IfOk result (λ n. drop n into.new ≡ drop n into.old) }
        ensures end { IfOk result (λ n. IfSome self.old.left (λ bytes. n ≡ 0 ↔ (bytes ≡ []))) }
        ensures kept { OnErr result (Keeps self.old.left self.new.left) }

        // The count rises by one at each error, and at no other call.
        ensures counted { OnErr result (self.new.faults ≡ one_more self.old.faults) }
        ensures uncounted { OnOk result (self.new.faults ≡ self.old.faults) }
        ensures never_falls { self.old.faults ≤ self.new.faults }
    {
        let mut piece = [0u8; PIECE];
        let most = into.len().min(PIECE);
        match self.reader.read(&mut piece[..most]) {
            Ok(count) => {
                into[..count].copy_from_slice(&piece[..count]);
                Ok(count)
            }
            Err(_) => {
                self.faults = self.faults.saturating_add(1);
                Err(Failed)
            }
        }
    }
}

/// Bytes for a writer, which it flushes after each write. It counts each error of the writer, and each write that takes
/// nothing. As a sink it doesn't tell what is written, since a flush may fail after bytes were taken; the clauses of its
/// `write` say what the writer took.
#[derive(Drop)]
pub struct OutSink<W: Write> {
    writer: W,
    faults: u64,
}

impl<W: Write> Model for OutSink<W> {
    ghost use Rattle.owi_base.specs.System.{SinkOutside};

    ghost Value = { SinkOutside };

    ghost view = { λ s. record { held = W.contents s.writer; faults = s.faults } };
}

impl<W: Write> OutSink<W> {
    /// A sink that passes its bytes on to this writer.
    pub fn new(writer: W) -> OutSink<W>
        ensures { result ≡ record { held = W.contents writer; faults = 0 } }
    {
        OutSink { writer, faults: 0 }
    }
}

impl<W: Write> Sink for OutSink<W> {
    ghost use Rattle.std.specs.Prelude.{None};

    ghost written = { λ _. None };

    ghost faults = { λ s. s.faults };

    fn write(&mut self, piece: &[u8]) -> Result<usize, Failed>
        requires { 0 < length piece.now }
        ensures some { IfOk result (λ n. 0 < n) }
        ensures within { IfOk result (λ n. n ≤ length piece.now) }

        // The writer took these bytes; a failed call may have given it a front of them.
        ensures took { IfOk result (λ n. Appends self.old.held self.new.held (take n piece.now)) }
        ensures took_front { OnErr result (TookFront piece.now self.old.held self.new.held) }

        // The count rises by one at each failure, and at no other call.
        ensures counted { OnErr result (self.new.faults ≡ one_more self.old.faults) }
        ensures uncounted { OnOk result (self.new.faults ≡ self.old.faults) }
        ensures never_falls { self.old.faults ≤ self.new.faults }
    {
        let count = self.writer.write(piece).unwrap_or(0);
        if count == 0 || self.writer.flush().is_err() {
            self.faults = self.faults.saturating_add(1);
            return Err(Failed);
        }
        Ok(count)
    }
}
