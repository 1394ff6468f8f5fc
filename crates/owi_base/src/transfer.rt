// All bytes of a source, and all bytes to a sink.
ghost use Rattle.std.specs.Prelude.{◌≡◌, ◌≢◌, ◌+◌, ◌<◌, ◌≤◌, [], length, take, vec_len, IfOk, OnOk, IfErr, IfSome, OnSome, Err, Some};
ghost use Rattle.std.specs.Io.KnownBytes.{Appends};
ghost use Rattle.owi_base.specs.Outside.{Gave, GaveAtMost, Rose};

use crate::outside::{Failed, Sink, Source};
use std::alloc::Global;

/// How many bytes one turn reads at most.
const PIECE: usize = 4096;

/// Why not all bytes of a source were read.
#[derive(Clone, Copy, Debug, PartialEq, Eq)]
pub enum ReadAll {
    /// A call of the source failed. Its count of faults has risen.
    ReadFault,
    /// The source has given one byte more than the limit.
    TooLong,
    /// No memory was left for the bytes.
    NoMemory,
}

/// A call of the sink failed. Its count of faults has risen.
#[derive(Clone, Copy, Debug, PartialEq, Eq)]
pub struct WriteFault {
    /// How many bytes the sink had taken by then: the first ones, and no others.
    pub out: u64,
}

/// All bytes of the source, read to its end, where there are at most `limit`. It takes a byte past the limit only where it
/// answers that there is one. Where it refuses, the bytes that the source has given by then are lost.
pub fn read_all<S: Source>(alloc: Global, source: &mut S, limit: u64) -> Result<Vec<u8>, ReadAll>
    ensures ok { IfOk result (λ bytes. IfSome (S.left source.old) (λ left. bytes.items ≡ left)) }
    ensures ended { OnOk result (OnSome (S.left source.old) (S.left source.new ≡ Some [])) }
    ensures within { IfOk result (λ bytes. vec_len bytes ≤ limit) }

    ensures read_fault { result ≡ Err ReadAll.ReadFault → Rose (S.faults source.old) (S.faults source.new) }
    ensures too_long { result ≡ Err ReadAll.TooLong → IfSome (S.left source.old) (λ left. limit < length left) }

    // Whatever the answer is, this is what the source has given.
    ensures taken { GaveAtMost (limit + 1) (S.left source.old) (S.left source.new) }
    ensures past { result ≡ Err ReadAll.TooLong → Gave (limit + 1) (S.left source.old) (S.left source.new) }
    ensures no_further { result ≢ Err ReadAll.TooLong → GaveAtMost limit (S.left source.old) (S.left source.new) }
    ensures never_falls { S.faults source.old ≤ S.faults source.new }
{
    let mut bytes = Vec::new(alloc);
    let mut piece = [0u8; PIECE];
    loop {
        let room = limit - bytes.len() as u64;
        let most = room.min(PIECE as u64 - 1) as usize + 1;
        let count = match source.read(&mut piece[..most]) {
            Ok(count) => count,
            Err(Failed) => return Err(ReadAll::ReadFault),
        };
        if count == 0 {
            return Ok(bytes);
        }
        if count as u64 > room {
            return Err(ReadAll::TooLong);
        }
        if bytes.extend_from_slice(&piece[..count]).is_err() {
            return Err(ReadAll::NoMemory);
        }
    }
}

/// Writes all bytes to the sink, in as many calls as it takes.
pub fn write_all<K: Sink>(sink: &mut K, bytes: &[u8]) -> Result<(), WriteFault>
    ensures ok { OnOk result (Appends (K.written sink.old) (K.written sink.new) bytes.now) }

    ensures within { IfErr result (λ fault. fault.out ≤ length bytes.now) }
    ensures front { IfErr result (λ fault. Appends (K.written sink.old) (K.written sink.new) (take fault.out bytes.now)) }
    ensures fault { IfErr result (λ _. Rose (K.faults sink.old) (K.faults sink.new)) }
    ensures never_falls { K.faults sink.old ≤ K.faults sink.new }
{
    let mut out = 0;
    while out < bytes.len() {
        match sink.write(&bytes[out..]) {
            Ok(count) => out += count,
            Err(Failed) => return Err(WriteFault { out: out as u64 }),
        }
    }
    Ok(())
}
