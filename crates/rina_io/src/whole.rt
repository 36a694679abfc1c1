//! Reading all of a source, and writing all of a piece.
ghost use Rattle.std.specs.Prelude.{◌≡◌, ◌+◌, ◌<◌, ◌≤◌, ◌++◌, ℕ, List, not, length, take, OnOk, OnErr};
ghost use Rattle.std.specs.Io.KnownBytes.{Appends, Consumes, IsAtEnd};
ghost use Rattle.rina_io.specs.Causes.{one_more, Rose, HasCause, Turns};

use crate::sink::Sink;
use crate::source::{Failed, Source};
use std::alloc::Global;

/// How many bytes of input are used at most.
pub const LIMIT: usize = 16_777_216;

/// Why reading a source ended.
#[derive(Clone, Copy, Debug, PartialEq, Eq)]
pub enum Ending {
    /// The whole input was read.
    Whole,
    /// More than `LIMIT` bytes were read.
    TooLarge,
    /// A read failed.
    Fault,
    /// An allocation failed.
    Memory,
}

/// What was read of a source, and why reading ended.
#[derive(Drop)]
pub struct Taken {
    pub bytes: Vec<u8>,
    pub ending: Ending,
}

/// Writes all of a piece, in as many writes as the sink needs. Where a write fails or takes nothing,
/// this fails, and the sink took a front of the piece, but not all of it. Such a write is counted as a fault, and no other.
pub fn write_all<K: Sink>(out: &mut K, piece: &[u8]) -> Result<(), Failed>
    ensures ok { OnOk result (Appends (K.took out.old) (K.took out.new) piece.now) }
    ensures err { OnErr result ((k : ℕ) × (k < length piece.now) × Appends (K.took out.old) (K.took out.new) (take k piece.now)) }
    ensures fine { OnOk result (K.faults out.new ≡ K.faults out.old) }
    ensures cause { HasCause (K.faults out.old) (K.faults out.new) result }
    ensures turns { Turns (K.odd out.old) (K.odd out.new) result }
{
    let mut done = 0usize;
    'pieces: while done < piece.len() {
        let count = out.write(&piece[done..])?;
        if count == 0 {
            return Err(Failed);
        }
        done += count;
    }
    Ok(())
}

/// What was read, and why reading ended.
fn ended(bytes: Vec<u8>, ending: Ending) -> Taken
    ensures bytes { result.bytes.items ≡ bytes.items }
    ensures ending { result.ending ≡ ending }
{
    Taken { bytes, ending }
}

/// Reads a source to its end, or until more than `LIMIT` bytes were read, a read fails or an allocation
/// fails. A read that fails is counted as a fault, and no other.
pub fn take_all<S: Source>(alloc: Global, source: &mut S) -> Taken
    ensures bytes { ¬ (result.ending ≡ Ending.Memory) → Consumes (S.left source.old) (S.left source.new) result.bytes.items }
    // Without memory these bytes were read, and what one read gave behind them.
    ensures memory { result.ending ≡ Ending.Memory → (more : List ℕ) × (0 < length more) × Consumes (S.left source.old) (S.left source.new) (result.bytes.items ++ more) × (length more ≤ 16384) }
    // Beyond the limit no read is made.
    ensures few { length result.bytes.items ≤ LIMIT + 16384 }
    ensures whole { result.ending ≡ Ending.Whole → IsAtEnd (S.left source.new) × (length result.bytes.items ≤ LIMIT) }
    ensures large { result.ending ≡ Ending.TooLarge → LIMIT < length result.bytes.items }
    ensures fault { result.ending ≡ Ending.Fault → Rose (S.faults source.old) (S.faults source.new) × (length result.bytes.items ≤ LIMIT) }
    ensures fine { ¬ (result.ending ≡ Ending.Fault) → S.faults source.new ≡ S.faults source.old }
    ensures later { S.faults source.old ≤ S.faults source.new }
    ensures once { result.ending ≡ Ending.Fault → S.faults source.new ≤ one_more (S.faults source.old) }
    ensures turned { result.ending ≡ Ending.Fault → S.odd source.new ≡ not (S.odd source.old) }
    ensures steady { ¬ (result.ending ≡ Ending.Fault) → S.odd source.new ≡ S.odd source.old }
{
    let mut bytes = Vec::new(alloc);
    let mut buffer = [0u8; 16384];
    'turns: for _ in 0..LIMIT + 1 {
        let count = match source.read(&mut buffer) {
            Ok(count) => count,
            Err(Failed) => return ended(bytes, Ending::Fault),
        };
        if count == 0 {
            return ended(bytes, Ending::Whole);
        }
        if bytes.extend_from_slice(&buffer[..count]).is_err() {
            return ended(bytes, Ending::Memory);
        }
        if bytes.len() > LIMIT {
            return ended(bytes, Ending::TooLarge);
        }
    }
    ended(bytes, Ending::TooLarge)
}
