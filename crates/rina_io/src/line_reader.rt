//! Reading a source line by line.
ghost use Rattle.std.specs.Prelude.{◌≡◌, [], false};
ghost use Rattle.rina_io.specs.NextLine.{FaultsOf, Gives, IsSound, Refills, Takes};

use crate::source::{Failed, Source};
use crate::whole::LIMIT;
use bstr::ByteSlice;
use std::alloc::{AllocError, Global};
use std::marker::Model;

/// How many bytes one read asks for at most, and so how many stay behind a line at most.
pub const CHUNK: usize = 4096;

/// Why the next line could not be read.
#[derive(Clone, Copy, Debug, PartialEq, Eq)]
pub enum ReadError {
    /// More than `LIMIT` bytes were read in all.
    TooLarge,
    /// A read failed.
    Fault,
    /// An allocation failed.
    Memory,
}

/// Reads a source line by line, in reads of at most `CHUNK` bytes and of at most `LIMIT` bytes in all. It holds only
/// what the last read gave behind the last line.
#[derive(Drop)]
pub struct LineReader {
    /// What the last read gave.
    chunk: Vec<u8>,
    /// How many of these bytes were handed out.
    start: usize,
    /// How many bytes more may be read.
    room: usize,
    /// The end of the source was met.
    over: bool,
}

impl Model for LineReader {
    ghost use Rattle.std.specs.Prelude.{◌≤◌, length, drop};
    ghost use Rattle.rina_io.specs.Reader.{Reader};

    ghost Value = { Reader };

    ghost view = { λ r. record { held = drop r.start r.chunk.items; room = r.room; over = r.over } };

    ghost invariant = { λ r. (length r.chunk.items ≤ 4096) × (r.start ≤ length r.chunk.items) × (r.room ≤ 16777216) };
}

impl LineReader {
    /// A reader that has read nothing.
    pub fn new(alloc: Global) -> Self
        ensures held { result.held ≡ [] }
        ensures room { result.room ≡ 16777216 }
        ensures over { result.over ≡ false }
    {
        LineReader {
            chunk: Vec::new(alloc),
            start: 0,
            room: LIMIT,
            over: false,
        }
    }

    /// Moves the bytes that are held to a line, up to the first line feed, and answers whether there is one. Where an
    /// allocation fails, nothing moves; where nothing is held, none is made.
    fn take_held(&mut self, line: &mut Vec<u8>) -> Result<bool, AllocError>
        ensures { Takes self.old line.old.items self.new line.new.items result }
    {
        let held = &self.chunk[self.start..];
        if held.is_empty() {
            return Ok(false);
        }
        match held.find_byte(b'\n') {
            Some(at) => {
                line.extend_from_slice(&held[..at + 1])?;
                self.start += at + 1;
                Ok(true)
            }
            None => {
                line.extend_from_slice(held)?;
                self.start = self.chunk.len();
                Ok(false)
            }
        }
    }

    /// Reads the next bytes, and answers whether there are any. The last byte that is asked for is the one past the
    /// limit.
    fn refill<S: Source>(&mut self, source: &mut S) -> Result<bool, ReadError>
        requires { self.old.held ≡ [] }
        ensures refills { Refills (S.left source.old) (S.left source.new) self.old self.new result }
        ensures faults { FaultsOf result (S.faults source.old) (S.faults source.new) (S.odd source.old) (S.odd source.new) }
    {
        let mut bytes = [0u8; CHUNK];
        let most = CHUNK.min(self.room.max(1));
        let count = match source.read(&mut bytes[..most]) {
            Ok(count) => count,
            Err(Failed) => return Err(ReadError::Fault),
        };
        if count == 0 {
            return Ok(false);
        }
        if count > self.room {
            return Err(ReadError::TooLarge);
        }
        self.chunk.clear();
        self.start = 0;
        if self.chunk.extend_from_slice(&bytes[..count]).is_err() {
            return Err(ReadError::Memory);
        }
        self.room -= count;
        Ok(true)
    }

    /// The next line, with its end if it has one; None at the end of the input. An allocation is made only for bytes that
    /// are kept. After an error the reader is not to be used.
    #[tactic(auto, using(crate::proofs::Chunks::at_first, crate::proofs::Chunks::found, crate::proofs::Chunks::filled, crate::proofs::Chunks::none_left, crate::proofs::Chunks::last_left, crate::proofs::Chunks::cut_off, crate::proofs::Chunks::no_memory))]
    pub fn next_line<S: Source>(
        &mut self,
        alloc: Global,
        source: &mut S,
    ) -> Result<Option<Vec<u8>>, ReadError>
        requires { IsSound (S.left source.old) self.old }
        ensures gives { Gives (λ line. line.items) (S.left source.old) (S.left source.new) self.old self.new result }
        ensures faults { FaultsOf result (S.faults source.old) (S.faults source.new) (S.odd source.old) (S.odd source.new) }
    {
        let mut line = Vec::new(alloc);
        if self.over {
            return Ok(None);
        }
        'chunks: loop {
            let Ok(found) = self.take_held(&mut line) else {
                return Err(ReadError::Memory);
            };
            if found {
                return Ok(Some(line));
            }
            if !self.refill(source)? {
                self.over = true;
                if line.is_empty() {
                    return Ok(None);
                }
                return Ok(Some(line));
            }
        }
    }
}
