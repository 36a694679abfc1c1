//! A source and a sink that never fail.
ghost use Rattle.std.specs.Prelude.{◌≡◌, false, ◌+◌, ◌-◌, ◌^◌, Some, None, min, length};

use crate::sink::Sink;
use crate::source::{Failed, Source};
use std::marker::Model;

/// A source over bytes in memory. Its count of faults is always 0.
#[derive(Clone, Copy)]
pub struct SureSource<'a> {
    left: &'a [u8],
}

impl<'a> SureSource<'a> {
    /// A source of these bytes.
    pub fn new(bytes: &'a [u8]) -> Self
        ensures { ⟦<SureSource<'a> as Source>⟧.left result ≡ Some bytes.now }
    {
        SureSource { left: bytes }
    }
}

impl Source for SureSource<'_> {
    ghost left = { λ s. Some s.left.now };

    ghost faults = { λ s. 0 };

    ghost odd = { λ s. false };

    fn read(&mut self, buf: &mut [u8]) -> Result<usize, Failed> {
        let count = self.left.len().min(buf.len());
        let (first, rest) = self.left.split_at(count);
        buf[..count].copy_from_slice(first);
        self.left = rest;
        Ok(count)
    }
}

/// A sink that takes every byte and keeps only their number, up to the greatest u64, which is what a
/// contract sees of it. Its count of faults is always 0.
#[derive(Clone, Copy, Default)]
pub struct SureSink {
    taken: u64,
}

impl Model for SureSink {
    ghost use Rattle.std.specs.Prelude.{ℕ};

    ghost Value = { ℕ };

    ghost view = { λ s. s.taken };

    ghost inverse = { λ n. record { taken = n } };
}

impl SureSink {
    /// A sink that has taken no byte.
    pub fn new() -> Self
        ensures { result ≡ 0 }
    {
        SureSink { taken: 0 }
    }

    /// How many bytes it took.
    pub fn taken(&self) -> u64
        ensures { result ≡ self.now }
    {
        self.taken
    }
}

impl Sink for SureSink {
    ghost took = { λ s. None };

    ghost faults = { λ s. 0 };

    ghost odd = { λ s. false };

    fn write(&mut self, piece: &[u8]) -> Result<usize, Failed>
        ensures all { result ≡ Ok (length piece.now) }
        ensures taken { self.new ≡ min (self.old + length piece.now) (2 ^ 64 - 1) }
    {
        self.taken = self.taken.saturating_add(piece.len() as u64);
        Ok(piece.len())
    }
}
