//! A source and a sink in memory, whose maker says which calls fail.
ghost use Rattle.std.specs.Prelude.{◌≡◌, false, Some};

use crate::sink::Sink;
use crate::source::{Failed, Source};
use std::io::{Cursor, Read};

/// A source over bytes in memory.
#[derive(Drop)]
pub struct MemSource {
    inner: Cursor<Vec<u8>>,
    fails: Vec<bool>,
    calls: usize,
    faults: u64,
    odd: bool,
}

impl MemSource {
    /// A source of these bytes, with no fault counted. Its read number n, counted from 0, fails where
    /// `fails` has true at place n.
    pub fn new(bytes: Vec<u8>, fails: Vec<bool>) -> Self
        ensures left { ⟦<MemSource as Source>⟧.left result ≡ Some bytes.items }
        ensures faults { ⟦<MemSource as Source>⟧.faults result ≡ 0 }
        ensures even { ⟦<MemSource as Source>⟧.odd result ≡ false }
    {
        MemSource {
            inner: Cursor::new(bytes),
            fails,
            calls: 0,
            faults: 0,
            odd: false,
        }
    }
}

impl Source for MemSource {
    ghost left = { λ s. ⟦<Cursor<Vec<u8>> as Read>⟧.remaining s.inner };

    ghost faults = { λ s. s.faults };

    ghost odd = { λ s. s.odd };

    fn read(&mut self, buf: &mut [u8]) -> Result<usize, Failed> {
        let fails = self.fails.get(self.calls).copied().unwrap_or(false);
        self.calls = self.calls.saturating_add(1);
        if fails {
            self.faults = self.faults.saturating_add(1);
            self.odd = !self.odd;
            return Err(Failed);
        }
        match self.inner.read(buf) {
            Ok(count) => Ok(count),
            Err(_) => {
                self.faults = self.faults.saturating_add(1);
                self.odd = !self.odd;
                Err(Failed)
            }
        }
    }
}

/// A sink that keeps in memory what it takes.
#[derive(Drop)]
pub struct MemSink {
    bytes: Vec<u8>,
    fails: Vec<bool>,
    calls: usize,
    faults: u64,
    odd: bool,
}

impl MemSink {
    /// A sink that holds these bytes already, with no fault counted. Its write number n, counted from
    /// 0, fails where `fails` has true at place n.
    pub fn new(bytes: Vec<u8>, fails: Vec<bool>) -> Self
        ensures took { ⟦<MemSink as Sink>⟧.took result ≡ Some bytes.items }
        ensures faults { ⟦<MemSink as Sink>⟧.faults result ≡ 0 }
        ensures even { ⟦<MemSink as Sink>⟧.odd result ≡ false }
    {
        MemSink {
            bytes,
            fails,
            calls: 0,
            faults: 0,
            odd: false,
        }
    }

    /// All bytes that it holds.
    pub fn bytes(&self) -> &[u8]
        ensures { ⟦<MemSink as Sink>⟧.took self.now ≡ Some result.now }
    {
        self.bytes.as_slice()
    }
}

impl Sink for MemSink {
    ghost took = { λ s. Some s.bytes.items };

    ghost faults = { λ s. s.faults };

    ghost odd = { λ s. s.odd };

    fn write(&mut self, piece: &[u8]) -> Result<usize, Failed> {
        let fails = self.fails.get(self.calls).copied().unwrap_or(false);
        self.calls = self.calls.saturating_add(1);
        if fails || self.bytes.extend_from_slice(piece).is_err() {
            self.faults = self.faults.saturating_add(1);
            self.odd = !self.odd;
            return Err(Failed);
        }
        Ok(piece.len())
    }
}
