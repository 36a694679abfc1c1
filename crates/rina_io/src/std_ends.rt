//! Any reader and any writer of std as a source and a sink. What the reader gives and the writer takes
//! is trusted.
ghost use Rattle.std.specs.Prelude.{◌≡◌, false};

use crate::sink::Sink;
use crate::source::{Failed, Source};
use std::io::{Read, Write};

/// A source over any reader.
#[derive(Drop)]
pub struct StdSource<R> {
    inner: R,
    faults: u64,
    odd: bool,
}

impl<R: Read> StdSource<R> {
    /// A source over a reader, with no fault counted.
    pub fn new(inner: R) -> Self
        ensures left { ⟦<StdSource<R> as Source>⟧.left result ≡ R.remaining inner }
        ensures faults { ⟦<StdSource<R> as Source>⟧.faults result ≡ 0 }
        ensures even { ⟦<StdSource<R> as Source>⟧.odd result ≡ false }
    {
        StdSource {
            inner,
            faults: 0,
            odd: false,
        }
    }
}

impl<R: Read> Source for StdSource<R> {
    ghost left = { λ s. R.remaining s.inner };

    ghost faults = { λ s. s.faults };

    ghost odd = { λ s. s.odd };

    fn read(&mut self, buf: &mut [u8]) -> Result<usize, Failed> {
        match self.inner.read(buf) {
            Ok(count) => Ok(count),
            Err(_) => {
                self.faults = self.faults.saturating_add(1);
                self.odd = !self.odd;
                Err(Failed)
            }
        }
    }
}

/// A sink over any writer.
#[derive(Drop)]
pub struct StdSink<W> {
    inner: W,
    faults: u64,
    odd: bool,
}

impl<W: Write> StdSink<W> {
    /// A sink over a writer, with no fault counted.
    pub fn new(inner: W) -> Self
        ensures took { ⟦<StdSink<W> as Sink>⟧.took result ≡ W.contents inner }
        ensures faults { ⟦<StdSink<W> as Sink>⟧.faults result ≡ 0 }
        ensures even { ⟦<StdSink<W> as Sink>⟧.odd result ≡ false }
    {
        StdSink {
            inner,
            faults: 0,
            odd: false,
        }
    }
}

impl<W: Write> Sink for StdSink<W> {
    ghost took = { λ s. W.contents s.inner };

    ghost faults = { λ s. s.faults };

    ghost odd = { λ s. s.odd };

    fn write(&mut self, piece: &[u8]) -> Result<usize, Failed> {
        match self.inner.write(piece) {
            Ok(count) => {
                if count == 0 && !piece.is_empty() {
                    self.faults = self.faults.saturating_add(1);
                    self.odd = !self.odd;
                }
                Ok(count)
            }
            Err(_) => {
                self.faults = self.faults.saturating_add(1);
                self.odd = !self.odd;
                Err(Failed)
            }
        }
    }
}
