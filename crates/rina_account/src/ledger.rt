//! Write-offs.
ghost use Rattle.std.specs.Prelude.{◌≡◌, [], ◌∷◌, ◌++◌, OnOk, OnErr};

use rina_base::{Cause, Key, Memory, Seq};
use std::alloc::Global;
use std::marker::Model;

/// A PDU that was written off, and why.
#[derive(Clone, Copy, Debug, PartialEq, Eq)]
pub struct Off {
    pub key: Key,
    pub cause: Cause,
}

/// The write-offs of one IPC process. A contract sees the list of its lines, in order.
#[derive(Drop)]
pub struct Ledger {
    lines: Seq<Off>,
}

impl Model for Ledger {
    ghost use Rattle.std.specs.Prelude.{List};
    ghost use Rattle.rina_account.specs.declared.ledger.Off.{Off};

    ghost Value = { List Off };

    ghost view = { λ l. l.lines };
}

impl Ledger {
    /// No lines yet.
    pub fn new(alloc: Global) -> Ledger
        ensures { result ≡ [] }
    {
        Ledger {
            lines: Seq::new(alloc),
        }
    }

    /// Writes a line for a PDU that is written off. Without memory nothing changes.
    pub fn note(&mut self, _alloc: Global, key: Key, cause: Cause) -> Result<(), Memory>
        ensures ok { OnOk result (self.new ≡ self.old ++ record { key = key; cause = cause } ∷ []) }
        ensures err { OnErr result (self.new ≡ self.old) }
    {
        self.lines.push(Off { key, cause })?;
        Ok(())
    }

    /// Takes all lines out, until `put` puts them back. Takes no memory.
    pub fn take(&mut self, alloc: Global) -> Vec<Off>
        ensures lines { result.items ≡ self.old }
        ensures rest { self.new ≡ [] }
    {
        std::mem::replace(&mut self.lines, Seq::new(alloc)).into_vec()
    }

    /// Lets these be the lines.
    pub fn put(&mut self, lines: Vec<Off>)
        ensures { self.new ≡ lines.items }
    {
        self.lines = Seq::from_vec(lines);
    }

    /// The lines, in order. Takes no memory.
    pub fn lines(&self) -> &[Off]
        ensures { result.now ≡ self.now }
    {
        self.lines.as_slice()
    }
}
