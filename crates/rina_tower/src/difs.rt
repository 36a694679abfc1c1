//! The DIFs of a rank.
ghost use Rattle.std.specs.Prelude.{◌≡◌, [], ◌∷◌, ◌++◌, length, slice_get, Some, None, OnOk, OnErr, MatchOption};
ghost use Rattle.rina_tower.specs.MemoryFailure.{have_failed};

mod calls;
mod clock;
mod enrol;
mod names;
mod objects;
mod places;
mod rest;
mod steps;

use rina_dif::Dif;
use std::alloc::{AllocError, Global};
use std::marker::Model;

/// The DIFs of a rank, each at the place of its number. A contract sees the list of them.
#[derive(Drop)]
pub struct Difs {
    items: Vec<Dif>,
}

impl Model for Difs {
    ghost use Rattle.std.specs.Prelude.{List};
    ghost use Rattle.std.specs.Coded.{coded_list};
    ghost use Rattle.rina_dif.specs.declared.dif.Dif.{Dif};
    ghost use Rattle.rina_dif.specs.contracts.dif.Dif as dif;

    ghost Value = { List Dif };

    ghost coded = { coded_list dif.the_row.coded };

    ghost view = { λ d. d.items.items };
}

impl Difs {
    /// No DIFs yet.
    pub fn new(alloc: Global) -> Difs
        ensures { result ≡ [] }
    {
        Difs {
            items: Vec::new(alloc),
        }
    }

    /// Adds a DIF behind the others.
    pub fn push(&mut self, dif: Dif) -> Result<(), AllocError>
        ensures ok { OnOk result (self.new ≡ self.old ++ dif ∷ []) }
        ensures err { OnErr result (self.new ≡ self.old) }
    {
        self.items.push(dif)?;
        Ok(())
    }

    /// How many there are.
    pub fn len(&self) -> usize
        ensures { result ≡ length self.now }
    {
        self.items.len()
    }

    /// Whether an allocation has failed at one of them.
    pub fn have_failed(&self) -> bool
        ensures { result ≡ have_failed self.now }
    {
        self.items.iter().any(|dif| dif.has_failed())
    }

    /// All of them, each at the place of its number.
    pub fn as_slice(&self) -> &[Dif]
        ensures { result.now ≡ self.now }
    {
        self.items.as_slice()
    }

    /// The DIF of a number. None exactly where there is none.
    pub fn get(&self, fac: u16) -> Option<&Dif>
        ensures { MatchOption result (slice_get self.now fac ≡ None) (λ d. slice_get self.now fac ≡ Some d.now) }
    {
        self.items.get(fac as usize)
    }
}
