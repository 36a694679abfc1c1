//! The ids of one IPC process.
ghost use Rattle.std.specs.Prelude.{◌≡◌, ℕ, ◌+◌, ◌-◌, ◌*◌, ◌^◌, ◌<◌, ◌≤◌, ◌⊎◌, [], ◌∷◌, ◌++◌, List, length, slice_get, slice_set, IfSome, IfOk, OnOk, OnErr, IfErr, position};
ghost use Rattle.rina_ids.specs.Ids.{is_free, free_id, drawn, given_back, HasDrawn, IsInUse, Refuses};

use crate::slot::{BLOCK, Slot, bound_of, free_place};
use rina_base::{Cep, Seq, Tick};
use std::alloc::{AllocError, Global};
use std::marker::Model;
use std::mem;

/// Why no id is drawn.
#[derive(Clone, Copy, Debug, PartialEq, Eq)]
pub enum NoIds {
    /// An allocation failed.
    Memory,
    /// All ids are in use or at rest: `used` is the number of ids of the width.
    Used { used: u32 },
}

impl From<AllocError> for NoIds {
    ghost use Rattle.std.specs.Prelude.{◌≡◌};
    ghost use Rattle.rina_ids.specs.declared.ids.NoIds.TheVariants.{Memory};

    ghost from_gives = { λ _ e. e ≡ Memory };

    fn from(_error: AllocError) -> NoIds {
        NoIds::Memory
    }
}

/// The ids of connection endpoints of one IPC process, from 1 to the greatest of their width.
/// A contract sees the greatest, and what is known of each id from 1 on that was ever drawn.
#[derive(Drop)]
pub struct Ids {
    greatest: u32,
    slots: Seq<Slot>,
    /// For each block of ids a tick before which none of them that rests is free.
    bounds: Seq<Tick>,
}

impl Model for Ids {
    ghost use Rattle.std.specs.Prelude.{ℕ, List, ◌<◌, ◌≤◌, ◌+◌, ◌*◌, ◌^◌, length};
    ghost use Rattle.rina_ids.specs.declared.slot.Slot.{Slot};
    ghost use Rattle.rina_ids.specs.Ids.{IsBelow};

    ghost Value = { ℕ × List Slot };

    ghost view = { λ i. (i.greatest, i.slots) };

    ghost invariant = { λ i. (i.greatest < 2 ^ 32) × (length i.slots ≤ i.greatest) × (length i.slots ≤ 64 * length i.bounds) × (64 * length i.bounds ≤ length i.slots + 64) × IsBelow i.bounds i.slots };
}

impl Ids {
    /// No id in use or at rest; `width` is that of an id, in bytes.
    pub fn new(alloc: Global, width: u8) -> Ids
        requires { (width ≡ 1) ⊎ ((width ≡ 2) ⊎ (width ≡ 4)) }
        ensures { result ≡ (256 ^ width - 1, []) }
    {
        let greatest = match width {
            1 => 255,
            2 => 65_535,
            _ => u32::MAX,
        };
        Ids {
            greatest,
            slots: Seq::new(alloc),
            bounds: Seq::new(alloc),
        }
    }

    /// The place of the first id that is free, of those that were drawn.
    fn place(&self, now: Tick) -> Option<usize>
        ensures at { result ≡ position (is_free now) self.now.1 }
        ensures within { IfSome result (λ k. k < length self.now.1) }
        ensures unused { IfSome result (λ k. IsInUse self.now.1 (k + 1) → ⊥) }
        ensures small { length self.now.1 < 2 ^ 32 }
    {
        free_place(self.slots.as_slice(), self.bounds.as_slice(), now)
    }

    /// The id that would be drawn; None exactly where all are in use or at rest. Takes no memory.
    #[tactic(auto, unfolding(crate::specs::Ids::free_id))]
    pub fn free(&self, now: Tick) -> Option<Cep>
        ensures { result ≡ free_id self.now.0 now self.now.1 }
    {
        match self.place(now) {
            Some(at) => Some(at as u32 + 1),
            None if self.slots.len() < self.greatest as usize => Some(self.slots.len() as u32 + 1),
            None => None,
        }
    }

    /// Puts an id in use that was drawn before.
    fn take_again(&mut self, at: usize)
        requires { at < length self.old.1 }
        ensures set { self.new ≡ (self.old.0, slice_set self.old.1 at Slot.InUse) }
        ensures used { IsInUse self.new.1 (at + 1) }
        ensures kept { (id : ℕ) → IsInUse self.old.1 id → IsInUse self.new.1 id }
    {
        self.slots.set(at, Slot::InUse);
        let block = at / BLOCK;
        self.bounds
            .set(block, bound_of(self.slots.as_slice(), block));
    }

    /// Puts the least id in use that was never drawn.
    fn take_fresh(&mut self) -> Result<(), AllocError>
        requires { length self.old.1 < self.old.0 }
        ensures ok { OnOk result (self.new ≡ (self.old.0, self.old.1 ++ Slot.InUse ∷ [])) }
        ensures used { OnOk result (IsInUse self.new.1 (length self.old.1 + 1)) }
        ensures unused { IsInUse self.old.1 (length self.old.1 + 1) → ⊥ }
        ensures kept { (id : ℕ) → IsInUse self.old.1 id → IsInUse self.new.1 id }
        ensures err { OnErr result (self.new ≡ self.old) }
    {
        if self.bounds.len() * BLOCK <= self.slots.len() {
            self.bounds.push(Tick::MAX)?;
        }
        self.slots.push(Slot::InUse)
    }

    /// Draws the least id that is neither in use nor at rest.
    #[tactic(auto, unfolding(crate::specs::Ids::free_id, crate::specs::Ids::drawn))]
    pub fn draw(&mut self, _alloc: Global, now: Tick) -> Result<Cep, NoIds>
        ensures id { IfOk result (λ id. free_id self.old.0 now self.old.1 ≡ Some id) }
        ensures ok { IfOk result (λ id. self.new ≡ (self.old.0, drawn self.old.1 id)) }
        ensures refused { IfErr result (Refuses self.old.0 (free_id self.old.0 now self.old.1)) }
        ensures used { IfOk result (λ id. IsInUse self.new.1 id) }
        ensures unused { IfOk result (λ id. IsInUse self.old.1 id → ⊥) }
        ensures kept { (id : ℕ) → IsInUse self.old.1 id → IsInUse self.new.1 id }
        ensures err { OnErr result (self.new ≡ self.old) }
    {
        if let Some(at) = self.place(now) {
            self.take_again(at);
            return Ok(at as u32 + 1);
        }
        if self.slots.len() >= self.greatest as usize {
            return Err(NoIds::Used {
                used: self.greatest,
            });
        }
        self.take_fresh()?;
        Ok(self.slots.len() as u32)
    }

    /// Gives back an id, which rests for `rest` ticks: it is free at tick `now + rest`. Takes no
    /// memory.
    pub fn give_back(&mut self, now: Tick, id: Cep, rest: u32)
        requires used { IsInUse self.old.1 id }
        requires tick { now ≤ 10000000 }
        requires rest { rest ≤ 9000000 }
        ensures rests { self.new ≡ (self.old.0, given_back self.old.1 id (now + rest)) }
        ensures kept { (other : ℕ) → (other ≡ id → ⊥) → IsInUse self.old.1 other → IsInUse self.new.1 other }
    {
        let at = id as usize - 1;
        let until = now + rest;
        self.slots.set(at, Slot::Resting { until });
        let block = at / BLOCK;
        let bound = self.bounds.as_slice()[block];
        self.bounds.set(block, bound.min(until));
    }

    /// What is known of an id. None exactly where it was never drawn.
    pub fn known(&self, id: Cep) -> Option<Slot>
        requires { 1 ≤ id }
        ensures { result ≡ slice_get self.now.1 (id - 1) }
    {
        self.slots.get(id as usize - 1).copied()
    }

    /// Puts an id back as it was before it was drawn again.
    fn put_back(&mut self, at: usize, was: Slot)
        requires { at < length self.old.1 }
        ensures { self.new ≡ (self.old.0, slice_set self.old.1 at was) }
    {
        self.slots.set(at, was);
        let block = at / BLOCK;
        self.bounds
            .set(block, bound_of(self.slots.as_slice(), block));
    }

    /// Takes the last id out.
    fn take_out(&mut self, alloc: Global)
        requires { 1 ≤ length self.old.1 }
        ensures { (slots : List Slot) (last : Slot) → self.old.1 ≡ slots ++ last ∷ [] → self.new ≡ (self.old.0, slots) }
    {
        let mut slots = mem::replace(&mut self.slots, Seq::new(alloc)).into_vec();
        slots.pop();
        let mut bounds = mem::replace(&mut self.bounds, Seq::new(alloc)).into_vec();
        if bounds.len() * BLOCK > slots.len() + BLOCK {
            bounds.pop();
        }
        self.slots = Seq::from_vec(slots);
        self.bounds = Seq::from_vec(bounds);
    }

    /// Takes a draw back: of the id is known what was known before. Takes no memory.
    pub fn undo_draw(&mut self, alloc: Global, id: Cep, was: Option<Slot>)
        requires { (slots : List Slot) × HasDrawn slots id was self.old.1 }
        ensures { (slots : List Slot) → HasDrawn slots id was self.old.1 → self.new ≡ (self.old.0, slots) }
    {
        match was {
            Some(slot) => self.put_back(id as usize - 1, slot),
            None => self.take_out(alloc),
        }
    }
}
