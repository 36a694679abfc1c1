//! The ids of several IPC processes.
ghost use Rattle.std.specs.Prelude.{◌≡◌, ◌≢◌, ◌⊎◌, ℕ, ◌+◌, ◌<◌, ◌≤◌, List, IfOk, OnErr, Some, length, slice_get};
ghost use Rattle.rina_ids.specs.Ids.{IsInUse, free_id};
ghost use Rattle.rina_ids.specs.Members.{AreDrawnAt, AreUndrawn, CepIds, DrawsAt, IsDrawn, IsDrawnAt, with_rest};

use crate::ids::{Ids, NoIds};
use crate::slot::Slot;
use rina_base::{Cep, Memory, Tick};
use std::alloc::Global;
use std::marker::Model;

/// An id that was drawn.
#[derive(Clone, Copy)]
pub struct Draw {
    pub cep: Cep,
    /// What was known of it before. None where it was never drawn.
    pub was: Option<Slot>,
}

/// The ids of the members of a DIF, each at the place of its member.
#[derive(Drop)]
pub struct MemberIds {
    items: Vec<Ids>,
}

impl Model for MemberIds {
    ghost use Rattle.std.specs.Prelude.{List};
    ghost use Rattle.rina_ids.specs.Members.{CepIds};

    ghost Value = { List CepIds };

    ghost view = { λ m. m.items.items };
}

/// A width that an id may have, in bytes: this one, or 4.
fn known_width(width: u8) -> u8
    ensures known { (result ≡ 1) ⊎ ((result ≡ 2) ⊎ (result ≡ 4)) }
    ensures same { (width ≡ 1) ⊎ ((width ≡ 2) ⊎ (width ≡ 4)) → result ≡ width }
{
    match width {
        1 => 1,
        2 => 2,
        _ => 4,
    }
}

/// Draws the least id that is neither in use nor at rest. There is one.
fn draw_next(ids: &mut Ids, alloc: Global, now: Tick) -> Result<Draw, Memory>
    requires { (cep : ℕ) × (free_id ids.old.0 now ids.old.1 ≡ Some cep) }
    ensures ok { IfOk result (λ draw. IsDrawn now ids.old draw ids.new) }
    ensures err { OnErr result (ids.new ≡ ids.old) }
{
    let Some(next) = ids.free(now) else {
        unreachable!()
    };
    let was = ids.known(next);
    match ids.draw(alloc, now) {
        Ok(cep) => Ok(Draw { cep, was }),
        Err(NoIds::Memory) => Err(Memory),
        Err(NoIds::Used { .. }) => unreachable!(),
    }
}

/// Takes a draw back. Takes no memory.
fn undo(ids: &mut Ids, alloc: Global, draw: Draw)
    requires { (before : CepIds) × (now : ℕ) × IsDrawn now before draw ids.old }
    ensures { (before : CepIds) (now : ℕ) → IsDrawn now before draw ids.old → ids.new ≡ before }
{
    ids.undo_draw(alloc, draw.cep, draw.was);
}

impl MemberIds {
    /// No id in use or at rest, at each of so many members of a DIF; `width` is that of an id, in bytes: 1, 2 or 4. Any other
    /// is taken for 4.
    pub fn new(alloc: Global, width: u8, members: usize) -> Result<MemberIds, Memory>
        ensures { (width ≡ 1) ⊎ ((width ≡ 2) ⊎ (width ≡ 4)) → IfOk result (AreUndrawn width members) }
    {
        let width = known_width(width);
        let mut items = Vec::new(alloc);
        for _ in 0..members {
            if items.push(Ids::new(alloc, width)).is_err() {
                return Err(Memory);
            }
        }
        Ok(MemberIds { items })
    }

    /// The id that the member at a place would draw; None exactly where all are in use or at rest. Takes no memory.
    pub fn free(&self, at: usize, now: Tick) -> Option<Cep>
        requires { at < length self.now }
        ensures { (ids : CepIds) → slice_get self.now at ≡ Some ids → result ≡ free_id ids.0 now ids.1 }
    {
        self.items[at].free(now)
    }

    /// Draws the least id of the member at a place that is neither in use nor at rest. There is one.
    pub fn draw(&mut self, alloc: Global, now: Tick, at: usize) -> Result<Draw, Memory>
        requires { (cep : ℕ) × DrawsAt self.old now at cep }
        ensures ok { IfOk result (λ draw. IsDrawnAt self.old now at draw self.new) }
        ensures err { OnErr result (self.new ≡ self.old) }
    {
        let ids = &mut self.items[at];
        draw_next(ids, alloc, now)
    }

    /// Takes a draw of the member at a place back. Takes no memory.
    pub fn undo_draw(&mut self, alloc: Global, at: usize, draw: Draw)
        requires { (held : List CepIds) × (now : ℕ) × IsDrawnAt held now at draw self.old }
        ensures { (held : List CepIds) (now : ℕ) → IsDrawnAt held now at draw self.old → self.new ≡ held }
    {
        let ids = &mut self.items[at];
        undo(ids, alloc, draw);
    }

    /// Draws the least id that is neither in use nor at rest of each of two members. There is one of each. Where an allocation
    /// fails nothing changes.
    pub fn draw_both(
        &mut self,
        alloc: Global,
        now: Tick,
        a: usize,
        b: usize,
    ) -> Result<(Draw, Draw), Memory>
        requires apart { a ≢ b }
        requires a { (cep : ℕ) × DrawsAt self.old now a cep }
        requires b { (cep : ℕ) × DrawsAt self.old now b cep }
        ensures ok { IfOk result (λ draws. AreDrawnAt self.old now a b draws self.new) }
        ensures err { OnErr result (self.new ≡ self.old) }
    {
        let first = self.draw(alloc, now, a)?;
        match self.draw(alloc, now, b) {
            Ok(second) => Ok((first, second)),
            Err(Memory) => {
                self.undo_draw(alloc, a, first);
                Err(Memory)
            }
        }
    }

    /// Takes the draws of two members back. Takes no memory.
    pub fn undo_both(&mut self, alloc: Global, a: usize, b: usize, draws: (Draw, Draw))
        requires { (held : List CepIds) × (now : ℕ) × AreDrawnAt held now a b draws self.old }
        ensures { (held : List CepIds) (now : ℕ) → AreDrawnAt held now a b draws self.old → self.new ≡ held }
    {
        self.undo_draw(alloc, b, draws.1);
        self.undo_draw(alloc, a, draws.0);
    }

    /// Gives an id of the member at a place back, which rests for `rest` ticks. Takes no memory.
    pub fn give_back(&mut self, at: usize, now: Tick, id: Cep, rest: u32)
        requires at { at < length self.old }
        requires used { (ids : CepIds) → slice_get self.old at ≡ Some ids → IsInUse ids.1 id }
        requires tick { now ≤ 10000000 }
        requires rest { rest ≤ 9000000 }
        ensures { (ids : CepIds) → slice_get self.old at ≡ Some ids → self.new ≡ with_rest at ids id (now + rest) self.old }
    {
        let ids = &mut self.items[at];
        ids.give_back(now, id, rest);
    }
}
