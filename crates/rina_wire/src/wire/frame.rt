//! Frames on a wire.
ghost use Rattle.std.specs.Prelude.{◌≡◌, ◌+◌, ◌<◌, ◌^◌, ◌++◌, ◌∷◌, [], length, slice_get, Some, OnOk, OnErr, IfOk};
ghost use Rattle.rina_iface.specs.declared.ends.End.{End};
ghost use Rattle.rina_draws.specs.Storm.{IsWithin};
ghost use Rattle.rina_stack.specs.Rules.{spread_of};
ghost use Rattle.rina_wire.specs.Copies.{listed};
ghost use Rattle.rina_wire.specs.Send.{flight_of, flights_of, frame_number, launched, mate, passed_at, sent_from};

use super::Wire;
use super::storm::{next_fate, same_draws};
use crate::flight::Flight;
use rand_pcg::Lcg64Xsh32;
use rina_base::{Bytes, Memory, Num, Tick};
use rina_draws::Fate;
use rina_iface::Entry;
use std::alloc::Global;

/// The place of the other end of a flow.
pub fn mate(place: usize) -> usize
    requires { place < 2 ^ 63 }
    ensures { result ≡ mate place }
{
    if place % 2 == 0 { place + 1 } else { place - 1 }
}

/// The number of a frame.
pub fn frame_number(frame: u64) -> Num
    ensures { result ≡ frame_number frame }
{
    Num { cep: 0, seq: frame }
}

/// The copies of a frame, as they are put in flight.
#[derive(Drop)]
enum Copies {
    Lost,
    Once(Flight),
    Twice(Flight, Flight),
}

/// Puts copies in flight.
#[tactic(auto, unfolding(crate::specs::Copies::listed))]
fn add_copies(flights: &mut Vec<Flight>, copies: Copies) -> Result<(), Memory>
    ensures ok { OnOk result (flights.new.items ≡ flights.old.items ++ listed copies) }
    ensures err { OnErr result (flights.new.items ≡ flights.old.items) }
{
    match copies {
        Copies::Lost => Ok(()),
        Copies::Once(flight) => add_copy(flights, flight),
        Copies::Twice(flight, copy) => {
            add_copy(flights, flight)?;
            if flights.push(copy).is_err() {
                let _ = flights.pop();
                return Err(Memory);
            }
            Ok(())
        }
    }
}

/// Puts a copy in flight.
fn add_copy(flights: &mut Vec<Flight>, flight: Flight) -> Result<(), Memory>
    ensures ok { OnOk result (flights.new.items ≡ flights.old.items ++ flight ∷ []) }
    ensures err { OnErr result (flights.new.items ≡ flights.old.items) }
{
    if flights.push(flight).is_err() {
        return Err(Memory);
    }
    Ok(())
}

/// What an end notes of a frame.
fn entry(alloc: Global, clock: Tick, frame: u64, sdu: &[u8]) -> Result<Entry, Memory>
    ensures { IfOk result (λ e. e ≡ record { tick = clock; num = frame_number frame; bytes = sdu.now }) }
{
    Ok(Entry {
        tick: clock,
        num: frame_number(frame),
        bytes: Bytes::copy_of(alloc, sdu)?,
    })
}

impl Wire {
    /// A copy of the next frame, from the end at this place, which arrives so many ticks after the wire's delay.
    fn flight_of(
        &self,
        alloc: Global,
        clock: Tick,
        place: usize,
        sdu: &[u8],
        late: u32,
    ) -> Result<Flight, Memory>
        requires place { place < 2 ^ 63 }
        requires clock { clock + (self.now.delay + late) < 2 ^ 32 }
        ensures { IfOk result (λ f. f ≡ flight_of clock sdu.now self.now place late) }
    {
        Ok(Flight {
            to: mate(place),
            frame: self.frames,
            sent: clock,
            due: clock + (self.delay + late),
            bytes: Bytes::copy_of(alloc, sdu)?,
        })
    }

    /// The copies of the next frame, from the end at this place.
    #[tactic(auto, unfolding(crate::specs::Copies::listed, crate::specs::Send::flights_of))]
    fn copies_of(
        &self,
        alloc: Global,
        clock: Tick,
        place: usize,
        sdu: &[u8],
        fate: Fate,
    ) -> Result<Copies, Memory>
        requires place { place < 2 ^ 63 }
        requires clock { clock + (self.now.delay + spread_of self.now.storm) < 2 ^ 32 }
        requires fate { IsWithin (spread_of self.now.storm) fate }
        ensures { IfOk result (λ c. listed c ≡ flights_of clock sdu.now self.now place fate) }
    {
        match fate {
            Fate::Lost => Ok(Copies::Lost),
            Fate::Sent { late, copy: None } => {
                let flight = self.flight_of(alloc, clock, place, sdu, late)?;
                Ok(Copies::Once(flight))
            }
            Fate::Sent {
                late,
                copy: Some(again),
            } => {
                let flight = self.flight_of(alloc, clock, place, sdu, late)?;
                let copy = self.flight_of(alloc, clock, place, sdu, again)?;
                Ok(Copies::Twice(flight, copy))
            }
        }
    }

    /// Puts the copies of the next frame in flight, notes the frame at the end that sent it, and lets the generator
    /// go on.
    #[tactic(auto, using(crate::proofs::Seams::taken_back))]
    fn launch(
        &mut self,
        place: usize,
        copies: Copies,
        entry: Entry,
        draws: Lcg64Xsh32,
    ) -> Result<(), Memory>
        requires place { place < length self.old.ends }
        requires frames { self.old.frames < 2 ^ 63 }
        ensures ok { OnOk result ((e : End) → slice_get self.old.ends place ≡ Some e → self.new ≡ launched self.old place e (listed copies) entry draws) }
        ensures err { OnErr result (self.new ≡ self.old) }
    {
        let before = self.flights.len();
        add_copies(&mut self.flights, copies)?;
        if self.journal.ends.note_sent(place, entry).is_err() {
            self.flights.truncate(before);
            return Err(Memory);
        }
        self.frames += 1;
        self.draws = draws;
        Ok(())
    }

    /// Sends a frame from the end at this place. Its fate is drawn first; where an allocation fails, nothing was
    /// drawn.
    pub fn send(
        &mut self,
        alloc: Global,
        clock: Tick,
        place: usize,
        sdu: &[u8],
    ) -> Result<(), Memory>
        requires place { place < length self.old.ends }
        requires bound { place < 2 ^ 63 }
        requires frames { self.old.frames < 2 ^ 63 }
        requires clock { clock + (self.old.delay + spread_of self.old.storm) + 1 < 2 ^ 32 }
        ensures ok { OnOk result ((e : End) → slice_get self.old.ends place ≡ Some e → self.new ≡ sent_from clock sdu.now self.old place e) }
        ensures err { OnErr result (self.new ≡ self.old) }
    {
        let mut draws = same_draws(&self.draws)?;
        let fate = next_fate(self.storm, &mut draws);
        let copies = self.copies_of(alloc, clock, place, sdu, fate)?;
        let entry = entry(alloc, clock, self.frames, sdu)?;
        self.launch(place, copies, entry, draws)
    }

    /// Marks the oldest entry of the end at this place as passed.
    pub fn pass(&mut self, place: usize)
        requires within { place < length self.old.ends }
        requires waits { (e : End) → slice_get self.old.ends place ≡ Some e → e.taken < length e.got }
        ensures { (e : End) → slice_get self.old.ends place ≡ Some e → self.new ≡ passed_at self.old place e }
    {
        self.journal.ends.pass(place);
    }
}
