//! Events that disturb the copies of a frame in flight.
ghost use Rattle.std.specs.Prelude.{◌≡◌, ◌+◌, ◌<◌, length, OnOk, OnErr, IfSome, IfOk, MatchOption, Some, None};
ghost use Rattle.rina_wire.specs.Disturb.{copy_place, due_at, first_copy, held, lost, repeated};

use super::Wire;
use crate::flight::Flight;
use rina_base::{Bytes, Memory, Tick};
use std::alloc::Global;

/// A copy like another one, which arrives at a tick.
fn copy_of(alloc: Global, flight: &Flight, at: Tick) -> Result<Flight, Memory>
    ensures { IfOk result (λ f. f ≡ due_at at flight.now) }
{
    Ok(Flight {
        to: flight.to,
        frame: flight.frame,
        sent: flight.sent,
        due: at,
        bytes: Bytes::copy_of(alloc, flight.bytes.as_slice())?,
    })
}

impl Wire {
    /// Where the first copy in flight of a frame stands.
    fn copy_place(&self, frame: u64) -> Option<usize>
        ensures at { result ≡ copy_place frame self.now.flights }
        ensures within { IfSome result (λ i. i < length self.now.flights) }
    {
        self.flights.iter().position(|flight| flight.frame == frame)
    }

    /// The first copy in flight of a frame.
    pub fn first_copy(&self, frame: u64) -> Option<&Flight>
        ensures { MatchOption result (first_copy frame self.now.flights ≡ None) (λ f. first_copy frame self.now.flights ≡ Some f.now) }
    {
        let place = self.copy_place(frame)?;
        self.flights.get(place)
    }

    /// The last tick at which a copy can arrive.
    pub fn last_tick(&self, flight: &Flight) -> u64
        ensures { result ≡ flight.now.sent + self.now.life }
    {
        u64::from(flight.sent) + u64::from(self.life)
    }

    /// Drops the first copy of a frame.
    pub fn lose(&mut self, frame: u64)
        ensures { self.new ≡ lost frame self.old }
    {
        if let Some(place) = self.copy_place(frame) {
            let _ = self.flights.remove(place);
        }
    }

    /// Lets the first copy of a frame arrive at another tick.
    pub fn hold(&mut self, frame: u64, at: Tick)
        ensures { self.new ≡ held frame at self.old }
    {
        if let Some(place) = self.copy_place(frame) {
            let flight = &mut self.flights[place];
            flight.due = at;
        }
    }

    /// Adds a copy of a frame, which arrives at a tick.
    pub fn repeat(&mut self, alloc: Global, frame: u64, at: Tick) -> Result<(), Memory>
        ensures ok { OnOk result (self.new ≡ repeated frame at self.old) }
        ensures err { OnErr result (self.new ≡ self.old) }
    {
        let Some(flight) = self.first_copy(frame) else {
            return Ok(());
        };
        let copy = copy_of(alloc, flight, at)?;
        if self.flights.push(copy).is_err() {
            return Err(Memory);
        }
        Ok(())
    }
}
