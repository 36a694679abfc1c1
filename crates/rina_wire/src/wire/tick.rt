//! One tick of a wire.
ghost use Rattle.std.specs.Prelude.{◌≡◌, [], OnOk, OnErr};
ghost use Rattle.rina_wire.specs.Tick.{IsPart, arrived, line_ticked, looked};

use super::Wire;
use super::frame::frame_number;
use crate::flight::Flight;
use rina_base::{Memory, Tick};
use rina_iface::{Entry, PortState};
use std::alloc::Global;

impl Wire {
    /// Delivers a copy, where its end is there and allocated.
    fn arrive(&mut self, clock: Tick, flight: Flight) -> Result<(), Memory>
        ensures ok { OnOk result (self.new ≡ arrived clock self.old flight) }
        ensures err { OnErr result (self.new ≡ self.old) }
    {
        let Some(end) = self.journal.ends.get(flight.to) else {
            return Ok(());
        };
        if !matches!(end.state, PortState::Allocated) {
            return Ok(());
        }
        let entry = Entry {
            tick: clock,
            num: frame_number(flight.frame),
            bytes: flight.bytes,
        };
        if self.journal.ends.note_got(flight.to, entry).is_err() {
            return Err(Memory);
        }
        Ok(())
    }

    /// Delivers a copy that is due; another stays in flight.
    fn look_at(&mut self, clock: Tick, flight: Flight) -> Result<(), Memory>
        ensures ok { OnOk result (self.new ≡ looked clock self.old flight) }
        ensures err { OnErr result (self.new ≡ self.old) }
    {
        if flight.due <= clock {
            return self.arrive(clock, flight);
        }
        if self.flights.push(flight).is_err() {
            return Err(Memory);
        }
        Ok(())
    }

    /// Delivers the copies that are due, in the order in which they were made.
    fn look_at_all(&mut self, clock: Tick, flights: Vec<Flight>) -> Result<(), Memory>
        requires { self.old.flights ≡ [] }
        ensures ok { OnOk result (self.new ≡ line_ticked clock (record self.old { flights = flights.items })) }
        ensures err { OnErr result (IsPart clock (record self.old { flights = flights.items }) self.new) }
    {
        for flight in flights {
            self.look_at(clock, flight)?;
        }
        Ok(())
    }

    /// One tick.
    pub fn tick(&mut self, alloc: Global, clock: Tick) -> Result<(), Memory>
        ensures ok { OnOk result (self.new ≡ line_ticked clock self.old) }
        ensures err { OnErr result (IsPart clock self.old self.new) }
    {
        let flights = std::mem::replace(&mut self.flights, Vec::new(alloc));
        self.look_at_all(clock, flights)
    }
}
