//! The clock of wires on which nothing arrives.
ghost use Rattle.std.specs.Prelude.{◌≡◌, ◌+◌, ◌<◌, ◌≤◌, false, true};
ghost use Rattle.rina_wire.specs.Resting.{AreQuietLines, IsLast, NoneWaits, RestsUntil, at_tick};
ghost use Rattle.rina_wire.specs.Sound.{IsSound};

use super::Wires;
use crate::wire::Wire;
use rina_base::Tick;

/// The first tick at which a copy arrives on one of the wires. `Tick::MAX` where none is in flight.
fn quiet_until(wires: &[Wire]) -> Tick
    ensures quiet { AreQuietLines result wires.now }
    ensures last { IsLast (λ until. AreQuietLines until wires.now) result }
{
    let mut until = Tick::MAX;
    for fac in 0..wires.len() {
        until = until.min(wires[fac].quiet_until());
    }
    until
}

/// Whether no far end waits at any of the wires to be claimed.
pub(super) fn none_waits(wires: &[Wire]) -> bool
    ensures { result ≡ true → NoneWaits wires.now }
{
    for fac in 0..wires.len() {
        if !wires[fac].none_waits() {
            return false;
        }
    }
    true
}

impl Wires {
    /// The first tick at which a copy arrives, where it is after the clock. `Tick::MAX` where none is in flight. Where an
    /// allocation has failed, the clock itself: no tick passes any more.
    pub fn rests_until(&self) -> Tick
        ensures rests { self.now.now < result → RestsUntil result self.now }
        // Where no allocation has failed, no later tick is one until which they rest.
        ensures last { self.now.failed ≡ false → IsLast (λ until. RestsUntil until self.now) result }
    {
        if self.failed {
            return self.clock;
        }
        quiet_until(self.wires.as_slice())
    }

    /// Lets the clock go on to a tick before which, and at which, nothing arrives: what so many calls of `tick` do.
    pub fn rest_to(&mut self, now: Tick)
        requires valid { IsSound self.old }
        requires later { self.old.now ≤ now }
        requires clock { now ≤ 10_000_000 }
        requires rests { RestsUntil (now + 1) self.old }
        ensures valid { IsSound self.new }
        ensures exact { self.new ≡ at_tick now self.old }
    {
        self.clock = now;
    }
}
