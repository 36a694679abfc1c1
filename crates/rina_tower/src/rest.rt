//! The clock of a tower in which nothing happens.
ghost use Rattle.std.specs.Prelude.{◌+◌, ◌<◌, ◌≤◌};
ghost use Rattle.rina_tower.specs.Ranks.{now_of};
ghost use Rattle.rina_tower.specs.Resting.{IsAtTick, RestsUntil, WiresRestUntil};
ghost use Rattle.rina_tower.specs.Stands.{IsTower};

use crate::tower::{Rank, Tower};
use rina_base::Tick;
use rina_iface::Facility;

impl Tower {
    /// A tick before which nothing arrives on the wires, where it is after the clock.
    pub fn wires_rest_until(&self) -> Tick
        ensures { now_of self.now < result → WiresRestUntil result self.now }
    {
        match self {
            Tower::Wires(wires) => wires.rests_until(),
            Tower::Rank(rank) => rank.below.wires_rest_until(),
        }
    }

    /// A tick before which nothing arrives on the wires, and no round does anything, where it is after the clock. Where
    /// a frame arrives with the next tick, it is the clock, and no DIF is looked at.
    pub fn rests_until(&self) -> Tick
        requires { IsTower self.now }
        ensures { now_of self.now < result → RestsUntil result self.now }
    {
        match self {
            Tower::Wires(wires) => wires.rests_until(),
            Tower::Rank(rank) => {
                let now = rank.below.clock();
                let until = rank.below.rests_until();
                if until <= now + 1 {
                    return now;
                }
                if !rank.below.none_waits() {
                    return now;
                }
                until.min(rank.difs.rests_until(&rank.below))
            }
        }
    }

    /// Lets the clock go on to a tick before which, and at which, nothing arrives on the wires. It does what so many calls
    /// of `tick` do.
    pub fn rest_to(&mut self, now: Tick)
        requires valid { IsTower self.old }
        requires later { now_of self.old ≤ now }
        requires clock { now ≤ 10_000_000 }
        requires rests { WiresRestUntil (now + 1) self.old }
        ensures valid { IsTower self.new }
        ensures exact { IsAtTick now self.old self.new }
    {
        match self {
            Tower::Wires(wires) => wires.rest_to(now),
            Tower::Rank(rank) => {
                let rank: &mut Rank = rank;
                rank.below.rest_to(now);
                rank.difs.clock_to(now);
            }
        }
    }
}
