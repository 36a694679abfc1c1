//! The clock of a tower.
ghost use Rattle.std.specs.Prelude.{◌≡◌, true, false, Err};
ghost use Rattle.rina_wire.specs.declared.tick.TickError.TheVariants.{Memory};
ghost use Rattle.rina_tower.specs.Bystanders.{Anyone, Leaves};
ghost use Rattle.rina_tower.specs.MemoryFailure.{has_failed};
ghost use Rattle.rina_tower.specs.Ranks.{height_of, seen_of};
ghost use Rattle.rina_tower.specs.Stands.{IsTower};
ghost use Rattle.rina_tower.specs.ClockTick.{Ticks};

use crate::tower::{Rank, Tower};
use rina_wire::TickError;
use std::alloc::Global;

impl Tower {
    /// One tick: the wires tick, and the clock of every DIF goes along, whatever they answer.
    pub fn tick(&mut self, alloc: Global) -> Result<(), TickError>
        requires { IsTower self.old }
        ensures valid { IsTower self.new }
        ensures does { has_failed self.old ≡ false → Ticks result self.old self.new }
        ensures failed { has_failed self.old ≡ true → (result ≡ Err Memory) × (self.new ≡ self.old) }
        ensures fails { result ≡ Err Memory → has_failed self.new ≡ true }
        ensures quiet { Leaves Anyone (seen_of self.old) (seen_of self.new) }
        ensures height { height_of self.new ≡ height_of self.old }
    {
        if self.has_failed() {
            return Err(TickError::Memory);
        }
        self.tick_ranks(alloc)
    }

    /// Lets the wires tick, and then sets the clock of each rank, from the lowest up.
    fn tick_ranks(&mut self, alloc: Global) -> Result<(), TickError>
        requires { IsTower self.old }
        ensures valid { IsTower self.new }
        ensures does { Ticks result self.old self.new }
        ensures fails { result ≡ Err Memory → has_failed self.new ≡ true }
        ensures quiet { Leaves Anyone (seen_of self.old) (seen_of self.new) }
        ensures height { height_of self.new ≡ height_of self.old }
    {
        match self {
            Tower::Wires(wires) => wires.tick(alloc),
            Tower::Rank(rank) => {
                let rank: &mut Rank = rank;
                let result = rank.below.tick_ranks(alloc);
                let now = rank.below.clock();
                rank.difs.clock_to(now);
                result
            }
        }
    }
}
