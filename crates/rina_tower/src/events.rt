//! The events of a wire of a tower.
ghost use Rattle.std.specs.Prelude.{◌≡◌, true, false, Err};
ghost use Rattle.rina_wire.specs.declared.event.WireError.TheVariants.{Memory};
ghost use Rattle.rina_tower.specs.Bystanders.{Anyone, LeavesNow};
ghost use Rattle.rina_tower.specs.Events.{Cuts, HoldsBack, Loses, Mends, Repeats};
ghost use Rattle.rina_tower.specs.MemoryFailure.{has_failed};
ghost use Rattle.rina_tower.specs.Ranks.{height_of, seen_of};
ghost use Rattle.rina_tower.specs.Stands.{IsTower};

use crate::tower::{Rank, Tower};
use rina_base::Tick;
use rina_wire::WireError;
use std::alloc::Global;

impl Tower {
    /// Loses the first copy in flight of frame `k`, as `Wires::lose` does.
    pub fn lose(&mut self, wire: u16, k: u64) -> Result<(), WireError>
        requires { IsTower self.old }
        ensures valid { IsTower self.new }
        ensures does { Loses wire k result self.old self.new }
        ensures quiet { LeavesNow Anyone (seen_of self.old) (seen_of self.new) }
        ensures height { height_of self.new ≡ height_of self.old }
    {
        match self {
            Tower::Wires(wires) => wires.lose(wire, k),
            Tower::Rank(rank) => rank.below.lose(wire, k),
        }
    }

    /// Adds a copy of frame `k` that arrives at tick `at`, as `Wires::repeat` does.
    pub fn repeat(&mut self, alloc: Global, wire: u16, k: u64, at: Tick) -> Result<(), WireError>
        requires { IsTower self.old }
        ensures valid { IsTower self.new }
        ensures does { has_failed self.old ≡ false → Repeats wire k at result self.old self.new }
        ensures failed { has_failed self.old ≡ true → (result ≡ Err Memory) × (self.new ≡ self.old) }
        ensures fails { result ≡ Err Memory → has_failed self.new ≡ true }
        ensures quiet { LeavesNow Anyone (seen_of self.old) (seen_of self.new) }
        ensures height { height_of self.new ≡ height_of self.old }
    {
        if self.has_failed() {
            return Err(WireError::Memory);
        }
        self.repeat_on_wires(alloc, wire, k, at)
    }

    /// Walks down to the wires and adds the copy there.
    fn repeat_on_wires(
        &mut self,
        alloc: Global,
        wire: u16,
        k: u64,
        at: Tick,
    ) -> Result<(), WireError>
        requires { IsTower self.old }
        ensures valid { IsTower self.new }
        ensures does { Repeats wire k at result self.old self.new }
        ensures fails { result ≡ Err Memory → has_failed self.new ≡ true }
        ensures quiet { LeavesNow Anyone (seen_of self.old) (seen_of self.new) }
        ensures height { height_of self.new ≡ height_of self.old }
    {
        match self {
            Tower::Wires(wires) => wires.repeat(alloc, wire, k, at),
            Tower::Rank(rank) => rank.below.repeat_on_wires(alloc, wire, k, at),
        }
    }

    /// Lets the first copy in flight of frame `k` arrive at tick `at` instead, as `Wires::hold` does.
    pub fn hold(&mut self, wire: u16, k: u64, at: Tick) -> Result<(), WireError>
        requires { IsTower self.old }
        ensures valid { IsTower self.new }
        ensures does { HoldsBack wire k at result self.old self.new }
        ensures quiet { LeavesNow Anyone (seen_of self.old) (seen_of self.new) }
        ensures height { height_of self.new ≡ height_of self.old }
    {
        match self {
            Tower::Wires(wires) => wires.hold(wire, k, at),
            Tower::Rank(rank) => rank.below.hold(wire, k, at),
        }
    }

    /// Cuts a wire, as `Wires::cut` does.
    pub fn cut(&mut self, wire: u16) -> Result<(), WireError>
        requires { IsTower self.old }
        ensures valid { IsTower self.new }
        ensures does { Cuts wire result self.old self.new }
        ensures quiet { LeavesNow Anyone (seen_of self.old) (seen_of self.new) }
        ensures height { height_of self.new ≡ height_of self.old }
    {
        match self {
            Tower::Wires(wires) => wires.cut(wire),
            Tower::Rank(rank) => rank.below.cut(wire),
        }
    }

    /// Mends a wire, as `Wires::mend` does.
    pub fn mend(&mut self, wire: u16) -> Result<(), WireError>
        requires { IsTower self.old }
        ensures valid { IsTower self.new }
        ensures does { Mends wire result self.old self.new }
        ensures quiet { LeavesNow Anyone (seen_of self.old) (seen_of self.new) }
        ensures height { height_of self.new ≡ height_of self.old }
    {
        match self {
            Tower::Wires(wires) => wires.mend(wire),
            Tower::Rank(rank) => rank.below.mend(wire),
        }
    }
}
