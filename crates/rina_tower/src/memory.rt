//! Whether an allocation has failed at any rank.
ghost use Rattle.std.specs.Prelude.{◌≡◌, true};
ghost use Rattle.rina_tower.specs.MemoryFailure.{Fails, has_failed};
ghost use Rattle.rina_tower.specs.Rounds.{Follows};
ghost use Rattle.rina_tower.specs.Stands.{IsTower};

use crate::tower::Tower;
use rina_base::Memory;

impl Tower {
    /// Whether an allocation has failed, at the wires or at a DIF of any rank. Each call that allocates then fails with
    /// `Memory` and changes nothing.
    pub fn has_failed(&self) -> bool
        ensures { result ≡ has_failed self.now }
    {
        match self {
            Tower::Wires(wires) => wires.has_failed(),
            Tower::Rank(rank) => rank.difs.have_failed() || rank.below.has_failed(),
        }
    }

    /// Remembers at the wires that an allocation of the tower itself has failed, and answers `Memory`.
    pub(crate) fn remember_memory_failure(&mut self) -> Memory
        requires { IsTower self.old }
        ensures follows { Follows self.old self.new }
        ensures does { Fails self.old self.new }
        ensures failed { has_failed self.new ≡ true }
    {
        match self {
            Tower::Wires(wires) => {
                wires.remember_memory_failure();
                Memory
            }
            Tower::Rank(rank) => rank.below.remember_memory_failure(),
        }
    }
}
