//! How IPC processes ask to enrol, at any rank.
ghost use Rattle.std.specs.Prelude.{◌≡◌, true, false, Err};
ghost use Rattle.rina_dif.specs.declared.enrol.EnrolError.TheVariants.{Memory};
ghost use Rattle.rina_tower.specs.Bystanders.{Anyone, LeavesNow};
ghost use Rattle.rina_tower.specs.Enrolling.{EnrolsAt};
ghost use Rattle.rina_tower.specs.MemoryFailure.{has_failed};
ghost use Rattle.rina_tower.specs.Ranks.{height_of, seen_of};
ghost use Rattle.rina_tower.specs.Stands.{IsTower};

use crate::tower::{Rank, Tower};
use rina_base::Node;
use rina_dif::EnrolError;
use std::alloc::Global;

impl Tower {
    /// Lets the IPC process at a node of a DIF of rank `r` ask to enrol at the member at another node, over a facility of rank `r - 1`: a
    /// wire where `r` is 1. The flow that it asks for there becomes its new link, on which CONNECT waits. `NoIpc` exactly where there is no
    /// such DIF, or it has no member at one of the nodes; the other refusals are those of the DIF. A refused call changes nothing.
    pub fn enrol(
        &mut self,
        alloc: Global,
        r: u16,
        dif: u16,
        node: Node,
        fac: u16,
        peer: Node,
    ) -> Result<(), EnrolError>
        requires { IsTower self.old }
        ensures valid { IsTower self.new }
        ensures does { has_failed self.old ≡ false → EnrolsAt r dif node fac peer result self.old self.new }
        ensures failed { has_failed self.old ≡ true → (result ≡ Err Memory) × (self.new ≡ self.old) }
        ensures fails { result ≡ Err Memory → has_failed self.new ≡ true }
        ensures quiet { LeavesNow Anyone (seen_of self.old) (seen_of self.new) }
        ensures height { height_of self.new ≡ height_of self.old }
    {
        if self.has_failed() {
            return Err(EnrolError::Memory);
        }
        self.enrol_at_rank(alloc, r, dif, node, fac, peer)
    }

    /// Walks down to rank `r` and lets its IPC process ask there.
    fn enrol_at_rank(
        &mut self,
        alloc: Global,
        r: u16,
        dif: u16,
        node: Node,
        fac: u16,
        peer: Node,
    ) -> Result<(), EnrolError>
        requires { IsTower self.old }
        ensures valid { IsTower self.new }
        ensures does { EnrolsAt r dif node fac peer result self.old self.new }
        ensures fails { result ≡ Err Memory → has_failed self.new ≡ true }
        ensures quiet { LeavesNow Anyone (seen_of self.old) (seen_of self.new) }
        ensures height { height_of self.new ≡ height_of self.old }
    {
        match self {
            Tower::Wires(_) => Err(EnrolError::NoIpc),
            Tower::Rank(rank) => {
                let rank: &mut Rank = rank;
                if r == rank.below.height() + 1 {
                    rank.difs
                        .enrol(alloc, &mut rank.below, dif, node, fac, peer)
                } else {
                    rank.below.enrol_at_rank(alloc, r, dif, node, fac, peer)
                }
            }
        }
    }
}
