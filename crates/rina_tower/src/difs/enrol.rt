//! How an IPC process of a DIF of a rank asks to enrol at a member, over any facility below.
ghost use Rattle.std.specs.Prelude.{◌≡◌, slice_get, true, Err};
ghost use Rattle.rina_dif.specs.declared.enrol.EnrolError.TheVariants.{Memory, NoIpc};
ghost use Rattle.rina_dif.specs.Enrolling.{AllocatesAsSeen};
ghost use Rattle.rina_tower.specs.Bystanders.{Anyone, LeavesNow};
ghost use Rattle.rina_tower.specs.Enrolling.{AsksBelow, EnrolsOne};
ghost use Rattle.rina_tower.specs.MemoryFailure.{have_failed};
ghost use Rattle.rina_tower.specs.Ranks.{seen_of_difs};
ghost use Rattle.rina_tower.specs.Stands.{AreStanding};
ghost use Rattle.rina_tower.specs.Levels.{AtDif};

use super::Difs;
use rina_base::Node;
use rina_dif::EnrolError;
use rina_iface::Facility;
use std::alloc::Global;

impl Difs {
    /// Lets an IPC process of one DIF ask to enrol, where there is one of that number.
    fn dif_enrol<F: Facility>(
        &mut self,
        alloc: Global,
        below: &mut F,
        dif: u16,
        node: Node,
        fac: u16,
        peer: Node,
    ) -> Result<(), EnrolError>
        requires valid { F.valid below.old }
        requires stand { AreStanding self.old (F.seen below.old) }
        ensures valid { F.valid below.new }
        ensures below { F.same_below below.old below.new }
        ensures does { AtDif dif (EnrolsOne (F.refuses_allocate below.old) (F.seen below.old) node fac peer result (F.seen below.new)) ((result ≡ Err NoIpc) × (below.new ≡ below.old)) self.old self.new }
        ensures lower { AsksBelow (below.new ≡ below.old) (AllocatesAsSeen F.seen F.refuses_allocate F.does_allocate below.old below.new) (slice_get self.old dif) node fac peer result }
        ensures fails { result ≡ Err Memory → have_failed self.new ≡ true }
    {
        let Some(_dif) = self.get(dif) else {
            return Err(EnrolError::NoIpc);
        };
        let one = &mut self.items[dif as usize];
        one.enrol(alloc, below, node, fac, peer)
    }

    /// Lets the IPC process at a node of a DIF ask to enrol at the member at another, over a facility below.
    pub fn enrol<F: Facility>(
        &mut self,
        alloc: Global,
        below: &mut F,
        dif: u16,
        node: Node,
        fac: u16,
        peer: Node,
    ) -> Result<(), EnrolError>
        requires valid { F.valid below.old }
        requires stand { AreStanding self.old (F.seen below.old) }
        ensures valid { F.valid below.new }
        ensures below { F.same_below below.old below.new }
        ensures does { AtDif dif (EnrolsOne (F.refuses_allocate below.old) (F.seen below.old) node fac peer result (F.seen below.new)) ((result ≡ Err NoIpc) × (below.new ≡ below.old)) self.old self.new }
        ensures lower { AsksBelow (below.new ≡ below.old) (AllocatesAsSeen F.seen F.refuses_allocate F.does_allocate below.old below.new) (slice_get self.old dif) node fac peer result }
        ensures fails { result ≡ Err Memory → have_failed self.new ≡ true }
        ensures stand { AreStanding self.new (F.seen below.new) }
        ensures clock { (F.seen below.new).now ≡ (F.seen below.old).now }
        ensures quiet { LeavesNow Anyone (seen_of_difs (F.seen below.old).now self.old) (seen_of_difs (F.seen below.old).now self.new) }
    {
        self.dif_enrol(alloc, below, dif, node, fac, peer)
    }
}
