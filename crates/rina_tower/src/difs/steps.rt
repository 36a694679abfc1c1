//! The steps of the DIFs of a rank, over any facility below.
ghost use Rattle.std.specs.Prelude.{◌≡◌, map, true, Some, Err};
ghost use Rattle.rina_iface.specs.Free.{FreesAsSeen};
ghost use Rattle.rina_iface.specs.Pass.{PassesAsSeen};
ghost use Rattle.rina_iface.specs.Send.{SendsAsSeen};
ghost use Rattle.rina_policy.specs.Slots.{Slot};
ghost use Rattle.rina_data.specs.declared.step.StepError.TheVariants.{Memory, NoIpc};
ghost use Rattle.rina_data.specs.Lower.{PassesBelow, SendsBelow};
ghost use Rattle.rina_dif.specs.Lower.{ClocksBelow};
ghost use Rattle.rina_tower.specs.Bystanders.{Anyone, LeavesNow};
ghost use Rattle.rina_tower.specs.MemoryFailure.{have_failed};
ghost use Rattle.rina_tower.specs.Ranks.{seen_of_difs};
ghost use Rattle.rina_tower.specs.Stands.{AreStanding};
ghost use Rattle.rina_tower.specs.Steps.{ClocksOne, SendsOne, TakesOne, claimant};
ghost use Rattle.rina_tower.specs.Levels.{AtDif};

use super::Difs;
use rina_base::Node;
use rina_data::{ClockStep, InStep, OutStep, StepError};
use rina_iface::Facility;
use rina_policy::Picks;
use std::alloc::Global;

impl Difs {
    /// Takes the in-step of one DIF, where there is one of that number.
    fn dif_in_step<F: Facility>(
        &mut self,
        alloc: Global,
        below: &mut F,
        dif: u16,
        node: Node,
        link: u16,
    ) -> Result<InStep, StepError>
        requires valid { F.valid below.old }
        requires stand { AreStanding self.old (F.seen below.old) }
        ensures valid { F.valid below.new }
        ensures below { F.same_below below.old below.new }
        ensures does { AtDif dif (TakesOne (F.seen below.old) node link result (F.seen below.new)) ((result ≡ Err NoIpc) × (below.new ≡ below.old)) self.old self.new }
        ensures lower { PassesBelow (below.new ≡ below.old) (PassesAsSeen F.seen F.does_pass below.old below.new) result }
        ensures fails { result ≡ Err Memory → have_failed self.new ≡ true }
    {
        let Some(_dif) = self.get(dif) else {
            return Err(StepError::NoIpc);
        };
        let one = &mut self.items[dif as usize];
        one.in_step(alloc, below, node, link)
    }

    /// Takes one step at a link of the IPC process at a node of a DIF: the oldest SDU that waits there is taken.
    pub fn in_step<F: Facility>(
        &mut self,
        alloc: Global,
        below: &mut F,
        dif: u16,
        node: Node,
        link: u16,
    ) -> Result<InStep, StepError>
        requires valid { F.valid below.old }
        requires stand { AreStanding self.old (F.seen below.old) }
        ensures valid { F.valid below.new }
        ensures below { F.same_below below.old below.new }
        ensures does { AtDif dif (TakesOne (F.seen below.old) node link result (F.seen below.new)) ((result ≡ Err NoIpc) × (below.new ≡ below.old)) self.old self.new }
        ensures lower { PassesBelow (below.new ≡ below.old) (PassesAsSeen F.seen F.does_pass below.old below.new) result }
        ensures fails { result ≡ Err Memory → have_failed self.new ≡ true }
        ensures stand { AreStanding self.new (F.seen below.new) }
        ensures clock { (F.seen below.new).now ≡ (F.seen below.old).now }
        ensures quiet { LeavesNow Anyone (seen_of_difs (F.seen below.old).now self.old) (seen_of_difs (F.seen below.old).now self.new) }
    {
        self.dif_in_step(alloc, below, dif, node, link)
    }

    /// Takes the out-step of one DIF, where there is one of that number.
    fn dif_out_step<F: Facility, S: Picks>(
        &mut self,
        alloc: Global,
        below: &mut F,
        shelf: &mut S,
        dif: u16,
        node: Node,
        link: u16,
    ) -> Result<OutStep, StepError>
        requires valid { F.valid below.old }
        requires stand { AreStanding self.old (F.seen below.old) }
        ensures valid { F.valid below.new }
        ensures below { F.same_below below.old below.new }
        ensures does { AtDif dif (SendsOne (F.refuses_send below.old) (S.may_answer shelf.old) (S.slots shelf.old) (S.slots shelf.new) (F.seen below.old) node link result (F.seen below.new)) ((result ≡ Err NoIpc) × (S.slots shelf.new ≡ S.slots shelf.old) × (below.new ≡ below.old)) self.old self.new }
        ensures lower { SendsBelow (below.new ≡ below.old) (SendsAsSeen F.seen F.refuses_send F.does_send below.old below.new) result }
        ensures fails { result ≡ Err Memory → have_failed self.new ≡ true }
        ensures names { map (λ (x : Slot). x.name) (S.slots shelf.new) ≡ map (λ (x : Slot). x.name) (S.slots shelf.old) }
    {
        let Some(_dif) = self.get(dif) else {
            return Err(StepError::NoIpc);
        };
        let one = &mut self.items[dif as usize];
        one.out_step(alloc, below, shelf, node, link)
    }

    /// Takes one step at a link of the IPC process at a node of a DIF: the PDU that the policy picks of those that wait
    /// is sent below, or written off, or stays.
    pub fn out_step<F: Facility, S: Picks>(
        &mut self,
        alloc: Global,
        below: &mut F,
        shelf: &mut S,
        dif: u16,
        node: Node,
        link: u16,
    ) -> Result<OutStep, StepError>
        requires valid { F.valid below.old }
        requires stand { AreStanding self.old (F.seen below.old) }
        ensures valid { F.valid below.new }
        ensures below { F.same_below below.old below.new }
        ensures does { AtDif dif (SendsOne (F.refuses_send below.old) (S.may_answer shelf.old) (S.slots shelf.old) (S.slots shelf.new) (F.seen below.old) node link result (F.seen below.new)) ((result ≡ Err NoIpc) × (S.slots shelf.new ≡ S.slots shelf.old) × (below.new ≡ below.old)) self.old self.new }
        ensures lower { SendsBelow (below.new ≡ below.old) (SendsAsSeen F.seen F.refuses_send F.does_send below.old below.new) result }
        ensures fails { result ≡ Err Memory → have_failed self.new ≡ true }
        ensures stand { AreStanding self.new (F.seen below.new) }
        ensures clock { (F.seen below.new).now ≡ (F.seen below.old).now }
        ensures quiet { LeavesNow Anyone (seen_of_difs (F.seen below.old).now self.old) (seen_of_difs (F.seen below.old).now self.new) }
        ensures names { map (λ (x : Slot). x.name) (S.slots shelf.new) ≡ map (λ (x : Slot). x.name) (S.slots shelf.old) }
    {
        self.dif_out_step(alloc, below, shelf, dif, node, link)
    }

    /// Takes the clock step of one DIF, where there is one of that number.
    fn dif_clock_step<F: Facility>(
        &mut self,
        alloc: Global,
        below: &mut F,
        dif: u16,
        node: Node,
    ) -> Result<ClockStep, StepError>
        requires valid { F.valid below.old }
        requires stand { AreStanding self.old (F.seen below.old) }
        ensures valid { F.valid below.new }
        ensures below { F.same_below below.old below.new }
        ensures does { AtDif dif (ClocksOne (F.seen below.old) node result (F.seen below.new)) ((result ≡ Err NoIpc) × (below.new ≡ below.old)) self.old self.new }
        ensures lower { ClocksBelow (λ x fac answer y. F.does_incoming x fac node (claimant self.old dif node) answer y) (FreesAsSeen F.seen F.frees_both F.does_free) below.old result below.new }
        ensures fails { result ≡ Err Memory → have_failed self.new ≡ true }
    {
        let Some(_dif) = self.get(dif) else {
            return Err(StepError::NoIpc);
        };
        let one = &mut self.items[dif as usize];
        one.clock_step(alloc, below, node)
    }

    /// Takes one step of the IPC process at a node of a DIF by the clock: the first thing that is due is done.
    pub fn clock_step<F: Facility>(
        &mut self,
        alloc: Global,
        below: &mut F,
        dif: u16,
        node: Node,
    ) -> Result<ClockStep, StepError>
        requires valid { F.valid below.old }
        requires stand { AreStanding self.old (F.seen below.old) }
        ensures valid { F.valid below.new }
        ensures below { F.same_below below.old below.new }
        ensures does { AtDif dif (ClocksOne (F.seen below.old) node result (F.seen below.new)) ((result ≡ Err NoIpc) × (below.new ≡ below.old)) self.old self.new }
        ensures lower { ClocksBelow (λ x fac answer y. F.does_incoming x fac node (claimant self.old dif node) answer y) (FreesAsSeen F.seen F.frees_both F.does_free) below.old result below.new }
        ensures fails { result ≡ Err Memory → have_failed self.new ≡ true }
        ensures stand { AreStanding self.new (F.seen below.new) }
        ensures clock { (F.seen below.new).now ≡ (F.seen below.old).now }
        ensures quiet { LeavesNow Anyone (seen_of_difs (F.seen below.old).now self.old) (seen_of_difs (F.seen below.old).now self.new) }
    {
        self.dif_clock_step(alloc, below, dif, node)
    }
}
