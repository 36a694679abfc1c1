//! What leaves a DIF on its links.
ghost use Rattle.std.specs.Prelude.{◌≡◌, ◌<◌, List, length, map, true, false, ◌↔◌, Err, Some};
ghost use Rattle.rina_iface.specs.Later.{IsLater};
ghost use Rattle.rina_iface.specs.Send.{SendsAsSeen};
ghost use Rattle.rina_law.specs.Direction.{Direction};
ghost use Rattle.rina_policy.specs.Slots.{Slot};
ghost use Rattle.rina_dif_law.specs.Outgoing.{Outs};
ghost use Rattle.rina_dif_law.specs.Upward.{IsSilent};
ghost use Rattle.rina_data.specs.declared.step.StepError.TheVariants.{Memory};
ghost use Rattle.rina_data.specs.Configs.{config_of};
ghost use Rattle.rina_data.specs.Lower.{SendsBelow};
ghost use Rattle.rina_data.specs.Outgoing.{IsHeld};
ghost use Rattle.rina_dif.specs.Elsewhere.{ChangesProcess, home_of};
ghost use Rattle.rina_dif.specs.Facade.{GoesOn, OthersStand};
ghost use Rattle.rina_dif.specs.Holding.{Holds, Stands};
ghost use Rattle.rina_dif.specs.Shown.{seen_of};
ghost use Rattle.rina_dif.specs.Steps.{AsksAt, AsksHome, OutsAt};

use crate::dif::Dif;
use rina_base::Node;
use rina_data::{OutStep, StepError};
use rina_iface::Facility;
use rina_policy::Picks;
use std::alloc::Global;

impl Dif {
    /// Takes a step of the IPC process at a place.
    fn out_step_at<F: Facility, S: Picks>(
        &mut self,
        alloc: Global,
        below: &mut F,
        shelf: &mut S,
        at: usize,
        link: u16,
    ) -> Result<OutStep, StepError>
        requires valid { F.valid below.old }
        requires stands { Stands self.old (F.seen below.old) }
        requires at { at < length self.old.settings.members }
        ensures valid { F.valid below.new }
        ensures below { F.same_below below.old below.new }
        ensures later { IsLater (F.seen below.old) (F.seen below.new) }
        ensures does { Outs (F.refuses_send below.old) (seen_of self.old) (F.seen below.old) at link result (seen_of self.new) (F.seen below.new) }
        ensures lower { SendsBelow (below.new ≡ below.old) (SendsAsSeen F.seen F.refuses_send F.does_send below.old below.new) result }
        ensures keeps { (lines : List Direction) → Holds self.old lines (F.seen below.old) → Holds self.new lines (F.seen below.new) }
        ensures shelf { AsksAt (S.may_answer shelf.old self.old.settings.policy) (IsHeld (F.refuses_send below.old) (config_of self.old.settings) self.old.clock (F.seen below.old) link) self.old.settings link at (S.slots shelf.old) (S.slots shelf.new) self.old.processes result self.new.processes }
        ensures names { map (λ (x : Slot). x.name) (S.slots shelf.new) ≡ map (λ (x : Slot). x.name) (S.slots shelf.old) }
        ensures settings { self.new.settings ≡ self.old.settings }
        ensures laid { self.new.laid ≡ self.old.laid }
        ensures whole { self.new ≡ record self.old { processes = self.new.processes } }
        ensures leaves { ChangesProcess (Some at) self.old.processes self.new.processes }
        ensures failed { self.new.failed ≡ self.old.failed }
    {
        self.processes
            .out_step(alloc, below, shelf, &self.settings, at, self.clock, link)
    }

    /// Takes one step of the IPC process at a node at a link: the PDU that the policy picks of those that wait is sent
    /// below with what is left of its lifetime, or written off, or stays first.
    pub fn out_step<F: Facility, S: Picks>(
        &mut self,
        alloc: Global,
        below: &mut F,
        shelf: &mut S,
        node: Node,
        link: u16,
    ) -> Result<OutStep, StepError>
        requires valid { F.valid below.old }
        requires stands { Stands self.old (F.seen below.old) }
        ensures valid { F.valid below.new }
        ensures below { F.same_below below.old below.new }
        ensures later { IsLater (F.seen below.old) (F.seen below.new) }
        ensures does { OutsAt (F.refuses_send below.old) (seen_of self.old) (F.seen below.old) node link result (seen_of self.new) (F.seen below.new) }
        ensures lower { SendsBelow (below.new ≡ below.old) (SendsAsSeen F.seen F.refuses_send F.does_send below.old below.new) result }
        ensures keeps { (lines : List Direction) → Holds self.old lines (F.seen below.old) → Holds self.new lines (F.seen below.new) }
        ensures goes_on { GoesOn self.old self.new }
        ensures silent { IsSilent (seen_of self.old) (seen_of self.new) }
        ensures others { OthersStand self.old (F.seen below.old) (F.seen below.new) }
        ensures settings { self.new.settings ≡ self.old.settings }
        ensures laid { self.new.laid ≡ self.old.laid }
        ensures whole { self.new ≡ record self.old { processes = self.new.processes; failed = self.new.failed } }
        ensures leaves { ChangesProcess (home_of self.old node) self.old.processes self.new.processes }
        ensures shelf { self.old.failed ≡ false → AsksHome (S.may_answer shelf.old self.old.settings.policy) (IsHeld (F.refuses_send below.old) (config_of self.old.settings) self.old.clock (F.seen below.old) link) self.old.settings node link (S.slots shelf.old) (S.slots shelf.new) self.old.processes result self.new.processes }
        ensures names { map (λ (x : Slot). x.name) (S.slots shelf.new) ≡ map (λ (x : Slot). x.name) (S.slots shelf.old) }
        ensures failed { self.old.failed ≡ true → result ≡ Err Memory }
        ensures fails { self.new.failed ≡ true ↔ (result ≡ Err Memory) }
    {
        if self.failed {
            return Err(StepError::Memory);
        }
        let Some(at) = self.place_at_node(node) else {
            return Err(StepError::NoIpc);
        };
        let step = self.out_step_at(alloc, below, shelf, at, link);
        Dif::remember_memory_failure(&mut self.failed, step)
    }
}
