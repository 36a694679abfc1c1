//! What the management connections of links do by the clock.
ghost use Rattle.std.specs.Prelude.{◌≡◌, ◌<◌, ◌≤◌, Err, IfOk, IsSome, List, Ok, OnErr, OnOk, length};
ghost use Rattle.rina_base.specs.declared.number.Port.{Port};
ghost use Rattle.rina_iface.specs.declared.error.FreeError.TheVariants as free;
ghost use Rattle.rina_iface.specs.Free.{FreesAsSeen};
ghost use Rattle.rina_iface.specs.Later.{IsLater};
ghost use Rattle.rina_iface.specs.Seen.{Seen, end_of};
ghost use Rattle.rina_law.specs.Direction.{Direction};
ghost use Rattle.rina_flows.specs.declared.due.Item.TheVariants.{Ack as AckDue, Again as AgainDue, GiveUp as GiveUpDue, Gone as GoneDue};
ghost use Rattle.rina_dif.specs.Elsewhere.{ChangesProcess};
ghost use Rattle.rina_dif.specs.Holding.{Holds, LinksStand, Stands};
ghost use Rattle.rina_dif.specs.LinkDue.{IsLinkDue};
ghost use Rattle.rina_dif.specs.LinkSteps.{AcknowledgesLink, ForgetsLink, GivesUpLink, ResendsLink, ServesAs};
ghost use Rattle.rina_dif.specs.Shown.{seen_of};

use crate::dif::Dif;
use crate::due::{ack_pdu, lend};
use crate::links_due::LinkTurn;
use rina_base::{Memory, Num, Port};
use rina_channel::named;
use rina_data::HopView;
use rina_iface::{Facility, FreeError};
use std::alloc::Global;

/// Frees a flow below, whose port was drawn. Without memory nothing changes.
fn free_below<F: Facility>(alloc: Global, below: &mut F, port: Port) -> Result<(), Memory>
    requires valid { F.valid below.old }
    requires there { IsSome (end_of (F.seen below.old) port) }
    ensures valid { F.valid below.new }
    ensures below { F.same_below below.old below.new }
    ensures later { IsLater (F.seen below.old) (F.seen below.new) }
    ensures frees { OnOk result (FreesAsSeen F.seen F.frees_both F.does_free below.old below.new port (Ok tt)) }
    ensures fails { OnErr result (FreesAsSeen F.seen F.frees_both F.does_free below.old below.new port (Err free.Memory)) }
{
    match below.free(alloc, port) {
        Ok(()) => Ok(()),
        Err(FreeError::Memory) => Err(Memory),
        Err(FreeError::NoPort) => unreachable!(),
    }
}

impl Dif {
    /// Gives up the number that is due so at a management connection, and answers it: the flow below of its link is freed, so that
    /// the link is lost in a later step. The DIF stays as it is. Without memory nothing changes.
    pub(crate) fn give_up_link<F: Facility>(
        &self,
        alloc: Global,
        below: &mut F,
        at: usize,
        turn: LinkTurn,
    ) -> Result<Num, Memory>
        requires valid { F.valid below.old }
        requires stands { Stands self.now (F.seen below.old) }
        requires due { (lower : Seen) (links : LinksStand self.now lower) → IsLinkDue GiveUpDue self.now links.lines at turn.place turn.number }
        ensures valid { F.valid below.new }
        ensures below { F.same_below below.old below.new }
        ensures later { IsLater (F.seen below.old) (F.seen below.new) }
        ensures does { (links : LinksStand self.now (F.seen below.old)) → IfOk result (λ num. GivesUpLink self.now links.lines (F.seen below.old) turn.place num (seen_of self.now) self.now.connections.flows (F.seen below.new)) }
        ensures frees { OnOk result ((port : Port) × FreesAsSeen F.seen F.frees_both F.does_free below.old below.new port (Ok tt)) }
        ensures fails { OnErr result ((port : Port) × FreesAsSeen F.seen F.frees_both F.does_free below.old below.new port (Err free.Memory)) }
    {
        let links = &self.connections;
        let Some(told) = links.flows.conns.at(turn.place).gave_up(self.clock) else {
            unreachable!()
        };
        let Some(channel) = links.channels.get(turn.place) else {
            unreachable!()
        };
        let Some(attached) = channel.link else {
            unreachable!()
        };
        free_below(alloc, below, attached.port)?;
        Ok(Num {
            cep: 0,
            seq: told.num.seq,
        })
    }

    /// Writes off the pieces that the management connection at a place holds of a state that has ended, at its IPC process.
    /// Without memory nothing changes.
    pub(crate) fn forget_link(
        &mut self,
        alloc: Global,
        at: usize,
        turn: LinkTurn,
    ) -> Result<(), Memory>
        requires stands { (below : Seen) × Stands self.old below }
        requires at { at < length self.old.settings.members }
        requires due { (below : Seen) (links : LinksStand self.old below) → IsLinkDue GoneDue self.old links.lines at turn.place turn.number }
        ensures does { (lines : List Direction) (below : Seen) → Holds self.old lines below → ServesAs (λ done links. ForgetsLink self.old links at turn.place (seen_of self.new) self.new.connections.flows) self.old lines below result self.new }
        ensures whole { self.new ≡ record self.old { processes = self.new.processes; connections = record self.old.connections { flows = self.new.connections.flows } } }
        ensures leaves { ChangesProcess (Some at) self.old.processes self.new.processes }
    {
        let clock = self.clock;
        let links = &mut self.connections.flows;
        self.processes
            .forget_link(alloc, at, links, clock, turn.place)?;
        Ok(())
    }

    /// Makes the acknowledgement that is due at a management connection, at its IPC process. Without memory nothing changes.
    pub(crate) fn acknowledge_link(
        &mut self,
        alloc: Global,
        at: usize,
        turn: LinkTurn,
    ) -> Result<(), Memory>
        requires stands { (below : Seen) × Stands self.old below }
        requires at { at < length self.old.settings.members }
        requires due { (below : Seen) (links : LinksStand self.old below) → IsLinkDue AckDue self.old links.lines at turn.place turn.number }
        ensures does { (lines : List Direction) (below : Seen) → Holds self.old lines below → ServesAs (λ done links. AcknowledgesLink self.old links turn.place (seen_of self.new) self.new.connections.flows) self.old lines below result self.new }
        ensures whole { self.new ≡ record self.old { processes = self.new.processes; connections = record self.old.connections { flows = self.new.connections.flows } } }
        ensures leaves { ChangesProcess (Some at) self.old.processes self.new.processes }
    {
        let clock = self.clock;
        let links = &self.connections.flows;
        let Some(due) = links.ack_due(clock, turn.place) else {
            unreachable!()
        };
        let form = links.conns.at(turn.place).sending.form;
        let hop = HopView {
            left: form.cube.mpl,
            pdu: named(&ack_pdu(&form, due), 0, 0),
        };
        self.processes.post(alloc, at, turn.number, clock, &hop)?;
        self.connections.flows.acknowledged(turn.place);
        Ok(())
    }

    /// Sends the number again that is due at a management connection, at its IPC process, and answers it. Without memory nothing
    /// changes.
    pub(crate) fn resend_link(
        &mut self,
        alloc: Global,
        at: usize,
        turn: LinkTurn,
    ) -> Result<Num, Memory>
        requires stands { (below : Seen) × Stands self.old below }
        requires clock { self.old.clock ≤ 10_000_000 }
        requires at { at < length self.old.settings.members }
        requires due { (below : Seen) (links : LinksStand self.old below) → IsLinkDue AgainDue self.old links.lines at turn.place turn.number }
        ensures does { (lines : List Direction) (below : Seen) → Holds self.old lines below → ServesAs (λ num links. ResendsLink self.old links turn.place num (seen_of self.new) self.new.connections.flows) self.old lines below result self.new }
        ensures whole { self.new ≡ record self.old { processes = self.new.processes; connections = record self.old.connections { flows = self.new.connections.flows } } }
        ensures leaves { ChangesProcess (Some at) self.old.processes self.new.processes }
    {
        let clock = self.clock;
        let links = &self.connections.flows;
        let left = links.conns.at(turn.place).sending.form.cube.mpl;
        let Some(pdu) = links.again_due(clock, turn.place) else {
            unreachable!()
        };
        let num = Num {
            cep: 0,
            seq: u64::from(pdu.seq),
        };
        let hop = HopView {
            left,
            pdu: named(&lend(pdu), 0, 0),
        };
        self.processes.post(alloc, at, turn.number, clock, &hop)?;
        self.connections.flows.sent_again(clock, turn.place);
        Ok(num)
    }
}
