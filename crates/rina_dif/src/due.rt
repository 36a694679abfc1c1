//! What comes with time to a DIF.
ghost use Rattle.std.specs.Prelude.{◌≡◌, ◌<◌, ◌≤◌, List, OnErr, Some, length};
ghost use Rattle.rina_base.specs.Pdus.{pdu_of};
ghost use Rattle.rina_conn.specs.Clock.{ack_of};
ghost use Rattle.rina_iface.specs.Seen.{Seen};
ghost use Rattle.rina_law.specs.Direction.{Direction};
ghost use Rattle.rina_dif_law.specs.Ids.{pdu_of_ack};
ghost use Rattle.rina_flows.specs.Tied.{ids_by};
ghost use Rattle.rina_dif.specs.FlowEnds.{FailsManaged, ManagesGiveUp};
ghost use Rattle.rina_dif.specs.Elsewhere.{ChangesOnly, WhenOk};
ghost use Rattle.rina_dif.specs.Holding.{Holds, Stands};
ghost use Rattle.rina_dif.specs.Timely.{AcknowledgesAs, ForgetsAs, GivesUpAs, IsHomeEnd, SendsAgainAs};

use crate::dif::Dif;
use rina_base::{Memory, Num, Pdu, PduKind, PduView};
use rina_conn::{DueAck, Form};
use rina_data::HopView;
use rina_flows::Item;
use std::alloc::Global;

/// A PDU, lent.
pub(crate) fn lend(pdu: &Pdu) -> PduView<'_>
    ensures { pdu_of result ≡ pdu.now }
{
    PduView {
        kind: pdu.kind,
        dst: pdu.dst,
        src: pdu.src,
        qos: pdu.qos,
        dcep: pdu.dcep,
        scep: pdu.scep,
        drf: pdu.drf,
        first: pdu.first,
        last: pdu.last,
        seq: pdu.seq,
        ack: pdu.ack,
        right: pdu.right,
        body: pdu.body.as_slice(),
    }
}

/// The PDU of an acknowledgement.
pub(crate) fn ack_pdu(form: &Form, due: DueAck) -> PduView<'static>
    ensures { pdu_of result ≡ pdu_of_ack (ids_by form.now.peer form.now.cube.id) (ack_of due) }
{
    let peer = form.peer;
    PduView {
        kind: PduKind::Ack,
        dst: peer.far,
        src: peer.own,
        qos: form.cube.id,
        dcep: peer.dcep,
        scep: peer.scep,
        drf: false,
        first: false,
        last: false,
        seq: 0,
        ack: due.ack,
        right: due.right,
        body: &[],
    }
}

impl Dif {
    /// Writes off the pieces that the connection of an end holds of a state that has ended, at its IPC process, and
    /// answers whether there were any. Without memory nothing changes.
    pub(crate) fn forget_at(
        &mut self,
        alloc: Global,
        at: usize,
        place: usize,
    ) -> Result<bool, Memory>
        requires stands { (below : Seen) × Stands self.old below }
        requires at { at < length self.old.settings.members }
        requires here { IsHomeEnd self.old at place }
        ensures does { (lines : List Direction) (below : Seen) → Holds self.old lines below → ForgetsAs self.old lines below place result self.new }
        ensures same { (self.new.settings ≡ self.old.settings) × (self.new.failed ≡ self.old.failed) }
        ensures laid { self.new.laid ≡ self.old.laid }
        ensures whole { self.new ≡ record self.old { processes = self.new.processes; flows = self.new.flows } }
        ensures leaves { ChangesOnly (λ i. i ≡ place) (Some at) self.old self.new }
    {
        let clock = self.clock;
        self.processes
            .forget(alloc, at, &mut self.flows, clock, place)
    }

    /// Lets the flow of an end fail there, at its IPC process, where its connection gives a number up now, and answers
    /// the number. The object of the flow is deleted with it, and its CEP-id rests from now on. Without memory nothing changes.
    fn fail_at(&mut self, alloc: Global, at: usize, place: usize) -> Result<Option<Num>, Memory>
        requires stands { (below : Seen) × Stands self.old below }
        requires clock { self.old.clock ≤ 10_000_000 }
        requires at { at < length self.old.settings.members }
        requires here { IsHomeEnd self.old at place }
        ensures does { (lines : List Direction) (below : Seen) → Holds self.old lines below → GivesUpAs self.old lines below place result self.new }
        ensures err { OnErr result (self.new ≡ self.old) }
        ensures same { (self.new.settings ≡ self.old.settings) × (self.new.failed ≡ self.old.failed) }
        ensures laid { self.new.laid ≡ self.old.laid }
        ensures whole { self.new ≡ record self.old { processes = self.new.processes; flows = self.new.flows; ids = self.new.ids; managements = self.new.managements } }
        ensures manages { FailsManaged result self.old at place self.new.managements }
        ensures leaves { ChangesOnly (λ i. WhenOk result (i ≡ place)) (Some at) self.old self.new }
    {
        let name = self.name_of_flow(alloc, place)?;
        let rest = self.rest_at(place);
        let clock = self.clock;
        let flows = &mut self.flows;
        match self.processes.give_up(alloc, at, flows, clock, place)? {
            Some(num) => {
                self.ids.give_back(at, clock, rest.cep, rest.ticks);
                self.managements.remove(at, name.as_slice());
                Ok(Some(num))
            }
            None => Ok(None),
        }
    }

    /// Gives up the flow of an end, at its IPC process, where its connection gives a number up now, and answers the number: the far end is
    /// told, and then the flow fails at this end. Where memory runs out the far end may have been told, and nothing else changes.
    pub(crate) fn give_up_at(
        &mut self,
        alloc: Global,
        at: usize,
        place: usize,
    ) -> Result<Option<Num>, Memory>
        requires stands { (below : Seen) × Stands self.old below }
        requires clock { self.old.clock ≤ 10_000_000 }
        requires at { at < length self.old.settings.members }
        requires here { IsHomeEnd self.old at place }
        ensures does { (lines : List Direction) (below : Seen) → Holds self.old lines below → GivesUpAs self.old lines below place result self.new }
        ensures same { (self.new.settings ≡ self.old.settings) × (self.new.failed ≡ self.old.failed) }
        ensures laid { self.new.laid ≡ self.old.laid }
        ensures whole { self.new ≡ record self.old { processes = self.new.processes; flows = self.new.flows; ids = self.new.ids; managements = self.new.managements } }
        ensures manages { ManagesGiveUp result self.old at place self.new.managements }
        ensures leaves { ChangesOnly (λ i. WhenOk result (i ≡ place)) (Some at) self.old self.new }
    {
        if !self.flows.is_due(self.clock, place, Item::GiveUp) {
            return Ok(None);
        }
        let peer = self.peer_of(place);
        self.send_delete(alloc, at, peer)?;
        self.fail_at(alloc, at, place)
    }

    /// Makes the acknowledgement that is due at an end, at its IPC process, and answers whether one was. Without memory
    /// nothing changes.
    pub(crate) fn acknowledge_at(
        &mut self,
        alloc: Global,
        at: usize,
        place: usize,
    ) -> Result<bool, Memory>
        requires stands { (below : Seen) × Stands self.old below }
        requires at { at < length self.old.settings.members }
        requires here { IsHomeEnd self.old at place }
        ensures does { (lines : List Direction) (below : Seen) → Holds self.old lines below → AcknowledgesAs self.old lines below place result self.new }
        ensures same { (self.new.settings ≡ self.old.settings) × (self.new.failed ≡ self.old.failed) }
        ensures laid { self.new.laid ≡ self.old.laid }
        ensures whole { self.new ≡ record self.old { processes = self.new.processes; flows = self.new.flows } }
        ensures leaves { ChangesOnly (λ i. WhenOk result (i ≡ place)) (Some at) self.old self.new }
    {
        let clock = self.clock;
        let Some(due) = self.flows.ack_due(clock, place) else {
            return Ok(false);
        };
        let form = self.flows.conns.at(place).sending.form;
        let hop = HopView {
            left: form.cube.mpl,
            pdu: ack_pdu(&form, due),
        };
        self.processes.forward(alloc, at, clock, &hop)?;
        self.flows.acknowledged(place);
        Ok(true)
    }

    /// Sends the number again that is due at an end, at its IPC process, and answers it. Without memory nothing changes.
    pub(crate) fn again_at(
        &mut self,
        alloc: Global,
        at: usize,
        place: usize,
    ) -> Result<Option<Num>, Memory>
        requires stands { (below : Seen) × Stands self.old below }
        requires clock { self.old.clock ≤ 10_000_000 }
        requires at { at < length self.old.settings.members }
        requires here { IsHomeEnd self.old at place }
        ensures does { (lines : List Direction) (below : Seen) → Holds self.old lines below → SendsAgainAs self.old lines below place result self.new }
        ensures same { (self.new.settings ≡ self.old.settings) × (self.new.failed ≡ self.old.failed) }
        ensures laid { self.new.laid ≡ self.old.laid }
        ensures whole { self.new ≡ record self.old { processes = self.new.processes; flows = self.new.flows } }
        ensures leaves { ChangesOnly (λ i. WhenOk result (i ≡ place)) (Some at) self.old self.new }
    {
        let clock = self.clock;
        let left = self.flows.conns.at(place).sending.form.cube.mpl;
        let Some(pdu) = self.flows.again_due(clock, place) else {
            return Ok(None);
        };
        let num = Num {
            cep: pdu.scep,
            seq: u64::from(pdu.seq),
        };
        let hop = HopView {
            left,
            pdu: lend(pdu),
        };
        self.processes.forward(alloc, at, clock, &hop)?;
        self.flows.sent_again(clock, place);
        Ok(Some(num))
    }
}
