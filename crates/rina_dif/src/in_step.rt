//! What comes to a DIF on its links.
ghost use Rattle.std.specs.Prelude.{◌≡◌, ◌<◌, ◌≤◌, List, Some, length, false, true, ◌↔◌, IsTrue, Err};
ghost use Rattle.rina_base.specs.Pdus.{key_of};
ghost use Rattle.rina_base.specs.declared.pdu.PduKind.TheVariants.{Piece};
ghost use Rattle.rina_iface.specs.Later.{IsLater};
ghost use Rattle.rina_iface.specs.Pass.{PassesAsSeen};
ghost use Rattle.rina_iface.specs.Seen.{Seen};
ghost use Rattle.rina_law.specs.Direction.{Direction};
ghost use Rattle.rina_data.specs.Hops.{hop_of};
ghost use Rattle.rina_data.specs.Lower.{PassesBelow};
ghost use Rattle.rina_data.specs.declared.step.StepError.TheVariants.{Memory as MemoryWanted};
ghost use Rattle.rina_dif_law.specs.Upward.{IsSilent};
ghost use Rattle.rina_flows.specs.Calls.{TakenBy};
ghost use Rattle.rina_flows.specs.Tied.{conns_of};
ghost use Rattle.rina_dif.specs.Elsewhere.{ChangesOnly, ChangesProcess, IsTaker, MayTake, WhenOk, home_of};
ghost use Rattle.rina_dif.specs.Facade.{GoesOn, OthersStand};
ghost use Rattle.rina_dif.specs.Holding.{Holds, Stands};
ghost use Rattle.rina_dif.specs.Managing.{StayEnrolled};
ghost use Rattle.rina_dif.specs.Shown.{seen_of};
ghost use Rattle.rina_dif.specs.Taking.{BringsAs, Comes, IsForLink, IsOwn, OwnPieceTakenBy, SettlesFor, TakesFor, TakesHome, TakesIn};

use crate::dif::Dif;
use crate::messages_in::Handled;
use rina_agent::AgentError;
use rina_base::{Cause, Memory, Node, PduKind, PduView, Port, Tick};
use rina_channel::is_of_link;
use rina_data::{Decision, HopView, InStep, StepError, Took, live_link, open};
use rina_iface::Facility;
use std::alloc::Global;

/// A PDU that came from below, lent, and the tick at which it came.
#[derive(Clone, Copy)]
pub struct Came<'a> {
    pub since: Tick,
    pub hop: HopView<'a>,
}

impl Dif {
    /// Lets the connection at a place take a piece.
    fn on_data(
        &mut self,
        alloc: Global,
        at: usize,
        place: usize,
        came: &Came<'_>,
    ) -> Result<Took, Memory>
        requires clock { self.old.clock ≤ 10_000_000 }
        requires at { at < length self.old.settings.members }
        requires comes { Comes self.old came.now.since (hop_of came.now.hop) }
        requires own { IsOwn self.old at came.now.since (hop_of came.now.hop) }
        requires piece { came.now.hop.pdu.kind ≡ Piece }
        requires taken { TakenBy self.old.flows.journal.ends (conns_of self.old.flows.conns) (hop_of came.now.hop).pdu (Some place) }
        ensures does { SettlesFor self.old at came.now.since (hop_of came.now.hop) result self.new }
        ensures settings { self.new.settings ≡ self.old.settings }
        ensures laid { self.new.laid ≡ self.old.laid }
        ensures whole { self.new ≡ record self.old { processes = self.new.processes; flows = self.new.flows } }
        ensures leaves { ChangesOnly (λ i. WhenOk result (i ≡ place)) (Some at) self.old self.new }
        ensures failed { self.new.failed ≡ self.old.failed }
    {
        let clock = self.clock;
        match self
            .processes
            .on_data(alloc, at, &mut self.flows, clock, place, &came.hop.pdu)?
        {
            Some(cause) => Ok(Took::Off(cause)),
            None => Ok(Took::Accepted),
        }
    }

    /// Settles a PDU for the IPC process at a place, which is not too old: it is for the connection that it names.
    fn deliver_here(&mut self, alloc: Global, at: usize, came: &Came<'_>) -> Result<Took, Memory>
        requires clock { self.old.clock ≤ 10_000_000 }
        requires at { at < length self.old.settings.members }
        requires comes { Comes self.old came.now.since (hop_of came.now.hop) }
        requires own { IsOwn self.old at came.now.since (hop_of came.now.hop) }
        ensures does { SettlesFor self.old at came.now.since (hop_of came.now.hop) result self.new }
        ensures settings { self.new.settings ≡ self.old.settings }
        ensures laid { self.new.laid ≡ self.old.laid }
        ensures whole { self.new ≡ record self.old { processes = self.new.processes; flows = self.new.flows } }
        ensures leaves { ChangesOnly (λ i. WhenOk result (IsTaker self.old (Some at) (key_of (hop_of came.now.hop).pdu) i)) (Some at) self.old self.new }
        ensures failed { self.new.failed ≡ self.old.failed }
    {
        let pdu = &came.hop.pdu;
        let Some(place) = self.flows.taker(pdu) else {
            let cause = Cause::NoConnection { cep: pdu.dcep };
            self.processes.write_off(alloc, at, &came.hop, cause)?;
            return Ok(Took::Off(cause));
        };
        match pdu.kind {
            PduKind::Piece => self.on_data(alloc, at, place, came),
            PduKind::Ack => {
                self.flows.on_ack(place, pdu);
                Ok(Took::Accepted)
            }
        }
    }

    /// Settles a PDU that came to the IPC process at a place, and is of a flow or too old: it is written off, or for a
    /// connection there, or waits for its next hop.
    fn route_or_deliver(
        &mut self,
        alloc: Global,
        at: usize,
        came: &Came<'_>,
    ) -> Result<Took, Memory>
        requires clock { self.old.clock ≤ 10_000_000 }
        requires at { at < length self.old.settings.members }
        requires comes { Comes self.old came.now.since (hop_of came.now.hop) }
        requires flow { IsForLink self.old came.now.since (hop_of came.now.hop) → ⊥ }
        ensures does { SettlesFor self.old at came.now.since (hop_of came.now.hop) result self.new }
        ensures settings { self.new.settings ≡ self.old.settings }
        ensures laid { self.new.laid ≡ self.old.laid }
        ensures whole { self.new ≡ record self.old { processes = self.new.processes; flows = self.new.flows } }
        ensures leaves { ChangesOnly (λ i. WhenOk result (IsTaker self.old (Some at) (key_of (hop_of came.now.hop).pdu) i)) (Some at) self.old self.new }
        ensures failed { self.new.failed ≡ self.old.failed }
    {
        let Some(member) = self.settings.members.get(at) else {
            unreachable!()
        };
        let addr = member.addr;
        match self
            .processes
            .route_or_deliver(alloc, at, self.clock, addr, came.since, &came.hop)?
        {
            Decision::Relayed => Ok(Took::Relayed),
            Decision::Off(cause) => Ok(Took::Off(cause)),
            Decision::Here => self.deliver_here(alloc, at, came),
        }
    }

    /// Whether a PDU is one of a link's management connection, and not too old.
    fn is_for_link(&self, came: &Came<'_>) -> bool
        ensures { IsTrue result ↔ IsForLink self.now came.now.since (hop_of came.now.hop) }
    {
        let age = self.clock.saturating_sub(came.since);
        is_of_link(&came.hop.pdu) && age <= came.hop.left
    }

    /// The place of the end of the link with a port below that takes a PDU as a piece of the link's own, and the piece by the places
    /// of the two ends. None exactly where no end takes it so.
    pub(crate) fn piece_taker<'a>(
        &self,
        port: Port,
        came: &Came<'a>,
    ) -> Option<(usize, PduView<'a>)>
        ensures { OwnPieceTakenBy self.now came.now.since port (hop_of came.now.hop) result }
    {
        if self.is_for_link(came) {
            match came.hop.pdu.kind {
                PduKind::Piece => self.connections.taker(port, &came.hop.pdu),
                PduKind::Ack => None,
            }
        } else {
            None
        }
    }

    /// What the member at a place is once it handled the messages that a PDU makes whole, which came on its link of a number with a
    /// port below. None where the PDU is no piece that an end of the link takes. The PDU is not taken. Refused with `CountSpent` where
    /// the member has too few version counts or invoke ids left for one of them.
    fn handled_ahead(
        &self,
        alloc: Global,
        at: usize,
        number: u16,
        port: Port,
        came: &Came<'_>,
    ) -> Result<Option<Handled>, AgentError>
        requires clock { self.now.clock ≤ 10_000_000 }
        requires stands { (below : Seen) × Stands self.now below }
        requires at { at < length self.now.settings.members }
        ensures { BringsAs self.now at number came.now.since port (hop_of came.now.hop) result }
    {
        let Some((place, pdu)) = self.piece_taker(port, came) else {
            return Ok(None);
        };
        let after = self.management_ahead(alloc, at, place, number, &pdu)?;
        let change = self.change_ahead(alloc, at, after)?;
        Ok(Some(Handled { place, change }))
    }

    /// Lets the management connection of the link with a port below take a PDU that came there in time, and is for it.
    fn deliver_on_link(
        &mut self,
        alloc: Global,
        at: usize,
        port: Port,
        came: &Came<'_>,
    ) -> Result<Took, Memory>
        requires clock { self.old.clock ≤ 10_000_000 }
        requires at { at < length self.old.settings.members }
        requires comes { Comes self.old came.now.since (hop_of came.now.hop) }
        requires link { IsForLink self.old came.now.since (hop_of came.now.hop) }
        ensures does { TakesFor self.old at came.now.since port (hop_of came.now.hop) result self.new }
        ensures settings { self.new.settings ≡ self.old.settings }
        ensures laid { self.new.laid ≡ self.old.laid }
        ensures whole { self.new ≡ record self.old { processes = self.new.processes; connections = self.new.connections } }
        ensures leaves { ChangesProcess (Some at) self.old.processes self.new.processes }
        ensures failed { self.new.failed ≡ self.old.failed }
    {
        let clock = self.clock;
        let Some((place, pdu)) = self.connections.taker(port, &came.hop.pdu) else {
            let cep = came.hop.pdu.dcep;
            let cause = Cause::NoConnection { cep };
            self.processes.write_off(alloc, at, &came.hop, cause)?;
            return Ok(Took::Off(cause));
        };
        let flows = &mut self.connections.flows;
        match pdu.kind {
            PduKind::Piece => match self
                .processes
                .on_link_data(alloc, at, flows, clock, place, &pdu)?
            {
                Some(cause) => Ok(Took::Off(cause)),
                None => Ok(Took::Accepted),
            },
            PduKind::Ack => {
                flows.on_ack(place, &pdu);
                Ok(Took::Accepted)
            }
        }
    }

    /// Settles a PDU that came on the link with a port below: the link's management connection takes it, or it is settled as
    /// one of a flow.
    fn settle(
        &mut self,
        alloc: Global,
        at: usize,
        port: Port,
        came: &Came<'_>,
    ) -> Result<Took, Memory>
        requires clock { self.old.clock ≤ 10_000_000 }
        requires at { at < length self.old.settings.members }
        requires comes { Comes self.old came.now.since (hop_of came.now.hop) }
        ensures does { TakesFor self.old at came.now.since port (hop_of came.now.hop) result self.new }
        ensures settings { self.new.settings ≡ self.old.settings }
        ensures laid { self.new.laid ≡ self.old.laid }
        ensures whole { self.new ≡ record self.old { processes = self.new.processes; flows = self.new.flows; connections = self.new.connections } }
        ensures leaves { ChangesOnly (λ i. WhenOk result (IsTaker self.old (Some at) (key_of (hop_of came.now.hop).pdu) i)) (Some at) self.old self.new }
        ensures failed { self.new.failed ≡ self.old.failed }
    {
        if self.is_for_link(came) {
            self.deliver_on_link(alloc, at, port, came)
        } else {
            self.route_or_deliver(alloc, at, came)
        }
    }

    /// Takes the oldest SDU of a link of the IPC process at a place, and lets the member there handle the messages that it makes whole:
    /// those of neighbours first, and then those about flows, one after the other. Where memory runs out at one of these, the SDU was taken
    /// and what was handled before stands.
    fn in_step_at<F: Facility>(
        &mut self,
        alloc: Global,
        below: &mut F,
        at: usize,
        link: u16,
    ) -> Result<InStep, StepError>
        requires valid { F.valid below.old }
        requires stands { Stands self.old (F.seen below.old) }
        requires alive { self.old.failed ≡ false }
        requires at { at < length self.old.settings.members }
        ensures valid { F.valid below.new }
        ensures below { F.same_below below.old below.new }
        ensures later { IsLater (F.seen below.old) (F.seen below.new) }
        ensures does { (lines : List Direction) → Holds self.old lines (F.seen below.old) → TakesIn self.old lines (F.seen below.old) at link result self.new (F.seen below.new) }
        ensures lower { PassesBelow (below.new ≡ below.old) (PassesAsSeen F.seen F.does_pass below.old below.new) result }
        ensures settings { self.new.settings ≡ self.old.settings }
        ensures laid { self.new.laid ≡ self.old.laid }
        ensures whole { self.new ≡ record self.old { processes = self.new.processes; flows = self.new.flows; connections = self.new.connections; managements = self.new.managements; enrolled = self.new.enrolled; ids = self.new.ids; waiting = self.new.waiting; asks = self.new.asks } }
        ensures enrolled { StayEnrolled self.old.enrolled self.new.enrolled }
        ensures leaves { ChangesOnly (MayTake result self.old (Some at)) (Some at) self.old self.new }
        ensures failed { self.new.failed ≡ self.old.failed }
    {
        let Some(process) = self.processes.get(at) else {
            unreachable!()
        };
        let Some(live) = live_link(process.links.as_slice(), link) else {
            return Err(StepError::NoLink);
        };
        let port = live.port;
        let Some(lent) = below.peek(port) else {
            return Ok(InStep::Idle);
        };
        let Some(hop) = open(lent.bytes, self.settings.widths) else {
            unreachable!()
        };
        let key = hop.pdu.key();
        let came = Came {
            since: lent.at,
            hop,
        };
        let handled = match self.handled_ahead(alloc, at, link, port, &came) {
            Ok(handled) => handled,
            Err(AgentError::Memory) => return Err(StepError::Memory),
            Err(AgentError::CountSpent { need, left }) => {
                return Err(StepError::CountSpent { need, left });
            }
        };
        let messages = self.flow_messages_ahead(alloc, port, &came)?;
        let end = self.settle(alloc, at, port, &came)?;
        below.pass(port);
        self.handle_messages(at, link, handled);
        self.take_messages(alloc, at, messages)?;
        Ok(InStep::Took { key, end })
    }

    /// Takes one step of the IPC process at a node at a link: the oldest SDU that waits there is taken, and the PDU in
    /// it delivered to its connection or to that of the link, relayed, or written off. The messages of management that it makes whole are
    /// handled in the same step, and so are those about flows: the member passes each of these on, or handles it. Refused with `CountSpent`,
    /// and nothing changes, where the member has too few version counts or invoke ids left for a message of a neighbour.
    pub fn in_step<F: Facility>(
        &mut self,
        alloc: Global,
        below: &mut F,
        node: Node,
        link: u16,
    ) -> Result<InStep, StepError>
        requires valid { F.valid below.old }
        requires stands { Stands self.old (F.seen below.old) }
        ensures valid { F.valid below.new }
        ensures below { F.same_below below.old below.new }
        ensures later { IsLater (F.seen below.old) (F.seen below.new) }
        ensures does { (lines : List Direction) → Holds self.old lines (F.seen below.old) → TakesHome self.old lines (F.seen below.old) node link result self.new (F.seen below.new) }
        ensures lower { PassesBelow (below.new ≡ below.old) (PassesAsSeen F.seen F.does_pass below.old below.new) result }
        ensures goes_on { GoesOn self.old self.new }
        ensures silent { IsSilent (seen_of self.old) (seen_of self.new) }
        ensures others { OthersStand self.old (F.seen below.old) (F.seen below.new) }
        ensures settings { self.new.settings ≡ self.old.settings }
        ensures laid { self.new.laid ≡ self.old.laid }
        ensures whole { self.new ≡ record self.old { processes = self.new.processes; flows = self.new.flows; connections = self.new.connections; managements = self.new.managements; enrolled = self.new.enrolled; ids = self.new.ids; waiting = self.new.waiting; asks = self.new.asks; failed = self.new.failed } }
        ensures leaves { ChangesOnly (MayTake result self.old (home_of self.old node)) (home_of self.old node) self.old self.new }
        ensures failed { self.old.failed ≡ true → result ≡ Err MemoryWanted }
        ensures fails { self.new.failed ≡ true ↔ (result ≡ Err MemoryWanted) }
    {
        if self.failed {
            return Err(StepError::Memory);
        }
        let Some(at) = self.place_at_node(node) else {
            return Err(StepError::NoIpc);
        };
        let step = self.in_step_at(alloc, below, at, link);
        Dif::remember_memory_failure(&mut self.failed, step)
    }
}
