//! How management messages go over the links of a DIF: the first that waits for a link is offered whole at its management
//! connection.
ghost use Rattle.std.specs.Prelude.{◌≡◌, ◌≢◌, ◌↔◌, ◌≤◌, ◌<◌, List, IfOk, IfSome, IsSome, IsTrue, OnOk, Some, length, map, slice_get};
ghost use Rattle.rina_conn.specs.declared.made.OfferError.TheVariants as offer;
ghost use Rattle.rina_iface.specs.Seen.{Seen};
ghost use Rattle.rina_law.specs.Direction.{Direction};
ghost use Rattle.rina_queue.specs.Queues.{queue_place};
ghost use Rattle.rina_data.specs.declared.process.IpcProcess.{IpcProcess};
ghost use Rattle.rina_channel.specs.Names.{unnamed};
ghost use Rattle.rina_member.specs.declared.management.Management.{Management};
ghost use Rattle.rina_dif.specs.Elsewhere.{ChangesProcess};
ghost use Rattle.rina_dif.specs.Holding.{Holds, Stands};
ghost use Rattle.rina_dif.specs.Messaging.{FindsOpenEnd, IsAllocated, IsOpenEnd, IsReady, OffersAmong, OffersAt, TellsFirstSdu, TellsRoomFor};
ghost use Rattle.rina_dif.specs.Telling.{TellShort};

use crate::dif::Dif;
use crate::processes::MOST_LINKS;
use rina_base::{Memory, Pdu};
use rina_channel::unname;
use rina_conn::OfferError;
use rina_data::live_link;
use rina_iface::{Facility, PortState};
use std::alloc::Global;

/// Tells that memory was not found where a connection refused an SDU for that.
fn unless_memory(error: OfferError) -> Result<(), Memory>
    ensures { OnOk result (error ≢ offer.Memory) }
{
    match error {
        OfferError::Memory => Err(Memory),
        OfferError::TooLong { .. }
        | OfferError::WindowShut { .. }
        | OfferError::NumbersSpent { .. } => Ok(()),
    }
}

/// Whether a flow is allocated.
fn is_allocated(state: Option<PortState>) -> bool
    ensures { IsTrue result ↔ IsAllocated state }
{
    matches!(state, Some(PortState::Allocated))
}

/// PDUs that an end made, as they cross the link.
fn unnamed(mut pdus: Vec<Pdu>) -> Vec<Pdu>
    ensures { result.items ≡ map unnamed pdus.items }
{
    unname(pdus.as_mut_slice());
    pdus
}

impl Dif {
    /// The place of the end of the management connection of the live link of a number, at the IPC process of a place, where both
    /// that end and the link's flow below are allocated. None exactly where there is none.
    fn open_end<F: Facility>(&self, below: &F, at: usize, number: u16) -> Option<usize>
        requires valid { F.valid below.now }
        requires stands { Stands self.now (F.seen below.now) }
        requires at { at < length self.now.settings.members }
        ensures { FindsOpenEnd self.now (F.seen below.now) at number result }
    {
        let process = self.processes.get(at)?;
        let Some(link) = live_link(process.links.as_slice(), number) else {
            return None;
        };
        if !is_allocated(below.state(link.port)) {
            return None;
        }
        self.connections.open_on(link.port)
    }

    /// The SDU of the message that waits first for the link of a number at the member of a place. None exactly where none waits.
    fn first_sdu(&self, alloc: Global, at: usize, number: u16) -> Result<Option<Vec<u8>>, Memory>
        requires tell { TellShort self.now.managements }
        ensures first { IfOk result (TellsFirstSdu self.now at number) }
        ensures short { IfOk result (λ sdu. IfSome sdu (λ bytes. length bytes.items ≤ 325)) }
    {
        match self.managements.get(at) {
            Some(management) => management.next_sdu(alloc, number),
            None => Ok(None),
        }
    }

    /// Whether the queue of management of the link of a number, at the IPC process of a place, has room for all pieces that an SDU of
    /// so many bytes is cut into at the end of a place.
    fn has_room_for(&self, at: usize, number: u16, place: usize, len: usize) -> bool
        requires short { len ≤ 325 }
        requires at { at < length self.now.processes }
        requires place { place < length self.now.connections.flows.conns }
        requires there { (p : IpcProcess) → slice_get self.now.processes at ≡ Some p → IsSome (queue_place 0 number p.queues.queues.items) }
        ensures { TellsRoomFor self.now at place number len result }
    {
        let Some(process) = self.processes.get(at) else {
            unreachable!()
        };
        let need = self.connections.flows.need(place, len as u32);
        need <= process.queues.room(0, number)
    }

    /// Offers an SDU, which waits first for the link of a number at the IPC process of a place, at the end of a place. Answers whether
    /// the window and the numbers of the connection admit it; where they do not, or memory is not found, nothing changes.
    fn offer_sdu(
        &mut self,
        alloc: Global,
        at: usize,
        place: usize,
        number: u16,
        sdu: &[u8],
    ) -> Result<bool, Memory>
        requires stands { (below : Seen) × Stands self.old below }
        requires clock { self.old.clock ≤ 10_000_000 }
        requires tell { TellShort self.old.managements }
        requires ready { IsReady self.old at place number sdu.now }
        ensures does { (lines : List Direction) (below : Seen) → Holds self.old lines below → IsOpenEnd self.old below at place number → OffersAt self.old lines below at number result self.new }
        ensures whole { self.new ≡ record self.old { processes = self.new.processes; connections = record self.old.connections { flows = self.new.connections.flows }; managements = self.new.managements } }
        ensures leaves { ChangesProcess (Some at) self.old.processes self.new.processes }
    {
        let clock = self.clock;
        let links = &mut self.connections.flows;
        let left = links.conns.at(place).sending.form.cube.mpl;
        let made = match links.offer(alloc, clock, place, sdu) {
            Ok(made) => made,
            Err(error) => {
                unless_memory(error)?;
                return Ok(false);
            }
        };
        let pdus = unnamed(made.pdus.into_vec());
        self.processes.put(at, 0, number, left, clock, pdus);
        self.managements.sent(at, number);
        Ok(true)
    }

    /// Offers the message that is due at the link of a number, at the IPC process of a place. Answers whether one was; without memory
    /// nothing changes.
    fn offer_on<F: Facility>(
        &mut self,
        alloc: Global,
        below: &F,
        at: usize,
        number: u16,
    ) -> Result<bool, Memory>
        requires valid { F.valid below.now }
        requires stands { Stands self.old (F.seen below.now) }
        requires clock { self.old.clock ≤ 10_000_000 }
        requires at { at < length self.old.settings.members }
        requires tell { TellShort self.old.managements }
        ensures does { (lines : List Direction) → Holds self.old lines (F.seen below.now) → OffersAt self.old lines (F.seen below.now) at number result self.new }
        ensures whole { self.new ≡ record self.old { processes = self.new.processes; connections = record self.old.connections { flows = self.new.connections.flows }; managements = self.new.managements } }
        ensures leaves { ChangesProcess (Some at) self.old.processes self.new.processes }
    {
        let Some(place) = self.open_end(below, at, number) else {
            return Ok(false);
        };
        let Some(bytes) = self.first_sdu(alloc, at, number)? else {
            return Ok(false);
        };
        let sdu = bytes.as_slice();
        if !self.has_room_for(at, number, place, sdu.len()) {
            return Ok(false);
        }
        self.offer_sdu(alloc, at, place, number, sdu)
    }

    /// Whether any message waits at the member of a place.
    fn has_waiting(&self, at: usize) -> bool
        ensures { (m : Management) → slice_get self.now.managements at ≡ Some m → IsTrue result ↔ (0 < length m.agent.agenda) }
    {
        match self.managements.get(at) {
            Some(management) => management.agent.agenda.len() > 0,
            None => false,
        }
    }

    /// Offers the message that is due at the link of the least number, at the IPC process of a place, and answers that number. None
    /// exactly where none is due; without memory nothing changes.
    pub(crate) fn offer_message<F: Facility>(
        &mut self,
        alloc: Global,
        below: &F,
        at: usize,
    ) -> Result<Option<u16>, Memory>
        requires valid { F.valid below.now }
        requires stands { Stands self.old (F.seen below.now) }
        requires clock { self.old.clock ≤ 10_000_000 }
        requires at { at < length self.old.settings.members }
        requires tell { TellShort self.old.managements }
        ensures does { (lines : List Direction) → Holds self.old lines (F.seen below.now) → OffersAmong self.old lines (F.seen below.now) at result self.new }
        ensures whole { self.new ≡ record self.old { processes = self.new.processes; connections = record self.old.connections { flows = self.new.connections.flows }; managements = self.new.managements } }
        ensures leaves { ChangesProcess (Some at) self.old.processes self.new.processes }
    {
        if !self.has_waiting(at) {
            return Ok(None);
        }
        for number in 0..MOST_LINKS {
            if self.offer_on(alloc, below, at, number)? {
                return Ok(Some(number));
            }
        }
        Ok(None)
    }
}
