//! One IPC process: its links, next hops, queues and ledger.
ghost use Rattle.std.specs.Prelude.{◌≡◌, ◌-◌, ◌<◌, ◌≤◌, OnOk, OnErr, Some, IsSome};
ghost use Rattle.rina_queue.specs.Queues.{queue_place};
ghost use Rattle.rina_data.specs.Deciding.{process_of, queue_settings, IsRouted, Forwards, Decides};
ghost use Rattle.rina_data.specs.Process.{next_hop};
ghost use Rattle.rina_data.specs.Hops.{hop_of};
ghost use Rattle.rina_data.specs.Queueing.{Notes};

use crate::hop::{HopView, charge, left_after};
use crate::link::{Link, Route, next_link};
use crate::step::Decision;
use rina_account::Ledger;
use rina_base::{Addr, Cause, Memory, Seq, Tick};
use rina_queue::{Queued, Queues};
use std::alloc::Global;

/// One IPC process of a DIF, beside its connections.
#[derive(Drop)]
pub struct IpcProcess {
    pub links: Seq<Link>,
    /// The next hops, by address.
    pub routes: Seq<Route>,
    pub queues: Queues,
    pub ledger: Ledger,
}

impl IpcProcess {
    /// Writes a PDU off.
    pub fn write_off(
        &mut self,
        alloc: Global,
        hop: &HopView<'_>,
        cause: Cause,
    ) -> Result<(), Memory>
        ensures ok { OnOk result (Notes (process_of self.old) (hop_of hop.now).pdu cause (process_of self.new)) }
        ensures err { OnErr result (process_of self.new ≡ process_of self.old) }
        ensures kept { queue_settings self.new ≡ queue_settings self.old }
    {
        self.ledger.note(alloc, hop.pdu.key(), cause)
    }

    /// Puts a PDU, which came at tick `came`, into the queue of a link, its next hop.
    fn queue(
        &mut self,
        alloc: Global,
        link: u16,
        came: Tick,
        hop: &HopView<'_>,
    ) -> Result<Decision, Memory>
        requires next { next_hop (hop_of hop.now).pdu.dst self.old.routes ≡ Some link }
        requires there { IsSome (queue_place (hop_of hop.now).pdu.qos link self.old.queues.queues.items) }
        ensures does { Forwards self.old.queues.cap (process_of self.old) came (hop_of hop.now) result (process_of self.new) }
        ensures kept { queue_settings self.new ≡ queue_settings self.old }
    {
        let cap = self.queues.cap;
        if self.queues.room(hop.pdu.qos, link) == 0 {
            self.write_off(alloc, hop, Cause::QueueFull { cap })?;
            return Ok(Decision::Off(Cause::QueueFull { cap }));
        }
        let pdu = hop.pdu.keep(alloc)?;
        let left = hop.left;
        let item = Queued {
            pdu,
            left,
            since: came,
        };
        match self.queues.push(hop.pdu.qos, link, item) {
            Ok(()) => Ok(Decision::Relayed),
            Err(_full) => unreachable!(),
        }
    }

    /// Puts a PDU, which came or was made at tick `came`, into the queue of its next hop, or writes it off. Without memory
    /// nothing changes.
    pub fn forward(
        &mut self,
        alloc: Global,
        came: Tick,
        hop: &HopView<'_>,
    ) -> Result<Decision, Memory>
        requires { IsRouted self.old (hop_of hop.now) }
        ensures does { Forwards self.old.queues.cap (process_of self.old) came (hop_of hop.now) result (process_of self.new) }
        ensures kept { queue_settings self.new ≡ queue_settings self.old }
    {
        let dst = hop.pdu.dst;
        let Some(link) = next_link(self.routes.as_slice(), dst) else {
            self.write_off(alloc, hop, Cause::NoRoute { dst })?;
            return Ok(Decision::Off(Cause::NoRoute { dst }));
        };
        self.queue(alloc, link, came, hop)
    }

    /// Decides on a PDU that came at tick `came` to this IPC process, which has the address `addr`: whether it is too
    /// old, is for a connection here, or waits for its next hop.
    pub fn route_or_deliver(
        &mut self,
        alloc: Global,
        now: Tick,
        addr: Addr,
        came: Tick,
        hop: &HopView<'_>,
    ) -> Result<Decision, Memory>
        requires now { now ≤ 10_000_000 }
        requires routed { IsRouted self.old (hop_of hop.now) }
        ensures does { Decides self.old.queues.cap now addr (process_of self.old) came (hop_of hop.now) result (process_of self.new) }
        ensures kept { queue_settings self.new ≡ queue_settings self.old }
    {
        let left = hop.left;
        let charge = charge(now, came, 0);
        if left_after(left, charge).is_none() {
            self.write_off(alloc, hop, Cause::Expired { left, charge })?;
            return Ok(Decision::Off(Cause::Expired { left, charge }));
        }
        if hop.pdu.dst == addr {
            return Ok(Decision::Here);
        }
        self.forward(alloc, came, hop)
    }
}
