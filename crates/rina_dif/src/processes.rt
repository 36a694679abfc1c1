//! The IPC processes of a DIF.
ghost use Rattle.std.specs.Prelude.{◌≡◌, ◌<◌, ◌≤◌, [], ◌∷◌, ◌++◌, length, map, slice_get, Some, MatchOption, IfOk, IfSome, OnOk, OnErr, ◌+◌, IsSome};
ghost use Rattle.std.specs.Vec.{vec_capacity};
ghost use Rattle.rina_iface.specs.Later.{IsLater};
ghost use Rattle.rina_iface.specs.Send.{SendsAsSeen};
ghost use Rattle.rina_base.specs.Pdus.{pdu_of};
ghost use Rattle.rina_policy.specs.Slots.{Slot};
ghost use Rattle.rina_queue.specs.declared.queue.Queue.{Queue};
ghost use Rattle.rina_queue.specs.Queues.{Changes, queue_place, waiting, with_items};
ghost use Rattle.rina_data.specs.declared.process.IpcProcess.{IpcProcess};
ghost use Rattle.rina_data.specs.Configs.{config_of};
ghost use Rattle.rina_data.specs.Deciding.{process_of, queue_settings};
ghost use Rattle.rina_data.specs.Hops.{hop_of};
ghost use Rattle.rina_data.specs.Lower.{SendsBelow};
ghost use Rattle.rina_data.specs.Outgoing.{IsHeld};
ghost use Rattle.rina_dif_law.specs.Losing.{IsAllocatedAt};
ghost use Rattle.rina_dif.specs.Closing.{ClosesIn, held_at};
ghost use Rattle.rina_dif.specs.Elsewhere.{WhenOk};
ghost use Rattle.rina_dif.specs.Laying.{AddsLink, AddsLinkAt};
ghost use Rattle.rina_dif.specs.LinkSteps.{ForgetsIn as ForgetsOn, PostsAt, PostsFor};
ghost use Rattle.rina_dif.specs.Routing.{SetsRoutes};
ghost use Rattle.rina_dif.specs.Sending.{AreOf, HasRoomFor, Puts, queued};
ghost use Rattle.rina_dif.specs.Steps.{AsksAt, Leaves, WillGo};
ghost use Rattle.rina_dif.specs.Taking.{ArrivesOnLink, ArrivesTo, DecidesAt, NotesAt, RoutesAt};
ghost use Rattle.rina_dif.specs.Timely.{ForwardsAt, WithLedger};
ghost use Rattle.rina_dif.specs.Unlinking.{LosesIn, LosesLast, LosesLastIn, LosesOr, LosesThenCloses};
ghost use Rattle.rina_flows.specs.Delivering.{ForgetsIn, StopsIn};
ghost use Rattle.rina_flows.specs.Elsewhere.{ChangesAt};
ghost use Rattle.rina_flows.specs.Timely.{GivesUpIn};

use rina_account::Off;
use rina_base::{Addr, Cause, Memory, Node, Num, Pdu, PduView, Port, Seq, Tick};
use rina_channel::{stop_with_room, unname_lines};
use rina_data::{Decision, HopView, IpcProcess, Link, OutStep, Route, Settings, StepError};
use rina_flows::Flows;
use rina_iface::{Facility, PortState};
use rina_policy::Picks;
use rina_queue::{Queued, Queues};
use std::alloc::{AllocError, Global};
use std::marker::Model;

/// How many live links an IPC process has at most. Its links have the first so many numbers.
pub(crate) const MOST_LINKS: u16 = 16;

/// The IPC processes of a DIF, each at the place of its member. A contract sees the list of them.
#[derive(Drop)]
pub struct Processes {
    pub(crate) items: Vec<IpcProcess>,
}

impl Model for Processes {
    ghost use Rattle.std.specs.Prelude.{List};
    ghost use Rattle.rina_data.specs.declared.process.IpcProcess.{IpcProcess};

    ghost Value = { List IpcProcess };

    ghost view = { λ p. p.items.items };
}

/// Puts PDUs of a cube, made at a tick, at the end of its queue for a link, which has room for them.
fn put_all(queues: &mut Queues, qos: u8, link: u16, left: u32, since: Tick, pdus: Vec<Pdu>)
    requires there { IsSome (queue_place qos link queues.old.queues.items) }
    requires cube { AreOf qos pdus.items }
    requires room { length (waiting qos link queues.old.queues.items) + length pdus.items ≤ queues.old.cap }
    ensures put { Changes qos link (λ (q : Queue). with_items (q.ring.items ++ queued left since pdus.items) q) queues.old.queues.items queues.new.queues.items }
    ensures same { (queues.new.cap ≡ queues.old.cap) × (queues.new.cubes ≡ queues.old.cubes) }
{
    for pdu in pdus {
        match queues.push(qos, link, Queued { pdu, left, since }) {
            Ok(()) => {}
            Err(_full) => unreachable!(),
        }
    }
}

/// Gives an IPC process one link more, on a port below, with its queues. There are at most 65,536 links.
fn add_link(process: &mut IpcProcess, alloc: Global, port: Port) -> Result<(), Memory>
    ensures { OnOk result (AddsLink port process.old process.new) }
{
    let Ok(number) = u16::try_from(process.links.len()) else {
        return Err(Memory);
    };
    process.queues.add_link(alloc, number)?;
    process.links.push(Link {
        port,
        number,
        live: true,
    })?;
    Ok(())
}

/// A link that an IPC process loses.
#[derive(Drop)]
pub struct LinkLoss {
    /// Its place among the links.
    pub place: usize,
    /// The next hops without it.
    pub routes: Seq<Route>,
    /// The place of the end of its management connection, where that is allocated.
    pub end: Option<usize>,
    pub now: Tick,
}

/// How many pieces the end of a management connection holds, where one is given.
fn held_at(links: &Flows, end: Option<usize>) -> u64
    requires { IfSome end (λ place. place < length links.now.conns) }
    ensures { result ≡ held_at end links.now }
{
    match end {
        Some(place) => links.kept(place),
        None => 0,
    }
}

/// Closes the end of a management connection, where one is given, and writes off what it holds behind these lines. Takes
/// memory only where they have no room.
fn close_end(links: &mut Flows, now: Tick, end: Option<usize>, lines: &mut Vec<Off>)
    requires end { IfSome end (λ place. place < length links.old.journal.ends) }
    requires conn { IfSome end (λ place. place < length links.old.conns) }
    ensures closes { ClosesIn now end links.old lines.old.items (vec_capacity lines.old) links.new lines.new.items }
    ensures capacity { vec_capacity lines.old ≤ vec_capacity lines.new }
{
    if let Some(place) = end {
        stop_with_room(links, now, place, PortState::Closed, lines);
    }
}

/// Loses a link of an IPC process, and closes the end of its management connection, where one is open. Hands out the lines
/// of the ledger, with room for so many more, until they are put back. Without memory nothing changes.
fn lose_with_room(
    process: &mut IpcProcess,
    alloc: Global,
    loss: LinkLoss,
    links: &mut Flows,
    more: usize,
) -> Result<Vec<Off>, Memory>
    requires place { loss.place < length process.old.links }
    requires end { IfSome loss.end (λ place. place < length links.old.journal.ends) }
    requires conn { IfSome loss.end (λ place. place < length links.old.conns) }
    ensures ok { IfOk result (λ v. (l : LosesThenCloses loss more links.old (process_of process.old) links.new (record (process_of process.new) { ledger = v.items })) × (l.room ≤ vec_capacity v)) }
    ensures err { OnErr result ((links.new ≡ links.old) × (process_of process.new ≡ process_of process.old)) }
    ensures kept { queue_settings process.new ≡ queue_settings process.old }
{
    let held = held_at(links, loss.end);
    let Some(room) = (held as usize).checked_add(more) else {
        return Err(Memory);
    };
    let mut lines = process.lose_link_with_room(alloc, loss.place, loss.routes, room)?;
    close_end(links, loss.now, loss.end, &mut lines);
    Ok(lines)
}

/// Loses a link of an IPC process, and closes the end of its management connection, where one is open. Without memory nothing
/// changes.
fn lose_link(
    process: &mut IpcProcess,
    alloc: Global,
    loss: LinkLoss,
    links: &mut Flows,
) -> Result<(), Memory>
    requires place { loss.place < length process.old.links }
    requires end { IfSome loss.end (λ place. place < length links.old.journal.ends) }
    requires conn { IfSome loss.end (λ place. place < length links.old.conns) }
    ensures does { LosesOr loss result links.old (process_of process.old) links.new (process_of process.new) }
    ensures kept { queue_settings process.new ≡ queue_settings process.old }
{
    let lines = lose_with_room(process, alloc, loss, links, 0)?;
    process.ledger.put(lines);
    Ok(())
}

/// Loses a link of an IPC process, closes the end of its management connection, where one is open, and ends each allocated
/// end at its node with a state other than `Allocated`. Without memory nothing changes.
fn lose_last_link(
    process: &mut IpcProcess,
    alloc: Global,
    loss: LinkLoss,
    links: &mut Flows,
    flows: &mut Flows,
    node: Node,
    state: PortState,
) -> Result<(), Memory>
    requires place { loss.place < length process.old.links }
    requires end { IfSome loss.end (λ place. place < length links.old.journal.ends) }
    requires conn { IfSome loss.end (λ place. place < length links.old.conns) }
    requires alike { length flows.old.journal.ends ≡ length flows.old.conns }
    ensures does { LosesLast node state loss links.old flows.old process.old result links.new flows.new process.new }
    ensures kept { queue_settings process.new ≡ queue_settings process.old }
    ensures leaves { ChangesAt (λ i. WhenOk result (IsAllocatedAt flows.old.journal.ends node i)) flows.old flows.new }
{
    let now = loss.now;
    let Some(held) = flows.held_at(node) else {
        return Err(Memory);
    };
    let mut lines = lose_with_room(process, alloc, loss, links, held)?;
    flows.stop_all(now, node, state, &mut lines);
    process.ledger.put(lines);
    Ok(())
}

/// Puts a PDU of management, made at tick `now`, at the end of its queue for a link, or writes it off where that is full.
fn post(
    process: &mut IpcProcess,
    alloc: Global,
    link: u16,
    now: Tick,
    hop: &HopView<'_>,
) -> Result<Option<Cause>, Memory>
    requires qos { (hop_of hop.now).pdu.qos ≡ 0 }
    requires there { IsSome (queue_place 0 link process.old.queues.queues.items) }
    ensures does { PostsFor process.old.queues.cap now link (hop_of hop.now) result (process_of process.old) (process_of process.new) }
    ensures kept { queue_settings process.new ≡ queue_settings process.old }
{
    let cap = process.queues.cap;
    if process.queues.room(0, link) == 0 {
        process.write_off(alloc, hop, Cause::QueueFull { cap })?;
        return Ok(Some(Cause::QueueFull { cap }));
    }
    let item = Queued {
        pdu: hop.pdu.keep(alloc)?,
        left: hop.left,
        since: now,
    };
    match process.queues.push(0, link, item) {
        Ok(()) => Ok(None),
        Err(_full) => unreachable!(),
    }
}

impl Processes {
    /// No IPC processes yet.
    pub fn new(alloc: Global) -> Processes
        ensures { result ≡ [] }
    {
        Processes {
            items: Vec::new(alloc),
        }
    }

    /// Adds an IPC process.
    pub fn push(&mut self, process: IpcProcess) -> Result<(), AllocError>
        ensures ok { OnOk result (self.new ≡ self.old ++ process ∷ []) }
        ensures err { OnErr result (self.new ≡ self.old) }
    {
        self.items.push(process)?;
        Ok(())
    }

    /// All IPC processes, each at the place of its member.
    pub fn as_slice(&self) -> &[IpcProcess]
        ensures { result.now ≡ self.now }
    {
        self.items.as_slice()
    }

    /// The IPC process at a place, counted from 0. None where the place is out of range.
    pub fn get(&self, at: usize) -> Option<&IpcProcess>
        ensures { MatchOption result (length self.now ≤ at) (λ p. slice_get self.now at ≡ Some p.now) }
    {
        self.items.get(at)
    }

    /// Gives the IPC process at a place one link more, on a port below.
    pub fn add_link(&mut self, alloc: Global, at: usize, port: Port) -> Result<(), Memory>
        requires { at < length self.old }
        ensures { OnOk result (AddsLinkAt port at self.old self.new) }
    {
        add_link(&mut self.items[at], alloc, port)
    }

    /// Gives the IPC process at a place other next hops. Takes no memory.
    pub fn set_routes(&mut self, at: usize, routes: Seq<Route>)
        requires { at < length self.old }
        ensures { SetsRoutes at routes self.old self.new }
    {
        let process = &mut self.items[at];
        process.routes = routes;
    }

    /// Loses a link of the IPC process at a place, and closes the end of its management connection, where one is open.
    /// Without memory nothing changes.
    pub fn lose_link(
        &mut self,
        alloc: Global,
        at: usize,
        loss: LinkLoss,
        links: &mut Flows,
    ) -> Result<(), Memory>
        requires at { at < length self.old }
        requires place { (p : IpcProcess) → slice_get self.old at ≡ Some p → loss.place < length p.links }
        requires end { IfSome loss.end (λ place. place < length links.old.journal.ends) }
        requires conn { IfSome loss.end (λ place. place < length links.old.conns) }
        ensures { LosesIn loss result at links.old self.old links.new self.new }
    {
        let process = &mut self.items[at];
        lose_link(process, alloc, loss, links)
    }

    /// Loses a link of the IPC process at a place, as `lose_link` does, and ends each allocated end at its node with a state
    /// other than `Allocated`, in the order of the journal; what their connections hold is written off behind what the
    /// link and its management connection had. Without memory nothing changes.
    pub fn lose_last_link(
        &mut self,
        alloc: Global,
        at: usize,
        loss: LinkLoss,
        links: &mut Flows,
        flows: &mut Flows,
        node: Node,
        state: PortState,
    ) -> Result<(), Memory>
        requires at { at < length self.old }
        requires place { (p : IpcProcess) → slice_get self.old at ≡ Some p → loss.place < length p.links }
        requires end { IfSome loss.end (λ place. place < length links.old.journal.ends) }
        requires conn { IfSome loss.end (λ place. place < length links.old.conns) }
        requires alike { length flows.old.journal.ends ≡ length flows.old.conns }
        ensures loses { LosesLastIn node state loss result at links.old flows.old self.old links.new flows.new self.new }
        ensures leaves { ChangesAt (λ i. WhenOk result (IsAllocatedAt flows.old.journal.ends node i)) flows.old flows.new }
    {
        let process = &mut self.items[at];
        lose_last_link(process, alloc, loss, links, flows, node, state)
    }

    /// Takes one step of the IPC process at a place at a link: a PDU that waits is sent below, or written off, or stays.
    pub fn out_step<F: Facility, S: Picks>(
        &mut self,
        alloc: Global,
        below: &mut F,
        shelf: &mut S,
        settings: &Settings,
        at: usize,
        now: Tick,
        link: u16,
    ) -> Result<OutStep, StepError>
        requires valid { F.valid below.old }
        requires at { at < length self.old }
        requires member { at < length settings.now.members }
        requires can { WillGo (config_of settings.now) now (F.seen below.old) link at self.old }
        ensures valid { F.valid below.new }
        ensures below { F.same_below below.old below.new }
        ensures later { IsLater (F.seen below.old) (F.seen below.new) }
        ensures does { Leaves (F.refuses_send below.old) (config_of settings.now) now (F.seen below.old) link result (F.seen below.new) at self.old self.new }
        ensures lower { SendsBelow (below.new ≡ below.old) (SendsAsSeen F.seen F.refuses_send F.does_send below.old below.new) result }
        ensures shelf { AsksAt (S.may_answer shelf.old settings.now.policy) (IsHeld (F.refuses_send below.old) (config_of settings.now) now (F.seen below.old) link) settings.now link at (S.slots shelf.old) (S.slots shelf.new) self.old result self.new }
        ensures names { map (λ (x : Slot). x.name) (S.slots shelf.new) ≡ map (λ (x : Slot). x.name) (S.slots shelf.old) }
    {
        let Some(member) = settings.members.get(at) else {
            unreachable!()
        };
        let who = member.number;
        let process = &mut self.items[at];
        process.out_step(alloc, below, shelf, settings, who, now, link)
    }

    /// Puts PDUs of a cube, made at a tick, at the end of its queue for a link of the IPC process at a place, which has
    /// room for them. `left` is the lifetime that they have. Takes no memory.
    pub fn put(&mut self, at: usize, qos: u8, link: u16, left: u32, since: Tick, pdus: Vec<Pdu>)
        requires at { at < length self.old }
        requires cube { AreOf qos pdus.items }
        requires room { (p : IpcProcess) → slice_get self.old at ≡ Some p → HasRoomFor qos link (length pdus.items) p }
        ensures { Puts qos link (queued left since pdus.items) at self.old self.new }
    {
        let process = &mut self.items[at];
        put_all(&mut process.queues, qos, link, left, since, pdus);
    }

    /// Lets the IPC process at a place decide on a PDU that came at tick `since`, where it has the address `addr`.
    pub fn route_or_deliver(
        &mut self,
        alloc: Global,
        at: usize,
        now: Tick,
        addr: Addr,
        since: Tick,
        hop: &HopView<'_>,
    ) -> Result<Decision, Memory>
        requires now { now ≤ 10_000_000 }
        requires at { at < length self.old }
        requires routed { RoutesAt (hop_of hop.now) at self.old }
        ensures { DecidesAt now addr since (hop_of hop.now) result at self.old self.new }
    {
        let process = &mut self.items[at];
        process.route_or_deliver(alloc, now, addr, since, hop)
    }

    /// Puts a PDU, made at tick `now`, into the queue of its next hop at the IPC process of a place, or writes it off.
    /// Without memory nothing changes.
    pub fn forward(
        &mut self,
        alloc: Global,
        at: usize,
        now: Tick,
        hop: &HopView<'_>,
    ) -> Result<Decision, Memory>
        requires at { at < length self.old }
        requires routed { RoutesAt (hop_of hop.now) at self.old }
        ensures { ForwardsAt now (hop_of hop.now) result at self.old self.new }
    {
        let process = &mut self.items[at];
        process.forward(alloc, now, hop)
    }

    /// Writes a PDU off in the ledger of the IPC process at a place.
    pub fn write_off(
        &mut self,
        alloc: Global,
        at: usize,
        hop: &HopView<'_>,
        cause: Cause,
    ) -> Result<(), Memory>
        requires { at < length self.old }
        ensures { NotesAt (hop_of hop.now).pdu cause result at self.old self.new }
    {
        let process = &mut self.items[at];
        process.write_off(alloc, hop, cause)
    }

    /// Lets the connection at a place of the flows take a piece that came to the IPC process at a place.
    pub fn on_data(
        &mut self,
        alloc: Global,
        at: usize,
        flows: &mut Flows,
        now: Tick,
        place: usize,
        pdu: &PduView<'_>,
    ) -> Result<Option<Cause>, Memory>
        requires now { now ≤ 10_000_000 }
        requires at { at < length self.old }
        requires end { place < length flows.old.journal.ends }
        requires conn { place < length flows.old.conns }
        ensures arrives { ArrivesTo now place (pdu_of pdu.now) at flows.old self.old result flows.new self.new }
        ensures leaves { ChangesAt (λ i. i ≡ place) flows.old flows.new }
    {
        let process = &mut self.items[at];
        flows.on_data(alloc, now, place, pdu, &mut process.ledger)
    }

    /// Lets the management connection at a place of these flows take a piece that came on the link of an IPC process. What
    /// it writes off has source 0 in the ledger, as on the link.
    pub fn on_link_data(
        &mut self,
        alloc: Global,
        at: usize,
        flows: &mut Flows,
        now: Tick,
        place: usize,
        pdu: &PduView<'_>,
    ) -> Result<Option<Cause>, Memory>
        requires now { now ≤ 10_000_000 }
        requires at { at < length self.old }
        requires end { place < length flows.old.journal.ends }
        requires conn { place < length flows.old.conns }
        ensures { ArrivesOnLink now place (pdu_of pdu.now) at flows.old self.old result flows.new self.new }
    {
        let process = &mut self.items[at];
        let from = process.ledger.lines().len();
        let cause = flows.on_data(alloc, now, place, pdu, &mut process.ledger)?;
        unname_lines(&mut process.ledger, alloc, from);
        Ok(cause)
    }

    /// Writes off what the connection at a place of the flows holds of a state that has ended, in the ledger of the IPC
    /// process at a place.
    pub fn forget(
        &mut self,
        alloc: Global,
        at: usize,
        flows: &mut Flows,
        now: Tick,
        place: usize,
    ) -> Result<bool, Memory>
        requires at { at < length self.old }
        requires conn { place < length flows.old.conns }
        ensures forgets { WithLedger (λ flows ledger flows' ledger'. ForgetsIn now place flows ledger result flows' ledger') at flows.old self.old flows.new self.new }
        ensures leaves { ChangesAt (λ i. i ≡ place) flows.old flows.new }
    {
        let process = &mut self.items[at];
        flows.forget(alloc, now, place, &mut process.ledger)
    }

    /// Writes off what the management connection at a place holds of a state that has ended, in the ledger of the IPC process
    /// at a place, with the names of its link.
    pub fn forget_link(
        &mut self,
        alloc: Global,
        at: usize,
        links: &mut Flows,
        now: Tick,
        place: usize,
    ) -> Result<bool, Memory>
        requires at { at < length self.old }
        requires conn { place < length links.old.conns }
        ensures { WithLedger (λ flows ledger flows' ledger'. ForgetsOn now place flows ledger result flows' ledger') at links.old self.old links.new self.new }
    {
        let process = &mut self.items[at];
        let from = process.ledger.lines().len();
        let result = links.forget(alloc, now, place, &mut process.ledger);
        unname_lines(&mut process.ledger, alloc, from);
        result
    }

    /// Puts a PDU of management, made at tick `now`, at the end of its queue for a link of the IPC process at a place, or
    /// writes it off where that is full. Answers why it is written off, if it is. Without memory nothing changes.
    pub fn post(
        &mut self,
        alloc: Global,
        at: usize,
        link: u16,
        now: Tick,
        hop: &HopView<'_>,
    ) -> Result<Option<Cause>, Memory>
        requires at { at < length self.old }
        requires qos { (hop_of hop.now).pdu.qos ≡ 0 }
        requires there { (p : IpcProcess) → slice_get self.old at ≡ Some p → IsSome (queue_place 0 link p.queues.queues.items) }
        ensures { PostsAt now link (hop_of hop.now) result at self.old self.new }
    {
        let process = &mut self.items[at];
        post(process, alloc, link, now, hop)
    }

    /// Lets the end at a place of the flows fail where its connection gives a number up, with what it holds written off in
    /// the ledger of the IPC process at a place.
    pub fn give_up(
        &mut self,
        alloc: Global,
        at: usize,
        flows: &mut Flows,
        now: Tick,
        place: usize,
    ) -> Result<Option<Num>, Memory>
        requires at { at < length self.old }
        requires end { place < length flows.old.journal.ends }
        requires conn { place < length flows.old.conns }
        ensures gives_up { WithLedger (λ flows ledger flows' ledger'. GivesUpIn now place flows ledger result flows' ledger') at flows.old self.old flows.new self.new }
        ensures leaves { ChangesAt (λ i. i ≡ place) flows.old flows.new }
    {
        let process = &mut self.items[at];
        flows.give_up(alloc, now, place, &mut process.ledger)
    }

    /// Ends the end at a place of the flows with a state other than `Allocated`, and writes off what its connection
    /// holds in the ledger of the IPC process at a place. Without memory nothing changes.
    pub fn stop(
        &mut self,
        alloc: Global,
        at: usize,
        flows: &mut Flows,
        now: Tick,
        place: usize,
        state: PortState,
    ) -> Result<(), Memory>
        requires at { at < length self.old }
        requires end { place < length flows.old.journal.ends }
        requires conn { place < length flows.old.conns }
        ensures stops { WithLedger (λ flows ledger flows' ledger'. StopsIn now place state flows ledger result flows' ledger') at flows.old self.old flows.new self.new }
        ensures leaves { ChangesAt (λ i. i ≡ place) flows.old flows.new }
    {
        let process = &mut self.items[at];
        flows.stop(alloc, now, place, state, &mut process.ledger)
    }
}
