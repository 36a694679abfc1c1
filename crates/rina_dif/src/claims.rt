//! How an IPC process of a DIF claims a flow that came in for it as a new link. A flow that no channel awaits, since the DIF did not ask for it or
//! lacked memory then, is claimed too, and is no link: so the next one can come.
ghost use Rattle.std.specs.Prelude.{◌≡◌, ◌<◌, ◌≤◌, ℕ, List, false, length, position, slice_get, Some, Ok, IfOk, IfSome, OnErr};
ghost use Rattle.rina_iface.specs.declared.ends.End.{End};
ghost use Rattle.rina_iface.specs.Ends.{end_in};
ghost use Rattle.rina_iface.specs.Free.{FreesAsSeen};
ghost use Rattle.rina_iface.specs.Later.{IsLater};
ghost use Rattle.rina_iface.specs.Seen.{Seen, end_of};
ghost use Rattle.rina_law.specs.Direction.{Direction};
ghost use Rattle.rina_data.specs.declared.process.IpcProcess.{IpcProcess};
ghost use Rattle.rina_data.specs.Configs.{config_of};
ghost use Rattle.rina_dif_law.specs.Cloud.{IsMine};
ghost use Rattle.rina_dif_law.specs.Sending.{home};
ghost use Rattle.rina_dif.specs.FlowEnds.{ManagesStep};
ghost use Rattle.rina_dif.specs.Claiming.{ClaimsHere, ClaimsIn, ClaimsManaged, FindsAwaiting, IsAwaiting, IsOfChannel, TakesClaimed, awaiting, channels_of, is_awaiting};
ghost use Rattle.rina_dif.specs.Clocking.{ClaimsOrServes};
ghost use Rattle.rina_dif.specs.Elsewhere.{ChangesOnly, ChangesProcess, MayClock};
ghost use Rattle.rina_dif.specs.Enrolling.{is_full};
ghost use Rattle.rina_dif.specs.Holding.{Holds, Stands};
ghost use Rattle.rina_dif.specs.Lower.{ClaimsInTurn, ClaimsLower, ClocksBelow, name_of};
ghost use Rattle.rina_dif.specs.Shown.{seen_of};
ghost use Rattle.rina_dif.specs.WaitingAsks.{KeepsStep};

use crate::dif::Dif;
use crate::new_links::{is_full, least_number};
use rina_base::{AppName, FlowName, Memory, Node, Port};
use rina_channel::{Attachment, Channel, channel_at};
use rina_data::{ClockStep, StepError};
use rina_iface::{Ends, Facility};
use rina_member::claimed;
use std::alloc::Global;

/// Claims the first flow that came in for an application at a node, of the facilities below in the order of their numbers from 0, and
/// answers its port. None exactly where none waits. Where no flow waits at any of them, none is asked.
fn claim_first<F: Facility>(below: &mut F, node: Node, app: &AppName) -> Option<Port>
    requires valid { F.valid below.old }
    ensures valid { F.valid below.new }
    ensures below { F.same_below below.old below.new }
    ensures later { IsLater (F.seen below.old) (F.seen below.new) }
    ensures claims { ClaimsIn (F.seen below.old) node app.now result (F.seen below.new) }
    ensures lower { ClaimsInTurn (λ x fac answer y. F.does_incoming x fac node app.now answer y) below.old result below.new }
{
    if below.none_waits() {
        return None;
    }
    for fac in 0..u16::MAX {
        if below.journal(fac).is_none() {
            return None;
        }
        if let Some(port) = below.incoming(fac, node, app) {
            return Some(port);
        }
    }
    None
}

/// Whether a channel of the IPC process at a place has no link, and its partner's link is an end of the flow of a name, among the ends of
/// that flow's facility.
#[tactic(auto, unfolding(crate::specs::Claiming::is_awaiting))]
fn is_awaiting(
    channels: &[Channel],
    channel: &Channel,
    at: usize,
    ends: &Ends,
    flow: FlowName,
) -> bool
    ensures { result ≡ is_awaiting channels.now at ends.now flow channel.now }
{
    if channel.member != at || channel.link.is_some() {
        return false;
    }
    let Some(partner) = channels.get(channel.partner as usize) else {
        return false;
    };
    let Some(link) = partner.link else {
        return false;
    };
    match ends.find(link.port) {
        Some(end) => end.flow == flow,
        None => false,
    }
}

/// The place of the first such channel. Only a channel of that IPC process which has no link costs a look-up below.
fn awaiting_flow(channels: &[Channel], at: usize, ends: &Ends, flow: FlowName) -> Option<usize>
    ensures place { result ≡ position (is_awaiting channels.now at ends.now flow) channels.now }
    ensures within { IfSome result (λ k. k < length channels.now) }
{
    channels
        .iter()
        .position(|channel| is_awaiting(channels, channel, at, ends, flow))
}

/// The same for the flow of the end at a port below.
fn awaiting(channels: &[Channel], at: usize, ends: &Ends, port: Port) -> Option<usize>
    ensures place { result ≡ awaiting channels.now at ends.now (end_in port ends.now) }
    ensures within { IfSome result (λ k. k < length channels.now) }
{
    match ends.find(port) {
        Some(end) => awaiting_flow(channels, at, ends, end.flow),
        None => None,
    }
}

impl Dif {
    /// The place of the channel, of the IPC process at a place, that awaits the flow of a port below, of which the port's end is the far
    /// one: its partner's link is the other end. None exactly where no channel awaits it, or one has the port already.
    fn awaiting_at<F: Facility>(&self, below: &F, at: usize, port: Port) -> Option<usize>
        requires valid { F.valid below.now }
        requires stands { Stands self.now (F.seen below.now) }
        requires mine { (end : End) → end_of (F.seen below.now) port ≡ Some end → IsMine (config_of self.now.settings).members end.app }
        ensures finds { FindsAwaiting self.now (F.seen below.now) at port result }
        ensures alone { IfSome result (λ place. IsOfChannel self.now.connections.channels port → ⊥) }
    {
        let channels = self.connections.channels.as_slice();
        if channel_at(channels, port).is_some() {
            return None;
        }
        match below.journal(port.fac) {
            Some(journal) => awaiting(channels, at, &journal.ends, port),
            None => None,
        }
    }

    /// Lets the IPC process at a place take the flow of a port below, which it has claimed, as a new link of the least number that no live
    /// link of it has, and answers the number: the channel at a place that awaits the flow gets it, and so does the management of the
    /// member. Without memory the DIF shows what it showed.
    fn take_claimed(
        &mut self,
        alloc: Global,
        at: usize,
        place: usize,
        port: Port,
    ) -> Result<u16, Memory>
        requires stands { (below : Seen) × Stands self.old below × IsAwaiting (channels_of self.old) below at port place }
        requires at { at < length self.old.settings.members }
        requires room { (p : IpcProcess) → slice_get self.old.processes at ≡ Some p → is_full p.links ≡ false }
        ensures does { (below : Seen) → IsAwaiting (channels_of self.old) below at port place → IfOk result (λ number. TakesClaimed self.old below at number port self.new) }
        ensures err { (lines : List Direction) (below : Seen) → Holds self.old lines below → OnErr result ((seen_of self.new ≡ seen_of self.old) × Holds self.new lines below) }
        ensures whole { self.new ≡ record self.old { processes = self.new.processes; connections = record self.old.connections { channels = self.new.connections.channels }; managements = self.new.managements } }
        ensures stays { OnErr result (self.new.connections ≡ self.old.connections) }
        ensures manages { (number : ℕ) → result ≡ Ok number → ClaimsManaged (Some number) at self.old self.new.managements }
        ensures keeps { OnErr result (self.new.managements ≡ self.old.managements) }
        ensures leaves { ChangesProcess (Some at) self.old.processes self.new.processes }
    {
        let (Some(process), Some(management), Some(channel)) = (
            self.processes.get(at),
            self.managements.get(at),
            self.connections.channels.get(place),
        ) else {
            unreachable!()
        };
        let number = least_number(process.links.as_slice());
        let link = Attachment { number, port };
        let linked = Channel {
            link: Some(link),
            ..*channel
        };
        let after = claimed(alloc, management, number)?;
        self.processes.take_link(alloc, at, link)?;
        self.connections.channels.set(place, linked);
        self.managements.set(at, after);
        Ok(number)
    }

    /// Claims the first flow that came in below for the IPC process at a place, at a node, where it has fewer than 16 live links, and takes
    /// it as a new link where a channel of it awaits the flow; answers the number of the link. None exactly where no flow waits for it, it may
    /// have no link more, or the flow that was claimed is no link. Without memory the flow is claimed, and is no link; the DIF shows
    /// what it showed.
    fn claim_at<F: Facility>(
        &mut self,
        alloc: Global,
        below: &mut F,
        at: usize,
        node: Node,
    ) -> Result<Option<u16>, Memory>
        requires valid { F.valid below.old }
        requires stands { Stands self.old (F.seen below.old) }
        requires at { at < length self.old.settings.members }
        requires home { home node (config_of self.old.settings).members ≡ Some at }
        ensures valid { F.valid below.new }
        ensures below { F.same_below below.old below.new }
        ensures later { IsLater (F.seen below.old) (F.seen below.new) }
        ensures does { (lines : List Direction) → Holds self.old lines (F.seen below.old) → ClaimsHere self.old lines (F.seen below.old) node result self.new (F.seen below.new) }
        ensures lower { ClaimsLower (λ x fac answer y. F.does_incoming x fac node (name_of self.old at) answer y) below.old result below.new }
        ensures whole { self.new ≡ record self.old { processes = self.new.processes; connections = record self.old.connections { channels = self.new.connections.channels }; managements = self.new.managements } }
        ensures stays { OnErr result (self.new.connections ≡ self.old.connections) }
        ensures manages { IfOk result (λ link. ClaimsManaged link at self.old self.new.managements) }
        ensures keeps { OnErr result (self.new.managements ≡ self.old.managements) }
        ensures leaves { ChangesProcess (Some at) self.old.processes self.new.processes }
    {
        let (Some(process), Some(member)) = (self.processes.get(at), self.settings.members.get(at))
        else {
            unreachable!()
        };
        if is_full(process.links.as_slice()) {
            return Ok(None);
        }
        let Some(port) = claim_first(below, node, &member.name) else {
            return Ok(None);
        };
        match self.awaiting_at(&*below, at, port) {
            Some(place) => Ok(Some(self.take_claimed(alloc, at, place, port)?)),
            None => Ok(None),
        }
    }

    /// Claims a flow that came in below as a new link of the IPC process at a place, at a node; or, where none is, does what is due
    /// there behind that.
    pub(crate) fn claim_or_serve<F: Facility>(
        &mut self,
        alloc: Global,
        below: &mut F,
        at: usize,
        node: Node,
    ) -> Result<ClockStep, StepError>
        requires valid { F.valid below.old }
        requires stands { Stands self.old (F.seen below.old) }
        requires clock { self.old.clock ≤ 10_000_000 }
        requires at { at < length self.old.settings.members }
        requires home { home node (config_of self.old.settings).members ≡ Some at }
        ensures valid { F.valid below.new }
        ensures below { F.same_below below.old below.new }
        ensures later { IsLater (F.seen below.old) (F.seen below.new) }
        ensures does { (lines : List Direction) → Holds self.old lines (F.seen below.old) → ClaimsOrServes self.old lines (F.seen below.old) node result self.new (F.seen below.new) }
        ensures lower { ClocksBelow (λ x fac answer y. F.does_incoming x fac node (name_of self.old at) answer y) (FreesAsSeen F.seen F.frees_both F.does_free) below.old result below.new }
        ensures same { (self.new.settings ≡ self.old.settings) × (self.new.failed ≡ self.old.failed) }
        ensures laid { self.new.laid ≡ self.old.laid }
        ensures whole { self.new ≡ record self.old { processes = self.new.processes; connections = self.new.connections; flows = self.new.flows; ids = self.new.ids; asks = self.new.asks; managements = self.new.managements } }
        ensures stays { OnErr result (self.new.connections ≡ self.old.connections) }
        ensures manages { ManagesStep result (Some at) self.old (F.seen below.old) node self.new.managements }
        ensures keeps { KeepsStep result self.old node self.new }
        ensures leaves { ChangesOnly (MayClock result self.old (Some at)) (Some at) self.old self.new }
    {
        match self.claim_at(alloc, below, at, node)? {
            Some(link) => Ok(ClockStep::LinkNew { link }),
            None => self.serve_any(alloc, below, at, node),
        }
    }
}
