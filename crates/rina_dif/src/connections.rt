//! The management connections of the links of a DIF.
ghost use Rattle.std.specs.Prelude.{◌≡◌, ◌<◌, ◌^◌, [], suc, IfOk, IfSome, OnOk, length, position};
ghost use Rattle.rina_base.specs.declared.number.Port.{Port};
ghost use Rattle.rina_base.specs.Pdus.{pdu_of};
ghost use Rattle.rina_cube.specs.Cubes.{IsCube};
ghost use Rattle.rina_data.specs.Configs.{config_of};
ghost use Rattle.rina_dif_law.specs.Standing.{IsConfig};
ghost use Rattle.rina_iface.specs.Seen.{Seen};
ghost use Rattle.rina_dif.specs.Closing.{FindsOpen};
ghost use Rattle.rina_dif.specs.Connected.{CanManage};
ghost use Rattle.rina_dif.specs.Taking.{LinkTakenBy};
ghost use Rattle.rina_dif.specs.Linking.{AreLinks, Connects, HasChannel, HaveConnections, IsChannelOf, StandOnLinks, is_on};

use crate::dif::place;
use crate::fixed_flows::{greatest, new_end, piece};
use crate::processes::Processes;
use rina_base::{Addr, FlowName, Memory, PduView, Port, Seq, Tick};
use rina_channel::{Attachment, Channel, channel_at, named, peer_at};
use rina_cube::Cube;
use rina_data::{Link, Settings};
use rina_flows::Flows;
use rina_iface::{PortState, Role};
use std::alloc::Global;

/// The management connections of the links of a DIF: one at each link, between the two IPC processes at its ends.
#[derive(Drop)]
pub struct Connections {
    /// The cube of each.
    pub manage: Cube,
    /// The link of each end, the two ends of a connection one after the other.
    pub channels: Seq<Channel>,
    /// The journal and the connection of each end, at the place of its link: the messages that were offered and handled there.
    pub flows: Flows,
}

/// Whether a link has a port.
#[tactic(auto, unfolding(crate::specs::Linking::is_on))]
fn is_on(link: &Link, port: Port) -> bool
    ensures { result ≡ is_on port link.now }
{
    link.port == port
}

/// The place of the link that has a port.
fn place_on(links: &[Link], port: Port) -> Option<usize>
    ensures place { result ≡ position (is_on port) links.now }
    ensures within { IfSome result (λ k. k < length links.now) }
{
    links.iter().position(|link| is_on(link, port))
}

/// The link with a port below, as one of the member at the port's node. `partner` is the place of its other end.
fn channel_of(settings: &Settings, processes: &Processes, port: Port, partner: Addr) -> Channel
    requires { HasChannel settings.now processes.now port }
    ensures { IsChannelOf settings.now processes.now port partner result }
{
    let Some(member) = place(settings.members.as_slice(), port.node) else {
        unreachable!()
    };
    let Some(process) = processes.get(member) else {
        unreachable!()
    };
    let links = process.links.as_slice();
    let Some(at) = place_on(links, port) else {
        unreachable!()
    };
    let number = links[at].number;
    Channel {
        member,
        link: Some(Attachment { number, port }),
        partner,
    }
}

/// The places of the two ends that are made next. None where they have no numbers.
pub(crate) fn next_places(made: usize) -> Option<(Addr, Addr)>
    ensures { IfSome result (λ places. (places.0 ≡ made) × (places.1 ≡ suc made) × (places.1 < 2 ^ 32)) }
{
    let near = Addr::try_from(made).ok()?;
    let far = near.checked_add(1)?;
    Some((near, far))
}

impl Connections {
    /// The place of the end of the link that has a port below, where it is allocated. None exactly where none is.
    pub(crate) fn open_on(&self, port: Port) -> Option<usize>
        ensures { FindsOpen self.now port result }
    {
        let place = channel_at(self.channels.as_slice(), port)?;
        let end = self.flows.journal.ends.get(place)?;
        match end.state {
            PortState::Allocated => Some(place),
            _ => None,
        }
    }

    /// No management connections yet, of this cube.
    pub fn none(alloc: Global, manage: Cube) -> Connections
        ensures manage { result.manage ≡ manage }
        ensures channels { result.channels ≡ [] }
        ensures ends { result.flows.journal.ends ≡ [] }
        ensures conns { result.flows.conns ≡ [] }
    {
        Connections {
            manage,
            channels: Seq::new(alloc),
            flows: Flows::new(alloc),
        }
    }

    /// The place of the allocated end that takes a PDU which came on the link with a port below, and the PDU by the places of
    /// the two ends. None exactly where no end takes it. Takes no memory.
    pub fn taker<'a>(&self, port: Port, pdu: &PduView<'a>) -> Option<(usize, PduView<'a>)>
        ensures { LinkTakenBy self.now port (pdu_of pdu.now) result }
    {
        let place = channel_at(self.channels.as_slice(), port)?;
        let peer = self.flows.conns.get(place)?.sending.form.peer;
        let pdu = named(pdu, peer.far, peer.own);
        if self.flows.takes(place, &pdu) {
            Some((place, pdu))
        } else {
            None
        }
    }

    /// Makes both ends of the connection of the link whose flow below has these ports. After an error some of it may be made.
    fn connect(
        &mut self,
        alloc: Global,
        settings: &Settings,
        clock: Tick,
        processes: &Processes,
        pair: (Port, Port),
    ) -> Result<(), Memory>
        requires config { IsConfig (config_of settings.now) }
        requires manage { IsCube self.old.manage }
        requires near { HasChannel settings.now processes.now pair.0 }
        requires far { HasChannel settings.now processes.now pair.1 }
        ensures { OnOk result (Connects settings.now processes.now clock pair self.old self.new) }
    {
        let Some((place, partner)) = next_places(self.channels.len()) else {
            return Err(Memory);
        };
        let near = channel_of(settings, processes, pair.0, partner);
        let far = channel_of(settings, processes, pair.1, place);
        let (Some(near_member), Some(far_member)) = (
            settings.members.get(near.member),
            settings.members.get(far.member),
        ) else {
            unreachable!()
        };
        let (near_name, far_name) = (&near_member.name, &far_member.name);
        let flow = FlowName {
            src: place,
            tick: clock,
            count: 0,
        };
        let asker = new_end(alloc, flow, Role::Asker, pair.0, near_name, far_name, 0)?;
        let end = new_end(alloc, flow, Role::Far, pair.1, far_name, near_name, 0)?;
        let piece = piece(settings);
        let max = greatest(settings.widths);
        let manage = self.manage;
        self.channels.push(near)?;
        self.channels.push(far)?;
        let peer = peer_at(place, partner);
        self.flows.add(alloc, &manage, piece, max, peer, asker, end)
    }

    /// The management connections of links, of a cube. These are the ports of the two ends of each link's flow below, which are
    /// links of the IPC processes. `Memory` where an allocation fails, or there are more than 4,294,967,295 ends.
    pub(crate) fn of_links(
        alloc: Global,
        manage: Cube,
        settings: &Settings,
        clock: Tick,
        processes: &Processes,
        ports: &[(Port, Port)],
    ) -> Result<Connections, Memory>
        requires manage { CanManage (config_of settings.now) manage }
        requires links { (below : Seen) × AreLinks settings.now clock ports.now processes.now below }
        ensures have { IfOk result (HaveConnections settings.now manage ports.now processes.now) }
        ensures stand { IfOk result (StandOnLinks settings.now clock ports.now processes.now) }
    {
        let mut made = Connections::none(alloc, manage);
        for pair in ports {
            made.connect(alloc, settings, clock, processes, *pair)?;
        }
        Ok(made)
    }
}
