//! How an IPC process of a DIF asks to enrol at a member.
ghost use Rattle.std.specs.Prelude.{◌≡◌, ◌<◌, ◌↔◌, [], ◌∷◌, ◌++◌, true, false, length, slice_get, Some, None, Ok, Err, IfOk, OnErr, OnOk, List, ℕ};
ghost use Rattle.rina_cube.specs.Cubes.{IsCube};
ghost use Rattle.rina_base.specs.declared.number.Port.{Port};
ghost use Rattle.rina_iface.specs.Later.{IsLater};
ghost use Rattle.rina_iface.specs.Seen.{Seen};
ghost use Rattle.rina_law.specs.Direction.{Direction};
ghost use Rattle.rina_data.specs.declared.process.IpcProcess.{IpcProcess};
ghost use Rattle.rina_data.specs.declared.settings.Member.{Member};
ghost use Rattle.rina_data.specs.Configs.{config_of, greatest, piece_size};
ghost use Rattle.rina_dif_law.specs.Standing.{IsConfig};
ghost use Rattle.rina_flows.specs.Adding.{Adds};
ghost use Rattle.rina_dif_law.specs.Upward.{IsSilent};
ghost use Rattle.rina_member.specs.declared.management.Management.{Management};
ghost use Rattle.rina_dif.specs.declared.enrol.EnrolError.TheVariants as errors;
ghost use Rattle.rina_dif.specs.Elsewhere.{ChangesProcess, home_of};
ghost use Rattle.rina_dif.specs.Enrolling.{AllocatesAsSeen, AllocatesBelow, AnswersAsk, AnswersJoin, ConnectsJoiner, EnrolsAs, IsJoining, JoinsOr, TellsRefusal, enrolling_on, is_joining_on, joins_still, link_ask, marked, no_port, refused_joiner};
ghost use Rattle.rina_dif.specs.Facade.{GoesOn, OthersStand};
ghost use Rattle.rina_dif.specs.Holding.{Holds, Stands};
ghost use Rattle.rina_dif.specs.Shown.{seen_of};

use crate::connections::{Connections, next_places};
use crate::dif::Dif;
use crate::fixed_flows::{greatest, new_end, piece};
use crate::names::is_formed;
use crate::new_links::{is_full, least_number};
use crate::processes::MOST_LINKS;
use rina_agent::{AgentError, End as Machine, Enrolment, Link as Managed};
use rina_base::{FlowName, Memory, Node, Port, Seq, Tick};
use rina_channel::{Attachment, Channel, peer_at};
use rina_cube::Want;
use rina_data::{IpcProcess, Member, Settings};
use rina_iface::{AllocateError, Ask, End, Facility, Role};
use rina_member::{Management, joining, node_of};
use rina_session::State;
use std::alloc::Global;

/// Why an enrolment was not begun. The variants stand in the order in which they are tried.
#[derive(Clone, Copy, Debug, PartialEq, Eq)]
pub enum EnrolError {
    /// Memory was not found.
    Memory,
    /// The DIF has no IPC process at one of the two nodes.
    NoIpc,
    /// An enrolment of the joiner runs, on this link.
    Enrolling { link: u16 },
    /// The joiner has `max` live links, and may have no more.
    LinksFull { max: u32 },
    /// The joiner would need `need` invoke ids, and has `left`.
    CountSpent { need: u32, left: u32 },
    /// The facility below refused the flow.
    Lower(AllocateError),
}

impl From<Memory> for EnrolError {
    ghost use Rattle.std.specs.Prelude.{◌≡◌};
    ghost use Rattle.rina_dif.specs.declared.enrol.EnrolError.TheVariants.{Memory};

    ghost from_gives = { λ _ e. e ≡ Memory };

    fn from(_error: Memory) -> EnrolError {
        EnrolError::Memory
    }
}

/// Whether one end of an enrolment runs as that of a joiner.
fn joins_still(enrolment: &Enrolment) -> bool
    ensures { result ≡ joins_still enrolment.now.session enrolment.now.end }
{
    match &enrolment.end {
        Machine::Joins { joiner, .. } => {
            !matches!(enrolment.session.state(), State::Idle) && !joiner.enrolled && !joiner.lost
        }
        Machine::Joined { .. } => false,
    }
}

/// Whether an enrolment runs on a link, whose member joins there.
fn is_joining_on(link: &Managed) -> bool
    ensures { result ≡ is_joining_on link.now }
{
    match &link.enrolment {
        Some(enrolment) => joins_still(enrolment),
        None => false,
    }
}

/// The link on which the enrolment of a member runs. None exactly where none runs.
fn enrolling_on(links: &[Managed]) -> Option<u16>
    ensures { result ≡ enrolling_on links.now }
{
    let link = links.iter().find(|link| is_joining_on(link))?;
    Some(link.number)
}

/// Why a member may not begin to join at another, by what it alone knows. None exactly where it may.
fn refused_joiner(process: &IpcProcess, management: &Management) -> Option<EnrolError>
    ensures { result ≡ refused_joiner process.now management.now }
{
    let agent = &management.agent;
    if let Some(link) = enrolling_on(agent.links.as_slice()) {
        return Some(EnrolError::Enrolling { link });
    }
    if is_full(process.links.as_slice()) {
        let max = u32::from(MOST_LINKS);
        return Some(EnrolError::LinksFull { max });
    }
    let left = u32::MAX - agent.last_invoke;
    if left < 1 {
        return Some(EnrolError::CountSpent { need: 1, left });
    }
    None
}

/// The management of a member after CONNECT to another was made to wait on a new link of a number.
fn management_joining(
    alloc: Global,
    management: &Management,
    number: u16,
    member: &Member,
) -> Result<Management, EnrolError>
    ensures { AnswersJoin number member.now management.now result }
{
    let node = node_of(alloc, member)?;
    match joining(alloc, management, number, &member.name, &node) {
        Ok(after) => Ok(after),
        Err(AgentError::Memory) => Err(EnrolError::Memory),
        Err(AgentError::CountSpent { need, left }) => Err(EnrolError::CountSpent { need, left }),
    }
}

/// Asks the rank below for a flow. Its refusal is told as that, and want of memory as want of memory.
fn ask_below<F: Facility>(alloc: Global, below: &mut F, ask: &Ask) -> Result<Port, EnrolError>
    requires valid { F.valid below.old }
    ensures valid { F.valid below.new }
    ensures below { F.same_below below.old below.new }
    ensures later { IsLater (F.seen below.old) (F.seen below.new) }
    ensures asks { AnswersAsk (AllocatesAsSeen F.seen F.refuses_allocate F.does_allocate below.old below.new ask.now) result }
{
    match below.allocate(alloc, ask) {
        Ok(port) => Ok(port),
        Err(AllocateError::Memory) => Err(EnrolError::Memory),
        Err(error) => Err(EnrolError::Lower(error)),
    }
}

/// Whether memory was not found.
fn lacks_memory(done: &Result<(), EnrolError>) -> bool
    ensures { result ≡ true ↔ (done.now ≡ Err errors.Memory) }
{
    matches!(done, Err(EnrolError::Memory))
}

/// A port of a node for an end whose flow below is not claimed yet. No end below has it, since ports are numbered from 1.
fn no_port(fac: u16, node: Node) -> Port
    ensures { result ≡ no_port fac node }
{
    Port { fac, node, n: 0 }
}

impl Connections {
    /// Adds both ends of a connection, with their channels. Without memory nothing changes.
    fn add_both(
        &mut self,
        alloc: Global,
        settings: &Settings,
        channels: (Channel, Channel),
        ends: (End, End),
    ) -> Result<(), Memory>
        requires config { IsConfig (config_of settings.now) }
        requires manage { IsCube self.old.manage }
        ensures manage { self.new.manage ≡ self.old.manage }
        ensures channels { OnOk result (self.new.channels ≡ self.old.channels ++ channels.0 ∷ channels.1 ∷ []) }
        ensures ends { OnOk result (self.new.flows.journal.ends ≡ self.old.flows.journal.ends ++ ends.0 ∷ ends.1 ∷ []) }
        ensures adds { OnOk result (Adds self.old.manage (piece_size (config_of settings.now)) (greatest (config_of settings.now)) (record { own = channels.1.partner; far = channels.0.partner; scep = 0; dcep = 0 }) ends.0 ends.1 self.old.flows self.new.flows) }
        ensures err { OnErr result (self.new ≡ self.old) }
    {
        let (near, far) = channels;
        let (asker, end) = ends;
        let mut all = Seq::from_vec(Vec::from_slice(alloc, self.channels.as_slice())?);
        all.push(near)?;
        all.push(far)?;
        let (piece, max) = (piece(settings), greatest(settings.widths));
        let peer = peer_at(far.partner, near.partner);
        self.flows
            .add(alloc, &self.manage, piece, max, peer, asker, end)?;
        self.channels = all;
        Ok(())
    }

    /// Makes both ends of the connection of a new link of the member at a place, which asks to enrol at the member at another: its
    /// own end with the link, and the other, which has none before that member claims the flow below. Without memory nothing changes.
    fn connect_joiner(
        &mut self,
        alloc: Global,
        settings: &Settings,
        clock: Tick,
        members: (usize, usize),
        link: Attachment,
    ) -> Result<(), Memory>
        requires config { IsConfig (config_of settings.now) }
        requires manage { IsCube self.old.manage }
        requires joiner { members.0 < length settings.now.members }
        requires member { members.1 < length settings.now.members }
        ensures ok { OnOk result ((joiner member : Member) → slice_get settings.now.members members.0 ≡ Some joiner → slice_get settings.now.members members.1 ≡ Some member → ConnectsJoiner settings.now clock members.0 members.1 joiner member link self.old self.new) }
        ensures err { OnErr result (self.new ≡ self.old) }
    {
        let Some((place, partner)) = next_places(self.channels.len()) else {
            return Err(Memory);
        };
        let (Some(joiner), Some(member)) = (
            settings.members.get(members.0),
            settings.members.get(members.1),
        ) else {
            unreachable!()
        };
        let flow = FlowName {
            src: place,
            tick: clock,
            count: 0,
        };
        let (name, its_name) = (&joiner.name, &member.name);
        let its_port = no_port(link.port.fac, member.node);
        let asker = new_end(alloc, flow, Role::Asker, link.port, name, its_name, 0)?;
        let end = new_end(alloc, flow, Role::Far, its_port, its_name, name, 0)?;
        let near = Channel {
            member: members.0,
            link: Some(link),
            partner,
        };
        let far = Channel {
            member: members.1,
            link: None,
            partner: place,
        };
        self.add_both(alloc, settings, (near, far), (asker, end))
    }
}

impl Dif {
    /// The ask of the joiner at a place for a flow of a facility below to the member at another.
    fn link_ask(&self, alloc: Global, fac: u16, at: usize, peer: usize) -> Result<Ask, Memory>
        requires joiner { at < length self.now.settings.members }
        requires member { peer < length self.now.settings.members }
        ensures { (joiner member : Member) → slice_get self.now.settings.members at ≡ Some joiner → slice_get self.now.settings.members peer ≡ Some member → IfOk result (λ ask. ask ≡ link_ask self.now fac joiner member) }
    {
        let (Some(joiner), Some(member)) = (
            self.settings.members.get(at),
            self.settings.members.get(peer),
        ) else {
            unreachable!()
        };
        Ok(Ask {
            fac,
            node: joiner.node,
            app: joiner.name.copy(alloc)?,
            to: member.name.copy(alloc)?,
            want: Want {
                ordered: false,
                reliable: false,
                within: u32::MAX,
                size: self.settings.pdu,
            },
        })
    }

    /// The number of the next link of the joiner at a place, and its management with CONNECT to the member at another waiting there; or
    /// why it may not join.
    fn joining_at(
        &self,
        alloc: Global,
        at: usize,
        peer: usize,
    ) -> Result<(u16, Management), EnrolError>
        requires stands { (below : Seen) × Stands self.now below }
        requires joiner { at < length self.now.settings.members }
        requires member { peer < length self.now.settings.members }
        ensures ok { IfOk result (λ x. (port : Port) → IsJoining self.now at peer (record { number = x.0; port = port }) x.1) }
        ensures refused { (p : IpcProcess) (m : Management) → slice_get self.now.processes at ≡ Some p → slice_get self.now.managements at ≡ Some m → TellsRefusal (refused_joiner p m) result }
    {
        let (Some(process), Some(management), Some(member)) = (
            self.processes.get(at),
            self.managements.get(at),
            self.settings.members.get(peer),
        ) else {
            unreachable!()
        };
        if let Some(error) = refused_joiner(process, management) {
            return Err(error);
        }
        is_formed(&member.name);
        let number = least_number(process.links.as_slice());
        let after = management_joining(alloc, management, number, member)?;
        Ok((number, after))
    }

    /// Lets the joiner at a place take a flow below to the member at another, which is there, as a new link, on which CONNECT waits: the
    /// management after that is given. Without memory the DIF shows what it showed.
    fn take_asked(
        &mut self,
        alloc: Global,
        at: usize,
        peer: usize,
        link: Attachment,
        after: Management,
    ) -> Result<(), EnrolError>
        requires stands { (below : Seen) × Stands self.old below }
        requires joiner { at < length self.old.settings.members }
        requires member { peer < length self.old.settings.members }
        requires joins { IsJoining self.old at peer link after }
        ensures joins { JoinsOr self.old at peer link after result self.new }
        ensures leaves { ChangesProcess (Some at) self.old.processes self.new.processes }
    {
        let (settings, clock) = (&self.settings, self.clock);
        self.connections
            .connect_joiner(alloc, settings, clock, (at, peer), link)?;
        self.processes.take_link(alloc, at, link)?;
        self.managements.set(at, after);
        Ok(())
    }

    /// Asks the rank below for a flow of a facility, from the IPC process at a place to the member at another, and takes it as a new link. A
    /// refused call changes nothing. Without memory the flow below may be there; the DIF shows what it showed.
    fn enrol_at<F: Facility>(
        &mut self,
        alloc: Global,
        below: &mut F,
        fac: u16,
        at: usize,
        peer: usize,
    ) -> Result<(), EnrolError>
        requires valid { F.valid below.old }
        requires stands { Stands self.old (F.seen below.old) }
        requires alive { self.old.failed ≡ false }
        requires joiner { at < length self.old.settings.members }
        requires member { peer < length self.old.settings.members }
        ensures valid { F.valid below.new }
        ensures below { F.same_below below.old below.new }
        ensures later { IsLater (F.seen below.old) (F.seen below.new) }
        ensures does { (node its_node : ℕ) → home_of self.old node ≡ Some at → home_of self.old its_node ≡ Some peer → EnrolsAs (F.refuses_allocate below.old) self.old (F.seen below.old) node fac its_node result self.new (F.seen below.new) }
        ensures lower { (node its_node : ℕ) → home_of self.old node ≡ Some at → home_of self.old its_node ≡ Some peer → AllocatesBelow (below.new ≡ below.old) (AllocatesAsSeen F.seen F.refuses_allocate F.does_allocate below.old below.new) self.old node fac its_node result }
        ensures holds { (lines : List Direction) → Holds self.old lines (F.seen below.old) → Holds (marked result self.new) lines (F.seen below.new) }
        ensures whole { self.new ≡ record self.old { processes = self.new.processes; connections = self.new.connections; managements = self.new.managements } }
        ensures leaves { ChangesProcess (Some at) self.old.processes self.new.processes }
    {
        let (number, after) = self.joining_at(alloc, at, peer)?;
        let ask = self.link_ask(alloc, fac, at, peer)?;
        let port = ask_below(alloc, below, &ask)?;
        self.take_asked(alloc, at, peer, Attachment { number, port }, after)
    }

    /// Lets the IPC process at a node ask to enrol at the member at another: it asks a facility of the rank below, which is one of those
    /// just below the DIF, for a flow from its own application name to that of the member, neither ordered nor reliable, in whatever time, for
    /// whole PDUs. It takes the flow as a new link, with the least number that no live link of it has, and CONNECT waits there; both ends of
    /// the management connection of the link are made, the other without a link until the member claims the flow. A joiner that
    /// is enrolled gets a further link. Refused with `NoIpc` exactly where the DIF has no member at one of the nodes, with `Enrolling` exactly where an
    /// enrolment of the joiner runs, be it enrolled or not, with `LinksFull` exactly where it has 16 live links, with `CountSpent` exactly where no
    /// invoke id is left, and with `Lower` exactly where the rank below refuses the flow, for its reason. A refused call changes nothing. Without
    /// memory the flow below may have been made, and is no link; the DIF shows what it showed.
    pub fn enrol<F: Facility>(
        &mut self,
        alloc: Global,
        below: &mut F,
        node: Node,
        fac: u16,
        peer: Node,
    ) -> Result<(), EnrolError>
        requires valid { F.valid below.old }
        requires stands { Stands self.old (F.seen below.old) }
        ensures valid { F.valid below.new }
        ensures below { F.same_below below.old below.new }
        ensures later { IsLater (F.seen below.old) (F.seen below.new) }
        ensures does { self.old.failed ≡ false → EnrolsAs (F.refuses_allocate below.old) self.old (F.seen below.old) node fac peer result self.new (F.seen below.new) }
        ensures lower { AllocatesBelow (below.new ≡ below.old) (AllocatesAsSeen F.seen F.refuses_allocate F.does_allocate below.old below.new) self.old node fac peer result }
        ensures holds { (lines : List Direction) → Holds self.old lines (F.seen below.old) → Holds self.new lines (F.seen below.new) }
        ensures others { OthersStand self.old (F.seen below.old) (F.seen below.new) }
        ensures goes_on { GoesOn self.old self.new }
        ensures silent { IsSilent (seen_of self.old) (seen_of self.new) }
        ensures settings { self.new.settings ≡ self.old.settings }
        ensures laid { self.new.laid ≡ self.old.laid }
        ensures whole { self.new ≡ record self.old { processes = self.new.processes; connections = self.new.connections; managements = self.new.managements; failed = self.new.failed } }
        ensures leaves { ChangesProcess (home_of self.old node) self.old.processes self.new.processes }
        ensures failed { self.old.failed ≡ true → (result ≡ Err errors.Memory) × (self.new ≡ self.old) × (below.new ≡ below.old) }
        ensures fails { self.new.failed ≡ true ↔ (result ≡ Err errors.Memory) }
    {
        if self.failed {
            return Err(EnrolError::Memory);
        }
        let (Some(at), Some(its)) = (self.place_at_node(node), self.place_at_node(peer)) else {
            return Err(EnrolError::NoIpc);
        };
        let done = self.enrol_at(alloc, below, fac, at, its);
        self.failed = lacks_memory(&done);
        done
    }
}
