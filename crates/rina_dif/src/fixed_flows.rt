//! Flows that the stack fixes.
ghost use Rattle.std.specs.Prelude.{◌≡◌, ◌≢◌, ◌*◌, ◌+◌, ◌-◌, ◌<◌, ◌^◌, ◌==◌, ◌&&◌, List, IsSome, OnOk, OnErr, IfOk, Err, Some, true, ◌↔◌, ◌≤◌, length};
ghost use Rattle.rina_iface.specs.declared.error.AllocateError.TheVariants.{Memory as MemoryWanted};
ghost use Rattle.rina_iface.specs.declared.state.PortState.TheVariants.{Allocated};
ghost use Rattle.rina_iface.specs.Allocate.{new_end};
ghost use Rattle.rina_iface.specs.Bind.{Binds, with_name_once};
ghost use Rattle.rina_iface.specs.Ends.{drawn_at};
ghost use Rattle.rina_iface.specs.Seen.{Seen};
ghost use Rattle.rina_law.specs.Direction.{Direction};
ghost use Rattle.rina_pci.specs.Spelling.{AreWidths};
ghost use Rattle.rina_data.specs.Configs.{config_of, cube_by, greatest, piece_size};
ghost use Rattle.rina_dif_law.specs.Numbered.{asked_at, is_asker};
ghost use Rattle.rina_dif_law.specs.Standing.{IsConfig};
ghost use Rattle.rina_flows.specs.Elsewhere.{SameBut};
ghost use Rattle.rina_ids.specs.Members.{DrawsAt};
ghost use Rattle.rina_dif.specs.Binding.{AddsFlow, BindsTo, Draws, HaveDrawn, MayBind, SomeDraws, noting};
ghost use Rattle.rina_dif.specs.Changing.{BindsManaged, ManagesBind, MayHoldFar};
ghost use Rattle.rina_dif.specs.Facade.{GoesOn, IsShownAs, StaysStanding, shown_as};
ghost use Rattle.rina_dif.specs.Holding.{Holds};
ghost use Rattle.rina_dif.specs.Whole.{IsDif};

use crate::dif::Dif;
use crate::facade::cube_of;
use crate::names::is_formed;
use rina_base::{Addr, AppName, Cep, FlowName, Memory, Node, PduKind, Port, Seq};
use rina_conn::Peer;
use rina_data::Settings;
use rina_flows::Flows;
use rina_iface::{AllocateError, End, Entries, Fixed, PortState, Registered, Role, is_registered};
use rina_pci::{Widths, pci_len};
use std::alloc::Global;
use std::mem;

/// The place and the address of a member, and the port and the CEP-id that are drawn next there.
#[derive(Clone, Copy)]
pub struct NextEnd {
    pub place: usize,
    pub addr: Addr,
    pub port: Port,
    pub cep: Cep,
}

/// How many ports were drawn at a node.
pub(crate) fn drawn(ends: &[End], node: Node) -> usize
    ensures { result ≡ drawn_at node ends.now }
{
    ends.iter().filter(|end| end.port.node == node).count()
}

/// Whether an end is one of the asker.
pub(crate) fn is_asker(end: &End) -> bool
    ensures { result ≡ is_asker end.now.role }
{
    matches!(end.role, Role::Asker)
}

/// How many flows were asked for at a node.
pub(crate) fn asked(ends: &[End], node: Node) -> usize
    ensures { result ≡ asked_at node ends.now }
{
    ends.iter()
        .filter(|end| end.port.node == node && is_asker(end))
        .count()
}

/// The greatest sequence number.
pub(crate) fn greatest(widths: Widths) -> u32
    requires { AreWidths widths }
    ensures { result ≡ 2 ^ (8 * widths.seq) - 1 }
{
    match widths.seq {
        1 => 0xff,
        2 => 0xffff,
        _ => u32::MAX,
    }
}

/// How many bytes a piece has at most.
pub(crate) fn piece(settings: &Settings) -> u32
    requires { IsConfig (config_of settings.now) }
    ensures { result ≡ piece_size (config_of settings.now) }
{
    settings.pdu - 4 - pci_len(PduKind::Piece, settings.widths)
}

/// An end of a flow of a cube, which is allocated at once.
pub(crate) fn new_end(
    alloc: Global,
    flow: FlowName,
    role: Role,
    port: Port,
    app: &AppName,
    peer: &AppName,
    cube: u8,
) -> Result<End, Memory>
    ensures { IfOk result (λ e. e ≡ new_end flow role port app.now peer.now cube Allocated) }
{
    Ok(End {
        flow,
        role,
        port,
        app: app.copy(alloc)?,
        peer: peer.copy(alloc)?,
        cube,
        sent: Entries::new(alloc),
        got: Entries::new(alloc),
        taken: 0,
        state: PortState::Allocated,
    })
}

/// Adds both ends of a flow of the asker's cube.
fn add_flow(
    settings: &Settings,
    flows: &mut Flows,
    alloc: Global,
    peer: Peer,
    asker: End,
    far: End,
) -> Result<(), Memory>
    requires valid { IsConfig (config_of settings.now) }
    requires cube { IsSome (cube_by asker.cube settings.now.cubes) }
    ensures ok { OnOk result (AddsFlow settings.now asker.cube peer asker far flows.old flows.new) }
    ensures keeps { OnOk result (SameBut (λ i. length flows.old.conns ≤ i) flows.old.conns flows.new.conns) }
    ensures err { OnErr result (flows.new ≡ flows.old) }
{
    let piece = piece(settings);
    let max = greatest(settings.widths);
    let Some(cube) = cube_of(settings.cubes.as_slice(), asker.cube) else {
        unreachable!()
    };
    flows.add(alloc, cube, piece, max, peer, asker, far)
}

/// Whether a flow was not made for want of memory.
pub(crate) fn wants_memory<T>(made: &Result<T, AllocateError>) -> bool
    ensures { result ≡ true ↔ (made.now ≡ Err MemoryWanted) }
{
    matches!(made, Err(AllocateError::Memory))
}

impl Dif {
    /// Whether an enrolled member is at a node, where fewer ports were drawn than it may have.
    fn has_room(&self, node: Node) -> bool
        ensures { result ≡ true ↔ SomeDraws self.now node }
    {
        let ends = self.flows.journal.ends.as_slice();
        self.enrolled_place(node).is_some() && drawn(ends, node) < self.settings.admits as usize
    }

    /// Whether a flow may be made now as one that the stack fixes: this DIF is meant and has the cube, and an enrolled member at
    /// each of the two nodes, which differ, may have a port more.
    pub fn may_bind(&self, fixed: &Fixed) -> bool
        ensures { result ≡ true ↔ MayBind self.now fixed.now }
    {
        let Some(_cube) = cube_of(self.settings.cubes.as_slice(), fixed.cube) else {
            return false;
        };
        if fixed.fac != self.settings.fac {
            return false;
        }
        if fixed.a == fixed.b {
            return false;
        }
        self.has_room(fixed.a) && self.has_room(fixed.b)
    }

    /// What a member at a node draws next.
    fn draw(&self, node: Node) -> NextEnd
        requires valid { IsDif self.now }
        requires some { SomeDraws self.now node }
        ensures { Draws self.now node result }
    {
        let Some(home) = self.place_at_node(node) else {
            unreachable!()
        };
        let Some(member) = self.settings.members.get(home) else {
            unreachable!()
        };
        let Some(cep) = self.ids.free(home, self.clock) else {
            unreachable!()
        };
        let drawn = drawn(self.flows.journal.ends.as_slice(), node) as u32;
        NextEnd {
            place: home,
            cep,
            addr: member.addr,
            port: Port {
                fac: self.settings.fac,
                node,
                n: drawn + 1,
            },
        }
    }

    /// Adds them, and the name of the far application where it is new.
    fn add_named(&mut self, alloc: Global, peer: Peer, asker: End, far: End) -> Result<(), Memory>
        requires valid { IsConfig (config_of self.old.settings) }
        requires cube { IsSome (cube_by asker.cube self.old.settings.cubes) }
        ensures ok { OnOk result (AddsFlow self.old.settings asker.cube peer asker far self.old.flows self.new.flows) }
        ensures keeps { OnOk result (SameBut (λ i. length self.old.flows.conns ≤ i) self.old.flows.conns self.new.flows.conns) }
        ensures rest { OnOk result (self.new ≡ record self.old { flows = self.new.flows; names = with_name_once self.old.names far.port.node far.app }) }
        ensures err { OnErr result (self.new ≡ self.old) }
        ensures laid { self.new.laid ≡ self.old.laid }
    {
        let node = far.port.node;
        if is_registered(self.names.as_slice(), node, &far.app) {
            return add_flow(&self.settings, &mut self.flows, alloc, peer, asker, far);
        }
        let app = far.app.copy(alloc)?;
        let mut names = mem::replace(&mut self.names, Seq::new(alloc)).into_vec();
        let added = match names.reserve(1) {
            Ok(()) => add_flow(&self.settings, &mut self.flows, alloc, peer, asker, far),
            Err(_) => Err(Memory),
        };
        if added.is_ok() {
            names.push_reserved(Registered { node, app });
        }
        self.names = Seq::from_vec(names);
        added
    }

    /// Draws a CEP-id at each of two members, and adds both ends, with the name of the far application where it is new. Where an
    /// allocation fails nothing changes.
    fn add_drawn(
        &mut self,
        alloc: Global,
        places: (usize, usize),
        peer: Peer,
        asker: End,
        far: End,
    ) -> Result<(), Memory>
        requires valid { IsConfig (config_of self.old.settings) }
        requires cube { IsSome (cube_by asker.cube self.old.settings.cubes) }
        requires apart { places.0 ≢ places.1 }
        requires a { DrawsAt self.old.ids self.old.clock places.0 peer.scep }
        requires b { DrawsAt self.old.ids self.old.clock places.1 peer.dcep }
        ensures ok { OnOk result (AddsFlow self.old.settings asker.cube peer asker far self.old.flows self.new.flows) }
        ensures keeps { OnOk result (SameBut (λ i. length self.old.flows.conns ≤ i) self.old.flows.conns self.new.flows.conns) }
        ensures ids { OnOk result (HaveDrawn self.old.ids self.old.clock places peer self.new.ids) }
        ensures rest { OnOk result (self.new ≡ record self.old { flows = self.new.flows; ids = self.new.ids; names = with_name_once self.old.names far.port.node far.app }) }
        ensures err { OnErr result (self.new ≡ self.old) }
    {
        let (a, b) = places;
        let draws = self.ids.draw_both(alloc, self.clock, a, b)?;
        let added = self.add_named(alloc, peer, asker, far);
        if added.is_err() {
            self.ids.undo_both(alloc, a, b, draws);
        }
        added
    }

    /// Every member takes the directory entry of the far application of a flow whose ends have these addresses and ports, and
    /// the members of the two ends show the flow. Where an allocation fails, the agent of each member is as before, or holds
    /// the entry.
    fn manage_flow(
        &mut self,
        alloc: Global,
        fixed: &Fixed,
        near: NextEnd,
        other: NextEnd,
    ) -> Result<(), Memory>
        requires valid { IsDif self.old }
        requires may { MayBind self.old fixed.now }
        requires near { Draws self.old fixed.now.a near }
        requires other { Draws self.old fixed.now.b other }
        ensures ok { OnOk result (ManagesBind self.old fixed.now self.new.managements) }
        ensures err { OnErr result (MayHoldFar self.old fixed.now self.new.managements) }
        ensures whole { self.new ≡ record self.old { managements = self.new.managements } }
    {
        self.managements.enter_all(alloc, &fixed.b_app, other.addr)?;
        self.managements.show_flow(alloc, near.place, near.cep)?;
        self.managements.show_flow(alloc, other.place, other.cep)
    }

    /// Makes a fixed flow.
    fn bind_flow(&mut self, alloc: Global, fixed: &Fixed) -> Result<(Port, Port), AllocateError>
        requires valid { IsDif self.old }
        requires may { MayBind self.old fixed.now }
        ensures does { (lines : List Direction) (below : Seen) → Holds self.old lines below → BindsTo self.old lines below fixed.now result (noting result self.new) }
        ensures same { (self.new.settings ≡ self.old.settings) × (self.new.clock ≡ self.old.clock) × (self.new.failed ≡ self.old.failed) }
        ensures laid { self.new.laid ≡ self.old.laid }
        ensures whole { self.new ≡ record self.old { flows = self.new.flows; ids = self.new.ids; names = self.new.names; managements = self.new.managements } }
        ensures manages { BindsManaged result self.old fixed.now self.new.managements }
        ensures keeps { SameBut (λ i. length self.old.flows.conns ≤ i) self.old.flows.conns self.new.flows.conns }
    {
        let near = self.draw(fixed.a);
        let other = self.draw(fixed.b);
        let flow = FlowName {
            src: near.addr,
            tick: self.clock,
            count: asked(self.flows.journal.ends.as_slice(), fixed.a) as u32,
        };
        let peer = Peer {
            own: near.addr,
            far: other.addr,
            scep: near.cep,
            dcep: other.cep,
        };
        let (a_app, b_app, cube) = (&fixed.a_app, &fixed.b_app, fixed.cube);
        // A law, and no step: the application has a name that the members can tell each other.
        is_formed(b_app);
        let asker = new_end(alloc, flow, Role::Asker, near.port, a_app, b_app, cube)?;
        let far = new_end(alloc, flow, Role::Far, other.port, b_app, a_app, cube)?;
        self.manage_flow(alloc, fixed, near, other)?;
        self.add_drawn(alloc, (near.place, other.place), peer, asker, far)?;
        Ok((near.port, other.port))
    }

    /// Makes a flow as the stack fixes one, both ends of which are allocated and claimed, and registers the application
    /// of the far end: every member takes its directory entry, and the members of both ends show the flow. It answers the
    /// ports of both ends. A stack's flows are made at tick 0; a DIF may make more at any tick.
    pub fn bind(&mut self, alloc: Global, fixed: &Fixed) -> Result<(Port, Port), AllocateError>
        requires valid { IsDif self.old }
        requires may { MayBind self.old fixed.now }
        ensures valid { IsDif self.new }
        ensures does { (lines : List Direction) (below : Seen) → Holds self.old lines below → BindsTo self.old lines below fixed.now result self.new }
        ensures shown { (s : Seen) → IsShownAs s fixed.now.fac self.old → Binds s fixed.now result (shown_as s fixed.now.fac self.new) }
        ensures goes_on { GoesOn self.old self.new }
        ensures stands { StaysStanding self.old self.new }
        ensures settings { self.new.settings ≡ self.old.settings }
        ensures laid { self.new.laid ≡ self.old.laid }
        ensures whole { self.new ≡ record self.old { flows = self.new.flows; ids = self.new.ids; names = self.new.names; managements = self.new.managements; failed = self.new.failed } }
        ensures manages { BindsManaged result self.old fixed.now self.new.managements }
        ensures keeps { SameBut (λ i. length self.old.flows.conns ≤ i) self.old.flows.conns self.new.flows.conns }
        ensures failed { self.old.failed ≡ true → result ≡ Err MemoryWanted }
        ensures fails { self.new.failed ≡ true ↔ (result ≡ Err MemoryWanted) }
    {
        if self.failed {
            return Err(AllocateError::Memory);
        }
        let result = self.bind_flow(alloc, fixed);
        self.failed = wants_memory(&result);
        result
    }
}
