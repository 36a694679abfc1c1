//! How a member that is asked for a flow decides, makes the far end, and answers.
ghost use Rattle.std.specs.Prelude.{◌≡◌, ◌↔◌, ◌<◌, ◌+◌, ◌-◌, ◌*◌, ◌^◌, nat_le, IfOk, IsTrue, List, OnErr, OnOk, Some, length, slice_get};
ghost use Rattle.rina_alloc.specs.declared.event.AskEvent.TheVariants.{Ask};
ghost use Rattle.rina_cube.specs.declared.Cube.{Cube};
ghost use Rattle.rina_cube.specs.Cubes.{IsCube, delta_of};
ghost use Rattle.rina_data.specs.declared.settings.Member.{Member};
ghost use Rattle.rina_data.specs.Configs.{config_of, cube_by};
ghost use Rattle.rina_dif_law.specs.Standing.{IsConfig};
ghost use Rattle.rina_iface.specs.declared.state.PortState.TheVariants.{Allocated};
ghost use Rattle.rina_iface.specs.declared.state.Role.TheVariants.{Far};
ghost use Rattle.rina_ids.specs.Members.{DrawsAt};
ghost use Rattle.rina_iface.specs.Allocate.{new_end, next_port};
ghost use Rattle.rina_iface.specs.Ends.{drawn_at};
ghost use Rattle.rina_iface.specs.Seen.{Seen};
ghost use Rattle.rina_law.specs.Direction.{Direction};
ghost use Rattle.rina_pci.specs.Spelling.{AreWidths};
ghost use Rattle.rina_member.specs.declared.management.Management.{Management};
ghost use Rattle.rina_dif_law.specs.Dif.{fac_of};
ghost use Rattle.rina_dif.specs.Elsewhere.{ChangesOnly, IsEndHere, enrolled_home};
ghost use Rattle.rina_dif.specs.FarMaking.{AcceptsOr, AddsFarEnd, AsksFor, CanMakeFar, DrawsFarEnd, FindsAsker, FindsJoinable, FitsNext, HandlesAsk, HasFar, IsAskerOf, IsGrounds, LeadsTo, MakesFar, MayAccept, SendsAnswer, answer_told, denied_by, is_aged, is_here, is_yes, next_cep, unless_spent};
ghost use Rattle.rina_dif.specs.Holding.{Holds};
ghost use Rattle.rina_dif.specs.Shown.{seen_of};
ghost use Rattle.rina_dif.specs.Whole.{IsDif};

use crate::ask_refusals::greatest_cep;
use crate::dif::Dif;
use crate::facade::cube_of;
use crate::fixed_flows::{drawn, greatest, is_asker, new_end, piece};
use rina_access::Act;
use rina_alloc::{AskDo, AskEvent, Asked, FlowAnswer, FlowAsk, FlowMessage, FlowWord};
use rina_base::{Addr, AppName, Cep, FlowName, Memory, Node, Port, Tick};
use rina_conn::Peer;
use rina_cube::Cube;
use rina_data::Settings;
use rina_flows::Flows;
use rina_iface::{End, Role, is_registered};
use std::alloc::Global;

/// What a member that is asked decides by.
#[derive(Clone, Copy)]
pub struct Grounds {
    /// Whether the application is registered there, and the cube is one of the DIF.
    pub here: bool,
    /// Whether the ask is as old as an id of its cube rests.
    pub aged: bool,
    /// The rule that denies the asker, where one does.
    pub denied: Option<u32>,
    /// The CEP-id that the far end gets; None where none is free.
    pub drawn: Option<Cep>,
    /// How many CEP-ids are in use or at rest, where none is free.
    pub used: u32,
}

impl Grounds {
    /// The ask with this CEP-id of the asker, as an event at its far end.
    fn event(&self, scep: Cep) -> AskEvent
        ensures { result ≡ Ask self.now.here self.now.aged self.now.denied self.now.drawn self.now.used scep }
    {
        AskEvent::Ask {
            here: self.here,
            aged: self.aged,
            denied: self.denied,
            drawn: self.drawn,
            used: self.used,
            scep,
        }
    }
}

/// The answer that a machine tells.
fn answer_of(does: AskDo) -> Option<FlowAnswer>
    ensures { result ≡ answer_told does }
{
    match does {
        AskDo::Answer {
            result,
            dcep,
            number,
        } => FlowAnswer::of(result, dcep, number),
        _ => None,
    }
}

/// Whether an answer is yes.
fn is_yes(answer: FlowAnswer) -> bool
    ensures { result ≡ is_yes answer }
{
    matches!(answer, FlowAnswer::Yes { .. })
}

/// Whether an end asks for what an ask says.
fn asks_for(end: &End, ask: &FlowAsk) -> bool
    ensures { IsTrue result ↔ AsksFor end.now ask.now }
{
    is_asker(end)
        && end.flow == ask.flow
        && end.cube == ask.cube
        && end.app.is(&ask.source)
        && end.peer.is(&ask.destination)
}

/// Whether a connection leads from the member of an address, with this CEP-id there, to that of another.
fn leads_to(peer: Peer, own: Addr, from: Addr, scep: Cep) -> bool
    ensures { IsTrue result ↔ LeadsTo peer own from scep }
{
    peer.own == from && peer.far == own && peer.scep == scep
}

/// Whether an end is the far one of a flow.
pub(crate) fn is_far_of(end: &End, flow: FlowName) -> bool
    ensures { IsTrue result ↔ ((end.now.role ≡ Far) × (end.now.flow ≡ flow)) }
{
    !is_asker(end) && end.flow == flow
}

/// Whether a flow has a far end.
fn has_far(ends: &[End], flow: FlowName) -> bool
    ensures { IsTrue result ↔ HasFar ends.now flow }
{
    for end in ends {
        if is_far_of(end, flow) {
            return true;
        }
    }
    false
}

/// Whether an ask of a tick is as old as a CEP-id of a cube rests.
fn is_over(tick: Tick, cube: &Cube, now: Tick) -> bool
    requires { IsCube cube.now }
    ensures { result ≡ nat_le (tick + 3 * delta_of cube.now) now }
{
    u64::from(tick) + 3 * u64::from(cube.delta()) <= u64::from(now)
}

/// Adds the far end of a flow with its connection.
fn add_far(
    settings: &Settings,
    flows: &mut Flows,
    alloc: Global,
    peer: Peer,
    end: End,
) -> Result<(), Memory>
    requires valid { IsConfig (config_of settings.now) }
    requires cube { (cube : Cube) × (cube_by end.cube settings.now.cubes ≡ Some cube) }
    ensures ok { OnOk result (AddsFarEnd settings.now peer end flows.old flows.new) }
    ensures err { OnErr result (flows.new ≡ flows.old) }
{
    let (piece, max) = (piece(settings), greatest(settings.widths));
    let Some(cube) = cube_of(settings.cubes.as_slice(), end.cube) else {
        unreachable!()
    };
    flows.add_end(alloc, cube, piece, max, peer, end)
}

impl Dif {
    /// Whether at a place stands the asker's end of an ask that came from the member of an address to that of another, and its flow has no far
    /// end yet.
    fn is_asker_of(&self, place: usize, own: Addr, from: Addr, ask: &FlowAsk) -> bool
        ensures { IsTrue result ↔ IsAskerOf self.now place own from ask.now }
    {
        let (Some(end), Some(conn)) = (
            self.flows.journal.ends.get(place),
            self.flows.conns.get(place),
        ) else {
            return false;
        };
        if !asks_for(end, ask) {
            return false;
        }
        if !leads_to(conn.sending.form.peer, own, from, ask.scep) {
            return false;
        }
        !has_far(self.flows.journal.ends.as_slice(), ask.flow)
    }

    /// The place of the asker's end of an ask that came from the member of an address to that of another, where its flow has no far end yet.
    /// None exactly where there is none.
    fn asker_of(&self, own: Addr, from: Addr, ask: &FlowAsk) -> Option<usize>
        ensures { FindsAsker self.now own from ask.now result }
    {
        for place in 0..self.flows.conns.len() {
            if self.is_asker_of(place, own, from, ask) {
                return Some(place);
            }
        }
        None
    }
}

impl Dif {
    /// The far end of an ask, as the member at a place makes it.
    fn far_end(&self, alloc: Global, at: usize, ask: &FlowAsk) -> Result<End, Memory>
        requires at { at < length self.now.settings.members }
        requires room { (m : Member) → slice_get self.now.settings.members at ≡ Some m → drawn_at m.node self.now.flows.journal.ends < 2 ^ 32 - 1 }
        ensures { IfOk result (λ e. (m : Member) → slice_get self.now.settings.members at ≡ Some m → e ≡ new_end ask.now.flow Far (next_port (fac_of (seen_of self.now)) self.now.settings.fac m.node) ask.now.destination ask.now.source ask.now.cube Allocated) }
    {
        let Some(member) = self.settings.members.get(at) else {
            unreachable!()
        };
        let drawn = drawn(self.flows.journal.ends.as_slice(), member.node) as u32;
        let port = Port {
            fac: self.settings.fac,
            node: member.node,
            n: drawn + 1,
        };
        let (app, peer) = (&ask.destination, &ask.source);
        new_end(alloc, ask.flow, Role::Far, port, app, peer, ask.cube)
    }

    /// Draws the next CEP-id of the member at a place for a far end, and adds that. Without memory nothing changes.
    fn draw_far(&mut self, alloc: Global, at: usize, peer: Peer, end: End) -> Result<(), Memory>
        requires valid { IsConfig (config_of self.old.settings) }
        requires cube { (cube : Cube) × (cube_by end.cube self.old.settings.cubes ≡ Some cube) }
        requires draws { DrawsAt self.old.ids self.old.clock at peer.scep }
        ensures ok { OnOk result (DrawsFarEnd at peer end self.old self.new) }
        ensures err { OnErr result (self.new ≡ self.old) }
    {
        let draw = self.ids.draw(alloc, self.clock, at)?;
        let added = add_far(&self.settings, &mut self.flows, alloc, peer, end);
        if added.is_err() {
            self.ids.undo_draw(alloc, at, draw);
        }
        added
    }

    /// Makes the far end of a flow at the member at a place, for the asker's end at another place, and shows it; nobody has claimed it yet.
    /// Without memory the DIF shows what it showed.
    fn make_far(
        &mut self,
        alloc: Global,
        at: usize,
        place: usize,
        from: Addr,
        ask: &FlowAsk,
    ) -> Result<(), Memory>
        requires valid { IsDif self.old }
        requires can { CanMakeFar self.old at place from ask.now }
        ensures does { (lines : List Direction) (below : Seen) → Holds self.old lines below → MakesFar self.old lines below at place result self.new }
        ensures valid { IsDif self.new }
        ensures whole { self.new ≡ record self.old { flows = self.new.flows; ids = self.new.ids; waiting = self.new.waiting; managements = self.new.managements } }
        ensures leaves { ChangesOnly (IsEndHere self.old (Some at)) (Some at) self.old self.new }
    {
        let end = self.far_end(alloc, at, ask)?;
        let Some(cep) = self.ids.free(at, self.clock) else {
            unreachable!()
        };
        let peer = Peer {
            own: self.address_at(at),
            far: from,
            scep: cep,
            dcep: ask.scep,
        };
        let behind = self.flows.journal.ends.len();
        self.waiting.reserve(1)?;
        self.managements.show_flow(alloc, at, cep)?;
        self.draw_far(alloc, at, peer, end)?;
        self.waiting.push_reserved(behind);
        Ok(())
    }

    /// Whether the member at a place is enrolled.
    fn is_enrolled_at(&self, at: usize) -> bool
        requires { at < length self.now.settings.members }
        ensures { (m : Member) → slice_get self.now.settings.members at ≡ Some m → IsTrue result ↔ (enrolled_home self.now m.node ≡ Some at) }
    {
        let Some(member) = self.settings.members.get(at) else {
            unreachable!()
        };
        self.enrolled_place(member.node) == Some(at)
    }
}

impl Dif {
    /// Whether an ask is for an application that is registered at a node, in a cube of the DIF.
    fn is_here(&self, node: Node, ask: &FlowAsk) -> bool
        ensures { result ≡ is_here self.now node ask.now }
    {
        match cube_of(self.settings.cubes.as_slice(), ask.cube) {
            Some(_cube) => is_registered(self.names.as_slice(), node, &ask.destination),
            None => false,
        }
    }

    /// Whether an ask is as old as a CEP-id of its cube rests.
    fn is_aged(&self, ask: &FlowAsk) -> bool
        requires { IsConfig (config_of self.now.settings) }
        ensures { result ≡ is_aged self.now ask.now }
    {
        match cube_of(self.settings.cubes.as_slice(), ask.cube) {
            Some(cube) => is_over(ask.flow.tick, cube, self.clock),
            None => true,
        }
    }

    /// The rule by which the member at a place denies an application a flow. None where it allows it.
    fn denies(&self, at: usize, app: &AppName) -> Option<u32>
        requires { at < length self.now.managements }
        ensures { (m : Management) → slice_get self.now.managements at ≡ Some m → result ≡ denied_by m app.now }
    {
        let Some(management) = self.managements.get(at) else {
            unreachable!()
        };
        let decision = management.agent.rules.decide(app, Act::Allocate);
        if decision.allow {
            None
        } else {
            Some(decision.rule)
        }
    }

    /// The CEP-id that the member at a place draws next, unless its ids or ports are spent.
    fn next_unless(&self, at: usize, spent: Option<u32>) -> Option<Cep>
        requires { at < length self.now.ids }
        ensures { result ≡ unless_spent spent (next_cep self.now at) }
    {
        match spent {
            Some(_used) => None,
            None => self.ids.free(at, self.clock),
        }
    }

    /// What the member at a place decides on an ask by.
    fn grounds(&self, at: usize, ask: &FlowAsk) -> Grounds
        requires valid { IsDif self.now }
        requires at { at < length self.now.settings.members }
        ensures { (m : Member) → slice_get self.now.settings.members at ≡ Some m → IsGrounds self.now at m.node ask.now result }
    {
        let Some(member) = self.settings.members.get(at) else {
            unreachable!()
        };
        let node = member.node;
        let spent = self.ids_spent(at, node);
        Grounds {
            here: self.is_here(node, ask),
            aged: self.is_aged(ask),
            denied: self.denies(at, &ask.source),
            drawn: self.next_unless(at, spent),
            used: spent.unwrap_or(0),
        }
    }
}

impl Dif {
    /// Lets an answer to an ask wait at the member at a place for the next hop to the member that asked. Without memory nothing changes.
    fn send_answer(
        &mut self,
        alloc: Global,
        at: usize,
        from: Addr,
        invoke: u32,
        answer: FlowAnswer,
    ) -> Result<(), Memory>
        requires valid { IsDif self.old }
        requires at { at < length self.old.settings.members }
        ensures ok { OnOk result (SendsAnswer self.old at from invoke answer self.new) }
        ensures err { OnErr result (self.new ≡ self.old) }
        ensures holds { (lines : List Direction) (below : Seen) → Holds self.old lines below → Holds self.new lines below }
    {
        let message = FlowMessage {
            to: from,
            from: self.address_at(at),
            word: FlowWord::Answer { invoke, answer },
        };
        self.send_message(alloc, at, message)
    }

    /// Whether the CEP-id that the member at a place draws next fits its field.
    fn fits_next(&self, at: usize) -> bool
        requires widths { AreWidths self.now.settings.widths }
        requires at { at < length self.now.ids }
        ensures { IsTrue result ↔ FitsNext self.now at }
    {
        let Some(cep) = self.ids.free(at, self.clock) else {
            return true;
        };
        let most = greatest_cep(self.settings.widths);
        if cep > most {
            return false;
        }
        true
    }

    /// Where the asker's end stands of an ask for which the member at a place can make the far end, since the CEP-id fits. None exactly where
    /// there is none.
    fn asker_to_join(&self, at: usize, own: Addr, from: Addr, ask: &FlowAsk) -> Option<usize>
        requires widths { AreWidths self.now.settings.widths }
        requires at { at < length self.now.ids }
        ensures { FindsJoinable self.now at own from ask.now result }
    {
        let place = self.asker_of(own, from, ask)?;
        if self.fits_next(at) {
            Some(place)
        } else {
            None
        }
    }

    /// Lets the member at a place answer yes to an ask that nothing refuses, and makes the far end. Where no asker's end waits for that, the
    /// answer is `NotHere`: no member sends such an ask. Without memory the far end may have been made, of which the asker is not told.
    fn accept(
        &mut self,
        alloc: Global,
        at: usize,
        from: Addr,
        invoke: u32,
        ask: &FlowAsk,
        answer: FlowAnswer,
    ) -> Result<(), Memory>
        requires valid { IsDif self.old }
        requires may { MayAccept self.old at ask.now answer }
        ensures does { (lines : List Direction) (below : Seen) → Holds self.old lines below → AcceptsOr self.old lines below at from invoke ask.now result self.new }
        ensures whole { self.new ≡ record self.old { flows = self.new.flows; ids = self.new.ids; waiting = self.new.waiting; managements = self.new.managements } }
        ensures leaves { ChangesOnly (IsEndHere self.old (Some at)) (Some at) self.old self.new }
    {
        let own = self.address_at(at);
        let Some(place) = self.asker_to_join(at, own, from, ask) else {
            return self.send_answer(alloc, at, from, invoke, FlowAnswer::NotHere);
        };
        self.make_far(alloc, at, place, from, ask)?;
        self.send_answer(alloc, at, from, invoke, answer)
    }

    /// Lets the member at a place answer an ask that came from the member of an address. At an answer of yes the far end is made. A member that is
    /// not enrolled does nothing. Without memory the far end may have been made, of which the asker is not told.
    pub(crate) fn answer_ask(
        &mut self,
        alloc: Global,
        at: usize,
        from: Addr,
        invoke: u32,
        ask: &FlowAsk,
    ) -> Result<(), Memory>
        requires valid { IsDif self.old }
        requires at { at < length self.old.settings.members }
        ensures does { (lines : List Direction) (below : Seen) → Holds self.old lines below → HandlesAsk self.old lines below at from invoke ask.now result self.new }
        ensures whole { self.new ≡ record self.old { flows = self.new.flows; ids = self.new.ids; waiting = self.new.waiting; managements = self.new.managements } }
        ensures leaves { ChangesOnly (IsEndHere self.old (Some at)) (Some at) self.old self.new }
    {
        if !self.is_enrolled_at(at) {
            return Ok(());
        }
        let grounds = self.grounds(at, ask);
        let event = grounds.event(ask.scep);
        let does = Asked::new().step(alloc, event)?;
        let Some(answer) = answer_of(does) else {
            unreachable!()
        };
        if is_yes(answer) {
            return self.accept(alloc, at, from, invoke, ask, answer);
        }
        self.send_answer(alloc, at, from, invoke, answer)
    }
}
