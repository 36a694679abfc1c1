//! One wire.
ghost use Rattle.std.specs.Prelude.{◌≡◌, ◌<◌, ◌≤◌, ◌∷◌, [], length, slice_get, find, option_map, remove, OnOk, OnErr, IfSome, IsTrue, ◌↔◌, MatchOption, Some, None, ◌^◌};
ghost use Rattle.rina_iface.specs.declared.ends.End.{End};
ghost use Rattle.rina_iface.specs.declared.state.PortState.TheVariants.{Allocated};
ghost use Rattle.rina_iface.specs.Ends.{end_in, place_in};
ghost use Rattle.rina_iface.specs.Seen.{is_member, is_registered, meets, oldest_in};
ghost use Rattle.rina_wire.specs.Air.{offer_of};
ghost use Rattle.rina_wire.specs.Allocate.{is_busy, other_node};
ghost use Rattle.rina_wire.specs.Claim.{claim_in, without};
ghost use Rattle.rina_wire.specs.Plan.{line_of};
ghost use Rattle.rina_wire.specs.Register.{named};
ghost use Rattle.rina_wire.specs.Unregister.{unnamed};

mod cut;
mod disturb;
mod flow;
mod frame;
mod rest;
mod storm;
mod tick;

use crate::flight::Flight;
pub use frame::frame_number;
use rand_pcg::Lcg64Xsh32;
use rina_base::{AppName, FlowName, Memory, Node, Port, Storm, Tick};
use rina_cube::Want;
use rina_iface::{
    Ask, End, Ends, Entries, Journal, PortState, Registered, Role, is_registered, name_place,
};
use rina_stack::WirePlan;
use std::alloc::{AllocError, Global};
use std::marker::Model;
use storm::first_draws;

/// A wire between two systems.
#[derive(Drop)]
pub struct Wire {
    a: Node,
    b: Node,
    delay: u32,
    life: u32,
    largest: u32,
    journal: Journal,
    waiting: Vec<usize>,
    names: Vec<Registered>,
    flows: u32,
    frames: u64,
    flights: Vec<Flight>,
    cut: bool,
    storm: Option<Storm>,
    draws: Lcg64Xsh32,
}

impl Model for Wire {
    ghost use Rattle.rina_wire.specs.Air.{Line};

    ghost Value = { Line };

    ghost view = { λ w. record { a = w.a; b = w.b; delay = w.delay; life = w.life; largest = w.largest; ends = w.journal.ends; waiting = w.waiting.items; names = w.names.items; flows = w.flows; frames = w.frames; flights = w.flights.items; cut = w.cut; storm = w.storm; draws = w.draws } };
}

/// The port of the flow that the wire carries now, at a node.
#[tactic(auto, using(std::proofs::lemmas::List::drop_more))]
fn busy(ends: &[End], node: Node) -> Option<Port>
    ensures { result ≡ option_map (λ (e : End). e.port) (find (is_busy node) ends.now) }
{
    'ends: for end in ends {
        if is_busy(end, node) {
            return Some(end.port);
        }
    }
    None
}

fn is_busy(end: &End, node: Node) -> bool
    ensures { result ≡ is_busy node end.now }
{
    end.port.node == node && matches!(end.state, PortState::Allocated)
}

impl Wire {
    /// A wire that was not used yet.
    pub fn new(alloc: Global, plan: &WirePlan) -> Wire
        ensures { result ≡ line_of plan.now }
    {
        Wire {
            a: plan.a,
            b: plan.b,
            delay: plan.delay,
            life: plan.life,
            largest: plan.largest,
            journal: Journal {
                ends: Ends::new(alloc),
            },
            waiting: Vec::new(alloc),
            names: Vec::new(alloc),
            flows: 0,
            frames: 0,
            flights: Vec::new(alloc),
            cut: false,
            storm: plan.storm,
            draws: first_draws(plan.storm),
        }
    }

    pub fn journal(&self) -> &Journal
        ensures { result.now.ends ≡ self.now.ends }
    {
        &self.journal
    }

    pub fn life(&self) -> u32
        ensures { result ≡ self.now.life }
    {
        self.life
    }

    pub fn largest(&self) -> u32
        ensures { result ≡ self.now.largest }
    {
        self.largest
    }

    pub fn flows(&self) -> u32
        ensures { result ≡ self.now.flows }
    {
        self.flows
    }

    /// Whether it is cut.
    pub fn is_cut(&self) -> bool
        ensures { result ≡ self.now.cut }
    {
        self.cut
    }

    pub fn frames(&self) -> u64
        ensures { result ≡ self.now.frames }
    {
        self.frames
    }

    /// Whether a node is one of its ends.
    pub fn is_at(&self, node: Node) -> bool
        ensures { result ≡ is_member (self.now.a ∷ self.now.b ∷ []) node }
    {
        self.a == node || self.b == node
    }

    /// The node at the other end.
    pub fn other_node(&self, node: Node) -> Node
        ensures { result ≡ other_node self.now node }
    {
        if node == self.a { self.b } else { self.a }
    }

    /// Whether an application is registered at a node.
    pub fn has_name(&self, node: Node, app: &AppName) -> bool
        ensures { result ≡ is_registered self.now.names node app.now }
    {
        is_registered(self.names.as_slice(), node, app)
    }

    /// Registers an application at a node.
    pub fn add_name(&mut self, alloc: Global, node: Node, app: &AppName) -> Result<(), Memory>
        ensures ok { OnOk result (self.new ≡ named node app.now self.old) }
        ensures err { OnErr result (self.new ≡ self.old) }
    {
        let app = app.copy(alloc)?;
        if self.names.push(Registered { node, app }).is_err() {
            return Err(Memory);
        }
        Ok(())
    }

    /// Ends the registration of an application at a node.
    pub fn drop_name(&mut self, node: Node, app: &AppName)
        ensures { self.new ≡ unnamed node app.now self.old }
    {
        if let Some(place) = name_place(self.names.as_slice(), node, app) {
            let _ = self.names.remove(place);
        }
    }

    /// Whether its one cube meets a wish.
    #[tactic(auto, unfolding(rina_iface::specs::Seen::meets))]
    pub fn meets(&self, want: &Want) -> bool
        ensures { result ≡ meets want.now (offer_of self.now) }
    {
        !want.ordered && !want.reliable && self.life <= want.within && want.size <= self.largest
    }

    /// The port of the flow that it carries now, at a node.
    pub fn busy(&self, node: Node) -> Option<Port>
        ensures { result ≡ option_map (λ (e : End). e.port) (find (is_busy node) self.now.ends) }
    {
        busy(self.journal.ends.as_slice(), node)
    }

    /// Whether a frame more can have a number.
    pub fn is_spent(&self) -> bool
        ensures { IsTrue result ↔ (2 ^ 63 ≤ self.now.frames) }
    {
        self.frames >= 1 << 63
    }

    /// The place of a port's end.
    pub fn place(&self, port: Port) -> Option<usize>
        ensures at { result ≡ place_in port self.now.ends }
        ensures within { IfSome result (λ i. i < length self.now.ends) }
        ensures bound { IfSome result (λ i. i < 2 ^ 63) }
    {
        self.journal.ends.place(port)
    }

    /// The end at a place.
    pub fn end(&self, place: usize) -> Option<&End>
        ensures { MatchOption result (length self.now.ends ≤ place) (λ e. slice_get self.now.ends place ≡ Some e.now) }
    {
        self.journal.ends.get(place)
    }

    /// The end of a port.
    pub fn find(&self, port: Port) -> Option<&End>
        ensures { MatchOption result (end_in port self.now.ends ≡ None) (λ e. end_in port self.now.ends ≡ Some e.now) }
    {
        self.journal.ends.find(port)
    }

    /// Claims the oldest far end of an application at a node that nobody claimed yet.
    pub fn claim(&mut self, node: Node, app: &AppName) -> Option<Port>
        ensures answers { result ≡ option_map (λ (e : End). e.port) (claim_in self.old node app.now) }
        ensures line { self.new ≡ without self.old (oldest_in self.old.ends self.old.waiting node app.now) }
    {
        let at = self
            .journal
            .ends
            .oldest(self.waiting.as_slice(), node, app)?;
        let place = self.waiting.remove(at);
        let end = self.journal.ends.get(place)?;
        Some(end.port)
    }
}
