//! How flows of a DIF are freed.
ghost use Rattle.std.specs.Prelude.{◌≡◌, ◌<◌, ◌↔◌, List, length, slice_get, Some, Ok, Err, true, false};
ghost use Rattle.rina_iface.specs.declared.ends.End.{End};
ghost use Rattle.rina_iface.specs.declared.error.FreeError.TheVariants.{Memory as NoneFound};
ghost use Rattle.rina_iface.specs.declared.state.PortState.TheVariants.{Allocated, Pending};
ghost use Rattle.rina_iface.specs.Ends.{place_in};
ghost use Rattle.rina_iface.specs.Free.{Frees};
ghost use Rattle.rina_iface.specs.Seen.{Seen};
ghost use Rattle.rina_iface.specs.State.{freed_state};
ghost use Rattle.rina_law.specs.Direction.{Direction};
ghost use Rattle.rina_dif.specs.FlowEnds.{ClosesManaged, FreesManaged};
ghost use Rattle.rina_dif.specs.Elsewhere.{ChangesOnly, IsPortAt, WhenOk, home_of};
ghost use Rattle.rina_dif.specs.Facade.{GoesOn, IsShownAs, StaysStanding, shown_as};
ghost use Rattle.rina_dif.specs.Freeing.{FreesAt, FreesHere, RestsAt};
ghost use Rattle.rina_dif.specs.Holding.{Holds, Stands};
ghost use Rattle.rina_dif.specs.WaitingAsks.{FreesAsks, without_ask};
ghost use Rattle.rina_dif.specs.Whole.{IsDif};

use crate::dif::Dif;
use rina_base::{Cep, Memory, Node, Port};
use rina_iface::{FreeError, PortState, Why};
use std::alloc::Global;

/// A CEP-id, and for how many ticks it rests once its end has ended.
#[derive(Clone, Copy)]
pub struct IdRest {
    pub cep: Cep,
    pub ticks: u32,
}

/// The state of a port that is freed: a flow that was there is closed, and one that was asked for is withdrawn.
fn freed(state: PortState) -> PortState
    ensures { result ≡ freed_state state }
{
    match state {
        PortState::Allocated => PortState::Closed,
        PortState::Pending => PortState::Refused(Why::Withdrawn),
        state => state,
    }
}

impl Dif {
    /// The CEP-id of the end at a place, which rests for `3 * delta` of the end's cube.
    pub(crate) fn rest_at(&self, at: usize) -> IdRest
        requires valid { (below : Seen) × Stands self.now below }
        requires at { at < length self.now.flows.conns }
        ensures { RestsAt self.now at result }
    {
        let form = self.flows.conns.at(at).sending.form;
        IdRest {
            cep: form.peer.scep,
            ticks: 3 * form.cube.delta(),
        }
    }

    /// Closes the allocated end at a place, which is at a node, writes off what its connection holds in the ledger of the
    /// member there, and deletes the object of the flow.
    pub(crate) fn close_at(&mut self, alloc: Global, at: usize, node: Node) -> Result<(), Memory>
        requires valid { IsDif self.old }
        requires at { at < length self.old.flows.journal.ends }
        requires end { (e : End) → slice_get self.old.flows.journal.ends at ≡ Some e → (e.state ≡ Allocated) × (e.port.node ≡ node) }
        ensures does { (lines : List Direction) (below : Seen) → Holds self.old lines below → FreesHere self.old lines below at result self.new }
        ensures same { (self.new.settings ≡ self.old.settings) × (self.new.clock ≡ self.old.clock) × (self.new.failed ≡ self.old.failed) }
        ensures laid { self.new.laid ≡ self.old.laid }
        ensures whole { self.new ≡ record self.old { processes = self.new.processes; managements = self.new.managements; flows = self.new.flows; ids = self.new.ids } }
        ensures manages { ClosesManaged result self.old node at self.new.managements }
        ensures leaves { ChangesOnly (λ i. WhenOk result (i ≡ at)) (home_of self.old node) self.old self.new }
    {
        let Some(home) = self.place_at_node(node) else {
            unreachable!()
        };
        let clock = self.clock;
        let name = self.name_of_flow(alloc, at)?;
        let rest = self.rest_at(at);
        self.processes
            .stop(alloc, home, &mut self.flows, clock, at, PortState::Closed)?;
        self.ids.give_back(home, clock, rest.cep, rest.ticks);
        self.managements.remove(home, name.as_slice());
        Ok(())
    }

    /// Gives up the flow of the allocated end at a place, which is at a node: the far end is told, and then this end is closed. Where memory
    /// runs out the far end may have been told, and nothing else changes.
    fn give_up_flow(&mut self, alloc: Global, at: usize, node: Node) -> Result<(), Memory>
        requires valid { IsDif self.old }
        requires at { at < length self.old.flows.journal.ends }
        requires end { (e : End) → slice_get self.old.flows.journal.ends at ≡ Some e → (e.state ≡ Allocated) × (e.port.node ≡ node) }
        ensures does { (lines : List Direction) (below : Seen) → Holds self.old lines below → FreesHere self.old lines below at result self.new }
        ensures same { (self.new.settings ≡ self.old.settings) × (self.new.clock ≡ self.old.clock) × (self.new.failed ≡ self.old.failed) }
        ensures laid { self.new.laid ≡ self.old.laid }
        ensures whole { self.new ≡ record self.old { processes = self.new.processes; managements = self.new.managements; flows = self.new.flows; ids = self.new.ids } }
        ensures manages { FreesManaged (Some at) result self.old self.new.managements }
        ensures leaves { ChangesOnly (λ i. WhenOk result (i ≡ at)) (home_of self.old node) self.old self.new }
    {
        let Some(home) = self.place_at_node(node) else {
            unreachable!()
        };
        let peer = self.peer_of(at);
        self.send_delete(alloc, home, peer)?;
        self.close_at(alloc, at, node)
    }

    /// Withdraws the end at a place, which was asked for and is at a node. Its CEP-id rests from now on, and its ask waits no more.
    fn withdraw_at(&mut self, at: usize, node: Node)
        requires valid { IsDif self.old }
        requires at { at < length self.old.flows.journal.ends }
        requires end { (e : End) → slice_get self.old.flows.journal.ends at ≡ Some e → (e.state ≡ Pending) × (e.port.node ≡ node) }
        ensures does { (lines : List Direction) (below : Seen) → Holds self.old lines below → FreesHere self.old lines below at (Ok tt) self.new }
        ensures whole { self.new ≡ record self.old { flows = self.new.flows; ids = self.new.ids; asks = self.new.asks } }
        ensures asks { self.new.asks.items ≡ without_ask at self.old.asks.items }
        ensures leaves { ChangesOnly (λ i. i ≡ at) (home_of self.old node) self.old self.new }
    {
        let Some(home) = self.place_at_node(node) else {
            unreachable!()
        };
        self.refuse_at(home, at, Why::Withdrawn);
        self.remove_ask(at);
    }

    /// Frees the end at a place.
    fn free_at(&mut self, alloc: Global, at: usize) -> Result<(), Memory>
        requires valid { IsDif self.old }
        requires at { at < length self.old.flows.journal.ends }
        ensures does { (lines : List Direction) (below : Seen) → Holds self.old lines below → FreesHere self.old lines below at result self.new }
        ensures same { (self.new.settings ≡ self.old.settings) × (self.new.clock ≡ self.old.clock) × (self.new.failed ≡ self.old.failed) }
        ensures laid { self.new.laid ≡ self.old.laid }
        ensures whole { self.new ≡ record self.old { processes = self.new.processes; managements = self.new.managements; flows = self.new.flows; ids = self.new.ids; asks = self.new.asks } }
        ensures manages { FreesManaged (Some at) result self.old self.new.managements }
        ensures asks { FreesAsks (Some at) result self.old self.new.asks.items }
        ensures leaves { (end : End) → slice_get self.old.flows.journal.ends at ≡ Some end → ChangesOnly (λ i. WhenOk result (i ≡ at)) (home_of self.old end.port.node) self.old self.new }
    {
        let Some(end) = self.flows.journal.ends.get(at) else {
            unreachable!()
        };
        let (state, node) = (end.state, end.port.node);
        match state {
            PortState::Allocated => self.give_up_flow(alloc, at, node),
            PortState::Pending => {
                self.withdraw_at(at, node);
                Ok(())
            }
            state => {
                self.flows.journal.ends.set_state(at, freed(state));
                Ok(())
            }
        }
    }

    /// Gives up a port: an allocated one is closed, the pieces that its connection holds are written off, the object of the flow is deleted, and
    /// a message that tells the far end waits at the member, where there is a way; one that was asked for is withdrawn, and its ask waits no
    /// more; any other stays as it is. Where memory runs out that message may wait already, and nothing else changes.
    pub fn free(&mut self, alloc: Global, port: Port) -> Result<(), FreeError>
        requires { IsDif self.old }
        ensures valid { IsDif self.new }
        ensures does { (lines : List Direction) (below : Seen) → Holds self.old lines below → FreesAt (place_in port self.old.flows.journal.ends) self.old lines below result self.new }
        ensures shown { (s : Seen) → IsShownAs s port.fac self.old → Frees false s port result (shown_as s port.fac self.new) }
        ensures goes_on { GoesOn self.old self.new }
        ensures stands { StaysStanding self.old self.new }
        ensures settings { self.new.settings ≡ self.old.settings }
        ensures laid { self.new.laid ≡ self.old.laid }
        ensures whole { self.new ≡ record self.old { processes = self.new.processes; managements = self.new.managements; flows = self.new.flows; ids = self.new.ids; asks = self.new.asks; failed = self.new.failed } }
        ensures manages { FreesManaged (place_in port self.old.flows.journal.ends) result self.old self.new.managements }
        ensures asks { FreesAsks (place_in port self.old.flows.journal.ends) result self.old self.new.asks.items }
        ensures leaves { ChangesOnly (λ i. WhenOk result (IsPortAt self.old port i)) (home_of self.old port.node) self.old self.new }
        ensures failed { self.old.failed ≡ true → result ≡ Err NoneFound }
        ensures fails { self.new.failed ≡ true ↔ (result ≡ Err NoneFound) }
    {
        if self.failed {
            return Err(FreeError::Memory);
        }
        let Some(at) = self.flows.journal.ends.place(port) else {
            return Err(FreeError::NoPort);
        };
        if self.free_at(alloc, at).is_err() {
            self.failed = true;
            return Err(FreeError::Memory);
        }
        Ok(())
    }
}
