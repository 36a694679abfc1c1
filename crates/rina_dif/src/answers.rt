//! How the answer to an ask comes to the end that asked.
ghost use Rattle.std.specs.Prelude.{◌≡◌, ◌<◌, ◌↔◌, IsTrue, List, Some, length};
ghost use Rattle.rina_iface.specs.declared.state.PortState.TheVariants.{Pending};
ghost use Rattle.rina_iface.specs.declared.state.Role.TheVariants.{Asker};
ghost use Rattle.rina_iface.specs.Seen.{Seen};
ghost use Rattle.rina_law.specs.Direction.{Direction};
ghost use Rattle.rina_dif.specs.Elsewhere.{ChangesOnly, IsEndHere, home_of};
ghost use Rattle.rina_dif.specs.FlowAnswers.{BindsEnd, FindsFarEnd, IsFarEndAt, StandsFar, WaitsAtHome};
ghost use Rattle.rina_dif.specs.Holding.{Holds};
ghost use Rattle.rina_dif.specs.Whole.{IsDif};

use crate::dif::Dif;
use crate::far_ends::is_far_of;
use crate::fixed_flows::is_asker;
use rina_base::{Addr, Cep, FlowName, Memory, Node};
use rina_conn::Peer;
use rina_iface::{End, PortState};
use std::alloc::Global;

/// Whether a connection is of the member of an address, and has this CEP-id there.
fn is_of(peer: Peer, own: Addr, cep: Cep) -> bool
    ensures { IsTrue result ↔ ((peer.own ≡ own) × (peer.scep ≡ cep)) }
{
    peer.own == own && peer.scep == cep
}

/// Whether an end is that of an asker that waits.
fn is_waiting(end: &End) -> bool
    ensures { IsTrue result ↔ ((end.now.role ≡ Asker) × (end.now.state ≡ Pending)) }
{
    is_asker(end) && matches!(end.state, PortState::Pending)
}

impl Dif {
    /// Whether the member at a node stands at a place.
    fn is_home(&self, node: Node, at: usize) -> bool
        ensures { IsTrue result ↔ (home_of self.now node ≡ Some at) }
    {
        self.place_at_node(node) == Some(at)
    }

    /// Whether at a place stands the end of an asker that waits, at the member of another place.
    pub(crate) fn waits_at_home(&self, at: usize, place: usize) -> bool
        ensures { IsTrue result ↔ WaitsAtHome self.now at place }
    {
        let Some(end) = self.flows.journal.ends.get(place) else {
            return false;
        };
        if !is_waiting(end) {
            return false;
        }
        self.is_home(end.port.node, at)
    }

    /// Whether at a place stands the far end of a flow, which has this CEP-id at the member of this address.
    fn is_far_end_at(&self, place: usize, flow: FlowName, own: Addr, cep: Cep) -> bool
        ensures { IsTrue result ↔ IsFarEndAt self.now place flow own cep }
    {
        let (Some(end), Some(conn)) = (
            self.flows.journal.ends.get(place),
            self.flows.conns.get(place),
        ) else {
            return false;
        };
        if !is_far_of(end, flow) {
            return false;
        }
        is_of(conn.sending.form.peer, own, cep)
    }

    /// The place of the far end of a flow, which has this CEP-id at the member of this address. None exactly where there is none.
    pub(crate) fn far_end_of(&self, flow: FlowName, own: Addr, cep: Cep) -> Option<usize>
        ensures { FindsFarEnd self.now flow own cep result }
    {
        for place in 0..self.flows.conns.len() {
            if self.is_far_end_at(place, flow, own, cep) {
                return Some(place);
            }
        }
        None
    }

    /// Lets the end at a place be allocated, which waited at the member of another place: its far end stands, whose CEP-id its connection knows
    /// from now on. The member shows the flow. Without memory the DIF shows what it showed.
    pub(crate) fn bind_at(
        &mut self,
        alloc: Global,
        at: usize,
        place: usize,
        far_at: usize,
    ) -> Result<(), Memory>
        requires valid { IsDif self.old }
        requires at { at < length self.old.settings.members }
        requires waits { WaitsAtHome self.old at place }
        requires far { StandsFar self.old place far_at }
        ensures does { (lines : List Direction) (below : Seen) → Holds self.old lines below → BindsEnd self.old lines below at place result self.new }
        ensures whole { self.new ≡ record self.old { flows = self.new.flows; managements = self.new.managements } }
        ensures leaves { ChangesOnly (IsEndHere self.old (Some at)) (Some at) self.old self.new }
    {
        let cep = self.flows.conns.at(place).sending.form.peer.scep;
        let dcep = self.flows.conns.at(far_at).sending.form.peer.scep;
        self.managements.show_flow(alloc, at, cep)?;
        self.flows.bind(place, dcep);
        Ok(())
    }
}
