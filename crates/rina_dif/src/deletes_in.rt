//! What a member does where the far end of a flow gives it up.
ghost use Rattle.std.specs.Prelude.{◌≡◌, ◌<◌, ◌↔◌, IsTrue, List, length};
ghost use Rattle.rina_iface.specs.declared.state.PortState.TheVariants.{Allocated};
ghost use Rattle.rina_iface.specs.Seen.{Seen};
ghost use Rattle.rina_law.specs.Direction.{Direction};
ghost use Rattle.rina_dif.specs.Elsewhere.{ChangesOnly, IsEndHere};
ghost use Rattle.rina_dif.specs.DeletesIn.{FindsUp, IsBetween, IsUpAt, TakesDelete};
ghost use Rattle.rina_dif.specs.Holding.{Holds};
ghost use Rattle.rina_dif.specs.Whole.{IsDif};

use crate::dif::Dif;
use rina_base::{Addr, Cep, Memory};
use rina_conn::Peer;
use rina_iface::{End, PortState};
use std::alloc::Global;

/// Whether a connection has these two ends.
fn is_between(peer: Peer, own: Addr, far: Addr, scep: Cep, dcep: Cep) -> bool
    ensures { IsTrue result ↔ IsBetween peer own far scep dcep }
{
    peer.own == own && peer.far == far && peer.scep == scep && peer.dcep == dcep
}

/// Whether an end is allocated.
fn is_allocated(end: &End) -> bool
    ensures { IsTrue result ↔ (end.now.state ≡ Allocated) }
{
    matches!(end.state, PortState::Allocated)
}

impl Dif {
    /// Whether at a place stands the allocated end of the connection between these two ends.
    fn is_up_at(&self, own: Addr, far: Addr, scep: Cep, dcep: Cep, place: usize) -> bool
        ensures { IsTrue result ↔ IsUpAt self.now own far scep dcep place }
    {
        let (Some(end), Some(conn)) = (
            self.flows.journal.ends.get(place),
            self.flows.conns.get(place),
        ) else {
            return false;
        };
        if !is_allocated(end) {
            return false;
        }
        is_between(conn.sending.form.peer, own, far, scep, dcep)
    }

    /// The place of the first allocated end of the connection between these two ends. None exactly where there is none.
    fn up_end(&self, own: Addr, far: Addr, scep: Cep, dcep: Cep) -> Option<usize>
        ensures { FindsUp self.now own far scep dcep result }
    {
        for place in 0..self.flows.conns.len() {
            if self.is_up_at(own, far, scep, dcep, place) {
                return Some(place);
            }
        }
        None
    }

    /// Lets the member at a place handle that a flow was given up by the member of an address: its end with these CEP-ids is closed, where it is
    /// allocated. Without memory the DIF shows what it showed.
    pub(crate) fn take_delete(
        &mut self,
        alloc: Global,
        at: usize,
        from: Addr,
        dcep: Cep,
        scep: Cep,
    ) -> Result<(), Memory>
        requires valid { IsDif self.old }
        requires at { at < length self.old.settings.members }
        ensures does { (lines : List Direction) (below : Seen) → Holds self.old lines below → TakesDelete self.old lines below at from dcep scep result self.new }
        ensures whole { self.new ≡ record self.old { processes = self.new.processes; managements = self.new.managements; flows = self.new.flows; ids = self.new.ids } }
        ensures leaves { ChangesOnly (IsEndHere self.old (Some at)) (Some at) self.old self.new }
    {
        let own = self.address_at(at);
        let Some(place) = self.up_end(own, from, dcep, scep) else {
            return Ok(());
        };
        let Some(end) = self.flows.journal.ends.get(place) else {
            unreachable!()
        };
        let node = end.port.node;
        self.close_at(alloc, place, node)
    }
}
