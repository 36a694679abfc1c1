//! How the ends of a flow tell each other that it is given up.
ghost use Rattle.std.specs.Prelude.{◌≡◌, ◌<◌, List, OnErr, OnOk, Some, length, slice_get};
ghost use Rattle.rina_conn.specs.declared.conn.Conn.{Conn};
ghost use Rattle.rina_iface.specs.Seen.{Seen};
ghost use Rattle.rina_law.specs.Direction.{Direction};
ghost use Rattle.rina_dif.specs.FlowEnds.{delete_of};
ghost use Rattle.rina_dif.specs.Holding.{Holds};
ghost use Rattle.rina_dif.specs.Posting.{posts};
ghost use Rattle.rina_dif.specs.Whole.{IsDif};

use crate::dif::Dif;
use rina_alloc::{FlowMessage, FlowWord};
use rina_base::Memory;
use rina_conn::Peer;
use std::alloc::Global;

/// The message that tells the far end of a connection that its flow is given up.
fn delete_of(peer: Peer) -> FlowMessage
    ensures { result ≡ delete_of peer }
{
    FlowMessage {
        to: peer.far,
        from: peer.own,
        word: FlowWord::Delete {
            dcep: peer.dcep,
            scep: peer.scep,
        },
    }
}

impl Dif {
    /// The two ends of the connection of the end at a place.
    pub(crate) fn peer_of(&self, place: usize) -> Peer
        requires { place < length self.now.flows.conns }
        ensures { (k : Conn) → slice_get self.now.flows.conns place ≡ Some k → result ≡ k.sending.form.peer }
    {
        self.flows.conns.at(place).sending.form.peer
    }

    /// Lets the member at a place tell the far end of a connection that its flow is given up: a message waits for the next hop to its member, or
    /// is dropped where there is no way. Without memory nothing changes.
    pub(crate) fn send_delete(&mut self, alloc: Global, at: usize, peer: Peer) -> Result<(), Memory>
        requires valid { IsDif self.old }
        requires at { at < length self.old.settings.members }
        ensures ok { OnOk result (self.new ≡ record self.old { managements = posts self.old at (delete_of peer) self.old.managements }) }
        ensures err { OnErr result (self.new ≡ self.old) }
        ensures holds { (lines : List Direction) (below : Seen) → Holds self.old lines below → Holds self.new lines below }
    {
        self.send_message(alloc, at, delete_of(peer))
    }
}
