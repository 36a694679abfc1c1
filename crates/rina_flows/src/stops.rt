//! How the allocated ends of a node end together.
ghost use Rattle.std.specs.Prelude.{◌≡◌, ◌<◌, length, slice_get, Some, IfSome};
ghost use Rattle.std.specs.Vec.{vec_capacity};
ghost use Rattle.rina_iface.specs.declared.ends.End.{End};
ghost use Rattle.rina_dif_law.specs.Losing.{IsAllocatedAt};
ghost use Rattle.rina_flows.specs.Elsewhere.{ChangesAt};
ghost use Rattle.rina_flows.specs.Stopping.{StopsAll, held_before, held_by, is_here};

use crate::flows::Flows;
use rina_account::Off;
use rina_base::{Node, Tick};
use rina_iface::{End, PortState};

/// Whether an end is allocated, and at this node.
fn is_here(end: &End, node: Node) -> bool
    ensures { result ≡ is_here node end.now }
{
    matches!(end.state, PortState::Allocated) && end.port.node == node
}

impl Flows {
    /// How many pieces the connection of the end at a place holds, where that is allocated and at this node.
    fn held_by(&self, at: usize, node: Node) -> u64
        ensures { result ≡ held_by node (slice_get self.now.journal.ends at) (slice_get self.now.conns at) }
    {
        match (self.journal.ends.get(at), self.conns.get(at)) {
            (Some(end), Some(conn)) if is_here(end, node) => conn.rx.kept(),
            _ => 0,
        }
    }

    /// How many pieces the connections of the allocated ends at a node hold together. None where they are too many to
    /// count.
    pub fn held_at(&self, node: Node) -> Option<usize>
        ensures { IfSome result (λ n. n ≡ held_before node self.now.journal.ends self.now.conns (length self.now.conns)) }
    {
        let mut count: usize = 0;
        for at in 0..self.conns.len() {
            count = count.checked_add(self.held_by(at, node) as usize)?;
        }
        Some(count)
    }

    /// Ends each allocated end at a node with a state other than `Allocated`, in the order of the journal, and writes
    /// off what their connections hold. Takes memory only where `lines` has no room.
    pub fn stop_all(&mut self, now: Tick, node: Node, state: PortState, lines: &mut Vec<Off>)
        requires { length self.old.journal.ends ≡ length self.old.conns }
        ensures stops { StopsAll now node state self.old lines.old.items (vec_capacity lines.old) self.new lines.new.items }
        ensures leaves { ChangesAt (IsAllocatedAt self.old.journal.ends node) self.old self.new }
    {
        for at in 0..self.conns.len() {
            let Some(end) = self.journal.ends.get(at) else {
                unreachable!()
            };
            if is_here(end, node) {
                self.conns.close(now, at, lines);
                self.journal.ends.set_state(at, state);
            }
        }
    }
}
