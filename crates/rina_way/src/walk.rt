//! The way of a flow, hop by hop.
ghost use Rattle.std.specs.Prelude.{◌≡◌, ◌<◌, List, length, None, IfOk, IfSome};
ghost use Rattle.rina_way.specs.declared.hop.Hop.{Hop};
ghost use Rattle.rina_way.specs.Ways.{IsWay};

use crate::hop::{Hop, hop_at};
use rina_base::{Addr, Memory, Node, Seq};
use rina_data::{IpcProcess, Member};
use rina_iface::Facility;
use std::alloc::Global;

/// The way to an address from a node to another, in a DIF with these members and IPC processes over a rank below. None where the next hops
/// do not lead there in as many hops as there are members.
pub fn way<F: Facility>(
    alloc: Global,
    below: &F,
    members: &[Member],
    processes: &[IpcProcess],
    dst: Addr,
    from: Node,
    to: Node,
) -> Result<Option<Seq<Hop>>, Memory>
    requires { F.valid below.now }
    ensures way { IfOk result (λ o. IfSome o (λ hops. IsWay (F.seen below.now) members.now processes.now dst from hops to)) }
    ensures none { IfOk result (λ o. o ≡ None → (hops : List Hop) → IsWay (F.seen below.now) members.now processes.now dst from hops to → length members.now < length hops) }
{
    let mut hops = Seq::new(alloc);
    let mut at = from;
    'hops: while hops.len() < members.len() {
        if at == to {
            return Ok(Some(hops));
        }
        let Some(hop) = hop_at(below, members, processes, dst, at) else {
            return Ok(None);
        };
        hops.push(hop)?;
        at = hop.to;
    }
    if at == to { Ok(Some(hops)) } else { Ok(None) }
}
