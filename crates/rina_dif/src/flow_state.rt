//! What the RIB tells of flows.
ghost use Rattle.std.specs.Prelude.{◌≡◌, ◌==◌, IfOk, filter};
ghost use Rattle.rina_dif.specs.Objects.{AreFlows, IsFlow, flows_at, is_allocated};
ghost use Rattle.rina_dif.specs.Whole.{IsDif};

use crate::dif::Dif;
use rina_base::{Cep, Node, Tick};
use rina_conn::Conn;
use rina_iface::{End, PortState};
use std::alloc::{AllocError, Global};

/// An end of a flow, as the RIB tells it.
#[derive(Clone, Copy)]
pub struct FlowState {
    /// The node at which it stands.
    pub node: Node,
    pub cep: Cep,
    /// Whether it is allocated.
    pub open: bool,
    /// The sender's next number; None where the sender has no state.
    pub tx: Option<u64>,
    /// The number after the greatest one that the receiver accepted; None where the receiver has no state.
    pub rx: Option<u64>,
}

fn is_allocated(state: PortState) -> bool
    ensures { result ≡ is_allocated state }
{
    matches!(state, PortState::Allocated)
}

/// What is told of an end at a tick.
fn flow_state(now: Tick, end: &End, conn: &Conn) -> FlowState
    ensures { IsFlow now end.now conn.now result }
{
    FlowState {
        node: end.port.node,
        cep: conn.sending.form.peer.scep,
        open: is_allocated(end.state),
        tx: conn.tx_next(now),
        rx: conn.rx_next(now),
    }
}

/// The states of the flows that have an end at a node.
pub(crate) fn flows_at(
    alloc: Global,
    node: Node,
    flows: &[FlowState],
) -> Result<Vec<FlowState>, AllocError>
    ensures { IfOk result (λ v. v.items ≡ flows_at node flows.now) }
{
    flows
        .iter()
        .copied()
        .filter(|flow| flow.node == node)
        .collect(alloc)
}

impl Dif {
    /// What is told of all ends of flows, in the order of binding.
    pub(crate) fn flow_states(&self, alloc: Global) -> Result<Vec<FlowState>, AllocError>
        requires { IsDif self.now }
        ensures { IfOk result (λ v. AreFlows self.now v.items) }
    {
        let mut states = Vec::new(alloc);
        for at in 0..self.flows.conns.len() {
            let conn = self.flows.conns.at(at);
            let Some(end) = self.flows.journal.ends.get(at) else {
                unreachable!()
            };
            states.push(flow_state(self.clock, end, conn))?;
        }
        Ok(states)
    }
}
