//! A flow that is asked for: what nothing refuses, and what the asker makes of it.
ghost use Rattle.std.specs.Prelude.{◌≡◌, ◌<◌, IfOk, None, Some, length};
ghost use Rattle.rina_alloc.specs.Messages.{IsProper};
ghost use Rattle.rina_dif_law.specs.Dif.{fac_of};
ghost use Rattle.rina_iface.specs.Allocate.{refused_in};
ghost use Rattle.rina_dif.specs.Allocating.{TellsRefusal, allocate_refusal, spent_ids};
ghost use Rattle.rina_dif.specs.Requesting.{DrawsNext, IsWanted, cube_wanted, end_of_ask, peer_of, request_of};
ghost use Rattle.rina_dif.specs.Shown.{seen_of};
ghost use Rattle.rina_dif.specs.Whole.{IsDif};

use crate::dif::Dif;
use crate::facade::cube_of;
use crate::fixed_flows::{NextEnd, asked, drawn, new_end};
use crate::names::is_formed;
use rina_alloc::{FlowAsk, FlowMessage, FlowWord};
use rina_base::{Addr, FlowName, Memory, Node, Port};
use rina_conn::Peer;
use rina_cube::{Cube, Want, pick};
use rina_iface::{AllocateError, Ask, End, PortState, Role};
use std::alloc::Global;

/// A flow that is asked for, once nothing refuses it.
#[derive(Clone, Copy)]
pub struct AskedFlow {
    pub flow: FlowName,
    /// What the member that asks draws.
    pub near: NextEnd,
    pub cube: Cube,
    /// The address of the member that is asked.
    pub far: Addr,
}

/// The cube of the id that the first cube has that meets a wish. None exactly where none meets it.
fn cube_for(cubes: &[Cube], want: &Want) -> Option<Cube>
    ensures { result ≡ cube_wanted cubes.now want.now }
{
    let id = pick(cubes, want)?;
    cube_of(cubes, id).copied()
}

impl AskedFlow {
    /// Its connection, as the asker knows it: the CEP-id of the far end is none yet.
    pub(crate) fn peer(&self) -> Peer
        ensures { result ≡ peer_of self.now }
    {
        Peer {
            own: self.near.addr,
            far: self.far,
            scep: self.near.cep,
            dcep: 0,
        }
    }

    /// The end of the asker, which waits.
    pub(crate) fn end(&self, alloc: Global, ask: &Ask) -> Result<End, Memory>
        ensures { IfOk result (λ e. e ≡ end_of_ask self.now ask.now) }
    {
        let (flow, port, cube) = (self.flow, self.near.port, self.cube.id);
        let mut end = new_end(alloc, flow, Role::Asker, port, &ask.app, &ask.to, cube)?;
        end.state = PortState::Pending;
        Ok(end)
    }

    /// The request to the member that is asked.
    pub(crate) fn message(
        &self,
        alloc: Global,
        ask: &Ask,
        invoke: u32,
    ) -> Result<FlowMessage, Memory>
        ensures is { IfOk result (λ m. m ≡ request_of self.now ask.now invoke) }
        ensures proper { IfOk result (λ m. IsProper m.word) }
    {
        // Laws, and no steps: the names of applications have a form that the members can tell each other.
        is_formed(&ask.to);
        is_formed(&ask.app);
        let ask = FlowAsk {
            flow: self.flow,
            cube: self.cube.id,
            scep: self.near.cep,
            destination: ask.to.copy(alloc)?,
            source: ask.app.copy(alloc)?,
        };
        Ok(FlowMessage {
            to: self.far,
            from: self.near.addr,
            word: FlowWord::Ask { invoke, ask },
        })
    }
}

impl Dif {
    /// What the member at a place, at a node, draws next, where a CEP-id is free there and fewer ports were drawn at the node than it may have.
    pub(crate) fn next_end(&self, at: usize, node: Node) -> NextEnd
        requires valid { IsDif self.now }
        requires at { at < length self.now.settings.members }
        requires room { spent_ids self.now at node ≡ None }
        ensures { DrawsNext self.now at node result }
    {
        let Some(member) = self.settings.members.get(at) else {
            unreachable!()
        };
        let Some(cep) = self.ids.free(at, self.clock) else {
            unreachable!()
        };
        let drawn = drawn(self.flows.journal.ends.as_slice(), node) as u32;
        NextEnd {
            place: at,
            addr: member.addr,
            cep,
            port: Port {
                fac: self.settings.fac,
                node,
                n: drawn + 1,
            },
        }
    }

    /// The flow that an ask is for, or the first cause for which it is refused: no enrolled member is at the node, no cube meets the wish, or
    /// what the member there refuses.
    pub(crate) fn asked_flow(&self, ask: &Ask) -> Result<AskedFlow, AllocateError>
        requires { IsDif self.now }
        ensures refuses { TellsRefusal (refused_in (Some (fac_of (seen_of self.now))) ask.now (allocate_refusal self.now ask.now)) result }
        ensures wanted { IfOk result (IsWanted self.now ask.now) }
    {
        let Some(at) = self.enrolled_place(ask.node) else {
            return Err(AllocateError::NoMember);
        };
        let Some(cube) = cube_for(self.settings.cubes.as_slice(), &ask.want) else {
            return Err(AllocateError::NoCube);
        };
        let far = self.asked_address(at, ask)?;
        let near = self.next_end(at, ask.node);
        let flow = FlowName {
            src: near.addr,
            tick: self.clock,
            count: asked(self.flows.journal.ends.as_slice(), ask.node) as u32,
        };
        Ok(AskedFlow {
            flow,
            near,
            cube,
            far,
        })
    }
}
