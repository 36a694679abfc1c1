//! Ports and their states, as notes show them: with the names of the stack in place of numbers; and states of members.
ghost use Rattle.std.specs.Prelude.{◌≡◌, true, IfOk, OnErr, option_map, slice_get};
ghost use Rattle.rina_notes.specs.Copying.{copies_drawn, copies_fail, copies_port, copies_state};
ghost use Rattle.rina_notes.specs.Told.{facs_of, port_told, fail_told, member_told, state_told, drawn_told};

use crate::facility::name_at;
use rina_agent::MemberState;
use rina_base::{Memory, Name, Port};
use rina_iface::{Fail, PortState};
use rina_report::{FailNote, MemberNote, PortNote, StateNote};
use rina_stack::Plan;
use std::alloc::Global;

/// The name of a facility of a rank.
#[tactic(auto, unfolding(crate::specs::Told::facs_of))]
fn fac_name(plan: &Plan, rank: u16, fac: u16) -> Option<&Name>
    ensures { option_map (λ n. n.now) result ≡ slice_get (facs_of plan.now rank) fac }
{
    if rank == 0 {
        Some(&plan.wires.get(fac as usize)?.name)
    } else {
        name_at(plan.difs.as_slice(), rank, fac)
    }
}

/// A port of a rank with the names of its facility and its node.
pub fn tell_port(
    alloc: Global,
    plan: &Plan,
    rank: u16,
    port: Port,
) -> Result<Option<PortNote>, Memory>
    ensures told { IfOk result (λ o. o ≡ port_told plan.now rank port) }
    ensures memory { OnErr result (copies_port plan.now rank port ≡ true) }
{
    let Some(fac) = fac_name(plan, rank, port.fac) else {
        return Ok(None);
    };
    let Some(node) = plan.nodes.get(port.node as usize) else {
        return Ok(None);
    };
    let fac = fac.copy(alloc)?;
    let node = node.copy(alloc)?;
    Ok(Some(PortNote {
        fac,
        node,
        n: port.n,
    }))
}

/// Why a flow of a rank failed, with the names of the port below.
pub fn tell_fail(
    alloc: Global,
    plan: &Plan,
    rank: u16,
    fail: Fail,
) -> Result<Option<FailNote>, Memory>
    ensures told { IfOk result (λ o. o ≡ fail_told plan.now rank fail) }
    ensures memory { OnErr result (copies_fail plan.now rank fail ≡ true) }
{
    match fail {
        Fail::GaveUp { num, first, now } => Ok(Some(FailNote::GaveUp { num, first, now })),
        Fail::Below { port } => match tell_port(alloc, plan, rank.saturating_sub(1), port)? {
            Some(port) => Ok(Some(FailNote::Below { port })),
            None => Ok(None),
        },
        Fail::Cut { at } => Ok(Some(FailNote::Cut { at })),
    }
}

/// The state of a port of a rank.
pub fn tell_state(
    alloc: Global,
    plan: &Plan,
    rank: u16,
    state: PortState,
) -> Result<Option<StateNote>, Memory>
    ensures told { IfOk result (λ o. o ≡ state_told plan.now rank state) }
    ensures memory { OnErr result (copies_state plan.now rank state ≡ true) }
{
    match state {
        PortState::Pending => Ok(Some(StateNote::Pending)),
        PortState::Allocated => Ok(Some(StateNote::Allocated)),
        PortState::Refused(why) => Ok(Some(StateNote::Refused(why))),
        PortState::Failed(fail) => match tell_fail(alloc, plan, rank, fail)? {
            Some(fail) => Ok(Some(StateNote::Failed(fail))),
            None => Ok(None),
        },
        PortState::Closed => Ok(Some(StateNote::Closed)),
    }
}

/// The state of a port of a rank that was drawn.
pub fn tell_drawn(
    alloc: Global,
    plan: &Plan,
    rank: u16,
    state: Option<PortState>,
) -> Result<Option<StateNote>, Memory>
    ensures told { IfOk result (λ o. o ≡ drawn_told plan.now rank state) }
    ensures memory { OnErr result (copies_drawn plan.now rank state ≡ true) }
{
    match state {
        Some(state) => tell_state(alloc, plan, rank, state),
        None => Ok(None),
    }
}

/// How far an IPC process is a member of its DIF.
pub fn tell_member(state: MemberState) -> MemberNote
    ensures { result ≡ member_told state }
{
    match state {
        MemberState::Outside => MemberNote::Outside,
        MemberState::Joining { link } => MemberNote::Joining {
            link: u32::from(link),
        },
        MemberState::Enrolled => MemberNote::Enrolled,
        MemberState::Denied { rule } => MemberNote::Denied { rule },
    }
}
