//! The items of the start, as keys and texts.
ghost use Rattle.std.specs.Prelude.{◌≡◌, ◌<◌, ◌==◌, length, map, position, IfOk, IfSome, OnOk};
ghost use Rattle.rina_newest.specs.Newest.{taken, taken_all};
ghost use Rattle.rina_member.specs.Start.{behind, first_version, member_item, neighbour_link, node_of, state_item, state_text};

use crate::edges::edges_from;
use rina_agent::{Link as Managed, link_state, numbered};
use rina_base::{Addr, Memory, Name, NameError};
use rina_data::Member;
use rina_graph::Edge;
use rina_newest::{Newest, Version};
use rina_plan::LinkPlan;
use std::alloc::{AllocError, Global};

/// The version of an item of the start.
pub(crate) fn first_version(address: Addr) -> Version
    ensures { result ≡ first_version address }
{
    Version {
        tick: 0,
        count: 0,
        origin: address,
    }
}

/// The place of the first slash.
fn slash_in(name: &[u8]) -> Option<usize>
    ensures at { result ≡ position (λ b. b == 47) name.now }
    ensures within { IfSome result (λ k. k < length name.now) }
{
    name.iter().position(|b| *b == b'/')
}

/// What stands behind the first slash of a name, or all of it.
fn behind(name: &[u8]) -> &[u8]
    ensures { result.now ≡ behind (position (λ b. b == 47) name.now) name.now }
{
    match slash_in(name) {
        Some(at) => &name[at + 1..],
        None => name,
    }
}

/// The name of a member's node, which stands behind the slash in the member's own name.
#[tactic(auto, unfolding(crate::specs::Start::node_of))]
pub fn node_of(alloc: Global, member: &Member) -> Result<Name, Memory>
    ensures { IfOk result (λ n. n ≡ node_of member.now) }
{
    let _length = member.name.len();
    match Name::read(alloc, behind(member.name.as_bytes())) {
        Ok(name) => Ok(name),
        Err(NameError::Memory) => Err(Memory),
        Err(NameError::BadLength { .. }) => unreachable!(),
        Err(NameError::BadByte { .. }) => unreachable!(),
    }
}

/// A neighbour of a member, as management keeps it.
fn neighbour_link(edge: &Edge) -> Managed
    ensures { result ≡ neighbour_link edge.now }
{
    Managed {
        number: 0,
        peer: Some(edge.to),
        weight: edge.weight,
        up: true,
        enrolment: None,
    }
}

/// The neighbours of a member, as management keeps them.
fn neighbour_links(alloc: Global, edges: &[Edge]) -> Result<Vec<Managed>, AllocError>
    ensures { IfOk result (λ v. v.items ≡ map neighbour_link edges.now) }
{
    edges.iter().map(|edge| neighbour_link(edge)).collect(alloc)
}

/// The value of the link state of a member from the start.
fn state_text(
    alloc: Global,
    members: &[Member],
    plans: &[LinkPlan],
    member: &Member,
) -> Result<Vec<u8>, AllocError>
    ensures { IfOk result (λ v. v.items ≡ state_text members.now plans.now member.now) }
{
    let edges = edges_from(alloc, members, usize::from(member.node), plans)?;
    let links = neighbour_links(alloc, &edges)?;
    link_state(alloc, &links, None)
}

/// Takes the member item of a member.
fn take_member(items: &mut Newest, alloc: Global, member: &Member) -> Result<(), Memory>
    ensures { OnOk result (items.new ≡ taken items.old (member_item member.now)) }
{
    let key = numbered(alloc, b"/member/", u64::from(member.addr))?;
    let node = node_of(alloc, member)?;
    let version = first_version(member.addr);
    let _ = items.take(alloc, key.as_slice(), version, Some(node.as_bytes()))?;
    Ok(())
}

/// Takes the link state of a member.
fn take_state(
    items: &mut Newest,
    alloc: Global,
    members: &[Member],
    plans: &[LinkPlan],
    member: &Member,
) -> Result<(), Memory>
    ensures { OnOk result (items.new ≡ taken items.old (state_item members.now plans.now member.now)) }
{
    let key = numbered(alloc, b"/link/", u64::from(member.addr))?;
    let text = state_text(alloc, members, plans, member)?;
    let version = first_version(member.addr);
    let _ = items.take(alloc, key.as_slice(), version, Some(text.as_slice()))?;
    Ok(())
}

/// Takes the member items of all members.
pub(crate) fn take_members(
    items: &mut Newest,
    alloc: Global,
    members: &[Member],
) -> Result<(), Memory>
    ensures { OnOk result (items.new ≡ taken_all items.old (map member_item members.now)) }
{
    for member in members {
        take_member(items, alloc, member)?;
    }
    Ok(())
}

/// Takes the link states of all members.
pub(crate) fn take_states(
    items: &mut Newest,
    alloc: Global,
    members: &[Member],
    plans: &[LinkPlan],
) -> Result<(), Memory>
    ensures { OnOk result (items.new ≡ taken_all items.old (map (state_item members.now plans.now) members.now)) }
{
    for member in members {
        take_state(items, alloc, members, plans, member)?;
    }
    Ok(())
}
