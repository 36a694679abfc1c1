//! What the management of a member holds from the start of its DIF.
ghost use Rattle.std.specs.Prelude.{◌≡◌, map, IfOk, OnOk};
ghost use Rattle.rina_newest.specs.Newest.{taken_all};
ghost use Rattle.rina_member.specs.Start.{first_enrolled, items_taken, managed_link, started, starts_enrolled, state_items};

use crate::links::live_links;
use crate::texts::{node_of, take_members, take_states};
use rina_access::Rules;
use rina_agent::{Agent, Link as Managed};
use rina_base::{Addr, Memory, Seq};
use rina_data::{Link, Member};
use rina_newest::Newest;
use rina_plan::LinkPlan;
use rina_route::Link as Hop;
use std::alloc::{AllocError, Global};

/// The members that are enrolled from the start: all of a static DIF, else the first one alone.
pub fn first_enrolled(is_static: bool, members: &[Member]) -> &[Member]
    ensures { result.now ≡ first_enrolled is_static members.now }
{
    if is_static || members.is_empty() {
        members
    } else {
        &members[..1]
    }
}

/// Whether the member of an address is enrolled from the start.
pub fn starts_enrolled(is_static: bool, members: &[Member], address: Addr) -> bool
    ensures { result ≡ starts_enrolled is_static members.now address }
{
    first_enrolled(is_static, members)
        .iter()
        .any(|member| member.addr == address)
}

/// Takes the link states of the start.
fn take_first_states(
    items: &mut Newest,
    alloc: Global,
    is_static: bool,
    members: &[Member],
    plans: &[LinkPlan],
) -> Result<(), Memory>
    ensures { OnOk result (items.new ≡ taken_all items.old (state_items is_static members.now plans.now)) }
{
    if is_static {
        take_states(items, alloc, members, plans)
    } else {
        Ok(())
    }
}

/// The items that an enrolled member holds from the start: in a static DIF the member items of all members, and their link
/// states; in any other the member item of the first.
#[tactic(auto, using(crate::proofs::Items::taken_both))]
pub fn start_items(
    alloc: Global,
    is_static: bool,
    members: &[Member],
    plans: &[LinkPlan],
) -> Result<Newest, Memory>
    ensures { IfOk result (λ items. items ≡ items_taken is_static members.now plans.now) }
{
    let mut items = Newest::new(alloc);
    take_members(&mut items, alloc, first_enrolled(is_static, members))?;
    take_first_states(&mut items, alloc, is_static, members, plans)?;
    Ok(items)
}

/// A live link of a member, as its management keeps it.
fn managed_link(hop: &Hop) -> Managed
    ensures { result ≡ managed_link hop.now }
{
    Managed {
        number: hop.number,
        peer: Some(hop.peer),
        weight: hop.weight,
        up: true,
        enrolment: None,
    }
}

/// The live links of a member, as its management keeps them.
fn managed_links(alloc: Global, hops: &[Hop]) -> Result<Vec<Managed>, AllocError>
    ensures { IfOk result (λ v. v.items ≡ map managed_link hops.now) }
{
    hops.iter().map(|hop| managed_link(hop)).collect(alloc)
}

/// The management of a member from the start, where these are the items of the start and its links. It is enrolled, or it is
/// outside and holds nothing.
#[tactic(auto, unfolding(crate::specs::Start::started))]
pub fn started(
    alloc: Global,
    is_static: bool,
    members: &[Member],
    plans: &[LinkPlan],
    rules: Rules,
    member: &Member,
    links: &[Link],
    items: &Newest,
) -> Result<Agent, Memory>
    requires { items.now ≡ items_taken is_static members.now plans.now }
    ensures { IfOk result (λ g. g ≡ started is_static members.now plans.now rules member.now links.now) }
{
    let name = member.name.copy(alloc)?;
    let node = node_of(alloc, member)?;
    if !starts_enrolled(is_static, members, member.addr) {
        return Ok(Agent::outside(alloc, member.addr, name, node, rules));
    }
    let hops = live_links(alloc, members, plans, member, links)?;
    let managed = managed_links(alloc, &hops)?;
    let items = items.copy(alloc)?;
    let links = Seq::from_vec(managed);
    Ok(Agent::enrolled(alloc, member.addr, name, node, rules, items, links))
}
