//! The next hops of a member over the items that its management holds.
ghost use Rattle.std.specs.Prelude.{◌≡◌, IfOk};
ghost use Rattle.rina_member.specs.Routing.{route_to, routes_to};
ghost use Rattle.rina_member.specs.Knowing.{AreRoutesOf, hop_of, hops_of};

use rina_agent::{Agent, Link as Managed};
use rina_base::{Addr, Memory};
use rina_data::{Member, Route};
use rina_route::{Link as Hop, Routes};
use std::alloc::{AllocError, Global};

/// The link as over it PDUs may leave: where it is up, and its neighbour is known.
fn hop_of(link: &Managed) -> Option<Hop>
    ensures { result ≡ hop_of link.now }
{
    if !link.up {
        return None;
    }
    let peer = link.peer?;
    Some(Hop {
        number: link.number,
        peer,
        weight: link.weight,
    })
}

/// The links over which PDUs may leave.
fn hops_of(alloc: Global, links: &[Managed]) -> Result<Vec<Hop>, AllocError>
    ensures { IfOk result (λ v. v.items ≡ hops_of links.now) }
{
    links.iter().filter_map(|link| hop_of(link)).collect(alloc)
}

/// The next hop to a member.
fn route_to(own: Addr, table: &Routes, member: &Member) -> Option<Route>
    ensures { result ≡ route_to own table.now member.now }
{
    if member.addr == own {
        return None;
    }
    let link = table.next_hop(member.addr)?;
    Some(Route {
        dst: member.addr,
        link,
    })
}

/// The next hops to the other members.
fn routes_to(
    alloc: Global,
    own: Addr,
    table: &Routes,
    members: &[Member],
) -> Result<Vec<Route>, AllocError>
    ensures { IfOk result (λ v. v.items ≡ routes_to own table.now members.now) }
{
    members
        .iter()
        .filter_map(|member| route_to(own, table, member))
        .collect(alloc)
}

/// The next hops of a member over the items that its management holds, and its links that are up.
pub fn routes_of(alloc: Global, agent: &Agent, members: &[Member]) -> Result<Vec<Route>, Memory>
    ensures { IfOk result (λ v. AreRoutesOf agent.now members.now v.items) }
{
    let hops = hops_of(alloc, agent.links.as_slice())?;
    let mut table = Routes::new(alloc);
    table.rebuild(alloc, agent.address, &hops, &agent.items)?;
    Ok(routes_to(alloc, agent.address, &table, members)?)
}
