//! The live links of a member, with its neighbours.
ghost use Rattle.std.specs.Prelude.{◌≡◌, filter, IfOk};
ghost use Rattle.std.specs.List.{filter_map};
ghost use Rattle.rina_member.specs.Routing.{live_links, live_of, own_link, own_links};

use crate::edges::edges_from;
use rina_data::{Link, Member};
use rina_graph::Edge;
use rina_plan::LinkPlan;
use rina_route::Link as Hop;
use std::alloc::{AllocError, Global};

/// A link of an IPC process, the number of which is the place of its edge.
fn own_link(edges: &[Edge], link: &Link) -> Option<Hop>
    ensures { result ≡ own_link edges.now link.now }
{
    let edge = edges.get(usize::from(link.number))?;
    Some(Hop {
        number: link.number,
        peer: edge.to,
        weight: edge.weight,
    })
}

/// The links of an IPC process, with its neighbours.
fn own_links(alloc: Global, edges: &[Edge], links: &[Link]) -> Result<Vec<Hop>, AllocError>
    ensures { IfOk result (λ v. v.items ≡ own_links edges.now links.now) }
{
    links
        .iter()
        .filter_map(|link| own_link(edges, link))
        .collect(alloc)
}

/// The links that are live.
fn live_of(alloc: Global, links: &[Link]) -> Result<Vec<Link>, AllocError>
    ensures { IfOk result (λ v. v.items ≡ live_of links.now) }
{
    links
        .iter()
        .copied()
        .filter(|link| link.live)
        .collect(alloc)
}

/// The live links of a member, with its neighbours.
pub fn live_links(
    alloc: Global,
    members: &[Member],
    plans: &[LinkPlan],
    member: &Member,
    links: &[Link],
) -> Result<Vec<Hop>, AllocError>
    ensures { IfOk result (λ v. v.items ≡ live_links members.now plans.now member.now links.now) }
{
    let edges = edges_from(alloc, members, usize::from(member.node), plans)?;
    let live = live_of(alloc, links)?;
    own_links(alloc, &edges, &live)
}
