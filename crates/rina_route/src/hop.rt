//! The link by which a PDU leaves for an address.
ghost use Rattle.std.specs.Prelude.{◌≡◌, ◌<◌, ℕ, List, Some, min, length, map, slice_index, IfOk, MatchOption};
ghost use Rattle.rina_graph.specs.declared.graph.Edge.{Edge};
ghost use Rattle.rina_graph.specs.Walks.{AreEdges, first_at};
ghost use Rattle.rina_route.specs.declared.link.Link.{Link};
ghost use Rattle.rina_route.specs.Nodes.{lifted};
ghost use Rattle.rina_route.specs.Routes.{IsHop};
ghost use Rattle.rina_route.specs.Weights.{AreWeights, AreLeastLinks, IsSearched};

use crate::link::Link;
use rina_base::{Addr, Memory};
use rina_graph::{Edge, Tree};
use std::alloc::{AllocError, Global};
use std::collections::BTreeMap;

/// The lesser of a number and the least so far, if there is one.
fn lesser(best: Option<u16>, number: u16) -> u16
    ensures { MatchOption best (result ≡ number) (λ n. result ≡ min n number) }
{
    match best {
        Some(least) => least.min(number),
        None => number,
    }
}

/// The least weights of the edges from one node to each of the nodes.
pub(crate) fn least_weights(
    alloc: Global,
    nodes: usize,
    edges: &[Edge],
    start: u32,
) -> Result<Vec<Option<u16>>, AllocError>
    requires { AreEdges nodes edges.now }
    ensures { IfOk result (λ v. AreWeights start edges.now nodes v.items) }
{
    let mut weights = vec![in alloc; None; nodes]?;
    for edge in edges {
        if edge.from == start {
            let to = edge.to as usize;
            weights[to] = Some(lesser(weights[to], edge.weight));
        }
    }
    Ok(weights)
}

/// For each neighbour and weight the least link that leads to it.
pub(crate) fn least_links(
    alloc: Global,
    links: &[Link],
) -> Result<BTreeMap<(Addr, u16), u16>, Memory>
    ensures { IfOk result (λ m. AreLeastLinks links.now m.entries) }
{
    let mut least = BTreeMap::new(alloc);
    for link in links {
        let ends = (link.peer, link.weight);
        let number = lesser(least.get(&ends).copied(), link.number);
        let Ok(_) = least.insert(ends, number) else {
            return Err(Memory);
        };
    }
    Ok(least)
}

/// The link by which a PDU leaves for the node of a number, with the least weights of the edges from
/// the own node, and the least walks from it.
pub(crate) fn hop(
    links: &BTreeMap<(Addr, u16), u16>,
    nodes: &[Addr],
    weights: &[Option<u16>],
    tree: &Tree,
    at: u32,
) -> Option<u16>
    requires weighed { length weights.now ≡ length nodes.now }
    requires reached { length tree.now ≡ length nodes.now }
    requires at { at < length nodes.now }
    requires steps { (first : ℕ) → first_at tree.now at ≡ Some first → first < length nodes.now }
    ensures { (start : ℕ) (edges : List Edge) (own : List Link) → AreLeastLinks own links.now.entries → IsSearched start edges nodes.now own weights.now tree.now → IsHop (map (lifted nodes.now) edges) own (slice_index nodes.now start) (slice_index nodes.now at) result }
{
    match tree.first_step(at) {
        Some(first) => match weights[first as usize] {
            Some(weight) => links.get(&(nodes[first as usize], weight)).copied(),
            None => None,
        },
        None => None,
    }
}
