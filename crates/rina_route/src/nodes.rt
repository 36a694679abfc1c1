//! Addresses as the nodes of a graph, numbered in rising order.
ghost use Rattle.std.specs.Prelude.{◌≡◌, ◌<◌, ◌≤◌, map, length, Contains, slice_index, IfOk};
ghost use Rattle.std.specs.List.Sorted.{IsStrictlyIncreasing};
ghost use Rattle.rina_route.specs.Nodes.{AreNodes, HaveWeights, lifted};

use rina_base::{Addr, Memory};
use rina_graph::{Edge, Graph};
use std::alloc::{AllocError, Global};

/// The own address and the ends of all edges, in rising order.
pub(crate) fn nodes_of(alloc: Global, own: Addr, edges: &[Edge]) -> Result<Vec<Addr>, AllocError>
    ensures { IfOk result (λ v. AreNodes own edges.now v.items) }
{
    let mut nodes = vec![in alloc; own]?;
    for edge in edges {
        nodes.push(edge.from)?;
        nodes.push(edge.to)?;
    }
    nodes.sort_unstable();
    nodes.dedup();
    Ok(nodes)
}

/// The number of an address.
pub(crate) fn number_of(nodes: &[Addr], addr: Addr) -> u32
    requires rise { IsStrictlyIncreasing nodes.now }
    requires there { Contains nodes.now addr }
    requires few { length nodes.now ≤ 65536 }
    ensures within { result < length nodes.now }
    ensures is { slice_index nodes.now result ≡ addr }
{
    match nodes.binary_search(&addr) {
        Ok(at) => at as u32,
        Err(_) => unreachable!(),
    }
}

/// The graph of the edges.
pub(crate) fn graph_of(
    alloc: Global,
    own: Addr,
    nodes: &[Addr],
    edges: &[Edge],
) -> Result<Graph, Memory>
    requires few { length nodes.now ≤ 65536 }
    requires nodes { AreNodes own edges.now nodes.now }
    requires weights { HaveWeights edges.now }
    ensures nodes { IfOk result (λ g. g.0 ≡ length nodes.now) }
    ensures edges { IfOk result (λ g. map (lifted nodes.now) g.1 ≡ edges.now) }
{
    let mut graph = Graph::new(alloc, nodes.len() as u32)?;
    for edge in edges {
        let from = number_of(nodes, edge.from);
        let to = number_of(nodes, edge.to);
        graph.edge(alloc, from, to, edge.weight)?;
    }
    Ok(graph)
}
