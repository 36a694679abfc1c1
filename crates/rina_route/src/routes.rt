//! The table of next hops.
ghost use Rattle.std.specs.Prelude.{◌≡◌, ◌<◌, ◌≤◌, ◌↔◌, ℕ, [], length, map, slice_index, IfOk, IsTrue, OnOk, OnErr};
ghost use Rattle.std.specs.List.Sorted.{IsStrictlyIncreasing};
ghost use Rattle.rina_graph.specs.Walks.{IsTree};
ghost use Rattle.rina_route.specs.Nodes.{AreNodes, HaveWeights, lifted};
ghost use Rattle.rina_route.specs.Routes.{HaveLinks, IsHop, AreHops, AreRoutes, hop_at};

use crate::claims::{claimed, counted};
use crate::hop::{hop, least_links, least_weights};
use crate::link::Link;
use crate::nodes::{graph_of, nodes_of, number_of};
use rina_base::{Addr, Memory};
use rina_graph::{Edge, Graph, Tree, least_hops};
use rina_newest::Newest;
use std::alloc::Global;
use std::collections::BTreeMap;
use std::marker::Model;

/// How many addresses a table can tell apart.
const MOST_NODES: usize = 65_536;

/// Whether a table can tell so many addresses apart.
fn are_few(nodes: &[Addr]) -> bool
    ensures { IsTrue result ↔ (length nodes.now ≤ 65536) }
{
    nodes.len() <= MOST_NODES
}

/// By which of the own links a PDU leaves for an address. A contract sees the addresses that are
/// reached, each with the number of that link.
#[derive(Drop)]
pub struct Routes {
    rows: BTreeMap<Addr, u16>,
}

impl Model for Routes {
    ghost use Rattle.std.specs.Prelude.{ℕ, List};

    ghost Value = { List (ℕ × ℕ) };

    ghost view = { λ r. r.rows.entries };
}

/// The rows of the nodes of a graph.
fn rows_of(
    alloc: Global,
    links: &[Link],
    nodes: &[Addr],
    graph: &Graph,
    tree: &Tree,
    start: u32,
) -> Result<BTreeMap<Addr, u16>, Memory>
    requires rise { IsStrictlyIncreasing nodes.now }
    requires nodes { graph.now.0 ≡ length nodes.now }
    requires few { length nodes.now ≤ 65536 }
    requires start { start < length nodes.now }
    requires tree { IsTree graph.now.1 start tree.now }
    requires reached { length tree.now ≡ length nodes.now }
    requires links { HaveLinks (slice_index nodes.now start) links.now (map (lifted nodes.now) graph.now.1) }
    requires ends { AreNodes (slice_index nodes.now start) (map (lifted nodes.now) graph.now.1) nodes.now }
    ensures { IfOk result (λ rows. (dst : ℕ) → IsHop (map (lifted nodes.now) graph.now.1) links.now (slice_index nodes.now start) dst (hop_at rows.entries dst)) }
{
    let least = least_links(alloc, links)?;
    let weights = least_weights(alloc, nodes.len(), graph.edges(), start)?;
    let mut rows = BTreeMap::new(alloc);
    for at in 0..nodes.len() {
        match hop(&least, nodes, &weights, tree, at as u32) {
            Some(number) => {
                let Ok(_) = rows.insert(nodes[at], number) else {
                    return Err(Memory);
                };
            }
            None => {}
        }
    }
    Ok(rows)
}

impl Routes {
    /// No address is reached.
    pub fn new(alloc: Global) -> Routes
        ensures { result ≡ [] }
    {
        Routes {
            rows: BTreeMap::new(alloc),
        }
    }

    /// Builds the table anew, for the own address, the own links that are up, and the link states among
    /// the newest items. Without memory nothing changes, nor where the link states name more than
    /// 65,535 other addresses.
    pub fn rebuild(
        &mut self,
        alloc: Global,
        own: Addr,
        links: &[Link],
        states: &Newest,
    ) -> Result<(), Memory>
        ensures ok { OnOk result (AreRoutes own links.now states.now self.new) }
        ensures err { OnErr result (self.new ≡ self.old) }
    {
        let claimed = claimed(alloc, states)?;
        self.rebuild_of(alloc, own, links, &claimed)
    }

    /// Builds the table anew, for the own address, the own links that are up, and the edges that the ends of links
    /// claim, each with a weight of 1 or more. Without memory nothing changes, nor where the edges name more than
    /// 65,535 other addresses.
    pub fn rebuild_of(
        &mut self,
        alloc: Global,
        own: Addr,
        links: &[Link],
        claimed: &[Edge],
    ) -> Result<(), Memory>
        requires weights { HaveWeights claimed.now }
        ensures ok { OnOk result (AreHops own links.now claimed.now self.new) }
        ensures err { OnErr result (self.new ≡ self.old) }
    {
        let edges = counted(alloc, own, links, claimed)?;
        let nodes = nodes_of(alloc, own, &edges)?;
        if !are_few(nodes.as_slice()) {
            return Err(Memory);
        }
        let graph = graph_of(alloc, own, &nodes, &edges)?;
        let start = number_of(&nodes, own);
        let tree = least_hops(alloc, &graph, start)?;
        self.rows = rows_of(alloc, links, &nodes, &graph, &tree, start)?;
        Ok(())
    }

    /// The number of the link by which a PDU leaves for an address. None exactly where no walk over the
    /// links that count leads from the own address to another one of that name. Takes no memory.
    pub fn next_hop(&self, dst: Addr) -> Option<u16>
        ensures { result ≡ hop_at self.now dst }
    {
        self.rows.get(&dst).copied()
    }
}
