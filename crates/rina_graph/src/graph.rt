//! Graphs with weighted edges.
ghost use Rattle.std.specs.Prelude.{◌≡◌, ◌<◌, ◌≤◌, [], ◌∷◌, ◌++◌, OnOk, OnErr, IfOk};
ghost use Rattle.rina_graph.specs.Walks.{AreEdges};

use rina_base::{Memory, Seq};
use std::alloc::Global;
use std::marker::Model;

/// An edge from one node to another. A link that works both ways is two edges.
#[derive(Clone, Copy, Debug, PartialEq, Eq)]
pub struct Edge {
    pub from: u32,
    pub to: u32,
    /// 1 to 65,535.
    pub weight: u16,
}

/// At most 65,536 nodes, numbered from 0, and edges between them. A contract sees the number of nodes
/// and the list of edges.
#[derive(Drop)]
pub struct Graph {
    nodes: u32,
    edges: Seq<Edge>,
}

impl Model for Graph {
    ghost use Rattle.std.specs.Prelude.{ℕ, List, ◌≤◌};
    ghost use Rattle.rina_graph.specs.declared.graph.Edge.{Edge};
    ghost use Rattle.rina_graph.specs.Walks.{AreEdges};

    ghost Value = { ℕ × List Edge };

    ghost view = { λ g. (g.nodes, g.edges) };

    ghost invariant = { λ g. (g.nodes ≤ 65536) × AreEdges g.nodes g.edges };
}

impl Graph {
    /// A graph without edges.
    pub fn new(alloc: Global, nodes: u32) -> Result<Graph, Memory>
        requires { nodes ≤ 65536 }
        ensures { IfOk result (λ g. g ≡ (nodes, [])) }
    {
        Ok(Graph {
            nodes,
            edges: Seq::new(alloc),
        })
    }

    /// Adds an edge from `a` to `b`. Without memory nothing changes.
    pub fn edge(&mut self, _alloc: Global, a: u32, b: u32, weight: u16) -> Result<(), Memory>
        requires a { a < self.old.0 }
        requires b { b < self.old.0 }
        requires weight { 1 ≤ weight }
        ensures ok { OnOk result (self.new ≡ (self.old.0, self.old.1 ++ record { from = a; to = b; weight = weight } ∷ [])) }
        ensures err { OnErr result (self.new ≡ self.old) }
    {
        self.edges.push(Edge {
            from: a,
            to: b,
            weight,
        })?;
        Ok(())
    }

    /// How many nodes there are.
    pub fn nodes(&self) -> u32
        ensures nodes { result ≡ self.now.0 }
        ensures few { result ≤ 65536 }
    {
        self.nodes
    }

    /// The edges, in the order in which they were added.
    pub fn edges(&self) -> &[Edge]
        ensures all { result.now ≡ self.now.1 }
        ensures sound { AreEdges self.now.0 result.now }
    {
        self.edges.as_slice()
    }
}
