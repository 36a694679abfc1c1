//! Least walks on small graphs, worked out by hand.
use rina_base::Memory;
use rina_graph::{Graph, least_hops};
use std::alloc::Global;

/// A line of a table of graphs.
#[derive(Clone, Copy)]
enum Line {
    /// A graph of so many nodes begins.
    Graph(u32),
    /// It has an edge from a node to another, of a weight.
    Edge(u32, u32, u16),
    /// A node, the weight of a least walk from node 0 to it, and the first step of that walk.
    Walk(u32, Option<u32>, Option<u32>),
}

static LINES: [Line; 21] = [
    // ties go to the smallest first node
    Line::Graph(5),
    Line::Edge(0, 2, 1),
    Line::Edge(2, 3, 1),
    Line::Edge(0, 1, 1),
    Line::Edge(1, 3, 1),
    Line::Edge(3, 4, 7),
    Line::Walk(0, Some(0), None),
    Line::Walk(3, Some(2), Some(1)),
    Line::Walk(4, Some(9), Some(1)),
    // a longer walk may weigh less
    Line::Graph(4),
    Line::Edge(0, 3, 10),
    Line::Edge(0, 2, 1),
    Line::Edge(2, 1, 1),
    Line::Edge(1, 3, 1),
    Line::Walk(3, Some(3), Some(2)),
    // an edge works one way, and no walk reaches some nodes
    Line::Graph(4),
    Line::Edge(1, 0, 1),
    Line::Edge(0, 2, 65_535),
    Line::Walk(1, None, None),
    Line::Walk(2, Some(65_535), Some(2)),
    Line::Walk(3, None, None),
];

/// Whether a graph of so many nodes begins.
fn begins(alloc: Global, graph: &mut Graph, nodes: u32) -> bool {
    if nodes > 65_536 {
        return false;
    }
    match Graph::new(alloc, nodes) {
        Ok(new) => {
            *graph = new;
            true
        }
        Err(Memory) => false,
    }
}

/// Whether an edge is added.
fn is_added(alloc: Global, graph: &mut Graph, from: u32, to: u32, weight: u16) -> bool {
    if from >= graph.nodes() || to >= graph.nodes() || weight == 0 {
        return false;
    }
    graph.edge(alloc, from, to, weight).is_ok()
}

/// Whether a least walk from node 0 to a node has this weight and this first step.
fn is_least(
    alloc: Global,
    graph: &Graph,
    node: u32,
    label: Option<u32>,
    step: Option<u32>,
) -> bool {
    if node >= graph.nodes() {
        return false;
    }
    match least_hops(alloc, graph, 0) {
        Ok(tree) => tree.label(node) == label && tree.first_step(node) == step,
        Err(Memory) => false,
    }
}

/// Whether it goes as a line says.
fn goes(alloc: Global, graph: &mut Graph, line: Line) -> bool {
    match line {
        Line::Graph(nodes) => begins(alloc, graph, nodes),
        Line::Edge(from, to, weight) => is_added(alloc, graph, from, to, weight),
        Line::Walk(node, label, step) => is_least(alloc, graph, node, label, step),
    }
}

/// The place of the first line that is not so.
fn first_difference(alloc: Global, graph: &mut Graph) -> Option<usize> {
    for (place, line) in LINES.iter().enumerate() {
        if !goes(alloc, graph, *line) {
            return Some(place);
        }
    }
    None
}

/// The same, where no graph has begun.
fn first_of_all(alloc: Global) -> Option<usize> {
    match Graph::new(alloc, 0) {
        Ok(mut graph) => first_difference(alloc, &mut graph),
        Err(Memory) => Some(0),
    }
}

#[test]
fn walks_are_least(rt: HostRuntime) {
    assert_eq!(rt; first_of_all(rt.alloc()), None);
}
