//! The search for least walks: the nearest node is settled, one after the other (Dijkstra).
ghost use Rattle.std.specs.Prelude.{◌≡◌, ℕ, false, ◌*◌, ◌<◌, ◌≤◌, length, IfSome, IfNone, IfOk};
ghost use Rattle.std.specs.List.Sorted.{IsNonDecreasingBy, IsPermutation};
ghost use Rattle.rina_graph.specs.Search.{from_of, over, is_better, followed, followed_all, IsOpen, IsNearest, AllSettled, is_settled};
ghost use Rattle.rina_graph.specs.Walks.{AreEdges, IsTree, reach_at};

use crate::graph::{Edge, Graph};
use crate::tree::{Reach, Tree};
use rina_base::Memory;
use std::alloc::{AllocError, Global};

/// Whether one way to a node is better than another: it weighs less, or as much with a smaller first
/// step.
#[tactic(auto, unfolding(crate::specs::Search::is_better))]
fn is_better(one: Reach, other: Reach) -> bool
    ensures { result ≡ is_better one other }
{
    one.weight < other.weight
        || (one.weight == other.weight
            && matches!((one.first, other.first), (Some(x), Some(y)) if x < y))
}

/// How an edge reaches its end.
fn over(reach: Reach, edge: Edge) -> Reach
    requires { reach.weight ≤ 65536 * 65535 }
    ensures { result ≡ over reach edge }
{
    Reach {
        weight: reach.weight + u32::from(edge.weight),
        first: Some(reach.first.unwrap_or(edge.to)),
    }
}

/// Follows an edge from a node that is reached so.
fn follow(reached: &mut [Option<Reach>], reach: Reach, edge: Edge)
    requires inside { edge.to < length reached.old }
    requires small { reach.weight ≤ 65536 * 65535 }
    ensures { reached.new ≡ followed reached.old reach edge }
{
    let at = edge.to as usize;
    let offer = over(reach, edge);
    let best = match reached[at] {
        Some(there) if !is_better(offer, there) => there,
        _ => offer,
    };
    reached[at] = Some(best);
}

/// Follows all edges from one node, where the edges are in the order of the nodes from which they lead.
fn follow_all(edges: &[Edge], node: u32, reach: Reach, reached: &mut [Option<Reach>])
    requires inside { AreEdges (length reached.old) edges.now }
    requires small { reach.weight ≤ 65536 * 65535 }
    requires rise { IsNonDecreasingBy from_of edges.now }
    ensures { reached.new ≡ followed_all node reach edges.now reached.old }
{
    let first = edges.partition_point(|edge| edge.from < node);
    for edge in &edges[first..] {
        if edge.from != node {
            break;
        }
        follow(reached, reach, *edge);
    }
}

/// The nearest of the nodes that are reached and not settled.
fn nearest(reached: &[Option<Reach>], settled: &[bool]) -> Option<(usize, Reach)>
    requires { length settled.now ≡ length reached.now }
    ensures found { IfSome result (λ n. IsOpen reached.now settled.now n.0 n.1) }
    ensures nearest { IfSome result (λ n. IsNearest reached.now settled.now (length reached.now) n.1.weight) }
    ensures none { IfNone result (AllSettled reached.now settled.now (length reached.now)) }
{
    let mut best: Option<(usize, Reach)> = None;
    for at in 0..reached.len() {
        if let (Some(reach), false) = (reached[at], settled[at]) {
            match best {
                Some((_, least)) if least.weight <= reach.weight => {}
                _ => best = Some((at, reach)),
            }
        }
    }
    best
}

/// Settles the nearest node, until none is left that is reached and not settled.
fn settle_all(edges: &[Edge], start: u32, reached: &mut [Option<Reach>], settled: &mut [bool])
    requires sound { AreEdges (length reached.old) edges.now }
    requires rise { IsNonDecreasingBy from_of edges.now }
    requires few { length reached.old ≤ 65536 }
    requires inside { start < length reached.old }
    requires marked { length settled.old ≡ length reached.old }
    requires none { (node : ℕ) → reach_at reached.old node ≡ None }
    requires free { (node : ℕ) → is_settled settled.old node ≡ false }
    ensures { IsTree edges.now start reached.new }
{
    reached[start as usize] = Some(Reach {
        weight: 0,
        first: None,
    });
    while let Some((at, reach)) = nearest(reached, settled) {
        settled[at] = true;
        follow_all(edges, at as u32, reach, reached);
    }
}

/// The edges in the order of the nodes from which they lead.
fn by_start(alloc: Global, edges: &[Edge]) -> Result<Vec<Edge>, AllocError>
    ensures same { IfOk result (λ v. IsPermutation edges.now v.items) }
    ensures rise { IfOk result (λ v. IsNonDecreasingBy from_of v.items) }
{
    let mut edges: Vec<Edge> = edges.iter().copied().collect(alloc)?;
    edges.sort_unstable_by_key(|edge| edge.from);
    Ok(edges)
}

/// The least walks from a node to all nodes.
pub fn least_hops(alloc: Global, graph: &Graph, start: u32) -> Result<Tree, Memory>
    requires { start < graph.now.0 }
    ensures tree { IfOk result (IsTree graph.now.1 start) }
    ensures nodes { IfOk result (λ t. length t ≡ graph.now.0) }
{
    let edges = by_start(alloc, graph.edges())?;
    let nodes = graph.nodes() as usize;
    let mut reached = vec![in alloc; None; nodes]?;
    let mut settled = vec![in alloc; false; nodes]?;
    settle_all(&edges, start, &mut reached, &mut settled);
    Ok(Tree::from_reached(reached))
}
