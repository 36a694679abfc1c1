//! How each node is reached.
ghost use Rattle.std.specs.Prelude.{◌≡◌, ◌<◌, length};
ghost use Rattle.rina_graph.specs.Walks.{label_at, first_at};

use rina_base::Seq;
use std::marker::Model;

/// How a least walk reaches a node.
#[derive(Clone, Copy, Debug, PartialEq, Eq)]
pub struct Reach {
    /// The sum of its edges' weights.
    pub weight: u32,
    /// The node after the start, None where the walk ends at the start.
    pub first: Option<u32>,
}

/// The least walks from one node to all nodes of a graph. A contract sees, node by node, how a least
/// walk reaches it; None where no walk does.
#[derive(Drop)]
pub struct Tree {
    reached: Seq<Option<Reach>>,
}

impl Model for Tree {
    ghost use Rattle.std.specs.Prelude.{List, Option};
    ghost use Rattle.rina_graph.specs.declared.tree.Reach.{Reach};

    ghost Value = { List (Option Reach) };

    ghost view = { λ t. t.reached };
}

impl Tree {
    pub(crate) fn from_reached(reached: Vec<Option<Reach>>) -> Tree
        ensures { result ≡ reached.items }
    {
        Tree {
            reached: Seq::from_vec(reached),
        }
    }

    /// The weight of a least walk to a node; None exactly where no walk reaches it. Takes no memory.
    pub fn label(&self, node: u32) -> Option<u32>
        requires { node < length self.now }
        ensures { result ≡ label_at self.now node }
    {
        match self.reached.as_slice()[node as usize] {
            Some(reach) => Some(reach.weight),
            None => None,
        }
    }

    /// The smallest node that is the first of a least walk to a node; None at the start and where no
    /// walk reaches the node. Takes no memory.
    pub fn first_step(&self, node: u32) -> Option<u32>
        requires { node < length self.now }
        ensures { result ≡ first_at self.now node }
    {
        match self.reached.as_slice()[node as usize] {
            Some(reach) => reach.first,
            None => None,
        }
    }
}
