//! Least walks from one node of a graph to all others.
#![tactic(auto)]

mod graph;
mod search;
mod tree;

pub use graph::{Edge, Graph};
pub use search::least_hops;
pub use tree::{Reach, Tree};
