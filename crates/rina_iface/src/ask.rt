//! What an application asks of a facility, and what it is lent.
use rina_base::{AppName, Node, Tick};
use rina_cube::Want;

/// An ask for a flow, made at `node` in facility `fac` of its rank.
#[derive(Drop)]
pub struct Ask {
    pub fac: u16,
    pub node: Node,
    /// The application that asks.
    pub app: AppName,
    /// The application that is asked.
    pub to: AppName,
    pub want: Want,
}

/// A flow that a stack fixes: both its ends, and the cube.
#[derive(Drop)]
pub struct Fixed {
    pub fac: u16,
    pub cube: u8,
    pub a: Node,
    pub a_app: AppName,
    pub b: Node,
    pub b_app: AppName,
}

/// An application that is registered at a node.
#[derive(Drop)]
pub struct Registered {
    pub node: Node,
    pub app: AppName,
}

/// An SDU that was delivered at tick `at`, lent to be read.
#[derive(Clone, Copy)]
pub struct Lent<'a> {
    pub at: Tick,
    pub bytes: &'a [u8],
}
