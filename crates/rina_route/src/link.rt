//! Own links.

use rina_base::Addr;

/// A link of this system that is up.
#[derive(Clone, Copy, Debug, PartialEq, Eq)]
pub struct Link {
    pub number: u16,
    /// The address of the neighbour at its other end.
    pub peer: Addr,
    /// 1 to 65,535.
    pub weight: u16,
}
