//! Pieces that were given up because their SDU is broken.

/// The pieces from one number to another, and the number that is missing behind them.
#[derive(Clone, Copy, Debug, PartialEq, Eq)]
pub struct Gap {
    pub from: u32,
    pub last: u32,
    pub missing: u32,
}

/// A piece that was given up, and the number that is missing before it or behind it.
#[derive(Clone, Copy, Debug, PartialEq, Eq)]
pub struct Lost {
    pub number: u32,
    pub missing: u32,
}
