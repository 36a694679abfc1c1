//! Storms on wires.

/// How a wire loses, repeats and delays frames by chance.
#[derive(Clone, Copy, Debug, PartialEq, Eq, Drop)]
pub struct Storm {
    /// Where its random numbers begin, 0 to 2^53 - 1.
    pub seed: u64,
    /// How many of 1,000 frames it loses.
    pub lose: u32,
    /// How many of 1,000 frames that are not lost it repeats.
    pub repeat: u32,
    /// By how many ticks it delays a frame or a copy at most, 0 to 100,000.
    pub spread: u32,
}
