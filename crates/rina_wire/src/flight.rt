//! Copies of frames in flight.
use rina_base::{Bytes, Tick};

/// A copy of a frame in flight.
#[derive(Drop)]
pub struct Flight {
    /// The place of the end that it goes to, in the wire's journal.
    pub to: usize,
    /// The number of the frame.
    pub frame: u64,
    /// When the frame was sent.
    pub sent: Tick,
    /// When the copy arrives.
    pub due: Tick,
    pub bytes: Bytes,
}
