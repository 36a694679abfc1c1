//! What the events of a wire refuse.
use rina_base::Tick;

/// Why a frame was not disturbed, or a wire not cut or mended. The variants stand in the order in
/// which they are tried.
#[derive(Clone, Copy, Debug, PartialEq, Eq)]
pub enum WireError {
    /// Memory was not found.
    Memory,
    /// There is no such wire.
    NoWire,
    /// No copy of frame `k` is in flight.
    NoFrame { k: u64 },
    /// The tick has come already: it is `now`.
    EarlyHold { now: Tick },
    /// The frame's life ends at `last`.
    LateHold { last: Tick },
}
