//! The verdict on a piece that arrived.
use rina_base::Cause;

/// What a receiver does with a piece that arrived.
#[derive(Clone, Copy, Debug, PartialEq, Eq)]
pub enum Verdict {
    /// It was accepted, and `whole` SDUs became whole with it.
    Accept { whole: u32 },
    /// It is held until the gap before it is filled.
    Hold,
    /// It is written off.
    Off(Cause),
}

/// The verdict of the sequence numbers alone.
#[derive(Clone, Copy, Debug, PartialEq, Eq)]
pub enum Judged {
    Accepted,
    Held,
    Duplicate,
    Behind,
    NoState,
    NoRoom,
}
