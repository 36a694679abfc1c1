//! One tick.

/// Why the clock did not go on.
#[derive(Clone, Copy, Debug, PartialEq, Eq)]
pub enum TickError {
    /// Memory was not found.
    Memory,
    /// The clock stands at 10,000,000.
    ClockSpent,
}
