//! The window that a receiver gives.
ghost use Rattle.std.specs.Prelude.{◌≡◌, ◌+◌, ◌-◌, min};

use std::marker::Model;

/// The window of a cube: how many numbers may be sent from the first open one on. A contract sees it as a
/// number.
#[derive(Drop)]
pub struct Credit {
    window: u32,
}

impl Model for Credit {
    ghost use Rattle.std.specs.Prelude.{ℕ};

    ghost Value = { ℕ };

    ghost view = { λ c. c.window };
}

impl Credit {
    /// A window of this many numbers.
    pub fn new(window: u32) -> Credit
        ensures { result ≡ window }
    {
        Credit { window }
    }

    /// The greatest number that may be sent, where `u` is the first that the application has still to take:
    /// a window from it on, but none above `max`. Takes no memory.
    pub fn right(&self, u: u64, max: u32) -> u32
        ensures { result ≡ min (u + self.now - 1) max }
    {
        let window = self.window as u64;
        let past = u.saturating_add(window);
        past.saturating_sub(1).min(max as u64) as u32
    }
}
