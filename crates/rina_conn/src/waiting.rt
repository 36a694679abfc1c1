//! Which SDUs wait to be passed.
ghost use Rattle.std.specs.Prelude.{◌≡◌, ◌≤◌, ◌*◌, [], Some, slice_get, IfOk};
ghost use Rattle.rina_conn.specs.Waiting.{with_whole, after_pass, begun};

use rina_base::Memory;
use std::alloc::Global;
use std::collections::VecDeque;
use std::marker::Model;

/// The SDUs of the present receiver state that are not passed, by the numbers with which they begin. Those of
/// earlier states that are not passed come before them, and are only counted.
#[derive(Drop)]
pub struct Waiting {
    /// How many numbers there is room for.
    room: u32,
    /// How many SDUs of earlier states are not passed.
    earlier: u32,
    firsts: VecDeque<u32>,
}

impl Model for Waiting {
    ghost use Rattle.std.specs.Prelude.{◌≤◌};
    ghost use Rattle.std.specs.VecDeque.{deque_capacity};
    ghost use Rattle.rina_conn.specs.Waiting.{Waits};

    ghost Value = { Waits };

    ghost view = { λ w. record { room = w.room; earlier = w.earlier; firsts = w.firsts.items } };

    ghost invariant = { λ w. w.room ≤ deque_capacity w.firsts };
}

impl Waiting {
    /// None waits. Takes all the memory that is ever needed for a window of 1 to 256: while fewer SDUs than it
    /// has numbers wait, one piece can make as many more whole.
    pub fn new(alloc: Global, window: u32) -> Result<Waiting, Memory>
        requires { window ≤ 256 }
        ensures { IfOk result (λ w. w ≡ record { room = 2 * window; earlier = 0; firsts = [] }) }
    {
        let room = 2 * window;
        Ok(Waiting {
            room,
            earlier: 0,
            firsts: VecDeque::with_capacity(alloc, room as usize)?,
        })
    }

    /// An SDU of the present state became whole, which begins with this number. Where there is no room for it,
    /// it is not noted.
    pub fn note(&mut self, first: u32)
        ensures { self.new ≡ with_whole (Some first) self.old }
    {
        if self.firsts.len() < self.room as usize {
            self.firsts.push_back_reserved(first);
        }
    }

    /// The first SDU of all that wait was passed.
    pub fn pass(&mut self)
        ensures { self.new ≡ after_pass self.old }
    {
        if self.earlier > 0 {
            self.earlier -= 1;
        } else {
            let _ = self.firsts.pop_front();
        }
    }

    /// A new state begins, while `unpassed` SDUs wait.
    pub fn begin(&mut self, unpassed: u32)
        ensures { self.new ≡ begun unpassed self.old }
    {
        self.earlier = unpassed;
        self.firsts.clear();
    }

    /// The number with which the first SDU begins that is of the present state; None exactly where none is.
    pub fn first(&self) -> Option<u32>
        ensures { result ≡ slice_get self.now.firsts 0 }
    {
        self.firsts.front().copied()
    }
}
