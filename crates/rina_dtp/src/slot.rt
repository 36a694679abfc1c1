//! Room for one whole SDU.
ghost use Rattle.std.specs.Prelude.{◌≡◌, ◌≤◌, ◌-◌, ◌+◌, ◌^◌, min, length, IfOk};

use rina_base::Memory;
use std::alloc::Global;
use std::marker::Model;

/// An SDU that waits to be fetched, by its first and last number. The room for its bytes stays.
#[derive(Drop)]
pub struct Slot {
    room: u32,
    from: u32,
    last: u32,
    bytes: Vec<u8>,
}

impl Model for Slot {
    ghost use Rattle.std.specs.Prelude.{◌≤◌, length};
    ghost use Rattle.std.specs.Vec.{vec_capacity};
    ghost use Rattle.rina_dtp.specs.Slots.{Waiting};

    ghost Value = { Waiting };

    ghost view = { λ s. record { room = s.room; from = s.from; last = s.last; bytes = s.bytes.items } };

    ghost invariant = { λ s. s.room ≤ vec_capacity s.bytes };
}

impl Slot {
    /// Room for an SDU of `room` bytes.
    pub fn new(alloc: Global, room: u32) -> Result<Slot, Memory>
        ensures { IfOk result (λ s. s.room ≡ room) }
    {
        Ok(Slot {
            room,
            from: 0,
            last: 0,
            bytes: Vec::with_capacity(alloc, room as usize)?,
        })
    }

    /// Keeps an SDU. Takes no memory.
    pub fn fill(&mut self, from: u32, last: u32, bytes: &[u8])
        requires { length bytes.now ≤ self.old.room }
        ensures { self.new ≡ record { room = self.old.room; from = from; last = last; bytes = bytes.now } }
    {
        self.from = from;
        self.last = last;
        self.bytes.clear();
        match self.bytes.extend_from_slice(bytes) {
            Ok(()) => {}
            Err(_) => unreachable!(),
        }
    }

    /// The number of its first piece.
    pub fn first(&self) -> u32
        ensures { result ≡ self.now.from }
    {
        self.from
    }

    /// How many pieces it has, 2^32 counted as one less.
    pub fn pieces(&self) -> u32
        ensures { result ≡ min (self.now.last - self.now.from + 1) (2 ^ 32 - 1) }
    {
        self.last.saturating_sub(self.from).saturating_add(1)
    }

    /// Its bytes.
    pub fn bytes(&self) -> &[u8]
        ensures { result.now ≡ self.now.bytes }
    {
        self.bytes.as_slice()
    }
}
