//! A place for one piece that is held.
ghost use Rattle.std.specs.Prelude.{◌≡◌, ◌≤◌, ◌<◌, ◌^◌, ◌==◌, ◌&&◌, true, false, length, IfOk};
ghost use Rattle.rina_dtp.specs.Shelf.{is_used};

use rina_base::Memory;
use std::alloc::Global;
use std::marker::Model;

/// A place for a piece. The room for its body stays.
#[derive(Drop)]
pub struct Place {
    room: u32,
    used: bool,
    number: u32,
    first: bool,
    last: bool,
    body: Vec<u8>,
}

impl Model for Place {
    ghost use Rattle.std.specs.Prelude.{◌≤◌, length};
    ghost use Rattle.std.specs.Vec.{vec_capacity};
    ghost use Rattle.rina_dtp.specs.Shelf as shelf;

    ghost Value = { shelf.Place };

    ghost view = { λ p. record { room = p.room; used = p.used; number = p.number; first = p.first; last = p.last; body = p.body.items } };

    ghost invariant = { λ p. p.room ≤ vec_capacity p.body };
}

impl Place {
    /// An unused place with room for a body of `room` bytes.
    pub fn new(alloc: Global, room: u32) -> Result<Place, Memory>
        ensures room { IfOk result (λ p. p.room ≡ room) }
        ensures unused { IfOk result (λ p. p.used ≡ false) }
    {
        Ok(Place {
            room,
            used: false,
            number: 0,
            first: false,
            last: false,
            body: Vec::with_capacity(alloc, room as usize)?,
        })
    }

    /// A copy of its own.
    pub fn copy(&self, alloc: Global) -> Result<Place, Memory>
        ensures { IfOk result (λ p. p ≡ self.now) }
    {
        let mut body = Vec::with_capacity(alloc, self.room as usize)?;
        body.extend_from_slice(self.body.as_slice())?;
        Ok(Place {
            room: self.room,
            used: self.used,
            number: self.number,
            first: self.first,
            last: self.last,
            body,
        })
    }

    /// Holds a piece. Takes no memory.
    pub fn put(&mut self, number: u32, first: bool, last: bool, body: &[u8])
        requires { length body.now ≤ self.old.room }
        ensures { self.new ≡ record { room = self.old.room; used = true; number = number; first = first; last = last; body = body.now } }
    {
        self.used = true;
        self.number = number;
        self.first = first;
        self.last = last;
        self.body.clear();
        match self.body.extend_from_slice(body) {
            Ok(()) => {}
            Err(_) => unreachable!(),
        }
    }

    /// Drops the piece; the room for its body stays.
    pub fn free(&mut self)
        ensures { self.new ≡ record self.old { used = false } }
    {
        self.used = false;
    }

    /// Whether it holds a piece.
    pub fn is_used(&self) -> bool
        ensures { result ≡ is_used self.now }
    {
        self.used
    }

    /// Whether it holds the piece of a number.
    pub fn holds(&self, number: u64) -> bool
        ensures holds { result ≡ (self.now.used && (self.now.number == number)) }
        ensures small { result ≡ true → number < 2 ^ 32 }
    {
        self.used && u64::from(self.number) == number
    }

    /// The number of the piece.
    pub fn number(&self) -> u32
        ensures { result ≡ self.now.number }
    {
        self.number
    }

    /// Whether the piece begins its SDU.
    pub fn is_first(&self) -> bool
        ensures { result ≡ self.now.first }
    {
        self.first
    }

    /// Whether the piece ends its SDU.
    pub fn is_last(&self) -> bool
        ensures { result ≡ self.now.last }
    {
        self.last
    }

    /// The bytes of the piece.
    pub fn body(&self) -> &[u8]
        ensures { result.now ≡ self.now.body }
    {
        self.body.as_slice()
    }
}
