//! The pieces that a reliable receiver holds until the gap before them is filled.
ghost use Rattle.std.specs.Prelude.{◌≡◌, ◌≤◌, ◌<◌, ◌+◌, ◌-◌, ◌%◌, ◌^◌, length, All, IfOk, IfSome, IsTrue, ◌↔◌, true, false};
ghost use Rattle.rina_dtp.specs.Fetching.{HasSome, TakesFirst, FindsHeld};
ghost use Rattle.rina_dtp.specs.Receiving.{held_in};
ghost use Rattle.rina_dtp.specs.Shelf.{place_at, holds, with_piece, without, HasRoomOf, IsUnused};

use crate::place::Place;
use rina_base::Memory;
use std::alloc::Global;
use std::marker::Model;

/// The next number, and as many places as the window has numbers. A number has its own place, modulo how many
/// there are.
#[derive(Drop)]
pub struct Shelf {
    /// The number after all that were accepted, up to 2^32.
    next: u64,
    piece: u32,
    places: Vec<Place>,
    /// How many of the places are used.
    used: u64,
}

impl Model for Shelf {
    ghost use Rattle.std.specs.Prelude.{◌≡◌, ◌≤◌, ◌<◌, ◌^◌, length, All};
    ghost use Rattle.std.specs.List.{count_by};
    ghost use Rattle.rina_dtp.specs.Shelf.{Shelved, HasRoomOf, is_used};

    ghost Value = { Shelved };

    ghost view = { λ s. record { next = s.next; piece = s.piece; places = s.places.items } };

    ghost invariant = { λ s. (1 ≤ length s.places.items) × (s.next ≤ 2 ^ 32) × (length s.places.items ≤ 256) × All (HasRoomOf s.piece) s.places.items × (s.used ≡ count_by is_used s.places.items) };
}

/// Unused places for pieces of at most `piece` bytes.
fn make_places(alloc: Global, count: u32, piece: u32) -> Result<Vec<Place>, Memory>
    ensures count { IfOk result (λ v. length v.items ≡ count) }
    ensures room { IfOk result (λ v. All (HasRoomOf piece) v.items) }
    ensures unused { IfOk result (λ v. All IsUnused v.items) }
{
    let mut places = Vec::with_capacity(alloc, count as usize)?;
    for made in 0..count {
        if places.push(Place::new(alloc, piece)?).is_err() {
            return Err(Memory);
        }
    }
    Ok(places)
}

/// Copies of places.
fn copy_places(alloc: Global, places: &[Place]) -> Result<Vec<Place>, Memory>
    ensures { IfOk result (λ v. v.items ≡ places.now) }
{
    let mut copies = Vec::new(alloc);
    for place in places {
        if copies.push(place.copy(alloc)?).is_err() {
            return Err(Memory);
        }
    }
    Ok(copies)
}

/// Drops all pieces.
fn free_all(places: &mut Vec<Place>, piece: u32)
    requires { All (HasRoomOf piece) places.old.items }
    ensures count { length places.new.items ≡ length places.old.items }
    ensures room { All (HasRoomOf piece) places.new.items }
    ensures unused { All IsUnused places.new.items }
{
    for place in places.iter_mut() {
        place.free();
    }
}

impl Shelf {
    /// Nothing is held. Takes all the memory that is ever needed for `window` pieces, 1 to 256, of at most `piece` bytes.
    pub fn new(alloc: Global, window: u32, piece: u32) -> Result<Shelf, Memory>
        requires least { 1 ≤ window }
        requires most { window ≤ 256 }
        ensures count { IfOk result (λ s. length s.places ≡ window) }
        ensures piece { IfOk result (λ s. s.piece ≡ piece) }
        ensures next { IfOk result (λ s. s.next ≡ 0) }
        ensures unused { IfOk result (λ s. All IsUnused s.places) }
    {
        Ok(Shelf {
            next: 0,
            piece,
            places: make_places(alloc, window, piece)?,
            used: 0,
        })
    }

    /// A copy of its own.
    pub fn copy(&self, alloc: Global) -> Result<Shelf, Memory>
        ensures { IfOk result (λ s. s ≡ self.now) }
    {
        Ok(Shelf {
            next: self.next,
            piece: self.piece,
            places: copy_places(alloc, self.places.as_slice())?,
            used: self.used,
        })
    }

    /// The number after all that were accepted.
    pub fn next(&self) -> u64
        ensures next { result ≡ self.now.next }
        ensures within { result ≤ 2 ^ 32 }
    {
        self.next
    }

    /// How many places there are.
    pub fn window(&self) -> u64
        ensures window { result ≡ length self.now.places }
        ensures most { result ≤ 256 }
    {
        self.places.len() as u64
    }

    /// The place of a number.
    pub fn place(&self, number: u64) -> &Place
        ensures { result.now ≡ place_at self.now.places number }
    {
        &self.places[(number % self.places.len() as u64) as usize]
    }

    /// Whether the piece of a number is held.
    pub fn holds(&self, number: u64) -> bool
        ensures holds { result ≡ holds self.now.places number }
        ensures small { result ≡ true → number < 2 ^ 32 }
    {
        self.place(number).holds(number)
    }

    /// Whether a piece of a number has a place: it lies in the window, and is not too long.
    pub fn has_place(&self, number: u32, len: usize) -> bool
        ensures { IsTrue result ↔ (number < self.now.next + length self.now.places) × (len ≤ self.now.piece) }
    {
        u64::from(number) < self.next + self.window() && len <= self.piece as usize
    }

    /// Holds a piece.
    pub fn put(&mut self, number: u32, first: bool, last: bool, body: &[u8])
        requires { length body.now ≤ self.old.piece }
        ensures { self.new ≡ record self.old { places = with_piece number first last body.now self.old.places } }
    {
        let at = (u64::from(number) % self.places.len() as u64) as usize;
        if !self.places[at].is_used() {
            self.used += 1;
        }
        self.places[at].put(number, first, last, body);
    }

    /// Drops the piece of a number.
    pub fn free(&mut self, number: u64)
        ensures { self.new ≡ record self.old { places = without number self.old.places } }
    {
        let at = (number % self.places.len() as u64) as usize;
        if self.places[at].is_used() {
            self.used -= 1;
        }
        self.places[at].free();
    }

    /// Counts the next number as accepted.
    pub fn advance(&mut self)
        requires { self.old.next < 2 ^ 32 }
        ensures { self.new ≡ record self.old { next = self.old.next + 1 } }
    {
        self.next += 1;
    }

    /// Begins anew, with one number accepted and nothing held.
    pub fn restart(&mut self, number: u32)
        ensures next { self.new.next ≡ number + 1 }
        ensures piece { self.new.piece ≡ self.old.piece }
        ensures count { length self.new.places ≡ length self.old.places }
        ensures unused { All IsUnused self.new.places }
    {
        self.next = u64::from(number) + 1;
        free_all(&mut self.places, self.piece);
        self.used = 0;
    }

    /// The first number that is held.
    fn first_held(&self) -> Option<u64>
        ensures held { FindsHeld result self.now }
        ensures small { IfSome result (λ k. k < 2 ^ 32) }
        ensures some { 1 ≤ length self.now.places }
    {
        for number in self.next..self.next + self.window() {
            if self.holds(number) {
                return Some(number);
            }
        }
        None
    }

    /// Drops the first held piece, and answers its number; None exactly where none is held.
    pub fn next_held(&mut self) -> Option<u32>
        ensures taken { TakesFirst result (held_in self.old) (held_in self.new) }
        ensures next { self.new.next ≡ self.old.next }
        ensures piece { self.new.piece ≡ self.old.piece }
        ensures count { length self.new.places ≡ length self.old.places }
    {
        match self.first_held() {
            None => None,
            Some(number) => {
                self.free(number);
                Some(number as u32)
            }
        }
    }

    /// Whether any piece is held.
    pub fn holds_any(&self) -> bool
        ensures { HasSome (held_in self.now) result }
    {
        if self.used == 0 {
            return false;
        }
        self.first_held().is_some()
    }

    /// How many pieces are held.
    pub fn count(&self) -> u64
        ensures count { result ≡ length (held_in self.now) }
        ensures most { result ≤ 256 }
    {
        if self.used == 0 {
            return 0;
        }
        let next = self.next();
        let end = next + self.window();
        let mut count = 0;
        for number in next..end {
            if self.holds(number) {
                count += 1;
            }
        }
        count
    }
}
