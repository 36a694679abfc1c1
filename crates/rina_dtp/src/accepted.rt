//! The numbers that a receiver accepted, by its kind.
ghost use Rattle.std.specs.Prelude.{◌≡◌, ◌≤◌, ◌<◌, ◌+◌, ◌-◌, ◌*◌, ◌^◌, ℕ, length, true, false, IfOk};
ghost use Rattle.rina_law.specs.Receiver.{absent_verdict};
ghost use Rattle.rina_dtp.specs.Accepted.{kind_of, known_verdict, number_verdict, judged_as, is_held, top_of, MayCount, IsCounted, IsGiven, FollowsOne, FollowsAll, Follows, HasSlotsFor, IsFresh};
ghost use Rattle.rina_cube.specs.Cubes.{IsCube};
ghost use Rattle.rina_dtp.specs.Fetching.{HasSome, TakesFirst, SameShape};
ghost use Rattle.rina_dtp.specs.Joins.{Grows};
ghost use Rattle.rina_dtp.specs.Receiving.{held_numbers};
ghost use Rattle.rina_dtp.specs.Observed.{next_kept};
ghost use Rattle.rina_dtp.specs.Shelf.{holds};

use crate::join::Join;
use crate::place::Place;
use crate::ring::Ring;
use crate::shelf::Shelf;
use crate::verdict::Judged;
use rina_base::Memory;
use rina_cube::{Cube, Kind};
use std::alloc::Global;

/// What a receiver remembers of the sequence numbers that it accepted.
#[derive(Drop)]
pub enum Accepted {
    /// The last 4,096 numbers, in any order.
    Datagram(Ring),
    /// The greatest number.
    Loose(u32),
    /// The next number, and the pieces that wait for a gap to be filled.
    Reliable(Shelf),
}

/// What a datagram receiver says of a number, where state stands.
fn judge_datagram(ring: &Ring, number: u32) -> Judged
    ensures { result ≡ judged_as (known_verdict (Accepted.Datagram ring.now) number) }
{
    if ring.is_behind(number) {
        Judged::Behind
    } else if ring.has(number) {
        Judged::Duplicate
    } else {
        Judged::Accepted
    }
}

/// What a loose receiver says of a number, where state stands.
fn judge_loose(highest: u32, number: u32) -> Judged
    ensures { result ≡ judged_as (known_verdict (Accepted.Loose highest) number) }
{
    if number > highest {
        Judged::Accepted
    } else {
        Judged::Behind
    }
}

/// What a reliable receiver says of a number, where state stands.
fn judge_reliable(shelf: &Shelf, number: u32) -> Judged
    ensures { result ≡ judged_as (known_verdict (Accepted.Reliable shelf.now) number) }
{
    let number = u64::from(number);
    if number < shelf.next() || shelf.holds(number) {
        Judged::Duplicate
    } else if number == shelf.next() {
        Judged::Accepted
    } else {
        Judged::Held
    }
}

/// Joins a held piece. One that can't be joined is given up.
fn join_held(place: &Place, join: &mut Join)
    requires slot { join.old.filled < join.old.slots }
    requires gap { length join.old.gaps + 1 < 2 * join.old.slots }
    ensures given { IsGiven place.now join.old join.new }
    ensures grows { Grows 2 join.old join.new }
{
    let number = place.number();
    let missing = join.join_piece(number, place.is_first(), place.is_last(), place.body());
    if let Some(missing) = missing {
        join.give_up_one(number, missing);
    }
}

/// Joins the held piece of the next number, where there is one, and answers whether there was.
fn join_next_held(shelf: &mut Shelf, join: &mut Join) -> bool
    requires slot { join.old.filled < join.old.slots }
    requires gap { length join.old.gaps + 1 < 2 * join.old.slots }
    ensures there { result ≡ holds shelf.old.places shelf.old.next }
    ensures follows { result ≡ true → FollowsOne shelf.old join.old shelf.new join.new }
    ensures none { result ≡ false → (shelf.new ≡ shelf.old) × (join.new ≡ join.old) }
    ensures grows { Grows 2 join.old join.new }
{
    let next = shelf.next();
    if !shelf.holds(next) {
        return false;
    }
    join_held(shelf.place(next), join);
    shelf.free(next);
    shelf.advance();
    true
}

/// Joins the held pieces that follow, one after the other.
fn join_all_following(shelf: &mut Shelf, join: &mut Join)
    requires filled { join.old.filled ≤ 1 }
    requires gaps { length join.old.gaps ≤ 1 }
    requires least { 1 ≤ length shelf.old.places }
    requires slots { length shelf.old.places ≤ join.old.slots }
    ensures follows { FollowsAll shelf.old join.old shelf.new join.new }
    ensures places { length shelf.new.places ≡ length shelf.old.places }
    ensures slots { join.new.slots ≡ join.old.slots }
{
    let others = shelf.window() - 1;
    for step in 0..others {
        if !join_next_held(shelf, join) {
            return;
        }
    }
}

impl Accepted {
    /// No number yet. Takes all the memory that is ever needed by a receiver of a cube, for pieces of at most `piece` bytes.
    pub fn new(alloc: Global, cube: &Cube, piece: u32) -> Result<Accepted, Memory>
        requires { IsCube cube.now }
        ensures { IfOk result (IsFresh cube.now piece) }
    {
        match cube.kind {
            Kind::Datagram => Ok(Accepted::Datagram(Ring::new(alloc)?)),
            Kind::Loose => Ok(Accepted::Loose(0)),
            Kind::Reliable => Ok(Accepted::Reliable(Shelf::new(alloc, cube.window, piece)?)),
        }
    }

    /// A copy of its own.
    pub fn copy(&self, alloc: Global) -> Result<Accepted, Memory>
        ensures { IfOk result (λ a. a ≡ self.now) }
    {
        match self {
            Accepted::Datagram(ring) => Ok(Accepted::Datagram(ring.copy(alloc)?)),
            Accepted::Loose(highest) => Ok(Accepted::Loose(*highest)),
            Accepted::Reliable(shelf) => Ok(Accepted::Reliable(shelf.copy(alloc)?)),
        }
    }

    /// The number after the greatest one that was accepted, up to 2^32.
    pub fn next(&self) -> u64
        ensures next { result ≡ next_kept self.now }
        ensures within { result ≤ 2 ^ 32 }
    {
        match self {
            Accepted::Datagram(ring) => u64::from(ring.top()) + 1,
            Accepted::Loose(highest) => u64::from(*highest) + 1,
            Accepted::Reliable(shelf) => shelf.next(),
        }
    }

    /// What the numbers say of a piece, where state stands.
    fn known_verdict(&self, number: u32) -> Judged
        ensures { result ≡ judged_as (known_verdict self.now number) }
    {
        match self {
            Accepted::Datagram(ring) => judge_datagram(ring, number),
            Accepted::Loose(highest) => judge_loose(*highest, number),
            Accepted::Reliable(shelf) => judge_reliable(shelf, number),
        }
    }

    /// The verdict on a piece where no state stands: a reliable flow begins with a piece that has the data run flag.
    fn absent_verdict(&self, drf: bool) -> Judged
        ensures { result ≡ judged_as (absent_verdict (kind_of self.now) drf) }
    {
        match self {
            Accepted::Reliable(_) if !drf => Judged::NoState,
            _ => Judged::Accepted,
        }
    }

    /// What the numbers say of a piece.
    pub fn verdict(&self, present: bool, number: u32, drf: bool) -> Judged
        ensures { result ≡ judged_as (number_verdict present self.now number drf) }
    {
        if present {
            self.known_verdict(number)
        } else {
            self.absent_verdict(drf)
        }
    }

    /// Whether the piece of a number is held.
    pub fn holds(&self, number: u64) -> bool
        ensures { result ≡ is_held self.now number }
    {
        match self {
            Accepted::Reliable(shelf) => shelf.holds(number),
            _ => false,
        }
    }

    /// The greatest number that was accepted.
    pub fn highest(&self) -> u32
        ensures { result ≡ top_of self.now }
    {
        match self {
            Accepted::Datagram(ring) => ring.top(),
            Accepted::Loose(highest) => *highest,
            Accepted::Reliable(shelf) => shelf.next().saturating_sub(1) as u32,
        }
    }

    /// Counts a number as accepted; where no state stood, as the only one.
    pub fn note_accepted(&mut self, present: bool, number: u32)
        requires { present ≡ true → MayCount self.old number }
        ensures counted { IsCounted present number self.old self.new }
        ensures sound { (slots : ℕ) → HasSlotsFor self.old slots → HasSlotsFor self.new slots }
    {
        match self {
            Accepted::Datagram(ring) if present => ring.add(number),
            Accepted::Datagram(ring) => ring.restart(number),
            Accepted::Loose(highest) => *highest = number,
            Accepted::Reliable(shelf) if present => shelf.advance(),
            Accepted::Reliable(shelf) => shelf.restart(number),
        }
    }

    /// Joins the held pieces that follow.
    pub fn join_following(&mut self, join: &mut Join)
        requires filled { join.old.filled ≤ 1 }
        requires gaps { length join.old.gaps ≤ 1 }
        requires slots { HasSlotsFor self.old join.old.slots }
        ensures follows { Follows self.old join.old self.new join.new }
        ensures slots { join.new.slots ≡ join.old.slots }
        ensures sound { HasSlotsFor self.new join.new.slots }
    {
        match self {
            Accepted::Reliable(shelf) => join_all_following(shelf, join),
            _ => {}
        }
    }

    /// Drops the first held piece, and answers its number; None exactly where none is held.
    pub fn next_held(&mut self) -> Option<u32>
        ensures taken { TakesFirst result (held_numbers self.old) (held_numbers self.new) }
        ensures shape { SameShape self.old self.new }
    {
        match self {
            Accepted::Reliable(shelf) => shelf.next_held(),
            _ => None,
        }
    }

    /// Whether any piece is held.
    pub fn holds_any(&self) -> bool
        ensures { HasSome (held_numbers self.now) result }
    {
        match self {
            Accepted::Reliable(shelf) => shelf.holds_any(),
            _ => false,
        }
    }

    /// How many pieces are held.
    pub fn held_count(&self) -> u64
        ensures count { result ≡ length (held_numbers self.now) }
        ensures most { result ≤ 256 }
    {
        match self {
            Accepted::Reliable(shelf) => shelf.count(),
            _ => 0,
        }
    }
}
