//! Joining pieces to SDUs.
ghost use Rattle.std.specs.Prelude.{◌≡◌, ◌≤◌, ◌+◌, ◌++◌, ◌↔◌, IsTrue, length, IfOk, None, Some};
ghost use Rattle.rina_delim.specs.Joining.{piece, HasRoom, missing_after, answer_for, from_of, held_after, answer, joined, empty};

use crate::memory::Memory;
use std::alloc::Global;
use std::marker::Model;

/// What a joiner makes of a piece.
#[derive(Clone, Copy, Debug, PartialEq, Eq)]
pub enum Joined {
    /// The piece is held; its SDU has more of them.
    More,
    /// The piece ends its SDU, and all the others are there.
    Whole,
    /// The SDU of the piece can't be joined: the piece of number `missing` did not come before it.
    Broken { missing: u32 },
}

/// The pieces that wait for the rest of their SDU, by the numbers of the first and the last of them.
#[derive(Clone, Copy, Debug, PartialEq, Eq)]
pub struct Run {
    pub from: u32,
    pub last: u32,
}

/// Joins the pieces of SDUs of at most `largest` bytes. A contract sees the pieces that it holds,
/// and the bytes of the pieces since the last `first` one.
#[derive(Drop)]
pub struct Joiner {
    largest: u32,
    held: Option<Run>,
    bytes: Vec<u8>,
}

impl Model for Joiner {
    ghost use Rattle.std.specs.Prelude.{◌≤◌, length};
    ghost use Rattle.std.specs.Vec.{vec_capacity};
    ghost use Rattle.rina_delim.specs.Joining.{Joining};

    ghost Value = { Joining };

    ghost view = { λ j. record { largest = j.largest; held = j.held; bytes = j.bytes.items } };

    ghost invariant = { λ j. (j.largest ≤ vec_capacity j.bytes) × (length j.bytes.items ≤ j.largest) };
}

/// The number that is missing before a piece of number `seq` that is not `first`.
#[tactic(auto, unfolding(crate::specs::Joining::missing_after))]
fn missing_between(held: Option<Run>, seq: u32) -> Option<u32>
    ensures { result ≡ missing_after held seq }
{
    match held {
        None => Some(seq.wrapping_sub(1)),
        Some(run) => {
            let next = run.last.wrapping_add(1);
            if seq == next { None } else { Some(next) }
        }
    }
}

impl Joiner {
    /// A joiner that holds nothing, with room for an SDU of `largest` bytes.
    pub fn new(alloc: Global, largest: u32) -> Result<Joiner, Memory>
        ensures { IfOk result (λ j. j ≡ empty largest) }
    {
        let bytes = Vec::with_capacity(alloc, largest as usize)?;
        Ok(Joiner {
            largest,
            held: None,
            bytes,
        })
    }

    /// Forgets all that it holds.
    pub fn reset(&mut self)
        ensures { self.new ≡ empty self.old.largest }
    {
        self.held = None;
        self.bytes.clear();
    }

    /// After `More` or `Whole`: the bytes of the pieces since the last `first` one. After `Broken` or `reset`: none.
    pub fn whole(&self) -> &[u8]
        ensures bytes { result.now ≡ self.now.bytes }
        ensures within { length self.now.bytes ≤ self.now.largest }
    {
        self.bytes.as_slice()
    }

    /// The pieces that wait for the rest of their SDU. None where nothing is being joined, as after `Whole`.
    pub fn held(&self) -> Option<Run>
        ensures { result ≡ self.now.held }
    {
        self.held
    }

    /// Whether there is room for a piece of `len` bytes, as `push` wants it. A piece that is `Broken` needs none.
    pub fn has_room(&self, seq: u32, first: bool, len: usize) -> bool
        ensures { IsTrue result ↔ HasRoom self.now seq first len }
    {
        let largest = self.largest as usize;
        if first {
            len <= largest
        } else {
            missing_between(self.held, seq).is_some() || len <= largest - self.bytes.len()
        }
    }

    /// Adds bytes; takes no memory.
    fn extend(&mut self, body: &[u8])
        requires { length self.old.bytes + length body.now ≤ self.old.largest }
        ensures { self.new ≡ record self.old { bytes = self.old.bytes ++ body.now } }
    {
        match self.bytes.extend_from_slice(body) {
            Ok(()) => {}
            Err(_) => unreachable!(),
        }
    }

    /// Holds the piece of number `seq`, whose bytes were added.
    fn hold(&mut self, seq: u32, last: bool) -> Joined
        ensures answer { result ≡ answer_for None last }
        ensures held { self.new ≡ record self.old { held = held_after (from_of self.old.held seq) seq last } }
    {
        if last {
            self.held = None;
            return Joined::Whole;
        }
        let from = match self.held {
            None => seq,
            Some(run) => run.from,
        };
        self.held = Some(Run { from, last: seq });
        Joined::More
    }

    /// Joins the piece of number `seq` to those that are held. A `first` piece begins anew. Any other
    /// piece has to follow the last one that is held; else it is `Broken`, and nothing is held any more.
    #[tactic(auto, unfolding(crate::specs::Joining::answer, crate::specs::Joining::joined))]
    pub fn push(&mut self, seq: u32, first: bool, last: bool, body: &[u8]) -> Joined
        requires { HasRoom self.old seq first (length body.now) }
        ensures answer { result ≡ answer self.old (piece seq first last body.now) }
        ensures held { self.new ≡ joined self.old (piece seq first last body.now) }
        ensures largest { self.new.largest ≡ self.old.largest }
    {
        if first {
            self.reset();
        } else if let Some(missing) = missing_between(self.held, seq) {
            self.reset();
            return Joined::Broken { missing };
        }
        self.extend(body);
        self.hold(seq, last)
    }
}
