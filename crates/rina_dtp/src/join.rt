//! Joining the pieces that were accepted, and the SDUs that wait to be fetched.
ghost use Rattle.std.specs.Prelude.{◌≡◌, ◌≤◌, ◌<◌, ◌+◌, ◌-◌, ◌*◌, ◌^◌, ◌++◌, [], ◌∷◌, length, map, IfOk, Some, None, Option, All, true, false, IsTrue, ◌↔◌};
ghost use Rattle.std.specs.Vec.{vec_capacity};
ghost use Rattle.rina_delim.specs.Joining.{piece, empty, answer, joined, held_after, HasRoom};
ghost use Rattle.rina_dtp.specs.Slots.{Waiting};
ghost use Rattle.rina_dtp.specs.Fetching.{first_lost, after_lost};
ghost use Rattle.rina_dtp.specs.Joins.{gap_if, start_of, taken, missing_in, IsJoined, Grows, HasRoomOf, IsForward, cleared, bytes_of, first_number};

use crate::gap::{Gap, Lost};
use crate::sdu::{Bodies, Sdu};
use crate::slot::Slot;
use rina_base::{Bytes, Memory, Seq};
use rina_delim::{Joined, Joiner, Run};
use std::alloc::Global;
use std::marker::Model;

/// The pieces of the SDU that is being joined, and the outcome of earlier ones: whole SDUs, in slots that are
/// filled one after the other, and gaps.
#[derive(Drop)]
pub struct Join {
    /// The largest SDU, in bytes.
    largest: u32,
    joiner: Joiner,
    slots: Vec<Slot>,
    /// How many slots are filled, and how many of these were fetched.
    filled: usize,
    fetched: usize,
    gaps: Vec<Gap>,
}

impl Model for Join {
    ghost use Rattle.std.specs.Prelude.{◌≡◌, ◌≤◌, ◌*◌, length, All};
    ghost use Rattle.std.specs.Vec.{vec_capacity};
    ghost use Rattle.rina_dtp.specs.Joins.{Joins, sdus_in, HasRoomOf};

    ghost Value = { Joins };

    ghost view = { λ j. record { joining = j.joiner; whole = sdus_in j.fetched j.filled j.slots.items; gaps = j.gaps.items; filled = j.filled; slots = length j.slots.items } };

    ghost invariant = { λ j. (j.largest ≡ j.joiner.largest) × (j.filled ≤ length j.slots.items) × (j.fetched ≤ j.filled) × (2 * length j.slots.items ≤ vec_capacity j.gaps) × All (HasRoomOf j.joiner.largest) j.slots.items };
}

/// Empty slots for SDUs of at most `largest` bytes.
fn make_slots(alloc: Global, count: u32, largest: u32) -> Result<Vec<Slot>, Memory>
    ensures count { IfOk result (λ v. length v.items ≡ count) }
    ensures room { IfOk result (λ v. All (HasRoomOf largest) v.items) }
{
    let mut slots = Vec::with_capacity(alloc, count as usize)?;
    for made in 0..count {
        if slots.push(Slot::new(alloc, largest)?).is_err() {
            return Err(Memory);
        }
    }
    Ok(slots)
}

/// Gives up the pieces that wait, where they are cut off. Takes no memory.
fn give_up(gaps: &mut Vec<Gap>, held: Option<Run>, cut_off: bool)
    requires { length gaps.old.items < vec_capacity gaps.old }
    ensures items { gaps.new.items ≡ gaps.old.items ++ gap_if cut_off held }
    ensures capacity { vec_capacity gaps.old ≤ vec_capacity gaps.new }
{
    if !cut_off {
        return;
    }
    if let Some(run) = held {
        let gap = Gap {
            from: run.from,
            last: run.last,
            missing: run.last.wrapping_add(1),
        };
        match gaps.push(gap) {
            Ok(()) => {}
            Err(_) => unreachable!(),
        }
    }
}

/// Takes the first piece that was given up.
fn take_lost(gaps: &mut Vec<Gap>) -> Option<Lost>
    ensures lost { result ≡ first_lost gaps.old.items }
    ensures rest { gaps.new.items ≡ after_lost gaps.old.items }
    ensures capacity { vec_capacity gaps.new ≡ vec_capacity gaps.old }
{
    let gap = gaps.first().copied()?;
    if gap.from < gap.last {
        gaps[0].from = gap.from + 1;
    } else {
        gaps.remove(0);
    }
    Some(Lost {
        number: gap.from,
        missing: gap.missing,
    })
}

/// The number of the first piece of an SDU.
fn sdu_start(first: bool, held: Option<Run>, number: u32) -> u32
    ensures { result ≡ start_of first held number }
{
    match held {
        Some(run) if !first => run.from,
        _ => number,
    }
}

/// Copies of the SDUs in slots.
fn bodies_of(alloc: Global, slots: &[Slot]) -> Result<Bodies, Memory>
    ensures { IfOk result (λ b. b ≡ map (λ (w : Waiting). w.bytes) slots.now) }
{
    let mut bodies = Seq::new(alloc);
    for slot in slots {
        bodies.push(Bytes::copy_of(alloc, slot.bytes())?)?;
    }
    Ok(bodies)
}

/// Goes on with an empty piece.
#[tactic(auto, using(crate::proofs::Copied::goes_on_empty, crate::proofs::Copied::has_room_empty))]
fn push_empty(joiner: &mut Joiner, run: Run)
    requires next { run.last + 1 < 2 ^ 32 }
    requires held { joiner.old.held ≡ Some run }
    requires within { length joiner.old.bytes ≤ joiner.old.largest }
    ensures { joiner.new ≡ record joiner.old { held = Some (record { from = run.from; last = run.last + 1 }) } }
{
    joiner.push(run.last + 1, false, false, &[]);
}

/// Goes on with empty pieces up to the last one of a run.
fn push_empty_up_to(joiner: &mut Joiner, run: Run)
    requires held { joiner.old.held ≡ Some (record { from = run.from; last = run.from }) }
    requires within { length joiner.old.bytes ≤ joiner.old.largest }
    ensures held { run.from ≤ run.last → joiner.new ≡ record joiner.old { held = Some run } }
    ensures largest { joiner.new.largest ≡ joiner.old.largest }
{
    for number in run.from..run.last {
        push_empty(
            joiner,
            Run {
                from: run.from,
                last: number,
            },
        );
    }
}

/// Joins one piece that begins an SDU to nothing.
#[tactic(auto, using(crate::proofs::Copied::begun_alone))]
fn push_first(joiner: &mut Joiner, number: u32, last: bool, bytes: &[u8])
    requires empty { joiner.old ≡ empty joiner.old.largest }
    requires within { length bytes.now ≤ joiner.old.largest }
    ensures { joiner.new ≡ record { largest = joiner.old.largest; held = held_after number number last; bytes = bytes.now } }
{
    joiner.push(number, true, last, bytes);
}

/// A joiner that holds the same.
fn copy_joiner(alloc: Global, joiner: &Joiner, largest: u32) -> Result<Joiner, Memory>
    requires { largest ≡ joiner.now.largest }
    ensures same { IfOk result (λ copy. IsForward joiner.now.held → copy ≡ joiner.now) }
    ensures largest { IfOk result (λ copy. copy.largest ≡ largest) }
{
    let mut copy = match Joiner::new(alloc, largest) {
        Ok(copy) => copy,
        Err(_) => return Err(Memory),
    };
    match joiner.held() {
        None => {
            push_first(&mut copy, 0, true, joiner.whole());
        }
        Some(run) => {
            push_first(&mut copy, run.from, false, joiner.whole());
            push_empty_up_to(&mut copy, run);
        }
    }
    Ok(copy)
}

impl Join {
    ghost use Rattle.std.specs.Borrow.{sem};
    ghost use Rattle.rina_dtp.specs.Lending.{IsFirst, LendsOfJoin};

    /// Nothing yet, with slots for `slots` SDUs of at most `largest` bytes. Takes all the memory that is ever needed.
    pub fn new(alloc: Global, slots: u32, largest: u32) -> Result<Join, Memory>
        requires { slots ≤ 256 }
        ensures { IfOk result (λ j. j ≡ record { joining = empty largest; whole = []; gaps = []; filled = 0; slots = slots }) }
    {
        let joiner = match Joiner::new(alloc, largest) {
            Ok(joiner) => joiner,
            Err(_) => return Err(Memory),
        };
        let gaps = Vec::with_capacity(alloc, 2 * slots as usize)?;
        Ok(Join {
            largest,
            joiner,
            slots: make_slots(alloc, slots, largest)?,
            filled: 0,
            fetched: 0,
            gaps,
        })
    }

    /// A copy of its own, but for what was not fetched.
    pub fn copy(&self, alloc: Global) -> Result<Join, Memory>
        requires { self.now.slots ≤ 256 }
        ensures same { IfOk result (λ j. IsForward self.now.joining.held → j ≡ cleared self.now) }
        ensures slots { IfOk result (λ j. j.slots ≡ self.now.slots) }
    {
        let joiner = copy_joiner(alloc, &self.joiner, self.largest)?;
        let count = self.slots.len() as u32;
        let gaps = Vec::with_capacity(alloc, 2 * count as usize)?;
        Ok(Join {
            largest: self.largest,
            joiner,
            slots: make_slots(alloc, count, self.largest)?,
            filled: 0,
            fetched: 0,
            gaps,
        })
    }

    /// Forgets what was not fetched.
    pub fn clear(&mut self)
        ensures { self.new ≡ cleared self.old }
    {
        self.filled = 0;
        self.fetched = 0;
        self.gaps.clear();
    }

    /// Drops the pieces that wait.
    pub fn reset(&mut self)
        ensures { self.new ≡ record self.old { joining = empty self.old.joining.largest } }
    {
        self.joiner.reset();
    }

    /// Keeps the SDU that was made whole, in the next slot.
    fn keep_whole(&mut self, from: u32, last: u32)
        requires { self.old.filled < self.old.slots }
        ensures { self.new ≡ record self.old { whole = self.old.whole ++ record { first = from; pieces = last - from + 1; bytes = self.old.joining.bytes } ∷ []; filled = self.old.filled + 1 } }
    {
        self.slots[self.filled].fill(from, last, self.joiner.whole());
        self.filled += 1;
    }

    /// Whether there is room for the bytes of a piece.
    fn has_room(&self, number: u32, first: bool, len: usize) -> bool
        ensures { IsTrue result ↔ HasRoom self.now.joining number first len }
    {
        self.joiner.has_room(number, first, len)
    }

    /// Gives up the pieces that wait, since a piece does not fit: no lawful sender makes such a piece.
    fn overflow(&mut self)
        requires { length self.old.gaps < 2 * self.old.slots }
        ensures { Grows 1 self.old self.new }
    {
        give_up(&mut self.gaps, self.joiner.held(), true);
        self.joiner.reset();
    }

    /// Joins a piece for which there is room.
    fn push_piece(&mut self, number: u32, first: bool, last: bool, body: &[u8]) -> Option<u32>
        requires room { HasRoom self.old.joining number first (length body.now) }
        requires slot { self.old.filled < self.old.slots }
        requires gap { length self.old.gaps < 2 * self.old.slots }
        ensures missing { result ≡ missing_in (answer self.old.joining (piece number first last body.now)) }
        ensures taken { self.new ≡ taken (piece number first last body.now) self.old }
    {
        let held = self.joiner.held();
        match self.joiner.push(number, first, last, body) {
            Joined::More => {
                give_up(&mut self.gaps, held, first);
                None
            }
            Joined::Whole => {
                give_up(&mut self.gaps, held, first);
                self.keep_whole(sdu_start(first, held, number), number);
                None
            }
            Joined::Broken { missing } => {
                give_up(&mut self.gaps, held, true);
                Some(missing)
            }
        }
    }

    /// Joins an accepted piece to those that wait, and answers the number that is missing where its SDU
    /// can't be joined. Takes no memory. A piece for which there is no room breaks its SDU.
    pub fn join_piece(&mut self, number: u32, first: bool, last: bool, body: &[u8]) -> Option<u32>
        requires slot { self.old.filled < self.old.slots }
        requires gap { length self.old.gaps < 2 * self.old.slots }
        ensures joined { IsJoined (piece number first last body.now) self.old result self.new }
        ensures grows { Grows 1 self.old self.new }
    {
        if self.has_room(number, first, body.len()) {
            self.push_piece(number, first, last, body)
        } else {
            self.overflow();
            Some(number)
        }
    }

    /// Gives up a piece that was held and can't be joined.
    pub fn give_up_one(&mut self, number: u32, missing: u32)
        requires { length self.old.gaps < 2 * self.old.slots }
        ensures { self.new ≡ record self.old { gaps = self.old.gaps ++ record { from = number; last = number; missing = missing } ∷ [] } }
    {
        let gap = Gap {
            from: number,
            last: number,
            missing,
        };
        match self.gaps.push(gap) {
            Ok(()) => {}
            Err(_) => unreachable!(),
        }
    }

    /// How many SDUs wait to be fetched.
    pub fn count(&self) -> u32
        requires { self.now.slots ≤ 256 }
        ensures { result ≡ length self.now.whole }
    {
        (self.filled - self.fetched) as u32
    }

    /// The pieces that wait for the rest of their SDU.
    pub fn held(&self) -> Option<Run>
        ensures { result ≡ self.now.joining.held }
    {
        self.joiner.held()
    }

    /// Copies of the SDUs that wait to be fetched.
    #[tactic(auto, using(crate::proofs::Ahead::bytes_in))]
    pub fn bodies(&self, alloc: Global) -> Result<Bodies, Memory>
        ensures { IfOk result (λ b. b ≡ bytes_of self.now.whole) }
    {
        bodies_of(alloc, &self.slots[self.fetched..self.filled])
    }

    /// Whether a piece was given up that `next_lost` did not give yet.
    pub fn has_lost(&self) -> bool
        ensures { IsTrue result ↔ 1 ≤ length self.now.gaps }
    {
        !self.gaps.is_empty()
    }

    /// The next piece that was given up; None exactly where there is none.
    pub fn next_lost(&mut self) -> Option<Lost>
        ensures lost { result ≡ first_lost self.old.gaps }
        ensures rest { self.new ≡ record self.old { gaps = after_lost self.old.gaps } }
    {
        take_lost(&mut self.gaps)
    }

    /// The number of the first piece of the next SDU that waits to be fetched; None exactly where none does.
    pub fn next_first(&self) -> Option<u32>
        ensures { result ≡ first_number self.now.whole }
    {
        if self.fetched >= self.filled {
            return None;
        }
        Some(self.slots[self.fetched].first())
    }

    /// The next SDU that waits to be fetched; None exactly where none does.
    pub fn next_whole(&mut self) -> Option<Sdu<'_>>
        ensures* rest { sem 𝓛 (LendsOfJoin self.entry) }
        ensures first { IsFirst result self.old.whole }
    {
        if self.fetched >= self.filled {
            return None;
        }
        let at = self.fetched;
        self.fetched += 1;
        let slot = &self.slots[at];
        Some(Sdu {
            first: slot.first(),
            pieces: slot.pieces(),
            bytes: slot.bytes(),
        })
    }
}
