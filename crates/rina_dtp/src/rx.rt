//! The receiver of a connection.
ghost use Rattle.std.specs.Prelude.{◌≡◌, ◌≤◌, ◌<◌, ◌+◌, ◌-◌, ◌*◌, ◌^◌, ℕ, min, nat_lt, true, false, [], ◌∷◌, length, Some, None, IfOk, IfSome, if◌then◌else◌};
ghost use Rattle.rina_base.specs.Pdus.{pdu_of};
ghost use Rattle.rina_cube.specs.Cubes.{IsCube};
ghost use Rattle.rina_law.specs.Receiver as law;
ghost use Rattle.rina_dtp.specs.Accepted.{known_verdict, number_verdict, judged_as, is_accepted};
ghost use Rattle.rina_dtp.specs.Receiving.{present_at, cleared, IsAccepted, IsHeldIn, IsStep, Steps, slots_of, StartsFresh, run_numbers, kept_numbers, end_cause, ended_with, broken_with, lost_in, drops};
ghost use Rattle.rina_dtp.specs.Fetching.{HasSome, TakesFirst, after_first, gathered, GoesOn, ChangesKept, KeepsNoMore, StandsAsBefore};
ghost use Rattle.rina_dtp.specs.Observed.{IsNew, TellsPresence, TellsNext, TellsJoining, TellsLastIn, KeepsNoneUntil, KeepsFrom, from_kept};
ghost use Rattle.rina_dtp.specs.Joins.{IsForward, first_number};
ghost use Rattle.rina_dtp.specs.Stands.{IsRow, IsAhead};

use crate::accepted::Accepted;
use crate::join::Join;
use crate::ring::Ring;
use crate::sdu::{Bodies, Sdu};
use crate::shelf::Shelf;
use crate::source::Source;
use crate::verdict::{Judged, Verdict};
use rina_base::{Bytes, Cause, Key, Memory, Num, PduView, Seq, Tick};
use rina_cube::{Cube, Kind};
use rina_delim::Run;
use std::alloc::Global;
use std::marker::Model;

/// The receiver of a connection. Its state ends by the clock, `2 * delta` ticks after the last piece that counted.
#[derive(Drop)]
pub struct Rx {
    /// How many SDUs may wait to be passed.
    window: u32,
    /// How long state stands, in ticks: `2 * delta`.
    rest: u32,
    /// Whether state was ever made, and the tick of the last piece that counted.
    made: bool,
    last_in: Tick,
    /// The connection is closed.
    closed: bool,
    /// Where the last piece came from that was accepted or held.
    source: Source,
    accepted: Accepted,
    /// Pieces that waited in the joiner when the state or the connection ended.
    going: Option<Run>,
    join: Join,
}

impl Model for Rx {
    ghost use Rattle.rina_dtp.specs.Receiving.{Receiving, IsSound};

    ghost Value = { Receiving };

    ghost view = { λ r. record { window = r.window; rest = r.rest; made = r.made; last_in = r.last_in; closed = r.closed; source = r.source; accepted = r.accepted; going = r.going; join = r.join } };

    ghost invariant = { λ r. IsSound (record { window = r.window; rest = r.rest; made = r.made; last_in = r.last_in; closed = r.closed; source = r.source; accepted = r.accepted; going = r.going; join = r.join }) };
}

/// While too many SDUs wait to be passed, nothing is accepted or held.
fn with_room(room: bool, judged: Judged) -> Judged
    ensures { (v : law.Verdict) → judged ≡ judged_as v → result ≡ judged_as (law.with_room room v) }
{
    match judged {
        Judged::Accepted | Judged::Held if !room => Judged::NoRoom,
        _ => judged,
    }
}

fn is_accepted(judged: Judged) -> bool
    ensures { (v : law.Verdict) → judged ≡ judged_as v → result ≡ is_accepted v }
{
    matches!(judged, Judged::Accepted)
}

/// The bytes of one SDU.
fn one_body(alloc: Global, bytes: &[u8]) -> Result<Bodies, Memory>
    ensures { IfOk result (λ bodies. bodies ≡ bytes.now ∷ []) }
{
    let mut bodies = Seq::new(alloc);
    bodies.push(Bytes::copy_of(alloc, bytes)?)?;
    Ok(bodies)
}

/// A run of pieces without the first.
fn after_first(run: Run) -> Option<Run>
    ensures { result ≡ after_first run }
{
    if run.from < run.last {
        Some(Run {
            from: run.from + 1,
            last: run.last,
        })
    } else {
        None
    }
}

/// How many pieces a run has.
#[tactic(auto, using(crate::proofs::Fetched::run_length))]
fn run_count(run: Option<Run>) -> u64
    ensures count { result ≡ length (run_numbers run) }
    ensures most { result ≤ 2 ^ 32 }
{
    match run {
        Some(run) => u64::from(run.last.saturating_sub(run.from)) + 1,
        None => 0,
    }
}

/// How many SDUs one piece can make whole at most.
fn slots(cube: &Cube) -> u32
    requires { IsCube cube.now }
    ensures { result ≡ slots_of cube.now.kind cube.now.window }
{
    match cube.kind {
        Kind::Reliable => cube.window,
        _ => 1,
    }
}

impl Rx {
    ghost use Rattle.std.specs.Borrow.{sem};
    ghost use Rattle.rina_dtp.specs.Lending.{IsFirst, LendsWhole};

    /// A receiver of a cube that has no state, for pieces of at most `piece` bytes. Takes all the memory that the other
    /// calls need, but for `ahead`.
    pub fn new(alloc: Global, cube: &Cube, piece: u32) -> Result<Rx, Memory>
        requires { IsCube cube.now }
        ensures { IfOk result (IsNew cube.now piece) }
    {
        Rx::fresh(alloc, cube, piece)
    }

    fn fresh(alloc: Global, cube: &Cube, piece: u32) -> Result<Rx, Memory>
        requires { IsCube cube.now }
        ensures { IfOk result (StartsFresh cube.now piece) }
    {
        let accepted = Accepted::new(alloc, cube, piece)?;
        let join = Join::new(alloc, slots(cube), cube.largest)?;
        Ok(Rx {
            window: cube.window,
            rest: 2 * cube.delta(),
            made: false,
            last_in: 0,
            closed: false,
            source: Source {
                src: 0,
                scep: 0,
                dcep: 0,
            },
            accepted,
            going: None,
            join,
        })
    }

    /// Whether state stands.
    pub fn present(&self, now: Tick) -> bool
        ensures kept { result ≡ present_at now self.now }
        ensures machine { TellsPresence now self.now result }
    {
        self.made && now < self.last_in + self.rest
    }

    /// Forgets what was not fetched.
    fn clear(&mut self)
        ensures { self.new ≡ cleared self.old }
    {
        self.going = None;
        self.join.clear();
    }

    /// The verdict of the sequence numbers on a piece, with room or without.
    fn judge(&self, present: bool, room: bool, number: u32, drf: bool) -> Judged
        ensures { result ≡ judged_as (law.with_room room (number_verdict present self.now.accepted number drf)) }
    {
        with_room(room, self.accepted.verdict(present, number, drf))
    }

    /// Accepts a piece, and the held ones that follow.
    fn accept(&mut self, now: Tick, present: bool, pdu: &PduView<'_>) -> Verdict
        requires now { now ≤ 10000000 }
        requires may { present ≡ true → known_verdict self.old.accepted pdu.now.seq ≡ law.Accepted }
        requires filled { self.old.join.filled ≡ 0 }
        requires gaps { self.old.join.gaps ≡ [] }
        ensures { IsAccepted present now (pdu_of pdu.now) self.old result self.new }
    {
        if !present {
            self.join.reset();
        }
        self.accepted.note_accepted(present, pdu.seq);
        let missing = self.join.join_piece(pdu.seq, pdu.first, pdu.last, pdu.body);
        self.accepted.join_following(&mut self.join);
        self.made = true;
        self.last_in = now;
        self.source = Source::of(pdu);
        match missing {
            None => Verdict::Accept {
                whole: self.join.count(),
            },
            Some(missing) => Verdict::Off(Cause::Broken { missing }),
        }
    }

    /// Holds a piece. One that has no place is refused with `NoRoom`: no lawful sender makes such a piece.
    fn hold(&mut self, now: Tick, pdu: &PduView<'_>) -> Verdict
        requires { now ≤ 10000000 }
        ensures { IsHeldIn self.old.accepted now (pdu_of pdu.now) self.old result self.new }
    {
        match &mut self.accepted {
            Accepted::Reliable(shelf) if shelf.has_place(pdu.seq, pdu.body.len()) => {
                shelf.put(pdu.seq, pdu.first, pdu.last, pdu.body);
            }
            _ => return Verdict::Off(Cause::NoRoom { cap: self.window }),
        }
        self.last_in = now;
        self.source = Source::of(pdu);
        Verdict::Hold
    }

    /// Writes off a piece whose number is known already. It counts for how long state stands.
    fn reject_known(&mut self, now: Tick, cause: Cause) -> Verdict
        requires { now ≤ 10000000 }
        ensures told { result ≡ Verdict.Off cause }
        ensures last_in { self.new ≡ record self.old { last_in = now } }
    {
        self.last_in = now;
        Verdict::Off(cause)
    }

    /// Accepts, holds or writes off a piece, by the verdict of the sequence numbers.
    fn step(&mut self, now: Tick, present: bool, room: bool, pdu: &PduView<'_>) -> Verdict
        requires now { now ≤ 10000000 }
        requires filled { self.old.join.filled ≡ 0 }
        requires gaps { self.old.join.gaps ≡ [] }
        ensures step { IsStep (law.with_room room (number_verdict present self.old.accepted pdu.now.seq pdu.now.drf)) present now (pdu_of pdu.now) self.old result self.new }
        ensures small { pdu.now.seq < 2 ^ 32 }
    {
        match self.judge(present, room, pdu.seq, pdu.drf) {
            Judged::Accepted => self.accept(now, present, pdu),
            Judged::Held => self.hold(now, pdu),
            Judged::Duplicate => {
                let num = Num {
                    cep: pdu.scep,
                    seq: u64::from(pdu.seq),
                };
                self.reject_known(now, Cause::Duplicate { num })
            }
            Judged::Behind => {
                let highest = self.accepted.highest();
                self.reject_known(now, Cause::Behind { highest })
            }
            Judged::NoState => Verdict::Off(Cause::NoState { drf: pdu.drf }),
            Judged::NoRoom => Verdict::Off(Cause::NoRoom { cap: self.window }),
        }
    }

    /// Receives a piece, once what was not fetched is forgotten.
    fn receive(&mut self, now: Tick, pdu: &PduView<'_>, unpassed: u32) -> Verdict
        requires { now ≤ 10000000 }
        ensures steps { Steps now (pdu_of pdu.now) unpassed self.old result self.new }
        ensures small { pdu.now.seq < 2 ^ 32 }
    {
        let present = self.present(now);
        let room = unpassed < self.window;
        self.clear();
        self.step(now, present, room, pdu)
    }

    /// Receives a piece at a tick of at most 10,000,000, while `unpassed` SDUs wait to be passed: the row of the
    /// connection machine, for every state of the machine for which this one stands. Takes no memory. The
    /// caller fetches the SDUs and the dropped pieces of earlier calls first: those that it did not fetch are forgotten.
    /// Nothing is said of a piece that no lawful sender makes: one that is too long, or lies outside of the window.
    pub fn on_data(&mut self, now: Tick, pdu: &PduView<'_>, unpassed: u32) -> Verdict
        requires { now ≤ 10000000 }
        ensures { IsRow now (pdu_of pdu.now) unpassed self.old result self.new }
    {
        self.receive(now, pdu, unpassed)
    }

    /// The number after the greatest one that was accepted, on a reliable flow after all that were; None exactly where no state
    /// stands.
    pub fn next(&self, now: Tick) -> Option<u64>
        ensures machine { TellsNext now self.now result }
        ensures within { IfSome result (λ n. n ≤ 2 ^ 32) }
    {
        if self.present(now) {
            Some(self.accepted.next())
        } else {
            None
        }
    }

    /// The first number that the joiner holds; None exactly where it holds nothing.
    pub fn joining(&self) -> Option<u32>
        ensures kept { result ≡ from_kept self.now.join.joining.held }
        ensures machine { TellsJoining self.now result }
    {
        match self.join.held() {
            Some(run) => Some(run.from),
            None => None,
        }
    }

    /// The tick of the last piece that was accepted, held, or written off as `Duplicate` or `Behind`; None exactly where no state
    /// was ever made.
    pub fn last_in(&self) -> Option<Tick>
        ensures kept { result ≡ (if self.now.made then Some self.now.last_in else None) }
        ensures machine { TellsLastIn self.now result }
    {
        if self.made { Some(self.last_in) } else { None }
    }

    /// The number of the first piece of the SDU that `next_whole` would give; None exactly where none is left.
    pub fn next_first(&self) -> Option<u32>
        ensures { result ≡ first_number self.now.join.whole }
    {
        self.join.next_first()
    }

    /// The SDUs that the last piece made whole, one by one in order; None exactly where none is left.
    pub fn next_whole(&mut self) -> Option<Sdu<'_>>
        ensures* rest { sem 𝓛 (LendsWhole self.entry) }
        ensures first { IsFirst result self.old.join.whole }
    {
        self.join.next_whole()
    }

    /// Why the pieces that are kept are given up; None where they are not.
    fn end_cause(&self, now: Tick) -> Option<Cause>
        ensures { result ≡ end_cause now self.now }
    {
        if self.closed {
            return Some(Cause::NoConnection {
                cep: self.source.dcep,
            });
        }
        if self.present(now) {
            return None;
        }
        Some(Cause::StateGone {
            last_in: self.last_in,
        })
    }

    /// Takes the pieces out of the joiner, where no earlier ones are left to be given up.
    fn empty_joiner(&mut self)
        ensures { self.new ≡ gathered self.old }
    {
        if self.going.is_none() {
            self.going = self.join.held();
            self.join.reset();
        }
    }

    /// Takes the first piece that was in the joiner, or else the first one that is held.
    fn next_leftover(&mut self) -> Option<u32>
        ensures { GoesOn self.old.going self.old result self.new }
    {
        match self.going {
            Some(run) => {
                self.going = after_first(run);
                Some(run.from)
            }
            None => self.accepted.next_held(),
        }
    }

    /// Takes the first piece of all that are kept.
    fn next_kept(&mut self) -> Option<u32>
        ensures taken { TakesFirst result (kept_numbers self.old) (kept_numbers self.new) }
        ensures rest { ChangesKept self.old self.new }
    {
        self.empty_joiner();
        self.next_leftover()
    }

    /// The next piece that is given up because state or connection ended.
    fn next_ended(&mut self, now: Tick) -> Option<(Key, Cause)>
        ensures taken { TakesFirst result (ended_with self.old.source (end_cause now self.old) (kept_numbers self.old)) (ended_with self.new.source (end_cause now self.new) (kept_numbers self.new)) }
        ensures rest { ChangesKept self.old self.new }
        ensures standing { end_cause now self.old ≡ None → self.new ≡ self.old }
        ensures kept { KeepsNoMore now self.old self.new }
    {
        let cause = self.end_cause(now)?;
        let number = self.next_kept()?;
        Some((self.source.key(number), cause))
    }

    /// The next piece that is given up because its SDU is broken.
    #[tactic(auto, using(crate::proofs::Fetched::broken_first))]
    fn next_broken(&mut self) -> Option<(Key, Cause)>
        ensures taken { TakesFirst result (broken_with self.old.source (lost_in self.old.join.gaps)) (broken_with self.old.source (lost_in self.new.join.gaps)) }
        ensures rest { self.new ≡ record self.old { join = record self.old.join { gaps = self.new.join.gaps } } }
    {
        match self.join.next_lost() {
            None => None,
            Some(lost) => {
                let missing = lost.missing;
                Some((self.source.key(lost.number), Cause::Broken { missing }))
            }
        }
    }

    /// The next piece that this receiver held and gave up, with the cause: `Broken` where the last piece broke its SDU,
    /// `StateGone` where no state stands any more, `NoConnection` where the connection was closed. None exactly where
    /// there is no such piece. Pieces of one SDU come before those that are held, and numbers rise. All keys are of
    /// the source of the last piece that was accepted or held.
    pub fn dropped(&mut self, now: Tick) -> Option<(Key, Cause)>
        ensures taken { TakesFirst result (drops now self.old) (drops now self.new) }
        ensures stands { StandsAsBefore now self.old self.new }
        ensures whole { self.new.join.whole ≡ self.old.join.whole }
        ensures kept { KeepsNoMore now self.old self.new }
    {
        match self.next_broken() {
            Some(broken) => Some(broken),
            None => self.next_ended(now),
        }
    }

    /// Whether pieces are kept that are given up because state or connection ended.
    #[tactic(auto, using(crate::proofs::Remaining::ended_as, crate::proofs::Remaining::ended_none))]
    fn has_ended(&self, now: Tick) -> bool
        ensures { HasSome (ended_with self.now.source (end_cause now self.now) (kept_numbers self.now)) result }
    {
        self.end_cause(now).is_some() && self.keeps_any()
    }

    /// Whether `dropped` would give a piece now; nothing changes. Takes no memory.
    #[tactic(auto, using(crate::proofs::Remaining::drops_lost, crate::proofs::Remaining::drops_ended))]
    pub fn has_dropped(&self, now: Tick) -> bool
        ensures { HasSome (drops now self.now) result }
    {
        if self.join.has_lost() {
            return true;
        }
        self.has_ended(now)
    }

    /// How many pieces are kept: those that wait for the rest of their SDU, and those that are held. No piece that comes
    /// makes `dropped` give more than these.
    pub fn kept(&self) -> u64
        ensures count { result ≡ length (kept_numbers self.now) }
        ensures most { result ≤ 2 ^ 34 }
    {
        run_count(self.going) + run_count(self.join.held()) + self.accepted.held_count()
    }

    /// Whether any piece is kept. Takes no memory.
    #[tactic(auto, using(crate::proofs::Remaining::kept_going, crate::proofs::Remaining::kept_joining, crate::proofs::Remaining::kept_held))]
    pub fn keeps_any(&self) -> bool
        ensures { HasSome (kept_numbers self.now) result }
    {
        if self.going.is_some() || self.join.held().is_some() {
            return true;
        }
        self.accepted.holds_any()
    }

    /// The tick from which on pieces are kept of a state that has ended: the one at which state ends, and the greatest u32
    /// where no piece is kept. Takes no memory.
    #[tactic(auto, using(crate::proofs::Remaining::keeps_after, crate::proofs::Remaining::keeps_at_once))]
    pub fn keeps_none_until(&self) -> Tick
        ensures before { KeepsNoneUntil result self.now }
        ensures from { KeepsFrom result self.now }
    {
        if !self.keeps_any() {
            return Tick::MAX;
        }
        if self.made {
            self.last_in + self.rest
        } else {
            0
        }
    }

    /// Whether the connection was closed.
    pub fn is_closed(&self) -> bool
        ensures { result ≡ self.now.closed }
    {
        self.closed
    }

    /// Closes the connection, and answers how many pieces are held, 2^32 counted as one less. After that `dropped`
    /// gives each of them with `NoConnection`.
    pub fn close(&mut self) -> u32
        ensures count { result ≡ min (length (kept_numbers self.old)) (2 ^ 32 - 1) }
        ensures closed { self.new ≡ record self.old { closed = true } }
    {
        let count = self.kept();
        self.closed = true;
        count.min(u64::from(u32::MAX)) as u32
    }

    /// A copy of its own, but for what was not fetched.
    fn copy(&self, alloc: Global) -> Result<Rx, Memory>
        ensures { IfOk result (λ r. IsForward self.now.join.joining.held → r ≡ cleared self.now) }
    {
        Ok(Rx {
            window: self.window,
            rest: self.rest,
            made: self.made,
            last_in: self.last_in,
            closed: self.closed,
            source: self.source,
            accepted: self.accepted.copy(alloc)?,
            going: None,
            join: self.join.copy(alloc)?,
        })
    }

    /// Whether a piece is accepted. One that is not makes no SDU whole.
    #[tactic(auto, using(crate::proofs::Ahead::none_ahead))]
    fn accepts(&self, now: Tick, pdu: &PduView<'_>, unpassed: u32) -> bool
        requires { now ≤ 10000000 }
        ensures accepted { result ≡ is_accepted (law.with_room (nat_lt unpassed self.now.window) (number_verdict (present_at now self.now) self.now.accepted pdu.now.seq pdu.now.drf)) }
        ensures none { result ≡ false → IsAhead now (pdu_of pdu.now) unpassed self.now [] }
    {
        let present = self.present(now);
        let room = unpassed < self.window;
        is_accepted(self.judge(present, room, pdu.seq, pdu.drf))
    }

    /// Whether a piece is an SDU by itself, and no held one follows it. One that is makes its SDU whole and no other,
    /// where it is accepted.
    #[tactic(auto, using(crate::proofs::Ahead::one_ahead))]
    fn is_alone(&self, pdu: &PduView<'_>) -> bool
        ensures alone { (now unpassed : ℕ) → result ≡ true → is_accepted (law.with_room (nat_lt unpassed self.now.window) (number_verdict (present_at now self.now) self.now.accepted pdu.now.seq pdu.now.drf)) ≡ true → IsAhead now (pdu_of pdu.now) unpassed self.now (pdu.now.body.now ∷ []) }
    {
        pdu.first && pdu.last && !self.accepted.holds(u64::from(pdu.seq) + 1)
    }

    /// The bytes of the SDUs that a piece would make whole, by a copy that receives it.
    fn ahead_by_copy(
        &self,
        alloc: Global,
        now: Tick,
        pdu: &PduView<'_>,
        unpassed: u32,
    ) -> Result<Bodies, Memory>
        requires { now ≤ 10000000 }
        ensures { IfOk result (IsAhead now (pdu_of pdu.now) unpassed self.now) }
    {
        let mut copy = self.copy(alloc)?;
        let _verdict = copy.receive(now, pdu, unpassed);
        copy.join.bodies(alloc)
    }

    /// The bytes of the SDUs that `on_data` would make whole, in order, under its conditions. Nothing changes.
    pub fn ahead(
        &self,
        alloc: Global,
        now: Tick,
        pdu: &PduView<'_>,
        unpassed: u32,
    ) -> Result<Bodies, Memory>
        requires { now ≤ 10000000 }
        ensures { IfOk result (IsAhead now (pdu_of pdu.now) unpassed self.now) }
    {
        if !self.accepts(now, pdu, unpassed) {
            return Ok(Seq::new(alloc));
        }
        if self.is_alone(pdu) {
            return one_body(alloc, pdu.body);
        }
        self.ahead_by_copy(alloc, now, pdu, unpassed)
    }
}
