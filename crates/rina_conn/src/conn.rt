//! A connection.
ghost use Rattle.std.specs.Prelude.{◌≡◌, ◌≤◌, ◌-◌, ◌^◌, min, length, true, IfOk};
ghost use Rattle.std.specs.Borrow.{sem};
ghost use Rattle.rina_base.specs.Pdus.{pdu_of};
ghost use Rattle.rina_cube.specs.Cubes.{IsCube};
ghost use Rattle.rina_dtp.specs.Fetching.{TakesFirst};
ghost use Rattle.rina_dtp.specs.Lending.{IsFirst};
ghost use Rattle.rina_dtp.specs.Observed.{TellsNext};
ghost use Rattle.rina_dtp.specs.Receiving.{drops, kept_numbers};
ghost use Rattle.rina_dtp.specs.Stands.{IsRow, IsAhead};
ghost use Rattle.rina_conn.specs.Conns.{Marks, Passes, marks, IsNewConn, StandsStill, PassesOn, notes_next, is_accepted, waits_after};
ghost use Rattle.rina_conn.specs.Lending.{LendsWhole};
ghost use Rattle.rina_conn.specs.Sending as send;
ghost use Rattle.rina_conn.specs.Standing.{Arrives, PassesFirst};

mod clock;

use crate::form::{Form, Peer};
use crate::made::{Made, OfferError};
use crate::sending::Sending;
use crate::waiting::Waiting;
use rina_base::{Cause, Key, Memory, Pdu, PduView, Tick};
use rina_cube::Cube;
use rina_dtcp::{AckPlan, GaveUp};
use rina_dtp::{Bodies, Rx, Sdu, Verdict};
use std::alloc::Global;

/// One end of a connection: what it sends, what it receives, when an acknowledgement is due, and the SDUs that
/// wait to be passed.
#[derive(Drop)]
pub struct Conn {
    pub sending: Sending,
    pub rx: Rx,
    pub plan: AckPlan,
    pub waiting: Waiting,
}

/// What a clock step does for a connection.
#[derive(Clone, Copy)]
pub enum ConnDue<'a> {
    /// Nothing is due.
    Idle,
    /// Pieces are given up that were held by a state that has ended.
    Gone,
    /// A number is given up.
    GaveUp(GaveUp),
    /// An acknowledgement is made: all numbers up to `ack` were accepted, and numbers up to `right` may be sent.
    Ack { ack: u32, right: u32 },
    /// A piece is sent again.
    Again(&'a Pdu),
}

/// An acknowledgement that is due: all numbers up to `ack` were accepted, and numbers up to `right` may be sent.
#[derive(Clone, Copy, Debug, PartialEq, Eq)]
pub struct DueAck {
    pub ack: u32,
    pub right: u32,
}

/// Whether a piece of this verdict wants an acknowledgement: it was accepted, held, or a duplicate.
fn wants_ack(verdict: Verdict) -> bool
    ensures { result ≡ marks verdict }
{
    matches!(
        verdict,
        Verdict::Accept { .. }
            | Verdict::Hold
            | Verdict::Off(Cause::Duplicate { .. } | Cause::Broken { .. })
    )
}

/// Whether a piece of this verdict was accepted.
fn is_accepted(verdict: Verdict) -> bool
    ensures { result ≡ is_accepted verdict }
{
    matches!(
        verdict,
        Verdict::Accept { .. } | Verdict::Off(Cause::Broken { .. })
    )
}

impl Conn {
    /// A connection on which nothing was sent or received, with numbers up to `max` and pieces of at most
    /// `piece` bytes. Takes the memory that all calls but `offer` and `ahead` need.
    pub fn new(alloc: Global, cube: &Cube, piece: u32, max: u32, peer: Peer) -> Result<Conn, Memory>
        requires cube { IsCube cube.now }
        requires piece { 1 ≤ piece }
        ensures { IfOk result (IsNewConn cube.now piece max peer) }
    {
        let form = Form::new(cube, piece, peer);
        let delta = form.delta();
        Ok(Conn {
            sending: Sending::new(alloc, form, max)?,
            rx: Rx::new(alloc, cube, piece)?,
            plan: AckPlan::new(cube.a, delta),
            waiting: Waiting::new(alloc, cube.window)?,
        })
    }

    /// Offers an SDU to be sent: all its pieces are made now, or none. Where it is refused, or an allocation fails,
    /// nothing changes.
    pub fn offer(&mut self, alloc: Global, now: Tick, sdu: &[u8]) -> Result<Made, OfferError>
        requires { now ≤ 10000000 }
        ensures offers { send.Offers now sdu.now self.old.sending result self.new.sending }
        ensures same { (self.new.rx ≡ self.old.rx) × (self.new.plan ≡ self.old.plan) × (self.new.waiting ≡ self.old.waiting) }
    {
        self.sending.offer(alloc, now, sdu)
    }

    /// Receives a piece at a tick of at most 10,000,000, while `unpassed` SDUs wait to be passed; the
    /// SDUs and dropped pieces of earlier calls are fetched before. Takes no memory.
    pub fn on_data(&mut self, now: Tick, pdu: &PduView<'_>, unpassed: u32) -> Verdict
        requires { now ≤ 10000000 }
        ensures arrives { IsRow now (pdu_of pdu.now) unpassed self.old.rx result self.new.rx }
        ensures marks { Marks now (pdu_of pdu.now) unpassed self.old result self.new }
        ensures same { self.new.sending ≡ self.old.sending }
        ensures receives { Arrives now (pdu_of pdu.now) unpassed self.old self.new }
    {
        let present = self.rx.present(now);
        let last_in = self.rx.last_in();
        let verdict = self.rx.on_data(now, pdu, unpassed);
        self.plan_ack(now, last_in, verdict);
        self.note_state_begun(present, verdict, unpassed);
        verdict
    }

    fn plan_ack(&mut self, now: Tick, last_in: Option<Tick>, verdict: Verdict)
        ensures marks { PassesOn now last_in (marks verdict) self.old.plan self.new.plan }
        ensures same { (self.new.rx ≡ self.old.rx) × (self.new.sending ≡ self.old.sending) × (self.new.waiting ≡ self.old.waiting) }
    {
        if wants_ack(verdict) {
            self.plan.note(now, last_in);
        }
    }

    /// Notes that a state began, where the piece that came began one.
    fn note_state_begun(&mut self, present: bool, verdict: Verdict, unpassed: u32)
        ensures { self.new ≡ record self.old { waiting = waits_after present verdict unpassed self.old.waiting } }
    {
        if !present && is_accepted(verdict) {
            self.waiting.begin(unpassed);
        }
    }

    /// The bytes of the SDUs that `on_data` would make whole, in order, under its conditions. Nothing changes.
    pub fn ahead(
        &self,
        alloc: Global,
        now: Tick,
        pdu: &PduView<'_>,
        unpassed: u32,
    ) -> Result<Bodies, Memory>
        requires { now ≤ 10000000 }
        ensures { IfOk result (IsAhead now (pdu_of pdu.now) unpassed self.now.rx) }
    {
        self.rx.ahead(alloc, now, pdu, unpassed)
    }

    /// Notes that the SDU that is fetched next waits to be passed.
    fn note_next_whole(&mut self)
        ensures { self.new ≡ notes_next self.old }
    {
        if let Some(first) = self.rx.next_first() {
            self.waiting.note(first);
        }
    }

    /// The SDUs that the last piece made whole, one by one in order; None exactly where none is left. Takes no
    /// memory.
    pub fn next_whole(&mut self) -> Option<Sdu<'_>>
        ensures* rest { sem 𝓛 (LendsWhole self.entry) }
        ensures first { IsFirst result self.old.rx.join.whole }
    {
        self.note_next_whole();
        self.rx.next_whole()
    }

    /// Takes an acknowledgement. Takes no memory.
    pub fn on_control(&mut self, pdu: &PduView<'_>)
        ensures told { send.IsToldBy pdu.now.ack pdu.now.right self.old.sending self.new.sending }
        ensures form { self.new.sending.form ≡ self.old.sending.form }
        ensures same { (self.new.rx ≡ self.old.rx) × (self.new.plan ≡ self.old.plan) × (self.new.waiting ≡ self.old.waiting) }
    {
        self.sending.on_control(pdu.ack, pdu.right);
    }

    /// Notes that the next SDU was passed to the application, once the SDUs of earlier pieces are
    /// fetched. Its number and its pieces are known from when it became whole. Takes no memory.
    pub fn passed(&mut self, now: Tick, _first: u32, _pieces: u32)
        ensures marks { Passes now self.old self.new }
        ensures same { (self.new.rx ≡ self.old.rx) × (self.new.sending ≡ self.old.sending) }
        ensures receives { PassesFirst now self.old self.new }
    {
        let last_in = self.rx.last_in();
        self.plan.note_passed(now, last_in);
        self.waiting.pass();
    }

    /// The next piece that was held and given up, with its cause; None exactly where there is none. Takes no
    /// memory.
    pub fn dropped(&mut self, now: Tick) -> Option<(Key, Cause)>
        ensures taken { TakesFirst result (drops now self.old.rx) (drops now self.new.rx) }
        ensures stands { StandsStill now self.old self.new }
    {
        self.rx.dropped(now)
    }

    /// Closes the connection, and answers how many pieces are held, which `dropped` gives after that. Takes no
    /// memory.
    pub fn close(&mut self) -> u32
        ensures count { result ≡ min (length (kept_numbers self.old.rx)) (2 ^ 32 - 1) }
        ensures closed { self.new.rx ≡ record self.old.rx { closed = true } }
        ensures same { (self.new.sending ≡ self.old.sending) × (self.new.plan ≡ self.old.plan) × (self.new.waiting ≡ self.old.waiting) }
    {
        self.rx.close()
    }

    /// How many numbers may still be sent first; the greatest u32 on a cube that is not reliable. Takes no
    /// memory.
    pub fn room(&self, now: Tick) -> u32
        ensures { send.TellsRoom now self.now.sending result }
    {
        self.sending.room(now)
    }

    /// The sender's next number; None exactly where it has no state. Takes no memory.
    pub fn tx_next(&self, now: Tick) -> Option<u64>
        ensures { send.TellsNext now self.now.sending result }
    {
        self.sending.next(now)
    }

    /// The number after the greatest one that was accepted, on a reliable flow after all that were; None
    /// exactly where the receiver has no state. Takes no memory.
    pub fn rx_next(&self, now: Tick) -> Option<u64>
        ensures { TellsNext now self.now.rx result }
    {
        self.rx.next(now)
    }
}
