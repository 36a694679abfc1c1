//! The sender of a connection.
ghost use Rattle.std.specs.Prelude.{◌≡◌, ℕ, slice_get, Some, ◌+◌, ◌-◌, ◌==◌, ◌<◌, ◌≤◌, ◌^◌, drop, length, position, is_some, option_copied, IfSome, IfOk, OnOk, OnErr, [], ◌++◌, ◌∷◌};
ghost use Rattle.rina_dtcp.specs.declared.sent.Sent.{Sent};
ghost use Rattle.rina_dtcp.specs.Sents as sents;
ghost use Rattle.rina_dtcp.specs.Sents.{RiseFrom, RiseTo, is_due, is_late, touched};
ghost use Rattle.rina_dtcp.specs.Senders.{Kept, is_gone, left_in, keeps, with_sent, least_from, sents_from, with_all, counted, counted_all, noted, flag_of, settled, raised, resent_at, IsPduAt, late_of, late_in};
ghost use Rattle.std.specs.Borrow.{sem};
ghost use Rattle.rina_dtcp.specs.Lending.{LendsDue};
ghost use Rattle.rina_dtcp.specs.Rows.{IsNew, TellsRoom, TellsIdle, Notes, NotesAll, IsTold, TellsAgain, TellsDue, TellsGivenUp, IsStillUntil, IsDueFrom};

use crate::sent::{GaveUp, Sent, copy_of, due_tick};
use rina_base::{Memory, Num, Pdu, Tick};
use rina_cube::{Cube, Kind};
use std::alloc::{AllocError, Global};
use std::collections::VecDeque;
use std::marker::Model;

/// The sender of a connection: the pieces that wait for their acknowledgement, and the window. A contract
/// sees what it keeps of the machine's sender: of the run only what is not acknowledged.
#[derive(Drop)]
pub struct Tx {
    cube: Cube,
    /// How many numbers of the run were sent; the next number.
    count: u64,
    /// How many of them are acknowledged, from the first on.
    acked: u64,
    /// The greatest number that may be sent.
    right: u32,
    /// The tick at which a piece was last made.
    last_out: Tick,
    /// The pieces from number `acked` on; none on a cube that is not reliable.
    unacked: VecDeque<Sent>,
    /// From this place on in `unacked` no piece is due before an earlier one. Those before it may have been made again.
    mixed: usize,
}

impl Model for Tx {
    ghost use Rattle.rina_dtcp.specs.Senders.{Kept};
    ghost use Rattle.rina_dtcp.specs.Sents.{RiseFrom};

    ghost Value = { Kept };

    ghost view = { λ t. record { cube = t.cube; count = t.count; acked = t.acked; right = t.right; last_out = t.last_out; unacked = t.unacked.items } };

    ghost invariant = { λ t. RiseFrom t.mixed t.cube t.unacked.items };
}

/// The greatest number that may be sent when a run begins.
fn first_edge(cube: &Cube) -> u32
    ensures { result ≡ cube.now.window - 1 }
{
    cube.window.saturating_sub(1)
}

/// Takes the first pieces away.
fn forget(unacked: &mut VecDeque<Sent>, count: u64)
    ensures { unacked.new.items ≡ drop count unacked.old.items }
{
    for _ in 0..count.min(unacked.len() as u64) {
        let _ = unacked.pop_front();
    }
}

/// Adds a piece at the end.
fn append(unacked: &mut VecDeque<Sent>, sent: Sent) -> Result<(), AllocError>
    ensures ok { OnOk result (unacked.new.items ≡ unacked.old.items ++ sent ∷ []) }
    ensures err { OnErr result (unacked.new.items ≡ unacked.old.items) }
{
    unacked.push_back(sent)?;
    Ok(())
}

/// Copies of the PDUs whose number is `least` or greater, as sent now; `seq` is the number of the first.
fn copies(
    alloc: Global,
    least: u64,
    now: Tick,
    seq: u64,
    pdus: &[Pdu],
) -> Result<VecDeque<Sent>, Memory>
    requires { seq + length pdus.now < 2 ^ 64 }
    ensures { IfOk result (λ sents. sents.items ≡ sents_from least now seq pdus.now) }
{
    let mut sents = VecDeque::new(alloc);
    for (i, pdu) in pdus.iter().enumerate() {
        if least <= seq + i as u64 {
            append(
                &mut sents,
                Sent {
                    first: now,
                    last: now,
                    pdu: copy_of(alloc, pdu)?,
                },
            )?;
        }
    }
    Ok(sents)
}

/// Marks a piece as made now.
fn mark_resent(unacked: &mut VecDeque<Sent>, place: usize, now: Tick)
    requires { place < length unacked.old.items }
    ensures { unacked.new.items ≡ touched place now unacked.old.items }
{
    unacked[place].last = now;
}

/// The place of the first piece that is to be made again.
fn first_due(unacked: &VecDeque<Sent>, cube: &Cube, now: Tick) -> Option<usize>
    ensures place { result ≡ position (is_due cube.now now) unacked.now.items }
    ensures within { IfSome result (λ k. k < length unacked.now.items) }
{
    unacked.iter().position(|sent| sent.is_due(cube, now))
}

/// The place of the first piece that is too late.
fn first_late(unacked: &VecDeque<Sent>, cube: &Cube, now: Tick) -> Option<usize>
    ensures place { result ≡ position (is_late cube.now now) unacked.now.items }
    ensures within { IfSome result (λ k. k < length unacked.now.items) }
{
    unacked.iter().position(|sent| sent.is_late(cube, now))
}

/// The first tick at which one of the pieces is made again or too late; the greatest u32 where there is none. From the
/// place `mixed` on no piece is due before an earlier one.
fn still_until(unacked: &VecDeque<Sent>, mixed: usize, cube: &Cube) -> Tick
    requires { RiseFrom mixed cube.now unacked.now.items }
    ensures before { (k : ℕ) (s : Sent) → slice_get unacked.now.items k ≡ Some s → sents.IsStillUntil result cube.now s }
    ensures from { sents.IsSomeDueFrom result cube.now unacked.now.items }
{
    let end = if mixed < unacked.len() {
        mixed + 1
    } else {
        unacked.len()
    };
    let mut until = Tick::MAX;
    for place in 0..end {
        until = until.min(unacked[place].still_until(cube));
    }
    until
}

/// The place from which on no piece is due before an earlier one, nor one that is made now before any of them.
fn mixed_with(unacked: &VecDeque<Sent>, mixed: usize, cube: &Cube, now: Tick) -> usize
    requires { RiseFrom mixed cube.now unacked.now.items }
    ensures among { RiseFrom result cube.now unacked.now.items }
    ensures then { RiseTo now result cube.now unacked.now.items }
{
    let len = unacked.len();
    if len <= mixed {
        return len;
    }
    if unacked[len - 1].still_until(cube) <= due_tick(cube, now, now) {
        mixed
    } else {
        len
    }
}

/// A piece that is given up now.
fn given_up(sent: &Sent, now: Tick) -> GaveUp
    ensures { Some result ≡ late_of now (Some sent.now) }
{
    GaveUp {
        num: Num {
            cep: sent.pdu.scep,
            seq: u64::from(sent.pdu.seq),
        },
        first: sent.first,
        now,
    }
}

impl Tx {
    /// A sender that has sent nothing, on a connection of this cube whose numbers go up to `max`.
    pub fn new(alloc: Global, cube: &Cube, max: u32) -> Result<Tx, Memory>
        ensures { IfOk result (λ t. IsNew cube.now t) }
    {
        let ahead = u64::from(cube.window).min(u64::from(max) + 1);
        Ok(Tx {
            cube: *cube,
            count: 0,
            acked: 0,
            right: first_edge(cube),
            last_out: 0,
            unacked: VecDeque::with_capacity(alloc, ahead as usize)?,
            mixed: 0,
        })
    }

    /// Whether it has no state: nothing was sent, or nothing is unacknowledged and `3 * delta` ticks have
    /// gone by since a piece was last made.
    fn is_absent(&self, now: Tick) -> bool
        ensures { result ≡ is_gone now self.now }
    {
        let cube = self.cube;
        let delta = cube.mpl as u64 + cube.r as u64 + cube.a as u64;
        self.count == 0
            || (self.unacked.is_empty() && self.last_out as u64 + 3 * delta <= now as u64)
    }

    /// How many numbers may still be sent first: the greatest that may be, plus one, less the next number.
    /// Takes no memory.
    pub fn room(&self, now: Tick) -> u32
        ensures { TellsRoom now self.now result }
    {
        self.room_left(now)
    }

    fn room_left(&self, now: Tick) -> u32
        ensures { result ≡ left_in (is_gone now self.now) self.now }
    {
        if self.is_absent(now) {
            return self.cube.window.max(1);
        }
        (u64::from(self.right) + 1).saturating_sub(self.count) as u32
    }

    /// Whether a piece of the number `seq` would have the data run flag, where it is the next that is sent: on a
    /// reliable cube where no earlier number of the run is unacknowledged, on the others where it is 0. Takes
    /// no memory.
    pub fn has_flag(&self, now: Tick, seq: u32) -> bool
        ensures { result ≡ flag_of now seq self.now }
    {
        if !matches!(self.cube.kind, Kind::Reliable) {
            return seq == 0;
        }
        u64::from(seq) <= self.first_kept(self.is_absent(now))
    }

    /// Whether nothing is unacknowledged; always so on a cube that is not reliable. Takes no memory.
    pub fn idle(&self) -> bool
        ensures { TellsIdle self.now result }
    {
        self.has_no_unacked()
    }

    fn has_no_unacked(&self) -> bool
        ensures { result ≡ (length self.now.unacked == 0) }
    {
        self.unacked.is_empty()
    }

    /// Whether a number is one that is to be acknowledged, in a run that begins or in the present one.
    fn keeps(&self, begins: bool, seq: u32) -> bool
        ensures { result ≡ keeps begins seq self.now }
    {
        matches!(self.cube.kind, Kind::Reliable) && (begins || self.acked <= u64::from(seq))
    }

    /// Keeps a copy of a piece's PDU until it is acknowledged.
    fn keep_copy(&mut self, alloc: Global, now: Tick, pdu: &Pdu) -> Result<(), Memory>
        ensures ok { OnOk result (self.new ≡ with_sent now pdu.now self.old) }
        ensures err { OnErr result (self.new ≡ self.old) }
    {
        let sent = Sent {
            first: now,
            last: now,
            pdu: copy_of(alloc, pdu)?,
        };
        let mixed = mixed_with(&self.unacked, self.mixed, &self.cube, now);
        append(&mut self.unacked, sent)?;
        self.mixed = mixed;
        Ok(())
    }

    /// Counts a number as sent now, in a run that begins or in the present one.
    fn count_sent(&mut self, begins: bool, now: Tick, seq: u32)
        ensures { self.new ≡ counted begins now seq self.old }
    {
        if begins {
            self.acked = 0;
            self.right = first_edge(&self.cube);
        }
        self.count = u64::from(seq) + 1;
        self.last_out = now;
    }

    fn note_piece(&mut self, alloc: Global, now: Tick, seq: u32, pdu: &Pdu) -> Result<(), Memory>
        ensures ok { OnOk result (self.new ≡ noted now seq pdu.now self.old) }
        ensures err { OnErr result (self.new ≡ self.old) }
    {
        let begins = self.is_absent(now);
        if self.keeps(begins, seq) {
            self.keep_copy(alloc, now, pdu)?;
        }
        self.count_sent(begins, now, seq);
        Ok(())
    }

    /// Notes that the sender's next number `seq` is sent now, by this PDU. Memory for what may be sent again is
    /// taken here; where the allocation fails, nothing changes.
    pub fn note_sent(&mut self, alloc: Global, now: Tick, seq: u32, pdu: &Pdu) -> Result<(), Memory>
        ensures ok { OnOk result (Notes now seq pdu.now self.old self.new) }
        ensures err { OnErr result (self.new ≡ self.old) }
    {
        self.note_piece(alloc, now, seq, pdu)
    }

    /// The first number of a run that begins, or of the present one, that is to be acknowledged.
    fn first_kept(&self, begins: bool) -> u64
        ensures { result ≡ least_from begins self.now }
    {
        if begins { 0 } else { self.acked }
    }

    /// Keeps copies of the PDUs whose pieces the far end acknowledges; `seq` is the number of the first PDU.
    fn keep_copies(
        &mut self,
        alloc: Global,
        begins: bool,
        now: Tick,
        seq: u32,
        pdus: &[Pdu],
    ) -> Result<(), Memory>
        ensures ok { OnOk result (self.new ≡ with_all begins now seq pdus.now self.old) }
        ensures err { OnErr result (self.new ≡ self.old) }
    {
        if !matches!(self.cube.kind, Kind::Reliable) {
            return Ok(());
        }
        let mut sents = copies(alloc, self.first_kept(begins), now, u64::from(seq), pdus)?;
        let mixed = mixed_with(&self.unacked, self.mixed, &self.cube, now);
        self.unacked.append(&mut sents)?;
        self.mixed = mixed;
        Ok(())
    }

    fn note_pieces(
        &mut self,
        alloc: Global,
        now: Tick,
        seq: u32,
        pdus: &[Pdu],
    ) -> Result<(), Memory>
        requires some { 1 ≤ length pdus.now }
        requires fits { seq + length pdus.now ≤ 2 ^ 32 }
        ensures ok { OnOk result (self.new ≡ counted_all (is_gone now self.old) now seq pdus.now self.old) }
        ensures err { OnErr result (self.new ≡ self.old) }
    {
        let begins = self.is_absent(now);
        self.keep_copies(alloc, begins, now, seq, pdus)?;
        self.count_sent(begins, now, seq + (pdus.len() - 1) as u32);
        Ok(())
    }

    /// Notes that the sender's next numbers, from `seq` on, are sent now, one after the other by these PDUs.
    /// Memory for what may be sent again is taken here; where the allocation fails, nothing changes.
    pub fn note_all(
        &mut self,
        alloc: Global,
        now: Tick,
        seq: u32,
        pdus: &[Pdu],
    ) -> Result<(), Memory>
        requires some { 1 ≤ length pdus.now }
        requires fits { seq + length pdus.now ≤ 2 ^ 32 }
        ensures ok { OnOk result (NotesAll now seq pdus.now self.old self.new) }
        ensures err { OnErr result (self.new ≡ self.old) }
    {
        self.note_pieces(alloc, now, seq, pdus)
    }

    fn drop_acknowledged(&mut self, ack: u32)
        ensures { self.new ≡ settled ack self.old }
    {
        let acked = u64::from(ack) + 1;
        if self.acked < acked {
            let count = acked - self.acked;
            forget(&mut self.unacked, count);
            self.mixed = (self.mixed as u64).saturating_sub(count) as usize;
            self.acked = acked;
        }
    }

    fn raise_edge(&mut self, right: u32)
        ensures { self.new ≡ raised right self.old }
    {
        self.right = self.right.max(right);
    }

    /// Takes an acknowledgement of all numbers up to `ack`, by which numbers up to `right` may be sent; the
    /// greatest `right` counts. Takes no memory.
    pub fn on_control(&mut self, ack: u32, right: u32)
        ensures { IsTold ack right self.old self.new }
    {
        self.drop_acknowledged(ack);
        self.raise_edge(right);
    }

    /// Marks the first piece that is to be made again as made now.
    fn mark_first_due(&mut self, now: Tick) -> Option<usize>
        ensures place { result ≡ position (is_due self.old.cube now) self.old.unacked }
        ensures marks { self.new ≡ resent_at result now self.old }
        ensures within { IfSome result (λ k. k < length self.new.unacked) }
    {
        let place = first_due(&self.unacked, &self.cube, now);
        if let Some(at) = place {
            mark_resent(&mut self.unacked, at, now);
            self.mixed = self.mixed.max(at + 1);
            self.last_out = now;
        }
        place
    }

    /// Whether `due` would give a PDU now. Takes no memory.
    pub fn has_due(&self, now: Tick) -> bool
        ensures kept { result ≡ is_some (position (is_due self.now.cube now) self.now.unacked) }
        ensures machine { TellsDue now self.now result }
    {
        first_due(&self.unacked, &self.cube, now).is_some()
    }

    /// The place of the first piece that is to be made again.
    fn next_place(&self, now: Tick) -> Option<usize>
        ensures place { result ≡ position (is_due self.now.cube now) self.now.unacked }
        ensures within { IfSome result (λ k. k < length self.now.unacked) }
    {
        first_due(&self.unacked, &self.cube, now)
    }

    /// The PDU that `due` would give now; nothing changes. Takes no memory.
    pub fn next_due(&self, now: Tick) -> Option<&Pdu>
        ensures { TellsAgain now self.now (option_copied result) }
    {
        match self.next_place(now) {
            Some(at) => Some(self.pdu_at(at)),
            None => None,
        }
    }

    fn pdu_at(&self, place: usize) -> &Pdu
        requires { place < length self.now.unacked }
        ensures { IsPduAt self.now.unacked place result.now }
    {
        &self.unacked[place].pdu
    }

    /// The PDU of the least number that is unacknowledged, was last made `retry` ticks ago or more, and was
    /// first made at most `r` ticks ago; that number is then marked as made now. None exactly where there is
    /// none. Takes no memory.
    pub fn due(&mut self, now: Tick) -> Option<&Pdu>
        ensures* { sem 𝓛 (LendsDue now self.entry result) }
    {
        match self.mark_first_due(now) {
            Some(at) => Some(self.pdu_at(at)),
            None => None,
        }
    }

    fn least_given_up(&self, now: Tick) -> Option<GaveUp>
        ensures { result ≡ late_in now self.now }
    {
        match first_late(&self.unacked, &self.cube, now) {
            Some(at) => Some(given_up(&self.unacked[at], now)),
            None => None,
        }
    }

    /// The least number that is unacknowledged and was first made `r + a + 2 * mpl` ticks ago or more; None
    /// exactly where there is none. Takes no memory.
    pub fn gave_up(&self, now: Tick) -> Option<GaveUp>
        ensures { TellsGivenUp now self.now result }
    {
        self.least_given_up(now)
    }

    /// The first tick at which a number is sent again or given up, as long as nothing is sent and no acknowledgement comes;
    /// the greatest u32 where nothing is unacknowledged. Takes no memory.
    pub fn still_until(&self) -> Tick
        ensures before { IsStillUntil result self.now }
        ensures from { IsDueFrom result self.now }
    {
        still_until(&self.unacked, self.mixed, &self.cube)
    }
}
