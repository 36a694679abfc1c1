//! The half of a connection that sends.
ghost use Rattle.std.specs.Prelude.{◌≡◌, ◌+◌, ◌^◌, ◌<◌, ◌≤◌, length, map, slice_get, is_some, option_copied, position, Some, IfOk, IfErr};
ghost use Rattle.std.specs.Borrow.{sem};
ghost use Rattle.rina_dtcp.specs.Senders.{flag_of};
ghost use Rattle.rina_dtcp.specs.Sents.{is_due};
ghost use Rattle.rina_conn.specs.Lending.{LendsAgain};
ghost use Rattle.rina_conn.specs.Carrying.{carry, part_in, made_from, LieWithin};
ghost use Rattle.rina_conn.specs.Quiet.{SendsFrom, SendsNoneUntil};
ghost use Rattle.rina_conn.specs.Sending.{IsNewSender, Offers, ChecksLength, ChecksWindow, IsPartsOf, Numbered, Admits, IsToldBy, TellsRoom, TellsNext, TellsAgain, TellsGivenUp, NotesIf};

use crate::form::Form;
use crate::made::{Made, OfferError, Pdus};
use rina_base::{Bytes, Memory, Num, Pdu, PduKind, PduView, Seq, Tick};
use rina_cube::{Cube, Kind};
use rina_delim::{Part, cut};
use rina_dtcp::{GaveUp, Tx};
use rina_dtp::Numbers;
use std::alloc::Global;

/// The half of a connection that sends: its numbers, and what is not acknowledged.
#[derive(Drop)]
pub struct Sending {
    pub form: Form,
    pub numbers: Numbers,
    pub tx: Tx,
}

/// An SDU that is accepted: its parts, the number of the first, and the numbers after it.
#[derive(Drop)]
pub struct Admitted {
    pub parts: Vec<Part>,
    pub first: u32,
    pub numbers: Numbers,
}

/// The bytes of a part of an SDU.
fn body_of<'a>(sdu: &'a [u8], parts: &[Part], place: usize) -> &'a [u8]
    requires place { place < length parts.now }
    requires within { LieWithin (length sdu.now) parts.now }
    ensures { (p : Part) → slice_get parts.now place ≡ Some p → result.now ≡ (part_in sdu.now p).body }
{
    let part = parts[place];
    let from = part.at as usize;
    &sdu[from..from + part.len as usize]
}

impl Sending {
    /// Nothing was sent yet.
    pub fn new(alloc: Global, form: Form, max: u32) -> Result<Sending, Memory>
        ensures { IfOk result (IsNewSender form max) }
    {
        Ok(Sending {
            form,
            numbers: Numbers::new(max),
            tx: Tx::new(alloc, &form.cube, max)?,
        })
    }

    fn check_length(&self, len: usize) -> Result<(), OfferError>
        ensures { ChecksLength len self.now.form.cube.largest result }
    {
        let max = self.form.cube.largest;
        if len > max as usize {
            return Err(OfferError::TooLong { len, max });
        }
        Ok(())
    }

    /// The PDU of a piece.
    fn pdu_of_piece(
        &self,
        alloc: Global,
        seq: u32,
        drf: bool,
        part: &Part,
        body: &[u8],
    ) -> Result<Pdu, Memory>
        ensures { IfOk result (λ p. p ≡ carry self.now.form.peer self.now.form.cube.id (record { number = seq; drf = drf; part = record { begins = part.now.first; ends = part.now.last; body = body.now } })) }
    {
        let peer = self.form.peer;
        Ok(Pdu {
            kind: PduKind::Piece,
            dst: peer.far,
            src: peer.own,
            qos: self.form.cube.id,
            dcep: peer.dcep,
            scep: peer.scep,
            drf,
            first: part.first,
            last: part.last,
            seq,
            ack: 0,
            right: 0,
            body: Bytes::copy_of(alloc, body)?,
        })
    }

    /// The PDU of the part at a place.
    fn pdu_of_part(
        &self,
        alloc: Global,
        now: Tick,
        seq: u32,
        parts: &[Part],
        place: usize,
        sdu: &[u8],
    ) -> Result<Pdu, Memory>
        requires place { place < length parts.now }
        requires within { LieWithin (length sdu.now) parts.now }
        ensures { IfOk result (λ pdu. (p : Part) → slice_get parts.now place ≡ Some p → pdu ≡ carry self.now.form.peer self.now.form.cube.id (record { number = seq; drf = flag_of now seq self.now.tx; part = part_in sdu.now p })) }
    {
        let body = body_of(sdu, parts, place);
        let drf = self.tx.has_flag(now, seq);
        self.pdu_of_piece(alloc, seq, drf, &parts[place], body)
    }

    /// The PDUs of all parts.
    fn make_pdus(
        &self,
        alloc: Global,
        now: Tick,
        first: u32,
        parts: &[Part],
        sdu: &[u8],
    ) -> Result<Pdus, Memory>
        requires within { LieWithin (length sdu.now) parts.now }
        requires fits { first + length parts.now ≤ 2 ^ 32 }
        requires few { length parts.now < 2 ^ 32 }
        ensures { IfOk result (λ pdus. pdus ≡ made_from (λ n. flag_of now n self.now.tx) (carry self.now.form.peer self.now.form.cube.id) first (map (part_in sdu.now) parts.now)) }
    {
        let mut pdus = Seq::new(alloc);
        for place in 0..parts.len() {
            pdus.push(self.pdu_of_part(alloc, now, first + place as u32, parts, place, sdu)?)?;
        }
        Ok(pdus)
    }

    fn check_window(&self, now: Tick, need: u32) -> Result<(), OfferError>
        ensures { ChecksWindow now need self.now result }
    {
        let room = self.tx.room(now);
        if matches!(self.form.cube.kind, Kind::Reliable) && need > room {
            return Err(OfferError::WindowShut { need, room });
        }
        Ok(())
    }

    /// The parts of an SDU that is not too long.
    fn cut(&self, alloc: Global, sdu: &[u8]) -> Result<Vec<Part>, OfferError>
        requires { length sdu.now ≤ 65535 }
        ensures ok { IfOk result (λ v. IsPartsOf (length sdu.now) self.now.form.piece v.items) }
        ensures err { IfErr result (λ e. e ≡ OfferError.Memory) }
    {
        Ok(cut(alloc, sdu.len() as u32, self.form.piece)?)
    }

    /// Takes the numbers of so many pieces, and tells the first of them.
    fn take_numbers(&self, now: Tick, count: u32) -> Result<(u32, Numbers), OfferError>
        requires now { now ≤ 10000000 }
        requires count { 1 ≤ count }
        ensures numbers { Numbered now count self.now result }
        ensures fits { IfOk result (λ n. n.0 + count ≤ 2 ^ 32) }
    {
        let mut numbers = self.numbers;
        match numbers.take(now, count, self.tx.idle(), self.form.delta()) {
            Ok(first) => Ok((first, numbers)),
            Err(spent) => Err(OfferError::NumbersSpent { until: spent.until }),
        }
    }

    /// Tries the refusals, and then takes the numbers, and nothing else.
    fn admit(&self, alloc: Global, now: Tick, sdu: &[u8]) -> Result<Admitted, OfferError>
        requires { now ≤ 10000000 }
        ensures admits { Admits now sdu.now self.now result }
        ensures parts { IfOk result (λ a. IsPartsOf (length sdu.now) self.now.form.piece a.parts.items) }
        ensures fits { IfOk result (λ a. a.first + length a.parts.items ≤ 2 ^ 32) }
    {
        self.check_length(sdu.len())?;
        let parts = self.cut(alloc, sdu)?;
        let count = parts.len() as u32;
        self.check_window(now, count)?;
        let (first, numbers) = self.take_numbers(now, count)?;
        Ok(Admitted {
            parts,
            first,
            numbers,
        })
    }

    /// Accepts an SDU for sending: all its pieces are made now, or none. Where it is refused, or an allocation fails,
    /// nothing changes.
    pub fn offer(&mut self, alloc: Global, now: Tick, sdu: &[u8]) -> Result<Made, OfferError>
        requires { now ≤ 10000000 }
        ensures { Offers now sdu.now self.old result self.new }
    {
        let admitted = self.admit(alloc, now, sdu)?;
        let first = admitted.first;
        let pdus = self.make_pdus(alloc, now, first, admitted.parts.as_slice(), sdu)?;
        self.tx.note_all(alloc, now, first, pdus.as_slice())?;
        self.numbers = admitted.numbers;
        let num = Num {
            cep: self.form.peer.scep,
            seq: u64::from(first),
        };
        Ok(Made { num, pdus })
    }

    /// Takes an acknowledgement. Takes no memory.
    pub fn on_control(&mut self, ack: u32, right: u32)
        ensures form { self.new.form ≡ self.old.form }
        ensures told { IsToldBy ack right self.old self.new }
    {
        self.tx.on_control(ack, right);
    }

    /// How many numbers may still be sent first; the greatest u32 on a cube that is not reliable. Takes no
    /// memory.
    pub fn room(&self, now: Tick) -> u32
        ensures { TellsRoom now self.now result }
    {
        match self.form.cube.kind {
            Kind::Reliable => self.tx.room(now),
            Kind::Datagram | Kind::Loose => u32::MAX,
        }
    }

    /// The next number; None exactly where the sender has no state. Takes no memory.
    pub fn next(&self, now: Tick) -> Option<u64>
        ensures { TellsNext now self.now result }
    {
        self.numbers.next(now, self.tx.idle(), self.form.delta())
    }

    /// Notes that a number is made again, where one is.
    fn note_again(&mut self, now: Tick)
        requires { now ≤ 10000000 }
        ensures numbers { NotesIf (is_some (position (is_due self.old.tx.cube now) self.old.tx.unacked)) now self.old.numbers self.new.numbers }
        ensures same { self.new ≡ record self.old { numbers = self.new.numbers } }
    {
        if self.tx.has_due(now) {
            self.numbers.again(now);
        }
    }

    /// The PDU of the least number that is sent again now, with which that number is marked as made now; None
    /// exactly where there is none, and then nothing changes. Takes no memory.
    pub fn again(&mut self, now: Tick) -> Option<&Pdu>
        requires { now ≤ 10000000 }
        ensures* { sem 𝓛 (LendsAgain now self.entry result) }
    {
        self.note_again(now);
        self.tx.due(now)
    }

    /// The PDU that `again` would give now; nothing changes. Takes no memory.
    pub fn again_due(&self, now: Tick) -> Option<&Pdu>
        ensures { TellsAgain now self.now (option_copied result) }
    {
        self.tx.next_due(now)
    }

    /// The least number that is given up now; None exactly where there is none. Takes no memory.
    pub fn gave_up(&self, now: Tick) -> Option<GaveUp>
        ensures { TellsGivenUp now self.now result }
    {
        self.tx.gave_up(now)
    }

    /// The first tick at which a number is sent again or given up, as long as nothing is offered and no acknowledgement
    /// comes; the greatest u32 where nothing is unacknowledged. Takes no memory.
    pub fn sends_none_until(&self) -> Tick
        ensures before { SendsNoneUntil result self.now }
        ensures from { SendsFrom result self.now }
    {
        self.tx.still_until()
    }
}
