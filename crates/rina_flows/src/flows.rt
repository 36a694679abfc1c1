//! The flows of a DIF.
ghost use Rattle.std.specs.Prelude.{◌≡◌, ◌≤◌, ◌<◌, ◌-◌, ◌^◌, min, [], ◌∷◌, ◌++◌, length, slice_get, slice_set, Some, IsTrue, ◌↔◌, OnOk, OnErr};
ghost use Rattle.std.specs.Vec.{vec_capacity};
ghost use Rattle.rina_base.specs.Pdus.{pdu_of};
ghost use Rattle.rina_conn.specs.Sending.{TellsRoom};
ghost use Rattle.rina_cube.specs.Cubes.{IsCube};
ghost use Rattle.rina_dif_law.specs.Ids.{IsFrom, flipped};
ghost use Rattle.rina_flows.specs.Adding.{Adds, AddsAsker, AddsFar, Binds, turned};
ghost use Rattle.rina_flows.specs.Calls.{Becomes, IsToldPeer, Offered, Offers, PassesOne, TakenBy, Takes, TakesHere, Tells, TellsNeed, TellsNext, TellsOne};
ghost use Rattle.rina_dtp.specs.Receiving.{kept_numbers};
ghost use Rattle.rina_iface.specs.declared.ends.End.{End};
ghost use Rattle.rina_iface.specs.declared.state.PortState.TheVariants.{Allocated};
ghost use Rattle.rina_flows.specs.Delivering.{ArrivesIn, ForgetsIn, StopsIn, StopsWithin};
ghost use Rattle.rina_flows.specs.Elsewhere.{ChangesAt, SameBut};
ghost use Rattle.rina_flows.specs.Tied.{IsAt, conns_of, ids_of};

use crate::arrival::Notes;
use crate::conns::Conns;
use rina_account::{Ledger, Off};
use rina_base::{Bytes, Cause, Cep, Memory, PduView, Tick};
use rina_conn::{Conn, Form, Made, OfferError, Peer};
use rina_cube::Cube;
use rina_iface::{End, Ends, Entry, Journal, PortState};
use std::alloc::{AllocError, Global};

/// The flows of a DIF: the journal of their ends, and the connection of each end, at the place of the end.
#[derive(Drop)]
pub struct Flows {
    pub journal: Journal,
    pub conns: Conns,
}

/// Offers an SDU to the connection at a place, and notes it behind what its end sent.
fn offer_noted(
    conns: &mut Conns,
    alloc: Global,
    now: Tick,
    at: usize,
    sdu: &[u8],
    sent: &mut Vec<Entry>,
) -> Result<Made, OfferError>
    requires now { now ≤ 10000000 }
    requires at { at < length conns.old }
    ensures { Offered now at sdu.now conns.old sent.old.items result conns.new sent.new.items }
{
    let bytes = Bytes::copy_of(alloc, sdu)?;
    sent.reserve(1)?;
    let made = conns.offer(alloc, now, at, sdu)?;
    sent.push_reserved(Entry {
        tick: now,
        num: made.num,
        bytes,
    });
    Ok(made)
}

/// The two ends of a connection by the far one.
fn turned(peer: Peer) -> Peer
    ensures { result ≡ turned peer }
{
    Peer {
        own: peer.far,
        far: peer.own,
        scep: peer.dcep,
        dcep: peer.scep,
    }
}

/// How many pieces an SDU of `len` bytes has.
fn pieces(form: &Form, len: u32) -> u32
    ensures { TellsNeed len form.now.piece result }
{
    len.saturating_sub(1) / form.piece + 1
}

/// The number with which the SDU begins that an end passes next, and how many pieces it has.
fn next_passed(end: &End, form: &Form) -> (u32, u32)
    ensures { TellsNext end.now form.now result }
{
    match end.got.get(end.taken as usize) {
        Some(entry) => {
            let len = entry.bytes.len() as u64;
            (narrow(entry.num.seq), pieces(form, narrow(len)))
        }
        None => (0, 0),
    }
}

/// The number itself, or the greatest u32 where it is greater.
fn narrow(number: u64) -> u32
    ensures { result ≡ min number (2 ^ 32 - 1) }
{
    number.min(u64::from(u32::MAX)) as u32
}

/// Whether a PDU bears the names of the far end of a connection.
fn is_from_far(conn: &Conn, pdu: &PduView<'_>) -> bool
    ensures { IsTrue result ↔ IsFrom (flipped (ids_of conn.now)) (pdu_of pdu.now) }
{
    let peer = conn.sending.form.peer;
    pdu.src == peer.far
        && pdu.dst == peer.own
        && pdu.scep == peer.dcep
        && pdu.dcep == peer.scep
        && pdu.qos == conn.sending.form.cube.id
}

/// Whether an end and its connection take the PDU.
fn takes(end: &End, conn: &Conn, pdu: &PduView<'_>) -> bool
    ensures { IsTrue result ↔ Takes end.now conn.now (pdu_of pdu.now) }
{
    matches!(end.state, PortState::Allocated) && is_from_far(conn, pdu)
}

impl Flows {
    /// No flows yet.
    pub fn new(alloc: Global) -> Flows
        ensures ends { result.journal.ends ≡ [] }
        ensures conns { result.conns ≡ [] }
    {
        Flows {
            journal: Journal {
                ends: Ends::new(alloc),
            },
            conns: Conns::new(alloc),
        }
    }

    /// Offers an SDU at the end of a place, counted from 0, at a tick of at most 10,000,000: it is noted as sent, and
    /// all its pieces are made, or none. A refusal, `Memory` too, changes nothing.
    pub fn offer(
        &mut self,
        alloc: Global,
        now: Tick,
        at: usize,
        sdu: &[u8],
    ) -> Result<Made, OfferError>
        requires now { now ≤ 10000000 }
        requires end { at < length self.old.journal.ends }
        requires conn { at < length self.old.conns }
        ensures offers { Offers now at sdu.now self.old result self.new }
        ensures leaves { ChangesAt (λ i. i ≡ at) self.old self.new }
    {
        let mut sent = self.journal.ends.take_sent(alloc, at);
        let result = offer_noted(&mut self.conns, alloc, now, at, sdu, &mut sent);
        self.journal.ends.put_sent(at, sent);
        result
    }

    /// How many pieces an SDU of `len` bytes has on the connection at a place that is there.
    pub fn need(&self, at: usize, len: u32) -> u32
        requires { at < length self.now.conns }
        ensures { Tells (λ k. TellsNeed len k.sending.form.piece result) at self.now.conns }
    {
        pieces(&self.conns.at(at).sending.form, len)
    }

    /// How many pieces the window of the connection at a place admits; the greatest u32 on a cube that is not
    /// reliable. Takes no memory.
    pub fn room(&self, now: Tick, at: usize) -> u32
        requires { at < length self.now.conns }
        ensures { Tells (λ k. TellsRoom now k.sending result) at self.now.conns }
    {
        self.conns.at(at).room(now)
    }

    /// The number with which the SDU begins that the end at a place passes next, and how many pieces it has.
    fn next_passed(&self, at: usize) -> (u32, u32)
        requires { at < length self.now.conns }
        ensures { (e : End) (k : Conn) → IsAt self.now.journal.ends self.now.conns at e k → TellsNext e k.sending.form result }
    {
        let form = &self.conns.at(at).sending.form;
        match self.journal.ends.get(at) {
            Some(end) => next_passed(end, form),
            None => (0, 0),
        }
    }

    /// Passes the oldest SDU of the end at a place, where one waits. Takes no memory.
    pub fn pass(&mut self, now: Tick, at: usize)
        requires end { at < length self.old.journal.ends }
        requires conn { at < length self.old.conns }
        requires waits { (e : End) → slice_get self.old.journal.ends at ≡ Some e → e.taken < length e.got }
        ensures passes { PassesOne now at self.old self.new }
        ensures leaves { ChangesAt (λ i. i ≡ at) self.old self.new }
    {
        let (first, pieces) = self.next_passed(at);
        self.conns.pass(now, at, first, pieces);
        self.journal.ends.pass(at);
    }

    /// Lets the connection at a place take an acknowledgement. Takes no memory.
    pub fn on_ack(&mut self, at: usize, pdu: &PduView<'_>)
        requires { at < length self.old.conns }
        ensures told { TellsOne at (pdu_of pdu.now) self.old self.new }
        ensures ends { self.new.journal.ends ≡ self.old.journal.ends }
        ensures leaves { ChangesAt (λ i. i ≡ at) self.old self.new }
    {
        self.conns.on_ack(at, pdu);
    }

    /// Whether an allocated end stands at a place, and its connection has the two addresses, the two CEP-ids and the QoS-id of
    /// a PDU. Takes no memory.
    pub fn takes(&self, at: usize, pdu: &PduView<'_>) -> bool
        ensures { IsTrue result ↔ TakesHere self.now.journal.ends self.now.conns at (pdu_of pdu.now) }
    {
        match (self.journal.ends.get(at), self.conns.get(at)) {
            (Some(end), Some(conn)) => takes(end, conn, pdu),
            _ => false,
        }
    }

    /// The same as `taker`, by a look at each place.
    fn taker_of_all(&self, pdu: &PduView<'_>) -> Option<usize>
        ensures { TakenBy self.now.journal.ends (conns_of self.now.conns) (pdu_of pdu.now) result }
    {
        for at in 0..self.conns.len() {
            if self.takes(at, pdu) {
                return Some(at);
            }
        }
        None
    }

    /// The place of the allocated end whose connection has the two addresses, the two CEP-ids and the QoS-id of
    /// a PDU; None exactly where there is none. Takes no memory.
    pub fn taker(&self, pdu: &PduView<'_>) -> Option<usize>
        ensures { TakenBy self.now.journal.ends (conns_of self.now.conns) (pdu_of pdu.now) result }
    {
        if let Some(at) = self.conns.guess(pdu.dst, pdu.dcep) {
            if self.takes(at, pdu) {
                return Some(at);
            }
        }
        self.taker_of_all(pdu)
    }

    /// How many SDUs of the end at a place wait to be passed, counted up to the greatest u32.
    pub fn unpassed(&self, at: usize) -> u32
        ensures { (e : End) → slice_get self.now.journal.ends at ≡ Some e → result ≡ min (length e.got - e.taken) (2 ^ 32 - 1) }
    {
        match self.journal.ends.get(at) {
            Some(end) => {
                let waiting = (end.got.len() as u64).saturating_sub(end.taken);
                narrow(waiting)
            }
            None => 0,
        }
    }

    /// A piece comes to the connection at a place, at a tick of at most 10,000,000: pieces of a state that has ended
    /// are written off; the piece is accepted, held, or written off; the SDUs that it makes whole are delivered, with
    /// this tick; and pieces of broken SDUs are written off. The lines stand in the ledger in that order, that of the
    /// piece itself last. Answers why it is written off, if it is. Without memory nothing changes.
    pub fn on_data(
        &mut self,
        alloc: Global,
        now: Tick,
        at: usize,
        pdu: &PduView<'_>,
        ledger: &mut Ledger,
    ) -> Result<Option<Cause>, Memory>
        requires now { now ≤ 10000000 }
        requires end { at < length self.old.journal.ends }
        requires conn { at < length self.old.conns }
        ensures arrives { ArrivesIn now at (pdu_of pdu.now) self.old ledger.old result self.new ledger.new }
        ensures leaves { ChangesAt (λ i. i ≡ at) self.old self.new }
    {
        let unpassed = self.unpassed(at);
        let bodies = self.conns.at(at).rx.ahead(alloc, now, pdu, unpassed)?;
        let mut notes = Notes {
            got: self.journal.ends.take_got(alloc, at),
            lines: ledger.take(alloc),
        };
        let bodies = bodies.into_vec();
        let result = self
            .conns
            .receive_with_room(now, at, pdu, unpassed, bodies, &mut notes);
        self.journal.ends.put_got(at, notes.got);
        ledger.put(notes.lines);
        result
    }

    /// Writes off the pieces that the connection at a place holds of a state that has ended, and answers whether
    /// there were any. Without memory nothing changes.
    pub fn forget(
        &mut self,
        alloc: Global,
        now: Tick,
        at: usize,
        ledger: &mut Ledger,
    ) -> Result<bool, Memory>
        requires { at < length self.old.conns }
        ensures forgets { ForgetsIn now at self.old ledger.old result self.new ledger.new }
        ensures leaves { ChangesAt (λ i. i ≡ at) self.old self.new }
    {
        let rx = &self.conns.at(at).rx;
        let kept = rx.kept();
        if rx.present(now) || kept == 0 {
            return Ok(false);
        }
        let mut lines = ledger.take(alloc);
        match lines.reserve(kept as usize) {
            Ok(()) => {
                self.conns.forget(now, at, &mut lines);
                ledger.put(lines);
                Ok(true)
            }
            Err(AllocError) => {
                ledger.put(lines);
                Err(Memory)
            }
        }
    }

    /// How many pieces the connection at a place holds. Takes no memory.
    pub fn kept(&self, at: usize) -> u64
        requires { at < length self.now.conns }
        ensures { Tells (λ k. result ≡ length (kept_numbers k.rx)) at self.now.conns }
    {
        self.conns.at(at).rx.kept()
    }

    /// Ends the end at a place with a state other than `Allocated`, and writes off what its connection holds behind
    /// these lines. Takes memory only where they have no room.
    pub fn stop_with_room(&mut self, now: Tick, at: usize, state: PortState, lines: &mut Vec<Off>)
        requires end { at < length self.old.journal.ends }
        requires conn { at < length self.old.conns }
        ensures stops { StopsWithin now at state self.old lines.old.items (vec_capacity lines.old) self.new lines.new.items }
        ensures leaves { ChangesAt (λ i. i ≡ at) self.old self.new }
        ensures capacity { vec_capacity lines.old ≤ vec_capacity lines.new }
    {
        self.conns.close(now, at, lines);
        self.journal.ends.set_state(at, state);
    }

    /// Ends the end at a place with a state other than `Allocated`, and writes off what its connection holds. Without
    /// memory nothing changes.
    pub fn stop(
        &mut self,
        alloc: Global,
        now: Tick,
        at: usize,
        state: PortState,
        ledger: &mut Ledger,
    ) -> Result<(), Memory>
        requires end { at < length self.old.journal.ends }
        requires conn { at < length self.old.conns }
        ensures stops { StopsIn now at state self.old ledger.old result self.new ledger.new }
        ensures leaves { ChangesAt (λ i. i ≡ at) self.old self.new }
    {
        let kept = self.conns.at(at).rx.kept();
        let mut lines = ledger.take(alloc);
        match lines.reserve(kept as usize) {
            Ok(()) => {
                self.conns.close(now, at, &mut lines);
                ledger.put(lines);
                self.journal.ends.set_state(at, state);
                Ok(())
            }
            Err(AllocError) => {
                ledger.put(lines);
                Err(Memory)
            }
        }
    }

    /// Adds both ends of a flow, with new connections of a cube for pieces of at most `piece` bytes and numbers up to
    /// `max`. `peer` is by the asker. Without memory nothing changes.
    pub fn add(
        &mut self,
        alloc: Global,
        cube: &Cube,
        piece: u32,
        max: u32,
        peer: Peer,
        asker: End,
        far: End,
    ) -> Result<(), Memory>
        requires cube { IsCube cube.now }
        requires piece { 1 ≤ piece }
        ensures ends { OnOk result (self.new.journal.ends ≡ self.old.journal.ends ++ asker ∷ far ∷ []) }
        ensures adds { OnOk result (Adds cube.now piece max peer asker far self.old self.new) }
        ensures keeps { OnOk result (SameBut (λ i. length self.old.conns ≤ i) self.old.conns self.new.conns) }
        ensures err { OnErr result (self.new ≡ self.old) }
    {
        let conn = Conn::new(alloc, cube, piece, max, peer)?;
        let its = Conn::new(alloc, cube, piece, max, turned(peer))?;
        self.conns.push_both(conn, its)?;
        match self.journal.ends.push_both(asker, far) {
            Ok(()) => Ok(()),
            Err(AllocError) => {
                self.conns.pop_both();
                Err(Memory)
            }
        }
    }

    /// Adds one end of a flow of a cube, with its connection: that of the asker, whose far end is not known yet, or a far end whose
    /// asker stands elsewhere. Without memory nothing changes.
    pub fn add_end(
        &mut self,
        alloc: Global,
        cube: &Cube,
        piece: u32,
        max: u32,
        peer: Peer,
        end: End,
    ) -> Result<(), Memory>
        requires cube { IsCube cube.now }
        requires piece { 1 ≤ piece }
        ensures ends { OnOk result (self.new.journal.ends ≡ self.old.journal.ends ++ end ∷ []) }
        ensures asks { OnOk result (AddsAsker cube.now piece max peer end self.old self.new) }
        ensures answers { OnOk result (AddsFar cube.now piece max peer end self.old self.new) }
        ensures keeps { OnOk result (SameBut (λ i. length self.old.conns ≤ i) self.old.conns self.new.conns) }
        ensures err { OnErr result (self.new ≡ self.old) }
    {
        let conn = Conn::new(alloc, cube, piece, max, peer)?;
        self.conns.push_one(conn)?;
        match self.journal.ends.push(end) {
            Ok(()) => Ok(()),
            Err(AllocError) => {
                self.conns.pop_one();
                Err(Memory)
            }
        }
    }

    /// Lets the end at a place be allocated, which waited for its answer: its connection knows the CEP-id of the far end from now on.
    /// Takes no memory.
    pub fn bind(&mut self, at: usize, dcep: Cep)
        requires at { at < length self.old.conns }
        requires end { at < length self.old.journal.ends }
        ensures binds { Binds at dcep self.old self.new }
        ensures conns { Becomes (IsToldPeer dcep) at self.old.conns self.new.conns }
        ensures ends { (end : End) → slice_get self.old.journal.ends at ≡ Some end → self.new.journal.ends ≡ slice_set self.old.journal.ends at (record end { state = Allocated }) }
    {
        self.conns.tell(at, dcep);
        self.journal.ends.set_state(at, PortState::Allocated);
    }
}
