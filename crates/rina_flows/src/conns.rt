//! Connections, each at the place of its end.
ghost use Rattle.std.specs.Prelude.{◌≡◌, ◌≤◌, ◌<◌, [], ◌∷◌, ◌++◌, length, slice_get, Some, List, MatchOption, IfSome, OnOk, OnErr};
ghost use Rattle.std.specs.Vec.{vec_capacity};
ghost use Rattle.rina_conn.specs.declared.conn.Conn.{Conn};
ghost use Rattle.rina_base.specs.Pdus.{pdu_of};
ghost use Rattle.rina_flows.specs.Delivering.{GivesUpAll, IsLanding, Receives, closed};
ghost use Rattle.rina_flows.specs.Calls.{Becomes, IsOffer, IsPass, IsTold, IsToldPeer};
ghost use Rattle.rina_flows.specs.Timely.{IsAcknowledged, IsSentAgain};
ghost use Rattle.rina_flows.specs.Quiet.{AreQuiet};
ghost use Rattle.rina_flows.specs.Watching.{AreIdleBeside};

use crate::arrival::{Notes, cause_of, receive, write_off};
use crate::guesses::Guesses;
use crate::watch::Watch;
use rina_account::Off;
use rina_base::{Addr, Bytes, Cause, Cep, Memory, PduView, Tick};
use rina_conn::{Conn, Made, OfferError};
use rina_dtp::Verdict;
use std::alloc::{AllocError, Global};
use std::marker::Model;

/// Connections, each at the place of its end. A contract sees the list of them.
#[derive(Drop)]
pub struct Conns {
    items: Vec<Conn>,
    /// Until when nothing is due at which of them.
    watch: Watch,
    /// Where the connection of an end may stand, so that no look-up walks over all of them.
    guesses: Guesses,
}

impl Model for Conns {
    ghost use Rattle.std.specs.Prelude.{List};
    ghost use Rattle.rina_conn.specs.declared.conn.Conn.{Conn};
    ghost use Rattle.rina_flows.specs.Quiet.{AreTimed};

    ghost Value = { List Conn };

    ghost view = { λ k. k.items.items };

    ghost invariant = { λ k. AreTimed k.watch.places.items k.watch.until k.watch.alarms k.items.items };
}

impl Conns {
    /// No connections yet.
    pub fn new(alloc: Global) -> Conns
        ensures { result ≡ [] }
    {
        Conns {
            items: Vec::new(alloc),
            watch: Watch::new(alloc),
            guesses: Guesses::new(alloc),
        }
    }

    /// The connection at a place, counted from 0. None where the place is out of range.
    pub fn get(&self, at: usize) -> Option<&Conn>
        ensures { MatchOption result (length self.now ≤ at) (λ k. slice_get self.now at ≡ Some k.now) }
    {
        self.items.get(at)
    }

    /// Offers an SDU to the connection at this place.
    pub fn offer(
        &mut self,
        alloc: Global,
        now: Tick,
        at: usize,
        sdu: &[u8],
    ) -> Result<Made, OfferError>
        requires now { now ≤ 10000000 }
        requires at { at < length self.old }
        ensures { Becomes (IsOffer now sdu.now result) at self.old self.new }
    {
        let conn = &mut self.items[at];
        let result = conn.offer(alloc, now, sdu);
        let quiet = conn.quiet_until();
        self.watch.note(at, quiet);
        result
    }

    /// How many connections there are.
    pub fn len(&self) -> usize
        ensures { result ≡ length self.now }
    {
        self.items.len()
    }

    /// The connection at a place that is there.
    pub fn at(&self, at: usize) -> &Conn
        requires { at < length self.now }
        ensures { slice_get self.now at ≡ Some result.now }
    {
        &self.items[at]
    }

    /// Notes that the next SDU of the connection at this place was passed, which begins with number `first` and has so
    /// many pieces. Takes no memory.
    pub fn pass(&mut self, now: Tick, at: usize, first: u32, pieces: u32)
        requires { at < length self.old }
        ensures { Becomes (IsPass now) at self.old self.new }
    {
        let conn = &mut self.items[at];
        conn.passed(now, first, pieces);
        let quiet = conn.quiet_until();
        self.watch.note(at, quiet);
    }

    /// Lets the connection at this place take an acknowledgement. Takes no memory.
    pub fn on_ack(&mut self, at: usize, pdu: &PduView<'_>)
        requires { at < length self.old }
        ensures { Becomes (IsTold (pdu_of pdu.now)) at self.old self.new }
    {
        let conn = &mut self.items[at];
        conn.on_control(pdu);
        let quiet = conn.quiet_until();
        self.watch.note(at, quiet);
    }

    /// Lets the connection at this place receive a piece, while `unpassed` SDUs wait to be passed. `bodies` are the
    /// bytes of the SDUs that it makes whole. Takes memory only where `notes` has no room.
    pub fn receive(
        &mut self,
        now: Tick,
        at: usize,
        pdu: &PduView<'_>,
        unpassed: u32,
        bodies: Vec<Bytes>,
        notes: &mut Notes,
    ) -> Verdict
        requires now { now ≤ 10000000 }
        requires at { at < length self.old }
        ensures capacity { vec_capacity notes.old.lines ≤ vec_capacity notes.new.lines }
        ensures becomes { Becomes (λ old new. Receives now (pdu_of pdu.now) unpassed old bodies.items notes.old.got.items (vec_capacity notes.old.got) notes.old.lines.items (vec_capacity notes.old.lines) result new notes.new.got.items notes.new.lines.items) at self.old self.new }
    {
        let conn = &mut self.items[at];
        let verdict = receive(conn, now, pdu, unpassed, bodies, notes);
        let quiet = conn.quiet_until();
        self.watch.note(at, quiet);
        verdict
    }

    /// Lets the connection at this place receive a piece, once there is room for all that can come of it.
    pub fn receive_with_room(
        &mut self,
        now: Tick,
        at: usize,
        pdu: &PduView<'_>,
        unpassed: u32,
        bodies: Vec<Bytes>,
        notes: &mut Notes,
    ) -> Result<Option<Cause>, Memory>
        requires now { now ≤ 10000000 }
        requires at { at < length self.old }
        ensures { IsLanding now (pdu_of pdu.now) unpassed at bodies.items self.old notes.old.got.items notes.old.lines.items result self.new notes.new.got.items notes.new.lines.items }
    {
        let kept = self.at(at).rx.kept();
        notes.make_room(bodies.len(), kept)?;
        let verdict = self.receive(now, at, pdu, unpassed, bodies, notes);
        let cause = cause_of(verdict);
        notes.write(pdu, cause);
        Ok(cause)
    }

    /// Notes that the acknowledgement that is due at the connection of this place was made. Takes no memory.
    pub fn acknowledged(&mut self, at: usize)
        requires { at < length self.old }
        ensures { Becomes IsAcknowledged at self.old self.new }
    {
        let conn = &mut self.items[at];
        conn.acknowledged();
        let quiet = conn.quiet_until();
        self.watch.note(at, quiet);
    }

    /// Notes that the number that is due at the connection of this place was sent again. Takes no memory.
    pub fn sent_again(&mut self, now: Tick, at: usize)
        requires now { now ≤ 10000000 }
        requires at { at < length self.old }
        ensures { Becomes (IsSentAgain now) at self.old self.new }
    {
        let conn = &mut self.items[at];
        conn.sent_again(now);
        let quiet = conn.quiet_until();
        self.watch.note(at, quiet);
    }

    /// Writes off what the connection at this place holds of a state that has ended. Takes memory only where `lines`
    /// has no room.
    pub fn forget(&mut self, now: Tick, at: usize, lines: &mut Vec<Off>)
        requires { at < length self.old }
        ensures { Becomes (GivesUpAll now (λ r. r) lines.old.items (vec_capacity lines.old) lines.new.items) at self.old self.new }
    {
        let conn = &mut self.items[at];
        write_off(&mut conn.rx, now, lines);
        let quiet = conn.quiet_until();
        self.watch.note(at, quiet);
    }

    /// Closes the connection at this place, and writes off what it holds. Takes memory only where `lines` has no room.
    pub fn close(&mut self, now: Tick, at: usize, lines: &mut Vec<Off>)
        requires { at < length self.old }
        ensures becomes { Becomes (GivesUpAll now closed lines.old.items (vec_capacity lines.old) lines.new.items) at self.old self.new }
        ensures capacity { vec_capacity lines.old ≤ vec_capacity lines.new }
    {
        let conn = &mut self.items[at];
        conn.close();
        write_off(&mut conn.rx, now, lines);
        let quiet = conn.quiet_until();
        self.watch.note(at, quiet);
    }

    /// Adds two connections, or none.
    pub fn push_both(&mut self, first: Conn, second: Conn) -> Result<(), AllocError>
        ensures ok { OnOk result (self.new ≡ self.old ++ first ∷ second ∷ []) }
        ensures err { OnErr result (self.new ≡ self.old) }
    {
        self.items.reserve(2)?;
        let at = self.items.len();
        self.guesses.add(first.sending.form.peer, at)?;
        self.guesses.add(second.sending.form.peer, at + 1)?;
        self.watch.reserve(at + 2)?;
        self.watch.note(at, first.quiet_until());
        self.watch.note(at + 1, second.quiet_until());
        self.items.push_reserved(first);
        self.items.push_reserved(second);
        Ok(())
    }

    /// Where the connection of an end with this address and this CEP-id may stand.
    pub fn guess(&self, own: Addr, cep: Cep) -> Option<usize> {
        self.guesses.place(own, cep)
    }

    /// Takes the last two connections away.
    pub fn pop_both(&mut self)
        ensures { (was : List Conn) (first second : Conn) → self.old ≡ was ++ first ∷ second ∷ [] → self.new ≡ was }
    {
        let _ = self.items.pop();
        self.watch.clear(self.items.len());
        let _ = self.items.pop();
        self.watch.clear(self.items.len());
    }

    /// Adds a connection. Without memory nothing changes.
    pub fn push_one(&mut self, conn: Conn) -> Result<(), AllocError>
        ensures ok { OnOk result (self.new ≡ self.old ++ conn ∷ []) }
        ensures err { OnErr result (self.new ≡ self.old) }
    {
        self.items.reserve(1)?;
        let at = self.items.len();
        self.guesses.add(conn.sending.form.peer, at)?;
        self.watch.reserve(at + 1)?;
        self.watch.note(at, conn.quiet_until());
        self.items.push_reserved(conn);
        Ok(())
    }

    /// Takes away the last connection. Takes no memory.
    pub fn pop_one(&mut self)
        ensures { (was : List Conn) (last : Conn) → self.old ≡ was ++ last ∷ [] → self.new ≡ was }
    {
        let _ = self.items.pop();
        self.watch.clear(self.items.len());
    }

    /// Tells the connection at a place the CEP-id of its far end. Takes no memory.
    pub fn tell(&mut self, at: usize, dcep: Cep)
        requires at { at < length self.old }
        ensures { Becomes (IsToldPeer dcep) at self.old self.new }
    {
        let conn = &mut self.items[at];
        conn.sending.form.peer.dcep = dcep;
        let quiet = conn.quiet_until();
        self.watch.note(at, quiet);
    }

    /// Finds the connections at which something is due at this tick, by their timers, so that `watched` can tell.
    pub fn settle(&mut self, now: Tick)
        ensures { self.new ≡ self.old }
    {
        self.watch.settle(now, self.items.as_slice());
    }

    /// The places beside which nothing is due at this tick. None where that is not known.
    pub fn watched(&self, now: Tick) -> Option<&[usize]>
        ensures { IfSome result (λ places. AreIdleBeside now places.now self.now) }
    {
        self.watch.places_at(now)
    }

    /// A tick before which nothing is due at any connection.
    pub fn quiet_until(&self) -> Tick
        ensures { AreQuiet result self.now }
    {
        self.watch.quiet_until(self.items.as_slice())
    }
}
