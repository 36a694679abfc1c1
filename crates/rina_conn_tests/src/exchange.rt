//! An exchange between the two ends of a connection, step by step; what is in flight is carried by hand.
ghost use Rattle.std.specs.Prelude.{◌≤◌};
ghost use Rattle.rina_cube.specs.Cubes.{IsCube};

use rina_base::{Cause, Cep, Memory, Num, Pdu, PduKind, PduView, Tick};
use rina_conn::{Conn, ConnDue, Made, OfferError, Peer};
use rina_cube::{Cube, Kind};
use rina_dtcp::GaveUp;
use rina_dtp::Verdict;
use std::alloc::Global;

const NEAR_CEP: Cep = 5;

const NEAR: Peer = Peer {
    own: 1,
    far: 2,
    scep: NEAR_CEP,
    dcep: 7,
};

const FAR: Peer = Peer {
    own: 2,
    far: 1,
    scep: 7,
    dcep: NEAR_CEP,
};

/// Delta is 40.
const DATAGRAM: Cube = Cube {
    id: 1,
    kind: Kind::Datagram,
    mpl: 40,
    r: 0,
    a: 0,
    retry: 0,
    window: 16,
    largest: 80,
};

/// Delta is 40.
const LOOSE: Cube = Cube {
    id: 2,
    kind: Kind::Loose,
    mpl: 40,
    r: 0,
    a: 0,
    retry: 0,
    window: 16,
    largest: 240,
};

/// Delta is 72.
const RELIABLE: Cube = Cube {
    id: 3,
    kind: Kind::Reliable,
    mpl: 40,
    r: 30,
    a: 2,
    retry: 10,
    window: 4,
    largest: 240,
};

const BYTES: [u8; 400] = [7; 400];

/// A piece of an SDU that was offered, by their places, while so many SDUs wait to be passed.
#[derive(Clone, Copy)]
pub struct Coming(pub usize, pub usize, pub u32);

/// What happens, and what is told then. The near end sends, and the far end receives.
#[derive(Clone, Copy)]
pub enum Event {
    /// A connection of a kind begins anew.
    Anew(Kind),
    /// So many bytes are offered. The number of the SDU is told.
    Offer(usize, Result<u64, OfferError>),
    /// So many SDUs of one byte are offered, and have the numbers from 0.
    OfferAll(u64),
    /// A piece comes.
    Come(Coming, Verdict),
    /// It is asked how many SDUs would be whole with a piece.
    Ahead(Coming, usize),
    /// An SDU is fetched. The number with which it begins is told.
    Fetch(Option<u32>),
    Pass,
    /// An acknowledgement is made, where one is due, and comes at once.
    Acknowledge(Option<(u32, u32)>),
    /// The number and the data run flag of the piece that is made again are told.
    Again(Option<(u32, bool)>),
    GiveUp(Option<GaveUp>),
    /// Whether state has ended.
    End(bool),
    Drop(Option<Cause>),
    /// The number of pieces that were kept is told.
    Close(u32),
    /// The next number is told.
    Sender(Option<u64>),
    Receiver(Option<u64>),
    /// It is asked until when nothing is due at the near end.
    SenderQuiet(Tick),
    /// And at the far end.
    ReceiverQuiet(Tick),
}

/// A tick, and what happens then.
pub type Step = (Tick, Event);

/// The two ends, and what was offered.
#[derive(Drop)]
struct Ends {
    near: Conn,
    far: Conn,
    made: Vec<Made>,
}

/// A PDU as it is read at the far end.
fn view(pdu: &Pdu) -> PduView<'_> {
    PduView {
        kind: pdu.kind,
        dst: pdu.dst,
        src: pdu.src,
        qos: pdu.qos,
        dcep: pdu.dcep,
        scep: pdu.scep,
        drf: pdu.drf,
        first: pdu.first,
        last: pdu.last,
        seq: pdu.seq,
        ack: pdu.ack,
        right: pdu.right,
        body: pdu.body.as_slice(),
    }
}

/// An acknowledgement as it is read at the near end.
fn acknowledgement(ack: u32, right: u32) -> PduView<'static> {
    PduView {
        kind: PduKind::Ack,
        dst: 1,
        src: 2,
        qos: 3,
        dcep: NEAR_CEP,
        scep: 7,
        drf: false,
        first: false,
        last: false,
        seq: 0,
        ack,
        right,
        body: &[],
    }
}

/// The PDU of a piece of an SDU that was offered.
fn piece_of(made: &[Made], coming: Coming) -> Option<&Pdu> {
    made.get(coming.0)?.pdus.get(coming.1)
}

/// The cube of a kind.
fn cube_of(kind: Kind) -> Cube
    ensures { IsCube result }
{
    match kind {
        Kind::Datagram => DATAGRAM,
        Kind::Loose => LOOSE,
        Kind::Reliable => RELIABLE,
    }
}

/// A connection of a kind, with numbers up to 255.
fn conn(alloc: Global, kind: Kind, peer: Peer) -> Result<Conn, Memory> {
    let cube = cube_of(kind);
    Conn::new(alloc, &cube, 80, 255, peer)
}

/// Whether a number of the near end is the one that is wanted.
fn is_numbered(num: Num, wanted: Result<u64, OfferError>) -> bool {
    num.cep == NEAR_CEP && wanted == Ok(num.seq)
}

impl Ends {
    /// Begins anew on a cube of a kind.
    fn begin(&mut self, alloc: Global, kind: Kind) -> Result<(), Memory> {
        self.near = conn(alloc, kind, NEAR)?;
        self.far = conn(alloc, kind, FAR)?;
        self.made.clear();
        Ok(())
    }

    fn offer(
        &mut self,
        alloc: Global,
        now: Tick,
        len: usize,
        wanted: Result<u64, OfferError>,
    ) -> bool
        requires { now ≤ 10000000 }
    {
        if len > BYTES.len() {
            return false;
        }
        match self.near.offer(alloc, now, &BYTES[..len]) {
            Ok(made) => {
                let num = made.num;
                self.made.push(made).is_ok() && is_numbered(num, wanted)
            }
            Err(refused) => wanted == Err(refused),
        }
    }

    fn offer_all(&mut self, alloc: Global, now: Tick, count: u64) -> bool
        requires { now ≤ 10000000 }
    {
        for seq in 0..count {
            if !self.offer(alloc, now, 1, Ok(seq)) {
                return false;
            }
        }
        true
    }

    fn come(&mut self, now: Tick, coming: Coming, wanted: Verdict) -> bool
        requires { now ≤ 10000000 }
    {
        match piece_of(self.made.as_slice(), coming) {
            Some(pdu) => self.far.on_data(now, &view(pdu), coming.2) == wanted,
            None => false,
        }
    }

    fn ahead(&self, alloc: Global, now: Tick, coming: Coming, wanted: usize) -> bool
        requires { now ≤ 10000000 }
    {
        let Some(pdu) = piece_of(self.made.as_slice(), coming) else {
            return false;
        };
        match self.far.ahead(alloc, now, &view(pdu), coming.2) {
            Ok(bodies) => bodies.len() == wanted,
            Err(Memory) => false,
        }
    }

    fn fetch(&mut self, wanted: Option<u32>) -> bool {
        match self.far.next_whole() {
            Some(sdu) => wanted == Some(sdu.first),
            None => wanted.is_none(),
        }
    }

    fn pass(&mut self, now: Tick) -> bool {
        self.far.passed(now, 0, 1);
        true
    }

    fn acknowledge(&mut self, now: Tick, wanted: Option<(u32, u32)>) -> bool
        requires { now ≤ 10000000 }
    {
        match self.far.on_clock(now, 6) {
            ConnDue::Ack { ack, right } => {
                self.near.on_control(&acknowledgement(ack, right));
                wanted == Some((ack, right))
            }
            _ => wanted.is_none(),
        }
    }

    fn again(&mut self, now: Tick, wanted: Option<(u32, bool)>) -> bool
        requires { now ≤ 10000000 }
    {
        match self.near.on_clock(now, 7) {
            ConnDue::Again(pdu) => wanted == Some((pdu.seq, pdu.drf)),
            _ => wanted.is_none(),
        }
    }

    fn give_up(&mut self, now: Tick, wanted: Option<GaveUp>) -> bool
        requires { now ≤ 10000000 }
    {
        match self.near.on_clock(now, 4) {
            ConnDue::GaveUp(told) => wanted == Some(told),
            _ => wanted.is_none(),
        }
    }

    fn end(&mut self, now: Tick, wanted: bool) -> bool
        requires { now ≤ 10000000 }
    {
        matches!(self.far.on_clock(now, 3), ConnDue::Gone) == wanted
    }

    fn drop_one(&mut self, now: Tick, wanted: Option<Cause>) -> bool {
        match self.far.dropped(now) {
            Some((_, cause)) => wanted == Some(cause),
            None => wanted.is_none(),
        }
    }

    /// Does what an event says, and tells whether it goes as it is to.
    fn goes(&mut self, alloc: Global, now: Tick, event: Event) -> bool
        requires { now ≤ 10000000 }
    {
        match event {
            Event::Anew(kind) => self.begin(alloc, kind).is_ok(),
            Event::Offer(len, wanted) => self.offer(alloc, now, len, wanted),
            Event::OfferAll(count) => self.offer_all(alloc, now, count),
            Event::Come(coming, wanted) => self.come(now, coming, wanted),
            Event::Ahead(coming, wanted) => self.ahead(alloc, now, coming, wanted),
            Event::Fetch(wanted) => self.fetch(wanted),
            Event::Pass => self.pass(now),
            Event::Acknowledge(wanted) => self.acknowledge(now, wanted),
            Event::Again(wanted) => self.again(now, wanted),
            Event::GiveUp(wanted) => self.give_up(now, wanted),
            Event::End(wanted) => self.end(now, wanted),
            Event::Drop(wanted) => self.drop_one(now, wanted),
            Event::Close(wanted) => self.far.close() == wanted,
            Event::Sender(wanted) => self.near.tx_next(now) == wanted,
            Event::Receiver(wanted) => self.far.rx_next(now) == wanted,
            Event::SenderQuiet(wanted) => self.near.quiet_until() == wanted,
            Event::ReceiverQuiet(wanted) => self.far.quiet_until() == wanted,
        }
    }

    /// The place of the first step that does not go as it is to.
    fn first_difference(&mut self, alloc: Global, steps: &[Step]) -> Option<usize> {
        for (place, (now, event)) in steps.iter().enumerate() {
            if *now > 1000 || !self.goes(alloc, *now, *event) {
                return Some(place);
            }
        }
        None
    }
}

/// The two ends of a connection on a datagram cube.
fn new_ends(alloc: Global) -> Result<Ends, Memory> {
    Ok(Ends {
        near: conn(alloc, Kind::Datagram, NEAR)?,
        far: conn(alloc, Kind::Datagram, FAR)?,
        made: Vec::new(alloc),
    })
}

/// Goes through exchanges, and tells the place of the first step that does not go as it is to.
pub fn first_difference(alloc: Global, steps: &[Step]) -> Option<usize> {
    match new_ends(alloc) {
        Ok(mut ends) => ends.first_difference(alloc, steps),
        Err(Memory) => Some(0),
    }
}
