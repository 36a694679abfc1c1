//! Numbers and receivers.
ghost use Rattle.rina_cube.specs.Cubes.{IsCube};

use rina_base::{Cause, Key, Memory, Num, PduKind, PduView};
use rina_cube::{Cube, Kind};
use rina_dtp::{Numbers, NumbersSpent, Rx, Verdict};
use std::alloc::Global;

/// Delta is 40.
const LOOSE: Cube = Cube {
    id: 2,
    kind: Kind::Loose,
    mpl: 40,
    r: 0,
    a: 0,
    retry: 0,
    window: 4,
    largest: 200,
};

/// Delta is 72.
const RELIABLE: Cube = Cube {
    id: 3,
    kind: Kind::Reliable,
    mpl: 30,
    r: 40,
    a: 2,
    retry: 10,
    window: 4,
    largest: 200,
};

/// A piece of CEP-id 3 at address 1.
const fn piece(seq: u32, drf: bool, first: bool, last: bool, body: &[u8]) -> PduView<'_> {
    PduView {
        kind: PduKind::Piece,
        dst: 2,
        src: 1,
        qos: 1,
        dcep: 5,
        scep: 3,
        drf,
        first,
        last,
        seq,
        ack: 0,
        right: 0,
        body,
    }
}

/// An SDU of one piece.
const fn whole(seq: u32, drf: bool, body: &[u8]) -> PduView<'_> {
    piece(seq, drf, true, true, body)
}

const fn key(seq: u32) -> Key {
    Key {
        kind: PduKind::Piece,
        src: 1,
        scep: 3,
        seq,
    }
}

const fn duplicate(seq: u64) -> Verdict {
    Verdict::Off(Cause::Duplicate {
        num: Num { cep: 3, seq },
    })
}

const ONE: Verdict = Verdict::Accept { whole: 1 };

const NONE: Verdict = Verdict::Accept { whole: 0 };

/// Whether a piece is told so.
fn came(rx: &mut Rx, now: u32, pdu: &PduView<'_>, wanted: Verdict) -> bool {
    now <= 1000 && rx.on_data(now, pdu, 0) == wanted
}

/// Whether a piece is refused for this cause.
fn is_off(rx: &mut Rx, now: u32, pdu: &PduView<'_>, cause: Cause) -> bool {
    came(rx, now, pdu, Verdict::Off(cause))
}

/// Whether the SDU that is fetched is this one.
fn fetched(rx: &mut Rx, first: u32, pieces: u32, bytes: &[u8]) -> bool {
    match rx.next_whole() {
        Some(sdu) => sdu.first == first && sdu.pieces == pieces && sdu.bytes == bytes,
        None => false,
    }
}

/// Whether new numbers up to 255 are spent until three delta after the last one.
fn are_spent(numbers: &mut Numbers) -> bool {
    numbers.next(0, true, 40).is_none()
        && numbers.take(0, 256, true, 40) == Ok(0)
        && numbers.take(0, 1, true, 40) == Err(NumbersSpent { until: 120 })
        && numbers.next(119, true, 40) == Some(256)
        && numbers.take(120, 1, false, 40) == Err(NumbersSpent { until: 120 })
        && numbers.take(120, 1, true, 40) == Ok(0)
}

/// Whether numbers go on until three delta after the last one was sent again.
fn go_on(numbers: &mut Numbers) -> bool {
    numbers.again(130);
    numbers.next(249, true, 40) == Some(1) && numbers.next(250, true, 40).is_none()
}

#[test]
fn numbers_begin_again_after_three_delta(rt: HostRuntime) {
    let mut numbers = Numbers::new(255);
    assert!(rt; are_spent(&mut numbers) && go_on(&mut numbers));
}

/// Whether an SDU is given up for want of its second piece.
fn is_broken(rx: &mut Rx) -> bool {
    let missing = Cause::Broken { missing: 1 };
    came(rx, 2, &piece(0, true, true, false, b"zz"), NONE)
        && rx.joining() == Some(0)
        && is_off(rx, 2, &piece(2, false, false, true, b"z"), missing)
        && rx.dropped(2) == Some((key(0), missing))
        && rx.dropped(2).is_none()
}

/// Whether a later SDU comes, and the lost piece comes too late.
fn goes_on(rx: &mut Rx) -> bool {
    came(rx, 2, &whole(3, false, b"next"), ONE)
        && fetched(rx, 3, 1, b"next")
        && is_off(rx, 2, &whole(1, false, b"x"), Cause::Behind { highest: 3 })
}

/// Whether a flow begins with a piece that has the flag.
fn begins(rx: &mut Rx) -> bool {
    rx.last_in().is_none()
        && is_off(rx, 2, &whole(2, false, b"c"), Cause::NoState { drf: false })
        && came(rx, 3, &whole(0, true, b"a"), ONE)
        && fetched(rx, 0, 1, b"a")
}

/// Whether pieces after a gap are held.
fn holds(rx: &mut Rx) -> bool {
    came(rx, 4, &piece(2, false, false, true, b"d"), Verdict::Hold)
        && came(rx, 4, &whole(3, false, b"e"), Verdict::Hold)
        && came(rx, 5, &whole(3, false, b"e"), duplicate(3))
        && rx.next(5) == Some(1)
}

/// Whether the piece in the gap would make two SDUs whole.
fn would_close(alloc: Global, rx: &Rx) -> bool {
    match rx.ahead(alloc, 6, &piece(1, false, true, false, b"bc"), 0) {
        Ok(bodies) => bodies.len() == 2,
        Err(Memory) => false,
    }
}

/// Whether the piece in the gap makes two SDUs whole.
fn closes_the_gap(rx: &mut Rx) -> bool {
    let two = Verdict::Accept { whole: 2 };
    came(rx, 6, &piece(1, false, true, false, b"bc"), two)
        && fetched(rx, 1, 2, b"bcd")
        && fetched(rx, 3, 1, b"e")
        && rx.next_whole().is_none()
        && rx.next(6) == Some(4)
        && rx.last_in() == Some(6)
}

/// Whether all is so at a new receiver of a kind.
fn all_goes(alloc: Global, rx: &mut Rx, kind: Kind) -> bool {
    match kind {
        Kind::Reliable => begins(rx) && holds(rx) && would_close(alloc, rx) && closes_the_gap(rx),
        _ => is_broken(rx) && goes_on(rx),
    }
}

/// Whether all is so at a new receiver of a cube.
fn goes(alloc: Global, cube: &Cube) -> bool
    requires { IsCube cube.now }
{
    match Rx::new(alloc, cube, 80) {
        Ok(mut rx) => all_goes(alloc, &mut rx, cube.kind),
        Err(Memory) => false,
    }
}

#[test]
fn a_lost_piece_breaks_its_sdu_and_a_reliable_flow_has_no_gap(rt: HostRuntime) {
    assert!(rt; goes(rt.alloc(), &LOOSE) && goes(rt.alloc(), &RELIABLE));
}
