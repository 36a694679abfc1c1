//! Senders and the plan of acknowledgements.
use rina_base::{Bytes, Memory, Num, Pdu, PduKind, Tick};
use rina_cube::{Cube, Kind};
use rina_dtcp::{AckPlan, GaveUp, Tx};
use std::alloc::Global;

const RELIABLE: Cube = Cube {
    id: 3,
    kind: Kind::Reliable,
    mpl: 40,
    r: 30,
    a: 2,
    retry: 10,
    window: 4,
    largest: 240,
};

/// A piece of a number.
fn piece(alloc: Global, seq: u32) -> Result<Pdu, Memory> {
    Ok(Pdu {
        kind: PduKind::Piece,
        dst: 2,
        src: 1,
        qos: 3,
        dcep: 5,
        scep: 7,
        drf: seq == 0,
        first: true,
        last: true,
        seq,
        ack: 0,
        right: 0,
        body: Bytes::copy_of(alloc, b"sdu")?,
    })
}

/// Whether it is noted that a piece of a number was sent.
fn notes_sent(alloc: Global, tx: &mut Tx, now: Tick, seq: u32) -> bool {
    match piece(alloc, seq) {
        Ok(pdu) => tx.note_sent(alloc, now, seq, &pdu).is_ok(),
        Err(Memory) => false,
    }
}

/// The number of the piece that is made again.
fn due(tx: &mut Tx, now: Tick) -> Option<u32> {
    Some(tx.due(now)?.seq)
}

/// Whether a new sender has its whole window.
fn is_new(tx: &Tx) -> bool {
    tx.idle() && tx.room(0) == 4
}

/// Whether piece 0 is made again each ten ticks, up to 32 after it was sent.
fn is_made_again(tx: &mut Tx) -> bool {
    !tx.idle()
        && tx.room(0) == 3
        && due(tx, 9).is_none()
        && due(tx, 10) == Some(0)
        && due(tx, 10).is_none()
        && due(tx, 25) == Some(0)
        && due(tx, 35).is_none()
}

/// Whether piece 0 is given up.
fn is_given_up(tx: &Tx) -> bool {
    let told = GaveUp {
        num: Num { cep: 7, seq: 0 },
        first: 0,
        now: 112,
    };
    tx.gave_up(111).is_none() && tx.gave_up(112) == Some(told)
}

/// Whether a piece is made again and given up.
fn piece_goes(alloc: Global, tx: &mut Tx) -> bool {
    is_new(tx) && notes_sent(alloc, tx, 0, 0) && is_made_again(tx) && is_given_up(tx)
}

/// Whether an acknowledgement of piece 0 opens the window to number 4, and an older one does nothing.
fn opens_to_4(tx: &mut Tx) -> bool {
    tx.on_control(0, 4);
    tx.on_control(0, 3);
    tx.room(7) == 3 && due(tx, 16) == Some(1)
}

/// Whether one of piece 1 opens the window to number 9, until three delta have passed.
fn opens_to_9(tx: &mut Tx) -> bool {
    tx.on_control(1, 9);
    tx.idle() && tx.room(231) == 8 && tx.room(232) == 4 && tx.gave_up(300).is_none()
}

/// Whether acknowledgements of two pieces open the window.
fn window_goes(alloc: Global, tx: &mut Tx) -> bool {
    notes_sent(alloc, tx, 5, 0) && notes_sent(alloc, tx, 6, 1) && opens_to_4(tx) && opens_to_9(tx)
}

/// Whether a sender goes so, with acknowledgements or without.
fn all_goes(alloc: Global, tx: &mut Tx, acknowledged: bool) -> bool {
    if acknowledged {
        window_goes(alloc, tx)
    } else {
        piece_goes(alloc, tx)
    }
}

/// Whether a new sender does.
fn goes(alloc: Global, acknowledged: bool) -> bool {
    match Tx::new(alloc, &RELIABLE, 255) {
        Ok(mut tx) => all_goes(alloc, &mut tx, acknowledged),
        Err(Memory) => false,
    }
}

#[test]
fn a_piece_is_made_again_and_given_up_or_acknowledged(rt: HostRuntime) {
    assert!(rt; goes(rt.alloc(), false) && goes(rt.alloc(), true));
}

/// Whether an acknowledgement is made two ticks after the first piece that it is for.
fn is_in_time(plan: &mut AckPlan) -> bool {
    let none = !plan.due(0, 0);
    plan.note(10, None);
    plan.note(11, Some(10));
    none && !plan.due(11, 11) && plan.due(12, 11) && !plan.due(12, 11)
}

/// Whether none is made where the last piece came delta ago, and one for a piece after that.
fn is_too_late(plan: &mut AckPlan) -> bool {
    plan.note_passed(83, Some(11));
    let none = !plan.due(84, 11);
    plan.note_passed(84, Some(11));
    plan.note(90, Some(11));
    none && !plan.due(91, 90) && plan.due(92, 90)
}

#[test]
fn an_acknowledgement_is_made_in_time_or_not_at_all(rt: HostRuntime) {
    let mut plan = AckPlan::new(2, 72);
    assert!(rt; is_in_time(&mut plan) && is_too_late(&mut plan));
}
