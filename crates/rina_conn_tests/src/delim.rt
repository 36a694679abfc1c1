//! Cutting SDUs and joining pieces.
use rina_delim::{Joined, Joiner, Part, Run, cut};
use std::alloc::Global;

const fn part(first: bool, last: bool, at: u32, len: u32) -> Part {
    Part {
        first,
        last,
        at,
        len,
    }
}

/// Whether these are the parts of an SDU of 200 bytes, in pieces of 80 bytes.
fn are_parts(parts: &[Part]) -> bool {
    parts
        == [
            part(true, false, 0, 80),
            part(false, false, 80, 80),
            part(false, true, 160, 40),
        ]
        .as_slice()
}

/// Whether such an SDU is cut into them.
fn is_cut(alloc: Global) -> bool {
    match cut(alloc, 200, 80) {
        Ok(parts) => are_parts(parts.as_slice()),
        Err(_) => false,
    }
}

/// A piece that begins or ends its SDU, or both, and the bytes in it.
type Piece<'a> = (u32, bool, bool, &'a [u8]);

/// Whether a joiner has room for a piece and makes this of it.
fn joins(joiner: &mut Joiner, piece: Piece<'_>, wanted: Joined) -> bool {
    let (seq, first, last, body) = piece;
    joiner.has_room(seq, first, body.len()) && joiner.push(seq, first, last, body) == wanted
}

/// Whether 0 follows the greatest number.
fn begin_again(joiner: &mut Joiner) -> bool {
    let held = Run {
        from: u32::MAX,
        last: u32::MAX,
    };
    let broken = Joined::Broken { missing: u32::MAX };
    joins(joiner, (u32::MAX, true, false, b"ab"), Joined::More)
        && joiner.held() == Some(held)
        && joins(joiner, (0, false, true, b"c"), Joined::Whole)
        && joiner.whole() == b"abc".as_slice()
        && joiner.held().is_none()
        && joins(joiner, (0, false, true, b"d"), broken)
}

/// Whether an SDU is given up for want of its second piece, and the next one is joined.
fn is_broken(joiner: &mut Joiner) -> bool {
    let broken = Joined::Broken { missing: 1 };
    joins(joiner, (0, true, false, b"zz"), Joined::More)
        && joins(joiner, (2, false, true, b"z"), broken)
        && joins(joiner, (3, true, true, b"next"), Joined::Whole)
        && joiner.whole() == b"next".as_slice()
}

/// Whether a joiner that is reset holds nothing.
fn is_reset(joiner: &mut Joiner) -> bool {
    joiner.reset();
    joiner.whole().is_empty()
}

fn joiner_goes(joiner: &mut Joiner) -> bool {
    begin_again(joiner) && is_broken(joiner) && is_reset(joiner)
}

/// Whether pieces of up to 8 bytes are joined so.
fn are_joined(alloc: Global) -> bool {
    match Joiner::new(alloc, 8) {
        Ok(mut joiner) => joiner_goes(&mut joiner),
        Err(_) => false,
    }
}

#[test]
fn an_sdu_is_cut_and_numbers_begin_again_at_0_and_a_lost_piece_breaks_an_sdu(rt: HostRuntime) {
    assert!(rt; is_cut(rt.alloc()) && are_joined(rt.alloc()));
}
