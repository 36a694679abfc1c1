//! A piece that waits for its acknowledgement.
ghost use Rattle.std.specs.Prelude.{◌≡◌, IfOk};
ghost use Rattle.rina_dtcp.specs.declared.sent.Sent.{Sent};
ghost use Rattle.rina_dtcp.specs.Sents.{IsStillUntil, IsDueFrom, is_due, is_late};

use rina_base::{Bytes, Memory, Num, Pdu, Tick};
use rina_cube::Cube;
use std::alloc::Global;

/// A piece that was sent and is not acknowledged.
#[derive(Drop)]
pub struct Sent {
    /// The tick at which it was made first.
    pub first: Tick,
    /// The tick at which it was made last.
    pub last: Tick,
    pub pdu: Pdu,
}

/// A piece that was never acknowledged, and is not sent again.
#[derive(Clone, Copy, Debug, PartialEq, Eq)]
pub struct GaveUp {
    /// Its number.
    pub num: Num,
    /// The tick at which it was first made.
    pub first: Tick,
    /// The tick at which it was given up.
    pub now: Tick,
}

impl Sent {
    /// Whether it is to be made again: `retry` ticks have gone by since it was last made, and not more
    /// than `r` since it was first.
    #[tactic(auto, unfolding(crate::specs::Sents::is_due))]
    pub(crate) fn is_due(&self, cube: &Cube, now: Tick) -> bool
        ensures { result ≡ is_due cube.now now self.now }
    {
        let now = now as u64;
        self.last as u64 + cube.retry as u64 <= now && now <= self.first as u64 + cube.r as u64
    }

    /// Whether it is too late for its acknowledgement: `r + a + 2 * mpl` ticks have gone by since it was
    /// first made.
    #[tactic(auto, unfolding(crate::specs::Sents::is_late))]
    pub(crate) fn is_late(&self, cube: &Cube, now: Tick) -> bool
        ensures { result ≡ is_late cube.now now self.now }
    {
        let wait = cube.r as u64 + cube.a as u64 + 2 * cube.mpl as u64;
        self.first as u64 + wait <= now as u64
    }

    /// The first tick at which it is to be made again, or, where it is not any more, at which it is too late for its
    /// acknowledgement; at most the greatest u32.
    pub(crate) fn still_until(&self, cube: &Cube) -> Tick
        ensures before { IsStillUntil result cube.now self.now }
        ensures from { IsDueFrom result cube.now self.now }
    {
        due_tick(cube, self.first, self.last)
    }
}

/// The first tick at which a piece that was made first and last at these ticks is to be made again, or, where it is not
/// any more, at which it is too late for its acknowledgement; at most the greatest u32.
pub(crate) fn due_tick(cube: &Cube, first: Tick, last: Tick) -> Tick
    ensures before { (s : Sent) → s.first ≡ first → s.last ≡ last → IsStillUntil result cube.now s }
    ensures from { (s : Sent) → s.first ≡ first → s.last ≡ last → IsDueFrom result cube.now s }
{
    let again = last as u64 + cube.retry as u64;
    let latest = first as u64 + cube.r as u64;
    let late = latest + cube.a as u64 + 2 * cube.mpl as u64;
    let tick = if again <= latest { again } else { late };
    tick.min(Tick::MAX as u64) as Tick
}

/// A copy of a PDU.
pub(crate) fn copy_of(alloc: Global, pdu: &Pdu) -> Result<Pdu, Memory>
    ensures { IfOk result (λ p. p ≡ pdu.now) }
{
    Ok(Pdu {
        kind: pdu.kind,
        dst: pdu.dst,
        src: pdu.src,
        qos: pdu.qos,
        dcep: pdu.dcep,
        scep: pdu.scep,
        drf: pdu.drf,
        first: pdu.first,
        last: pdu.last,
        seq: pdu.seq,
        ack: pdu.ack,
        right: pdu.right,
        body: Bytes::copy_of(alloc, pdu.body.as_slice())?,
    })
}
