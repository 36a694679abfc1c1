//! The rules that one DIF breaks by itself, or by the ranks of the others. Each function gives the
//! place of the first DIF that breaks its rule.
ghost use Rattle.std.specs.Prelude.{◌≡◌, ◌+◌, ◌==◌, ◌<◌, length, position, IfSome};
ghost use Rattle.std.specs.List.{list_any};
ghost use Rattle.rina_plan.specs.declared.dif.DifPlan.{DifPlan};
ghost use Rattle.rina_plan.specs.Difs.{lacks_lower, is_mistimed, has_mistimed, greatest_of, is_misaddressed, head_of, has_unfit_pdu, piece_of, is_over, is_oversized, has_oversized, is_crowded};

use crate::dif::{DifPlan, MemberPlan};
use rina_base::PduKind;
use rina_cube::{Cube, Kind};
use rina_pci::pci_len;

// A DIF of rank above 1 has one of the rank below.

#[tactic(auto, using(std::proofs::lemmas::List::drop_more))]
fn has_rank_below(difs: &[DifPlan], rank: u8) -> bool
    ensures { result ≡ list_any (λ (e : DifPlan). e.rank + 1 == rank) difs.now }
{
    'difs: for dif in difs {
        if u32::from(dif.rank) + 1 == u32::from(rank) {
            return true;
        }
    }
    false
}

#[tactic(auto, unfolding(crate::specs::Difs::lacks_lower))]
fn lacks_lower(difs: &[DifPlan], dif: &DifPlan) -> bool
    ensures { result ≡ lacks_lower difs.now dif.now }
{
    dif.rank > 1 && !has_rank_below(difs, dif.rank)
}

/// The first DIF of a rank above 1 where no DIF has the rank below (rule 9).
pub fn first_without_lower(difs: &[DifPlan]) -> Option<usize>
    ensures place { result ≡ position (lacks_lower difs.now) difs.now }
    ensures within { IfSome result (λ i. i < length difs.now) }
{
    let mut at = 0usize;
    'difs: for dif in difs {
        if lacks_lower(difs, dif) {
            return Some(at);
        }
        at += 1;
    }
    None
}

// The times of cubes.

#[tactic(auto, unfolding(crate::specs::Difs::is_mistimed))]
fn is_mistimed(cube: &Cube) -> bool
    ensures { result ≡ is_mistimed cube.now }
{
    match cube.kind {
        Kind::Reliable => cube.retry == 0 || cube.r == 0 || cube.retry > cube.r,
        Kind::Datagram | Kind::Loose => !(cube.r == 0 && cube.a == 0 && cube.retry == 0),
    }
}

#[tactic(auto, using(std::proofs::lemmas::List::drop_more))]
fn any_mistimed(cubes: &[Cube]) -> bool
    ensures { result ≡ list_any is_mistimed cubes.now }
{
    'cubes: for cube in cubes {
        if is_mistimed(cube) {
            return true;
        }
    }
    false
}

#[tactic(auto, unfolding(crate::specs::Difs::has_mistimed))]
fn has_mistimed(dif: &DifPlan) -> bool
    ensures { result ≡ has_mistimed dif.now }
{
    is_mistimed(&dif.manage) || any_mistimed(dif.cubes.as_slice())
}

/// The first DIF with a reliable cube that does not send again within `r`, or with another cube that has
/// `r`, `a` or `retry` (rule 11).
pub fn first_mistimed(difs: &[DifPlan]) -> Option<usize>
    ensures place { result ≡ position has_mistimed difs.now }
    ensures within { IfSome result (λ i. i < length difs.now) }
{
    let mut at = 0usize;
    'difs: for dif in difs {
        if has_mistimed(dif) {
            return Some(at);
        }
        at += 1;
    }
    None
}

// The sizes of PDUs.

/// The greatest number that so many bytes hold.
#[tactic(auto, unfolding(crate::specs::Difs::greatest_of))]
pub(crate) fn greatest_of(width: u8) -> u32
    ensures { result ≡ greatest_of width }
{
    match width {
        1 => 255,
        2 => 65_535,
        _ => 4_294_967_295,
    }
}

fn head(dif: &DifPlan) -> u32
    ensures head { result ≡ head_of dif.now }
    ensures small { result < 5000 }
{
    4 + pci_len(PduKind::Piece, dif.widths)
}

#[tactic(auto, unfolding(crate::specs::Difs::has_unfit_pdu))]
fn has_unfit_pdu(dif: &DifPlan) -> bool
    ensures { result ≡ has_unfit_pdu dif.now }
{
    dif.pdu > greatest_of(dif.widths.len)
        || dif.pdu <= head(dif)
        || dif.pdu < 4 + pci_len(PduKind::Ack, dif.widths)
}

/// The first DIF whose largest PDU does not fit its length field, leaves no byte for a piece of an SDU, or
/// is too short for an acknowledgement (rule 13).
pub fn first_with_unfit_pdu(difs: &[DifPlan]) -> Option<usize>
    ensures place { result ≡ position has_unfit_pdu difs.now }
    ensures within { IfSome result (λ i. i < length difs.now) }
{
    let mut at = 0usize;
    'difs: for dif in difs {
        if has_unfit_pdu(dif) {
            return Some(at);
        }
        at += 1;
    }
    None
}

// The sizes of SDUs.

fn is_over(piece: u32, pieces: u32, bytes: u32) -> bool
    ensures { result ≡ is_over piece pieces bytes }
{
    u64::from(pieces) * u64::from(piece) < u64::from(bytes)
}

#[tactic(auto, unfolding(crate::specs::Difs::is_oversized))]
fn is_oversized(piece: u32, queue: u32, cube: &Cube) -> bool
    ensures { result ≡ is_oversized piece queue cube.now }
{
    match cube.kind {
        Kind::Datagram => cube.largest > piece,
        Kind::Loose | Kind::Reliable => {
            is_over(piece, cube.window, cube.largest) || is_over(piece, queue, cube.largest)
        }
    }
}

#[tactic(auto, using(std::proofs::lemmas::List::drop_more))]
fn any_oversized(piece: u32, queue: u32, cubes: &[Cube]) -> bool
    ensures { result ≡ list_any (is_oversized piece queue) cubes.now }
{
    'cubes: for cube in cubes {
        if is_oversized(piece, queue, cube) {
            return true;
        }
    }
    false
}

fn piece(dif: &DifPlan) -> u32
    ensures { result ≡ piece_of dif.now }
{
    dif.pdu.saturating_sub(head(dif))
}

#[tactic(auto, unfolding(crate::specs::Difs::has_oversized))]
fn has_oversized(dif: &DifPlan) -> bool
    ensures { result ≡ has_oversized dif.now }
{
    let piece = piece(dif);
    is_oversized(piece, dif.queue, &dif.manage)
        || any_oversized(piece, dif.queue, dif.cubes.as_slice())
}

/// The first DIF with a cube whose largest SDU does not fit: into one piece where the cube sends datagrams,
/// else into as many pieces as the window and as the queue hold (rule 14).
pub fn first_oversized(difs: &[DifPlan]) -> Option<usize>
    ensures place { result ≡ position has_oversized difs.now }
    ensures within { IfSome result (λ i. i < length difs.now) }
{
    let mut at = 0usize;
    'difs: for dif in difs {
        if has_oversized(dif) {
            return Some(at);
        }
        at += 1;
    }
    None
}

// Addresses.

#[tactic(auto, unfolding(crate::specs::Difs::is_misaddressed))]
fn is_misaddressed(width: u8, member: &MemberPlan) -> bool
    ensures { result ≡ is_misaddressed width member.now }
{
    member.addr == 0 || member.addr > greatest_of(width)
}

#[tactic(auto, using(std::proofs::lemmas::List::drop_more))]
pub(crate) fn any_misaddressed(width: u8, members: &[MemberPlan]) -> bool
    ensures { result ≡ list_any (is_misaddressed width) members.now }
{
    'members: for member in members {
        if is_misaddressed(width, member) {
            return true;
        }
    }
    false
}

// How many there may be.

#[tactic(auto, unfolding(crate::specs::Difs::is_crowded))]
pub(crate) fn is_crowded(dif: &DifPlan) -> bool
    ensures { result ≡ is_crowded dif.now }
{
    dif.members.len() > 64 || dif.cubes.len() > 8 || dif.rules.len() > 256
}
