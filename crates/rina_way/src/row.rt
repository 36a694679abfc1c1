//! What a flow promises, and whether its way lets a PDU keep it.
ghost use Rattle.std.specs.Prelude.{◌≡◌, ◌<◌, option_map, None, Some, IfOk, IfSome};
ghost use Rattle.rina_data.specs.Configs.{cube_by};
ghost use Rattle.rina_way.specs.Ways.{Finds, IsRow, piece_size, pieces, trip};

use crate::hop::{Hop, address};
use crate::slack::charges;
use crate::walk::way;
use rina_base::{Memory, Node, PduKind, Seq};
use rina_cube::{Cube, Kind};
use rina_data::{IpcProcess, Member, Settings};
use rina_iface::Facility;
use rina_pci::pci_len;
use std::alloc::Global;

/// One direction of a flow of a DIF.
#[derive(Drop)]
pub struct Row {
    pub cube: Cube,
    /// How many pieces an SDU has that is as long as the cube allows.
    pub pieces: u32,
    /// The way of what is sent; None where the next hops do not lead to the other end.
    pub there: Option<Seq<Hop>>,
    /// The way of acknowledgements.
    pub back: Option<Seq<Hop>>,
}

/// Where the cube of an id stands.
fn find_cube(cubes: &[Cube], id: u8) -> Option<&Cube>
    ensures { option_map (λ c. c.now) result ≡ cube_by id cubes.now }
{
    cubes.iter().find(|cube| cube.id == id)
}

/// The cube of an id.
fn cube_of(cubes: &[Cube], id: u8) -> Option<Cube>
    ensures { result ≡ cube_by id cubes.now }
{
    let cube = find_cube(cubes, id)?;
    Some(*cube)
}

/// How many bytes a piece has at most.
fn piece_size(settings: &Settings) -> u32
    ensures { result ≡ piece_size settings.now }
{
    settings
        .pdu
        .saturating_sub(4)
        .saturating_sub(pci_len(PduKind::Piece, settings.widths))
}

/// How many pieces of so many bytes at most an SDU has.
fn pieces(size: u32, len: u32) -> u32
    ensures { result ≡ pieces size len }
{
    if size == 0 {
        0
    } else {
        ((u64::from(len) + u64::from(size) - 1) / u64::from(size)) as u32
    }
}

/// The way from the member at a node to the member at another.
fn way_to<F: Facility>(
    alloc: Global,
    below: &F,
    members: &[Member],
    processes: &[IpcProcess],
    from: Node,
    to: Node,
) -> Result<Option<Seq<Hop>>, Memory>
    requires { F.valid below.now }
    ensures { IfOk result (λ found. Finds (F.seen below.now) members.now processes.now from found to) }
{
    match address(members, to) {
        Some(dst) => way(alloc, below, members, processes, dst, from, to),
        None => Ok(None),
    }
}

/// The row of a flow of the cube of an id, from the node of the end that sends to that of the other end, in a DIF with these settings and IPC
/// processes over a rank below. None exactly where the DIF has no such cube.
pub fn row_of<F: Facility>(
    alloc: Global,
    below: &F,
    settings: &Settings,
    processes: &[IpcProcess],
    id: u8,
    from: Node,
    to: Node,
) -> Result<Option<Row>, Memory>
    requires { F.valid below.now }
    ensures row { IfOk result (λ o. IfSome o (IsRow (F.seen below.now) settings.now processes.now id from to)) }
    ensures none { IfOk result (λ o. o ≡ None → cube_by id settings.now.cubes ≡ None) }
{
    let Some(cube) = cube_of(settings.cubes.as_slice(), id) else {
        return Ok(None);
    };
    let members = settings.members.as_slice();
    let there = way_to(alloc, below, members, processes, from, to)?;
    let back = way_to(alloc, below, members, processes, to, from)?;
    Ok(Some(Row {
        cube,
        pieces: pieces(piece_size(settings), cube.largest),
        there,
        back,
    }))
}

/// The ticks from the sending of a piece until its acknowledgement is back, at most, where neither waits in a queue. None where the flow
/// acknowledges nothing, or has no way there or back.
pub(crate) fn trip(row: &Row) -> Option<u64>
    ensures { result ≡ trip row.now }
{
    match (row.cube.kind, &row.there, &row.back) {
        (Kind::Reliable, Some(there), Some(back)) => {
            let to = charges(there.as_slice()).saturating_add(u64::from(row.cube.a));
            Some(to.saturating_add(charges(back.as_slice())))
        }
        _ => None,
    }
}
