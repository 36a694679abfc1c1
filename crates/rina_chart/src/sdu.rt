//! The SDUs of a facility, as a chart shows them: between which lifelines, and at which ticks.
ghost use Rattle.std.specs.Prelude.{◌≡◌, ◌++◌, map, position, IfOk, OnOk};
ghost use Rattle.std.specs.List.{list_any};
ghost use Rattle.std.specs.Str.{bytes_eq};
ghost use Rattle.rina_chart.specs.Sdus.{earliest, end_sdus, is_new, is_of, last_tick, least_sent, latest, meets, nodes_of, place_of, receiver, sdu_of, sdus_of, whole, with_node};

use crate::window::Window;
use rina_base::{FlowName, Memory, Name, Num, Seq, Tick};
use rina_view::{End, Off, Row, other_end, rows_of};
use std::alloc::Global;

/// An SDU that was sent over a flow of the facility.
#[derive(Clone, Copy, Debug, PartialEq, Eq)]
pub struct Sdu {
    pub flow: FlowName,
    pub num: Num,
    /// The place of the lifeline of the node that sent it, counted from 0.
    pub from: usize,
    /// The place of the lifeline of the node at the other end of the flow.
    pub to: usize,
    /// The tick at which it was sent.
    pub sent: Tick,
    /// The tick at which it arrived.
    pub got: Option<Tick>,
}

/// Whether an end is one of a flow of the facility.
#[tactic(auto, unfolding(crate::specs::Sdus::is_of))]
fn is_of(fac: &[u8], end: &End) -> bool
    ensures { result ≡ is_of fac.now end.now }
{
    end.fac.as_bytes() == fac
}

/// Whether a node is among some nodes.
fn is_among(nodes: &[Name], node: &Name) -> bool
    ensures { result ≡ list_any (λ other. bytes_eq node.now other) nodes.now }
{
    nodes.iter().any(|other| node.is(other))
}

/// Whether an end is one of a flow of the facility, at a node that is not among some nodes.
#[tactic(auto, unfolding(crate::specs::Sdus::is_new))]
fn is_new(fac: &[u8], nodes: &[Name], end: &End) -> bool
    ensures { result ≡ is_new fac.now nodes.now end.now }
{
    is_of(fac, end) && !is_among(nodes, &end.node)
}

/// Adds the node of an end of a flow of the facility, where it is not there yet.
fn add_node(alloc: Global, fac: &[u8], nodes: &mut Seq<Name>, end: &End) -> Result<(), Memory>
    ensures { OnOk result (nodes.new ≡ with_node fac.now nodes.old end.now) }
{
    if is_new(fac, nodes.as_slice(), end) {
        nodes.push(end.node.copy(alloc)?)?;
    }
    Ok(())
}

/// The nodes that have an end of a flow of the facility, each once, in the order of the ends.
pub fn nodes_of(alloc: Global, fac: &[u8], ends: &[End]) -> Result<Seq<Name>, Memory>
    ensures { IfOk result (λ nodes. nodes ≡ nodes_of fac.now ends.now) }
{
    let mut nodes = Seq::new(alloc);
    'ends: for end in ends {
        add_node(alloc, fac, &mut nodes, end)?;
    }
    Ok(nodes)
}

/// The place of a node among the lifelines, where it has one.
fn place_among(nodes: &[Name], node: &Name) -> Option<usize>
    ensures { result ≡ position (λ other. bytes_eq node.now other) nodes.now }
{
    nodes.iter().position(|other| node.is(other))
}

/// The place of a node among the lifelines, 0 where it has none.
#[tactic(auto, unfolding(crate::specs::Sdus::place_of))]
pub(crate) fn place_of(nodes: &[Name], node: &Name) -> usize
    ensures { result ≡ place_of nodes.now node.now }
{
    match place_among(nodes, node) {
        Some(place) => place,
        None => 0,
    }
}

/// The node at the other end of the flow, or its own where the journal does not show the other end.
#[tactic(auto, unfolding(crate::specs::Sdus::receiver))]
fn receiver<'a>(ends: &'a [End], end: &'a End) -> &'a Name
    ensures { result.now ≡ receiver ends.now end.now }
{
    match other_end(ends, end) {
        Some(other) => &other.node,
        None => &end.node,
    }
}

/// The SDU of a row of an end.
fn sdu_of(nodes: &[Name], ends: &[End], end: &End, row: &Row) -> Sdu
    ensures { result ≡ sdu_of nodes.now ends.now end.now row.now }
{
    Sdu {
        flow: end.flow,
        num: row.sent.num,
        from: place_of(nodes, &end.node),
        to: place_of(nodes, receiver(ends, end)),
        sent: row.sent.at,
        got: row.got,
    }
}

/// Adds the SDUs of the rows of an end.
#[tactic(auto, using(std::proofs::lemmas::List::drop_more))]
fn add_rows(
    sdus: &mut Seq<Sdu>,
    nodes: &[Name],
    ends: &[End],
    end: &End,
    rows: &[Row],
) -> Result<(), Memory>
    ensures { OnOk result (sdus.new ≡ sdus.old ++ map (sdu_of nodes.now ends.now end.now) rows.now) }
{
    'rows: for row in rows {
        sdus.push(sdu_of(nodes, ends, end, row))?;
    }
    Ok(())
}

/// Adds the SDUs that an end sent, where it is one of a flow of the facility.
fn add_end(
    alloc: Global,
    sdus: &mut Seq<Sdu>,
    fac: &[u8],
    nodes: &[Name],
    ends: &[End],
    offs: &[Off],
    end: &End,
) -> Result<(), Memory>
    ensures { OnOk result (sdus.new ≡ sdus.old ++ end_sdus fac.now nodes.now ends.now offs.now end.now) }
{
    if is_of(fac, end) {
        let rows = rows_of(alloc, ends, offs, end)?;
        add_rows(sdus, nodes, ends, end, rows.as_slice())
    } else {
        Ok(())
    }
}

/// The SDUs that were sent over flows of the facility, in the order of the rows.
#[tactic(auto, using(std::proofs::lemmas::List::drop_more))]
pub fn sdus_of(
    alloc: Global,
    fac: &[u8],
    nodes: &[Name],
    ends: &[End],
    offs: &[Off],
) -> Result<Seq<Sdu>, Memory>
    ensures { IfOk result (λ sdus. sdus ≡ sdus_of fac.now nodes.now ends.now offs.now) }
{
    let mut sdus = Seq::new(alloc);
    'ends: for end in ends {
        add_end(alloc, &mut sdus, fac, nodes, ends, offs, end)?;
    }
    Ok(sdus)
}

/// The tick at which an SDU arrived, or at which it was sent where it did not arrive.
#[tactic(auto, unfolding(crate::specs::Sdus::last_tick))]
pub(crate) fn last_tick(sdu: &Sdu) -> Tick
    ensures { result ≡ last_tick sdu.now }
{
    match sdu.got {
        Some(tick) => tick,
        None => sdu.sent,
    }
}

/// Whether an SDU is sent, under way or got in a window.
#[tactic(auto, unfolding(crate::specs::Sdus::meets))]
pub(crate) fn meets(window: Window, sdu: &Sdu) -> bool
    ensures { result ≡ meets window sdu.now }
{
    window.from <= last_tick(sdu) && sdu.sent <= window.to
}

/// The least of a tick and those at which SDUs were sent.
#[tactic(auto, using(std::proofs::lemmas::List::drop_more))]
fn least_sent(first: Tick, sdus: &[Sdu]) -> Tick
    ensures { result ≡ least_sent first sdus.now }
{
    let mut least = first;
    'sdus: for sdu in sdus {
        least = least.min(sdu.sent);
    }
    least
}

/// The first tick at which an SDU was sent, 0 where there is none.
fn earliest(sdus: &[Sdu]) -> Tick
    ensures { result ≡ earliest sdus.now }
{
    match sdus {
        [] => 0,
        [first, others @ ..] => least_sent(first.sent, others),
    }
}

/// The greatest of a tick and those at which SDUs arrived, or were sent where they did not arrive.
#[tactic(auto, using(std::proofs::lemmas::List::drop_more))]
pub(crate) fn latest(first: Tick, sdus: &[Sdu]) -> Tick
    ensures { result ≡ latest first sdus.now }
{
    let mut last = first;
    'sdus: for sdu in sdus {
        last = last.max(last_tick(sdu));
    }
    last
}

/// The window of all SDUs: from the first sending, rounded down to tens, to the last tick of an SDU.
pub(crate) fn whole(sdus: &[Sdu]) -> Window
    ensures { result ≡ whole sdus.now }
{
    let from = earliest(sdus) / 10 * 10;
    Window {
        from,
        to: latest(from, sdus),
    }
}
