//! A link that is lost: the PDUs that wait for it are written off, and it is no longer used.
ghost use Rattle.std.specs.Prelude.{◌≡◌, ◌<◌, ◌↔◌, ◌++◌, ◌+◌, ◌≤◌, IsTrue, length, map, true, IfOk, OnOk, OnErr};
ghost use Rattle.std.specs.List.{flat_map};
ghost use Rattle.std.specs.Vec.{vec_capacity};
ghost use Rattle.rina_iface.specs.Seen.{state_of};
ghost use Rattle.rina_data.specs.Deciding.{plain, process_of, queue_settings};
ghost use Rattle.rina_data.specs.Losing.{FindsLost, IsNoMore, LosesAt, lesser, line_down, lines_down};

use crate::link::{Link, Route};
use crate::process::IpcProcess;
use rina_account::Off;
use rina_base::{Cause, Memory, Port, Seq};
use rina_iface::{Facility, PortState};
use rina_queue::Queue;
use std::alloc::{AllocError, Global};

/// A link that is lost.
#[derive(Clone, Copy)]
pub struct Lost {
    /// Its place among the links.
    pub place: usize,
    pub number: u16,
}

/// Whether a flow was refused, has failed, or was closed.
fn is_no_more(state: Option<PortState>) -> bool
    ensures { IsTrue result ↔ IsNoMore state }
{
    matches!(
        state,
        Some(PortState::Refused(_) | PortState::Failed(_) | PortState::Closed)
    )
}

/// Whether a link is live whose flow below was refused, has failed, or was closed.
fn is_lost<F: Facility>(below: &F, link: &Link) -> bool
    requires { F.valid below.now }
    ensures { IsTrue result ↔ ((link.now.live ≡ true) × IsNoMore (state_of (F.seen below.now) link.now.port)) }
{
    link.live && is_no_more(below.state(link.port))
}

/// Of two links the one of the lesser number.
fn lesser(first: Option<Lost>, other: Lost) -> Lost
    ensures { result ≡ lesser first other }
{
    match first {
        Some(first) if first.number <= other.number => first,
        _ => other,
    }
}

/// Of the live links whose flow below was refused, has failed, or was closed, the one of the least number. None exactly
/// where there is none.
pub fn lost_link<F: Facility>(links: &[Link], below: &F) -> Option<Lost>
    requires { F.valid below.now }
    ensures { FindsLost links.now (F.seen below.now) result }
{
    let mut first = None;
    for place in 0..links.len() {
        let link = &links[place];
        if is_lost(below, link) {
            let number = link.number;
            first = Some(lesser(first, Lost { place, number }));
        }
    }
    first
}

/// Notes the lines of the PDUs in a queue.
fn note_items(queue: &Queue, port: Port, lines: &mut Vec<Off>) -> Result<(), AllocError>
    ensures { OnOk result (lines.new.items ≡ lines.old.items ++ map (line_down port) queue.now.ring.items) }
{
    let cause = Cause::LinkDown { port };
    for at in 0..queue.ring.len() {
        let Some(item) = queue.ring.get(at) else {
            unreachable!()
        };
        let key = item.pdu.key();
        lines.push(Off { key, cause })?;
    }
    Ok(())
}

/// Notes the lines of the PDUs in a queue, where it is one for the link.
fn note_queue(queue: &Queue, link: Link, lines: &mut Vec<Off>) -> Result<(), AllocError>
    ensures { OnOk result (lines.new.items ≡ lines.old.items ++ lines_down link (plain queue.now)) }
{
    if queue.link != link.number {
        return Ok(());
    }
    note_items(queue, link.port, lines)
}

/// The lines of the PDUs that wait for a link, queue by queue.
fn lines_down(alloc: Global, queues: &[Queue], link: Link) -> Result<Vec<Off>, AllocError>
    ensures { IfOk result (λ v. v.items ≡ flat_map (lines_down link) (map plain queues.now)) }
{
    let mut lines = Vec::new(alloc);
    for queue in queues {
        note_queue(queue, link, &mut lines)?;
    }
    Ok(lines)
}

/// Adds lines behind others, with room for so many more after them, or none.
fn add_lines(lines: &mut Vec<Off>, more: &mut Vec<Off>, room: usize) -> Result<(), AllocError>
    ensures ok { OnOk result ((lines.new.items ≡ lines.old.items ++ more.old.items) × (length lines.new.items + room ≤ vec_capacity lines.new)) }
    ensures err { OnErr result (lines.new.items ≡ lines.old.items) }
{
    let Some(room) = more.len().checked_add(room) else {
        return Err(AllocError);
    };
    lines.reserve(room)?;
    lines.append(more)
}

impl IpcProcess {
    /// Takes the lines of the ledger out, with more behind them and room for so many after those. Without memory
    /// nothing changes.
    fn take_lines(
        &mut self,
        alloc: Global,
        mut more: Vec<Off>,
        room: usize,
    ) -> Result<Vec<Off>, Memory>
        ensures ok { IfOk result (λ v. (v.items ≡ self.old.ledger ++ more.items) × (length v.items + room ≤ vec_capacity v)) }
        ensures err { OnErr result (self.new.ledger ≡ self.old.ledger) }
        ensures same { (self.new.links ≡ self.old.links) × (self.new.routes ≡ self.old.routes) × (self.new.queues ≡ self.old.queues) }
    {
        let mut lines = self.ledger.take(alloc);
        match add_lines(&mut lines, &mut more, room) {
            Ok(()) => Ok(lines),
            Err(AllocError) => {
                self.ledger.put(lines);
                Err(Memory)
            }
        }
    }

    /// Loses the link at a place as `lose_link` does, and hands out the lines of the ledger, with room for so many more, until
    /// they are put back. Without memory nothing changes.
    pub fn lose_link_with_room(
        &mut self,
        alloc: Global,
        at: usize,
        routes: Seq<Route>,
        room: usize,
    ) -> Result<Vec<Off>, Memory>
        requires { at < length self.old.links }
        ensures ok { IfOk result (λ v. LosesAt at routes (process_of self.old) (record (process_of self.new) { ledger = v.items }) × (length v.items + room ≤ vec_capacity v)) }
        ensures err { OnErr result (process_of self.new ≡ process_of self.old) }
        ensures kept { queue_settings self.new ≡ queue_settings self.old }
    {
        let Some(link) = self.links.get(at) else {
            unreachable!()
        };
        let link = *link;
        let more = lines_down(alloc, self.queues.queues.as_slice(), link)?;
        let lines = self.take_lines(alloc, more, room)?;
        self.queues.empty(link.number);
        self.links.set(
            at,
            Link {
                live: false,
                ..link
            },
        );
        self.routes = routes;
        Ok(lines)
    }

    /// Loses the link at a place: the PDUs that wait for it are written off, queue by queue, the first that came first;
    /// it is no longer used, and these are the next hops. Without memory nothing changes.
    pub fn lose_link(&mut self, alloc: Global, at: usize, routes: Seq<Route>) -> Result<(), Memory>
        requires { at < length self.old.links }
        ensures ok { OnOk result (LosesAt at routes (process_of self.old) (process_of self.new)) }
        ensures err { OnErr result (process_of self.new ≡ process_of self.old) }
        ensures kept { queue_settings self.new ≡ queue_settings self.old }
    {
        let lines = self.lose_link_with_room(alloc, at, routes, 0)?;
        self.ledger.put(lines);
        Ok(())
    }
}
