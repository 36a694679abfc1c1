//! The ends of flows of a facility that failed, as the notes of a run tell.
ghost use Rattle.std.specs.Prelude.{◌≡◌, ◌++◌, [], IfOk, OnOk};
ghost use Rattle.std.specs.List.{cons_option};
ghost use Rattle.rina_chart.specs.Marks.{failed_in, failed_of, is_flow_of, mark_at, mark_by_answer, mark_in, marks_of};

use crate::sdu::place_of;
use rina_base::{FlowName, Memory, Name, Seq, Tick};
use rina_report::{Answer, FailNote, FlowNote, Note, StateNote};
use std::alloc::{AllocError, Global};

/// Why an end of a flow failed.
#[derive(Clone, Copy, Debug, PartialEq, Eq)]
pub enum Failure {
    /// Its wire was cut.
    Cut,
    /// What it sent was not acknowledged in time.
    GaveUp,
}

/// When an end of a flow failed, and why.
#[derive(Clone, Copy, Debug, PartialEq, Eq)]
pub struct Failed {
    pub at: Tick,
    pub why: Failure,
}

/// An end of a flow of the facility that failed.
#[derive(Clone, Copy, Debug, PartialEq, Eq)]
pub struct Mark {
    pub flow: FlowName,
    /// The place of the lifeline of its node, counted from 0.
    pub place: usize,
    pub failed: Failed,
}

/// When an end failed, where its fault tells a tick.
fn failed_of(fail: &FailNote) -> Option<Failed>
    ensures { result ≡ failed_of fail.now }
{
    match fail {
        FailNote::GaveUp { now, .. } => Some(Failed {
            at: *now,
            why: Failure::GaveUp,
        }),
        FailNote::Below { .. } => None,
        FailNote::Cut { at } => Some(Failed {
            at: *at,
            why: Failure::Cut,
        }),
    }
}

/// When an end of this state failed.
fn failed_in(state: &StateNote) -> Option<Failed>
    ensures { result ≡ failed_in state.now }
{
    match state {
        StateNote::Failed(fail) => failed_of(fail),
        _ => None,
    }
}

/// The mark of an end that failed.
#[tactic(auto, unfolding(crate::specs::Marks::mark_in))]
fn mark_in(nodes: &[Name], flow: &FlowNote) -> Option<Mark>
    ensures { result ≡ mark_in nodes.now flow.now }
{
    let failed = failed_in(&flow.state)?;
    Some(Mark {
        flow: flow.flow,
        place: place_of(nodes, &flow.port.node),
        failed,
    })
}

/// Whether an end is one of a flow of the facility.
#[tactic(auto, unfolding(crate::specs::Marks::is_flow_of))]
fn is_flow_of(fac: &[u8], flow: &FlowNote) -> bool
    ensures { result ≡ is_flow_of fac.now flow.now }
{
    flow.port.fac.as_bytes() == fac
}

/// The mark of what an answer shows.
fn mark_by_answer(fac: &[u8], nodes: &[Name], answer: &Answer) -> Option<Mark>
    ensures { result ≡ mark_by_answer fac.now nodes.now answer.now }
{
    match answer {
        Answer::Flow(flow) => {
            if is_flow_of(fac, flow) {
                mark_in(nodes, flow)
            } else {
                None
            }
        }
        _ => None,
    }
}

/// The mark of what a note shows.
#[tactic(auto, unfolding(crate::specs::Marks::mark_at))]
fn mark_at(fac: &[u8], nodes: &[Name], note: &Note) -> Option<Mark>
    ensures { result ≡ mark_at fac.now nodes.now note.now }
{
    match note {
        Note::Line { answer, .. } => mark_by_answer(fac, nodes, answer),
        _ => None,
    }
}

/// Adds an item, where there is one.
pub(crate) fn add<T: Drop>(items: &mut Seq<T>, item: Option<T>) -> Result<(), AllocError>
    ensures { OnOk result (items.new ≡ items.old ++ cons_option item []) }
{
    match item {
        Some(item) => items.push(item),
        None => Ok(()),
    }
}

/// The ends of flows of a facility that notes show as failed at a tick, in their order.
pub fn marks_of(
    alloc: Global,
    fac: &[u8],
    nodes: &[Name],
    notes: &[Note],
) -> Result<Seq<Mark>, Memory>
    ensures { IfOk result (λ marks. marks ≡ marks_of fac.now nodes.now notes.now) }
{
    let mut marks = Seq::new(alloc);
    'notes: for note in notes {
        add(&mut marks, mark_at(fac, nodes, note))?;
    }
    Ok(marks)
}
