//! The states of labelled ports: which changed since they were told last.
ghost use Rattle.std.specs.Prelude.{◌≡◌, ◌≢◌, ℕ, ◌^◌, ◌<◌, ◌≤◌, ◌++◌, [], true, Some, List, is_some, length, option_map, slice_get, slice_set, IfOk, OnOk, OnErr};
ghost use Rattle.rina_tower.specs.Stands.{IsTower};
ghost use Rattle.rina_notes.specs.declared.label.Label.{Label};
ghost use Rattle.rina_report.specs.declared.answer.Answer.TheVariants as answers;
ghost use Rattle.rina_report.specs.declared.note.Note.{Note};
ghost use Rattle.rina_notes.specs.Told.{drawn_told};
ghost use Rattle.rina_notes.specs.Look.{same_why, same_fail, same_state, same_drawn, ends_at, label_notes, state_at, state_notes, IsShownAt, IsShownIn, HaveTold, shown_now, looked, Extends};

use crate::label::{Label, Labels};
use crate::line::Line;
use crate::note::{tell, tick_of};
use crate::state::tell_drawn;
use rina_base::{Memory, Port};
use rina_iface::{End, Facility, Fail, PortState, Why};
use rina_report::{Answer, Notes};
use rina_stack::Plan;
use rina_tower::Tower;
use std::alloc::Global;

fn is_same_why(a: Why, b: Why) -> bool
    ensures { result ≡ same_why a b }
{
    match (a, b) {
        (Why::Denied { rule: a }, Why::Denied { rule: b }) => a == b,
        (Why::NotHere, Why::NotHere) => true,
        (Why::NoIds { used: a }, Why::NoIds { used: b }) => a == b,
        (Why::Timeout { asked: a, now: b }, Why::Timeout { asked: c, now: d }) => a == c && b == d,
        (Why::Withdrawn, Why::Withdrawn) => true,
        _ => false,
    }
}

fn is_same_fail(a: Fail, b: Fail) -> bool
    ensures { result ≡ same_fail a b }
{
    match (a, b) {
        (
            Fail::GaveUp { num, first, now },
            Fail::GaveUp {
                num: other,
                first: f,
                now: n,
            },
        ) => num == other && first == f && now == n,
        (Fail::Below { port: a }, Fail::Below { port: b }) => a == b,
        (Fail::Cut { at: a }, Fail::Cut { at: b }) => a == b,
        _ => false,
    }
}

fn is_same_state(a: PortState, b: PortState) -> bool
    ensures { result ≡ same_state a b }
{
    match (a, b) {
        (PortState::Pending, PortState::Pending) => true,
        (PortState::Allocated, PortState::Allocated) => true,
        (PortState::Refused(a), PortState::Refused(b)) => is_same_why(a, b),
        (PortState::Failed(a), PortState::Failed(b)) => is_same_fail(a, b),
        (PortState::Closed, PortState::Closed) => true,
        _ => false,
    }
}

fn is_same(a: Option<PortState>, b: Option<PortState>) -> bool
    ensures { result ≡ same_drawn a b }
{
    match (a, b) {
        (None, None) => true,
        (Some(a), Some(b)) => is_same_state(a, b),
        _ => false,
    }
}

/// The ends of a facility of a rank, in the order in which they were made; none where there is no such
/// facility.
pub fn ends_at(tower: &Tower, rank: u16, fac: u16) -> &[End]
    requires { IsTower tower.now }
    ensures { result.now ≡ ends_at tower.now rank fac }
{
    let Some(at) = tower.rank(rank) else {
        return &[];
    };
    match at.journal(fac) {
        Some(journal) => journal.ends.as_slice(),
        None => &[],
    }
}

/// Where the end of a port of a rank stands in its journal; 0 where the port was never drawn.
fn place_at(tower: &Tower, rank: u16, port: Port) -> usize
    requires { IsTower tower.now }
{
    let place = match tower.rank(rank) {
        Some(at) => match at.journal(port.fac) {
            Some(journal) => journal.ends.place(port),
            None => None,
        },
        None => None,
    };
    place.unwrap_or(0)
}

/// The state of a port of a rank.
pub fn state_at(tower: &Tower, rank: u16, port: Port) -> Option<PortState>
    requires { IsTower tower.now }
    ensures { result ≡ state_at tower.now rank port }
{
    tower.rank(rank)?.state(port)
}

/// The ends of a facility of a rank.
#[derive(Clone, Copy)]
struct Row<'a> {
    rank: u16,
    fac: u16,
    ends: &'a [End],
}

/// The ends of the facility that a label's port is of: the row that is given, where it has them.
fn row_of<'a>(tower: &'a Tower, row: Row<'a>, label: &Label) -> Row<'a>
    requires tower { IsTower tower.now }
    requires row { row.ends.now ≡ ends_at tower.now row.rank row.fac }
    ensures row { result.ends.now ≡ ends_at tower.now result.rank result.fac }
    ensures rank { result.rank ≡ label.now.rank }
    ensures fac { result.fac ≡ label.now.port.fac }
{
    if row.rank == label.rank && row.fac == label.port.fac {
        return row;
    }
    Row {
        rank: label.rank,
        fac: label.port.fac,
        ends: ends_at(tower, label.rank, label.port.fac),
    }
}

/// Whether an end has the state of a label's port that was told last.
fn has_shown_state(end: &End, label: &Label) -> bool
    ensures { result ≡ same_drawn (Some end.now.state) label.now.shown }
{
    match end.state {
        PortState::Allocated => matches!(label.shown, Some(PortState::Allocated)),
        state => is_same(Some(state), label.shown),
    }
}

/// Whether the end at a place is that of a label's port, and has the state that was told last.
fn is_shown_at(ends: &[End], place: usize, label: &Label) -> bool
    ensures { result ≡ true → IsShownAt ends.now place label.now }
{
    match ends.get(place) {
        Some(end) => end.port == label.port && has_shown_state(end, label),
        None => false,
    }
}

/// What a label tells of its port's new state.
fn say_label(
    alloc: Global,
    plan: &Plan,
    label: &Label,
    state: Option<PortState>,
) -> Result<Option<Answer>, Memory>
    ensures told { IfOk result (λ o. o ≡ option_map (answers.Label label.now.name) (drawn_told plan.now label.now.rank state)) }
    ensures memory { OnErr result (is_some (drawn_told plan.now label.now.rank state) ≡ true) }
{
    match tell_drawn(alloc, plan, label.rank, state)? {
        Some(state) => {
            let label = label.name.copy(alloc)?;
            Ok(Some(Answer::Label { label, state }))
        }
        None => Ok(None),
    }
}

/// Tells the state of a label's port, where that is not the one that was told last.
#[tactic(auto, using(crate::proofs::Looking::told_before, crate::proofs::Looking::told_now))]
fn tell_label(
    line: &Line<'_>,
    tower: &Tower,
    label: &Label,
    state: Option<PortState>,
    trace: &mut Notes,
) -> Result<(), Memory>
    requires { state ≡ state_at tower.now label.now.rank label.now.port }
    ensures ok { OnOk result (trace.new ≡ trace.old ++ label_notes line.now.plan.now line.now.number tower.now label.now) }
    ensures err { OnErr result (trace.new ≡ trace.old) }
    ensures memory { OnErr result (label_notes line.now.plan.now line.now.number tower.now label.now ≢ []) }
{
    if is_same(state, label.shown) {
        return Ok(());
    }
    let says = say_label(line.alloc, line.plan, label, state)?;
    tell(trace, line.number, tick_of(tower), says)
}

/// Looks up the state of the label at this place, and tells it where that is not the one that was told last.
fn look_up_label(
    line: &Line<'_>,
    tower: &Tower,
    labels: &mut Labels,
    at: usize,
    trace: &mut Notes,
) -> Result<(), Memory>
    requires place { at < length labels.old }
    requires sound { IsTower tower.now }
    ensures notes { OnOk result ((l : Label) → slice_get labels.old at ≡ Some l → trace.new ≡ trace.old ++ label_notes line.now.plan.now line.now.number tower.now l) }
    ensures labels { OnOk result ((l : Label) → slice_get labels.old at ≡ Some l → labels.new ≡ slice_set labels.old at (shown_now tower.now l)) }
    ensures err { OnErr result (trace.new ≡ trace.old) }
    ensures memory { OnErr result ((l : Label) → slice_get labels.old at ≡ Some l → label_notes line.now.plan.now line.now.number tower.now l ≢ []) }
{
    let label = &labels.as_slice()[at];
    let state = state_at(tower, label.rank, label.port);
    let place = place_at(tower, label.rank, label.port);
    tell_label(line, tower, label, state, trace)?;
    labels.show(at, state);
    labels.note_place(at, place);
    Ok(())
}

/// Whether a label's port is of the facility of a row, and the end at a place of the row is its end and has the state that was
/// told last.
fn is_shown_in(row: &Row<'_>, place: usize, label: &Label) -> bool
    ensures { result ≡ true → IsShownIn row.now.rank row.now.fac row.now.ends.now label.now }
{
    label.rank == row.rank && label.port.fac == row.fac && is_shown_at(row.ends, place, label)
}

/// Goes from a place over all labels of which a row shows, at the places where their ends are likely to stand, that they have
/// the states that were told last. Tells the place behind them.
fn skip_shown(row: &Row<'_>, labels: &Labels, from: usize) -> usize
    requires { from ≤ length labels.now }
    ensures on { from ≤ result }
    ensures within { result ≤ length labels.now }
    ensures shown { (at : ℕ) (l : Label) → from ≤ at → at < result → slice_get labels.now at ≡ Some l → IsShownIn row.now.rank row.now.fac row.now.ends.now l }
{
    'labels: for at in from..labels.len() {
        if !is_shown_in(row, labels.likely_place(at), &labels.as_slice()[at]) {
            return at;
        }
    }
    labels.len()
}

/// Looks at the label at this place, and at those behind it that this row shows to be as they were. Tells the place behind them.
fn look_on(
    line: &Line<'_>,
    tower: &Tower,
    row: &Row<'_>,
    labels: &mut Labels,
    at: usize,
    trace: &mut Notes,
) -> Result<usize, Memory>
    requires place { at < length labels.old }
    requires size { length labels.old < 2 ^ 64 }
    requires sound { IsTower tower.now }
    requires row { row.now.ends.now ≡ ends_at tower.now row.now.rank row.now.fac }
    ensures on { IfOk result (λ next. at < next) }
    ensures within { IfOk result (λ next. next ≤ length labels.old) }
    ensures tells { IfOk result (λ next. (ls : List Label) (start : List Note) → HaveTold line.now.plan.now line.now.number tower.now ls start at labels.old trace.old → HaveTold line.now.plan.now line.now.number tower.now ls start next labels.new trace.new) }
    ensures err { OnErr result (trace.new ≡ trace.old) }
    ensures memory { OnErr result ((l : Label) → slice_get labels.old at ≡ Some l → label_notes line.now.plan.now line.now.number tower.now l ≢ []) }
{
    let next = skip_shown(row, labels, at);
    if next > at {
        return Ok(next);
    }
    look_up_label(line, tower, labels, at, trace)?;
    Ok(at + 1)
}

/// Tells the states of all labelled ports that changed since they were told last. Where none did, no memory is taken.
pub fn tell_labels(
    line: &Line<'_>,
    tower: &Tower,
    labels: &mut Labels,
    trace: &mut Notes,
) -> Result<(), Memory>
    requires { IsTower tower.now }
    ensures notes { OnOk result (trace.new ≡ trace.old ++ state_notes line.now.plan.now line.now.number tower.now labels.old) }
    ensures labels { OnOk result (labels.new ≡ looked tower.now labels.old) }
    ensures more { OnErr result (Extends trace.old trace.new) }
    ensures memory { OnErr result (state_notes line.now.plan.now line.now.number tower.now labels.old ≢ []) }
{
    let mut row = Row {
        rank: 0,
        fac: 0,
        ends: ends_at(tower, 0, 0),
    };
    let mut at = 0;
    'labels: while at < labels.len() {
        row = row_of(tower, row, &labels.as_slice()[at]);
        at = look_on(line, tower, &row, labels, at, trace)?;
    }
    Ok(())
}
