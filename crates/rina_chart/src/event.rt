//! What happens to the SDUs of a facility, tick by tick.
ghost use Rattle.std.specs.Prelude.{◌≡◌, ◌≤◌, ◌<◌, ◌+◌, ◌++◌, ℕ, [], IfOk, OnOk};
ghost use Rattle.std.specs.List.{filter_map};
ghost use Rattle.rina_chart.specs.Events.{ended, event_at, events_at, events_in, failed_at, is_shown, is_shown_mark, last_mark, last_of, shown_marks, shown_sdus};
ghost use Rattle.rina_chart.specs.Sdus.{latest};

use crate::mark::{Mark, add};
use crate::sdu::{Sdu, last_tick, latest, meets};
use crate::window::Window;
use rina_base::{Memory, Seq, Tick};
use std::alloc::Global;

/// What a row of a chart in columns tells.
#[derive(Clone, Copy, Debug, PartialEq, Eq)]
pub enum Event {
    /// An end of a flow failed.
    Failed(Mark),
    /// An SDU was sent, which arrived at a later tick.
    Sent(Sdu),
    /// An SDU arrived.
    Got(Sdu),
    /// An SDU was sent that did not arrive.
    NotGot(Sdu),
}

/// What is told of an SDU at its last tick.
fn ended(sdu: &Sdu) -> Event
    ensures { result ≡ ended sdu.now }
{
    match sdu.got {
        Some(_) => Event::Got(*sdu),
        None => Event::NotGot(*sdu),
    }
}

/// What happens to an SDU at a tick.
#[tactic(auto, unfolding(crate::specs::Events::event_at))]
fn event_at(at: u64, sdu: &Sdu) -> Option<Event>
    ensures { result ≡ event_at at sdu.now }
{
    if u64::from(last_tick(sdu)) == at {
        Some(ended(sdu))
    } else if u64::from(sdu.sent) == at {
        Some(Event::Sent(*sdu))
    } else {
        None
    }
}

/// The failure of an end at a tick.
#[tactic(auto, unfolding(crate::specs::Events::failed_at))]
fn failed_at(at: u64, mark: &Mark) -> Option<Event>
    ensures { result ≡ failed_at at mark.now }
{
    if u64::from(mark.failed.at) == at {
        Some(Event::Failed(*mark))
    } else {
        None
    }
}

/// Whether an SDU is in the window that is asked for, where one is.
fn is_shown(window: Option<Window>, sdu: &Sdu) -> bool
    ensures { result ≡ is_shown window sdu.now }
{
    match window {
        Some(window) => meets(window, sdu),
        None => true,
    }
}

/// Whether an end failed in the window that is asked for, where one is.
fn is_shown_mark(window: Option<Window>, mark: &Mark) -> bool
    ensures { result ≡ is_shown_mark window mark.now }
{
    match window {
        Some(window) => window.from <= mark.failed.at && mark.failed.at <= window.to,
        None => true,
    }
}

/// The SDUs that are shown.
pub(crate) fn shown_sdus(
    alloc: Global,
    window: Option<Window>,
    sdus: &[Sdu],
) -> Result<Seq<Sdu>, Memory>
    ensures { IfOk result (λ shown. shown ≡ shown_sdus window sdus.now) }
{
    let mut shown = Seq::new(alloc);
    'sdus: for sdu in sdus {
        if is_shown(window, sdu) {
            shown.push(*sdu)?;
        }
    }
    Ok(shown)
}

/// The failures that are shown.
pub(crate) fn shown_marks(
    alloc: Global,
    window: Option<Window>,
    marks: &[Mark],
) -> Result<Seq<Mark>, Memory>
    ensures { IfOk result (λ shown. shown ≡ shown_marks window marks.now) }
{
    let mut shown = Seq::new(alloc);
    'marks: for mark in marks {
        if is_shown_mark(window, mark) {
            shown.push(*mark)?;
        }
    }
    Ok(shown)
}

/// The greatest of a tick and those of some failures.
#[tactic(auto, using(std::proofs::lemmas::List::drop_more))]
fn last_mark(first: Tick, marks: &[Mark]) -> Tick
    ensures { result ≡ last_mark first marks.now }
{
    let mut last = first;
    'marks: for mark in marks {
        last = last.max(mark.failed.at);
    }
    last
}

/// The last tick at which something happens, 0 where nothing does.
fn last_of(marks: &[Mark], sdus: &[Sdu]) -> Tick
    ensures { result ≡ last_of marks.now sdus.now }
{
    last_mark(latest(0, sdus), marks)
}

/// The earlier of a tick and another one, where that is not before `at`.
fn sooner(at: u64, tick: Tick, other: u64) -> u64
    requires { at ≤ other }
    ensures later { at ≤ result }
    ensures within { result ≤ other }
    ensures first { at ≤ tick → result ≤ tick }
{
    let tick = u64::from(tick);
    if at <= tick && tick < other {
        tick
    } else {
        other
    }
}

/// The first tick from `at` on, up to `end`, at which something happens to an SDU, or `end`.
fn next_of_sdus(at: u64, end: u64, sdus: &[Sdu]) -> u64
    requires { at ≤ end }
    ensures later { at ≤ result }
    ensures within { result ≤ end }
    ensures silent { (k : ℕ) → at ≤ k → k < result → filter_map (event_at k) sdus.now ≡ [] }
{
    let mut next = end;
    'sdus: for sdu in sdus {
        let until = sooner(at, sdu.sent, next);
        next = sooner(at, last_tick(sdu), until);
    }
    next
}

/// The first tick from `at` on, up to `end`, at which an end failed, or `end`.
fn next_of_marks(at: u64, end: u64, marks: &[Mark]) -> u64
    requires { at ≤ end }
    ensures later { at ≤ result }
    ensures within { result ≤ end }
    ensures silent { (k : ℕ) → at ≤ k → k < result → filter_map (failed_at k) marks.now ≡ [] }
{
    let mut next = end;
    'marks: for mark in marks {
        next = sooner(at, mark.failed.at, next);
    }
    next
}

/// The first tick from `at` on, up to `end`, at which something happens, or `end`.
fn next_of(at: u64, end: u64, marks: &[Mark], sdus: &[Sdu]) -> u64
    requires { at ≤ end }
    ensures later { at ≤ result }
    ensures within { result ≤ end }
    ensures silent { (k : ℕ) → at ≤ k → k < result → events_at marks.now sdus.now k ≡ [] }
{
    next_of_sdus(at, next_of_marks(at, end, marks), sdus)
}

/// Adds the failures of a tick.
fn add_failed(events: &mut Seq<Event>, at: u64, marks: &[Mark]) -> Result<(), Memory>
    ensures { OnOk result (events.new ≡ events.old ++ filter_map (failed_at at) marks.now) }
{
    'marks: for mark in marks {
        add(events, failed_at(at, mark))?;
    }
    Ok(())
}

/// Adds what happens to SDUs at a tick.
fn add_of_sdus(events: &mut Seq<Event>, at: u64, sdus: &[Sdu]) -> Result<(), Memory>
    ensures { OnOk result (events.new ≡ events.old ++ filter_map (event_at at) sdus.now) }
{
    'sdus: for sdu in sdus {
        add(events, event_at(at, sdu))?;
    }
    Ok(())
}

/// Adds what happens at a tick.
#[tactic(auto, unfolding(crate::specs::Events::events_at))]
fn add_events(events: &mut Seq<Event>, at: u64, marks: &[Mark], sdus: &[Sdu]) -> Result<(), Memory>
    ensures { OnOk result (events.new ≡ events.old ++ events_at marks.now sdus.now at) }
{
    add_failed(events, at, marks)?;
    add_of_sdus(events, at, sdus)
}

/// What happens, tick by tick: at each tick the ends that failed, then the SDUs that were sent or arrived, in their order.
pub fn events_in(alloc: Global, marks: &[Mark], sdus: &[Sdu]) -> Result<Seq<Event>, Memory>
    ensures { IfOk result (λ events. events ≡ events_in marks.now sdus.now) }
{
    let mut events = Seq::new(alloc);
    let end = u64::from(last_of(marks, sdus)) + 1;
    let mut at = next_of(0, end, marks, sdus);
    'ticks: while at < end {
        add_events(&mut events, at, marks, sdus)?;
        at = next_of(at + 1, end, marks, sdus);
    }
    Ok(events)
}
