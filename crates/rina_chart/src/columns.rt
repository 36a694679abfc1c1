//! The text of a chart in columns.
ghost use Rattle.std.specs.Prelude.{◌≡◌, ◌++◌, map};
ghost use Rattle.std.specs.List.{flat_map};
ghost use Rattle.rina_schedule.specs.Spelling.{Adds};
ghost use Rattle.rina_report.specs.Values.{flow_text};
ghost use Rattle.rina_chart.specs.Columns.{columns, event_tick, event_words, got_words, head_line, not_got_words, printable, row_text, sdu_words, title, title_window, tick_cell, why_words};

use crate::event::Event;
use crate::lane::{add_cells, add_names, add_times, lane_width, stroke_of};
use crate::mark::{Failure, Mark};
use crate::sdu::{Sdu, last_tick};
use crate::window::Window;
use itoa::Buffer;
use rina_base::{Memory, Name, Tick};
use rina_schedule::Text;
use rina_view::{flow, num};

/// The tick of an event.
#[tactic(auto, unfolding(crate::specs::Columns::event_tick))]
fn event_tick(event: &Event) -> Tick
    ensures { result ≡ event_tick event.now }
{
    match event {
        Event::Failed(mark) => mark.failed.at,
        Event::Sent(sdu) | Event::NotGot(sdu) => sdu.sent,
        Event::Got(sdu) => last_tick(sdu),
    }
}

/// Appends the name of its flow and the number of an SDU.
#[tactic(auto, unfolding(crate::specs::Columns::sdu_words))]
fn sdu_words(text: &mut Text, sdu: &Sdu) -> Result<(), Memory>
    ensures { Adds result text.old text.new (sdu_words sdu.now) }
{
    flow(text, sdu.flow)?;
    text.push(b' ')?;
    num(text, sdu.num)
}

/// Appends that an SDU arrived, and after how many ticks.
#[tactic(auto, unfolding(crate::specs::Columns::got_words))]
fn got_words(text: &mut Text, sdu: &Sdu) -> Result<(), Memory>
    ensures { Adds result text.old text.new (got_words sdu.now) }
{
    sdu_words(text, sdu)?;
    text.add(b" after ")?;
    text.number(u64::from(last_tick(sdu).saturating_sub(sdu.sent)))
}

/// Appends that an SDU did not arrive.
#[tactic(auto, unfolding(crate::specs::Columns::not_got_words))]
fn not_got_words(text: &mut Text, sdu: &Sdu) -> Result<(), Memory>
    ensures { Adds result text.old text.new (not_got_words sdu.now) }
{
    sdu_words(text, sdu)?;
    text.add(b" not got")
}

#[tactic(auto, unfolding(crate::specs::Columns::why_words))]
fn why_words(why: Failure) -> &'static [u8]
    ensures { result.now ≡ why_words why }
{
    match why {
        Failure::Cut => b" cut",
        Failure::GaveUp => b" gave up",
    }
}

/// Appends the name of a flow whose end failed, and why.
fn failed_words(text: &mut Text, mark: &Mark) -> Result<(), Memory>
    ensures { Adds result text.old text.new (flow_text mark.now.flow ++ why_words mark.now.failed.why) }
{
    flow(text, mark.flow)?;
    text.add(why_words(mark.failed.why))
}

/// Appends what an event is.
#[tactic(auto, unfolding(crate::specs::Columns::event_words))]
fn event_words(text: &mut Text, event: &Event) -> Result<(), Memory>
    ensures { Adds result text.old text.new (event_words event.now) }
{
    match event {
        Event::Failed(mark) => failed_words(text, mark),
        Event::Sent(sdu) => sdu_words(text, sdu),
        Event::Got(sdu) => got_words(text, sdu),
        Event::NotGot(sdu) => not_got_words(text, sdu),
    }
}

/// Appends a tick in eight columns, at the right, and two columns behind it.
#[tactic(auto, unfolding(crate::specs::Columns::tick_cell))]
fn tick_cell(text: &mut Text, tick: Tick) -> Result<(), Memory>
    ensures { Adds result text.old text.new (tick_cell tick) }
{
    let mut buffer = Buffer::new();
    let digits = buffer.format(tick).as_bytes();
    add_times(text, b' ', 8usize.saturating_sub(digits.len()))?;
    text.add(digits)?;
    text.add(b"  ")
}

/// Appends the row of an event.
#[tactic(auto, unfolding(crate::specs::Columns::row_text))]
fn row(text: &mut Text, width: usize, nodes: &[Name], event: &Event) -> Result<(), Memory>
    ensures { Adds result text.old text.new (row_text width nodes.now event.now) }
{
    tick_cell(text, event_tick(event))?;
    add_cells(text, width, stroke_of(event), nodes)?;
    event_words(text, event)?;
    text.push(b'\n')
}

/// Appends the rows of events, in their order.
#[tactic(auto, using(std::proofs::lemmas::List::drop_more))]
fn rows(text: &mut Text, width: usize, nodes: &[Name], events: &[Event]) -> Result<(), Memory>
    ensures { Adds result text.old text.new (flat_map (row_text width nodes.now) events.now) }
{
    'events: for event in events {
        row(text, width, nodes, event)?;
    }
    Ok(())
}

/// The byte as it is shown, which is ? where a terminal shows none.
#[tactic(auto, unfolding(crate::specs::Columns::printable))]
fn printable(byte: u8) -> u8
    ensures { result ≡ printable byte }
{
    if 32 <= byte && byte <= 126 {
        byte
    } else {
        b'?'
    }
}

/// Appends bytes as they are shown.
#[tactic(auto, using(std::proofs::lemmas::List::drop_more))]
fn add_printable(text: &mut Text, bytes: &[u8]) -> Result<(), Memory>
    ensures { Adds result text.old text.new (map printable bytes.now) }
{
    'bytes: for byte in bytes {
        text.push(printable(*byte))?;
    }
    Ok(())
}

/// Appends the window that is asked for.
#[tactic(auto, unfolding(crate::specs::Columns::title_window))]
fn title_window(text: &mut Text, window: Option<Window>) -> Result<(), Memory>
    ensures { Adds result text.old text.new (title_window window) }
{
    match window {
        Some(window) => {
            text.add(b", ticks ")?;
            text.number(u64::from(window.from))?;
            text.add(b" to ")?;
            text.number(u64::from(window.to))
        }
        None => Ok(()),
    }
}

/// Appends the facility and the window that is asked for.
#[tactic(auto, unfolding(crate::specs::Columns::title))]
fn title(text: &mut Text, fac: &[u8], window: Option<Window>) -> Result<(), Memory>
    ensures { Adds result text.old text.new (title fac.now window) }
{
    text.add(b"SDUs of ")?;
    add_printable(text, fac)?;
    title_window(text, window)?;
    text.push(b'\n')
}

/// Appends the names of the columns.
#[tactic(auto, unfolding(crate::specs::Columns::head_line))]
fn head_line(text: &mut Text, width: usize, nodes: &[Name]) -> Result<(), Memory>
    ensures { Adds result text.old text.new (head_line width nodes.now) }
{
    text.add(b"    tick  ")?;
    add_names(text, width, nodes)?;
    text.add(b"SDU\n")
}

/// Appends a chart in columns.
#[tactic(auto, unfolding(crate::specs::Columns::columns))]
pub(crate) fn columns(
    text: &mut Text,
    fac: &[u8],
    window: Option<Window>,
    nodes: &[Name],
    events: &[Event],
) -> Result<(), Memory>
    ensures { Adds result text.old text.new (columns fac.now window nodes.now events.now) }
{
    let width = lane_width(nodes);
    title(text, fac, window)?;
    head_line(text, width, nodes)?;
    rows(text, width, nodes, events)
}
