//! The chart of the notes of a run.
ghost use Rattle.std.specs.Prelude.{◌≡◌, ◌≤◌, IfOk, length};
ghost use Rattle.rina_chart.specs.Charts.{chart_text, columns_text, drawn_text, laid_out, text_in};
ghost use Rattle.rina_chart.specs.Outcome.{TellsDrawn};
ghost use Rattle.rina_chart.specs.Sdus.{window_or};
ghost use Rattle.rina_view.specs.Outcome.{TellsInput};

use crate::columns::columns;
use crate::event::{events_in, shown_marks, shown_sdus};
use crate::frame::frame_of;
use crate::mark::marks_of;
use crate::program::Format;
use crate::sdu::{Sdu, nodes_of, sdus_of, whole};
use crate::shape::picture;
use crate::svg::document;
use crate::window::Window;
use rina_base::Memory;
use rina_io::{Ending, Sink, Source, take_all};
use rina_report::{Fault, Note};
use rina_schedule::Text;
use rina_view::{End, Off, Status, Unread, ends_in, offs_in, read_notes, refuse, write};
use std::alloc::Global;

/// The window that is asked for, else that of all SDUs.
fn window_or(window: Option<Window>, sdus: &[Sdu]) -> Window
    ensures { result ≡ window_or window sdus.now }
{
    match window {
        Some(window) => window,
        None => whole(sdus),
    }
}

/// The chart of ends of flows.
#[tactic(auto, unfolding(crate::specs::Charts::drawn_text))]
fn drawn_text(
    alloc: Global,
    fac: &[u8],
    window: Option<Window>,
    ends: &[End],
    offs: &[Off],
) -> Result<Vec<u8>, Memory>
    ensures { IfOk result (λ v. v.items ≡ drawn_text fac.now window ends.now offs.now) }
{
    let nodes = nodes_of(alloc, fac, ends)?;
    let sdus = sdus_of(alloc, fac, nodes.as_slice(), ends, offs)?;
    let frame = frame_of(window_or(window, sdus.as_slice()), nodes.len());
    let shapes = picture(alloc, frame, nodes.as_slice(), sdus.as_slice())?;
    let mut text = Text::new(alloc);
    document(&mut text, fac, frame, shapes.as_slice())?;
    Ok(text.into_vec())
}

/// The chart of the SDUs that the notes of a run show as sent over flows of a facility: of a window of ticks, or of all.
pub fn chart_text(
    alloc: Global,
    fac: &[u8],
    window: Option<Window>,
    notes: &[Note],
) -> Result<Vec<u8>, Memory>
    ensures { IfOk result (λ v. v.items ≡ chart_text fac.now window notes.now) }
{
    let ends = ends_in(alloc, notes)?;
    let offs = offs_in(alloc, notes)?;
    drawn_text(alloc, fac, window, ends.as_slice(), offs.as_slice())
}

/// The chart of ends of flows in columns.
#[tactic(auto, unfolding(crate::specs::Charts::laid_out))]
fn laid_out(
    alloc: Global,
    fac: &[u8],
    window: Option<Window>,
    ends: &[End],
    offs: &[Off],
    notes: &[Note],
) -> Result<Vec<u8>, Memory>
    ensures { IfOk result (λ v. v.items ≡ laid_out fac.now window ends.now offs.now notes.now) }
{
    let nodes = nodes_of(alloc, fac, ends)?;
    let sdus = sdus_of(alloc, fac, nodes.as_slice(), ends, offs)?;
    let marks = marks_of(alloc, fac, nodes.as_slice(), notes)?;
    let sdus = shown_sdus(alloc, window, sdus.as_slice())?;
    let marks = shown_marks(alloc, window, marks.as_slice())?;
    let events = events_in(alloc, marks.as_slice(), sdus.as_slice())?;
    let mut text = Text::new(alloc);
    columns(&mut text, fac, window, nodes.as_slice(), events.as_slice())?;
    Ok(text.into_vec())
}

/// The same as a text in columns: a row for each tick at which an SDU was sent, arrived or did not, or an end of a flow failed.
pub fn columns_text(
    alloc: Global,
    fac: &[u8],
    window: Option<Window>,
    notes: &[Note],
) -> Result<Vec<u8>, Memory>
    ensures { IfOk result (λ v. v.items ≡ columns_text fac.now window notes.now) }
{
    let ends = ends_in(alloc, notes)?;
    let offs = offs_in(alloc, notes)?;
    laid_out(alloc, fac, window, ends.as_slice(), offs.as_slice(), notes)
}

/// The chart in a form.
fn text_in(
    alloc: Global,
    format: Format,
    fac: &[u8],
    window: Option<Window>,
    notes: &[Note],
) -> Result<Vec<u8>, Memory>
    ensures { IfOk result (λ v. v.items ≡ text_in format fac.now window notes.now) }
{
    match format {
        Format::Svg => chart_text(alloc, fac, window, notes),
        Format::Columns => columns_text(alloc, fac, window, notes),
    }
}

/// Writes the chart of an input that was read whole.
#[tactic(auto, using(crate::proofs::Writing::drawn_notes, crate::proofs::Writing::drawn_line, crate::proofs::Writing::drawn_nothing))]
fn chart_of<K: Sink>(
    alloc: Global,
    format: Format,
    fac: &[u8],
    window: Option<Window>,
    bytes: &[u8],
    out: &mut K,
) -> Status
    requires { length bytes.now ≤ 16777216 }
    ensures { TellsDrawn format fac.now window bytes.now (K.took out.old) (K.took out.new) result }
{
    match read_notes(alloc, bytes) {
        Ok(notes) => match text_in(alloc, format, fac, window, notes.as_slice()) {
            Ok(text) => write(out, text.as_slice(), Status::Done),
            Err(Memory) => Status::Memory,
        },
        Err(Unread::Memory) => Status::Memory,
        Err(Unread::Line { line, n, field }) => {
            refuse(alloc, out, Fault::Schedule { line, n, field })
        }
    }
}

/// Writes the chart of the SDUs that the notes of an input show as sent over flows of a facility.
pub(crate) fn chart<S: Source, K: Sink>(
    alloc: Global,
    format: Format,
    fac: &[u8],
    window: Option<Window>,
    input: &mut S,
    out: &mut K,
) -> Status
    ensures { TellsInput (TellsDrawn format fac.now window) (S.left input.old) (S.left input.new) (K.took out.old) (K.took out.new) result }
{
    let taken = take_all(alloc, input);
    match taken.ending {
        Ending::Whole => chart_of(alloc, format, fac, window, taken.bytes.as_slice(), out),
        Ending::TooLarge => refuse(alloc, out, Fault::TooLarge),
        Ending::Fault => refuse(alloc, out, Fault::ReadFault),
        Ending::Memory => Status::Memory,
    }
}
