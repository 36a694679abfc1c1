//! A row of a chart in columns: what is drawn on the lifelines, and between them.
ghost use Rattle.std.specs.Prelude.{◌≡◌, ◌-◌, replicate};
ghost use Rattle.rina_schedule.specs.Spelling.{Adds};
ghost use Rattle.rina_chart.specs.Lanes.{arrow_gap, cell, cells_from, crosses, first_glyph, gap, glyph, is_between, last_glyph, longest, lane_width, name_cell, name_cells, stroke_of};

use crate::event::Event;
use rina_base::{Memory, Name};
use rina_schedule::Text;

/// What a row shows on the lifelines.
#[derive(Clone, Copy, Debug, PartialEq, Eq)]
pub(crate) enum Stroke {
    /// A sign on a lifeline.
    Sign { place: usize, glyph: u8 },
    /// An arrow from a lifeline to another one.
    Arrow { from: usize, to: usize },
}

/// What a row shows of an event.
#[tactic(auto, unfolding(crate::specs::Lanes::stroke_of))]
pub(crate) fn stroke_of(event: &Event) -> Stroke
    ensures { result ≡ stroke_of event.now }
{
    match event {
        Event::Failed(mark) => Stroke::Sign {
            place: mark.place,
            glyph: b'#',
        },
        Event::Sent(sdu) => Stroke::Sign {
            place: sdu.from,
            glyph: b'o',
        },
        Event::Got(sdu) => Stroke::Arrow {
            from: sdu.from,
            to: sdu.to,
        },
        Event::NotGot(sdu) => Stroke::Sign {
            place: sdu.from,
            glyph: b'x',
        },
    }
}

/// Whether a lifeline stands between two others.
#[tactic(auto, unfolding(crate::specs::Lanes::is_between))]
fn is_between(from: usize, to: usize, place: usize) -> bool
    ensures { result ≡ is_between from to place }
{
    from.min(to) < place && place < from.max(to)
}

/// What stands on a lifeline.
#[tactic(auto, unfolding(crate::specs::Lanes::glyph))]
fn glyph(stroke: Stroke, place: usize) -> u8
    ensures { result ≡ glyph stroke place }
{
    match stroke {
        Stroke::Sign { place: at, glyph } => { if place == at { glyph } else { b'|' } }
        Stroke::Arrow { from, to } => {
            if is_between(from, to, place) {
                b'+'
            } else {
                b'|'
            }
        }
    }
}

/// Whether an arrow between two lifelines goes through the gap behind a lifeline.
#[tactic(auto, unfolding(crate::specs::Lanes::crosses))]
fn crosses(from: usize, to: usize, place: usize) -> bool
    ensures { result ≡ crosses from to place }
{
    from.min(to) <= place && place < from.max(to)
}

/// What an arrow shows at the left of a gap.
#[tactic(auto, unfolding(crate::specs::Lanes::first_glyph))]
fn first_glyph(from: usize, to: usize, place: usize) -> u8
    ensures { result ≡ first_glyph from to place }
{
    if to < from && place == to { b'<' } else { b'-' }
}

/// What an arrow shows at the right of a gap.
#[tactic(auto, unfolding(crate::specs::Lanes::last_glyph))]
fn last_glyph(from: usize, to: usize, place: usize) -> u8
    ensures { result ≡ last_glyph from to place }
{
    if from < to && place == to - 1 {
        b'>'
    } else {
        b'-'
    }
}

/// Appends a byte so many times.
pub(crate) fn add_times(text: &mut Text, byte: u8, count: usize) -> Result<(), Memory>
    ensures { Adds result text.old text.new (replicate count byte) }
{
    'bytes: for _place in 0..count {
        text.push(byte)?;
    }
    Ok(())
}

/// Appends the part of an arrow in a gap.
#[tactic(auto, unfolding(crate::specs::Lanes::arrow_gap))]
fn arrow_gap(
    text: &mut Text,
    width: usize,
    from: usize,
    to: usize,
    place: usize,
) -> Result<(), Memory>
    ensures { Adds result text.old text.new (arrow_gap width from to place) }
{
    text.push(first_glyph(from, to, place))?;
    add_times(text, b'-', width.saturating_sub(3))?;
    text.push(last_glyph(from, to, place))
}

/// Appends what stands behind a lifeline, up to the next one.
fn gap(text: &mut Text, width: usize, stroke: Stroke, place: usize) -> Result<(), Memory>
    ensures { Adds result text.old text.new (gap width stroke place) }
{
    match stroke {
        Stroke::Sign { .. } => add_times(text, b' ', width.saturating_sub(1)),
        Stroke::Arrow { from, to } => {
            if crosses(from, to, place) {
                arrow_gap(text, width, from, to, place)
            } else {
                add_times(text, b' ', width.saturating_sub(1))
            }
        }
    }
}

/// Appends a lifeline and what stands behind it.
#[tactic(auto, unfolding(crate::specs::Lanes::cell))]
fn cell(text: &mut Text, width: usize, stroke: Stroke, place: usize) -> Result<(), Memory>
    ensures { Adds result text.old text.new (cell width stroke place) }
{
    text.push(glyph(stroke, place))?;
    gap(text, width, stroke, place)
}

/// Appends the lifelines of some nodes.
#[tactic(auto, using(crate::proofs::Laying::cell_on))]
pub(crate) fn add_cells(
    text: &mut Text,
    width: usize,
    stroke: Stroke,
    nodes: &[Name],
) -> Result<(), Memory>
    ensures { Adds result text.old text.new (cells_from width stroke 0 nodes.now) }
{
    let mut place = 0usize;
    'nodes: for _node in nodes {
        cell(text, width, stroke, place)?;
        place += 1;
    }
    Ok(())
}

/// How many bytes the longest of some names has.
#[tactic(auto, using(std::proofs::lemmas::List::drop_more))]
fn longest(nodes: &[Name]) -> usize
    ensures { result ≡ longest 0 nodes.now }
{
    let mut most = 0usize;
    'nodes: for node in nodes {
        most = most.max(node.as_bytes().len());
    }
    most
}

/// From how many columns to how many there is a lifeline.
#[tactic(auto, unfolding(crate::specs::Lanes::lane_width))]
pub(crate) fn lane_width(nodes: &[Name]) -> usize
    ensures { result ≡ lane_width nodes.now }
{
    longest(nodes).min(64).max(8) + 2
}

/// Appends a name, as wide as its lifeline.
#[tactic(auto, unfolding(crate::specs::Lanes::name_cell))]
fn name_cell(text: &mut Text, width: usize, node: &Name) -> Result<(), Memory>
    ensures { Adds result text.old text.new (name_cell width node.now) }
{
    let name = node.as_bytes();
    text.add(name)?;
    add_times(text, b' ', width.saturating_sub(name.len()))
}

/// Appends names, each above its lifeline.
#[tactic(auto, using(std::proofs::lemmas::List::drop_more))]
pub(crate) fn add_names(text: &mut Text, width: usize, nodes: &[Name]) -> Result<(), Memory>
    ensures { Adds result text.old text.new (name_cells width nodes.now) }
{
    'nodes: for node in nodes {
        name_cell(text, width, node)?;
    }
    Ok(())
}
