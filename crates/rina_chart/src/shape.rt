//! The shapes of a picture, in the order in which they are drawn.
ghost use Rattle.std.specs.Prelude.{◌≡◌, ◌++◌, ◌+◌, ◌≤◌, IfOk, OnOk, count_by, drop, length, map};
ghost use Rattle.rina_chart.specs.Shapes.{one_shape, rise, anchor_of, band, begins_beside, end_anchor, is_leftward, label_of, lifeline, lifelines_from, picture, point_at, sdu_shape, sdu_shapes, start_anchor, stub, tick_shape, tick_shapes, ticks_from};

use crate::frame::{
    Frame, picture_height, picture_width, span_of, step_of, top_of, x_beside, x_of, y_of,
};
use crate::sdu::{Sdu, last_tick, meets};
use crate::window::Window;
use rina_base::{FlowName, Memory, Name, Num, Seq, Tick};
use std::alloc::Global;

/// A point of a picture, from the left and from above, in units of the picture.
#[derive(Clone, Copy, Debug, PartialEq, Eq)]
pub struct Point {
    pub x: u64,
    pub y: u64,
}

/// The name of a flow and the number of an SDU, as a text beside a point.
#[derive(Clone, Copy, Debug, PartialEq, Eq)]
pub struct Label {
    pub at: Point,
    /// Whether the text ends at the point; else it begins there.
    pub leftward: bool,
    pub flow: FlowName,
    pub num: Num,
}

/// A shape of a picture.
#[derive(Drop)]
pub enum Shape {
    /// A tick at the left, and a line across the picture.
    Tick {
        tick: Tick,
        y: u64,
        width: u64,
    },
    /// An SDU that arrived.
    Arrow {
        from: Point,
        to: Point,
        label: Label,
    },
    /// An SDU that did not arrive.
    Cross {
        from: Point,
        to: Point,
        label: Label,
    },
    /// The head, in which the names of the nodes stand.
    Band {
        y: u64,
        width: u64,
    },
    /// The lifeline of a node below its name.
    Lifeline {
        top: Point,
        bottom: Point,
        node: Name,
    },
}

/// Where the label of an SDU stands: beside a lifeline, at a tick.
#[derive(Clone, Copy, Debug, PartialEq, Eq)]
pub(crate) struct Anchor {
    pub(crate) place: usize,
    pub(crate) tick: Tick,
    pub(crate) leftward: bool,
}

/// The point of a lifeline at a tick.
fn point_at(frame: Frame, place: usize, tick: Tick) -> Point
    ensures { result ≡ point_at frame place tick }
{
    Point {
        x: x_of(place),
        y: y_of(frame.scale, tick),
    }
}

/// Whether the arrow of an SDU points to the left.
fn is_leftward(sdu: &Sdu) -> bool
    ensures { result ≡ is_leftward sdu.now }
{
    sdu.to < sdu.from
}

/// The end of the stub of an SDU that did not arrive.
fn stub(frame: Frame, sdu: &Sdu) -> Point
    ensures { result ≡ stub frame sdu.now }
{
    Point {
        x: x_beside(sdu.from, 24, is_leftward(sdu)),
        y: y_of(frame.scale, sdu.sent),
    }
}

/// The label of an SDU at its sender.
fn start_anchor(sdu: &Sdu) -> Anchor
    ensures { result ≡ start_anchor sdu.now }
{
    Anchor {
        place: sdu.from,
        tick: sdu.sent,
        leftward: is_leftward(sdu),
    }
}

/// The label of an SDU at its receiver.
fn end_anchor(sdu: &Sdu) -> Anchor
    ensures { result ≡ end_anchor sdu.now }
{
    Anchor {
        place: sdu.to,
        tick: last_tick(sdu),
        leftward: !is_leftward(sdu),
    }
}

/// Where the label of an SDU stands: at its sender, or at its receiver where it was sent before the window.
#[tactic(auto, unfolding(crate::specs::Shapes::anchor_of))]
fn anchor_of(window: Window, sdu: &Sdu) -> Anchor
    ensures { result ≡ anchor_of window sdu.now }
{
    if window.from <= sdu.sent {
        start_anchor(sdu)
    } else {
        end_anchor(sdu)
    }
}

/// How far above its line a label stands that has so many labels below it.
fn rise(below: usize) -> u64
    ensures { result ≡ rise below }
{
    7 + 12 * below.min(4) as u64
}

/// The label of an SDU that has so many labels below it.
#[tactic(auto, unfolding(crate::specs::Shapes::label_of))]
fn label_of(frame: Frame, below: usize, sdu: &Sdu) -> Label
    ensures { result ≡ label_of frame below sdu.now }
{
    let anchor = anchor_of(frame.window, sdu);
    Label {
        at: Point {
            x: x_beside(anchor.place, 8, anchor.leftward),
            y: y_of(frame.scale, anchor.tick).saturating_sub(rise(below)),
        },
        leftward: anchor.leftward,
        flow: sdu.flow,
        num: sdu.num,
    }
}

/// The arrow of an SDU that arrived, or the cross of one that did not.
#[tactic(auto, unfolding(crate::specs::Shapes::sdu_shape))]
fn sdu_shape(frame: Frame, below: usize, sdu: &Sdu) -> Shape
    ensures { result ≡ sdu_shape frame below sdu.now }
{
    let from = point_at(frame, sdu.from, sdu.sent);
    let label = label_of(frame, below, sdu);
    match sdu.got {
        Some(tick) => Shape::Arrow {
            from,
            to: point_at(frame, sdu.to, tick),
            label,
        },
        None => Shape::Cross {
            from,
            to: stub(frame, sdu),
            label,
        },
    }
}

/// Whether another SDU of the window was sent by the same node at the same tick.
#[tactic(auto, unfolding(crate::specs::Shapes::begins_beside))]
fn begins_beside(window: Window, sdu: &Sdu, other: &Sdu) -> bool
    ensures { result ≡ begins_beside window sdu.now other.now }
{
    meets(window, other) && other.from == sdu.from && other.sent == sdu.sent
}

/// How many of some SDUs were sent by the same node at the same tick.
fn count_beside(window: Window, sdu: &Sdu, others: &[Sdu]) -> usize
    ensures { result ≡ count_by (begins_beside window sdu.now) others.now }
{
    others
        .iter()
        .filter(|other| begins_beside(window, sdu, other))
        .count()
}

fn later_than(sdus: &[Sdu], at: usize) -> &[Sdu]
    requires { at ≤ length sdus.now }
    ensures { result.now ≡ drop at sdus.now }
{
    sdus.split_at(at).1
}

/// Adds the shape of an SDU, where it meets the window.
fn add_sdu(shapes: &mut Seq<Shape>, frame: Frame, sdu: &Sdu, later: &[Sdu]) -> Result<(), Memory>
    ensures { OnOk result (shapes.new ≡ shapes.old ++ one_shape frame sdu.now later.now) }
{
    if meets(frame.window, sdu) {
        let below = count_beside(frame.window, sdu, later);
        shapes.push(sdu_shape(frame, below, sdu))?;
    }
    Ok(())
}

/// Adds the arrows and crosses of the SDUs that meet the window.
fn add_sdus(shapes: &mut Seq<Shape>, frame: Frame, sdus: &[Sdu]) -> Result<(), Memory>
    ensures { OnOk result (shapes.new ≡ shapes.old ++ sdu_shapes frame sdus.now) }
{
    let mut at = 0usize;
    'sdus: for sdu in sdus {
        at += 1;
        add_sdu(shapes, frame, sdu, later_than(sdus, at))?;
    }
    Ok(())
}

/// The line of a tick.
fn tick_shape(frame: Frame, tick: Tick) -> Shape
    ensures { result ≡ tick_shape frame tick }
{
    Shape::Tick {
        tick,
        y: y_of(frame.scale, tick),
        width: picture_width(frame),
    }
}

/// Adds the lines of so many ticks.
#[tactic(auto, using(crate::proofs::Shaping::tick_on))]
fn add_ticks(shapes: &mut Seq<Shape>, frame: Frame, step: u32, count: u64) -> Result<(), Memory>
    ensures { OnOk result (shapes.new ≡ shapes.old ++ map (tick_shape frame) (ticks_from step frame.window.from count)) }
{
    let mut tick = frame.window.from;
    'ticks: for _place in 0..count {
        shapes.push(tick_shape(frame, tick))?;
        tick = tick.saturating_add(step);
    }
    Ok(())
}

/// Adds the lines of the ticks that are labelled.
#[tactic(auto, unfolding(crate::specs::Shapes::tick_shapes))]
fn add_scale(shapes: &mut Seq<Shape>, frame: Frame) -> Result<(), Memory>
    ensures { OnOk result (shapes.new ≡ shapes.old ++ tick_shapes frame) }
{
    let span = span_of(frame.window);
    let step = step_of(span);
    add_ticks(shapes, frame, step, u64::from(span / step) + 1)
}

/// The lifeline of a node.
#[tactic(auto, unfolding(crate::specs::Shapes::lifeline))]
fn lifeline(alloc: Global, frame: Frame, place: usize, node: &Name) -> Result<Shape, Memory>
    ensures { IfOk result (λ s. s ≡ lifeline frame place node.now) }
{
    let x = x_of(place);
    let top = top_of(frame);
    Ok(Shape::Lifeline {
        top: Point { x, y: top + 60 },
        bottom: Point {
            x,
            y: top + picture_height(frame),
        },
        node: node.copy(alloc)?,
    })
}

/// Adds the lifelines of the nodes.
#[tactic(auto, using(crate::proofs::Shaping::lifeline_on))]
fn add_lifelines(
    alloc: Global,
    shapes: &mut Seq<Shape>,
    frame: Frame,
    nodes: &[Name],
) -> Result<(), Memory>
    ensures { OnOk result (shapes.new ≡ shapes.old ++ lifelines_from frame 0 nodes.now) }
{
    let mut place = 0usize;
    'nodes: for node in nodes {
        shapes.push(lifeline(alloc, frame, place, node)?)?;
        place += 1;
    }
    Ok(())
}

/// The head of a picture.
fn band(frame: Frame) -> Shape
    ensures { result ≡ band frame }
{
    Shape::Band {
        y: top_of(frame),
        width: picture_width(frame),
    }
}

/// The shapes of a picture: the labelled ticks, an arrow or a cross for each SDU that meets the window, the head, and the lifelines.
pub fn picture(
    alloc: Global,
    frame: Frame,
    nodes: &[Name],
    sdus: &[Sdu],
) -> Result<Seq<Shape>, Memory>
    ensures { IfOk result (λ shapes. shapes ≡ picture frame nodes.now sdus.now) }
{
    let mut shapes = Seq::new(alloc);
    add_scale(&mut shapes, frame)?;
    add_sdus(&mut shapes, frame, sdus)?;
    shapes.push(band(frame))?;
    add_lifelines(alloc, &mut shapes, frame, nodes)?;
    Ok(shapes)
}
