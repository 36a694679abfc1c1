//! Where ticks and lifelines stand in a picture. Lengths are in units of the picture, a pixel each where it is shown as large as it is.
ghost use Rattle.std.specs.Prelude.{◌≡◌, ◌≤◌};
ghost use Rattle.rina_chart.specs.Frames.{frame_of, height_of, picture_height, picture_width, scale_of, span_of, step_of, top_of, x_beside, x_of, y_of};

use crate::window::Window;
use rina_base::Tick;

/// How high a tick is.
#[derive(Clone, Copy, Debug, PartialEq, Eq)]
pub enum Scale {
    /// 20 units a tick.
    Large,
    /// 6 units a tick.
    Middle,
    /// 2 units a tick.
    Small,
}

/// What a picture shows: its ticks, how high they are, and how many lifelines there are.
#[derive(Clone, Copy, Debug, PartialEq, Eq)]
pub struct Frame {
    pub window: Window,
    pub scale: Scale,
    pub lanes: usize,
}

/// How many ticks lie between the first and the last of a window.
pub(crate) fn span_of(window: Window) -> u32
    ensures { result ≡ span_of window }
{
    window.to.saturating_sub(window.from)
}

/// The scale of a picture of so many ticks.
#[tactic(auto, unfolding(crate::specs::Frames::scale_of))]
fn scale_of(span: u32) -> Scale
    ensures { result ≡ scale_of span }
{
    if span <= 100 {
        Scale::Large
    } else if span <= 400 {
        Scale::Middle
    } else {
        Scale::Small
    }
}

/// The frame of a picture of a window with so many lifelines.
pub(crate) fn frame_of(window: Window, lanes: usize) -> Frame
    ensures { result ≡ frame_of window lanes }
{
    Frame {
        window,
        scale: scale_of(span_of(window)),
        lanes,
    }
}

/// From how many ticks to how many one is labelled.
#[tactic(auto, unfolding(crate::specs::Frames::step_of))]
pub(crate) fn step_of(span: u32) -> u32
    ensures step { result ≡ step_of span }
    ensures some { 1 ≤ result }
{
    if span <= 40 {
        1
    } else if span <= 100 {
        5
    } else if span <= 400 {
        10
    } else if span <= 4000 {
        100
    } else {
        span / 40
    }
}

/// The height of some ticks.
#[tactic(auto, unfolding(crate::specs::Frames::height_of))]
fn height_of(scale: Scale, ticks: u32) -> u64
    ensures height { result ≡ height_of scale ticks }
    ensures small { result ≤ 85899345900 }
{
    let ticks = u64::from(ticks);
    match scale {
        Scale::Large => 20 * ticks,
        Scale::Middle => 6 * ticks,
        Scale::Small => 2 * ticks,
    }
}

/// How far down a tick stands.
#[tactic(auto, unfolding(crate::specs::Frames::y_of))]
pub(crate) fn y_of(scale: Scale, tick: Tick) -> u64
    ensures { result ≡ y_of scale tick }
{
    130 + height_of(scale, tick)
}

/// How far from the left a lifeline stands.
#[tactic(auto, unfolding(crate::specs::Frames::x_of))]
pub(crate) fn x_of(place: usize) -> u64
    ensures x { result ≡ x_of place }
    ensures small { result ≤ 13107120 }
{
    120 + 200 * place.min(65535) as u64
}

/// A point so far to the left of a lifeline, or to the right of it.
#[tactic(auto, unfolding(crate::specs::Frames::x_beside))]
pub(crate) fn x_beside(place: usize, by: u64, leftward: bool) -> u64
    requires { by ≤ 100 }
    ensures { result ≡ x_beside place by leftward }
{
    if leftward {
        x_of(place).saturating_sub(by)
    } else {
        x_of(place) + by
    }
}

/// Where the picture begins.
#[tactic(auto, unfolding(crate::specs::Frames::top_of))]
pub(crate) fn top_of(frame: Frame) -> u64
    ensures top { result ≡ top_of frame }
    ensures small { result ≤ 85899345900 }
{
    height_of(frame.scale, frame.window.from)
}

/// How high the picture is.
#[tactic(auto, unfolding(crate::specs::Frames::picture_height))]
pub(crate) fn picture_height(frame: Frame) -> u64
    ensures height { result ≡ picture_height frame }
    ensures small { result ≤ 85899346070 }
{
    170 + height_of(frame.scale, span_of(frame.window))
}

/// How wide the picture is, which has room for two lifelines at least.
#[tactic(auto, unfolding(crate::specs::Frames::picture_width))]
pub(crate) fn picture_width(frame: Frame) -> u64
    ensures { result ≡ picture_width frame }
{
    x_of(frame.lanes.max(2)).saturating_sub(80)
}
