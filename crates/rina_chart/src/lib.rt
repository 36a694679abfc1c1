//! The SDUs of a run as a sequence chart: a lifeline for each node, an arrow for each SDU that arrived, a cross for each that did not.
#![tactic(auto)]

mod chart;
mod columns;
mod escape;
mod event;
mod frame;
mod lane;
mod laws;
mod mark;
mod program;
mod sdu;
mod shape;
mod svg;
mod window;

pub use chart::{chart_text, columns_text};
pub use escape::add_escaped;
pub use event::{Event, events_in};
pub use frame::{Frame, Scale};
pub use laws::{
    each_sdu_in_the_window_has_its_row, each_sdu_in_the_window_is_drawn, what_is_escaped_is_safe,
};
pub use mark::{Failed, Failure, Mark, marks_of};
pub use program::{Format, look};
pub use sdu::{Sdu, nodes_of, sdus_of};
pub use shape::{Label, Point, Shape, picture};
pub use window::{Window, window_in};
