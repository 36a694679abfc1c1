//! Wires: the facilities of rank 0, which carry copies of frames.
#![tactic(auto)]

mod event;
mod flight;
mod tick;
mod wire;
mod wires;

pub use event::WireError;
pub use tick::TickError;
pub use wires::Wires;
