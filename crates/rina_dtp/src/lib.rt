//! Data transfer (DTP): the sequence numbers of a sender, and the receiver that accepts, holds and joins pieces.
#![tactic(auto)]

mod accepted;
mod gap;
mod join;
mod laws;
mod numbers;
mod place;
mod ring;
mod rx;
mod sdu;
mod shelf;
mod slot;
mod source;
mod verdict;

pub use accepted::Accepted;
pub use gap::{Gap, Lost};
pub use join::Join;
pub use laws::receiver_stands_on;
pub use numbers::{Numbers, NumbersSpent};
pub use place::Place;
pub use ring::Ring;
pub use rx::Rx;
pub use sdu::{Bodies, Sdu};
pub use shelf::Shelf;
pub use slot::Slot;
pub use source::Source;
pub use verdict::{Judged, Verdict};
