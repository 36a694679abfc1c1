//! Ranks of DIFs over wires: each rank is a facility for the one above.
#![tactic(auto)]

mod applications;
mod build;
mod difs;
mod enrol;
mod events;
mod facility;
mod ledgers;
mod members;
mod memory;
mod objects;
mod places;
mod publish;
mod rest;
mod round;
mod steps;
mod tick;
mod top_rank;
mod tower;

pub use applications::AppError;
pub use difs::Difs;
pub use places::{LinkPlace, MemberPlace};
pub use publish::PublishError;
pub use tower::{Rank, Tower};
