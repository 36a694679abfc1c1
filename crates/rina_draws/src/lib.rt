//! Draws from a seed, and what a storm does with a frame. The generator is PCG's with a state of 64 bits and an
//! output of 32.
#![tactic(auto)]

mod draws;
mod storm;

pub use draws::{draw, seeded};
pub use storm::{Fate, draw_fate};
