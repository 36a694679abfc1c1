//! Ids of connection endpoints: the least that is free is drawn, and one that is given back rests.
#![tactic(auto)]

mod ids;
mod members;
mod slot;

pub use ids::{Ids, NoIds};
pub use members::{Draw, MemberIds};
pub use slot::Slot;
