//! Delimiting: an SDU is cut into pieces, and pieces are joined to SDUs.
#![tactic(auto)]

mod joiner;
mod laws;
mod memory;
mod part;

pub use joiner::{Joined, Joiner, Run};
pub use laws::{parts_join_again, whole_is_one_sdu};
pub use memory::Memory;
pub use part::{Part, cut};
