//! Versioned items of which the newest is kept, key by key.
#![tactic(auto)]

mod item;
mod law;
mod newest;

pub use item::{Item, Version};
pub use law::newest_of_all_takes;
pub use newest::Newest;
