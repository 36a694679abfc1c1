//! Policies that pick what is sent next, and the shelf on which they stand by name.
#![tactic(auto)]

mod built_in;
mod count;
mod picks;
mod policy;
mod shelf;

pub use built_in::{First, Last, Round, Strict, Weighted};
pub use count::Count;
pub use picks::{Picks, Retires};
pub use policy::{Head, Policy};
pub use shelf::{NoPolicy, Place, Shelf, ShelfError};
