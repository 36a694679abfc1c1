//! The plan of the stack that a TOML text describes, or the first rule that it breaks, with the item that breaks it.
#![tactic(auto)]

mod duplicates;
mod order;
mod plan;
mod policies;
mod read;
mod references;
mod rules;
mod shelf;

pub use plan::{Plan, WirePlan};
pub use policies::{BuiltIn, Policies};
pub use read::read_stack;
pub use rina_table::{Rounds, StackError};
