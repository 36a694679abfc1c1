//! The queues of one IPC process: one for each cube and link, first in, first out.
#![tactic(auto)]

mod queue;
mod queues;

pub use queue::{Queue, QueueFull, Queued};
pub use queues::Queues;
