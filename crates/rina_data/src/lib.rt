//! One IPC process of a distributed IPC facility (DIF): what it queues, sends, relays and writes off, over any facility
//! below.
#![tactic(auto)]

mod departure;
mod hop;
mod link;
mod loss;
mod process;
mod settings;
mod step;

pub use hop::{HopView, charge, left_after, open, protect};
pub use link::{Link, Route, live_link, next_link};
pub use loss::{Lost, lost_link};
pub use process::IpcProcess;
pub use settings::{Member, Settings};
pub use step::{ClockStep, Decision, InStep, OutStep, StepError, Took};
