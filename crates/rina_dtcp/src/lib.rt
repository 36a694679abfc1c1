//! Data transfer control (DTCP): what is sent again or given up, the window, and when an acknowledgement is made.
#![tactic(auto)]

mod credit;
mod plan;
mod sent;
mod tx;

pub use credit::Credit;
pub use plan::AckPlan;
pub use sent::{GaveUp, Sent};
pub use tx::Tx;
