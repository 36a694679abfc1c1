//! The account of an IPC process: a line for each PDU that it wrote off, in order.
#![tactic(auto)]

mod ledger;

pub use ledger::{Ledger, Off};
