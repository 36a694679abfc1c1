//! The way of a flow through a DIF, hop by hop: what it charges a PDU at least, and what that leaves of the PDU's lifetime.
#![tactic(auto)]

mod hop;
mod laws;
mod row;
mod slack;
mod walk;
mod words;

pub use hop::{Hop, address, hop_at};
pub use laws::a_pdu_arrives_with_its_slack;
pub use row::{Row, row_of};
pub use slack::{Slack, charges, slack_of};
pub use walk::way;
pub use words::{add_row, node_name};
