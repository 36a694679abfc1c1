//! One end of a connection: each call is passed on to its numbers, sender, receiver and acknowledgement plan.
#![tactic(auto)]

mod conn;
mod form;
mod laws;
mod made;
mod sending;
mod waiting;

pub use conn::{Conn, ConnDue, DueAck};
pub use form::{Form, Peer};
pub use laws::{connection_receives_on, spent_numbers_have_state};
pub use made::{Made, OfferError, Pdus};
pub use sending::{Admitted, Sending};
pub use waiting::Waiting;
