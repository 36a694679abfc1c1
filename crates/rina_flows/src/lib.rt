//! The flows of a DIF: the journal of their ends, and the connection of each end.
#![tactic(auto)]

mod alarms;
mod arrival;
mod conns;
mod due;
mod flows;
mod guesses;
mod laws;
mod stops;
mod watch;

pub use arrival::Notes;
pub use conns::Conns;
pub use due::Item;
pub use flows::Flows;
pub use laws::{calls_are_those_of_the_dif, flows_stay_tied};
