//! CDAP sessions: which messages may be sent and got when, and the requests that wait for their responses.
#![tactic(auto)]

mod laws;
mod session;

pub use laws::what_was_said_tells_the_session;
pub use session::{Session, SessionError, State};
