//! CDAP messages that are answered by the objects of one IPC process.
#![tactic(auto)]

mod answering;
mod laws;
mod reply;

pub use answering::answer;
pub use laws::an_answer_shows_what_a_read_gives;
