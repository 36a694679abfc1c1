//! The management of one IPC process: its state, its items, the enrolments on its links, and the messages that wait for
//! each link.
#![tactic(auto)]

mod agenda;
mod agent;
mod enrolment;
mod flood;
mod handle;
mod items;
mod joining;
mod laws;
mod leaving;
mod link;
mod message;
mod neighbours;
mod peer;
mod rows;
mod state;
mod text;
mod vectors;

pub use agenda::Agenda;
pub use agent::{Agent, first_items};
pub use enrolment::{End, Enrolment};
pub use laws::{a_joiner_has_what_the_member_told, each_link_has_its_messages_in_order};
pub use link::Link;
pub use message::{ManagementMessage, Waiting};
pub use neighbours::{Neighbour, link_state};
pub use state::{AgentError, MemberState};
pub use text::numbered;
