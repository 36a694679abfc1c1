//! Enrolment: the two machines of one enrolment, at the joiner and at the member that it joins, and the messages
//! that neighbours send over their link.
#![tactic(auto)]

mod event;
mod joiner;
mod laws;
mod member;
mod message;
mod reading;
mod writing;

pub use event::{EnrolDo, EnrolEvent};
pub use joiner::Joiner;
pub use laws::{
    a_joiner_is_enrolled_by_stop, a_member_tells_its_items_to_whom_it_allowed,
    a_message_has_one_spelling, a_message_is_short,
};
pub use member::Member;
pub use message::LinkMessage;
pub use reading::read;
pub use writing::write;
