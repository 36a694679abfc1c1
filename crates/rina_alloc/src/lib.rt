//! Flow allocation: the two machines of one ask for a flow, at the end that asks and at the far end, and the messages
//! about flows.
#![tactic(auto)]

mod answer;
mod asked;
mod asking;
mod event;
mod laws;
mod message;
mod reading;
mod writing;

pub use answer::FlowAnswer;
pub use asked::Asked;
pub use asking::Asking;
pub use event::{AskDo, AskEvent, Pair};
pub use laws::{
    a_message_has_one_spelling, a_message_is_short, an_answer_can_be_told,
    an_ask_is_bound_only_by_yes, an_ask_that_is_over_is_never_bound, an_end_is_given_up_once,
};
pub use message::{FlowAsk, FlowMessage, FlowWord};
pub use reading::read;
pub use writing::write;
