//! Asks for flows, their answers and deletes: the laws of what is on its way, and of which ends a delete may close.
#![tactic(auto)]

mod counterexamples;
mod laws;

pub use counterexamples::{a_delete_may_close_another_flow, a_delete_may_come_too_early};
pub use laws::{
    bound_ends_are_fresh, deletes_close_what_they_name, far_ends_are_made_by_leave,
    late_answers_are_given_back, machines_act_by_rows, messages_are_of_their_flows,
    partners_have_each_other, requests_and_messages_hold,
};
