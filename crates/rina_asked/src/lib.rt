//! The ends that the messages about flows on their way in a DIF tell of: they stand in the DIF's journal.
#![tactic(auto)]

mod laws;

pub use laws::{
    asks_are_alone, calls_keep_asks_alone, calls_keep_ends, calls_keep_messages_single,
    calls_keep_waiting_asks, late_yeses_go_back, looks_find_askers, looks_find_far_ends,
    messages_are_single, messages_have_their_ends, no_look_fails, steps_keep_asks_alone,
    steps_keep_ends, steps_keep_messages_single, steps_keep_waiting_asks, time_outs_come_late,
    waiting_asks_have_their_messages,
};
