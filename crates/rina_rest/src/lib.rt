//! CEP-ids that rest and are drawn again: the laws by which no connection gets what was sent on an earlier one.
#![tactic(auto)]

mod counterexamples;
mod laws;

pub use counterexamples::{
    ids_must_rest_until_still, old_ask_must_make_no_far_end, own_id_is_no_key,
};
pub use laws::{
    asks_and_answers_stay, drawn_ids_are_free, ended_direction_is_still,
    live_pdus_are_of_connections_in_use, new_connections_are_fresh,
};
