//! One direction of a connection by delta-t: its rows, and the laws by which its two journals keep the promise of a cube.
#![tactic(auto)]

mod counterexamples;
mod entry;
mod laws;

pub use counterexamples::{
    acknowledging_must_end, delta_t_suffices, flag_must_be_true, ids_must_rest, resending_must_end,
    sender_must_outlive_state, state_must_outlive_copies,
};
pub use entry::{Entries, Entry};
pub use laws::{
    acks_mean_delivery, arrivals_are_welcome, given_up_is_late, journals_are_kept, line_is_lawful,
    rows_keep_the_law, state_ends_by_clock,
};
