//! The laws of one DIF over any facility, each the contract of a function that does nothing.
#![tactic(auto)]

mod account;
mod laws;
mod write_offs;

pub use account::processes_stay_in_account;
pub use laws::{
    a_dif_that_stands_is_lawful, calls_are_later, calls_are_those_of_a_facility,
    calls_keep_standing, decisions_are_what_becomes, each_entry_has_a_sender,
    fixed_flows_may_be_made, names_stay, the_cloud_only_shrinks, the_rank_below_keeps_standing,
    what_stands_can_step, what_stands_is_a_facility, what_was_got_has_come,
};
pub use write_offs::each_write_off_has_its_cause;
