//! The laws of flooding: what members that links join come to keep. There is no code; each law is the contract of a function
//! that does nothing.
#![tactic(auto)]

mod laws;

pub use laws::{
    a_dif_tells_links_and_entries, a_gap_loses_an_item, a_journal_tells_texts, a_run_comes_to_rest,
    floods_end, lost_links_are_told, members_are_a_network, members_keep_the_newest,
    members_start_as_a_network, quiet_members_agree, what_comes_was_made_by_a_member,
};
