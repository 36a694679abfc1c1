//! The management connections of a DIF's links: one at each link, over which two IPC processes exchange messages.
#![tactic(auto)]

mod channel;
mod laws;
mod ledger;
mod names;

pub use channel::{Attachment, Channel, channel_at, peer_at};
pub use laws::{
    arrivals_keep_channels, calls_are_those_of_channels, channels_leave_flows,
    flows_leave_channels, links_get_channels, messages_are_kept, out_steps_keep_channels,
    rows_keep_channels, the_rank_below_keeps_channels,
};
pub use ledger::{stop_with_room, unname_lines};
pub use names::{is_of_link, named, unname, unnamed};
