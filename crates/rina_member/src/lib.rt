//! The management of a member of a DIF: the items of the start, its links, those that it gets and those that it loses, the next
//! hops over them, its objects, and the SDUs that it sends and handles.
#![tactic(auto)]

mod edges;
mod entries;
mod handling;
mod laws;
mod links;
mod loss;
mod management;
mod new_links;
mod next_hops;
mod objects;
mod ranges;
mod sending;
mod start;
mod texts;

pub use edges::{addr_at, edges_from};
pub use entries::{registered, unregistered};
pub use handling::after_sdu;
pub use laws::{
    a_link_without_an_enrolment_brings_items_alone, a_member_knows_its_links,
    a_member_of_a_static_dif_keeps_the_plan, a_member_stays_enrolled,
    a_member_tells_short_messages, a_message_changes_the_objects_of_its_items,
    an_item_that_is_news_is_taken, an_sdu_is_one_message, its_items_are_entries,
    the_start_claims_the_plan,
};
pub use links::live_links;
pub use loss::without_link;
pub use management::Management;
pub use new_links::{claimed, joining};
pub use next_hops::routes_of;
pub use objects::{first_objects, flow_name, tell};
pub use start::{first_enrolled, start_items, started, starts_enrolled};
pub use texts::node_of;
