//! Next hops: over which link a PDU leaves for an address.
#![tactic(auto)]

mod claims;
mod hop;
mod laws;
mod link;
mod nodes;
mod routes;

pub use laws::what_is_written_is_claimed;
pub use link::Link;
pub use routes::Routes;
