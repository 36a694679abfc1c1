//! The directory: at which address an application is registered.
#![tactic(auto)]

mod key;
mod law;
mod lookup;

pub use key::{LONGEST_KEY, write_key};
pub use law::{a_written_address_is_found, entries_stay, keys_tell_names_apart};
pub use lookup::find;
