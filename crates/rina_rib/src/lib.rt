//! The objects of one IPC process, by name: its RIB (resource information base).
#![tactic(auto)]

mod caller;
mod error;
mod laws;
mod names;
mod object;
mod objects;
mod rib;
mod walk;

pub use caller::Caller;
pub use error::RibError;
pub use laws::{
    a_walk_passes_what_lies_under, an_operation_changes_one_object, cdap_changes_user_alone,
    numbers_are_drawn_once, objects_stand_in_a_tree,
};
pub use object::Object;
pub use rib::Rib;
pub use rina_base::Class;
pub use walk::Walk;
