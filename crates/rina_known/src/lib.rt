//! The directory entries that the members of a DIF keep and tell each other: each was made of a name that was registered.
#![tactic(auto)]

mod laws;

pub use laws::{
    allocate_finds_registered_names, calls_keep_known_names, known_names_were_registered,
    steps_keep_known_names,
};
