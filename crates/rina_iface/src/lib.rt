//! The trait `Facility` that every layer meets, and what a layer shows of its flows.
#![tactic(auto)]

mod ask;
mod ends;
mod error;
mod facility;
mod places;
mod registrations;
mod state;

pub use ask::{Ask, Fixed, Lent, Registered};
pub use ends::{End, Ends, Journal};
pub use error::{AllocateError, FreeError, RegisterError, SendError, UnregisterError};
pub use facility::Facility;
pub use registrations::{is_registered, name_place};
pub use rina_law::{Entries, Entry};
pub use state::{Fail, PortState, Role, Why};
