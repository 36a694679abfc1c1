//! CDAP messages as bytes: a row of fields with rising tags.
#![tactic(auto)]

mod error;
mod form;
mod laws;
mod message;
mod number;
mod reading;
mod writing;

pub use error::CdapError;
pub use laws::{there_is_one_first_fault, what_is_read_is_spelled_so, what_is_written_is_read};
pub use message::{Message, operation};
pub use number::{put_number, take_number};
pub use reading::read;
pub use writing::write;
