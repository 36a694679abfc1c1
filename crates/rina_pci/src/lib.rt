//! PDUs as bytes: protocol control information (PCI) and body, and the lifetime before them.
#![tactic(auto)]

mod error;
mod laws;
mod life;
mod reading;
mod widths;
mod writing;

pub use error::PciError;
pub use laws::{how_long_it_is, what_is_read_is_spelled_so, what_is_written_is_read};
pub use life::{read_life, write_life};
pub use reading::read_pdu;
pub use widths::{Widths, pci_len};
pub use writing::write_pdu;
