//! Names, numbers, ports and PDUs: the values that every layer speaks of.
#![tactic(auto)]

mod app_name;
mod cause;
mod class;
mod decimal;
mod memory;
mod name;
mod number;
mod object_name;
mod pdu;
mod seq;
mod storm;

pub use app_name::AppName;
pub use cause::Cause;
pub use class::Class;
pub use decimal::{read_decimal, read_number};
pub use memory::Memory;
pub use name::{Name, NameError};
pub use number::{Addr, Cep, FlowName, Key, Node, Num, Port, Tick};
pub use object_name::{ObjectName, is_object_name};
pub use pdu::{Pdu, PduKind, PduView};
pub use seq::{Bytes, Seq};
pub use storm::Storm;
