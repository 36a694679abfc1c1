//! Messages.
ghost use Rattle.std.specs.Prelude.{◌≡◌};
ghost use Rattle.rina_cdap.specs.Messages.{is_response};
ghost use Rattle.rina_cdap.specs.Plain.{plain};

use crate::form::is_answer;
use rina_base::{Addr, AppName, Bytes, Name};

/// The numbers of the requests. The number of each request plus one is that of its response.
pub mod operation {
    pub const CONNECT: u8 = 0;

    pub const RELEASE: u8 = 2;

    pub const CREATE: u8 = 4;

    pub const DELETE: u8 = 6;

    pub const READ: u8 = 8;

    pub const CANCEL_READ: u8 = 10;

    pub const WRITE: u8 = 12;

    pub const START: u8 = 14;

    pub const STOP: u8 = 16;
}

/// A message: its fields in the order of their tags, 1 to 12. A request has no result, a response has one.
#[derive(Drop)]
pub struct Message {
    /// 0 to 17: an even number is a request, and the next one its response.
    pub operation: u8,
    /// What names a request in its response; 0 wants no response.
    pub invoke: u32,
    /// The class of the object.
    pub class: Option<Name>,
    /// The name of the object: 1 to 255 bytes of an object name.
    pub name: Option<Bytes>,
    /// The number of the object.
    pub instance: Option<u64>,
    /// At most 65,535 bytes.
    pub value: Option<Bytes>,
    /// How a request ended: 0 is success.
    pub result: Option<u8>,
    /// Why it ended so: at most 255 bytes.
    pub reason: Option<Bytes>,
    pub source_name: Option<AppName>,
    pub destination_name: Option<AppName>,
    pub destination_address: Option<Addr>,
    pub source_address: Option<Addr>,
}

impl Message {
    /// A message without any other field.
    pub fn new(operation: u8, invoke: u32) -> Message
        ensures { result ≡ plain operation invoke }
    {
        Message {
            operation,
            invoke,
            class: None,
            name: None,
            instance: None,
            value: None,
            result: None,
            reason: None,
            source_name: None,
            destination_name: None,
            destination_address: None,
            source_address: None,
        }
    }

    /// Whether it is a response.
    pub fn is_response(&self) -> bool
        ensures { result ≡ is_response self.now.operation }
    {
        is_answer(self.operation)
    }
}
