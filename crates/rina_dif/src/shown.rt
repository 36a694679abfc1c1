//! Objects as they are shown.
use rina_base::{Bytes, Seq};
use rina_rib::Class;

/// An object of an IPC process as it is shown.
#[derive(Drop)]
pub struct Shown {
    pub name: Bytes,
    pub class: Class,
    pub value: Bytes,
}

/// Objects as they are shown, seen as a list.
pub type Objects = Seq<Shown>;
