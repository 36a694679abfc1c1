//! What the calls of a facility refuse. The variants of each stand in the order in which they are tried.
use crate::state::{Fail, PortState};
use rina_base::{Addr, Memory, Port, Tick};
use std::alloc::AllocError;

/// Why a name was not registered.
#[derive(Clone, Copy, Debug, PartialEq, Eq)]
pub enum RegisterError {
    /// Memory was not found.
    Memory,
    /// The name is registered at that node.
    Already,
    /// The node has no place in the facility, or there is no such facility.
    NoMember,
    /// The member would need `need` version counts, and has `left`.
    CountSpent { need: u32, left: u32 },
}

/// Why a name was not taken back.
#[derive(Clone, Copy, Debug, PartialEq, Eq)]
pub enum UnregisterError {
    /// Memory was not found.
    Memory,
    /// The name is not registered at that node.
    NotThere,
    /// The member would need `need` version counts, and has `left`.
    CountSpent { need: u32, left: u32 },
}

/// Why a flow was not asked for.
#[derive(Clone, Copy, Debug, PartialEq, Eq)]
pub enum AllocateError {
    /// Memory was not found.
    Memory,
    /// The node has no place in the facility, or there is no such facility.
    NoMember,
    /// No cube meets the wish.
    NoCube,
    /// The application is known nowhere.
    NoSuchApp,
    /// The application is registered at the asking system itself.
    SameSystem,
    /// All CEP-ids are in use or at rest, or all ports of the node were drawn: `used` of them.
    NoIds { used: u32 },
    /// There is no way to that address, which is 0 on a wire that is cut.
    NoRoute { dst: Addr },
    /// The wire carries a flow, with this port at the asking node.
    Busy { port: Port },
    /// The member would need `need` invoke ids or version counts, and has `left`.
    CountSpent { need: u32, left: u32 },
}

/// Why an SDU was not sent.
#[derive(Clone, Copy, Debug, PartialEq, Eq)]
pub enum SendError {
    /// Memory was not found.
    Memory,
    /// The port is not allocated, or was never drawn.
    NotAllocated { state: Option<PortState> },
    /// The flow failed.
    Failed { fail: Fail },
    /// The SDU has `len` bytes, and the largest may have `max`.
    TooLong { len: usize, max: u32 },
    /// The SDU needs `need` pieces, and the window has room for `room`.
    WindowShut { need: u32, room: u32 },
    /// There is no way to that address.
    NoRoute { dst: Addr },
    /// The SDU needs `need` places in a queue that has `room`.
    QueueFull { need: u32, room: u32 },
    /// The sequence numbers are spent until that tick.
    NumbersSpent { until: Tick },
}

/// Why a port was not freed.
#[derive(Clone, Copy, Debug, PartialEq, Eq)]
pub enum FreeError {
    /// Memory was not found.
    Memory,
    /// The port was never drawn.
    NoPort,
}

impl From<AllocError> for RegisterError {
    ghost use Rattle.std.specs.Prelude.{◌≡◌};
    ghost use Rattle.rina_iface.specs.declared.error.RegisterError.TheVariants.{Memory};

    ghost from_gives = { λ _ e. e ≡ Memory };

    fn from(_error: AllocError) -> RegisterError {
        RegisterError::Memory
    }
}

impl From<Memory> for RegisterError {
    ghost use Rattle.std.specs.Prelude.{◌≡◌};
    ghost use Rattle.rina_iface.specs.declared.error.RegisterError.TheVariants.{Memory};

    ghost from_gives = { λ _ e. e ≡ Memory };

    fn from(_error: Memory) -> RegisterError {
        RegisterError::Memory
    }
}

impl From<Memory> for UnregisterError {
    ghost use Rattle.std.specs.Prelude.{◌≡◌};
    ghost use Rattle.rina_iface.specs.declared.error.UnregisterError.TheVariants.{Memory};

    ghost from_gives = { λ _ e. e ≡ Memory };

    fn from(_error: Memory) -> UnregisterError {
        UnregisterError::Memory
    }
}

impl From<AllocError> for AllocateError {
    ghost use Rattle.std.specs.Prelude.{◌≡◌};
    ghost use Rattle.rina_iface.specs.declared.error.AllocateError.TheVariants.{Memory};

    ghost from_gives = { λ _ e. e ≡ Memory };

    fn from(_error: AllocError) -> AllocateError {
        AllocateError::Memory
    }
}

impl From<Memory> for AllocateError {
    ghost use Rattle.std.specs.Prelude.{◌≡◌};
    ghost use Rattle.rina_iface.specs.declared.error.AllocateError.TheVariants.{Memory};

    ghost from_gives = { λ _ e. e ≡ Memory };

    fn from(_error: Memory) -> AllocateError {
        AllocateError::Memory
    }
}

impl From<AllocError> for SendError {
    ghost use Rattle.std.specs.Prelude.{◌≡◌};
    ghost use Rattle.rina_iface.specs.declared.error.SendError.TheVariants.{Memory};

    ghost from_gives = { λ _ e. e ≡ Memory };

    fn from(_error: AllocError) -> SendError {
        SendError::Memory
    }
}
