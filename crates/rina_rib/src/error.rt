//! Why an operation on objects is refused.
use rina_base::Class;
use std::alloc::AllocError;

/// Why an operation on objects is refused. They are tried in this order.
#[derive(Clone, Copy, Debug, PartialEq, Eq)]
pub enum RibError {
    /// An allocation failed.
    Memory,
    /// There is no object of this name.
    NoObject,
    /// There is an object of this name.
    Exists,
    /// The name without its last part is not there, or no folder.
    NoParent,
    /// There is an object whose name has one part more.
    HasChildren,
    /// The object is of another class.
    WrongClass { kept: Class },
    /// The object does not admit it, or not to this caller: 4 create, 6 delete, 12 write, 14 start, 16 stop.
    NotAllowed { op: u8 },
}

impl From<AllocError> for RibError {
    ghost use Rattle.std.specs.Prelude.{◌≡◌};
    ghost use Rattle.rina_rib.specs.declared.error.RibError.TheVariants.{Memory};

    ghost from_gives = { λ _ e. e ≡ Memory };

    fn from(_error: AllocError) -> RibError {
        RibError::Memory
    }
}
