//! Why bytes are no message, or a message has no bytes.
use std::alloc::AllocError;

/// Why bytes are no message, or a message has no bytes. `at` is a place in bytes, counted from 0.
#[derive(Clone, Copy, Debug, PartialEq, Eq)]
pub enum CdapError {
    /// An allocation failed.
    Memory,
    /// The field that begins at `at` does not end within the bytes.
    Short { at: usize },
    /// The field that begins at `at` has a tag of 0, above 12, or below the one before.
    BadTag { at: usize },
    /// The operation `n` is above 17.
    BadOp { n: u8 },
    /// The tag is that of the field before.
    Twice { tag: u8 },
    /// The field of this tag is required, and is not there: 1 the operation, 2 the invoke id, 7 the result of a
    /// response.
    Missing { tag: u8 },
    /// The content of the field of this tag has not its form, or a request has a result (tag 7).
    BadValue { tag: u8 },
}

impl From<AllocError> for CdapError {
    ghost use Rattle.std.specs.Prelude.{◌≡◌};
    ghost use Rattle.rina_cdap.specs.declared.error.CdapError.TheVariants.{Memory};

    ghost from_gives = { λ _ e. e ≡ Memory };

    fn from(_error: AllocError) -> CdapError {
        CdapError::Memory
    }
}

impl CdapError {
    ghost use Rattle.std.specs.Prelude.{◌≡◌};
    ghost use Rattle.rina_cdap.specs.Faults.{is_memory};

    /// Whether it is `Memory`, which tells nothing of the bytes or the message.
    pub fn is_memory(self) -> bool
        ensures { result ≡ is_memory self }
    {
        matches!(self, CdapError::Memory)
    }
}
