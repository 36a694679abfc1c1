//! The pieces of an SDU that was accepted for sending, and why one is refused.
use rina_base::{Memory, Num, Pdu, Seq, Tick};
use std::alloc::AllocError;

/// PDUs, in the order in which they are sent.
pub type Pdus = Seq<Pdu>;

/// An SDU that was accepted: its number, and the PDUs that carry its pieces.
#[derive(Drop)]
pub struct Made {
    pub num: Num,
    pub pdus: Pdus,
}

/// Why an SDU is not accepted for sending. The variants stand in the order in which they are tried.
#[derive(Clone, Copy, Debug, PartialEq, Eq)]
pub enum OfferError {
    /// Memory was not found.
    Memory,
    /// The SDU has `len` bytes, and the largest may have `max`.
    TooLong { len: usize, max: u32 },
    /// The SDU needs `need` pieces, and the window has room for `room`.
    WindowShut { need: u32, room: u32 },
    /// The sequence numbers are spent until that tick.
    NumbersSpent { until: Tick },
}

impl From<AllocError> for OfferError {
    ghost use Rattle.std.specs.Prelude.{◌≡◌};
    ghost use Rattle.rina_conn.specs.declared.made.OfferError.TheVariants.{Memory};

    ghost from_gives = { λ _ e. e ≡ Memory };

    fn from(_error: AllocError) -> OfferError {
        OfferError::Memory
    }
}

impl From<Memory> for OfferError {
    ghost use Rattle.std.specs.Prelude.{◌≡◌};
    ghost use Rattle.rina_conn.specs.declared.made.OfferError.TheVariants.{Memory};

    ghost from_gives = { λ _ e. e ≡ Memory };

    fn from(_error: Memory) -> OfferError {
        OfferError::Memory
    }
}

impl From<rina_delim::Memory> for OfferError {
    ghost use Rattle.std.specs.Prelude.{◌≡◌};
    ghost use Rattle.rina_conn.specs.declared.made.OfferError.TheVariants.{Memory};

    ghost from_gives = { λ _ e. e ≡ Memory };

    fn from(_error: rina_delim::Memory) -> OfferError {
        OfferError::Memory
    }
}
