//! Why a PDU could not be written.
use std::alloc::AllocError;

/// Why a PDU could not be written.
#[derive(Clone, Copy, Debug, PartialEq, Eq)]
pub enum PciError {
    /// An allocation failed.
    Memory,
    /// The first field that does not fit its width, by its place in a PDU: 5 the destination's address, 6 the
    /// source's, 7 the destination's CEP-id, 8 the source's, 9 the length of the PDU, 10 the number of a piece or
    /// the acknowledged one, 11 the right edge of an acknowledgement.
    TooWide { field: u32 },
}

impl From<AllocError> for PciError {
    ghost use Rattle.std.specs.Prelude.{◌≡◌};
    ghost use Rattle.rina_pci.specs.declared.error.PciError.TheVariants.{Memory};

    ghost from_gives = { λ _ e. e ≡ Memory };

    fn from(_error: AllocError) -> PciError {
        PciError::Memory
    }
}
