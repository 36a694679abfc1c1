//! The widths of the fields of a PDU.
ghost use Rattle.std.specs.Prelude.{◌≡◌, ◌<◌};
ghost use Rattle.rina_pci.specs.Spelling.{pci_size};

use rina_base::PduKind;

/// How many bytes the fields of a DIF's PDUs have: each 1, 2 or 4.
#[derive(Clone, Copy, Debug, PartialEq, Eq)]
pub struct Widths {
    /// An address.
    pub addr: u8,
    /// A CEP-id.
    pub cep: u8,
    /// The length of a PDU.
    pub len: u8,
    /// A sequence number.
    pub seq: u8,
}

/// How many bytes of a PDU stand before its body.
#[tactic(auto, unfolding(crate::specs::Spelling::pci_size))]
pub fn pci_len(kind: PduKind, w: Widths) -> u32
    ensures size { result ≡ pci_size kind w }
    ensures small { result < 4096 }
{
    let fixed = 4 + 2 * u32::from(w.addr) + 2 * u32::from(w.cep) + u32::from(w.len);
    match kind {
        PduKind::Piece => fixed + u32::from(w.seq),
        PduKind::Ack => fixed + 2 * u32::from(w.seq),
    }
}
