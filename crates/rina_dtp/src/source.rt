//! Where the pieces of a connection come from.
ghost use Rattle.std.specs.Prelude.{◌≡◌};
ghost use Rattle.rina_base.specs.Pdus.{pdu_of};
ghost use Rattle.rina_dtp.specs.Source.{source_of, key_at};

use rina_base::{Addr, Cep, Key, PduKind, PduView};

/// The sender, and the CEP-id to which it sends. All pieces of a connection come from one source.
#[derive(Clone, Copy, Debug, PartialEq, Eq)]
pub struct Source {
    pub src: Addr,
    pub scep: Cep,
    pub dcep: Cep,
}

impl Source {
    /// Where a PDU comes from.
    pub fn of(pdu: &PduView<'_>) -> Source
        ensures { result ≡ source_of (pdu_of pdu.now) }
    {
        Source {
            src: pdu.src,
            scep: pdu.scep,
            dcep: pdu.dcep,
        }
    }

    /// The key of its piece of a number.
    pub fn key(self, number: u32) -> Key
        ensures { result ≡ key_at self number }
    {
        Key {
            kind: PduKind::Piece,
            src: self.src,
            scep: self.scep,
            seq: number,
        }
    }
}
