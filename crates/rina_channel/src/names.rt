//! The names that the PDUs of a management connection bear: on a link all are 0, and between its ends their places.
ghost use Rattle.std.specs.Prelude.{◌≡◌, ◌↔◌, map, IsTrue};
ghost use Rattle.rina_base.specs.Pdus.{pdu_of};
ghost use Rattle.rina_dif_law.specs.Ids.{IsOfLink};
ghost use Rattle.rina_channel.specs.Names.{named, unnamed};

use rina_base::{Addr, Pdu, PduView};

/// Whether a PDU is one of a link's management connection: its addresses, its CEP-ids and its QoS-id are 0.
pub fn is_of_link(pdu: &PduView<'_>) -> bool
    ensures { IsTrue result ↔ IsOfLink (pdu_of pdu.now) }
{
    pdu.src == 0 && pdu.dst == 0 && pdu.scep == 0 && pdu.dcep == 0 && pdu.qos == 0
}

/// A PDU that came on a link, with the place of the end that sent it and of the one that it came to.
pub fn named<'a>(pdu: &PduView<'a>, from: Addr, to: Addr) -> PduView<'a>
    ensures { pdu_of result ≡ named from to (pdu_of pdu.now) }
{
    PduView {
        src: from,
        dst: to,
        ..*pdu
    }
}

/// A PDU that an end made, as it crosses the link.
pub fn unnamed(pdu: Pdu) -> Pdu
    ensures { result ≡ unnamed pdu }
{
    Pdu {
        src: 0,
        dst: 0,
        ..pdu
    }
}

/// PDUs that an end made, as they cross the link. Takes no memory.
pub fn unname(pdus: &mut [Pdu])
    ensures { pdus.new ≡ map unnamed pdus.old }
{
    for pdu in pdus.iter_mut() {
        pdu.src = 0;
        pdu.dst = 0;
    }
}
