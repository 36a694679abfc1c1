//! Reading PDUs.
ghost use Rattle.std.specs.Prelude.{◌≡◌, IfSome, Some, option_map};
ghost use Rattle.rina_base.specs.declared.pdu.Pdu.{Pdu};
ghost use Rattle.rina_base.specs.Pdus.{pdu_of};
ghost use Rattle.rina_pci.specs.Spelling.{IsWidth, AreWidths, Fits, spelling};
ghost use Rattle.rina_pci.specs.Reading.{number_at, head_of, head_at, addresses_at, numbers_at, pdu_at};

use crate::widths::Widths;
use rina_base::{Addr, Cep, PduKind, PduView};

/// The first four bytes of a PDU.
#[derive(Clone, Copy)]
struct Head {
    kind: PduKind,
    drf: bool,
    first: bool,
    last: bool,
    qos: u8,
}

/// The addresses and CEP-ids of a PDU.
#[derive(Clone, Copy)]
struct Addresses {
    dst: Addr,
    src: Addr,
    dcep: Cep,
    scep: Cep,
}

/// The sequence numbers of a PDU.
#[derive(Clone, Copy)]
struct Numbers {
    seq: u32,
    ack: u32,
    right: u32,
}

/// The number in the first bytes, and the bytes after it.
#[tactic(auto, unfolding(crate::specs::Reading::number_at, crate::specs::Reading::from_be))]
fn read_number(width: u8, bytes: &[u8]) -> Option<(u32, &[u8])>
    requires { IsWidth width }
    ensures { option_map (λ x. (x.0, x.1.now)) result ≡ number_at width bytes.now }
{
    if bytes.len() < width as usize {
        return None;
    }
    let (front, rest) = bytes.split_at(width as usize);
    let number = match width {
        1 => u32::from(front[0]),
        2 => u32::from(u16::from_be_bytes([front[0], front[1]])),
        _ => u32::from_be_bytes([front[0], front[1], front[2], front[3]]),
    };
    Some((number, rest))
}

#[tactic(auto, unfolding(crate::specs::Reading::head_of))]
fn read_flags(flags: u8, code: u8, qos: u8) -> Option<Head>
    ensures { result ≡ head_of flags code qos }
{
    if flags >= 8 {
        None
    } else if code == 1 {
        Some(Head {
            kind: PduKind::Piece,
            drf: flags % 2 == 1,
            first: flags / 2 % 2 == 1,
            last: flags / 4 == 1,
            qos,
        })
    } else if code == 2 && flags == 0 {
        Some(Head {
            kind: PduKind::Ack,
            drf: false,
            first: false,
            last: false,
            qos,
        })
    } else {
        None
    }
}

#[tactic(auto, unfolding(crate::specs::Reading::head_at))]
fn read_head(bytes: &[u8]) -> Option<(Head, &[u8])>
    ensures { option_map (λ x. (x.0, x.1.now)) result ≡ head_at bytes.now }
{
    match bytes {
        [version, flags, code, qos, rest @ ..] => {
            if *version != 1 {
                return None;
            }
            let head = read_flags(*flags, *code, *qos)?;
            Some((head, rest))
        }
        _ => None,
    }
}

#[tactic(auto, unfolding(crate::specs::Reading::addresses_at))]
fn read_addresses(w: Widths, bytes: &[u8]) -> Option<(Addresses, &[u8])>
    requires { AreWidths w }
    ensures { option_map (λ x. (x.0, x.1.now)) result ≡ addresses_at w bytes.now }
{
    let (dst, rest) = read_number(w.addr, bytes)?;
    let (src, rest) = read_number(w.addr, rest)?;
    let (dcep, rest) = read_number(w.cep, rest)?;
    let (scep, rest) = read_number(w.cep, rest)?;
    Some((
        Addresses {
            dst,
            src,
            dcep,
            scep,
        },
        rest,
    ))
}

/// The numbers of a PDU, and its body.
#[tactic(auto, unfolding(crate::specs::Reading::numbers_at))]
fn read_numbers(w: Widths, kind: PduKind, bytes: &[u8]) -> Option<(Numbers, &[u8])>
    requires { AreWidths w }
    ensures { option_map (λ x. (x.0, x.1.now)) result ≡ numbers_at w kind bytes.now }
{
    match kind {
        PduKind::Piece => {
            let (seq, body) = read_number(w.seq, bytes)?;
            Some((
                Numbers {
                    seq,
                    ack: 0,
                    right: 0,
                },
                body,
            ))
        }
        PduKind::Ack => {
            let (ack, rest) = read_number(w.seq, bytes)?;
            let (right, rest) = read_number(w.seq, rest)?;
            if !rest.is_empty() {
                return None;
            }
            Some((Numbers { seq: 0, ack, right }, rest))
        }
    }
}

#[tactic(auto, unfolding(crate::specs::Reading::pdu_at))]
fn read_whole(bytes: &[u8], w: Widths) -> Option<PduView<'_>>
    requires { AreWidths w }
    ensures { option_map pdu_of result ≡ pdu_at w bytes.now }
{
    let (head, rest) = read_head(bytes)?;
    let (addresses, rest) = read_addresses(w, rest)?;
    let (len, rest) = read_number(w.len, rest)?;
    let (numbers, body) = read_numbers(w, head.kind, rest)?;
    if len as usize != bytes.len() {
        return None;
    }
    Some(PduView {
        kind: head.kind,
        dst: addresses.dst,
        src: addresses.src,
        qos: head.qos,
        dcep: addresses.dcep,
        scep: addresses.scep,
        drf: head.drf,
        first: head.first,
        last: head.last,
        seq: numbers.seq,
        ack: numbers.ack,
        right: numbers.right,
        body,
    })
}

/// The PDU that the bytes are, with its body lent; takes no memory. None exactly where they are no PDU.
pub fn read_pdu(bytes: &[u8], w: Widths) -> Option<PduView<'_>>
    requires { AreWidths w }
    // What is read is spelled so.
    ensures found { IfSome result (λ v. Fits w (pdu_of v) × (bytes.now ≡ spelling w (pdu_of v))) }
    // What is spelled so is read.
    ensures only { (p : Pdu) → Fits w p → bytes.now ≡ spelling w p → option_map pdu_of result ≡ Some p }
    ensures exact { option_map pdu_of result ≡ pdu_at w bytes.now }
{
    read_whole(bytes, w)
}
