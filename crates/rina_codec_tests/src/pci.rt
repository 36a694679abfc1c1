//! PDUs and lifetimes as bytes.
ghost use Rattle.std.specs.Prelude.{◌≡◌, IfOk};
ghost use Rattle.rina_base.specs.Pdus.{IsProper};
ghost use Rattle.rina_base.specs.declared.pdu.PduKind.TheVariants.{Piece};

use rina_base::{Bytes, Pdu, PduKind};
use rina_pci::{PciError, Widths, pci_len, read_life, read_pdu, write_life, write_pdu};
use std::alloc::{AllocError, Global};

const WIDTHS: Widths = Widths {
    addr: 1,
    cep: 1,
    len: 2,
    seq: 2,
};

/// One byte for each address, CEP-id, length and number.
const NARROW: Widths = Widths {
    addr: 1,
    cep: 1,
    len: 1,
    seq: 1,
};

/// A piece from address 1 to 2 on cube 1, with CEP-ids 1.
const PIECE: [u8; 13] = [1, 7, 1, 1, 2, 1, 1, 1, 0, 13, 0, 0, 0x61];

/// The same behind a lifetime of 260 ticks.
const PROTECTED: [u8; 17] = [0, 0, 1, 4, 1, 7, 1, 1, 2, 1, 1, 1, 0, 13, 0, 0, 0x61];

/// An acknowledgement from address 2 to 1 on cube 3, with CEP-ids 3.
const ACK: [u8; 14] = [1, 0, 2, 3, 1, 2, 3, 3, 0, 14, 0, 3, 0, 7];

fn piece(alloc: Global, dst: u32, seq: u32, body: &[u8]) -> Result<Pdu, AllocError>
    ensures { IfOk result (λ p. (p.kind ≡ Piece) × (p.ack ≡ 0) × (p.right ≡ 0)) }
{
    Ok(Pdu {
        kind: PduKind::Piece,
        dst,
        src: 1,
        qos: 1,
        dcep: 1,
        scep: 1,
        drf: true,
        first: true,
        last: true,
        seq,
        ack: 0,
        right: 0,
        body: Bytes::copy_of(alloc, body)?,
    })
}

fn is_written(alloc: Global, pdu: &Pdu, wanted: &[u8]) -> bool
    requires { IsProper pdu.now }
{
    match write_pdu(alloc, pdu, WIDTHS) {
        Ok(bytes) => bytes.as_slice() == wanted,
        Err(_) => false,
    }
}

fn piece_is_written(alloc: Global) -> bool {
    match piece(alloc, 2, 0, b"a") {
        Ok(pdu) => is_written(alloc, &pdu, &PIECE),
        Err(_) => false,
    }
}

fn ack_is_written(alloc: Global) -> bool {
    let pdu = Pdu {
        kind: PduKind::Ack,
        dst: 1,
        src: 2,
        qos: 3,
        dcep: 3,
        scep: 3,
        drf: false,
        first: false,
        last: false,
        seq: 0,
        ack: 3,
        right: 7,
        body: Bytes::new(alloc),
    };
    is_written(alloc, &pdu, &ACK)
}

/// Whether the piece is written behind its lifetime.
fn is_protected(alloc: Global) -> bool {
    match write_life(alloc, 260, &PIECE) {
        Ok(bytes) => bytes.as_slice() == PROTECTED.as_slice(),
        Err(_) => false,
    }
}

#[test]
fn pdus_and_lifetimes_are_written(rt: HostRuntime) {
    let alloc = rt.alloc();
    assert!(rt;
        piece_is_written(alloc)
            && is_protected(alloc)
            && ack_is_written(alloc)
            && pci_len(PduKind::Ack, WIDTHS) == 14
    );
}

/// Whether this is the first field of a piece of number 256 that does not fit one byte.
fn is_too_wide(alloc: Global, dst: u32, body: &[u8], field: u32) -> bool {
    match piece(alloc, dst, 256, body) {
        Ok(pdu) => write_pdu(alloc, &pdu, NARROW).err() == Some(PciError::TooWide { field }),
        Err(_) => false,
    }
}

#[test]
fn the_first_wide_field_is_named(rt: HostRuntime) {
    let alloc = rt.alloc();
    assert!(rt;
        is_too_wide(alloc, 256, b"", 5)
            && is_too_wide(alloc, 2, &[0; 246], 9)
            && is_too_wide(alloc, 2, b"", 10)
    );
}

/// Whether these bytes are the piece.
fn is_piece(bytes: &[u8]) -> bool {
    match read_pdu(bytes, WIDTHS) {
        Some(pdu) => {
            (pdu.kind, pdu.dst, pdu.src, pdu.qos) == (PduKind::Piece, 2, 1, 1)
                && (pdu.dcep, pdu.scep, pdu.seq) == (1, 1, 0)
                && (pdu.drf, pdu.first, pdu.last) == (true, true, true)
                && pdu.body == b"a".as_slice()
        }
        None => false,
    }
}

/// Whether the piece is read behind its lifetime.
fn piece_is_read() -> bool {
    match read_life(&PROTECTED) {
        Some((life, bytes)) => life == 260 && is_piece(bytes),
        None => false,
    }
}

fn ack_is_read() -> bool {
    match read_pdu(&ACK, WIDTHS) {
        Some(pdu) => (pdu.kind, pdu.ack, pdu.right) == (PduKind::Ack, 3, 7),
        None => false,
    }
}

#[test]
fn pdus_and_lifetimes_are_read(rt: HostRuntime) {
    assert!(rt; piece_is_read() && ack_is_read() && read_life(&[0, 0, 1]).is_none());
}

/// The piece with another byte at a place.
fn changed(at: usize, byte: u8) -> [u8; 13] {
    let mut bytes = PIECE;
    if at < bytes.len() {
        bytes[at] = byte;
    }
    bytes
}

/// Places, and bytes that make the piece no PDU there.
static CHANGES: [(usize, u8); 7] = [(0, 2), (1, 8), (2, 0), (2, 2), (2, 3), (9, 14), (9, 12)];

/// Whether no piece that is changed so is a PDU.
fn none_is_read() -> bool {
    for (at, byte) in &CHANGES {
        if read_pdu(&changed(*at, *byte), WIDTHS).is_some() {
            return false;
        }
    }
    true
}

#[test]
fn other_bytes_are_no_pdu(rt: HostRuntime) {
    assert!(rt;
        none_is_read()
            && read_pdu(&PIECE[..11], WIDTHS).is_none()
            && read_pdu(b"", WIDTHS).is_none()
    );
}
