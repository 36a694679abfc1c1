//! Protocol data units of the data transfer protocol (DTP) and its control (DTCP).
ghost use Rattle.std.specs.Prelude.{◌≡◌, IfOk};
ghost use Rattle.rina_base.specs.Pdus.{key_of, number_by, pdu_of};

use crate::memory::Memory;
use crate::number::{Addr, Cep, Key};
use crate::seq::Bytes;
use std::alloc::Global;

/// What a PDU carries: a piece of an SDU, or an acknowledgement.
#[derive(Clone, Copy, Debug, PartialEq, Eq)]
pub enum PduKind {
    Piece,
    Ack,
}

impl PduKind {
    /// The number that names a PDU of this kind.
    fn number(self, seq: u32, ack: u32) -> u32
        ensures { result ≡ number_by self seq ack }
    {
        match self {
            PduKind::Piece => seq,
            PduKind::Ack => ack,
        }
    }
}

/// A PDU with its protocol control information (PCI) and its body.
/// A piece has `ack` and `right` 0. An acknowledgement has `seq` 0, no flags and an empty body.
#[derive(Drop)]
pub struct Pdu {
    pub kind: PduKind,
    /// The destination's address.
    pub dst: Addr,
    /// The source's address.
    pub src: Addr,
    /// The id of the cube, 0 for management.
    pub qos: u8,
    /// The destination's CEP-id.
    pub dcep: Cep,
    /// The source's CEP-id.
    pub scep: Cep,
    /// The data run flag: no earlier piece of the run is unacknowledged.
    pub drf: bool,
    /// The piece begins its SDU.
    pub first: bool,
    /// The piece ends its SDU.
    pub last: bool,
    /// The piece's sequence number.
    pub seq: u32,
    /// The greatest number that is acknowledged, with all below it.
    pub ack: u32,
    /// The greatest number that may be sent.
    pub right: u32,
    pub body: Bytes,
}

/// A PDU whose body is lent, as it was read from bytes.
#[derive(Clone, Copy)]
pub struct PduView<'a> {
    pub kind: PduKind,
    pub dst: Addr,
    pub src: Addr,
    pub qos: u8,
    pub dcep: Cep,
    pub scep: Cep,
    pub drf: bool,
    pub first: bool,
    pub last: bool,
    pub seq: u32,
    pub ack: u32,
    pub right: u32,
    pub body: &'a [u8],
}

impl Pdu {
    /// Which PDU it is.
    pub fn key(&self) -> Key
        ensures { result ≡ key_of self.now }
    {
        Key {
            kind: self.kind,
            src: self.src,
            scep: self.scep,
            seq: self.kind.number(self.seq, self.ack),
        }
    }
}

impl PduView<'_> {
    /// Which PDU it is.
    pub fn key(&self) -> Key
        ensures { result ≡ key_of (pdu_of self.now) }
    {
        Key {
            kind: self.kind,
            src: self.src,
            scep: self.scep,
            seq: self.kind.number(self.seq, self.ack),
        }
    }

    /// The PDU with a body of its own.
    pub fn keep(&self, alloc: Global) -> Result<Pdu, Memory>
        ensures { IfOk result (λ p. p ≡ pdu_of self.now) }
    {
        Ok(Pdu {
            kind: self.kind,
            dst: self.dst,
            src: self.src,
            qos: self.qos,
            dcep: self.dcep,
            scep: self.scep,
            drf: self.drf,
            first: self.first,
            last: self.last,
            seq: self.seq,
            ack: self.ack,
            right: self.right,
            body: Bytes::copy_of(alloc, self.body)?,
        })
    }
}
