//! Whole SDUs that are lent or copied.
use rina_base::{Bytes, Seq};

/// The bytes of SDUs, in order.
pub type Bodies = Seq<Bytes>;

/// A whole SDU: the number of its first piece, how many pieces it had, and its bytes.
#[derive(Clone, Copy)]
pub struct Sdu<'a> {
    pub first: u32,
    /// At most 2^32 - 1; an SDU of more pieces, which no cube allows, is counted as one of so many.
    pub pieces: u32,
    pub bytes: &'a [u8],
}
