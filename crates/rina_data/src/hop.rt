//! PDUs as they cross a hop: behind the lifetime that they have left, which the hop charges.
ghost use Rattle.std.specs.Prelude.{◌≡◌, ◌+◌, ◌-◌, ◌<◌, ◌≤◌, IfOk, IfSome, MatchOption, option_map};
ghost use Rattle.rina_base.specs.Pdus.{pdu_of};
ghost use Rattle.rina_pci.specs.Life.{protected};
ghost use Rattle.rina_pci.specs.Spelling.{AreWidths, Fits, spelling};
ghost use Rattle.rina_data.specs.Hops.{hop_of, opened};

use rina_base::{Memory, Pdu, PduView, Tick};
use rina_pci::{PciError, Widths, read_life, read_pdu, write_life, write_pdu};
use std::alloc::Global;

/// A PDU that came from below, lent, and the lifetime that it has left, in ticks.
#[derive(Clone, Copy)]
pub struct HopView<'a> {
    pub left: u32,
    pub pdu: PduView<'a>,
}

/// The protected SDU that the bytes are; takes no memory. None exactly where they are none.
pub fn open(bytes: &[u8], widths: Widths) -> Option<HopView<'_>>
    requires { AreWidths widths }
    ensures exact { option_map hop_of result ≡ opened widths bytes.now }
    // Each of its fields fits.
    ensures fits { IfSome result (λ hop. Fits widths (pdu_of hop.pdu)) }
{
    let (left, rest) = read_life(bytes)?;
    let pdu = read_pdu(rest, widths)?;
    Some(HopView { left, pdu })
}

/// The bytes of a PDU, each of whose fields fits, behind the lifetime that it has left, in ticks.
pub fn protect(alloc: Global, left: u32, pdu: &Pdu, widths: Widths) -> Result<Vec<u8>, Memory>
    requires widths { AreWidths widths }
    requires fits { Fits widths pdu.now }
    ensures { IfOk result (λ v. v.items ≡ protected left (spelling widths pdu.now)) }
{
    match write_pdu(alloc, pdu, widths) {
        Ok(bytes) => write_life(alloc, left, bytes.as_slice()),
        Err(PciError::Memory) => Err(Memory),
        Err(PciError::TooWide { field: _ }) => unreachable!(),
    }
}

/// What a hop charges, in ticks: the time since the PDU came into this system, and what the flow below may take, which
/// is 0 where the PDU just came.
pub fn charge(now: Tick, since: Tick, promise: u32) -> u32
    requires now { now ≤ 10_000_000 }
    requires promise { promise ≤ 2_000_000 }
    ensures { result ≡ (now - since) + promise }
{
    now.saturating_sub(since) + promise
}

/// The lifetime that is left after a charge. None exactly where the PDU has less than is charged: it is expired.
pub fn left_after(left: u32, charge: u32) -> Option<u32>
    ensures { MatchOption result (left < charge) (λ rest. (charge ≤ left) × (rest ≡ left - charge)) }
{
    left.checked_sub(charge)
}
