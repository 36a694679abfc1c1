//! Protected SDUs: a PDU behind the lifetime that it has left.
ghost use Rattle.std.specs.Prelude.{◌≡◌, ◌<◌, ◌^◌, ◌↔◌, ℕ, List, length, option_map, IfOk, IfSome, IsNone, Some};
ghost use Rattle.rina_pci.specs.Life.{protected, life_at};

use rina_base::Memory;
use std::alloc::Global;

/// A PDU behind the lifetime that it has left, in ticks: four bytes, big-endian.
#[tactic(auto, unfolding(crate::specs::Life::protected))]
pub fn write_life(alloc: Global, life: u32, pdu: &[u8]) -> Result<Vec<u8>, Memory>
    ensures { IfOk result (λ v. v.items ≡ protected life pdu.now) }
{
    let mut out = Vec::with_capacity(alloc, 4 + pdu.len())?;
    out.extend_from_slice(&life.to_be_bytes())?;
    out.extend_from_slice(pdu)?;
    Ok(out)
}

#[tactic(auto, unfolding(crate::specs::Life::life_at))]
fn split_life(bytes: &[u8]) -> Option<(u32, &[u8])>
    ensures exact { option_map (λ x. (x.0, x.1.now)) result ≡ life_at bytes.now }
    ensures short { IsNone result ↔ (length bytes.now < 4) }
{
    if bytes.len() < 4 {
        return None;
    }
    let (front, pdu) = bytes.split_at(4);
    let life = u32::from_be_bytes([front[0], front[1], front[2], front[3]]);
    Some((life, pdu))
}

/// The lifetime that a PDU has left, in ticks, and the bytes of the PDU; takes no memory. None exactly under four bytes.
pub fn read_life(bytes: &[u8]) -> Option<(u32, &[u8])>
    // What is read is spelled so.
    ensures found { IfSome result (λ x. bytes.now ≡ protected x.0 x.1.now) }
    // What is spelled so is read.
    ensures only { (life : ℕ) (pdu : List ℕ) → life < 2 ^ 32 → bytes.now ≡ protected life pdu → option_map {U = ℕ × List ℕ} (λ x. (x.0, x.1.now)) result ≡ Some (life, pdu) }
    ensures exact { option_map (λ x. (x.0, x.1.now)) result ≡ life_at bytes.now }
    ensures short { IsNone result ↔ (length bytes.now < 4) }
{
    split_life(bytes)
}
