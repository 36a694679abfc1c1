//! Writing PDUs.
ghost use Rattle.std.specs.Prelude.{◌≡◌, ◌++◌, ◌<◌, true, OnOk, IfOk, Ok};
ghost use Rattle.rina_base.specs.Pdus.{IsProper};
ghost use Rattle.rina_pci.specs.Spelling.{IsWidth, AreWidths, Fits, be, head, spelling};
ghost use Rattle.rina_pci.specs.Writing.{fits, field, Adds, Gives, addresses_written, numbers_written, written};

use crate::error::PciError;
use crate::widths::{Widths, pci_len};
use rina_base::{Pdu, PduKind};
use std::alloc::{AllocError, Global};

#[tactic(auto, unfolding(crate::specs::Writing::fits))]
fn is_narrow(width: u8, n: u64) -> bool
    requires { IsWidth width }
    ensures { result ≡ fits width n }
{
    match width {
        1 => n < 1 << 8,
        2 => n < 1 << 16,
        _ => n < 1 << 32,
    }
}

/// Writes a number of a width at the end.
#[tactic(auto, unfolding(crate::specs::Spelling::be, crate::specs::Writing::fits))]
fn put(out: &mut Vec<u8>, width: u8, n: u64) -> Result<(), AllocError>
    requires width { IsWidth width }
    requires narrow { fits width n ≡ true }
    ensures { OnOk result (out.new.items ≡ out.old.items ++ be width n) }
{
    match width {
        1 => out.push(n as u8)?,
        2 => out.extend_from_slice(&(n as u16).to_be_bytes())?,
        _ => out.extend_from_slice(&(n as u32).to_be_bytes())?,
    }
    Ok(())
}

/// Writes a field at the end, where it fits.
fn put_field(out: &mut Vec<u8>, number: u32, width: u8, n: u64) -> Result<(), PciError>
    requires { IsWidth width }
    ensures { Adds result out.old.items out.new.items (field number width n) }
{
    if !is_narrow(width, n) {
        return Err(PciError::TooWide { field: number });
    }
    put(out, width, n)?;
    Ok(())
}

#[tactic(auto, unfolding(crate::specs::Spelling::head, crate::specs::Spelling::flags))]
fn put_head(out: &mut Vec<u8>, pdu: &Pdu) -> Result<(), PciError>
    ensures { Adds result out.old.items out.new.items (Ok (head pdu.now)) }
{
    let drf = if pdu.drf { 1u8 } else { 0 };
    let first = if pdu.first { 2u8 } else { 0 };
    let last = if pdu.last { 4u8 } else { 0 };
    let code = match pdu.kind {
        PduKind::Piece => 1u8,
        PduKind::Ack => 2,
    };
    out.extend_from_slice(&[1, drf + first + last, code, pdu.qos])?;
    Ok(())
}

#[tactic(auto, unfolding(crate::specs::Writing::addresses_written))]
fn put_addresses(out: &mut Vec<u8>, pdu: &Pdu, w: Widths) -> Result<(), PciError>
    requires { AreWidths w }
    ensures { Adds result out.old.items out.new.items (addresses_written w pdu.now) }
{
    put_field(out, 5, w.addr, u64::from(pdu.dst))?;
    put_field(out, 6, w.addr, u64::from(pdu.src))?;
    put_field(out, 7, w.cep, u64::from(pdu.dcep))?;
    put_field(out, 8, w.cep, u64::from(pdu.scep))?;
    Ok(())
}

/// Writes the numbers and the body.
#[tactic(auto, unfolding(crate::specs::Writing::numbers_written))]
fn put_numbers(out: &mut Vec<u8>, pdu: &Pdu, w: Widths) -> Result<(), PciError>
    requires { AreWidths w }
    ensures { Adds result out.old.items out.new.items (numbers_written w pdu.now.kind pdu.now) }
{
    match pdu.kind {
        PduKind::Piece => {
            put_field(out, 10, w.seq, u64::from(pdu.seq))?;
            out.extend_from_slice(pdu.body.as_slice())?;
        }
        PduKind::Ack => {
            put_field(out, 10, w.seq, u64::from(pdu.ack))?;
            put_field(out, 11, w.seq, u64::from(pdu.right))?;
        }
    }
    Ok(())
}

#[tactic(auto, unfolding(crate::specs::Writing::written))]
fn write_whole(alloc: Global, pdu: &Pdu, w: Widths) -> Result<Vec<u8>, PciError>
    requires { AreWidths w }
    ensures { Gives result (written w pdu.now) }
{
    let size = u64::from(pci_len(pdu.kind, w)) + pdu.body.as_slice().len() as u64;
    let mut out = Vec::with_capacity(alloc, size as usize)?;
    put_head(&mut out, pdu)?;
    put_addresses(&mut out, pdu, w)?;
    put_field(&mut out, 9, w.len, size)?;
    put_numbers(&mut out, pdu, w)?;
    Ok(out)
}

/// The bytes of a PDU, or its first field that does not fit its width.
pub fn write_pdu(alloc: Global, pdu: &Pdu, w: Widths) -> Result<Vec<u8>, PciError>
    requires widths { AreWidths w }
    requires proper { IsProper pdu.now }
    // What is written fits, and is spelled so.
    ensures spelled { IfOk result (λ v. Fits w pdu.now × (v.items ≡ spelling w pdu.now)) }
    // What fits is written, unless memory runs out.
    ensures only { Fits w pdu.now → Gives result (Ok (spelling w pdu.now)) }
    // Which field is the first that does not fit.
    ensures exact { Gives result (written w pdu.now) }
{
    write_whole(alloc, pdu, w)
}
