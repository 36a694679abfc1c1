//! Writing messages.
ghost use Rattle.std.specs.Prelude.{Ok, List, ℕ, option_map, option_copied, IfOk};
ghost use Rattle.rina_cdap.specs.Messages.{be4, be8, byte, is_response, contents, Spells};
ghost use Rattle.rina_cdap.specs.Writing.{cell_written, cells_written, written, Adds, Makes};

use crate::error::CdapError;
use crate::form::{is_answer, is_formed};
use crate::message::Message;
use rina_base::{AppName, Bytes, Name};
use std::alloc::Global;

/// Writes the field of a tag at the end, where there is one.
#[tactic(auto, unfolding(crate::specs::Writing::cell_written, crate::specs::Messages::field_text, crate::specs::Messages::be2))]
fn put(out: &mut Vec<u8>, response: bool, tag: u8, content: Option<&[u8]>) -> Result<(), CdapError>
    ensures { Adds result out.old.items out.new.items (cell_written response tag (option_copied content.entry)) }
{
    let Some(content) = content else {
        return Ok(());
    };
    if !is_formed(tag, content) || (!response && tag == 7) {
        return Err(CdapError::BadValue { tag });
    }
    out.extend_from_slice(&[tag])?;
    out.extend_from_slice(&(content.len() as u16).to_be_bytes())?;
    out.extend_from_slice(content)?;
    Ok(())
}

/// Writes a field of one byte.
fn put_byte(out: &mut Vec<u8>, response: bool, tag: u8, number: Option<u8>) -> Result<(), CdapError>
    ensures { Adds result out.old.items out.new.items (cell_written response tag (option_map byte number)) }
{
    match number {
        None => put(out, response, tag, None),
        Some(n) => put(out, response, tag, Some(&[n])),
    }
}

/// Writes a field of four bytes.
#[tactic(auto, unfolding(crate::specs::Messages::be4))]
fn put_four(
    out: &mut Vec<u8>,
    response: bool,
    tag: u8,
    number: Option<u32>,
) -> Result<(), CdapError>
    ensures { Adds result out.old.items out.new.items (cell_written response tag (option_map be4 number)) }
{
    match number {
        None => put(out, response, tag, None),
        Some(n) => put(out, response, tag, Some(&n.to_be_bytes())),
    }
}

/// Writes a field of eight bytes.
#[tactic(auto, unfolding(crate::specs::Messages::be8))]
fn put_eight(
    out: &mut Vec<u8>,
    response: bool,
    tag: u8,
    number: Option<u64>,
) -> Result<(), CdapError>
    ensures { Adds result out.old.items out.new.items (cell_written response tag (option_map be8 number)) }
{
    match number {
        None => put(out, response, tag, None),
        Some(n) => put(out, response, tag, Some(&n.to_be_bytes())),
    }
}

fn put_bytes(
    out: &mut Vec<u8>,
    response: bool,
    tag: u8,
    bytes: &Option<Bytes>,
) -> Result<(), CdapError>
    ensures { Adds result out.old.items out.new.items (cell_written response tag bytes.now) }
{
    match bytes {
        None => put(out, response, tag, None),
        Some(bytes) => put(out, response, tag, Some(bytes.as_slice())),
    }
}

fn put_name(
    out: &mut Vec<u8>,
    response: bool,
    tag: u8,
    name: &Option<Name>,
) -> Result<(), CdapError>
    ensures { Adds result out.old.items out.new.items (cell_written response tag name.now) }
{
    match name {
        None => put(out, response, tag, None),
        Some(name) => put(out, response, tag, Some(name.as_bytes())),
    }
}

fn put_app_name(
    out: &mut Vec<u8>,
    response: bool,
    tag: u8,
    name: &Option<AppName>,
) -> Result<(), CdapError>
    ensures { Adds result out.old.items out.new.items (cell_written response tag name.now) }
{
    match name {
        None => put(out, response, tag, None),
        Some(name) => put(out, response, tag, Some(name.as_bytes())),
    }
}

/// Writes the fields, in the order of their tags.
#[tactic(auto, unfolding(crate::specs::Messages::contents))]
fn put_fields(out: &mut Vec<u8>, m: &Message) -> Result<(), CdapError>
    ensures { Adds result out.old.items out.new.items (cells_written (is_response m.now.operation) 1 (contents m.now)) }
{
    let response = is_answer(m.operation);
    put_byte(out, response, 1, Some(m.operation))?;
    put_four(out, response, 2, Some(m.invoke))?;
    put_name(out, response, 3, &m.class)?;
    put_bytes(out, response, 4, &m.name)?;
    put_eight(out, response, 5, m.instance)?;
    put_bytes(out, response, 6, &m.value)?;
    put_byte(out, response, 7, m.result)?;
    put_bytes(out, response, 8, &m.reason)?;
    put_app_name(out, response, 9, &m.source_name)?;
    put_app_name(out, response, 10, &m.destination_name)?;
    put_four(out, response, 11, m.destination_address)?;
    put_four(out, response, 12, m.source_address)?;
    Ok(())
}

#[tactic(auto, unfolding(crate::specs::Writing::written))]
fn write_whole(alloc: Global, m: &Message) -> Result<Vec<u8>, CdapError>
    ensures { Makes result (written m.now) }
{
    if m.operation > 17 {
        return Err(CdapError::BadOp { n: m.operation });
    }
    if is_answer(m.operation) && m.result.is_none() {
        return Err(CdapError::Missing { tag: 7 });
    }
    let mut out = Vec::new(alloc);
    put_fields(&mut out, m)?;
    Ok(out)
}

/// The bytes of a message, or its fault: first an operation above 17 (`BadOp`), then a response without a result
/// (`Missing` 7), then the field of the least tag whose content has not its form, or the result of a request
/// (`BadValue`).
pub fn write(alloc: Global, m: &Message) -> Result<Vec<u8>, CdapError>
    // What is written is the message's.
    ensures spelled { IfOk result (λ v. Spells m.now v.items) }
    // What has a spelling is written, unless memory runs out.
    ensures only { (bytes : List ℕ) → Spells m.now bytes → Makes result (Ok bytes) }
    // Which fault is the first.
    ensures exact { Makes result (written m.now) }
{
    write_whole(alloc, m)
}
