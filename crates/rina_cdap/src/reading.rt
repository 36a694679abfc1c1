//! Reading messages.
ghost use Rattle.std.specs.Prelude.{◌≡◌, ◌≤◌, ◌<◌, ◌-◌, ◌⊎◌, true, None, Some, Ok, Err, length, option_map, slice_set, OnOk, IfOk, IfErr};
ghost use Rattle.rina_cdap.specs.declared.error.CdapError.{CdapError};
ghost use Rattle.rina_cdap.specs.declared.error.CdapError.TheVariants.{Memory};
ghost use Rattle.rina_cdap.specs.declared.message.Message.{Message};
ghost use Rattle.rina_cdap.specs.Messages.{field, be4, be8, has_form, InRange, Spells};
ghost use Rattle.rina_cdap.specs.Reading.{field_at, field_fault, fault_of, err_of, is_copied, HasCopied, IsNext, IsCopiedNext, drafted, Drafts, Finishes, Reads, Gives, IsFault};

use crate::error::CdapError;
use crate::form::{is_answer, is_formed};
use crate::message::Message;
use rina_base::{Addr, AppName, Bytes, Name};
use std::alloc::Global;

/// A field, and the bytes behind it.
#[derive(Clone, Copy)]
struct Taken<'a> {
    tag: u8,
    content: &'a [u8],
    rest: &'a [u8],
}

/// A message whose fields are being read.
#[derive(Drop)]
struct Draft {
    operation: Option<u8>,
    invoke: Option<u32>,
    class: Option<Name>,
    name: Option<Bytes>,
    instance: Option<u64>,
    value: Option<Bytes>,
    result: Option<u8>,
    reason: Option<Bytes>,
    source_name: Option<AppName>,
    destination_name: Option<AppName>,
    destination_address: Option<Addr>,
    source_address: Option<Addr>,
}

/// The field in front. None where it does not end within the bytes.
#[tactic(auto, unfolding(crate::specs::Reading::field_at))]
fn first_field(bytes: &[u8]) -> Option<Taken<'_>>
    ensures { option_map (λ x. (field x.tag x.content.now, x.rest.now)) result ≡ field_at bytes.now }
{
    match bytes {
        [tag, high, low, after @ ..] => {
            let len = usize::from(u16::from_be_bytes([*high, *low]));
            if after.len() < len {
                return None;
            }
            let (content, rest) = after.split_at(len);
            Some(Taken {
                tag: *tag,
                content,
                rest,
            })
        }
        _ => None,
    }
}

/// The fault of a field that begins at `at`, behind one of tag `last`.
#[tactic(auto, unfolding(crate::specs::Reading::field_fault))]
fn check(at: usize, last: u8, tag: u8, content: &[u8]) -> Result<(), CdapError>
    ensures { result ≡ err_of (field_fault at last (field tag content.now)) }
{
    if last > 0 && tag == last {
        return Err(CdapError::Twice { tag });
    }
    if tag == 0 || tag > 12 || tag < last {
        return Err(CdapError::BadTag { at });
    }
    if tag == 1 && content.len() == 1 && content[0] > 17 {
        return Err(CdapError::BadOp { n: content[0] });
    }
    if !is_formed(tag, content) {
        return Err(CdapError::BadValue { tag });
    }
    Ok(())
}

/// The number of four bytes.
#[tactic(auto, unfolding(crate::specs::Messages::be4))]
fn four(content: &[u8]) -> u32
    requires { length content.now ≡ 4 }
    ensures { be4 result ≡ content.now }
{
    u32::from_be_bytes([content[0], content[1], content[2], content[3]])
}

/// The number of eight bytes.
#[tactic(auto, unfolding(crate::specs::Messages::be8))]
fn eight(content: &[u8]) -> u64
    requires { length content.now ≡ 8 }
    ensures { be8 result ≡ content.now }
{
    u64::from_be_bytes([
        content[0], content[1], content[2], content[3], content[4], content[5], content[6],
        content[7],
    ])
}

/// The name that a content is; it was tested before, so that only memory may be missing.
fn name_of(alloc: Global, content: &[u8]) -> Result<Name, CdapError>
    ensures ok { IfOk result (λ n. n ≡ content.now) }
    ensures err { IfErr result (λ e. e ≡ Memory) }
{
    match Name::read(alloc, content) {
        Ok(name) => Ok(name),
        Err(_) => Err(CdapError::Memory),
    }
}

/// The application name that a content is, tested before as well.
fn app_name_of(alloc: Global, content: &[u8]) -> Result<AppName, CdapError>
    ensures ok { IfOk result (λ n. n ≡ content.now) }
    ensures err { IfErr result (λ e. e ≡ Memory) }
{
    match AppName::read(alloc, content) {
        Ok(name) => Ok(name),
        Err(_) => Err(CdapError::Memory),
    }
}

impl Draft {
    const EMPTY: Draft = Draft {
        operation: None,
        invoke: None,
        class: None,
        name: None,
        instance: None,
        value: None,
        result: None,
        reason: None,
        source_name: None,
        destination_name: None,
        destination_address: None,
        source_address: None,
    };

    /// Puts in the content of a field.
    #[tactic(auto, unfolding(crate::specs::Messages::has_form, crate::specs::Reading::drafted, crate::specs::Reading::is_copied))]
    fn put(&mut self, alloc: Global, tag: u8, content: &[u8]) -> Result<(), CdapError>
        requires tag { (1 ≤ tag) × (tag ≤ 12) }
        requires form { has_form tag content.now ≡ true }
        ensures ok { OnOk result (drafted self.new ≡ slice_set (drafted self.old) (tag - 1) (Some content.now)) }
        ensures err { IfErr result (λ e. (e ≡ Memory) × (is_copied tag ≡ true)) }
    {
        match tag {
            1 => self.operation = Some(content[0]),
            2 => self.invoke = Some(four(content)),
            3 => self.class = Some(name_of(alloc, content)?),
            4 => self.name = Some(Bytes::copy_of(alloc, content)?),
            5 => self.instance = Some(eight(content)),
            6 => self.value = Some(Bytes::copy_of(alloc, content)?),
            7 => self.result = Some(content[0]),
            8 => self.reason = Some(Bytes::copy_of(alloc, content)?),
            9 => self.source_name = Some(app_name_of(alloc, content)?),
            10 => self.destination_name = Some(app_name_of(alloc, content)?),
            11 => self.destination_address = Some(four(content)),
            _ => self.source_address = Some(four(content)),
        }
        Ok(())
    }
}

/// The field behind those that were read, of which the last has tag `last`; it begins at `at`.
fn next_field(at: usize, last: u8, rest: &[u8]) -> Result<Taken<'_>, CdapError>
    ensures ok { IfOk result (λ x. (field_at rest.now ≡ Some (field x.tag x.content.now, x.rest.now)) × (field_fault at last (field x.tag x.content.now) ≡ None)) }
    ensures err { IfErr result (λ e. fault_of at last (field_at rest.now) ≡ Some e) }
{
    let Some(taken) = first_field(rest) else {
        return Err(CdapError::Short { at });
    };
    check(at, last, taken.tag, taken.content)?;
    Ok(taken)
}

/// Reads one more field.
fn read_field<'a>(
    alloc: Global,
    draft: &mut Draft,
    at: usize,
    last: u8,
    rest: &'a [u8],
) -> Result<Taken<'a>, CdapError>
    ensures ok { IfOk result (λ x. IsNext last rest.now (field x.tag x.content.now) x.rest.now) }
    ensures put { IfOk result (λ x. drafted draft.new ≡ slice_set (drafted draft.old) (x.tag - 1) (Some x.content.now)) }
    ensures err { IfErr result (λ e. ((e ≡ Memory) × IsCopiedNext last rest.now) ⊎ (fault_of at last (field_at rest.now) ≡ Some e)) }
{
    let taken = next_field(at, last, rest)?;
    draft.put(alloc, taken.tag, taken.content)?;
    Ok(taken)
}

/// The fields of a message.
fn read_fields(alloc: Global, bytes: &[u8]) -> Result<Draft, CdapError>
    ensures { Drafts result bytes.now }
{
    let mut draft = Draft::EMPTY;
    let mut last = 0u8;
    let mut rest = bytes;
    'fields: while !rest.is_empty() {
        let at = bytes.len() - rest.len();
        let taken = read_field(alloc, &mut draft, at, last, rest)?;
        last = taken.tag;
        rest = taken.rest;
    }
    Ok(draft)
}

/// The message that the fields are.
#[tactic(auto, unfolding(crate::specs::Messages::contents, crate::specs::Reading::drafted))]
fn finish(draft: Draft) -> Result<Message, CdapError>
    ensures finished { Finishes result draft }
    ensures range { IfOk result (λ m. InRange m) }
{
    let Some(operation) = draft.operation else {
        return Err(CdapError::Missing { tag: 1 });
    };
    let Some(invoke) = draft.invoke else {
        return Err(CdapError::Missing { tag: 2 });
    };
    if is_answer(operation) && draft.result.is_none() {
        return Err(CdapError::Missing { tag: 7 });
    }
    if !is_answer(operation) && draft.result.is_some() {
        return Err(CdapError::BadValue { tag: 7 });
    }
    Ok(Message {
        operation,
        invoke,
        class: draft.class,
        name: draft.name,
        instance: draft.instance,
        value: draft.value,
        result: draft.result,
        reason: draft.reason,
        source_name: draft.source_name,
        destination_name: draft.destination_name,
        destination_address: draft.destination_address,
        source_address: draft.source_address,
    })
}

fn read_whole(alloc: Global, bytes: &[u8]) -> Result<Message, CdapError>
    ensures exact { Reads result bytes.now }
    ensures range { IfOk result (λ m. InRange m) }
{
    let draft = read_fields(alloc, bytes)?;
    finish(draft)
}

/// The message that bytes are, or their first fault from left to right: within a field first `Short`, then
/// `Twice`, `BadTag`, `BadOp` and `BadValue`; at the end `Missing` for the least tag, and then a request's result.
pub fn read(alloc: Global, bytes: &[u8]) -> Result<Message, CdapError>
    // The message is spelled so, or this is the first fault; memory may run out only where a field is copied.
    ensures exact { Reads result bytes.now }
    // What is spelled so is read, unless memory runs out.
    ensures only { (m : Message) → InRange m → Spells m bytes.now → Gives result (Ok m) }
    // The first fault is told, unless memory runs out.
    ensures fault { (e : CdapError) → IsFault bytes.now e → Gives result (Err e) }
    // It is told whatever memory there is, where no field in front of it is copied.
    ensures early { (e : CdapError) → IsFault bytes.now e → (HasCopied bytes.now → ⊥) → result ≡ Err e }
{
    read_whole(alloc, bytes)
}
