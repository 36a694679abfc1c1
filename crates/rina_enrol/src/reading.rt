//! Reading the messages of a link. A message has one spelling: what the fields of bytes tell is a message exactly
//! where it is written as those bytes.
ghost use Rattle.std.specs.Prelude.{◌≡◌, ◌↔◌, Some, option_map, IfOk, IfSome, IsTrue};
ghost use Rattle.rina_enrol.specs.declared.message.LinkMessage.{LinkMessage};
ghost use Rattle.rina_enrol.specs.Messages.{IsSpelled, IsInRange};
ghost use Rattle.rina_enrol.specs.Reading.{version_in, live_in, number_in, item_in, connect_in, start_in, enrolment_in, guessed};

use crate::message::LinkMessage;
use crate::writing::write;
use rina_base::{Bytes, Memory};
use rina_cdap::{Message, operation, take_number};
use rina_newest::{Item, Version};
use std::alloc::Global;

/// The version in front of the value of an item, and the bytes behind it.
#[tactic(auto, unfolding(crate::specs::Reading::version_in))]
fn version_in(bytes: &[u8]) -> Option<(Version, &[u8])>
    ensures { option_map (λ x. (x.0, x.1.now)) result ≡ version_in bytes.now }
{
    let (tick, rest) = take_number(bytes)?;
    let (count, rest) = take_number(rest)?;
    let (origin, rest) = take_number(rest)?;
    Some((
        Version {
            tick,
            count,
            origin,
        },
        rest,
    ))
}

/// A copy of the text of an item that is live.
fn live_in(alloc: Global, bytes: &[u8]) -> Result<Option<Bytes>, Memory>
    ensures { IfOk result (λ o. o ≡ live_in bytes.now) }
{
    match bytes {
        [] | [0, ..] => Ok(None),
        [_, text @ ..] => Ok(Some(Bytes::copy_of(alloc, text)?)),
    }
}

/// The number in front of a value.
fn number_in(value: &Option<Bytes>) -> Option<u32>
    ensures { result ≡ number_in value.now }
{
    match value {
        Some(bytes) => {
            let (number, _) = take_number(bytes.as_slice())?;
            Some(number)
        }
        None => None,
    }
}

#[tactic(auto, unfolding(crate::specs::Reading::item_in))]
fn item_in(alloc: Global, m: Message) -> Result<Option<Item>, Memory>
    ensures { IfOk result (λ o. o ≡ item_in m) }
{
    let (name, value) = (m.name, m.value);
    let Some(key) = name else {
        return Ok(None);
    };
    let Some(bytes) = value else {
        return Ok(None);
    };
    let Some((version, live)) = version_in(bytes.as_slice()) else {
        return Ok(None);
    };
    let value = live_in(alloc, live)?;
    Ok(Some(Item {
        key,
        version,
        value,
    }))
}

#[tactic(auto, unfolding(crate::specs::Reading::connect_in))]
fn connect_in(m: Message) -> Option<LinkMessage>
    ensures { result ≡ connect_in m }
{
    let joiner = m.source_name?;
    let member = m.destination_name?;
    Some(LinkMessage::Connect {
        invoke: m.invoke,
        joiner,
        member,
    })
}

#[tactic(auto, unfolding(crate::specs::Reading::start_in))]
fn start_in(m: &Message) -> Option<LinkMessage>
    ensures { result ≡ start_in m.now }
{
    let address = number_in(&m.value)?;
    Some(LinkMessage::Start {
        invoke: m.invoke,
        address,
    })
}

/// What a message would be in an enrolment.
#[tactic(auto, unfolding(crate::specs::Reading::enrolment_in))]
fn enrolment_in(m: Message) -> Option<LinkMessage>
    ensures { result ≡ enrolment_in m }
{
    let invoke = m.invoke;
    match m.operation {
        0 => connect_in(m),
        1 => Some(LinkMessage::ConnectR {
            invoke,
            denied: number_in(&m.value),
        }),
        14 => start_in(&m),
        15 => Some(LinkMessage::StartR { invoke }),
        16 => Some(LinkMessage::Stop { invoke }),
        17 => Some(LinkMessage::StopR { invoke }),
        _ => None,
    }
}

/// What a message would be, by its operation.
#[tactic(auto, unfolding(crate::specs::Reading::guessed))]
fn guess(alloc: Global, m: Message) -> Result<Option<LinkMessage>, Memory>
    ensures { IfOk result (λ o. o ≡ guessed m) }
{
    match m.operation {
        operation::CREATE => match item_in(alloc, m)? {
            Some(item) => Ok(Some(LinkMessage::Item { item })),
            None => Ok(None),
        },
        operation::WRITE => match item_in(alloc, m)? {
            Some(item) => Ok(Some(LinkMessage::Flood { item })),
            None => Ok(None),
        },
        _ => Ok(enrolment_in(m)),
    }
}

/// What bytes would be, if they are a message of a link.
fn guess_of(alloc: Global, bytes: &[u8]) -> Result<Option<LinkMessage>, Memory>
    ensures { (m : LinkMessage) → IsInRange m → IsSpelled m bytes.now → IfOk result (λ o. o ≡ Some m) }
{
    match rina_cdap::read(alloc, bytes) {
        Ok(m) => guess(alloc, m),
        Err(e) => {
            if e.is_memory() {
                return Err(Memory);
            }
            Ok(None)
        }
    }
}

/// Whether bytes are a message's.
fn is_spelled(alloc: Global, m: &LinkMessage, bytes: &[u8]) -> Result<bool, Memory>
    ensures { IfOk result (λ yes. IsTrue yes ↔ IsSpelled m.now bytes.now) }
{
    match write(alloc, m) {
        Ok(text) => Ok(text.as_slice() == bytes),
        Err(e) => {
            if e.is_memory() {
                return Err(Memory);
            }
            Ok(false)
        }
    }
}

/// The message of a link that bytes are. None exactly where they are none.
pub fn read(alloc: Global, bytes: &[u8]) -> Result<Option<LinkMessage>, Memory>
    // The bytes are the message's.
    ensures spelled { IfOk result (λ o. IfSome o (λ m. IsSpelled m bytes.now)) }
    // What has these bytes is read.
    ensures only { (m : LinkMessage) → IsInRange m → IsSpelled m bytes.now → IfOk result (λ o. o ≡ Some m) }
{
    match guess_of(alloc, bytes)? {
        Some(m) => {
            if is_spelled(alloc, &m, bytes)? {
                Ok(Some(m))
            } else {
                Ok(None)
            }
        }
        None => Ok(None),
    }
}
