//! Reading the messages about flows. A message has one spelling: what the fields of bytes tell is a message exactly
//! where it is written as those bytes.
ghost use Rattle.std.specs.Prelude.{◌≡◌, ◌↔◌, Some, option_map, IfOk, IfSome, IsTrue};
ghost use Rattle.std.specs.Result.{result_ok};
ghost use Rattle.rina_base.specs.Names.{app_at};
ghost use Rattle.rina_alloc.specs.declared.message.FlowMessage.{FlowMessage};
ghost use Rattle.rina_alloc.specs.Messages.{IsSpelled, IsInRange, IsProper};
ghost use Rattle.rina_alloc.specs.Reading.{flow_in, cube_in, text_in, fixed_in, fixed, ask_in, answer_in, delete_in, word_in, guessed};

use crate::answer::FlowAnswer;
use crate::message::{FlowAsk, FlowMessage, FlowWord};
use crate::writing::write;
use rina_base::{AppName, Cep, FlowName, Memory, NameError};
use rina_cdap::{Message, take_number};
use std::alloc::Global;

/// What an ask has before the names of its applications.
#[derive(Clone, Copy)]
struct Fixed {
    flow: FlowName,
    cube: u8,
    scep: Cep,
}

/// The name of a flow in front of bytes, and the bytes behind it.
#[tactic(auto, unfolding(crate::specs::Reading::flow_in))]
fn flow_in(bytes: &[u8]) -> Option<(FlowName, &[u8])>
    ensures { option_map (λ x. (x.0, x.1.now)) result ≡ flow_in bytes.now }
{
    let (src, rest) = take_number(bytes)?;
    let (tick, rest) = take_number(rest)?;
    let (count, rest) = take_number(rest)?;
    Some((FlowName { src, tick, count }, rest))
}

/// The byte in front of bytes, and the bytes behind it.
fn cube_in(bytes: &[u8]) -> Option<(u8, &[u8])>
    ensures { option_map (λ x. (x.0, x.1.now)) result ≡ cube_in bytes.now }
{
    match bytes {
        [cube, rest @ ..] => Some((*cube, rest)),
        [] => None,
    }
}

/// The text behind its length in front of bytes, and the bytes behind it.
#[tactic(auto, unfolding(crate::specs::Reading::text_in))]
fn text_in(bytes: &[u8]) -> Option<(&[u8], &[u8])>
    ensures { option_map (λ x. (x.0.now, x.1.now)) result ≡ text_in bytes.now }
{
    match bytes {
        [high, low, after @ ..] => {
            let len = usize::from(u16::from_be_bytes([*high, *low]));
            if after.len() < len {
                return None;
            }
            Some(after.split_at(len))
        }
        _ => None,
    }
}

#[tactic(auto, unfolding(crate::specs::Reading::fixed_in))]
fn fixed_in(bytes: &[u8]) -> Option<(Fixed, &[u8])>
    ensures { option_map (λ x. (fixed x.0.flow x.0.cube x.0.scep, x.1.now)) result ≡ fixed_in bytes.now }
{
    let (flow, rest) = flow_in(bytes)?;
    let (cube, rest) = cube_in(rest)?;
    let (scep, rest) = take_number(rest)?;
    Some((Fixed { flow, cube, scep }, rest))
}

/// The name of an application that a text is.
fn app_in(alloc: Global, text: &[u8]) -> Result<Option<AppName>, Memory>
    ensures { IfOk result (λ o. o ≡ result_ok (app_at text.now)) }
{
    match AppName::read(alloc, text) {
        Ok(app) => Ok(Some(app)),
        Err(NameError::Memory) => Err(Memory),
        Err(NameError::BadLength { .. }) => Ok(None),
        Err(NameError::BadByte { .. }) => Ok(None),
    }
}

#[tactic(auto, unfolding(crate::specs::Reading::ask_in))]
fn ask_in(alloc: Global, bytes: &[u8]) -> Result<Option<FlowAsk>, Memory>
    ensures { IfOk result (λ o. o ≡ ask_in bytes.now) }
{
    let Some((fixed, rest)) = fixed_in(bytes) else {
        return Ok(None);
    };
    let Some((destination, rest)) = text_in(rest) else {
        return Ok(None);
    };
    let Some((source, _)) = text_in(rest) else {
        return Ok(None);
    };
    let Some(destination) = app_in(alloc, destination)? else {
        return Ok(None);
    };
    let Some(source) = app_in(alloc, source)? else {
        return Ok(None);
    };
    Ok(Some(FlowAsk {
        flow: fixed.flow,
        cube: fixed.cube,
        scep: fixed.scep,
        destination,
        source,
    }))
}

/// The answer of a result and a value.
#[tactic(auto, unfolding(crate::specs::Reading::answer_in))]
fn answer_in(code: Option<u8>, bytes: &[u8]) -> Option<FlowAnswer>
    ensures { result ≡ answer_in code bytes.now }
{
    let code = code?;
    let (dcep, rest) = take_number(bytes)?;
    let (number, _) = take_number(rest)?;
    FlowAnswer::of(code, dcep, number)
}

#[tactic(auto, unfolding(crate::specs::Reading::delete_in))]
fn delete_in(bytes: &[u8]) -> Option<FlowWord>
    ensures { result ≡ delete_in bytes.now }
{
    let (dcep, rest) = take_number(bytes)?;
    let (scep, _) = take_number(rest)?;
    Some(FlowWord::Delete { dcep, scep })
}

/// What a message would say of a flow, by its operation and its value.
#[tactic(auto, unfolding(crate::specs::Reading::word_in))]
fn word_in(alloc: Global, m: &Message, bytes: &[u8]) -> Result<Option<FlowWord>, Memory>
    ensures { IfOk result (λ o. o ≡ word_in m.now bytes.now) }
{
    let invoke = m.invoke;
    match m.operation {
        4 => match ask_in(alloc, bytes)? {
            Some(ask) => Ok(Some(FlowWord::Ask { invoke, ask })),
            None => Ok(None),
        },
        5 => match answer_in(m.result, bytes) {
            Some(answer) => Ok(Some(FlowWord::Answer { invoke, answer })),
            None => Ok(None),
        },
        6 => Ok(delete_in(bytes)),
        _ => Ok(None),
    }
}

/// What a message would be.
#[tactic(auto, unfolding(crate::specs::Reading::guessed))]
fn guess(alloc: Global, m: &Message) -> Result<Option<FlowMessage>, Memory>
    ensures { IfOk result (λ o. o ≡ guessed m.now) }
{
    let (Some(to), Some(from)) = (m.destination_address, m.source_address) else {
        return Ok(None);
    };
    let Some(bytes) = &m.value else {
        return Ok(None);
    };
    match word_in(alloc, m, bytes.as_slice())? {
        Some(word) => Ok(Some(FlowMessage { to, from, word })),
        None => Ok(None),
    }
}

/// What bytes would be, if they are a message about a flow.
fn guess_of(alloc: Global, bytes: &[u8]) -> Result<Option<FlowMessage>, Memory>
    ensures { (m : FlowMessage) → IsInRange m → IsProper m.word → IsSpelled m bytes.now → IfOk result (λ o. o ≡ Some m) }
{
    match rina_cdap::read(alloc, bytes) {
        Ok(m) => guess(alloc, &m),
        Err(e) => {
            if e.is_memory() {
                return Err(Memory);
            }
            Ok(None)
        }
    }
}

/// Whether bytes are a message's.
fn is_spelled(alloc: Global, m: &FlowMessage, bytes: &[u8]) -> Result<bool, Memory>
    ensures { IfOk result (λ yes. IsTrue yes ↔ IsSpelled m.now bytes.now) }
{
    match write(alloc, m) {
        Ok(text) => Ok(text.as_slice() == bytes),
        Err(e) => {
            if e.is_memory() {
                return Err(Memory);
            }
            Ok(false)
        }
    }
}

/// The message about a flow that bytes are. None exactly where they are none.
pub fn read(alloc: Global, bytes: &[u8]) -> Result<Option<FlowMessage>, Memory>
    // The bytes are the message's.
    ensures spelled { IfOk result (λ o. IfSome o (λ m. IsSpelled m bytes.now)) }
    // What has these bytes is read.
    ensures only { (m : FlowMessage) → IsInRange m → IsProper m.word → IsSpelled m bytes.now → IfOk result (λ o. o ≡ Some m) }
{
    match guess_of(alloc, bytes)? {
        Some(m) => {
            if is_spelled(alloc, &m, bytes)? {
                Ok(Some(m))
            } else {
                Ok(None)
            }
        }
        None => Ok(None),
    }
}
