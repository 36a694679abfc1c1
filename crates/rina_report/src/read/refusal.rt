//! Reading refusals.
ghost use Rattle.std.specs.Prelude.{◌≡◌, ◌<◌, IfErr, length};
ghost use Rattle.rina_schedule.specs.Gives.{Gives};
ghost use Rattle.rina_report.specs.Fields.{behind};
ghost use Rattle.rina_report.specs.ReadRefusals.{bare_of, state_or_none_of, state_or_none_at, shaped_of, numbered_of, counted_of, refusal_of, refusal_at};

use crate::read::field::{ended, field, is};
use crate::read::last::{last_long, last_long_and_number, last_number, last_port, last_two};
use crate::read::state::{fail, state_of};
use crate::refusal::Refusal;
use crate::state::StateNote;
use rina_schedule::LineError;
use std::alloc::Global;

/// The refusal with this name, where it has no fields.
#[tactic(auto, unfolding(crate::specs::ReadRefusals::bare_of))]
fn bare(word: &[u8]) -> Option<Refusal>
    ensures { result ≡ bare_of word.now }
{
    if is(word, b"NoWire") {
        Some(Refusal::NoWire)
    } else if is(word, b"NoPolicy") {
        Some(Refusal::NoPolicy)
    } else if is(word, b"LabelUsed") {
        Some(Refusal::LabelUsed)
    } else if is(word, b"ClockSpent") {
        Some(Refusal::ClockSpent)
    } else if is(word, b"NoIpc") {
        Some(Refusal::NoIpc)
    } else if is(word, b"Already") {
        Some(Refusal::Already)
    } else if is(word, b"NoMember") {
        Some(Refusal::NoMember)
    } else if is(word, b"NotThere") {
        Some(Refusal::NotThere)
    } else if is(word, b"NoCube") {
        Some(Refusal::NoCube)
    } else if is(word, b"NoSuchApp") {
        Some(Refusal::NoSuchApp)
    } else if is(word, b"SameSystem") {
        Some(Refusal::SameSystem)
    } else if is(word, b"NoPort") {
        Some(Refusal::NoPort)
    } else if is(word, b"NoLink") {
        Some(Refusal::NoLink)
    } else if is(word, b"NoRank") {
        Some(Refusal::NoRank)
    } else if is(word, b"NotYours") {
        Some(Refusal::NotYours)
    } else {
        None
    }
}

#[tactic(auto, unfolding(crate::specs::ReadRefusals::state_or_none_of))]
fn state_or_none_of(
    alloc: Global,
    word: &[u8],
    n: u32,
    rest: &[u8],
) -> Result<Option<StateNote>, LineError>
    requires { n < 500 }
    ensures read { Gives (λ x. x) result (state_or_none_of word.now n (behind rest.now)) }
    ensures memory { IfErr result (λ e. e ≡ LineError.Memory → 0 < length (behind rest.now)) }
{
    if is(word, b"none") {
        return ended(None, n + 1, rest);
    }
    Ok(Some(state_of(alloc, word, n, rest)?))
}

/// Reads a state, or `none`.
#[tactic(auto, unfolding(crate::specs::ReadRefusals::state_or_none_at))]
fn state_or_none(alloc: Global, n: u32, rest: &[u8]) -> Result<Option<StateNote>, LineError>
    requires { n < 500 }
    ensures read { Gives (λ x. x) result (state_or_none_at n (behind rest.now)) }
    ensures memory { IfErr result (λ e. e ≡ LineError.Memory → 0 < length (behind rest.now)) }
{
    let (word, rest) = field(n, rest)?;
    state_or_none_of(alloc, word, n, rest)
}

/// Reads a refusal whose fields are others than one number of 32 bits.
#[tactic(auto, unfolding(crate::specs::ReadRefusals::shaped_of))]
fn shaped(alloc: Global, word: &[u8], n: u32, rest: &[u8]) -> Result<Refusal, LineError>
    requires { n < 400 }
    ensures read { Gives (λ x. x) result (shaped_of word.now n (behind rest.now)) }
    ensures memory { IfErr result (λ e. e ≡ LineError.Memory → 0 < length (behind rest.now)) }
{
    let next = n + 1;
    if is(word, b"CountSpent") {
        let (need, left) = last_two(next, rest)?;
        Ok(Refusal::CountSpent { need, left })
    } else if is(word, b"WindowShut") {
        let (need, room) = last_two(next, rest)?;
        Ok(Refusal::WindowShut { need, room })
    } else if is(word, b"QueueFull") {
        let (need, room) = last_two(next, rest)?;
        Ok(Refusal::QueueFull { need, room })
    } else if is(word, b"TooLong") {
        let (len, max) = last_long_and_number(next, rest)?;
        Ok(Refusal::TooLong { len, max })
    } else if is(word, b"NoFrame") {
        let frame = last_long(next, rest)?;
        Ok(Refusal::NoFrame { frame })
    } else if is(word, b"Short") {
        let at = last_long(next, rest)?;
        Ok(Refusal::Short { at })
    } else if is(word, b"BadTag") {
        let at = last_long(next, rest)?;
        Ok(Refusal::BadTag { at })
    } else if is(word, b"Busy") {
        let port = last_port(alloc, next, rest)?;
        Ok(Refusal::Busy { port })
    } else if is(word, b"NotAllocated") {
        let state = state_or_none(alloc, next, rest)?;
        Ok(Refusal::NotAllocated { state })
    } else if is(word, b"Failed") {
        let fail = fail(alloc, next, rest)?;
        Ok(Refusal::Failed { fail })
    } else {
        Err(LineError::BadName { n })
    }
}

#[tactic(auto, unfolding(crate::specs::ReadRefusals::numbered_of))]
fn numbered(alloc: Global, word: &[u8], n: u32, rest: &[u8]) -> Result<Refusal, LineError>
    requires { n < 400 }
    ensures read { Gives (λ x. x) result (numbered_of word.now n (behind rest.now)) }
    ensures memory { IfErr result (λ e. e ≡ LineError.Memory → 0 < length (behind rest.now)) }
{
    let next = n + 1;
    if is(word, b"Enrolling") {
        let link = last_number(next, rest)?;
        Ok(Refusal::Enrolling { link })
    } else if is(word, b"LinksFull") {
        let max = last_number(next, rest)?;
        Ok(Refusal::LinksFull { max })
    } else if is(word, b"BadOp") {
        let op = last_number(next, rest)?;
        Ok(Refusal::BadOp { op })
    } else if is(word, b"Twice") {
        let tag = last_number(next, rest)?;
        Ok(Refusal::Twice { tag })
    } else if is(word, b"Missing") {
        let tag = last_number(next, rest)?;
        Ok(Refusal::Missing { tag })
    } else if is(word, b"BadValue") {
        let tag = last_number(next, rest)?;
        Ok(Refusal::BadValue { tag })
    } else {
        shaped(alloc, word, n, rest)
    }
}

/// Reads a refusal that has fields.
#[tactic(auto, unfolding(crate::specs::ReadRefusals::counted_of))]
fn counted(alloc: Global, word: &[u8], n: u32, rest: &[u8]) -> Result<Refusal, LineError>
    requires { n < 400 }
    ensures read { Gives (λ x. x) result (counted_of word.now n (behind rest.now)) }
    ensures memory { IfErr result (λ e. e ≡ LineError.Memory → 0 < length (behind rest.now)) }
{
    let next = n + 1;
    if is(word, b"Unknown") {
        let field = last_number(next, rest)?;
        Ok(Refusal::Unknown { field })
    } else if is(word, b"NoIds") {
        let used = last_number(next, rest)?;
        Ok(Refusal::NoIds { used })
    } else if is(word, b"NoRoute") {
        let dst = last_number(next, rest)?;
        Ok(Refusal::NoRoute { dst })
    } else if is(word, b"NumbersSpent") {
        let until = last_number(next, rest)?;
        Ok(Refusal::NumbersSpent { until })
    } else if is(word, b"EarlyHold") {
        let now = last_number(next, rest)?;
        Ok(Refusal::EarlyHold { now })
    } else if is(word, b"LateHold") {
        let last = last_number(next, rest)?;
        Ok(Refusal::LateHold { last })
    } else {
        numbered(alloc, word, n, rest)
    }
}

#[tactic(auto, unfolding(crate::specs::ReadRefusals::refusal_of))]
fn refusal_of(alloc: Global, word: &[u8], n: u32, rest: &[u8]) -> Result<Refusal, LineError>
    requires { n < 400 }
    ensures read { Gives (λ x. x) result (refusal_of word.now n (behind rest.now)) }
    ensures memory { IfErr result (λ e. e ≡ LineError.Memory → 0 < length (behind rest.now)) }
{
    match bare(word) {
        Some(why) => { ended(why, n + 1, rest) }
        None => counted(alloc, word, n, rest),
    }
}

/// Reads a refusal, from field `n` to the end of the note.
#[tactic(auto, unfolding(crate::specs::ReadRefusals::refusal_at))]
pub(crate) fn refusal(alloc: Global, n: u32, rest: &[u8]) -> Result<Refusal, LineError>
    requires { n < 400 }
    ensures read { Gives (λ x. x) result (refusal_at n (behind rest.now)) }
    ensures memory { IfErr result (λ e. e ≡ LineError.Memory → 0 < length (behind rest.now)) }
{
    let (word, rest) = field(n, rest)?;
    refusal_of(alloc, word, n, rest)
}
