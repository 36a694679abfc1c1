//! Reading the states of ports, from field `n` to the end of the note.
ghost use Rattle.std.specs.Prelude.{◌<◌, ◌+◌, IfErr, length, ◌≡◌, ◌≢◌};
ghost use Rattle.rina_schedule.specs.Gives.{Gives};
ghost use Rattle.rina_report.specs.Fields.{behind};
ghost use Rattle.rina_report.specs.ReadStates.{why_of, why_at, gave_up_at, fail_of, fail_at, state_of, state_at};

use crate::read::field::{ended, field, is};
use crate::read::last::{last_number, last_port, last_two};
use crate::read::value::num;
use crate::state::{FailNote, StateNote};
use rina_iface::Why;
use rina_schedule::LineError;
use std::alloc::Global;

#[tactic(auto, unfolding(crate::specs::ReadStates::why_of))]
fn why_of(word: &[u8], n: u32, rest: &[u8]) -> Result<Why, LineError>
    requires { n < 800 }
    ensures read { Gives (λ x. x) result (why_of word.now n (behind rest.now)) }
    ensures memory { IfErr result (λ e. e ≢ LineError.Memory) }
{
    let next = n + 1;
    if is(word, b"Denied") {
        let rule = last_number(next, rest)?;
        Ok(Why::Denied { rule })
    } else if is(word, b"NotHere") {
        ended(Why::NotHere, next, rest)
    } else if is(word, b"NoIds") {
        let used = last_number(next, rest)?;
        Ok(Why::NoIds { used })
    } else if is(word, b"Timeout") {
        let (asked, now) = last_two(next, rest)?;
        Ok(Why::Timeout { asked, now })
    } else if is(word, b"Withdrawn") {
        ended(Why::Withdrawn, next, rest)
    } else {
        Err(LineError::BadName { n })
    }
}

/// Reads why a flow was refused.
#[tactic(auto, unfolding(crate::specs::ReadStates::why_at))]
fn why(n: u32, rest: &[u8]) -> Result<Why, LineError>
    requires { n < 800 }
    ensures read { Gives (λ x. x) result (why_at n (behind rest.now)) }
    ensures memory { IfErr result (λ e. e ≢ LineError.Memory) }
{
    let (word, rest) = field(n, rest)?;
    why_of(word, n, rest)
}

/// Reads which PDU was not acknowledged in time, and the ticks.
#[tactic(auto, unfolding(crate::specs::ReadStates::gave_up_at))]
fn gave_up(n: u32, rest: &[u8]) -> Result<FailNote, LineError>
    requires { n < 800 }
    ensures read { Gives (λ x. x) result (gave_up_at n (behind rest.now)) }
    ensures memory { IfErr result (λ e. e ≢ LineError.Memory) }
{
    let (num, rest) = num(n, rest)?;
    let (first, now) = last_two(n + 1, rest)?;
    Ok(FailNote::GaveUp { num, first, now })
}

#[tactic(auto, unfolding(crate::specs::ReadStates::fail_of))]
fn fail_of(alloc: Global, word: &[u8], n: u32, rest: &[u8]) -> Result<FailNote, LineError>
    requires { n < 700 }
    ensures read { Gives (λ x. x) result (fail_of word.now n (behind rest.now)) }
    ensures memory { IfErr result (λ e. e ≡ LineError.Memory → 0 < length (behind rest.now)) }
{
    let next = n + 1;
    if is(word, b"GaveUp") {
        gave_up(next, rest)
    } else if is(word, b"Below") {
        let port = last_port(alloc, next, rest)?;
        Ok(FailNote::Below { port })
    } else if is(word, b"Cut") {
        let at = last_number(next, rest)?;
        Ok(FailNote::Cut { at })
    } else {
        Err(LineError::BadName { n })
    }
}

/// Reads why a flow failed.
#[tactic(auto, unfolding(crate::specs::ReadStates::fail_at))]
pub(crate) fn fail(alloc: Global, n: u32, rest: &[u8]) -> Result<FailNote, LineError>
    requires { n < 700 }
    ensures read { Gives (λ x. x) result (fail_at n (behind rest.now)) }
    ensures memory { IfErr result (λ e. e ≡ LineError.Memory → 0 < length (behind rest.now)) }
{
    let (word, rest) = field(n, rest)?;
    fail_of(alloc, word, n, rest)
}

/// Reads the state of a port, whose word in field `n` was read.
#[tactic(auto, unfolding(crate::specs::ReadStates::state_of))]
pub(crate) fn state_of(
    alloc: Global,
    word: &[u8],
    n: u32,
    rest: &[u8],
) -> Result<StateNote, LineError>
    requires { n < 600 }
    ensures read { Gives (λ x. x) result (state_of word.now n (behind rest.now)) }
    ensures memory { IfErr result (λ e. e ≡ LineError.Memory → 0 < length (behind rest.now)) }
{
    let next = n + 1;
    if is(word, b"pending") {
        ended(StateNote::Pending, next, rest)
    } else if is(word, b"allocated") {
        ended(StateNote::Allocated, next, rest)
    } else if is(word, b"closed") {
        ended(StateNote::Closed, next, rest)
    } else if is(word, b"refused") {
        let reason = why(next, rest)?;
        Ok(StateNote::Refused(reason))
    } else if is(word, b"failed") {
        let failure = fail(alloc, next, rest)?;
        Ok(StateNote::Failed(failure))
    } else {
        Err(LineError::BadName { n })
    }
}

/// Reads the state of a port.
#[tactic(auto, unfolding(crate::specs::ReadStates::state_at))]
pub(crate) fn state(alloc: Global, n: u32, rest: &[u8]) -> Result<StateNote, LineError>
    requires { n < 600 }
    ensures read { Gives (λ x. x) result (state_at n (behind rest.now)) }
    ensures memory { IfErr result (λ e. e ≡ LineError.Memory → 0 < length (behind rest.now)) }
{
    let (word, rest) = field(n, rest)?;
    state_of(alloc, word, n, rest)
}
