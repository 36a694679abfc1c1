//! Reading the causes of write-offs and the results of single steps, from field `n` to the end of the note.
ghost use Rattle.std.specs.Prelude.{◌<◌, ◌+◌, IfErr, length, ◌≡◌, ◌≢◌};
ghost use Rattle.rina_schedule.specs.Gives.{Gives};
ghost use Rattle.rina_report.specs.Fields.{behind};
ghost use Rattle.rina_report.specs.ReadCauses.{pdu_cause_of, cause_of, cause_at, took_of, took_at, clock_of, clock_at};

use crate::cause::CauseNote;
use crate::read::field::{ended, field, is};
use crate::read::last::{last_num, last_number, last_port, last_truth, last_two};
use crate::step::{ClockNote, TookNote};
use rina_schedule::LineError;
use std::alloc::Global;

/// Reads a cause that lies in the PDU itself.
#[tactic(auto, unfolding(crate::specs::ReadCauses::pdu_cause_of))]
fn pdu_cause(word: &[u8], n: u32, rest: &[u8]) -> Result<CauseNote, LineError>
    requires { n < 800 }
    ensures read { Gives (λ x. x) result (pdu_cause_of word.now n (behind rest.now)) }
    ensures memory { IfErr result (λ e. e ≢ LineError.Memory) }
{
    let next = n + 1;
    if is(word, b"Duplicate") {
        let num = last_num(next, rest)?;
        Ok(CauseNote::Duplicate { num })
    } else if is(word, b"Behind") {
        let highest = last_number(next, rest)?;
        Ok(CauseNote::Behind { highest })
    } else if is(word, b"NoState") {
        let drf = last_truth(next, rest)?;
        Ok(CauseNote::NoState { drf })
    } else if is(word, b"StateGone") {
        let last_in = last_number(next, rest)?;
        Ok(CauseNote::StateGone { last_in })
    } else if is(word, b"Broken") {
        let missing = last_number(next, rest)?;
        Ok(CauseNote::Broken { missing })
    } else {
        Err(LineError::BadName { n })
    }
}

#[tactic(auto, unfolding(crate::specs::ReadCauses::cause_of))]
fn cause_of(alloc: Global, word: &[u8], n: u32, rest: &[u8]) -> Result<CauseNote, LineError>
    requires { n < 800 }
    ensures read { Gives (λ x. x) result (cause_of word.now n (behind rest.now)) }
    ensures memory { IfErr result (λ e. e ≡ LineError.Memory → 0 < length (behind rest.now)) }
{
    let next = n + 1;
    if is(word, b"Expired") {
        let (left, charge) = last_two(next, rest)?;
        Ok(CauseNote::Expired { left, charge })
    } else if is(word, b"NoRoute") {
        let dst = last_number(next, rest)?;
        Ok(CauseNote::NoRoute { dst })
    } else if is(word, b"QueueFull") {
        let cap = last_number(next, rest)?;
        Ok(CauseNote::QueueFull { cap })
    } else if is(word, b"NoConnection") {
        let cep = last_number(next, rest)?;
        Ok(CauseNote::NoConnection { cep })
    } else if is(word, b"NoRoom") {
        let cap = last_number(next, rest)?;
        Ok(CauseNote::NoRoom { cap })
    } else if is(word, b"LinkDown") {
        let port = last_port(alloc, next, rest)?;
        Ok(CauseNote::LinkDown { port })
    } else {
        pdu_cause(word, n, rest)
    }
}

/// Reads a cause.
#[tactic(auto, unfolding(crate::specs::ReadCauses::cause_at))]
pub(crate) fn cause(alloc: Global, n: u32, rest: &[u8]) -> Result<CauseNote, LineError>
    requires { n < 800 }
    ensures read { Gives (λ x. x) result (cause_at n (behind rest.now)) }
    ensures memory { IfErr result (λ e. e ≡ LineError.Memory → 0 < length (behind rest.now)) }
{
    let (word, rest) = field(n, rest)?;
    cause_of(alloc, word, n, rest)
}

#[tactic(auto, unfolding(crate::specs::ReadCauses::took_of))]
fn took_of(alloc: Global, word: &[u8], n: u32, rest: &[u8]) -> Result<TookNote, LineError>
    requires { n < 700 }
    ensures read { Gives (λ x. x) result (took_of word.now n (behind rest.now)) }
    ensures memory { IfErr result (λ e. e ≡ LineError.Memory → 0 < length (behind rest.now)) }
{
    let next = n + 1;
    if is(word, b"accepted") {
        ended(TookNote::Accepted, next, rest)
    } else if is(word, b"relayed") {
        ended(TookNote::Relayed, next, rest)
    } else if is(word, b"off") {
        let why = cause(alloc, next, rest)?;
        Ok(TookNote::Off(why))
    } else {
        Err(LineError::BadName { n })
    }
}

/// Reads what a step did with a PDU.
#[tactic(auto, unfolding(crate::specs::ReadCauses::took_at))]
pub(crate) fn took(alloc: Global, n: u32, rest: &[u8]) -> Result<TookNote, LineError>
    requires { n < 700 }
    ensures read { Gives (λ x. x) result (took_at n (behind rest.now)) }
    ensures memory { IfErr result (λ e. e ≡ LineError.Memory → 0 < length (behind rest.now)) }
{
    let (word, rest) = field(n, rest)?;
    took_of(alloc, word, n, rest)
}

#[tactic(auto, unfolding(crate::specs::ReadCauses::clock_of))]
fn clock_of(alloc: Global, word: &[u8], n: u32, rest: &[u8]) -> Result<ClockNote, LineError>
    requires { n < 800 }
    ensures read { Gives (λ x. x) result (clock_of word.now n (behind rest.now)) }
    ensures memory { IfErr result (λ e. e ≡ LineError.Memory → 0 < length (behind rest.now)) }
{
    let next = n + 1;
    if is(word, b"link-lost") {
        let link = last_number(next, rest)?;
        Ok(ClockNote::LinkLost { link })
    } else if is(word, b"link-new") {
        let link = last_number(next, rest)?;
        Ok(ClockNote::LinkNew { link })
    } else if is(word, b"gone") {
        let cep = last_number(next, rest)?;
        Ok(ClockNote::Gone { cep })
    } else if is(word, b"gave-up") {
        let num = last_num(next, rest)?;
        Ok(ClockNote::GaveUp { num })
    } else if is(word, b"timeout") {
        let port = last_port(alloc, next, rest)?;
        Ok(ClockNote::Timeout { port })
    } else if is(word, b"ack") {
        let cep = last_number(next, rest)?;
        Ok(ClockNote::Ack { cep })
    } else if is(word, b"again") {
        let num = last_num(next, rest)?;
        Ok(ClockNote::Again { num })
    } else if is(word, b"message") {
        let link = last_number(next, rest)?;
        Ok(ClockNote::Message { link })
    } else {
        Err(LineError::BadName { n })
    }
}

/// Reads the result of a step of the clock.
#[tactic(auto, unfolding(crate::specs::ReadCauses::clock_at))]
pub(crate) fn clock(alloc: Global, n: u32, rest: &[u8]) -> Result<ClockNote, LineError>
    requires { n < 800 }
    ensures read { Gives (λ x. x) result (clock_at n (behind rest.now)) }
    ensures memory { IfErr result (λ e. e ≡ LineError.Memory → 0 < length (behind rest.now)) }
{
    let (word, rest) = field(n, rest)?;
    clock_of(alloc, word, n, rest)
}
