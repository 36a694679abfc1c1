//! How a run tells single steps of a DIF of a rank, the write-offs of its ledgers, and the objects of its RIBs.
ghost use Rattle.std.specs.Prelude.{◌≡◌, true, IfOk, OnErr};
ghost use Rattle.rina_notes.specs.Copying.{copies_cause, copies_clock, copies_in, copies_off, copies_out, copies_took};
ghost use Rattle.rina_notes.specs.StepTold.{cause_told, cdap_told, clock_note, clock_told, fault_told, in_told, object_told, off_told, out_told, step_told, took_told};

use crate::refusal::tell_send;
use crate::state::tell_port;
use rina_account::Off;
use rina_base::{Bytes, Cause, Memory};
use rina_cdap::CdapError;
use rina_data::{ClockStep, InStep, OutStep, StepError, Took};
use rina_dif::{CdapCallError, Shown};
use rina_report::{Answer, CauseNote, ClockNote, Refusal, TookNote};
use rina_schedule::ObjectName;
use rina_stack::Plan;
use std::alloc::Global;

/// The cause of a write-off in a DIF of a rank.
pub fn tell_cause(
    alloc: Global,
    plan: &Plan,
    rank: u16,
    cause: Cause,
) -> Result<Option<CauseNote>, Memory>
    ensures told { IfOk result (λ o. o ≡ cause_told plan.now rank cause) }
    ensures memory { OnErr result (copies_cause plan.now rank cause ≡ true) }
{
    match cause {
        Cause::Expired { left, charge } => Ok(Some(CauseNote::Expired { left, charge })),
        Cause::NoRoute { dst } => Ok(Some(CauseNote::NoRoute { dst })),
        Cause::QueueFull { cap } => Ok(Some(CauseNote::QueueFull { cap })),
        Cause::NoConnection { cep } => Ok(Some(CauseNote::NoConnection { cep })),
        Cause::Duplicate { num } => Ok(Some(CauseNote::Duplicate { num })),
        Cause::Behind { highest } => Ok(Some(CauseNote::Behind { highest })),
        Cause::NoState { drf } => Ok(Some(CauseNote::NoState { drf })),
        Cause::NoRoom { cap } => Ok(Some(CauseNote::NoRoom { cap })),
        Cause::StateGone { last_in } => Ok(Some(CauseNote::StateGone { last_in })),
        Cause::Broken { missing } => Ok(Some(CauseNote::Broken { missing })),
        Cause::LinkDown { port } => match tell_port(alloc, plan, rank.saturating_sub(1), port)? {
            Some(port) => Ok(Some(CauseNote::LinkDown { port })),
            None => Ok(None),
        },
    }
}

/// What a step did with the PDU that it took.
fn tell_took(alloc: Global, plan: &Plan, rank: u16, took: Took) -> Result<Option<TookNote>, Memory>
    ensures told { IfOk result (λ o. o ≡ took_told plan.now rank took) }
    ensures memory { OnErr result (copies_took plan.now rank took ≡ true) }
{
    match took {
        Took::Accepted => Ok(Some(TookNote::Accepted)),
        Took::Relayed => Ok(Some(TookNote::Relayed)),
        Took::Off(cause) => match tell_cause(alloc, plan, rank, cause)? {
            Some(cause) => Ok(Some(TookNote::Off(cause))),
            None => Ok(None),
        },
    }
}

/// What a step answered that takes a PDU from a link.
pub fn tell_in(
    alloc: Global,
    plan: &Plan,
    rank: u16,
    step: InStep,
) -> Result<Option<Answer>, Memory>
    ensures told { IfOk result (λ o. o ≡ in_told plan.now rank step) }
    ensures memory { OnErr result (copies_in plan.now rank step ≡ true) }
{
    match step {
        InStep::Idle => Ok(Some(Answer::Idle)),
        InStep::Took { key, end } => match tell_took(alloc, plan, rank, end)? {
            Some(end) => Ok(Some(Answer::In { key, end })),
            None => Ok(None),
        },
    }
}

/// What a step answered that gives a PDU to a link.
pub fn tell_out(
    alloc: Global,
    plan: &Plan,
    rank: u16,
    step: OutStep,
) -> Result<Option<Answer>, Memory>
    ensures told { IfOk result (λ o. o ≡ out_told plan.now rank step) }
    ensures memory { OnErr result (copies_out plan.now rank step ≡ true) }
{
    match step {
        OutStep::Idle => Ok(Some(Answer::Idle)),
        OutStep::Sent { key } => Ok(Some(Answer::Out { key })),
        OutStep::Off { key, cause } => match tell_cause(alloc, plan, rank, cause)? {
            Some(cause) => Ok(Some(Answer::OutOff { key, cause })),
            None => Ok(None),
        },
        OutStep::Held { why } => match tell_send(alloc, plan, rank.saturating_sub(1), why)? {
            Some(why) => Ok(Some(Answer::Held { why })),
            None => Ok(None),
        },
    }
}

/// What a step of the clock did, as a note shows it; None where nothing was due.
fn note_clock(
    alloc: Global,
    plan: &Plan,
    rank: u16,
    step: ClockStep,
) -> Result<Option<ClockNote>, Memory>
    ensures told { IfOk result (λ o. o ≡ clock_note plan.now rank step) }
    ensures memory { OnErr result (copies_clock plan.now rank step ≡ true) }
{
    match step {
        ClockStep::Idle => Ok(None),
        ClockStep::LinkLost { link } => Ok(Some(ClockNote::LinkLost {
            link: u32::from(link),
        })),
        ClockStep::LinkNew { link } => Ok(Some(ClockNote::LinkNew {
            link: u32::from(link),
        })),
        ClockStep::Gone { cep } => Ok(Some(ClockNote::Gone { cep })),
        ClockStep::GaveUp { num } => Ok(Some(ClockNote::GaveUp { num })),
        ClockStep::Timeout { port } => match tell_port(alloc, plan, rank, port)? {
            Some(port) => Ok(Some(ClockNote::Timeout { port })),
            None => Ok(None),
        },
        ClockStep::Ack { cep } => Ok(Some(ClockNote::Ack { cep })),
        ClockStep::Again { num } => Ok(Some(ClockNote::Again { num })),
        ClockStep::Message { link } => Ok(Some(ClockNote::Message {
            link: u32::from(link),
        })),
    }
}

/// What a step of the clock answered.
pub fn tell_clock(
    alloc: Global,
    plan: &Plan,
    rank: u16,
    step: ClockStep,
) -> Result<Option<Answer>, Memory>
    ensures told { IfOk result (λ o. o ≡ clock_told plan.now rank step) }
    ensures memory { OnErr result (copies_clock plan.now rank step ≡ true) }
{
    if let ClockStep::Idle = step {
        return Ok(Some(Answer::Idle));
    }
    match note_clock(alloc, plan, rank, step)? {
        Some(step) => Ok(Some(Answer::Clock { step })),
        None => Ok(None),
    }
}

/// Why a step was not taken.
pub fn tell_step(error: StepError) -> Option<Refusal>
    ensures { result ≡ step_told error }
{
    match error {
        StepError::Memory => None,
        StepError::NoIpc => Some(Refusal::NoIpc),
        StepError::NoLink => Some(Refusal::NoLink),
        StepError::CountSpent { need, left } => Some(Refusal::CountSpent { need, left }),
    }
}

/// A line of a ledger.
pub fn tell_off(alloc: Global, plan: &Plan, rank: u16, off: &Off) -> Result<Option<Answer>, Memory>
    ensures told { IfOk result (λ o. o ≡ off_told plan.now rank off.now) }
    ensures memory { OnErr result (copies_off plan.now rank off.now ≡ true) }
{
    let key = off.key;
    match tell_cause(alloc, plan, rank, off.cause)? {
        Some(cause) => Ok(Some(Answer::Off { key, cause })),
        None => Ok(None),
    }
}

/// The first fault of bytes that are no CDAP message.
fn tell_fault(error: CdapError) -> Option<Refusal>
    ensures { result ≡ fault_told error }
{
    match error {
        CdapError::Memory => None,
        CdapError::Short { at } => Some(Refusal::Short { at: at as u64 }),
        CdapError::BadTag { at } => Some(Refusal::BadTag { at: at as u64 }),
        CdapError::BadOp { n } => Some(Refusal::BadOp { op: u32::from(n) }),
        CdapError::Twice { tag } => Some(Refusal::Twice {
            tag: u32::from(tag),
        }),
        CdapError::Missing { tag } => Some(Refusal::Missing {
            tag: u32::from(tag),
        }),
        CdapError::BadValue { tag } => Some(Refusal::BadValue {
            tag: u32::from(tag),
        }),
    }
}

/// Why bytes were not answered.
pub fn tell_cdap(error: CdapCallError) -> Option<Refusal>
    ensures { result ≡ cdap_told error }
{
    match error {
        CdapCallError::Memory => None,
        CdapCallError::NoIpc => Some(Refusal::NoIpc),
        CdapCallError::Cdap(error) => tell_fault(error),
    }
}

/// An object of a RIB.
pub fn tell_object(alloc: Global, shown: &Shown) -> Result<Option<Answer>, Memory>
    ensures { IfOk result (λ o. o ≡ object_told shown.now) }
{
    let value = Bytes::copy_of(alloc, shown.value.as_slice())?;
    match ObjectName::read(alloc, shown.name.as_slice())? {
        Some(name) => Ok(Some(Answer::Object {
            name,
            class: shown.class,
            value,
        })),
        None => Ok(None),
    }
}
