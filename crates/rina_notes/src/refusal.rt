//! What a call refused, as a note shows it.
ghost use Rattle.std.specs.Prelude.{◌≡◌, true, IfOk, OnErr};
ghost use Rattle.rina_notes.specs.Copying.{copies_allocate, copies_app, copies_enrol, copies_send};
ghost use Rattle.rina_notes.specs.Told.{app_told, enrol_told, publish_told, register_told, unregister_told, free_told, allocate_told, send_told, wire_told};

use crate::state::{tell_drawn, tell_fail};
use rina_base::{Memory, Name};
use rina_dif::EnrolError;
use rina_iface::{AllocateError, FreeError, RegisterError, SendError, UnregisterError};
use rina_report::{PortNote, Refusal};
use rina_stack::Plan;
use rina_tower::{AppError, PublishError};
use rina_wire::WireError;
use std::alloc::Global;

/// What `register` of an application refused.
pub fn tell_register(error: AppError<RegisterError>) -> Option<Refusal>
    ensures { result ≡ app_told register_told error }
{
    match error {
        AppError::NoRank => Some(Refusal::NoRank),
        AppError::NotYours => Some(Refusal::NotYours),
        AppError::Call(error) => register_refusal(error),
    }
}

/// What `register` refused.
fn register_refusal(error: RegisterError) -> Option<Refusal>
    ensures { result ≡ register_told error }
{
    match error {
        RegisterError::Memory => None,
        RegisterError::Already => Some(Refusal::Already),
        RegisterError::NoMember => Some(Refusal::NoMember),
        RegisterError::CountSpent { need, left } => Some(Refusal::CountSpent { need, left }),
    }
}

/// What `publish` refused.
pub fn tell_publish(error: PublishError) -> Option<Refusal>
    ensures { result ≡ publish_told error }
{
    match error {
        PublishError::NoIpc => Some(Refusal::NoIpc),
        PublishError::Lower(error) => register_refusal(error),
    }
}

/// What `unregister` of an application refused.
pub fn tell_unregister(error: AppError<UnregisterError>) -> Option<Refusal>
    ensures { result ≡ app_told unregister_told error }
{
    match error {
        AppError::NoRank => Some(Refusal::NoRank),
        AppError::NotYours => Some(Refusal::NotYours),
        AppError::Call(error) => unregister_refusal(error),
    }
}

/// What `unregister` refused.
fn unregister_refusal(error: UnregisterError) -> Option<Refusal>
    ensures { result ≡ unregister_told error }
{
    match error {
        UnregisterError::Memory => None,
        UnregisterError::NotThere => Some(Refusal::NotThere),
        UnregisterError::CountSpent { need, left } => Some(Refusal::CountSpent { need, left }),
    }
}

/// What `free` of an application refused.
pub fn tell_free(error: AppError<FreeError>) -> Option<Refusal>
    ensures { result ≡ app_told free_told error }
{
    match error {
        AppError::NoRank => Some(Refusal::NoRank),
        AppError::NotYours => Some(Refusal::NotYours),
        AppError::Call(error) => free_refusal(error),
    }
}

/// What `free` refused.
fn free_refusal(error: FreeError) -> Option<Refusal>
    ensures { result ≡ free_told error }
{
    match error {
        FreeError::Memory => None,
        FreeError::NoPort => Some(Refusal::NoPort),
    }
}

fn tell_busy(alloc: Global, fac: &Name, node: &Name, n: u32) -> Result<PortNote, Memory>
    ensures { IfOk result (λ p. p ≡ record { fac = fac.now; node = node.now; n = n }) }
{
    let fac = fac.copy(alloc)?;
    let node = node.copy(alloc)?;
    Ok(PortNote { fac, node, n })
}

/// What `allocate` of an application refused at a facility and a node of these names.
pub fn tell_allocate(
    alloc: Global,
    fac: &Name,
    node: &Name,
    error: AppError<AllocateError>,
) -> Result<Option<Refusal>, Memory>
    ensures told { IfOk result (λ o. o ≡ app_told (allocate_told fac.now node.now) error) }
    ensures memory { OnErr result (copies_app copies_allocate error ≡ true) }
{
    match error {
        AppError::NoRank => Ok(Some(Refusal::NoRank)),
        AppError::NotYours => Ok(Some(Refusal::NotYours)),
        AppError::Call(error) => allocate_refusal(alloc, fac, node, error),
    }
}

/// What `allocate` refused at a facility and a node of these names.
fn allocate_refusal(
    alloc: Global,
    fac: &Name,
    node: &Name,
    error: AllocateError,
) -> Result<Option<Refusal>, Memory>
    ensures told { IfOk result (λ o. o ≡ allocate_told fac.now node.now error) }
    ensures memory { OnErr result (copies_allocate error ≡ true) }
{
    match error {
        AllocateError::Memory => Ok(None),
        AllocateError::NoMember => Ok(Some(Refusal::NoMember)),
        AllocateError::NoCube => Ok(Some(Refusal::NoCube)),
        AllocateError::NoSuchApp => Ok(Some(Refusal::NoSuchApp)),
        AllocateError::SameSystem => Ok(Some(Refusal::SameSystem)),
        AllocateError::NoIds { used } => Ok(Some(Refusal::NoIds { used })),
        AllocateError::NoRoute { dst } => Ok(Some(Refusal::NoRoute { dst })),
        AllocateError::Busy { port } => {
            let port = tell_busy(alloc, fac, node, port.n)?;
            Ok(Some(Refusal::Busy { port }))
        }
        AllocateError::CountSpent { need, left } => Ok(Some(Refusal::CountSpent { need, left })),
    }
}

/// What `enrol` refused at a facility below and a node of these names.
pub fn tell_enrol(
    alloc: Global,
    fac: &Name,
    node: &Name,
    error: EnrolError,
) -> Result<Option<Refusal>, Memory>
    ensures told { IfOk result (λ o. o ≡ enrol_told fac.now node.now error) }
    ensures memory { OnErr result (copies_enrol error ≡ true) }
{
    match error {
        EnrolError::Memory => Ok(None),
        EnrolError::NoIpc => Ok(Some(Refusal::NoIpc)),
        EnrolError::Enrolling { link } => Ok(Some(Refusal::Enrolling {
            link: u32::from(link),
        })),
        EnrolError::LinksFull { max } => Ok(Some(Refusal::LinksFull { max })),
        EnrolError::CountSpent { need, left } => Ok(Some(Refusal::CountSpent { need, left })),
        EnrolError::Lower(error) => allocate_refusal(alloc, fac, node, error),
    }
}

/// What `send` refused at a rank.
pub fn tell_send(
    alloc: Global,
    plan: &Plan,
    rank: u16,
    error: SendError,
) -> Result<Option<Refusal>, Memory>
    ensures told { IfOk result (λ o. o ≡ send_told plan.now rank error) }
    ensures memory { OnErr result (copies_send plan.now rank error ≡ true) }
{
    match error {
        SendError::Memory => Ok(None),
        SendError::NotAllocated { state } => {
            let state = tell_drawn(alloc, plan, rank, state)?;
            Ok(Some(Refusal::NotAllocated { state }))
        }
        SendError::Failed { fail } => match tell_fail(alloc, plan, rank, fail)? {
            Some(fail) => Ok(Some(Refusal::Failed { fail })),
            None => Ok(None),
        },
        SendError::TooLong { len, max } => Ok(Some(Refusal::TooLong {
            len: len as u64,
            max,
        })),
        SendError::WindowShut { need, room } => Ok(Some(Refusal::WindowShut { need, room })),
        SendError::NoRoute { dst } => Ok(Some(Refusal::NoRoute { dst })),
        SendError::QueueFull { need, room } => Ok(Some(Refusal::QueueFull { need, room })),
        SendError::NumbersSpent { until } => Ok(Some(Refusal::NumbersSpent { until })),
    }
}

/// What `send` of an application refused at a rank.
pub fn tell_app_send(
    alloc: Global,
    plan: &Plan,
    rank: u16,
    error: AppError<SendError>,
) -> Result<Option<Refusal>, Memory>
    ensures told { IfOk result (λ o. o ≡ app_told (send_told plan.now rank) error) }
    ensures memory { OnErr result (copies_app (copies_send plan.now rank) error ≡ true) }
{
    match error {
        AppError::NoRank => Ok(Some(Refusal::NoRank)),
        AppError::NotYours => Ok(Some(Refusal::NotYours)),
        AppError::Call(error) => tell_send(alloc, plan, rank, error),
    }
}

/// What an event of a wire refused.
pub fn tell_wire(error: WireError) -> Option<Refusal>
    ensures { result ≡ wire_told error }
{
    match error {
        WireError::Memory => None,
        WireError::NoWire => Some(Refusal::NoWire),
        WireError::NoFrame { k } => Some(Refusal::NoFrame { frame: k }),
        WireError::EarlyHold { now } => Some(Refusal::EarlyHold { now }),
        WireError::LateHold { last } => Some(Refusal::LateHold { last }),
    }
}
