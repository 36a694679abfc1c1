//! Reading the words about members of a DIF.
ghost use Rattle.std.specs.Prelude.{◌≡◌, IfErr, IsOk};
ghost use Rattle.rina_schedule.specs.Gives.{Gives};
ghost use Rattle.rina_schedule.specs.Fields.{field_at};
ghost use Rattle.rina_schedule.specs.DifWords.{publish_at, enrol_at, member_at, clock_at, cdap_at, rib_at, ledger_at};

use crate::error::LineError;
use crate::event::Event;
use crate::field::{end, name, path};
use crate::words::last::{last_bytes, last_name};
use crate::words::place::{last_place, read_place};
use std::alloc::Global;

#[tactic(auto, using(crate::proofs::Shared::publish_parts))]
pub(crate) fn publish(alloc: Global, text: &[u8]) -> Result<Event, LineError>
    ensures read { Gives (λ x. x) result (publish_at text.now) }
    ensures memory { IfErr result (λ e. e ≡ LineError.Memory → IsOk (field_at 1 text.now)) }
{
    let (at, text) = read_place(alloc, 1, text)?;
    let fac = last_name(alloc, 3, text)?;
    Ok(Event::Publish {
        dif: at.fac,
        node: at.node,
        fac,
    })
}

#[tactic(auto, using(crate::proofs::Shared::enrol_parts))]
pub(crate) fn enrol(alloc: Global, text: &[u8]) -> Result<Event, LineError>
    ensures read { Gives (λ x. x) result (enrol_at text.now) }
    ensures memory { IfErr result (λ e. e ≡ LineError.Memory → IsOk (field_at 1 text.now)) }
{
    let (at, text) = read_place(alloc, 1, text)?;
    let over = last_place(alloc, 3, text)?;
    Ok(Event::Enrol {
        dif: at.fac,
        node: at.node,
        fac: over.fac,
        peer: over.node,
    })
}

#[tactic(auto, using(crate::proofs::Shared::member_parts))]
pub(crate) fn member(alloc: Global, text: &[u8]) -> Result<Event, LineError>
    ensures read { Gives (λ x. x) result (member_at text.now) }
    ensures memory { IfErr result (λ e. e ≡ LineError.Memory → IsOk (field_at 1 text.now)) }
{
    let at = last_place(alloc, 1, text)?;
    Ok(Event::Member {
        dif: at.fac,
        node: at.node,
    })
}

#[tactic(auto, using(crate::proofs::Shared::clock_parts))]
pub(crate) fn clock(alloc: Global, text: &[u8]) -> Result<Event, LineError>
    ensures read { Gives (λ x. x) result (clock_at text.now) }
    ensures memory { IfErr result (λ e. e ≡ LineError.Memory → IsOk (field_at 1 text.now)) }
{
    let at = last_place(alloc, 1, text)?;
    Ok(Event::Clock {
        dif: at.fac,
        node: at.node,
    })
}

#[tactic(auto, using(crate::proofs::Shared::cdap_parts))]
pub(crate) fn cdap(alloc: Global, text: &[u8]) -> Result<Event, LineError>
    ensures read { Gives (λ x. x) result (cdap_at text.now) }
    ensures memory { IfErr result (λ e. e ≡ LineError.Memory → IsOk (field_at 1 text.now)) }
{
    let (at, text) = read_place(alloc, 1, text)?;
    let bytes = last_bytes(alloc, 3, text)?;
    Ok(Event::Cdap {
        dif: at.fac,
        node: at.node,
        bytes,
    })
}

#[tactic(auto, unfolding(crate::specs::DifWords::rib_at))]
pub(crate) fn rib(alloc: Global, text: &[u8]) -> Result<Event, LineError>
    ensures read { Gives (λ x. x) result (rib_at text.now) }
    ensures memory { IfErr result (λ e. e ≡ LineError.Memory → IsOk (field_at 1 text.now)) }
{
    let (dif, text) = name(alloc, 1, text)?;
    let (node, text) = name(alloc, 2, text)?;
    let (path, text) = path(alloc, 3, text)?;
    end(4, text)?;
    Ok(Event::Rib { dif, node, path })
}

#[tactic(auto, using(crate::proofs::Shared::ledger_parts))]
pub(crate) fn ledger(alloc: Global, text: &[u8]) -> Result<Event, LineError>
    ensures read { Gives (λ x. x) result (ledger_at text.now) }
    ensures memory { IfErr result (λ e. e ≡ LineError.Memory → IsOk (field_at 1 text.now)) }
{
    let at = last_place(alloc, 1, text)?;
    Ok(Event::Ledger {
        dif: at.fac,
        node: at.node,
    })
}
