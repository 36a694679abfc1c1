//! Reading the words about flows.
ghost use Rattle.std.specs.Prelude.{◌≡◌, ◌≢◌, IfErr, IsOk};
ghost use Rattle.rina_schedule.specs.Gives.{Gives};
ghost use Rattle.rina_schedule.specs.Fields.{field_at};
ghost use Rattle.rina_schedule.specs.FlowWords.{want_at, alloc_at, accept_at, send_at};

use crate::error::LineError;
use crate::event::Event;
use crate::field::{app, end, flag, name, setting};
use crate::words::last::last_bytes;
use crate::words::place::last_app_place;
use rina_cube::Want;
use std::alloc::Global;

/// Reads the options of a flow request, which begin at field 6.
#[tactic(auto, unfolding(crate::specs::FlowWords::want_at))]
fn want(text: &[u8]) -> Result<Want, LineError>
    ensures read { Gives (λ x. x) result (want_at text.now) }
    ensures memory { IfErr result (λ e. e ≢ LineError.Memory) }
{
    let (ordered, n, text) = flag(b"ordered", 6, text);
    let (reliable, n, text) = flag(b"reliable", n, text);
    let (within, n, text) = setting(b"within=", u32::MAX, n, text)?;
    let (size, n, text) = setting(b"size=", 0, n, text)?;
    end(n, text)?;
    Ok(Want {
        ordered,
        reliable,
        within,
        size,
    })
}

#[tactic(auto, unfolding(crate::specs::FlowWords::alloc_at))]
pub(crate) fn allocate(alloc: Global, text: &[u8]) -> Result<Event, LineError>
    ensures read { Gives (λ x. x) result (alloc_at text.now) }
    ensures memory { IfErr result (λ e. e ≡ LineError.Memory → IsOk (field_at 1 text.now)) }
{
    let (label, text) = name(alloc, 1, text)?;
    let (fac, text) = name(alloc, 2, text)?;
    let (node, text) = name(alloc, 3, text)?;
    let (from, text) = app(alloc, 4, text)?;
    let (to, text) = app(alloc, 5, text)?;
    let want = want(text)?;
    Ok(Event::Alloc {
        label,
        fac,
        node,
        app: from,
        to,
        want,
    })
}

#[tactic(auto, using(crate::proofs::Shared::accept_parts))]
pub(crate) fn accept(alloc: Global, text: &[u8]) -> Result<Event, LineError>
    ensures read { Gives (λ x. x) result (accept_at text.now) }
    ensures memory { IfErr result (λ e. e ≡ LineError.Memory → IsOk (field_at 1 text.now)) }
{
    let (label, text) = name(alloc, 1, text)?;
    let place = last_app_place(alloc, 2, text)?;
    Ok(Event::Accept {
        label,
        fac: place.at.fac,
        node: place.at.node,
        app: place.app,
    })
}

#[tactic(auto, using(crate::proofs::Shared::send_parts))]
pub(crate) fn send(alloc: Global, text: &[u8]) -> Result<Event, LineError>
    ensures read { Gives (λ x. x) result (send_at text.now) }
    ensures memory { IfErr result (λ e. e ≡ LineError.Memory → IsOk (field_at 1 text.now)) }
{
    let (label, text) = name(alloc, 1, text)?;
    let bytes = last_bytes(alloc, 2, text)?;
    Ok(Event::Send { label, bytes })
}
