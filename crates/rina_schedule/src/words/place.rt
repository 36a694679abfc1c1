//! Reading where an event is.
ghost use Rattle.std.specs.Prelude.{◌≡◌, ◌<◌, IfErr, IsOk, OnOk};
ghost use Rattle.rina_schedule.specs.Gives.{Gives};
ghost use Rattle.rina_schedule.specs.Fields.{field_at};
ghost use Rattle.rina_schedule.specs.Shared.{place_at, last_place_at, last_app_place_at};

use crate::error::LineError;
use crate::field::{app, end, name};
use rina_base::{AppName, Name};
use std::alloc::Global;

/// A facility, which is a wire or a DIF, and a node in it.
#[derive(Drop)]
pub(crate) struct Place {
    pub fac: Name,
    pub node: Name,
}

/// An application at a place.
#[derive(Drop)]
pub(crate) struct AppPlace {
    pub at: Place,
    pub app: AppName,
}

/// Reads a place from field `n` on.
#[tactic(auto, unfolding(crate::specs::Shared::place_at))]
pub(crate) fn read_place<'a>(
    alloc: Global,
    n: u32,
    text: &'a [u8],
) -> Result<(Place, &'a [u8]), LineError>
    requires { n < 100 }
    ensures read { Gives (λ x. (x.0, x.1.now)) result (place_at n text.now) }
    ensures memory { IfErr result (λ e. e ≡ LineError.Memory → IsOk (field_at n text.now)) }
    ensures there { OnOk result (IsOk (field_at n text.now)) }
{
    let (fac, text) = name(alloc, n, text)?;
    let (node, text) = name(alloc, n + 1, text)?;
    Ok((Place { fac, node }, text))
}

/// Reads a place from field `n` on, the last of the line.
#[tactic(auto, unfolding(crate::specs::Shared::last_place_at))]
pub(crate) fn last_place(alloc: Global, n: u32, text: &[u8]) -> Result<Place, LineError>
    requires { n < 100 }
    ensures read { Gives (λ x. x) result (last_place_at n text.now) }
    ensures memory { IfErr result (λ e. e ≡ LineError.Memory → IsOk (field_at n text.now)) }
{
    let (at, text) = read_place(alloc, n, text)?;
    end(n + 2, text)?;
    Ok(at)
}

/// Reads an application at a place from field `n` on, the last of the line.
#[tactic(auto, unfolding(crate::specs::Shared::last_app_place_at))]
pub(crate) fn last_app_place(alloc: Global, n: u32, text: &[u8]) -> Result<AppPlace, LineError>
    requires { n < 100 }
    ensures read { Gives (λ x. x) result (last_app_place_at n text.now) }
    ensures memory { IfErr result (λ e. e ≡ LineError.Memory → IsOk (field_at n text.now)) }
{
    let (at, text) = read_place(alloc, n, text)?;
    let (app, text) = app(alloc, n + 2, text)?;
    end(n + 3, text)?;
    Ok(AppPlace { at, app })
}
