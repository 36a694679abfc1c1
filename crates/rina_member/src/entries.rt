//! How the management of a member follows the names that are registered at its node.
ghost use Rattle.std.specs.Prelude.{None, Some, option_copied};
ghost use Rattle.std.specs.Fmt.{decimal};
ghost use Rattle.rina_member.specs.Managements.{MayMakeEntry};

use crate::management::{Management, entry_key, entry_value};
use crate::objects::show_live;
use rina_agent::AgentError;
use rina_base::{AppName, Tick};
use std::alloc::Global;

/// The management of a member after it made, at a tick, the directory entry of an application with a value, or none.
fn with_own_entry(
    alloc: Global,
    management: &Management,
    now: Tick,
    app: &AppName,
    value: Option<&[u8]>,
) -> Result<Management, AgentError>
    ensures { MayMakeEntry now app.now (option_copied value.entry) management.now result }
{
    let key = entry_key(alloc, app)?;
    let mut after = management.copy(alloc)?;
    after.agent.make_item(alloc, now, key.as_slice(), value)?;
    let items = &after.agent.items;
    show_live(alloc, &mut after.objects, items, key.as_slice())?;
    Ok(after)
}

/// The management of a member after an application was registered there at a tick: it made the directory entry of the
/// application, the value of which is the member's address, flooded it on each link that is up, and the object of the entry shows
/// what is live. Refused with `CountSpent` where no version count is left. The one that is given stays as it is.
pub fn registered(
    alloc: Global,
    management: &Management,
    now: Tick,
    app: &AppName,
) -> Result<Management, AgentError>
    ensures { MayMakeEntry now app.now (Some (decimal management.now.agent.address)) management.now result }
{
    let address = entry_value(alloc, management.agent.address)?;
    with_own_entry(alloc, management, now, app, Some(address.as_slice()))
}

/// The management of a member after the registration of an application there ended at a tick: it made a deletion of the directory
/// entry of the application, flooded it on each link that is up, and the object of the entry is gone where the deletion is the
/// newest. Refused with `CountSpent` where no version count is left. The one that is given stays as it is.
pub fn unregistered(
    alloc: Global,
    management: &Management,
    now: Tick,
    app: &AppName,
) -> Result<Management, AgentError>
    ensures { MayMakeEntry now app.now None management.now result }
{
    with_own_entry(alloc, management, now, app, None)
}
