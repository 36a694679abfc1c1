//! How the management of a member loses a link.
ghost use Rattle.rina_member.specs.Managements.{MayLoseLink};

use crate::management::Management;
use crate::objects::{show_live, state_key};
use rina_agent::AgentError;
use rina_base::Tick;
use std::alloc::Global;

/// The management of a member after it lost the link of a number at a tick: where the link was up, it made its link state
/// without it, and the object of its link state shows that. Refused with `CountSpent` where the link was up and no version count
/// is left for the link state. The one that is given stays as it is.
pub fn without_link(
    alloc: Global,
    management: &Management,
    now: Tick,
    link: u16,
) -> Result<Management, AgentError>
    ensures { MayLoseLink now link management.now result }
{
    let key = state_key(alloc, management.agent.address)?;
    let mut after = management.copy(alloc)?;
    after.agent.lose_link(alloc, now, link)?;
    show_live(
        alloc,
        &mut after.objects,
        &after.agent.items,
        key.as_slice(),
    )?;
    Ok(after)
}
