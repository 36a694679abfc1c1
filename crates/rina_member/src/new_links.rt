//! How the management of a member gets a new link.
ghost use Rattle.std.specs.Prelude.{◌≡◌, IfOk};
ghost use Rattle.rina_member.specs.Managements.{MayJoin, claimed, with_agent};

use crate::management::Management;
use rina_agent::AgentError;
use rina_base::{AppName, Memory, Name};
use std::alloc::Global;

/// The management of a member after it asked for an enrolment at the member of a name, which is on a node, on a new link of a
/// number: CONNECT waits there. Refused with `CountSpent` where no invoke id is left. The number is meant to be one that no live link has.
/// The management that is given stays as it is.
pub fn joining(
    alloc: Global,
    management: &Management,
    link: u16,
    member: &AppName,
    node: &Name,
) -> Result<Management, AgentError>
    ensures { MayJoin link member.now node.now management.now result }
{
    let mut after = management.copy(alloc)?;
    after.agent.enrol(alloc, link, member, node)?;
    Ok(after)
}

/// The management of a member after it got a new link of a number, on which another may join: it waits for CONNECT. The number is meant to
/// be one that no live link has. The management that is given stays as it is.
pub fn claimed(alloc: Global, management: &Management, link: u16) -> Result<Management, Memory>
    ensures { IfOk result (λ after. after ≡ with_agent management.now (claimed management.now.agent link)) }
{
    let mut after = management.copy(alloc)?;
    after.agent.claim(alloc, link)?;
    Ok(after)
}
