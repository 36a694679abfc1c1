//! The state of a member, and why a call of its management is refused.
ghost use Rattle.std.specs.Prelude.{◌≡◌, None, Some, MatchResult};
ghost use Rattle.rina_agent.specs.Counts.{spent};

use rina_base::Memory;

/// How far an IPC process is a member of its DIF.
#[derive(Clone, Copy, Debug, PartialEq, Eq)]
pub enum MemberState {
    /// It has not asked to join, or the link on which it asked is lost.
    Outside,
    /// Its enrolment runs on a link.
    Joining { link: u16 },
    Enrolled,
    /// A rule denied it: the number of the rule, 0 for the default, 257 where the member that it asked is not enrolled.
    Denied { rule: u32 },
}

/// Why nothing is done.
#[derive(Clone, Copy, Debug, PartialEq, Eq)]
pub enum AgentError {
    /// An allocation failed.
    Memory,
    /// So many version counts or invoke ids are needed, and only so many are left.
    CountSpent { need: u32, left: u32 },
}

impl From<Memory> for AgentError {
    ghost use Rattle.std.specs.Prelude.{◌≡◌};
    ghost use Rattle.rina_agent.specs.declared.state.AgentError.TheVariants.{Memory};

    ghost from_gives = { λ _ e. e ≡ Memory };

    fn from(_error: Memory) -> AgentError {
        AgentError::Memory
    }
}

/// Whether so many numbers are left behind the last one.
pub(crate) fn check(need: u32, last: u32) -> Result<(), AgentError>
    ensures { MatchResult result (λ _. spent need last ≡ None) (λ e. spent need last ≡ Some e) }
{
    let left = u32::MAX - last;
    if left < need {
        return Err(AgentError::CountSpent { need, left });
    }
    Ok(())
}
