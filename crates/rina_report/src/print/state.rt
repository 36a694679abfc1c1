//! Printing the states of ports and members.
ghost use Rattle.rina_schedule.specs.Spelling.{Adds, spaced};
ghost use Rattle.rina_report.specs.States.{why_fields, fail_fields, state_fields, member_fields};

use crate::print::{named, value};
use crate::state::{FailNote, MemberNote, StateNote};
use rina_base::Memory;
use rina_iface::Why;
use rina_schedule::Text;

#[tactic(auto, unfolding(crate::specs::States::why_fields))]
fn why(text: &mut Text, why: Why) -> Result<(), Memory>
    ensures { Adds result text.old text.new (spaced (why_fields why)) }
{
    match why {
        Why::Denied { rule } => named::number(text, b"Denied", rule),
        Why::NotHere => text.field(b"NotHere"),
        Why::NoIds { used } => named::number(text, b"NoIds", used),
        Why::Timeout { asked, now } => named::two(text, b"Timeout", asked, now),
        Why::Withdrawn => text.field(b"Withdrawn"),
    }
}

/// Appends a failure: its name and its fields.
#[tactic(auto, unfolding(crate::specs::States::fail_fields))]
pub(crate) fn fail(text: &mut Text, fail: &FailNote) -> Result<(), Memory>
    ensures { Adds result text.old text.new (spaced (fail_fields fail.now)) }
{
    match fail {
        FailNote::GaveUp { num, first, now } => {
            named::num(text, b"GaveUp", *num)?;
            value::two(text, u64::from(*first), u64::from(*now))
        }
        FailNote::Below { port } => named::port(text, b"Below", port),
        FailNote::Cut { at } => named::number(text, b"Cut", *at),
    }
}

/// Appends the state of a port: its name and its fields.
#[tactic(auto, unfolding(crate::specs::States::state_fields))]
pub(crate) fn state(text: &mut Text, state: &StateNote) -> Result<(), Memory>
    ensures { Adds result text.old text.new (spaced (state_fields state.now)) }
{
    match state {
        StateNote::Pending => text.field(b"pending"),
        StateNote::Allocated => text.field(b"allocated"),
        StateNote::Closed => text.field(b"closed"),
        StateNote::Refused(reason) => {
            text.field(b"refused")?;
            why(text, *reason)
        }
        StateNote::Failed(failure) => {
            text.field(b"failed")?;
            fail(text, failure)
        }
    }
}

/// Appends the state of a member: its name and its fields.
#[tactic(auto, unfolding(crate::specs::States::member_fields))]
pub(crate) fn member(text: &mut Text, state: MemberNote) -> Result<(), Memory>
    ensures { Adds result text.old text.new (spaced (member_fields state)) }
{
    match state {
        MemberNote::Outside => text.field(b"outside"),
        MemberNote::Joining { link } => named::number(text, b"joining", link),
        MemberNote::Enrolled => text.field(b"enrolled"),
        MemberNote::Denied { rule } => named::number(text, b"denied", rule),
    }
}
