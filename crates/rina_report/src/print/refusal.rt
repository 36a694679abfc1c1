//! Printing refusals.
ghost use Rattle.std.specs.Prelude.{◌≡◌, ◌∷◌, [], true, false, MatchOption};
ghost use Rattle.std.specs.Fmt.{decimal};
ghost use Rattle.rina_schedule.specs.Spelling.{Adds, spaced};
ghost use Rattle.rina_report.specs.Refusals.{state_or_none, is_of_message, has_shape, refusal_word, refusal_values, refusal_fields};

use crate::print::state::{fail, state};
use crate::print::value;
use crate::refusal::Refusal;
use crate::state::StateNote;
use rina_base::Memory;
use rina_schedule::Text;

/// The name of a refusal for the bytes of a CDAP message.
#[tactic(auto, unfolding(crate::specs::Refusals::refusal_word))]
fn message_word(why: &Refusal) -> &'static [u8]
    requires { is_of_message why.now ≡ true }
    ensures { result.now ≡ refusal_word why.now }
{
    match why {
        Refusal::Short { .. } => b"Short",
        Refusal::BadTag { .. } => b"BadTag",
        Refusal::BadOp { .. } => b"BadOp",
        Refusal::Twice { .. } => b"Twice",
        Refusal::Missing { .. } => b"Missing",
        Refusal::BadValue { .. } => b"BadValue",
        _ => unreachable!(),
    }
}

/// The name of a refusal.
#[tactic(auto, unfolding(crate::specs::Refusals::refusal_word))]
fn word(why: &Refusal) -> &'static [u8]
    ensures { result.now ≡ refusal_word why.now }
{
    match why {
        Refusal::Unknown { .. } => b"Unknown",
        Refusal::NoWire => b"NoWire",
        Refusal::NoPolicy => b"NoPolicy",
        Refusal::LabelUsed => b"LabelUsed",
        Refusal::ClockSpent => b"ClockSpent",
        Refusal::NoIpc => b"NoIpc",
        Refusal::Already => b"Already",
        Refusal::NoMember => b"NoMember",
        Refusal::CountSpent { .. } => b"CountSpent",
        Refusal::NotThere => b"NotThere",
        Refusal::NoCube => b"NoCube",
        Refusal::NoSuchApp => b"NoSuchApp",
        Refusal::SameSystem => b"SameSystem",
        Refusal::NoIds { .. } => b"NoIds",
        Refusal::NoRoute { .. } => b"NoRoute",
        Refusal::Busy { .. } => b"Busy",
        Refusal::NotAllocated { .. } => b"NotAllocated",
        Refusal::Failed { .. } => b"Failed",
        Refusal::TooLong { .. } => b"TooLong",
        Refusal::WindowShut { .. } => b"WindowShut",
        Refusal::QueueFull { .. } => b"QueueFull",
        Refusal::NumbersSpent { .. } => b"NumbersSpent",
        Refusal::NoPort => b"NoPort",
        Refusal::NoFrame { .. } => b"NoFrame",
        Refusal::EarlyHold { .. } => b"EarlyHold",
        Refusal::LateHold { .. } => b"LateHold",
        Refusal::NoLink => b"NoLink",
        Refusal::Enrolling { .. } => b"Enrolling",
        Refusal::LinksFull { .. } => b"LinksFull",
        Refusal::NoRank => b"NoRank",
        Refusal::NotYours => b"NotYours",
        _ => message_word(why),
    }
}

#[tactic(auto, unfolding(crate::specs::Refusals::state_or_none))]
fn state_if_any(text: &mut Text, shown: &Option<StateNote>) -> Result<(), Memory>
    ensures { Adds result text.old text.new (spaced (state_or_none shown.now)) }
{
    match shown {
        None => text.field(b"none"),
        Some(shown) => state(text, shown),
    }
}

/// The number of a refusal that has one number, or None of one that has no fields.
#[tactic(auto, unfolding(crate::specs::Refusals::refusal_values))]
fn number(why: &Refusal) -> Option<u64>
    requires { has_shape why.now ≡ false }
    ensures { MatchOption result (refusal_values why.now ≡ []) (λ n. refusal_values why.now ≡ decimal n ∷ []) }
{
    match why {
        Refusal::Unknown { field } => Some(u64::from(*field)),
        Refusal::NoIds { used } => Some(u64::from(*used)),
        Refusal::NoRoute { dst } => Some(u64::from(*dst)),
        Refusal::NumbersSpent { until } => Some(u64::from(*until)),
        Refusal::NoFrame { frame } => Some(*frame),
        Refusal::EarlyHold { now } => Some(u64::from(*now)),
        Refusal::LateHold { last } => Some(u64::from(*last)),
        Refusal::Enrolling { link } => Some(u64::from(*link)),
        Refusal::LinksFull { max } => Some(u64::from(*max)),
        Refusal::Short { at } => Some(*at),
        Refusal::BadTag { at } => Some(*at),
        Refusal::BadOp { op } => Some(u64::from(*op)),
        Refusal::Twice { tag } => Some(u64::from(*tag)),
        Refusal::Missing { tag } => Some(u64::from(*tag)),
        Refusal::BadValue { tag } => Some(u64::from(*tag)),
        _ => None,
    }
}

/// Appends the field of a refusal that has one number, or no field.
fn number_if_any(text: &mut Text, why: &Refusal) -> Result<(), Memory>
    requires { has_shape why.now ≡ false }
    ensures { Adds result text.old text.new (spaced (refusal_values why.now)) }
{
    match number(why) {
        Some(n) => text.number_field(n),
        None => Ok(()),
    }
}

/// Appends the fields of a refusal.
#[tactic(auto, unfolding(crate::specs::Refusals::refusal_values))]
fn values(text: &mut Text, why: &Refusal) -> Result<(), Memory>
    ensures { Adds result text.old text.new (spaced (refusal_values why.now)) }
{
    match why {
        Refusal::CountSpent { need, left } => value::two(text, u64::from(*need), u64::from(*left)),
        Refusal::Busy { port } => value::port(text, port),
        Refusal::NotAllocated { state: shown } => state_if_any(text, shown),
        Refusal::Failed { fail: failure } => fail(text, failure),
        Refusal::TooLong { len, max } => value::two(text, *len, u64::from(*max)),
        Refusal::WindowShut { need, room } => value::two(text, u64::from(*need), u64::from(*room)),
        Refusal::QueueFull { need, room } => value::two(text, u64::from(*need), u64::from(*room)),
        _ => number_if_any(text, why),
    }
}

/// Appends a refusal: its name and its fields.
pub(crate) fn refusal(text: &mut Text, why: &Refusal) -> Result<(), Memory>
    ensures { Adds result text.old text.new (spaced (refusal_fields why.now)) }
{
    text.field(word(why))?;
    values(text, why)
}
