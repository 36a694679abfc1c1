//! Printing the causes of write-offs.
ghost use Rattle.std.specs.Prelude.{◌≡◌, ◌∷◌, codes};
ghost use Rattle.rina_schedule.specs.Spelling.{Adds, spaced};
ghost use Rattle.rina_report.specs.Causes.{cause_word, cause_values, cause_fields};

use crate::cause::CauseNote;
use crate::print::value;
use rina_base::Memory;
use rina_schedule::Text;

/// The name of a cause.
#[tactic(auto, unfolding(crate::specs::Causes::cause_word))]
fn word(cause: &CauseNote) -> &'static [u8]
    ensures { result.now ≡ cause_word cause.now }
{
    match cause {
        CauseNote::Expired { .. } => b"Expired",
        CauseNote::NoRoute { .. } => b"NoRoute",
        CauseNote::QueueFull { .. } => b"QueueFull",
        CauseNote::NoConnection { .. } => b"NoConnection",
        CauseNote::Duplicate { .. } => b"Duplicate",
        CauseNote::Behind { .. } => b"Behind",
        CauseNote::NoState { .. } => b"NoState",
        CauseNote::NoRoom { .. } => b"NoRoom",
        CauseNote::StateGone { .. } => b"StateGone",
        CauseNote::Broken { .. } => b"Broken",
        CauseNote::LinkDown { .. } => b"LinkDown",
    }
}

/// Appends the fields of a cause.
#[tactic(auto, unfolding(crate::specs::Causes::cause_values))]
fn values(text: &mut Text, cause: &CauseNote) -> Result<(), Memory>
    ensures { Adds result text.old text.new (spaced (cause_values cause.now)) }
{
    match cause {
        CauseNote::Expired { left, charge } => value::two(
            text,
            u64::from(*left),
            u64::from(*charge),
        ),
        CauseNote::NoRoute { dst } => text.number_field(u64::from(*dst)),
        CauseNote::QueueFull { cap } => text.number_field(u64::from(*cap)),
        CauseNote::NoConnection { cep } => text.number_field(u64::from(*cep)),
        CauseNote::Duplicate { num } => value::num(text, *num),
        CauseNote::Behind { highest } => text.number_field(u64::from(*highest)),
        CauseNote::NoState { drf } => value::truth(text, *drf),
        CauseNote::NoRoom { cap } => text.number_field(u64::from(*cap)),
        CauseNote::StateGone { last_in } => text.number_field(u64::from(*last_in)),
        CauseNote::Broken { missing } => text.number_field(u64::from(*missing)),
        CauseNote::LinkDown { port } => value::port(text, port),
    }
}

/// Appends a cause: its name and its fields.
pub(crate) fn cause(text: &mut Text, cause: &CauseNote) -> Result<(), Memory>
    ensures { Adds result text.old text.new (spaced (cause_fields cause.now)) }
{
    text.field(word(cause))?;
    values(text, cause)
}

/// Appends that a PDU was written off: the word and the cause.
pub(crate) fn off(text: &mut Text, why: &CauseNote) -> Result<(), Memory>
    ensures { Adds result text.old text.new (spaced (codes "off" ∷ cause_fields why.now)) }
{
    text.field(b"off")?;
    cause(text, why)
}
