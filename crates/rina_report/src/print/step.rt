//! Printing the results of single steps.
ghost use Rattle.rina_schedule.specs.Spelling.{Adds, spaced};
ghost use Rattle.rina_report.specs.Steps.{took_fields, clock_fields};

use crate::print::cause::off;
use crate::print::named;
use crate::step::{ClockNote, TookNote};
use rina_base::Memory;
use rina_schedule::Text;

/// Appends what a step did with a PDU.
#[tactic(auto, unfolding(crate::specs::Steps::took_fields))]
pub(crate) fn took(text: &mut Text, end: &TookNote) -> Result<(), Memory>
    ensures { Adds result text.old text.new (spaced (took_fields end.now)) }
{
    match end {
        TookNote::Accepted => text.field(b"accepted"),
        TookNote::Relayed => text.field(b"relayed"),
        TookNote::Off(why) => off(text, why),
    }
}

/// Appends the result of a step of the clock: its name and its field.
#[tactic(auto, unfolding(crate::specs::Steps::clock_fields))]
pub(crate) fn clock(text: &mut Text, step: &ClockNote) -> Result<(), Memory>
    ensures { Adds result text.old text.new (spaced (clock_fields step.now)) }
{
    match step {
        ClockNote::LinkLost { link } => named::number(text, b"link-lost", *link),
        ClockNote::LinkNew { link } => named::number(text, b"link-new", *link),
        ClockNote::Gone { cep } => named::number(text, b"gone", *cep),
        ClockNote::GaveUp { num } => named::num(text, b"gave-up", *num),
        ClockNote::Timeout { port } => named::port(text, b"timeout", port),
        ClockNote::Ack { cep } => named::number(text, b"ack", *cep),
        ClockNote::Again { num } => named::num(text, b"again", *num),
        ClockNote::Message { link } => named::number(text, b"message", *link),
    }
}
