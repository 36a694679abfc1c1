//! Reading the word about the loss of a frame.
ghost use Rattle.std.specs.Prelude.{◌≡◌, IfErr, IsOk};
ghost use Rattle.rina_schedule.specs.Gives.{Gives};
ghost use Rattle.rina_schedule.specs.Fields.{field_at};
ghost use Rattle.rina_schedule.specs.WireWords.{lose_at};

use crate::error::LineError;
use crate::event::Event;
use crate::field::name;
use crate::words::last::last_number;
use std::alloc::Global;

#[tactic(auto, using(crate::proofs::Shared::lose_parts))]
pub(crate) fn lose(alloc: Global, text: &[u8]) -> Result<Event, LineError>
    ensures read { Gives (λ x. x) result (lose_at text.now) }
    ensures memory { IfErr result (λ e. e ≡ LineError.Memory → IsOk (field_at 1 text.now)) }
{
    let (wire, text) = name(alloc, 1, text)?;
    let frame = last_number(2, text)?;
    Ok(Event::Lose { wire, frame })
}
