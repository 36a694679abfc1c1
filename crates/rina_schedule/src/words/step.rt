//! Reading the words about the clock.
ghost use Rattle.std.specs.Prelude.{◌≢◌, IfErr};
ghost use Rattle.rina_schedule.specs.Gives.{Gives};
ghost use Rattle.rina_schedule.specs.WireWords.{tick_at, round_at};

use crate::error::LineError;
use crate::event::Event;
use crate::field::{end, number};

/// The greatest number of ticks that one line lets pass.
const TICKS: u32 = 100_000;

#[tactic(auto, unfolding(crate::specs::WireWords::tick_at))]
pub(crate) fn tick(text: &[u8]) -> Result<Event, LineError>
    ensures read { Gives (λ x. x) result (tick_at text.now) }
    ensures memory { IfErr result (λ e. e ≢ LineError.Memory) }
{
    let (count, text) = number(1, text)?;
    if !(1..=TICKS).contains(&count) {
        return Err(LineError::BadNumber { n: 1 });
    }
    end(2, text)?;
    Ok(Event::Tick { count })
}

#[tactic(auto, unfolding(crate::specs::WireWords::round_at))]
pub(crate) fn round(text: &[u8]) -> Result<Event, LineError>
    ensures read { Gives (λ x. x) result (round_at text.now) }
    ensures memory { IfErr result (λ e. e ≢ LineError.Memory) }
{
    end(1, text)?;
    Ok(Event::Round)
}
