//! Notes of the lines that were run.
ghost use Rattle.std.specs.Prelude.{◌≡◌, ◌++◌, true, is_some, option_map, OnOk, OnErr};
ghost use Rattle.rina_tower.specs.Ranks.{now_of};
ghost use Rattle.rina_notes.specs.Look.{noted};

use rina_base::{Memory, Tick};
use rina_iface::Facility;
use rina_report::{Answer, Note, Notes, Refusal};
use rina_tower::Tower;

/// The tick that it is.
#[tactic(auto, using(rina_tower::specs::Ranks::seen_now))]
pub fn tick_of(tower: &Tower) -> Tick
    ensures { result ≡ now_of tower.now }
{
    tower.now()
}

/// Adds the note of what a line says at a tick, if it says anything. Nothing takes no memory.
pub fn tell(trace: &mut Notes, line: u32, tick: Tick, says: Option<Answer>) -> Result<(), Memory>
    ensures ok { OnOk result (trace.new ≡ trace.old ++ noted line tick says) }
    ensures err { OnErr result (trace.new ≡ trace.old) }
    ensures memory { OnErr result (is_some says ≡ true) }
{
    let Some(said) = says else {
        return Ok(());
    };
    trace.push(Note::Line {
        line,
        tick,
        answer: said,
    })?;
    Ok(())
}

/// The answer that tells a refusal.
pub fn refused(why: Option<Refusal>) -> Option<Answer>
    ensures { result ≡ option_map Answer.Refused why }
{
    Some(Answer::Refused { why: why? })
}
