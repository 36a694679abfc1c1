//! The word `journal`.
ghost use Rattle.std.specs.Prelude.{◌≡◌, ◌++◌, ◌∷◌, [], map, option_map, IfOk, OnOk, OnErr};
ghost use Rattle.std.specs.List.{flat_map};
ghost use Rattle.rina_report.specs.declared.answer.Answer.TheVariants as answers;
ghost use Rattle.rina_stack.specs.Plan.{IsPlan};
ghost use Rattle.rina_tower.specs.Stands.{IsTower};
ghost use Rattle.rina_notes.specs.Look.{Leads, Extends};
ghost use Rattle.rina_notes.specs.Sites.{fac_named};
ghost use Rattle.rina_words.specs.Step.{Showing, end_notes, entry_note, flow_note, journal_notes, sent_note};

use crate::run::Run;
use rina_base::{Memory, Name, Seq, Tick};
use rina_iface::{End, Entry, Facility};
use rina_notes::{Line, ends_at, find_fac, tell, tell_port, tell_state, tick_of};
use rina_report::{Answer, FlowNote, Notes, Refusal};
use rina_stack::Plan;
use std::alloc::Global;

/// One end, as it is shown.
fn say_end(alloc: Global, plan: &Plan, rank: u16, end: &End) -> Result<Option<Answer>, Memory>
    ensures { IfOk result (λ o. o ≡ option_map answers.Flow (flow_note plan.now rank end.now)) }
{
    let Some(port) = tell_port(alloc, plan, rank, end.port)? else {
        return Ok(None);
    };
    let Some(state) = tell_state(alloc, plan, rank, end.state)? else {
        return Ok(None);
    };
    Ok(Some(Answer::Flow(FlowNote {
        flow: end.flow,
        role: end.role,
        port,
        app: end.app.copy(alloc)?,
        peer: end.peer.copy(alloc)?,
        cube: end.cube,
        taken: end.taken,
        state,
    })))
}

/// An entry of what an end sent.
fn tell_sent(
    alloc: Global,
    entry: &Entry,
    line: u32,
    tick: Tick,
    trace: &mut Notes,
) -> Result<(), Memory>
    ensures ok { OnOk result (trace.new ≡ trace.old ++ map (sent_note line tick) (entry.now ∷ [])) }
    ensures err { OnErr result (trace.new ≡ trace.old) }
{
    let bytes = Seq::copy_of(alloc, entry.bytes.as_slice())?;
    let what = Answer::SentEntry {
        at: entry.tick,
        num: entry.num,
        bytes,
    };
    tell(trace, line, tick, Some(what))
}

/// An entry of what an end got.
fn tell_got(
    alloc: Global,
    entry: &Entry,
    line: u32,
    tick: Tick,
    trace: &mut Notes,
) -> Result<(), Memory>
    ensures ok { OnOk result (trace.new ≡ trace.old ++ map (entry_note line tick) (entry.now ∷ [])) }
    ensures err { OnErr result (trace.new ≡ trace.old) }
{
    let bytes = Seq::copy_of(alloc, entry.bytes.as_slice())?;
    let what = Answer::GotEntry {
        at: entry.tick,
        num: entry.num,
        bytes,
    };
    tell(trace, line, tick, Some(what))
}

/// All that an end sent.
fn tell_all_sent(
    alloc: Global,
    entries: &[Entry],
    line: u32,
    tick: Tick,
    trace: &mut Notes,
) -> Result<(), Memory>
    ensures ok { OnOk result (trace.new ≡ trace.old ++ map (sent_note line tick) entries.now) }
    ensures err { OnErr result (Extends trace.old trace.new) }
{
    'entries: for entry in entries {
        tell_sent(alloc, entry, line, tick, trace)?;
    }
    Ok(())
}

/// All that an end got.
fn tell_all_got(
    alloc: Global,
    entries: &[Entry],
    line: u32,
    tick: Tick,
    trace: &mut Notes,
) -> Result<(), Memory>
    ensures ok { OnOk result (trace.new ≡ trace.old ++ map (entry_note line tick) entries.now) }
    ensures err { OnErr result (Extends trace.old trace.new) }
{
    'entries: for entry in entries {
        tell_got(alloc, entry, line, tick, trace)?;
    }
    Ok(())
}

/// One end with its journal.
fn tell_end(
    line: &Line<'_>,
    rank: u16,
    end: &End,
    tick: Tick,
    trace: &mut Notes,
) -> Result<(), Memory>
    ensures ok { OnOk result (trace.new ≡ trace.old ++ end_notes line.now.plan.now rank line.now.number tick end.now) }
    ensures err { OnErr result (Extends trace.old trace.new) }
{
    let says = say_end(line.alloc, line.plan, rank, end)?;
    tell(trace, line.number, tick, says)?;
    tell_all_sent(line.alloc, end.sent.as_slice(), line.number, tick, trace)?;
    tell_all_got(line.alloc, end.got.as_slice(), line.number, tick, trace)
}

/// All ends, each with its journal.
fn tell_ends(
    line: &Line<'_>,
    rank: u16,
    ends: &[End],
    tick: Tick,
    trace: &mut Notes,
) -> Result<(), Memory>
    ensures ok { OnOk result (trace.new ≡ trace.old ++ flat_map (end_notes line.now.plan.now rank line.now.number tick) ends.now) }
    ensures err { OnErr result (Extends trace.old trace.new) }
{
    'ends: for end in ends {
        tell_end(line, rank, end, tick, trace)?;
    }
    Ok(())
}

/// Shows all ends of a facility, or that there is none.
fn tell_journal(
    line: &Line<'_>,
    rank: u16,
    ends: &[End],
    tick: Tick,
    trace: &mut Notes,
) -> Result<(), Memory>
    ensures ok { OnOk result (trace.new ≡ trace.old ++ journal_notes line.now.plan.now rank line.now.number tick ends.now) }
    ensures err { OnErr result (Extends trace.old trace.new) }
{
    if ends.is_empty() {
        return tell(trace, line.number, tick, Some(Answer::Nothing));
    }
    tell_ends(line, rank, ends, tick, trace)
}

/// The word `journal`.
pub fn journal(line: &Line<'_>, run: &Run, fac: &Name, trace: &mut Notes) -> Result<(), Memory>
    requires plan { IsPlan line.now.plan.now }
    requires tower { IsTower run.now.tower }
    ensures does { OnOk result (Leads (λ ns. Showing line.now.plan.now line.now.number (fac_named line.now.plan.now fac.now) run.now ns run.now) trace.old trace.new) }
    ensures more { OnErr result (Extends trace.old trace.new) }
{
    let tick = tick_of(&run.tower);
    let Some(at) = find_fac(line.plan, fac) else {
        let why = Refusal::Unknown { field: 1 };
        return tell(trace, line.number, tick, Some(Answer::Refused { why }));
    };
    let ends = ends_at(&run.tower, at.rank, at.fac);
    tell_journal(line, at.rank, ends, tick, trace)
}
