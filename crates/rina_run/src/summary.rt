//! The counts of a run, for the summary of one that was drawn.
ghost use Rattle.std.specs.Prelude.{◌≡◌, ◌≤◌, ◌^◌, ◌⊎◌, length, count_by, None, Some, IfOk, IfSome, OnErr};
ghost use Rattle.std.specs.List.{sum_by};
ghost use Rattle.rina_data.specs.declared.process.IpcProcess.{IpcProcess};
ghost use Rattle.rina_gen.specs.Input.{input};
ghost use Rattle.rina_gen.specs.Text.{input_text};
ghost use Rattle.rina_tower.specs.Ranks.{seen_of};
ghost use Rattle.rina_run.specs.Drawn.{HasManyFacilities, IsSummary, dif_offs, fac_failures, failures_in, has_failed, is_failed_app, is_got, is_refused, is_sent, line_total, offs_in};

use crate::input::lines_behind_mark;
use rina_base::Memory;
use rina_data::IpcProcess;
use rina_dif::Dif;
use rina_iface::{End, Facility, PortState};
use rina_io::all_lines;
use rina_notes::tick_of;
use rina_report::{Answer, Note};
use rina_tower::Tower;
use std::alloc::Global;

/// A count as a note tells it. So much as it can't tell fits into no memory.
fn told(count: usize) -> Result<u32, Memory>
    ensures told { IfOk result (λ n. n ≡ count) }
    ensures memory { OnErr result (2 ^ 32 ≤ count) }
{
    match u32::try_from(count) {
        Ok(count) => Ok(count),
        Err(_) => Err(Memory),
    }
}

#[tactic(auto, unfolding(crate::specs::Drawn::is_sent))]
fn is_sent(note: &Note) -> bool
    ensures { result ≡ is_sent note.now }
{
    matches!(
        note,
        Note::Line {
            line: _,
            tick: _,
            answer: Answer::Sent { num: _ }
        }
    )
}

#[tactic(auto, unfolding(crate::specs::Drawn::is_got))]
fn is_got(note: &Note) -> bool
    ensures { result ≡ is_got note.now }
{
    matches!(
        note,
        Note::Line {
            line: _,
            tick: _,
            answer: Answer::Got { at: _, bytes: _ }
        }
    )
}

#[tactic(auto, unfolding(crate::specs::Drawn::is_refused))]
fn is_refused(note: &Note) -> bool
    ensures { result ≡ is_refused note.now }
{
    matches!(
        note,
        Note::Line {
            line: _,
            tick: _,
            answer: Answer::Refused { why: _ }
        }
    )
}

/// How many SDUs notes tell as sent.
fn count_sent(notes: &[Note]) -> usize
    ensures { result ≡ count_by is_sent notes.now }
{
    let mut count = 0;
    'notes: for note in notes {
        if is_sent(note) {
            count += 1;
        }
    }
    count
}

/// How many SDUs they tell as read.
fn count_got(notes: &[Note]) -> usize
    ensures { result ≡ count_by is_got notes.now }
{
    let mut count = 0;
    'notes: for note in notes {
        if is_got(note) {
            count += 1;
        }
    }
    count
}

/// How many lines they tell as refused.
fn count_refused(notes: &[Note]) -> usize
    ensures { result ≡ count_by is_refused notes.now }
{
    let mut count = 0;
    'notes: for note in notes {
        if is_refused(note) {
            count += 1;
        }
    }
    count
}

/// How many PDUs IPC processes have written off. None only where they are 2^64 or more.
fn count_lines(processes: &[IpcProcess]) -> Option<usize>
    ensures some { IfSome result (λ n. n ≡ sum_by (λ (p : IpcProcess). length p.ledger) processes.now) }
    ensures none { result ≡ None → 2 ^ 64 ≤ sum_by (λ (p : IpcProcess). length p.ledger) processes.now }
{
    match processes {
        [] => Some(0),
        [first, others @ ..] => first.ledger.lines().len().checked_add(count_lines(others)?),
    }
}

/// How many PDUs the IPC processes of a DIF have written off. None only where they are 2^64 or more.
#[tactic(auto, unfolding(crate::specs::Drawn::dif_offs))]
fn count_offs_in(dif: &Dif) -> Option<usize>
    ensures some { IfSome result (λ n. n ≡ dif_offs dif.now) }
    ensures none { result ≡ None → 2 ^ 64 ≤ dif_offs dif.now }
{
    count_lines(dif.processes())
}

/// How many PDUs DIFs have written off. None only where they are 2^64 or more.
fn count_offs_of(difs: &[Dif]) -> Option<usize>
    ensures some { IfSome result (λ n. n ≡ sum_by dif_offs difs.now) }
    ensures none { result ≡ None → 2 ^ 64 ≤ sum_by dif_offs difs.now }
{
    match difs {
        [] => Some(0),
        [first, others @ ..] => {
            let own = count_offs_in(first)?;
            let more = count_offs_of(others)?;
            own.checked_add(more)
        }
    }
}

/// How many PDUs the DIFs of all ranks have written off. None only where they are 2^64 or more.
fn count_offs(tower: &Tower) -> Option<usize>
    ensures some { IfSome result (λ n. n ≡ offs_in tower.now) }
    ensures none { result ≡ None → 2 ^ 64 ≤ offs_in tower.now }
{
    match tower {
        Tower::Wires(_) => Some(0),
        Tower::Rank(rank) => {
            count_offs(&rank.below)?.checked_add(count_offs_of(rank.difs.as_slice())?)
        }
    }
}

fn has_failed(state: PortState) -> bool
    ensures { result ≡ has_failed state }
{
    matches!(state, PortState::Failed(_))
}

/// Whether an end is one of an application, and has failed.
fn is_failed_app(end: &End) -> bool
    ensures { result ≡ is_failed_app end.now }
{
    has_failed(end.state) && !end.app.is_ipc()
}

/// How many ends of applications have failed, of some.
fn count_failed(ends: &[End]) -> usize
    ensures { result ≡ count_by is_failed_app ends.now }
{
    ends.iter().filter(|end| is_failed_app(end)).count()
}

/// How many ends of applications have failed at the top rank. None only where they are 2^64 or more, or the rank has 65,535
/// facilities or more.
#[tactic(auto, using(crate::proofs::Drawing::failures_more, crate::proofs::Drawing::failures_all))]
fn count_failures_at_top(tower: &Tower) -> Option<usize>
    ensures some { IfSome result (λ n. n ≡ sum_by fac_failures (seen_of tower.now).facs) }
    ensures none { result ≡ None → 2 ^ 64 ≤ sum_by fac_failures (seen_of tower.now).facs ⊎ 65535 ≤ length (seen_of tower.now).facs }
{
    let mut count = 0usize;
    'facilities: for fac in 0..u16::MAX {
        let Some(journal) = tower.journal(fac) else {
            return Some(count);
        };
        count = count.checked_add(count_failed(journal.ends.as_slice()))?;
    }
    None
}

/// How many ends of applications have failed at all ranks. None only where they are 2^64 or more, or a rank has 65,535
/// facilities or more.
fn count_failures(tower: &Tower) -> Option<usize>
    ensures some { IfSome result (λ n. n ≡ failures_in tower.now) }
    ensures none { result ≡ None → 2 ^ 64 ≤ failures_in tower.now ⊎ HasManyFacilities tower.now }
{
    let top = count_failures_at_top(tower)?;
    match tower {
        Tower::Wires(_) => Some(top),
        Tower::Rank(rank) => count_failures(&rank.below)?.checked_add(top),
    }
}

/// How many lines the schedule of a text has.
fn count_script_lines(alloc: Global, text: &[u8]) -> Result<u32, Memory>
    ensures { IfOk result (λ n. line_total text.now ≡ Some n) }
{
    let lines = all_lines(alloc, text)?;
    told(lines_behind_mark(lines.as_slice()))
}

/// The summary of a run of the input that a number draws, which is this text.
pub fn sum_up(
    alloc: Global,
    n: u32,
    text: &[u8],
    notes: &[Note],
    tower: &Tower,
) -> Result<Note, Memory>
    requires { text.now ≡ input_text (input n) }
    ensures { IfOk result (λ note. IsSummary n notes.now tower.now note) }
{
    let (Some(off), Some(failed)) = (count_offs(tower), count_failures(tower)) else {
        return Err(Memory);
    };
    Ok(Note::Gen {
        n,
        lines: count_script_lines(alloc, text)?,
        tick: tick_of(tower),
        sent: told(count_sent(notes))?,
        got: told(count_got(notes))?,
        refused: told(count_refused(notes))?,
        off: told(off)?,
        failed: told(failed)?,
    })
}
