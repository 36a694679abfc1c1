//! The lines of a schedule, one after the other.
ghost use Rattle.std.specs.Prelude.{◌≡◌, ◌<◌, ◌^◌, ℕ, List, [], take, Option, OnOk, OnErr, IfOk, IfErr};
ghost use Rattle.std.specs.Io.KnownBytes.{Appends};
ghost use Rattle.rina_io.specs.NextLine.{IsSound};
ghost use Rattle.rina_io.specs.Reader.{size};
ghost use Rattle.rina_report.specs.Notes.{text_of};
ghost use Rattle.rina_schedule.specs.Line.{line_at};
ghost use Rattle.rina_stack.specs.Plan.{IsPlan};
ghost use Rattle.rina_tower.specs.Stands.{IsTower};
ghost use Rattle.rina_run.specs.Top.{status_stopped};
ghost use Rattle.rina_run.specs.Written.{Written};
ghost use Rattle.rina_words.specs.Step.{HasNames, Steps, stage};
ghost use Rattle.rina_run.specs.Reading.{HasRead, ReadBehind};
ghost use Rattle.rina_run.specs.Run.{Asks, Ran, LineRan, LinesRan};
ghost use Rattle.rina_run.specs.Faults.{CloseFaults, StopFaults};

use crate::output::{Stop, emit};
use crate::reading::{Next, next_line};
use rina_base::{Memory, Seq};
use rina_io::{LineReader, Sink, Source, without_end};
use rina_notes::Line;
use rina_policy::Retires;
use rina_report::{Fault, Notes};
use rina_schedule::{Event, LineError, read_line};
use rina_stack::Plan;
use rina_words::{Run, step};
use std::alloc::Global;
use std::mem;

/// Takes back the notes from a place on. Takes no memory.
fn take_back(alloc: Global, trace: &mut Notes, from: usize)
    ensures { trace.new ≡ take from trace.old }
{
    let mut notes = mem::replace(trace, Seq::new(alloc)).into_vec();
    notes.truncate(from);
    *trace = Seq::from_vec(notes);
}

/// Runs what a line asks for, and writes its notes. Without memory for all of them the line tells none.
#[tactic(auto, using(crate::proofs::Playing::front_is, crate::proofs::Playing::front_of, crate::proofs::Pieces::piece_of, crate::proofs::Texts::wrote_all, crate::proofs::Ending::front_same))]
fn run_event<K: Sink, P: Retires>(
    line: &Line<'_>,
    run: &mut Run,
    shelf: &mut P,
    event: &Event,
    out: &mut K,
    trace: &mut Notes,
) -> Result<(), Stop>
    requires plan { IsPlan line.now.plan.now }
    requires sound { IsTower run.old.tower }
    ensures does { Ran (λ ns. Steps line.now.plan.now line.now.number event.now (stage run.old (P.slots shelf.old)) ns (stage run.new (P.slots shelf.new))) trace.old trace.new result }
    ensures ok { OnOk result ((base : Option (List ℕ)) → Appends base (K.took out.old) (text_of trace.old) → Appends base (K.took out.new) (text_of trace.new)) }
    ensures err { IfErr result (λ stop. (base : Option (List ℕ)) → Appends base (K.took out.old) (text_of trace.old) → Written base (K.took out.new) trace.new (status_stopped stop)) }
    ensures faults { StopFaults result (K.faults out.old) (K.faults out.new) (K.odd out.old) (K.odd out.new) }
    ensures sound { IsTower run.new.tower }
    ensures names { HasNames (P.slots shelf.old) (P.slots shelf.new) }
{
    let from = trace.len();
    match step(line, run, shelf, event, trace) {
        Ok(()) => emit(line.alloc, out, trace, from),
        Err(Memory) => {
            take_back(line.alloc, trace, from);
            Err(Stop::Memory)
        }
    }
}

/// What a line holds: an event, or none where it is blank or a comment, or the error of a line outside the grammar. A line that asks
/// for nothing takes no memory.
pub fn line_in(alloc: Global, text: &[u8]) -> Result<Result<Option<Event>, LineError>, Memory>
    ensures held { IfOk result (λ held. line_at text.now ≡ held) }
    ensures memory { OnErr result (Asks text.now) }
{
    match read_line(alloc, text) {
        Ok(event) => Ok(Ok(event)),
        Err(LineError::Memory) => Err(Memory),
        Err(error) => Ok(Err(error)),
    }
}

/// Runs a line and writes its notes. The fault of a line outside the grammar is answered, and then
/// nothing was run.
#[tactic(auto, using(crate::proofs::Texts::wrote_all))]
fn run_line<K: Sink, P: Retires>(
    line: &Line<'_>,
    run: &mut Run,
    shelf: &mut P,
    text: &[u8],
    out: &mut K,
    trace: &mut Notes,
) -> Result<Option<LineError>, Stop>
    requires plan { IsPlan line.now.plan.now }
    requires sound { IsTower run.old.tower }
    ensures does { LineRan line.now.plan.now line.now.number text.now (stage run.old (P.slots shelf.old)) trace.old (stage run.new (P.slots shelf.new)) trace.new result }
    ensures ok { OnOk result ((base : Option (List ℕ)) → Appends base (K.took out.old) (text_of trace.old) → Appends base (K.took out.new) (text_of trace.new)) }
    ensures err { IfErr result (λ stop. (base : Option (List ℕ)) → Appends base (K.took out.old) (text_of trace.old) → Written base (K.took out.new) trace.new (status_stopped stop)) }
    ensures faults { StopFaults result (K.faults out.old) (K.faults out.new) (K.odd out.old) (K.odd out.new) }
    ensures sound { IsTower run.new.tower }
    ensures names { HasNames (P.slots shelf.old) (P.slots shelf.new) }
{
    match line_in(line.alloc, text) {
        Ok(Ok(Some(event))) => {
            run_event(line, run, shelf, &event, out, trace)?;
            Ok(None)
        }
        Ok(Ok(None)) => Ok(None),
        Ok(Err(error)) => Ok(Some(error)),
        Err(Memory) => Err(Stop::Memory),
    }
}

/// A line outside the grammar.
#[derive(Clone, Copy, Debug)]
pub struct BadLine {
    pub number: u32,
    pub error: LineError,
}

/// How the lines of a schedule ended that were not stopped.
#[derive(Clone, Copy)]
pub enum Close {
    /// All lines were run.
    End,
    /// Reading broke off with this fault, behind the lines that were run.
    Broken(Fault),
    /// This line is outside the grammar.
    Bad(BadLine),
}

/// What the lines of a schedule are run by: the allocator, and the plan of the stack.
#[derive(Drop)]
pub struct Schedule<'a> {
    pub alloc: Global,
    pub plan: &'a Plan,
}

/// Reads lines and runs them in their order, up to the first that is outside the grammar. Each line's notes are
/// written before the next line is read.
#[tactic(auto, using(crate::proofs::Playing::none_played, crate::proofs::Texts::wrote_all))]
pub fn play<S: Source, K: Sink, P: Retires>(
    schedule: &Schedule<'_>,
    reader: &mut LineReader,
    source: &mut S,
    run: &mut Run,
    shelf: &mut P,
    out: &mut K,
    trace: &mut Notes,
) -> Result<Close, Stop>
    requires plan { IsPlan schedule.now.plan.now }
    requires sound { IsTower run.old.tower }
    requires reader { IsSound (S.left source.old) reader.old }
    requires few { size reader.old < 2 ^ 32 }
    requires none { trace.old ≡ [] }
    ensures does { (left : Option (List ℕ)) (before : List (List ℕ)) → HasRead left (S.left source.old) reader.old before → ReadBehind left (S.left source.new) reader.old before (λ ending lines. LinesRan schedule.now.plan.now (stage run.old (P.slots shelf.old)) ending lines trace.new (stage run.new (P.slots shelf.new)) result) }
    ensures ok { OnOk result (Appends (K.took out.old) (K.took out.new) (text_of trace.new)) }
    ensures err { IfErr result (λ stop. Written (K.took out.old) (K.took out.new) trace.new (status_stopped stop)) }
    ensures reads { CloseFaults result (S.faults source.old) (S.faults source.new) (S.odd source.old) (S.odd source.new) }
    ensures faults { StopFaults result (K.faults out.old) (K.faults out.new) (K.odd out.old) (K.odd out.new) }
    ensures sound { IsTower run.new.tower }
    ensures names { HasNames (P.slots shelf.old) (P.slots shelf.new) }
{
    let mut number = 0u32;
    'lines: loop {
        let text = match next_line(schedule.alloc, reader, source) {
            Ok(Next::Line(text)) => text,
            Ok(Next::End) => return Ok(Close::End),
            Ok(Next::Broken(fault)) => return Ok(Close::Broken(fault)),
            Err(Memory) => return Err(Stop::Memory),
        };
        number += 1;
        let line = Line {
            alloc: schedule.alloc,
            plan: schedule.plan,
            number,
        };
        let text = without_end(text.as_slice());
        if let Some(error) = run_line(&line, run, shelf, text, out, trace)? {
            return Ok(Close::Bad(BadLine { number, error }));
        }
    }
}
