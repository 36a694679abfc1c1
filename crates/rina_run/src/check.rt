//! Checking an input: its stack and its lines are read, and nothing is run.
ghost use Rattle.std.specs.Prelude.{◌≡◌, ◌<◌, ◌^◌, ℕ, List, [], None, Option, IfOk, OnErr};
ghost use Rattle.rina_io.specs.NextLine.{IsSound};
ghost use Rattle.rina_io.specs.Reader.{size};
ghost use Rattle.rina_stack.specs.Plan.{IsPlan};
ghost use Rattle.rina_run.specs.Check.{AreReadAs, CheckOutcomes, InputTells, IsReadAs, LinesTell, counts_of, status_beside};
ghost use Rattle.rina_run.specs.Outcomes.{IsChecked};
ghost use Rattle.rina_run.specs.Reading.{Broken, HasRead, HasText, ReadBehind};
ghost use Rattle.rina_run.specs.Run.{Asks};
ghost use Rattle.rina_run.specs.Top.{ClosedBy, WasRead};
ghost use Rattle.rina_run.specs.Written.{Written};
ghost use Rattle.rina_run.specs.Faults.{CheckFaults, NoteFaults, ReadFaults, WriteFaults};

use crate::closing::{fault_status, line_fault, out_of_memory, seal};
use crate::lines::{BadLine, line_in};
use crate::outcome::{Finish, Status};
use crate::reading::{Head, Next, next_line, plan_of, read_stack};
use rina_base::{Memory, Seq};
use rina_io::{LineReader, Sink, Source, without_end};
use rina_report::{Fault, Note};
use rina_schedule::LineError;
use rina_stack::{Plan, Policies, StackError};
use std::alloc::Global;

/// What reading the lines of a schedule gives.
#[derive(Clone, Copy)]
pub enum Checked {
    /// All are inside the grammar, and so many hold an event.
    Events(u32),
    /// Reading broke off with this fault, behind lines inside the grammar.
    Broken(Fault),
    /// This one is the first outside the grammar.
    Bad(BadLine),
}

/// Whether a line holds an event, or the fault of a line outside the grammar. A blank line and a comment take no memory.
fn read_one(alloc: Global, line: &[u8]) -> Result<Result<bool, LineError>, Memory>
    ensures read { IfOk result (IsReadAs line.now) }
    ensures memory { OnErr result (Asks line.now) }
{
    match line_in(alloc, line) {
        Ok(Ok(event)) => Ok(Ok(event.is_some())),
        Ok(Err(error)) => Ok(Err(error)),
        Err(Memory) => Err(Memory),
    }
}

/// Reads lines in their order, up to the first that is outside the grammar.
#[tactic(auto, using(crate::proofs::Checks::none_checked))]
fn read_lines<S: Source>(
    alloc: Global,
    reader: &mut LineReader,
    source: &mut S,
) -> Result<Checked, Memory>
    requires reader { IsSound (S.left source.old) reader.old }
    requires few { size reader.old < 2 ^ 32 }
    ensures reads { IfOk result (λ checked. (left : Option (List ℕ)) (before : List (List ℕ)) → HasRead left (S.left source.old) reader.old before → ReadBehind left (S.left source.new) reader.old before (λ ending lines. AreReadAs ending lines checked)) }
    ensures faults { CheckFaults result (S.faults source.old) (S.faults source.new) (S.odd source.old) (S.odd source.new) }
{
    let mut number = 0u32;
    let mut events = 0u32;
    'lines: loop {
        let line = match next_line(alloc, reader, source) {
            Ok(Next::Line(line)) => line,
            Ok(Next::End) => return Ok(Checked::Events(events)),
            Ok(Next::Broken(fault)) => return Ok(Checked::Broken(fault)),
            Err(Memory) => return Err(Memory),
        };
        number += 1;
        match read_one(alloc, without_end(line.as_slice())) {
            Ok(Ok(holds)) => events += u32::from(holds),
            Ok(Err(error)) => return Ok(Checked::Bad(BadLine { number, error })),
            Err(Memory) => return Err(Memory),
        }
    }
}

/// The counts of an input.
fn counts(plan: &Plan, events: u32) -> Note
    requires { IsPlan plan.now }
    ensures { result ≡ counts_of plan.now events }
{
    Note::Checked {
        nodes: plan.nodes.len() as u32,
        wires: plan.wires.len() as u32,
        difs: plan.difs.len() as u32,
        lines: events,
    }
}

/// What is told of the lines behind a stack that was accepted.
fn tell_lines<S: Source>(
    alloc: Global,
    plan: &Plan,
    reader: &mut LineReader,
    source: &mut S,
) -> Result<Note, Memory>
    requires plan { IsPlan plan.now }
    requires reader { IsSound (S.left source.old) reader.old }
    requires few { size reader.old < 2 ^ 32 }
    ensures told { IfOk result (λ note. (left : Option (List ℕ)) (before : List (List ℕ)) → HasRead left (S.left source.old) reader.old before → ReadBehind left (S.left source.new) reader.old before (λ ending lines. LinesTell ending plan.now lines note)) }
    ensures faults { NoteFaults result (S.faults source.old) (S.faults source.new) (S.odd source.old) (S.odd source.new) }
{
    match read_lines(alloc, reader, source) {
        Ok(Checked::Events(events)) => Ok(counts(plan, events)),
        Ok(Checked::Broken(fault)) => Ok(Note::Fault(fault)),
        Ok(Checked::Bad(bad)) => Ok(Note::Fault(line_fault(bad))),
        Err(Memory) => Err(Memory),
    }
}

/// What is told of a stack that breaks a rule, first at an item.
fn rule_note(n: u32, item: u32) -> Note
    ensures { result ≡ Note.Fault (Fault.StackRule n item) }
{
    Note::Fault(Fault::StackRule { n, item })
}

/// What is told of a script whose stack has this text.
fn tell_script<S: Source, P: Policies>(
    alloc: Global,
    text: Vec<u8>,
    reader: &mut LineReader,
    source: &mut S,
    shelf: &P,
) -> Result<Note, Memory>
    requires reader { IsSound (S.left source.old) reader.old }
    requires few { size reader.old < 2 ^ 32 }
    ensures told { IfOk result (λ note. (left : Option (List ℕ)) → HasText left (S.left source.old) reader.old text.items → WasRead left (S.left source.new) (λ ending script. InputTells (P.knows shelf.now) ending script note)) }
    ensures faults { NoteFaults result (S.faults source.old) (S.faults source.new) (S.odd source.old) (S.odd source.new) }
{
    match plan_of(alloc, text, shelf) {
        Ok(plan) => tell_lines(alloc, &plan, reader, source),
        Err(StackError::Memory) => Err(Memory),
        Err(StackError::NotToml) => Ok(Note::Fault(Fault::NotToml)),
        Err(StackError::StackRule { n, item }) => Ok(rule_note(n, item)),
    }
}

/// What is told of an input, which is read line by line.
fn tell_input<S: Source, P: Policies>(
    alloc: Global,
    input: &mut S,
    shelf: &P,
) -> Result<Note, Memory>
    ensures told { IfOk result (λ note. WasRead (S.left input.old) (S.left input.new) (λ ending script. InputTells (P.knows shelf.now) ending script note)) }
    ensures faults { NoteFaults result (S.faults input.old) (S.faults input.new) (S.odd input.old) (S.odd input.new) }
{
    let mut reader = LineReader::new(alloc);
    match read_stack(alloc, &mut reader, input) {
        Ok(Head::Stack(text)) => tell_script(alloc, text, &mut reader, input, shelf),
        Ok(Head::Broken(fault)) => Ok(Note::Fault(fault)),
        Err(Memory) => Err(Memory),
    }
}

/// The status beside a closing note.
fn status_of_note(note: &Note) -> Status
    ensures { result ≡ status_beside note.now }
{
    match note {
        Note::Fault(fault) => fault_status(*fault),
        _ => Status::Done,
    }
}

/// Tells one note.
#[tactic(auto, using(crate::proofs::Checks::is_told_beside, crate::proofs::Ending::wrote_nothing))]
fn tell<K: Sink>(alloc: Global, note: Note, out: &mut K) -> Finish
    ensures closed { ClosedBy (status_beside note) note [] result.status result.trace }
    ensures tower { result.tower ≡ None }
    ensures written { Written (K.took out.old) (K.took out.new) result.trace result.status }
    ensures faults { WriteFaults result.status (K.faults out.old) (K.faults out.new) (K.odd out.old) (K.odd out.new) }
{
    let status = status_of_note(&note);
    seal(alloc, status, note, None, out, Seq::new(alloc))
}

/// Reads an input up to its first line outside the grammar, runs nothing of it, and tells its counts or its fault.
#[tactic(auto, using(crate::proofs::Checks::was_checked, crate::proofs::Checks::not_checked, crate::proofs::Ending::lost_written, crate::proofs::Faulty::reads_lost))]
pub fn check_input<S: Source, K: Sink, P: Policies>(
    alloc: Global,
    input: &mut S,
    out: &mut K,
    shelf: &P,
) -> Finish
    ensures outcome { IsChecked (P.knows shelf.now) (S.left input.old) (S.left input.new) result.status result.trace result.tower }
    ensures left { result.tower ≡ None }
    ensures written { Written (K.took out.old) (K.took out.new) result.trace result.status }
    ensures read { ReadFaults (WasRead (S.left input.old) (S.left input.new) (λ ending script. (ending ≡ Broken Fault.ReadFault) × CheckOutcomes (P.knows shelf.now) ending script result.status result.trace)) result.status (S.faults input.old) (S.faults input.new) (S.odd input.old) (S.odd input.new) }
    ensures write { WriteFaults result.status (K.faults out.old) (K.faults out.new) (K.odd out.old) (K.odd out.new) }
{
    let Ok(note) = tell_input(alloc, input, shelf) else {
        return out_of_memory(alloc);
    };
    tell(alloc, note, out)
}
