//! The top call.
ghost use Rattle.std.specs.Prelude.{◌≡◌, ◌<◌, ◌^◌, ℕ, List, [], map, Option, IsSome, IfSome, string_bytes};
ghost use Rattle.rina_io.specs.NextLine.{IsSound};
ghost use Rattle.rina_io.specs.Reader.{size};
ghost use Rattle.rina_stack.specs.Plan.{IsPlan};
ghost use Rattle.rina_tower.specs.Stands.{IsTower};
ghost use Rattle.rina_run.specs.Promises.{AccountsAll, CarriesAll, CausesAll, ItemsAll, LawfulAll, RoutesAll, WriteOffsAll};
ghost use Rattle.rina_run.specs.Reading.{Broken, HasRead, HasText, ReadBehind};
ghost use Rattle.rina_words.specs.Step.{stage};
ghost use Rattle.rina_run.specs.Command.{command_of};
ghost use Rattle.rina_run.specs.Written.{Written};
ghost use Rattle.rina_run.specs.Outcomes.{IsBrokenOff, IsRan, RunOutcomes, WrittenBy};
ghost use Rattle.rina_run.specs.Top.{InputOutcomes, PlayOutcomes, FailedByCut, KeepsAll, WasRead};
ghost use Rattle.rina_run.specs.Faults.{ReadFaults, WriteFaults};

use crate::check::check_input;
use crate::closing::{end_by_fault, line_fault, out_of_memory, refuse, seal, stopped};
use crate::command::{Command, command_in};
use crate::drawn::gen_input;
use crate::lines::{Close, Schedule, play};
use crate::opening::open_run;
use crate::outcome::{Ended, Finish, Outcome, Status};
use crate::reading::{Head, plan_of, read_stack};
use crate::show::show_input;
use rina_base::Seq;
use rina_iface::Facility;
use rina_io::{LineReader, Sink, Source};
use rina_notes::tick_of;
use rina_policy::Retires;
use rina_report::{Fault, Note};
use rina_stack::{Policies, StackError};
use rina_words::Run;
use std::alloc::Global;

/// Runs the lines of a schedule whose stack was accepted.
#[tactic(auto, using(crate::proofs::Faulty::reads_stop, crate::proofs::Ending::written_stop, crate::proofs::Ending::is_told, crate::proofs::Faulty::then_by))]
fn run_lines<S: Source, K: Sink, P: Retires>(
    schedule: &Schedule<'_>,
    reader: &mut LineReader,
    source: &mut S,
    mut opened: Run,
    out: &mut K,
    shelf: &mut P,
) -> Finish
    requires plan { IsPlan schedule.now.plan.now }
    requires sound { IsTower opened.tower }
    requires reader { IsSound (S.left source.old) reader.old }
    requires few { size reader.old < 2 ^ 32 }
    ensures outcome { (left : Option (List ℕ)) (before : List (List ℕ)) → HasRead left (S.left source.old) reader.old before → ReadBehind left (S.left source.new) reader.old before (λ ending lines. PlayOutcomes schedule.now.plan.now ending lines (stage opened (P.slots shelf.old)) result.status result.trace result.tower (P.slots shelf.new)) }
    ensures tower { IsSome result.tower }
    ensures sound { IfSome result.tower IsTower }
    ensures written { Written (K.took out.old) (K.took out.new) result.trace result.status }
    ensures read { ReadFaults ((left : Option (List ℕ)) (before : List (List ℕ)) → HasRead left (S.left source.old) reader.old before → ReadBehind left (S.left source.new) reader.old before (λ ending lines. (ending ≡ Broken Fault.ReadFault) × PlayOutcomes schedule.now.plan.now ending lines (stage opened (P.slots shelf.old)) result.status result.trace result.tower (P.slots shelf.new))) result.status (S.faults source.old) (S.faults source.new) (S.odd source.old) (S.odd source.new) }
    ensures faults { WriteFaults result.status (K.faults out.old) (K.faults out.new) (K.odd out.old) (K.odd out.new) }
{
    let alloc = schedule.alloc;
    let mut trace = Seq::new(alloc);
    match play(
        schedule,
        reader,
        source,
        &mut opened,
        shelf,
        out,
        &mut trace,
    ) {
        Ok(Close::End) => {
            let tick = tick_of(&opened.tower);
            let note = Note::End { tick };
            seal(alloc, Status::Done, note, Some(opened.tower), out, trace)
        }
        Ok(Close::Broken(fault)) => end_by_fault(alloc, fault, Some(opened.tower), out, trace),
        Ok(Close::Bad(bad)) => {
            end_by_fault(alloc, line_fault(bad), Some(opened.tower), out, trace)
        }
        Err(stop) => Finish {
            status: stopped(stop),
            trace,
            tower: Some(opened.tower),
        },
    }
}

/// Runs the lines of a schedule behind the text of a stack.
#[tactic(auto, using(crate::proofs::Faulty::reads_lost, crate::proofs::Ending::lost_written))]
fn run_script<S: Source, K: Sink, P: Retires + Policies>(
    alloc: Global,
    text: Vec<u8>,
    reader: &mut LineReader,
    source: &mut S,
    out: &mut K,
    shelf: &mut P,
) -> Finish
    requires reader { IsSound (S.left source.old) reader.old }
    requires few { size reader.old < 2 ^ 32 }
    ensures outcome { (left : Option (List ℕ)) → HasText left (S.left source.old) reader.old text.items → IsRan (P.knows shelf.old) left (S.left source.new) (P.slots shelf.old) result.status result.trace result.tower (P.slots shelf.new) }
    ensures sound { IfSome result.tower IsTower }
    ensures written { Written (K.took out.old) (K.took out.new) result.trace result.status }
    ensures read { ReadFaults ((left : Option (List ℕ)) → HasText left (S.left source.old) reader.old text.items → WasRead left (S.left source.new) (λ ending script. (ending ≡ Broken Fault.ReadFault) × InputOutcomes (P.knows shelf.old) ending script (P.slots shelf.old) result.status result.trace result.tower (P.slots shelf.new))) result.status (S.faults source.old) (S.faults source.new) (S.odd source.old) (S.odd source.new) }
    ensures faults { WriteFaults result.status (K.faults out.old) (K.faults out.new) (K.odd out.old) (K.odd out.new) }
{
    let plan = match plan_of(alloc, text, shelf) {
        Ok(plan) => plan,
        Err(StackError::Memory) => return out_of_memory(alloc),
        Err(StackError::NotToml) => return refuse(alloc, out, Fault::NotToml),
        Err(StackError::StackRule { n, item }) => {
            return refuse(alloc, out, Fault::StackRule { n, item });
        }
    };
    let Ok(opened) = open_run(alloc, &plan) else {
        return out_of_memory(alloc);
    };
    let schedule = Schedule { alloc, plan: &plan };
    run_lines(&schedule, reader, source, opened, out, shelf)
}

/// Reads an input line by line, and runs it.
#[tactic(auto, using(crate::proofs::Faulty::reads_lost, crate::proofs::Ending::lost_written))]
pub fn run_read<S: Source, K: Sink, P: Retires + Policies>(
    alloc: Global,
    input: &mut S,
    out: &mut K,
    shelf: &mut P,
) -> Finish
    ensures outcome { IsRan (P.knows shelf.old) (S.left input.old) (S.left input.new) (P.slots shelf.old) result.status result.trace result.tower (P.slots shelf.new) }
    ensures sound { IfSome result.tower IsTower }
    ensures written { Written (K.took out.old) (K.took out.new) result.trace result.status }
    ensures read { ReadFaults (WasRead (S.left input.old) (S.left input.new) (λ ending script. (ending ≡ Broken Fault.ReadFault) × InputOutcomes (P.knows shelf.old) ending script (P.slots shelf.old) result.status result.trace result.tower (P.slots shelf.new))) result.status (S.faults input.old) (S.faults input.new) (S.odd input.old) (S.odd input.new) }
    ensures write { WriteFaults result.status (K.faults out.old) (K.faults out.new) (K.odd out.old) (K.odd out.new) }
{
    let mut reader = LineReader::new(alloc);
    match read_stack(alloc, &mut reader, input) {
        Ok(Head::Stack(text)) => run_script(alloc, text, &mut reader, input, out, shelf),
        Ok(Head::Broken(fault)) => refuse(alloc, out, fault),
        Err(_) => out_of_memory(alloc),
    }
}

/// The outcome of a command that leaves no notes unwritten.
fn all_written(alloc: Global, finish: Finish) -> Ended
    ensures finish { result.finish ≡ finish }
    ensures unwritten { result.unwritten ≡ [] }
{
    Ended {
        finish,
        unwritten: Seq::new(alloc),
    }
}

/// A run over any shelf: the words of the command line without the program's name, the input, and where the
/// notes are written. Each line's notes are written before the next line runs.
/// Its clauses are those of `run`, which says what each of them means.
#[tactic(auto, using(crate::proofs::Ending::kept_if, crate::proofs::Ending::failed_by_cut, crate::proofs::Promised::carried_if, crate::proofs::Promised::lawful_if, crate::proofs::Promised::accounted_if, crate::proofs::Promised::caused_if, crate::proofs::Promised::managed_if, crate::proofs::Promised::routed_if, crate::proofs::Promised::written_off_if))]
fn run_over<S: Source, K: Sink, P: Retires + Policies>(
    alloc: Global,
    words: &[String],
    input: &mut S,
    out: &mut K,
    shelf: &mut P,
) -> Ended
    ensures written { WrittenBy (command_of (map (λ w. string_bytes w) words.now)) (K.took out.old) (K.took out.new) result.finish.trace result.finish.status }
    ensures outcome { RunOutcomes (P.knows shelf.old) (command_of (map (λ w. string_bytes w) words.now)) (S.left input.old) (S.left input.new) (P.slots shelf.old) result.finish.status result.finish.trace result.finish.tower result.unwritten (P.slots shelf.new) }
    ensures stands { IfSome result.finish.tower IsTower }
    ensures kept { IfSome result.finish.tower KeepsAll }
    ensures carried { IfSome result.finish.tower CarriesAll }
    ensures lawful { IfSome result.finish.tower LawfulAll }
    ensures accounted { IfSome result.finish.tower AccountsAll }
    ensures routed { IfSome result.finish.tower RoutesAll }
    ensures managed { IfSome result.finish.tower ItemsAll }
    ensures caused { IfSome result.finish.tower CausesAll }
    ensures written_off { IfSome result.finish.tower WriteOffsAll }
    ensures failed { IfSome result.finish.tower FailedByCut }
    ensures read { ReadFaults (IsBrokenOff (P.knows shelf.old) (command_of (map (λ w. string_bytes w) words.now)) (S.left input.old) (S.left input.new) (P.slots shelf.old) result.finish.status result.finish.trace result.finish.tower (P.slots shelf.new)) result.finish.status (S.faults input.old) (S.faults input.new) (S.odd input.old) (S.odd input.new) }
    ensures write { WriteFaults result.finish.status (K.faults out.old) (K.faults out.new) (K.odd out.old) (K.odd out.new) }
{
    match command_in(words) {
        Err(word) => all_written(alloc, refuse(alloc, out, Fault::Usage { word })),
        Ok(Command::Run) => all_written(alloc, run_read(alloc, input, out, shelf)),
        Ok(Command::Check) => all_written(alloc, check_input(alloc, input, out, shelf)),
        Ok(Command::Gen { n }) => gen_input(alloc, n, out, shelf),
        Ok(Command::Show { n }) => all_written(alloc, show_input(alloc, n, out)),
    }
}

/// The top call: the words of the command line without the program's name, the input, where the notes
/// are written, and the policies. Each line's notes are written before the next line runs.
pub fn run<S: Source, K: Sink, P: Retires + Policies>(
    alloc: Global,
    words: &[String],
    input: &mut S,
    out: &mut K,
    shelf: P,
) -> Outcome<P>
    // What was written is the text of the trace, for `show` that of the input which is drawn from its number. After a write fault the notes of the last line, or
    // the closing note, were written in part, and all before them whole; after `Memory` that last piece may be left out.
    ensures written { WrittenBy (command_of (map (λ w. string_bytes w) words.now)) (K.took out.old) (K.took out.new) result.trace result.status }
    // The status, the trace, the tower, the notes of a drawn run and the shelf are what the words, the input and the shelf make. Behind the line that ended
    // the run, at most 4,096 bytes of the input were read; more than 16,777,216 bytes in all only where that is what ends the run.
    ensures outcome { RunOutcomes (P.knows shelf) (command_of (map (λ w. string_bytes w) words.now)) (S.left input.old) (S.left input.new) (P.slots shelf) result.status result.trace result.tower result.unwritten (P.slots result.shelf) }
    // Every DIF of every rank stands on the rank below.
    ensures stands { IfSome result.tower IsTower }
    // Every facility of every rank keeps what its flows promise, and names its partners.
    ensures kept { IfSome result.tower KeepsAll }
    // Whatever an end of a DIF got has come to its IPC process from the rank below, piece by piece.
    ensures carried { IfSome result.tower CarriesAll }
    // Of each flow of a DIF, all that is under way is what its connection may still take, and both ends agree on what was accepted.
    ensures lawful { IfSome result.tower LawfulAll }
    // Of each PDU each IPC process can tell where it is: what came in or was made is out, waits, was written off, or is kept.
    ensures accounted { IfSome result.tower AccountsAll }
    // Each next hop of each IPC process is the first link of a least walk over its live links and the links that both ends claim in the items that it holds.
    ensures routed { IfSome result.tower RoutesAll }
    // Each member's management knows its live links, its own link state claims these, and the next hops are read from the items that it holds.
    ensures managed { IfSome result.tower ItemsAll }
    // A flow of a DIF has failed only where the acknowledgement of a number was too late to come, or with the flow below it.
    ensures caused { IfSome result.tower CausesAll }
    // A PDU was written off only for a cause that holds of the values in its line, by the settings, connections, links and clock of the DIF.
    ensures written_off { IfSome result.tower WriteOffsAll }
    // A flow of a wire has failed only by a cut of that wire.
    ensures failed { IfSome result.tower FailedByCut }
    // A read fault is told exactly where a read failed, and that was one. Only a write or an allocation that failed behind it may be told in its place: all
    // lines that were read are run, and the read fault was still to be told.
    ensures read { ReadFaults (IsBrokenOff (P.knows shelf) (command_of (map (λ w. string_bytes w) words.now)) (S.left input.old) (S.left input.new) (P.slots shelf) result.status result.trace result.tower (P.slots result.shelf)) result.status (S.faults input.old) (S.faults input.new) (S.odd input.old) (S.odd input.new) }
    // A write fault is told exactly where a write failed; that was one, and the last.
    ensures write { WriteFaults result.status (K.faults out.old) (K.faults out.new) (K.odd out.old) (K.odd out.new) }
{
    let mut shelf = shelf;
    let Ended { finish, unwritten } = run_over(alloc, words, input, out, &mut shelf);
    Outcome {
        status: finish.status,
        trace: finish.trace,
        tower: finish.tower,
        unwritten,
        shelf,
    }
}
