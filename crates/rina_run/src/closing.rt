//! How a run ends: by a closing note, by a fault that is told, or without memory.
ghost use Rattle.std.specs.Prelude.{◌≡◌, ◌++◌, ◌∷◌, [], ℕ, List, Option, None, OnOk, IfErr, IsErrOf, ◌⊎◌};
ghost use Rattle.std.specs.Io.KnownBytes.{Appends};
ghost use Rattle.rina_report.specs.Notes.{text_of};
ghost use Rattle.rina_run.specs.Written.{Written};
ghost use Rattle.rina_run.specs.Top.{status_of, status_stopped, fault_of, ClosedBy, RefusedBy, IsOutOfMemory};
ghost use Rattle.rina_run.specs.Faults.{StopFaults, WriteFaults};

use crate::lines::BadLine;
use crate::outcome::{Finish, Status};
use crate::output::{Stop, emit};
use rina_base::Seq;
use rina_io::Sink;
use rina_report::{Fault, Note, Notes};
use rina_tower::Tower;
use std::alloc::Global;

/// Ends a run with `Memory`, with nothing done.
pub fn out_of_memory(alloc: Global) -> Finish
    ensures { IsOutOfMemory result.status result.trace result.tower }
{
    Finish {
        status: Status::Memory,
        trace: Seq::new(alloc),
        tower: None,
    }
}

/// Adds a closing note and writes it.
#[tactic(auto, using(crate::proofs::Playing::front_push, crate::proofs::Pieces::closing_piece, crate::proofs::Ending::front_same))]
fn close<K: Sink>(alloc: Global, out: &mut K, trace: &mut Notes, note: Note) -> Result<(), Stop>
    ensures memory { IsErrOf result Stop.Memory → (trace.new ≡ trace.old) ⊎ (trace.new ≡ trace.old ++ note ∷ []) }
    ensures noted { OnOk result (trace.new ≡ trace.old ++ note ∷ []) }
    ensures stopped { IsErrOf result Stop.WriteFault → trace.new ≡ trace.old ++ note ∷ [] }
    ensures ok { OnOk result ((base : Option (List ℕ)) → Appends base (K.took out.old) (text_of trace.old) → Appends base (K.took out.new) (text_of trace.new)) }
    ensures err { IfErr result (λ stop. (base : Option (List ℕ)) → Appends base (K.took out.old) (text_of trace.old) → Written base (K.took out.new) trace.new (status_stopped stop)) }
    ensures faults { StopFaults result (K.faults out.old) (K.faults out.new) (K.odd out.old) (K.odd out.new) }
{
    let from = trace.len();
    if trace.push(note).is_err() {
        return Err(Stop::Memory);
    }
    emit(alloc, out, trace, from)
}

/// The status of a run that stopped.
pub fn stopped(stop: Stop) -> Status
    ensures { result ≡ status_stopped stop }
{
    match stop {
        Stop::Memory => Status::Memory,
        Stop::WriteFault => Status::WriteFault,
    }
}

/// The status that a fault is told beside.
pub fn fault_status(fault: Fault) -> Status
    ensures { result ≡ status_of fault }
{
    match fault {
        Fault::Usage { word } => Status::Usage { word },
        Fault::TooLarge => Status::TooLarge,
        Fault::NotToml => Status::NotToml,
        Fault::StackRule { n, item } => Status::StackRule { n, item },
        Fault::Schedule { line, n, field } => Status::Schedule { line, n, field },
        Fault::ReadFault => Status::ReadFault,
    }
}

/// The fault of a line outside the grammar: the number of its error, and the field.
pub fn line_fault(bad: BadLine) -> Fault
    ensures { result ≡ fault_of bad }
{
    Fault::Schedule {
        line: bad.number,
        n: bad.error.number(),
        field: bad.error.field(),
    }
}

/// Ends a run with a closing note. The status is this one, unless the run is stopped.
#[tactic(auto, using(crate::proofs::Ending::written_any, crate::proofs::Ending::written_stop, crate::proofs::Ending::closed_ok, crate::proofs::Faulty::none_by))]
pub fn seal<K: Sink>(
    alloc: Global,
    status: Status,
    note: Note,
    tower: Option<Tower>,
    out: &mut K,
    trace: Notes,
) -> Finish
    ensures closed { ClosedBy status note trace result.status result.trace }
    ensures tower { result.tower ≡ tower }
    ensures written { ¬ (status ≡ Status.WriteFault) → (base : Option (List ℕ)) → Appends base (K.took out.old) (text_of trace) → Written base (K.took out.new) result.trace result.status }
    ensures faults { ¬ (status ≡ Status.WriteFault) → WriteFaults result.status (K.faults out.old) (K.faults out.new) (K.odd out.old) (K.odd out.new) }
{
    let mut trace = trace;
    match close(alloc, out, &mut trace, note) {
        Ok(()) => Finish {
            status,
            trace,
            tower,
        },
        Err(stop) => Finish {
            status: stopped(stop),
            trace,
            tower,
        },
    }
}

/// Ends a run with a fault, which is told, and gives the status.
#[tactic(auto, using(crate::proofs::Ending::is_told))]
pub fn end_by_fault<K: Sink>(
    alloc: Global,
    fault: Fault,
    tower: Option<Tower>,
    out: &mut K,
    trace: Notes,
) -> Finish
    ensures closed { ClosedBy (status_of fault) (Note.Fault fault) trace result.status result.trace }
    ensures tower { result.tower ≡ tower }
    ensures written { (base : Option (List ℕ)) → Appends base (K.took out.old) (text_of trace) → Written base (K.took out.new) result.trace result.status }
    ensures faults { WriteFaults result.status (K.faults out.old) (K.faults out.new) (K.odd out.old) (K.odd out.new) }
{
    let note = Note::Fault(fault);
    seal(alloc, fault_status(fault), note, tower, out, trace)
}

/// Ends a run before its first line.
#[tactic(auto, using(crate::proofs::Ending::refused_from, crate::proofs::Ending::wrote_nothing, crate::proofs::Ending::is_told))]
pub fn refuse<K: Sink>(alloc: Global, out: &mut K, fault: Fault) -> Finish
    ensures refused { RefusedBy fault result.status result.trace }
    ensures tower { result.tower ≡ None }
    ensures written { Written (K.took out.old) (K.took out.new) result.trace result.status }
    ensures faults { WriteFaults result.status (K.faults out.old) (K.faults out.new) (K.odd out.old) (K.odd out.new) }
{
    end_by_fault(alloc, fault, None, out, Seq::new(alloc))
}
