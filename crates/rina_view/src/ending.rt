//! How the program ends: what it writes, and the status beside it.
ghost use Rattle.std.specs.Prelude.{◌≡◌, IfOk};
ghost use Rattle.rina_report.specs.declared.note.Note.TheVariants as notes;
ghost use Rattle.rina_report.specs.Notes.{line_of};
ghost use Rattle.rina_view.specs.Written.{Writes, status_of};

use rina_base::Memory;
use rina_io::{Failed, Sink, write_all};
use rina_report::{Fault, Note, add_line};
use rina_schedule::Text;
use std::alloc::Global;

/// How the program ended.
#[derive(Clone, Copy, Debug, PartialEq, Eq)]
pub enum Status {
    /// The answer was written.
    Done,
    /// The words are no command.
    Usage,
    /// The input was refused, and its fault told.
    Refused,
    /// A read failed.
    ReadFault,
    /// A write failed.
    WriteFault,
    /// An allocation failed.
    Memory,
}

/// The status that a fault is told beside.
fn status_of(fault: Fault) -> Status
    ensures { result ≡ status_of fault }
{
    match fault {
        Fault::Usage { .. } => Status::Usage,
        Fault::ReadFault => Status::ReadFault,
        _ => Status::Refused,
    }
}

/// Writes a text, and answers the status that is to stand beside it, unless a write fails.
#[tactic(auto, using(crate::proofs::Writing::wrote_whole, crate::proofs::Writing::wrote_front))]
pub fn write<K: Sink>(out: &mut K, text: &[u8], status: Status) -> Status
    ensures { Writes text.now status (K.took out.old) (K.took out.new) result }
{
    match write_all(out, text) {
        Ok(()) => status,
        Err(Failed) => Status::WriteFault,
    }
}

/// The note of a fault.
fn fault_line(alloc: Global, fault: Fault) -> Result<Vec<u8>, Memory>
    ensures { IfOk result (λ v. v.items ≡ line_of (notes.Fault fault)) }
{
    let mut text = Text::new(alloc);
    add_line(&mut text, &Note::Fault(fault))?;
    Ok(text.into_vec())
}

/// Tells a fault, and answers the status that stands beside it.
#[tactic(auto, using(crate::proofs::Writing::wrote_nothing, crate::proofs::Writing::wrote_as))]
pub fn refuse<K: Sink>(alloc: Global, out: &mut K, fault: Fault) -> Status
    ensures { Writes (line_of (notes.Fault fault)) (status_of fault) (K.took out.old) (K.took out.new) result }
{
    match fault_line(alloc, fault) {
        Ok(text) => write(out, text.as_slice(), status_of(fault)),
        Err(Memory) => Status::Memory,
    }
}
