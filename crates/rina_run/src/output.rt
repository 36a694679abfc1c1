//! Writing the text of notes.
ghost use Rattle.std.specs.Prelude.{◌≡◌, ◌≤◌, ℕ, List, Option, length, take, drop, IfOk, IfErr, OnOk};
ghost use Rattle.std.specs.Io.KnownBytes.{Appends};
ghost use Rattle.rina_report.specs.Notes.{text_of};
ghost use Rattle.rina_run.specs.Written.{IsPiece, Written};
ghost use Rattle.rina_run.specs.Top.{status_stopped};
ghost use Rattle.rina_run.specs.Faults.{StopFaults};

use rina_base::Memory;
use rina_io::{Failed, Sink, write_all};
use rina_report::{Note, Notes, add_line};
use rina_schedule::Text;
use std::alloc::Global;

/// Why a run stopped before its end.
#[derive(Clone, Copy, Debug, PartialEq, Eq)]
pub enum Stop {
    /// An allocation failed.
    Memory,
    /// A write failed.
    WriteFault,
}

/// The text of notes, each on a line of its own.
fn print_all(alloc: Global, notes: &[Note]) -> Result<Vec<u8>, Memory>
    ensures { IfOk result (λ v. v.items ≡ text_of notes.now) }
{
    let mut text = Text::new(alloc);
    'notes: for note in notes {
        add_line(&mut text, note)?;
    }
    Ok(text.into_vec())
}

/// Writes the text of the notes from a place on, in one piece. A base is what the sink had taken
/// before the first note.
#[tactic(auto, using(crate::proofs::Texts::wrote_more, crate::proofs::Texts::wrote_part, crate::proofs::Texts::wrote_none, crate::proofs::Texts::wrote_all))]
pub fn emit<K: Sink>(alloc: Global, out: &mut K, trace: &Notes, from: usize) -> Result<(), Stop>
    requires { from ≤ length trace.now }
    ensures ok { OnOk result ((base : Option (List ℕ)) → Appends base (K.took out.old) (text_of (take from trace.now)) → Appends base (K.took out.new) (text_of trace.now)) }
    ensures err { IfErr result (λ stop. (base : Option (List ℕ)) → Appends base (K.took out.old) (text_of (take from trace.now)) → IsPiece (drop from trace.now) → Written base (K.took out.new) trace.now (status_stopped stop)) }
    ensures faults { StopFaults result (K.faults out.old) (K.faults out.new) (K.odd out.old) (K.odd out.new) }
{
    let (_, fresh) = trace.as_slice().split_at(from);
    let Ok(piece) = print_all(alloc, fresh) else {
        return Err(Stop::Memory);
    };
    match write_all(out, piece.as_slice()) {
        Ok(()) => Ok(()),
        Err(Failed) => Err(Stop::WriteFault),
    }
}
