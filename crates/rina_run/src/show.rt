//! Showing the input that is drawn from a number.
ghost use Rattle.std.specs.Prelude.{◌≡◌, None};
ghost use Rattle.rina_gen.specs.Input.{input};
ghost use Rattle.rina_gen.specs.Text.{input_text};
ghost use Rattle.rina_run.specs.Outcomes.{EndsShow, IsShown};
ghost use Rattle.rina_run.specs.Written.{WrittenText};
ghost use Rattle.rina_run.specs.Faults.{WriteFaults};

use crate::outcome::{Finish, Status};
use rina_base::Seq;
use rina_gen::make;
use rina_io::{Sink, write_all};
use std::alloc::Global;

/// Writes the input that is drawn from a number.
#[tactic(auto, using(crate::proofs::Shows::wrote_some_text, crate::proofs::Shows::wrote_text, crate::proofs::Shows::wrote_no_text))]
fn write_input<K: Sink>(alloc: Global, n: u32, out: &mut K) -> Status
    ensures ended { EndsShow result }
    ensures written { WrittenText (K.took out.old) (K.took out.new) (input_text (input n)) result }
    ensures faults { WriteFaults result (K.faults out.old) (K.faults out.new) (K.odd out.old) (K.odd out.new) }
{
    let Ok(text) = make(alloc, n) else {
        return Status::Memory;
    };
    match write_all(out, text.as_slice()) {
        Ok(()) => Status::Done,
        Err(_) => Status::WriteFault,
    }
}

/// Writes the input that is drawn from a number, and tells no note.
pub fn show_input<K: Sink>(alloc: Global, n: u32, out: &mut K) -> Finish
    ensures shown { IsShown result.status result.trace result.tower }
    ensures left { result.tower ≡ None }
    ensures written { WrittenText (K.took out.old) (K.took out.new) (input_text (input n)) result.status }
    ensures write { WriteFaults result.status (K.faults out.old) (K.faults out.new) (K.odd out.old) (K.odd out.new) }
{
    Finish {
        status: write_input(alloc, n, out),
        trace: Seq::new(alloc),
        tower: None,
    }
}
