//! Running the input that is drawn from a number.
ghost use Rattle.std.specs.Prelude.{◌≡◌, ◌≢◌, ℕ, List, Option, Some, IfSome, IsSome, ◌⊎◌};
ghost use Rattle.rina_gen.specs.Input.{input};
ghost use Rattle.rina_gen.specs.Text.{input_text};
ghost use Rattle.rina_tower.specs.Stands.{IsTower};
ghost use Rattle.rina_run.specs.Drawn.{SumsUp, Tells, TellsFault, TellsNothing};
ghost use Rattle.rina_run.specs.Outcomes.{IsGenerated, IsRan};
ghost use Rattle.rina_run.specs.Top.{status_of};
ghost use Rattle.rina_run.specs.Written.{Written};
ghost use Rattle.rina_run.specs.Faults.{WriteFaults};

use crate::closing::{end_by_fault, out_of_memory, seal};
use crate::outcome::{Ended, Finish, Status};
use crate::summary::sum_up;
use crate::top::run_read;
use rina_base::Seq;
use rina_gen::make;
use rina_io::{Sink, SureSink, SureSource};
use rina_policy::Retires;
use rina_report::{Fault, Notes};
use rina_stack::Policies;
use rina_tower::Tower;
use std::alloc::Global;

/// Runs a text as `run` would, and writes nothing.
fn run_unwritten<P: Retires + Policies>(alloc: Global, text: &[u8], shelf: &mut P) -> Finish
    ensures ran { (left : Option (List ℕ)) × IsRan (P.knows shelf.old) (Some text.now) left (P.slots shelf.old) result.status result.trace result.tower (P.slots shelf.new) }
    ensures sound { IfSome result.tower IsTower }
    ensures sure { (result.status ≢ Status.ReadFault) × (result.status ≢ Status.WriteFault) }
{
    let mut source = SureSource::new(text);
    let mut sink = SureSink::new();
    run_read(alloc, &mut source, &mut sink, shelf)
}

/// Ends a run without memory for what it would tell.
fn untold(alloc: Global, tower: Option<Tower>) -> Finish
    ensures told { TellsNothing result.status result.trace }
    ensures tower { result.tower ≡ tower }
{
    Finish {
        status: Status::Memory,
        trace: Seq::new(alloc),
        tower,
    }
}

/// Tells the summary of a run of the input that a number draws, which is this text.
#[tactic(auto, using(crate::proofs::Ending::wrote_nothing, crate::proofs::Ending::untold_written))]
fn tell_summary<K: Sink>(
    alloc: Global,
    n: u32,
    text: &[u8],
    unwritten: &Notes,
    tower: Tower,
    out: &mut K,
) -> Finish
    requires { text.now ≡ input_text (input n) }
    ensures told { TellsNothing result.status result.trace ⊎ SumsUp n unwritten.now (Some tower) result.status result.trace }
    ensures tower { result.tower ≡ Some tower }
    ensures written { Written (K.took out.old) (K.took out.new) result.trace result.status }
    ensures write { WriteFaults result.status (K.faults out.old) (K.faults out.new) (K.odd out.old) (K.odd out.new) }
{
    let Ok(note) = sum_up(alloc, n, text, unwritten.as_slice(), &tower) else {
        return untold(alloc, Some(tower));
    };
    seal(alloc, Status::Done, note, Some(tower), out, Seq::new(alloc))
}

/// Tells the fault by which a run of a drawn input ended.
#[tactic(auto, using(crate::proofs::Ending::wrote_nothing, crate::proofs::Ending::untold_written))]
fn tell_fault<K: Sink>(alloc: Global, fault: Fault, tower: Option<Tower>, out: &mut K) -> Finish
    ensures told { TellsFault (status_of fault) result.status result.trace }
    ensures tower { result.tower ≡ tower }
    ensures written { Written (K.took out.old) (K.took out.new) result.trace result.status }
    ensures write { WriteFaults result.status (K.faults out.old) (K.faults out.new) (K.odd out.old) (K.odd out.new) }
{
    end_by_fault(alloc, fault, tower, out, Seq::new(alloc))
}

/// Tells how a run of the input that a number draws ended, which is this text.
#[tactic(auto, using(crate::proofs::Ending::wrote_nothing, crate::proofs::Ending::untold_written))]
fn tell_made<K: Sink>(
    alloc: Global,
    n: u32,
    text: &[u8],
    status: Status,
    unwritten: &Notes,
    tower: Option<Tower>,
    out: &mut K,
) -> Finish
    requires text { text.now ≡ input_text (input n) }
    requires sure { (status ≢ Status.ReadFault) × (status ≢ Status.WriteFault) }
    requires done { status ≡ Status.Done → IsSome tower }
    ensures told { Tells n status unwritten.now tower result.status result.trace }
    ensures tower { result.tower ≡ tower }
    ensures written { Written (K.took out.old) (K.took out.new) result.trace result.status }
    ensures write { WriteFaults result.status (K.faults out.old) (K.faults out.new) (K.odd out.old) (K.odd out.new) }
{
    match status {
        Status::Done => match tower {
            Some(tower) => tell_summary(alloc, n, text, unwritten, tower, out),
            None => unreachable!(),
        },
        Status::Usage { word } => tell_fault(alloc, Fault::Usage { word }, tower, out),
        Status::TooLarge => tell_fault(alloc, Fault::TooLarge, tower, out),
        Status::NotToml => tell_fault(alloc, Fault::NotToml, tower, out),
        Status::StackRule { n, item } => {
            tell_fault(alloc, Fault::StackRule { n, item }, tower, out)
        }
        Status::Schedule { line, n, field } => {
            tell_fault(alloc, Fault::Schedule { line, n, field }, tower, out)
        }
        Status::ReadFault | Status::WriteFault => unreachable!(),
        Status::Memory => untold(alloc, tower),
    }
}

/// Runs the input that is drawn from a number, with notes that are not written, and writes its summary, or the fault by
/// which that run ended.
#[tactic(auto, using(crate::proofs::Ending::lost_written, crate::proofs::Drawing::done_has_tower, crate::proofs::Drawing::was_generated, crate::proofs::Drawing::not_generated))]
pub fn gen_input<K: Sink, P: Retires + Policies>(
    alloc: Global,
    n: u32,
    out: &mut K,
    shelf: &mut P,
) -> Ended
    ensures outcome { IsGenerated (P.knows shelf.old) n (P.slots shelf.old) result.finish.status result.finish.trace result.finish.tower result.unwritten (P.slots shelf.new) }
    ensures sound { IfSome result.finish.tower IsTower }
    ensures written { Written (K.took out.old) (K.took out.new) result.finish.trace result.finish.status }
    ensures write { WriteFaults result.finish.status (K.faults out.old) (K.faults out.new) (K.odd out.old) (K.odd out.new) }
{
    let Ok(text) = make(alloc, n) else {
        return Ended {
            finish: out_of_memory(alloc),
            unwritten: Seq::new(alloc),
        };
    };
    let Finish {
        status,
        trace,
        tower,
    } = run_unwritten(alloc, text.as_slice(), shelf);
    Ended {
        finish: tell_made(alloc, n, text.as_slice(), status, &trace, tower, out),
        unwritten: trace,
    }
}
