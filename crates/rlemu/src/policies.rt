//! Runs with the built-in policies.
ghost use Rattle.std.specs.Prelude.{◌≡◌, IfOk, OnErr, map, string_bytes};
ghost use Rattle.rlemu.specs.Ends.{IsRun};

use rina_base::{Memory, Name};
use rina_io::{Sink, Source};
use rina_policy::{First, Last, Round, Shelf, ShelfError, Strict, Weighted};
use rina_run::{Status, run};
use std::alloc::Global;

/// The name that a text is.
fn name_of(alloc: Global, text: &str) -> Result<Name, Memory> {
    match Name::read(alloc, text.as_bytes()) {
        Ok(name) => Ok(name),
        Err(_) => Err(Memory),
    }
}

/// Whether a policy was added.
fn added(answer: Result<(), ShelfError>) -> Result<(), Memory> {
    match answer {
        Ok(()) => Ok(()),
        Err(_) => Err(Memory),
    }
}

/// Runs the words over an input and an output, with the five built-in policies.
pub fn run_with_built_in<S: Source, K: Sink>(
    alloc: Global,
    words: &[String],
    input: &mut S,
    out: &mut K,
) -> Result<Status, Memory>
    ensures ran { IfOk result (IsRun (map (λ w. string_bytes w) words.now) (S.left input.old) (S.left input.new) (K.took out.old) (K.took out.new)) }
    ensures unread { OnErr result (S.left input.new ≡ S.left input.old) }
    ensures unwritten { OnErr result (K.took out.new ≡ K.took out.old) }
{
    let mut shelf = Shelf::new(alloc)?;
    let Ok(strict) = Box::new(alloc, Strict::new()) else {
        return Err(Memory);
    };
    added(shelf.add(alloc, name_of(alloc, "strict")?, strict))?;
    let Ok(last) = Box::new(alloc, Last::new()) else {
        return Err(Memory);
    };
    added(shelf.add(alloc, name_of(alloc, "last")?, last))?;
    let Ok(first) = Box::new(alloc, First::new()) else {
        return Err(Memory);
    };
    added(shelf.add(alloc, name_of(alloc, "first")?, first))?;
    let Ok(round) = Box::new(alloc, Round::new()) else {
        return Err(Memory);
    };
    added(shelf.add(alloc, name_of(alloc, "round")?, round))?;
    let Ok(weighted) = Box::new(alloc, Weighted::new()) else {
        return Err(Memory);
    };
    added(shelf.add(alloc, name_of(alloc, "weighted")?, weighted))?;
    Ok(run(alloc, words, input, out, shelf).status)
}
