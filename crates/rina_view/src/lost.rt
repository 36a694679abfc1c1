//! The program: words, an input and an output.
ghost use Rattle.std.specs.Prelude.{◌≡◌, ◌≤◌, length, map, string_bytes};
ghost use Rattle.rina_view.specs.Outcome.{Tells, TellsInput, TellsLost, word_fault};

use crate::ending::{Status, refuse, write};
use crate::read::{Unread, read_notes};
use crate::table::lost_table;
use rina_base::Memory;
use rina_io::{Ending, Sink, Source, take_all};
use rina_report::Fault;
use std::alloc::Global;

/// Writes the table of an input that was read whole.
#[tactic(auto, using(crate::proofs::Writing::told_notes, crate::proofs::Writing::told_line, crate::proofs::Writing::told_nothing))]
fn lost_of<K: Sink>(alloc: Global, bytes: &[u8], out: &mut K) -> Status
    requires { length bytes.now ≤ 16777216 }
    ensures { TellsLost bytes.now (K.took out.old) (K.took out.new) result }
{
    match read_notes(alloc, bytes) {
        Ok(notes) => match lost_table(alloc, notes.as_slice()) {
            Ok(text) => write(out, text.as_slice(), Status::Done),
            Err(Memory) => Status::Memory,
        },
        Err(Unread::Memory) => Status::Memory,
        Err(Unread::Line { line, n, field }) => {
            refuse(alloc, out, Fault::Schedule { line, n, field })
        }
    }
}

/// Writes what became of each SDU that the notes of an input show as sent.
fn lost<S: Source, K: Sink>(alloc: Global, input: &mut S, out: &mut K) -> Status
    ensures { TellsInput TellsLost (S.left input.old) (S.left input.new) (K.took out.old) (K.took out.new) result }
{
    let taken = take_all(alloc, input);
    match taken.ending {
        Ending::Whole => lost_of(alloc, taken.bytes.as_slice(), out),
        Ending::TooLarge => refuse(alloc, out, Fault::TooLarge),
        Ending::Fault => refuse(alloc, out, Fault::ReadFault),
        Ending::Memory => Status::Memory,
    }
}

/// The place of the first word that cannot stand there, or of one that is missing.
fn word_fault(words: &[String]) -> Option<u32>
    ensures { result ≡ word_fault (map (λ w. string_bytes w) words.now) }
{
    match words {
        [] => Some(0),
        [first, others @ ..] => {
            if first.as_str() != "lost" {
                Some(0)
            } else if others.is_empty() {
                None
            } else {
                Some(1)
            }
        }
    }
}

/// The program, given the words of the command line without its name, the input and the output: where the words are `lost` alone the table of the
/// notes in the input is written, or the fault of the input; else the words are refused.
pub fn view<S: Source, K: Sink>(
    alloc: Global,
    words: &[String],
    input: &mut S,
    out: &mut K,
) -> Status
    ensures { Tells (map (λ w. string_bytes w) words.now) (S.left input.old) (S.left input.new) (K.took out.old) (K.took out.new) result }
{
    match word_fault(words) {
        Some(word) => refuse(alloc, out, Fault::Usage { word }),
        None => lost(alloc, input, out),
    }
}
