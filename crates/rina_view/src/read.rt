//! Reading the notes of a run.
ghost use Rattle.std.specs.Prelude.{◌≡◌, ◌≤◌, length, map};
ghost use Rattle.rina_base.specs.Traverse.{traverse};
ghost use Rattle.rina_view.specs.Reading.{unread_at, note_in, notes_in, Gives};

use rina_base::Seq;
use rina_io::{all_lines, without_end};
use rina_report::{Note, Notes, read_note};
use rina_schedule::LineError;
use std::alloc::{AllocError, Global};

/// Why a text is not read as notes.
#[derive(Clone, Copy, Debug, PartialEq, Eq)]
pub enum Unread {
    /// An allocation failed.
    Memory,
    /// The first line that is no note has error `n` at field `field`.
    Line { line: u32, n: u32, field: u32 },
}

impl From<AllocError> for Unread {
    ghost use Rattle.std.specs.Prelude.{◌≡◌};
    ghost use Rattle.rina_view.specs.declared.read.Unread.TheVariants.{Memory};

    ghost from_gives = { λ _ e. e ≡ Memory };

    fn from(_error: AllocError) -> Unread {
        Unread::Memory
    }
}

/// What a line outside the grammar of notes is told as: the number of its error, and the field.
fn unread_at(line: u32, error: LineError) -> Unread
    ensures { result ≡ unread_at line error }
{
    match error {
        LineError::Memory => Unread::Memory,
        _ => Unread::Line {
            line,
            n: error.number(),
            field: error.field(),
        },
    }
}

/// Reads the note in a line.
fn note_in(alloc: Global, number: u32, line: &[u8]) -> Result<Note, Unread>
    ensures { Gives (λ x. x) result (note_in number line.now) }
{
    match read_note(alloc, without_end(line)) {
        Ok(note) => Ok(note),
        Err(error) => Err(unread_at(number, error)),
    }
}

fn all_notes(alloc: Global, lines: &[&[u8]]) -> Result<Notes, Unread>
    requires { length lines.now ≤ 16777216 }
    ensures { Gives (λ x. x) result (traverse note_in 1 (map (λ l. l.now) lines.now)) }
{
    let mut notes = Seq::new(alloc);
    let mut number = 1u32;
    'lines: for line in lines {
        let note = note_in(alloc, number, line)?;
        notes.push(note)?;
        number += 1;
    }
    Ok(notes)
}

/// Reads a text as notes, one on each line. The first line that is none is told.
pub fn read_notes(alloc: Global, bytes: &[u8]) -> Result<Notes, Unread>
    requires { length bytes.now ≤ 16777216 }
    ensures { Gives (λ x. x) result (notes_in bytes.now) }
{
    let lines = all_lines(alloc, bytes)?;
    all_notes(alloc, lines.as_slice())
}
