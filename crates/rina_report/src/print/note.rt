//! Printing whole notes.
ghost use Rattle.std.specs.Prelude.{◌≡◌, ◌∷◌, ◌++◌, [], IfOk, codes};
ghost use Rattle.std.specs.Fmt.{decimal};
ghost use Rattle.rina_schedule.specs.Spelling.{Adds, spaced};
ghost use Rattle.rina_report.specs.Answers.{answer_fields};
ghost use Rattle.rina_report.specs.Notes.{fault_word, fault_values, told_fields, note_text, line_of};

use crate::answer::Answer;
use crate::note::{Fault, Note};
use crate::print::answer::answer;
use crate::print::{named, value};
use rina_base::Memory;
use rina_schedule::Text;
use std::alloc::Global;

#[tactic(auto, unfolding(crate::specs::Notes::fault_word))]
fn fault_name(fault: Fault) -> &'static [u8]
    ensures { result.now ≡ fault_word fault }
{
    match fault {
        Fault::Usage { .. } => b"Usage",
        Fault::TooLarge => b"TooLarge",
        Fault::NotToml => b"NotToml",
        Fault::StackRule { .. } => b"StackRule",
        Fault::Schedule { .. } => b"Schedule",
        Fault::ReadFault => b"ReadFault",
    }
}

#[tactic(auto, unfolding(crate::specs::Notes::fault_values))]
fn fault(text: &mut Text, fault: Fault) -> Result<(), Memory>
    ensures { Adds result text.old text.new (spaced (fault_word fault ∷ fault_values fault)) }
{
    text.field(fault_name(fault))?;
    match fault {
        Fault::Usage { word } => text.number_field(u64::from(word)),
        Fault::StackRule { n, item } => value::two(text, u64::from(n), u64::from(item)),
        Fault::Schedule { line, n, field } => {
            text.number_field(u64::from(line))?;
            value::two(text, u64::from(n), u64::from(field))
        }
        Fault::TooLarge | Fault::NotToml | Fault::ReadFault => Ok(()),
    }
}

/// Appends the first fields of the summary of a generated run.
fn begun(text: &mut Text, n: u32, lines: u32, tick: u32) -> Result<(), Memory>
    ensures { Adds result text.old text.new (codes "gen" ++ spaced (decimal n ∷ codes "lines" ∷ decimal lines ∷ codes "tick" ∷ decimal tick ∷ [])) }
{
    text.add(b"gen")?;
    text.number_field(u64::from(n))?;
    named::number(text, b"lines", lines)?;
    named::number(text, b"tick", tick)
}

/// Appends the last fields of the summary of a generated run.
#[tactic(auto, unfolding(crate::specs::Notes::told_fields))]
fn told(
    text: &mut Text,
    sent: u32,
    got: u32,
    refused: u32,
    off: u32,
    failed: u32,
) -> Result<(), Memory>
    ensures { Adds result text.old text.new (spaced (told_fields sent got refused off failed)) }
{
    named::number(text, b"sent", sent)?;
    named::number(text, b"got", got)?;
    named::number(text, b"refused", refused)?;
    named::number(text, b"off", off)?;
    named::number(text, b"failed", failed)
}

/// Appends the number of a line, a tick and an answer.
fn line_note(text: &mut Text, line: u32, tick: u32, told: &Answer) -> Result<(), Memory>
    ensures { Adds result text.old text.new (decimal line ++ spaced (decimal tick ∷ answer_fields told.now)) }
{
    text.number(u64::from(line))?;
    text.number_field(u64::from(tick))?;
    answer(text, told)
}

/// Appends the end of a run.
fn ended(text: &mut Text, tick: u32) -> Result<(), Memory>
    ensures { Adds result text.old text.new (codes "end" ++ spaced (decimal tick ∷ [])) }
{
    text.add(b"end")?;
    text.number_field(u64::from(tick))
}

/// Appends the counts of an input that was checked.
fn checked(text: &mut Text, nodes: u32, wires: u32, difs: u32, lines: u32) -> Result<(), Memory>
    ensures { Adds result text.old text.new (codes "checked" ++ spaced (decimal nodes ∷ decimal wires ∷ decimal difs ∷ decimal lines ∷ [])) }
{
    text.add(b"checked")?;
    value::two(text, u64::from(nodes), u64::from(wires))?;
    value::two(text, u64::from(difs), u64::from(lines))
}

/// Appends a note, without the end of its line.
#[tactic(auto, unfolding(crate::specs::Notes::note_text))]
fn note(text: &mut Text, note: &Note) -> Result<(), Memory>
    ensures { Adds result text.old text.new (note_text note.now) }
{
    match note {
        Note::Line { line, tick, answer } => line_note(text, *line, *tick, answer),
        Note::End { tick } => ended(text, *tick),
        Note::Fault(why) => {
            text.add(b"fault")?;
            fault(text, *why)
        }
        Note::Checked {
            nodes,
            wires,
            difs,
            lines,
        } => checked(text, *nodes, *wires, *difs, *lines),
        Note::Gen {
            n,
            lines,
            tick,
            sent,
            got,
            refused,
            off,
            failed,
        } => {
            begun(text, *n, *lines, *tick)?;
            told(text, *sent, *got, *refused, *off, *failed)
        }
    }
}

/// Prints a note, without the end of its line. Fails once an allocation fails.
pub fn print_note(alloc: Global, n: &Note) -> Result<Vec<u8>, Memory>
    ensures { IfOk result (λ text. text.items ≡ note_text n.now) }
{
    let mut text = Text::new(alloc);
    note(&mut text, n)?;
    Ok(text.into_vec())
}

/// Appends a note and the end of its line. Fails once an allocation fails.
pub fn add_line(text: &mut Text, n: &Note) -> Result<(), Memory>
    ensures { Adds result text.old text.new (line_of n.now) }
{
    note(text, n)?;
    text.push(b'\n')
}
