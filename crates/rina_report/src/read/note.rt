//! Reading whole notes.
ghost use Rattle.std.specs.Prelude.{IfOk, IsSome, IsSomeAnd, OnOk, ◌<◌, ◌+◌, ◌∷◌, true, IfErr, length, slice_get, ◌≡◌, ◌≢◌};
ghost use Rattle.rina_schedule.specs.Gives.{Gives, or_bad};
ghost use Rattle.rina_report.specs.Fields.{fields_of, behind, max32, numeral_of};
ghost use Rattle.rina_report.specs.ReadNotes.{schedule_at, fault_of, fault_at, checked_at, named_at, gen_at, counter_at, told_at, line_note_at, whole_at, note_at, HasCopyingAnswer, TellsLine};
ghost use Rattle.rina_report.specs.ReadAnswers.{answer_copies};

use crate::note::{Fault, Note};
use crate::read::answer::answer;
use crate::read::field::{ended, field, first_field, is, next_field, number, read_numeral, word};
use crate::read::last::{last_number, last_two};
use rina_base::Tick;
use rina_schedule::LineError;
use std::alloc::Global;

/// Reads the fields of a line that is outside the grammar.
#[tactic(auto, unfolding(crate::specs::ReadNotes::schedule_at))]
fn schedule(n: u32, rest: &[u8]) -> Result<Fault, LineError>
    requires { n < 100 }
    ensures read { Gives (λ x. x) result (schedule_at n (behind rest.now)) }
    ensures memory { IfErr result (λ e. e ≢ LineError.Memory) }
{
    let (line, rest) = number(n, rest)?;
    let (error, field) = last_two(n + 1, rest)?;
    Ok(Fault::Schedule {
        line,
        n: error,
        field,
    })
}

#[tactic(auto, unfolding(crate::specs::ReadNotes::fault_of))]
fn fault_of(word: &[u8], n: u32, rest: &[u8]) -> Result<Fault, LineError>
    requires { n < 90 }
    ensures read { Gives (λ x. x) result (fault_of word.now n (behind rest.now)) }
    ensures memory { IfErr result (λ e. e ≢ LineError.Memory) }
{
    let next = n + 1;
    if is(word, b"Usage") {
        let word = last_number(next, rest)?;
        Ok(Fault::Usage { word })
    } else if is(word, b"TooLarge") {
        ended(Fault::TooLarge, next, rest)
    } else if is(word, b"NotToml") {
        ended(Fault::NotToml, next, rest)
    } else if is(word, b"StackRule") {
        let (rule, item) = last_two(next, rest)?;
        Ok(Fault::StackRule { n: rule, item })
    } else if is(word, b"Schedule") {
        schedule(next, rest)
    } else if is(word, b"ReadFault") {
        ended(Fault::ReadFault, next, rest)
    } else {
        Err(LineError::BadName { n })
    }
}

/// Reads why a run ended before its last line.
#[tactic(auto, unfolding(crate::specs::ReadNotes::fault_at))]
fn fault(n: u32, rest: &[u8]) -> Result<Fault, LineError>
    requires { n < 90 }
    ensures read { Gives (λ x. x) result (fault_at n (behind rest.now)) }
    ensures memory { IfErr result (λ e. e ≢ LineError.Memory) }
{
    let (word, rest) = field(n, rest)?;
    fault_of(word, n, rest)
}

/// Reads the counts of an input that was checked.
#[tactic(auto, unfolding(crate::specs::ReadNotes::checked_at))]
fn checked(n: u32, rest: &[u8]) -> Result<Note, LineError>
    requires { n < 90 }
    ensures read { Gives (λ x. x) result (checked_at n (behind rest.now)) }
    ensures memory { IfErr result (λ e. e ≢ LineError.Memory) }
{
    let (nodes, rest) = number(n, rest)?;
    let (wires, rest) = number(n + 1, rest)?;
    let (difs, lines) = last_two(n + 2, rest)?;
    Ok(Note::Checked {
        nodes,
        wires,
        difs,
        lines,
    })
}

/// Reads this word in field `n`, and a number in the next one.
#[tactic(auto, unfolding(crate::specs::ReadNotes::named_at))]
fn named<'a>(expected: &[u8], n: u32, rest: &'a [u8]) -> Result<(u32, &'a [u8]), LineError>
    requires { n < 100 }
    ensures read { Gives (λ x. (x.0, behind x.1.now)) result (named_at expected.now n (behind rest.now)) }
    ensures memory { IfErr result (λ e. e ≢ LineError.Memory) }
{
    let ((), rest) = word(expected, n, rest)?;
    number(n + 1, rest)
}

/// Reads the summary of a generated run.
#[tactic(auto, unfolding(crate::specs::ReadNotes::gen_at))]
fn summary(at: u32, rest: &[u8]) -> Result<Note, LineError>
    requires { at < 80 }
    ensures read { Gives (λ x. x) result (gen_at at (behind rest.now)) }
    ensures memory { IfErr result (λ e. e ≢ LineError.Memory) }
{
    let (n, rest) = number(at, rest)?;
    let (lines, rest) = named(b"lines", at + 1, rest)?;
    let (tick, rest) = named(b"tick", at + 3, rest)?;
    let (sent, rest) = named(b"sent", at + 5, rest)?;
    let (got, rest) = named(b"got", at + 7, rest)?;
    let (refused, rest) = named(b"refused", at + 9, rest)?;
    let (off, rest) = named(b"off", at + 11, rest)?;
    let (failed, rest) = named(b"failed", at + 13, rest)?;
    let summary = Note::Gen {
        n,
        lines,
        tick,
        sent,
        got,
        refused,
        off,
        failed,
    };
    ended(summary, at + 15, rest)
}

/// Reads the number of a line or a tick. Fails with `UnknownWord` where the text is no number of 32 bits.
fn counter_of(text: &[u8]) -> Result<u32, LineError>
    ensures read { Gives (λ x. x) result (or_bad LineError.UnknownWord (numeral_of max32 text.now)) }
    ensures memory { IfErr result (λ e. e ≢ LineError.Memory) }
    ensures there { OnOk result (IsSome (numeral_of max32 text.now)) }
{
    match read_numeral(u64::from(u32::MAX), text) {
        Some(value) => Ok(value as u32),
        None => Err(LineError::UnknownWord),
    }
}

/// Reads the answer behind the number of a line and the tick.
fn told(alloc: Global, line: u32, tick: Tick, rest: &[u8]) -> Result<Note, LineError>
    ensures read { Gives (λ x. x) result (told_at line tick (behind rest.now)) }
    ensures memory { IfErr result (λ e. e ≡ LineError.Memory → 1 < length (behind rest.now)) }
    ensures copies { IfErr result (λ e. e ≡ LineError.Memory → IsSomeAnd (slice_get (behind rest.now) 0) (λ word. answer_copies word ≡ true)) }
{
    let Some((word, rest)) = next_field(rest) else {
        return Err(LineError::UnknownWord);
    };
    let answer = answer(alloc, word, rest)?;
    Ok(Note::Line { line, tick, answer })
}

/// Reads the tick behind the number of a line.
#[tactic(auto, unfolding(crate::specs::ReadNotes::counter_at))]
fn tick(rest: &[u8]) -> Result<(Tick, &[u8]), LineError>
    ensures read { Gives (λ x. (x.0, behind x.1.now)) result (counter_at (behind rest.now)) }
    ensures memory { IfErr result (λ e. e ≢ LineError.Memory) }
    ensures there { IfOk result (λ x. length (behind rest.now) ≡ 1 + length (behind x.1.now)) }
    ensures next { IfOk result (λ x. slice_get (behind rest.now) 1 ≡ slice_get (behind x.1.now) 0) }
{
    let Some((text, rest)) = next_field(rest) else {
        return Err(LineError::UnknownWord);
    };
    let tick = counter_of(text)?;
    Ok((tick, rest))
}

/// Reads a note that begins with the number of a line and a tick.
#[tactic(auto, unfolding(crate::specs::ReadNotes::line_note_at, crate::specs::ReadNotes::counter_at))]
fn line_note(alloc: Global, first: &[u8], rest: &[u8]) -> Result<Note, LineError>
    ensures read { Gives (λ x. x) result (line_note_at (first.now ∷ behind rest.now)) }
    ensures memory { IfErr result (λ e. e ≡ LineError.Memory → TellsLine (first.now ∷ behind rest.now)) }
    ensures copies { IfErr result (λ e. e ≡ LineError.Memory → HasCopyingAnswer (first.now ∷ behind rest.now)) }
{
    let line = counter_of(first)?;
    let (tick, rest) = tick(rest)?;
    told(alloc, line, tick, rest)
}

#[tactic(auto, unfolding(crate::specs::ReadNotes::whole_at))]
fn whole(alloc: Global, word: &[u8], rest: &[u8]) -> Result<Note, LineError>
    ensures read { Gives (λ x. x) result (whole_at word.now (behind rest.now)) }
    ensures memory { IfErr result (λ e. e ≡ LineError.Memory → TellsLine (word.now ∷ behind rest.now)) }
    ensures copies { IfErr result (λ e. e ≡ LineError.Memory → HasCopyingAnswer (word.now ∷ behind rest.now)) }
{
    if is(word, b"end") {
        let tick = last_number(1, rest)?;
        Ok(Note::End { tick })
    } else if is(word, b"fault") {
        let fault = fault(1, rest)?;
        Ok(Note::Fault(fault))
    } else if is(word, b"checked") {
        checked(1, rest)
    } else if is(word, b"gen") {
        summary(1, rest)
    } else {
        line_note(alloc, word, rest)
    }
}

/// Reads a note from a text without the end of its line, only as it is printed: with single spaces,
/// numbers without a sign or a leading zero, and one form of bytes. Fails with the first error from the
/// left, where the word of the note is field 0; with `UnknownWord` where the note has no word, or one of
/// the two numbers before it is missing or not a number; and with `Memory` once an allocation fails.
#[tactic(auto, unfolding(crate::specs::ReadNotes::note_at))]
pub fn read_note(alloc: Global, text: &[u8]) -> Result<Note, LineError>
    ensures read { Gives (λ x. x) result (note_at text.now) }
    // Only the fields behind the word of a line's answer are copied, so no other note fails with `Memory`.
    ensures memory { IfErr result (λ e. e ≡ LineError.Memory → TellsLine (fields_of text.now)) }
    // Nothing is copied behind `none`, `sent` and `idle`, nor behind a word that no answer has.
    ensures copies { IfErr result (λ e. e ≡ LineError.Memory → HasCopyingAnswer (fields_of text.now)) }
{
    let (word, rest) = first_field(text);
    whole(alloc, word, rest)
}
