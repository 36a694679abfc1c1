//! Reading a line of a schedule.
ghost use Rattle.std.specs.Prelude.{◌≡◌, ◌≢◌, true, None, Ok, IfErr, IsOk};
ghost use Rattle.std.specs.Str.{bytes_eq};
ghost use Rattle.rina_schedule.specs.Gives.{Gives};
ghost use Rattle.rina_schedule.specs.Fields.{field_at};
ghost use Rattle.rina_schedule.specs.Line.{step_word_at, step_word_copies, dif_word_at, dif_word_copies, wire_word_at, wire_word_copies, word_at, word_copies, line_at, HasCopyingWord, HasOperand};

use crate::error::LineError;
use crate::event::Event;
use crate::field::next_field;
use crate::words::alike::{
    AppWord, FrameWord, LinkWord, NameWord, at_link, at_node, framed, named,
};
use crate::words::{dif, flow, step, wire};
use std::alloc::Global;

fn is(word: &[u8], other: &[u8]) -> bool
    ensures { result ≡ bytes_eq word.now other.now }
{
    word == other
}

#[tactic(auto, unfolding(crate::specs::Line::step_word_at, crate::specs::Line::step_word_copies))]
fn read_step_word(alloc: Global, word: &[u8], text: &[u8]) -> Result<Event, LineError>
    ensures read { Gives (λ x. x) result (step_word_at word.now text.now) }
    ensures memory { IfErr result (λ e. e ≡ LineError.Memory → IsOk (field_at 1 text.now)) }
    ensures copies { IfErr result (λ e. e ≡ LineError.Memory → step_word_copies word.now ≡ true) }
{
    if is(word, b"tick") {
        step::tick(text)
    } else if is(word, b"round") {
        step::round(text)
    } else if is(word, b"retire") {
        named(NameWord::Retire, alloc, text)
    } else if is(word, b"journal") {
        named(NameWord::Journal, alloc, text)
    } else {
        Err(LineError::UnknownWord)
    }
}

#[tactic(auto, unfolding(crate::specs::Line::dif_word_at, crate::specs::Line::dif_word_copies))]
fn read_dif_word(alloc: Global, word: &[u8], text: &[u8]) -> Result<Event, LineError>
    ensures read { Gives (λ x. x) result (dif_word_at word.now text.now) }
    ensures memory { IfErr result (λ e. e ≡ LineError.Memory → IsOk (field_at 1 text.now)) }
    ensures copies { IfErr result (λ e. e ≡ LineError.Memory → dif_word_copies word.now ≡ true) }
{
    if is(word, b"publish") {
        dif::publish(alloc, text)
    } else if is(word, b"enrol") {
        dif::enrol(alloc, text)
    } else if is(word, b"member") {
        dif::member(alloc, text)
    } else if is(word, b"in") {
        at_link(LinkWord::In, alloc, text)
    } else if is(word, b"out") {
        at_link(LinkWord::Out, alloc, text)
    } else if is(word, b"clock") {
        dif::clock(alloc, text)
    } else if is(word, b"cdap") {
        dif::cdap(alloc, text)
    } else if is(word, b"rib") {
        dif::rib(alloc, text)
    } else if is(word, b"ledger") {
        dif::ledger(alloc, text)
    } else {
        read_step_word(alloc, word, text)
    }
}

#[tactic(auto, unfolding(crate::specs::Line::wire_word_at, crate::specs::Line::wire_word_copies))]
fn read_wire_word(alloc: Global, word: &[u8], text: &[u8]) -> Result<Event, LineError>
    ensures read { Gives (λ x. x) result (wire_word_at word.now text.now) }
    ensures memory { IfErr result (λ e. e ≡ LineError.Memory → IsOk (field_at 1 text.now)) }
    ensures copies { IfErr result (λ e. e ≡ LineError.Memory → wire_word_copies word.now ≡ true) }
{
    if is(word, b"lose") {
        wire::lose(alloc, text)
    } else if is(word, b"repeat") {
        framed(FrameWord::Repeat, alloc, text)
    } else if is(word, b"hold") {
        framed(FrameWord::Hold, alloc, text)
    } else if is(word, b"cut") {
        named(NameWord::Cut, alloc, text)
    } else if is(word, b"mend") {
        named(NameWord::Mend, alloc, text)
    } else {
        read_dif_word(alloc, word, text)
    }
}

#[tactic(auto, unfolding(crate::specs::Line::word_at, crate::specs::Line::word_copies))]
fn read_word(alloc: Global, word: &[u8], text: &[u8]) -> Result<Event, LineError>
    ensures read { Gives (λ x. x) result (word_at word.now text.now) }
    ensures memory { IfErr result (λ e. e ≡ LineError.Memory → IsOk (field_at 1 text.now)) }
    ensures copies { IfErr result (λ e. e ≡ LineError.Memory → word_copies word.now ≡ true) }
{
    if is(word, b"register") {
        at_node(AppWord::Register, alloc, text)
    } else if is(word, b"unregister") {
        at_node(AppWord::Unregister, alloc, text)
    } else if is(word, b"alloc") {
        flow::allocate(alloc, text)
    } else if is(word, b"accept") {
        flow::accept(alloc, text)
    } else if is(word, b"send") {
        flow::send(alloc, text)
    } else if is(word, b"read") {
        named(NameWord::Read, alloc, text)
    } else if is(word, b"state") {
        named(NameWord::State, alloc, text)
    } else if is(word, b"free") {
        named(NameWord::Free, alloc, text)
    } else {
        read_wire_word(alloc, word, text)
    }
}

/// Reads a line into the event that it asks for. Gives None for a blank line and for a comment, whose
/// first field begins with `#`. Fields are separated by spaces. Fails with the first error from the
/// left, or with `Memory` once an allocation fails.
#[tactic(auto, unfolding(crate::specs::Line::line_at))]
pub fn read_line(alloc: Global, text: &[u8]) -> Result<Option<Event>, LineError>
    ensures read { Gives (λ x. x) result (line_at text.now) }
    // Only the fields behind the word are copied, so a line without any never fails with `Memory`.
    ensures memory { IfErr result (λ e. e ≡ LineError.Memory → HasOperand text.now) }
    // Behind `tick` and `round`, and behind a word that the grammar does not have, nothing is copied.
    ensures copies { IfErr result (λ e. e ≡ LineError.Memory → HasCopyingWord text.now) }
    // So a line that asks for nothing never fails with `Memory`.
    ensures asks { IfErr result (λ e. e ≡ LineError.Memory → line_at text.now ≢ Ok None) }
{
    let Some((word, rest)) = next_field(text) else {
        return Ok(None);
    };
    if word.first() == Some(&b'#') {
        return Ok(None);
    }
    let event = read_word(alloc, word, rest)?;
    Ok(Some(event))
}
