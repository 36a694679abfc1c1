//! Reading answers.
ghost use Rattle.std.specs.Prelude.{◌≡◌, ◌<◌, ◌+◌, true, IfErr, length};
ghost use Rattle.rina_schedule.specs.Gives.{Gives};
ghost use Rattle.rina_report.specs.Fields.{behind};
ghost use Rattle.rina_report.specs.ReadAnswers.{role_of, ok_state_of, ok_at, got_at, in_at, out_off_of, out_end_at, out_at, off_at, object_note_at, flow_note_at, entry_at, label_at, journal_word_at, journal_word_copies, step_word_at, step_word_copies, answer_at, answer_copies};

use crate::answer::{Answer, FlowNote};
use crate::read::cause::{cause, clock, took};
use crate::read::field::{byte, ended, field, is, long, next_field, number};
use crate::read::last::{last_bytes, last_num, last_number};
use crate::read::refusal::refusal;
use crate::read::state::{state, state_of};
use crate::read::value::{app, flow, key, name, num, object, port};
use crate::state::MemberNote;
use rina_base::{Bytes, Class, Key, Num, Tick};
use rina_iface::Role;
use rina_schedule::LineError;
use std::alloc::Global;

#[tactic(auto, unfolding(crate::specs::ReadAnswers::role_of))]
fn role_of(word: &[u8]) -> Option<Role>
    ensures { result ≡ role_of word.now }
{
    if is(word, b"asker") {
        Some(Role::Asker)
    } else if is(word, b"far") {
        Some(Role::Far)
    } else {
        None
    }
}

/// Reads the state of a member or a port.
#[tactic(auto, unfolding(crate::specs::ReadAnswers::ok_state_of))]
fn ok_state(alloc: Global, word: &[u8], n: u32, rest: &[u8]) -> Result<Answer, LineError>
    requires { n < 100 }
    ensures read { Gives (λ x. x) result (ok_state_of word.now n (behind rest.now)) }
    ensures memory { IfErr result (λ e. e ≡ LineError.Memory → 0 < length (behind rest.now)) }
{
    let next = n + 1;
    if is(word, b"outside") {
        ended(
            Answer::Member {
                state: MemberNote::Outside,
            },
            next,
            rest,
        )
    } else if is(word, b"joining") {
        let link = last_number(next, rest)?;
        Ok(Answer::Member {
            state: MemberNote::Joining { link },
        })
    } else if is(word, b"enrolled") {
        ended(
            Answer::Member {
                state: MemberNote::Enrolled,
            },
            next,
            rest,
        )
    } else if is(word, b"denied") {
        let rule = last_number(next, rest)?;
        Ok(Answer::Member {
            state: MemberNote::Denied { rule },
        })
    } else {
        let state = state_of(alloc, word, n, rest)?;
        Ok(Answer::Port { state })
    }
}

/// Reads `nothing`, or a state.
fn ok(alloc: Global, n: u32, rest: &[u8]) -> Result<Answer, LineError>
    requires { n < 100 }
    ensures read { Gives (λ x. x) result (ok_at n (behind rest.now)) }
    ensures memory { IfErr result (λ e. e ≡ LineError.Memory → 0 < length (behind rest.now)) }
{
    match next_field(rest) {
        Some((word, rest)) => ok_state(alloc, word, n, rest),
        None => Ok(Answer::Done),
    }
}

/// Reads an SDU that was read.
#[tactic(auto, unfolding(crate::specs::ReadAnswers::got_at))]
fn got(alloc: Global, n: u32, rest: &[u8]) -> Result<Answer, LineError>
    requires { n < 100 }
    ensures read { Gives (λ x. x) result (got_at n (behind rest.now)) }
    ensures memory { IfErr result (λ e. e ≡ LineError.Memory → 0 < length (behind rest.now)) }
{
    let (at, rest) = number(n, rest)?;
    let bytes = last_bytes(alloc, n + 1, rest)?;
    Ok(Answer::Got { at, bytes })
}

/// Reads a PDU that a step took.
#[tactic(auto, unfolding(crate::specs::ReadAnswers::in_at))]
fn in_step(alloc: Global, n: u32, rest: &[u8]) -> Result<Answer, LineError>
    requires { n < 100 }
    ensures read { Gives (λ x. x) result (in_at n (behind rest.now)) }
    ensures memory { IfErr result (λ e. e ≡ LineError.Memory → 0 < length (behind rest.now)) }
{
    let (key, rest) = key(n, rest)?;
    let end = took(alloc, n + 2, rest)?;
    Ok(Answer::In { key, end })
}

#[tactic(auto, unfolding(crate::specs::ReadAnswers::out_off_of))]
fn out_off(alloc: Global, key: Key, word: &[u8], n: u32, rest: &[u8]) -> Result<Answer, LineError>
    requires { n < 200 }
    ensures read { Gives (λ x. x) result (out_off_of key word.now n (behind rest.now)) }
    ensures memory { IfErr result (λ e. e ≡ LineError.Memory → 0 < length (behind rest.now)) }
{
    if !is(word, b"off") {
        return Err(LineError::BadName { n });
    }
    let cause = cause(alloc, n + 1, rest)?;
    Ok(Answer::OutOff { key, cause })
}

fn out_end(alloc: Global, key: Key, n: u32, rest: &[u8]) -> Result<Answer, LineError>
    requires { n < 200 }
    ensures read { Gives (λ x. x) result (out_end_at key n (behind rest.now)) }
    ensures memory { IfErr result (λ e. e ≡ LineError.Memory → 0 < length (behind rest.now)) }
{
    match next_field(rest) {
        Some((word, rest)) => out_off(alloc, key, word, n, rest),
        None => Ok(Answer::Out { key }),
    }
}

/// Reads a PDU that a step gave to a link or wrote off.
#[tactic(auto, unfolding(crate::specs::ReadAnswers::out_at))]
fn out_step(alloc: Global, n: u32, rest: &[u8]) -> Result<Answer, LineError>
    requires { n < 100 }
    ensures read { Gives (λ x. x) result (out_at n (behind rest.now)) }
    ensures memory { IfErr result (λ e. e ≡ LineError.Memory → 0 < length (behind rest.now)) }
{
    let (key, rest) = key(n, rest)?;
    out_end(alloc, key, n + 2, rest)
}

/// Reads a write-off.
#[tactic(auto, unfolding(crate::specs::ReadAnswers::off_at))]
fn off(alloc: Global, n: u32, rest: &[u8]) -> Result<Answer, LineError>
    requires { n < 100 }
    ensures read { Gives (λ x. x) result (off_at n (behind rest.now)) }
    ensures memory { IfErr result (λ e. e ≡ LineError.Memory → 0 < length (behind rest.now)) }
{
    let (key, rest) = key(n, rest)?;
    let cause = cause(alloc, n + 2, rest)?;
    Ok(Answer::Off { key, cause })
}

/// Reads an object of a RIB.
#[tactic(auto, unfolding(crate::specs::ReadAnswers::object_note_at))]
fn object_note(alloc: Global, n: u32, rest: &[u8]) -> Result<Answer, LineError>
    requires { n < 100 }
    ensures read { Gives (λ x. x) result (object_note_at n (behind rest.now)) }
    ensures memory { IfErr result (λ e. e ≡ LineError.Memory → 0 < length (behind rest.now)) }
{
    let (name, rest) = object(alloc, n, rest)?;
    let (word, rest) = field(n + 1, rest)?;
    let Some(class) = Class::read(word) else {
        return Err(LineError::BadName { n: n + 1 });
    };
    let value = last_bytes(alloc, n + 2, rest)?;
    Ok(Answer::Object { name, class, value })
}

/// Reads an end of a flow.
#[tactic(auto, unfolding(crate::specs::ReadAnswers::flow_note_at))]
fn flow_note(alloc: Global, n: u32, rest: &[u8]) -> Result<FlowNote, LineError>
    requires { n < 100 }
    ensures read { Gives (λ x. x) result (flow_note_at n (behind rest.now)) }
    ensures memory { IfErr result (λ e. e ≡ LineError.Memory → 0 < length (behind rest.now)) }
{
    let (flow, rest) = flow(n, rest)?;
    let (word, rest) = field(n + 1, rest)?;
    let Some(role) = role_of(word) else {
        return Err(LineError::BadName { n: n + 1 });
    };
    let (port, rest) = port(alloc, n + 2, rest)?;
    let (from, rest) = app(alloc, n + 3, rest)?;
    let (peer, rest) = app(alloc, n + 4, rest)?;
    let (cube, rest) = byte(n + 5, rest)?;
    let (taken, rest) = long(n + 6, rest)?;
    let state = state(alloc, n + 7, rest)?;
    Ok(FlowNote {
        flow,
        role,
        port,
        app: from,
        peer,
        cube,
        taken,
        state,
    })
}

/// Reads an entry of a journal.
#[tactic(auto, unfolding(crate::specs::ReadAnswers::entry_at))]
fn entry(alloc: Global, n: u32, rest: &[u8]) -> Result<(Tick, Num, Bytes), LineError>
    requires { n < 100 }
    ensures read { Gives (λ x. (x.0, x.1, x.2)) result (entry_at n (behind rest.now)) }
    ensures memory { IfErr result (λ e. e ≡ LineError.Memory → 0 < length (behind rest.now)) }
{
    let (at, rest) = number(n, rest)?;
    let (num, rest) = num(n + 1, rest)?;
    let bytes = last_bytes(alloc, n + 2, rest)?;
    Ok((at, num, bytes))
}

/// Reads a label and the state of its port.
#[tactic(auto, unfolding(crate::specs::ReadAnswers::label_at))]
fn label(alloc: Global, n: u32, rest: &[u8]) -> Result<Answer, LineError>
    requires { n < 100 }
    ensures read { Gives (λ x. x) result (label_at n (behind rest.now)) }
    ensures memory { IfErr result (λ e. e ≡ LineError.Memory → 0 < length (behind rest.now)) }
{
    let (label, rest) = name(alloc, n, rest)?;
    let state = state(alloc, n + 1, rest)?;
    Ok(Answer::Label { label, state })
}

/// Reads an answer about a journal or a RIB, whose word was read.
#[tactic(auto, unfolding(crate::specs::ReadAnswers::journal_word_at, crate::specs::ReadAnswers::journal_word_copies))]
fn journal_word(alloc: Global, word: &[u8], rest: &[u8]) -> Result<Answer, LineError>
    ensures read { Gives (λ x. x) result (journal_word_at word.now (behind rest.now)) }
    ensures memory { IfErr result (λ e. e ≡ LineError.Memory → 0 < length (behind rest.now)) }
    ensures copies { IfErr result (λ e. e ≡ LineError.Memory → journal_word_copies word.now ≡ true) }
{
    if is(word, b"cdap") {
        let bytes = last_bytes(alloc, 1, rest)?;
        Ok(Answer::Cdap { bytes })
    } else if is(word, b"obj") {
        object_note(alloc, 1, rest)
    } else if is(word, b"flow") {
        let end = flow_note(alloc, 1, rest)?;
        Ok(Answer::Flow(end))
    } else if is(word, b"s") {
        let (at, num, bytes) = entry(alloc, 1, rest)?;
        Ok(Answer::SentEntry { at, num, bytes })
    } else if is(word, b"g") {
        let (at, num, bytes) = entry(alloc, 1, rest)?;
        Ok(Answer::GotEntry { at, num, bytes })
    } else {
        Err(LineError::UnknownWord)
    }
}

/// Reads an answer about a step, a journal or a RIB, whose word was read.
#[tactic(auto, unfolding(crate::specs::ReadAnswers::step_word_at, crate::specs::ReadAnswers::step_word_copies))]
fn step_word(alloc: Global, word: &[u8], rest: &[u8]) -> Result<Answer, LineError>
    ensures read { Gives (λ x. x) result (step_word_at word.now (behind rest.now)) }
    ensures memory { IfErr result (λ e. e ≡ LineError.Memory → 0 < length (behind rest.now)) }
    ensures copies { IfErr result (λ e. e ≡ LineError.Memory → step_word_copies word.now ≡ true) }
{
    if is(word, b"in") {
        in_step(alloc, 1, rest)
    } else if is(word, b"out") {
        out_step(alloc, 1, rest)
    } else if is(word, b"held") {
        let why = refusal(alloc, 1, rest)?;
        Ok(Answer::Held { why })
    } else if is(word, b"clock") {
        let step = clock(alloc, 1, rest)?;
        Ok(Answer::Clock { step })
    } else if is(word, b"idle") {
        ended(Answer::Idle, 1, rest)
    } else if is(word, b"off") {
        off(alloc, 1, rest)
    } else {
        journal_word(alloc, word, rest)
    }
}

/// Reads an answer, whose word was read.
#[tactic(auto, unfolding(crate::specs::ReadAnswers::answer_at, crate::specs::ReadAnswers::answer_copies))]
pub(crate) fn answer(alloc: Global, word: &[u8], rest: &[u8]) -> Result<Answer, LineError>
    ensures read { Gives (λ x. x) result (answer_at word.now (behind rest.now)) }
    ensures memory { IfErr result (λ e. e ≡ LineError.Memory → 0 < length (behind rest.now)) }
    ensures copies { IfErr result (λ e. e ≡ LineError.Memory → answer_copies word.now ≡ true) }
{
    if is(word, b"ok") {
        ok(alloc, 1, rest)
    } else if is(word, b"none") {
        ended(Answer::Nothing, 1, rest)
    } else if is(word, b"sent") {
        let num = last_num(1, rest)?;
        Ok(Answer::Sent { num })
    } else if is(word, b"got") {
        got(alloc, 1, rest)
    } else if is(word, b"no") {
        let why = refusal(alloc, 1, rest)?;
        Ok(Answer::Refused { why })
    } else if is(word, b"state") {
        label(alloc, 1, rest)
    } else {
        step_word(alloc, word, rest)
    }
}
