//! Printing answers.
ghost use Rattle.std.specs.Prelude.{◌≡◌, ◌∷◌, ◌++◌, [], true, codes};
ghost use Rattle.std.specs.Fmt.{decimal};
ghost use Rattle.rina_schedule.specs.Spelling.{Adds, spaced, spelling};
ghost use Rattle.rina_base.specs.Classes.{class_text};
ghost use Rattle.rina_report.specs.Values.{num_text, key_fields};
ghost use Rattle.rina_report.specs.Causes.{cause_fields};
ghost use Rattle.rina_report.specs.Refusals.{refusal_fields};
ghost use Rattle.rina_report.specs.States.{state_fields};
ghost use Rattle.rina_report.specs.Answers.{role_word, end_fields, flow_fields, answer_fields, is_of_ipc, is_shown};

use crate::answer::{Answer, FlowNote};
use crate::cause::CauseNote;
use crate::print::cause::{cause, off};
use crate::print::refusal::refusal;
use crate::print::state::{member, state};
use crate::print::step::{clock, took};
use crate::print::{named, value};
use crate::refusal::Refusal;
use crate::state::StateNote;
use rina_base::{Class, Key, Memory, Num};
use rina_iface::Role;
use rina_schedule::Text;

#[tactic(auto, unfolding(crate::specs::Answers::role_word))]
fn role_name(role: Role) -> &'static [u8]
    ensures { result.now ≡ role_word role }
{
    match role {
        Role::Asker => b"asker",
        Role::Far => b"far",
    }
}

#[tactic(auto, unfolding(crate::specs::Answers::end_fields))]
fn end(text: &mut Text, end: &FlowNote) -> Result<(), Memory>
    ensures { Adds result text.old text.new (spaced (end_fields end.now)) }
{
    text.field(end.app.as_bytes())?;
    text.field(end.peer.as_bytes())?;
    value::two(text, u64::from(end.cube), end.taken)?;
    state(text, &end.state)
}

/// Appends the fields of an end of a flow in a journal.
#[tactic(auto, unfolding(crate::specs::Answers::flow_fields))]
fn flow(text: &mut Text, shown: &FlowNote) -> Result<(), Memory>
    ensures { Adds result text.old text.new (spaced (flow_fields shown.now)) }
{
    text.field(b"flow")?;
    value::flow(text, shown.flow)?;
    text.field(role_name(shown.role))?;
    value::port(text, &shown.port)?;
    end(text, shown)
}

/// Appends an entry of a journal: its word and its fields.
fn entry(text: &mut Text, word: &[u8], at: u32, num: Num, bytes: &[u8]) -> Result<(), Memory>
    ensures { Adds result text.old text.new (spaced (word.now ∷ decimal at ∷ num_text num ∷ spelling bytes.now ∷ [])) }
{
    named::number(text, word, at)?;
    value::num(text, num)?;
    text.bytes_field(bytes)
}

/// Appends an object of a RIB.
fn object(text: &mut Text, name: &[u8], class: Class, value: &[u8]) -> Result<(), Memory>
    ensures { Adds result text.old text.new (spaced (codes "obj" ∷ name.now ∷ class_text class ∷ spelling value.now ∷ [])) }
{
    text.field(b"obj")?;
    text.field(name)?;
    named::bytes(text, class.name(), value)
}

/// Appends a PDU that was written off at a link.
fn out_off(text: &mut Text, key: Key, why: &CauseNote) -> Result<(), Memory>
    ensures { Adds result text.old text.new (spaced (codes "out" ∷ key_fields key ++ codes "off" ∷ cause_fields why.now)) }
{
    named::key(text, b"out", key)?;
    off(text, why)
}

/// Appends a write-off in a ledger.
fn written_off(text: &mut Text, key: Key, why: &CauseNote) -> Result<(), Memory>
    ensures { Adds result text.old text.new (spaced (codes "off" ∷ key_fields key ++ cause_fields why.now)) }
{
    named::key(text, b"off", key)?;
    cause(text, why)
}

/// Appends a word and a refusal.
fn refused(text: &mut Text, word: &[u8], why: &Refusal) -> Result<(), Memory>
    ensures { Adds result text.old text.new (spaced (word.now ∷ refusal_fields why.now)) }
{
    text.field(word)?;
    refusal(text, why)
}

/// Appends a word and the state of a port.
fn in_state(text: &mut Text, word: &[u8], shown: &StateNote) -> Result<(), Memory>
    ensures { Adds result text.old text.new (spaced (word.now ∷ state_fields shown.now)) }
{
    text.field(word)?;
    state(text, shown)
}

/// Appends a label and the state of its port.
fn label(text: &mut Text, label: &[u8], told: &StateNote) -> Result<(), Memory>
    ensures { Adds result text.old text.new (spaced (codes "state" ∷ label.now ∷ state_fields told.now)) }
{
    text.field(b"state")?;
    in_state(text, label, told)
}

/// Appends an answer about a RIB, a ledger or a journal.
#[tactic(auto, unfolding(crate::specs::Answers::answer_fields))]
fn shown(text: &mut Text, answer: &Answer) -> Result<(), Memory>
    requires { is_shown answer.now ≡ true }
    ensures { Adds result text.old text.new (spaced (answer_fields answer.now)) }
{
    match answer {
        Answer::Object { name, class, value } => {
            object(text, name.as_bytes(), *class, value.as_slice())
        }
        Answer::Off { key, cause } => written_off(text, *key, cause),
        Answer::Flow(end) => flow(text, end),
        Answer::SentEntry { at, num, bytes } => entry(text, b"s", *at, *num, bytes.as_slice()),
        Answer::GotEntry { at, num, bytes } => entry(text, b"g", *at, *num, bytes.as_slice()),
        _ => unreachable!(),
    }
}

/// Appends an answer about an IPC process, a RIB, a ledger or a journal.
#[tactic(auto, unfolding(crate::specs::Answers::answer_fields))]
fn of_ipc(text: &mut Text, answer: &Answer) -> Result<(), Memory>
    requires { is_of_ipc answer.now ≡ true }
    ensures { Adds result text.old text.new (spaced (answer_fields answer.now)) }
{
    match answer {
        Answer::In { key, end } => {
            named::key(text, b"in", *key)?;
            took(text, end)
        }
        Answer::Out { key } => named::key(text, b"out", *key),
        Answer::OutOff { key, cause } => out_off(text, *key, cause),
        Answer::Held { why } => refused(text, b"held", why),
        Answer::Clock { step } => {
            text.field(b"clock")?;
            clock(text, step)
        }
        Answer::Cdap { bytes } => named::bytes(text, b"cdap", bytes.as_slice()),
        _ => shown(text, answer),
    }
}

/// Appends an answer: its word and its fields.
#[tactic(auto, unfolding(crate::specs::Answers::answer_fields))]
pub(crate) fn answer(text: &mut Text, answer: &Answer) -> Result<(), Memory>
    ensures { Adds result text.old text.new (spaced (answer_fields answer.now)) }
{
    match answer {
        Answer::Done => text.field(b"ok"),
        Answer::Port { state } => in_state(text, b"ok", state),
        Answer::Member { state } => {
            text.field(b"ok")?;
            member(text, *state)
        }
        Answer::Nothing => text.field(b"none"),
        Answer::Sent { num } => named::num(text, b"sent", *num),
        Answer::Got { at, bytes } => {
            named::number(text, b"got", *at)?;
            text.bytes_field(bytes.as_slice())
        }
        Answer::Idle => text.field(b"idle"),
        Answer::Refused { why } => refused(text, b"no", why),
        Answer::Label { label: name, state } => label(text, name.as_bytes(), state),
        _ => of_ipc(text, answer),
    }
}
