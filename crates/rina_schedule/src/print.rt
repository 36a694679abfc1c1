//! Printing lines: single spaces, and one spelling of each field.
ghost use Rattle.std.specs.Prelude.{◌≡◌, ◌∷◌, [], true, IfOk};
ghost use Rattle.std.specs.Fmt.{decimal};
ghost use Rattle.rina_schedule.specs.Spelling.{Adds, spaced, spelling};
ghost use Rattle.rina_schedule.specs.Printed.{flag_fields, setting_fields, want_fields, path_fields, event_word, event_fields, is_dif_word, names_no_app, line_text};

use crate::event::Event;
use crate::text::Text;
use rina_base::{AppName, Memory, Name, ObjectName};
use rina_cube::Want;
use std::alloc::Global;

/// Appends the fields of a DIF and a node.
fn ipc_at(text: &mut Text, dif: &Name, node: &Name) -> Result<(), Memory>
    ensures { Adds result text.old text.new (spaced (dif.now ∷ node.now ∷ [])) }
{
    text.field(dif.as_bytes())?;
    text.field(node.as_bytes())
}

/// Appends the fields of a DIF, a node and a facility.
fn ipc_over(text: &mut Text, dif: &Name, node: &Name, fac: &Name) -> Result<(), Memory>
    ensures { Adds result text.old text.new (spaced (dif.now ∷ node.now ∷ fac.now ∷ [])) }
{
    ipc_at(text, dif, node)?;
    text.field(fac.as_bytes())
}

/// Appends the fields of a facility, a node and an application.
fn app_at(text: &mut Text, fac: &Name, node: &Name, app: &AppName) -> Result<(), Memory>
    ensures { Adds result text.old text.new (spaced (fac.now ∷ node.now ∷ app.now ∷ [])) }
{
    text.field(fac.as_bytes())?;
    text.field(node.as_bytes())?;
    text.field(app.as_bytes())
}

/// Appends the fields of a wire, a frame and a tick.
fn frame_at(text: &mut Text, wire: &[u8], frame: u32, at: u32) -> Result<(), Memory>
    ensures { Adds result text.old text.new (spaced (wire.now ∷ decimal frame ∷ decimal at ∷ [])) }
{
    text.field(wire)?;
    text.number_field(u64::from(frame))?;
    text.number_field(u64::from(at))
}

/// Appends an option that is a word, where it is set.
#[tactic(auto, unfolding(crate::specs::Printed::flag_fields))]
fn flag(text: &mut Text, word: &[u8], given: bool) -> Result<(), Memory>
    ensures { Adds result text.old text.new (spaced (flag_fields word.now given)) }
{
    if given { text.field(word) } else { Ok(()) }
}

/// Appends an option that is a word with a number behind it, unless the number is the default.
#[tactic(auto, unfolding(crate::specs::Printed::setting_fields))]
fn setting(text: &mut Text, word: &[u8], default: u32, n: u32) -> Result<(), Memory>
    ensures { Adds result text.old text.new (spaced (setting_fields word.now default n)) }
{
    if n == default {
        return Ok(());
    }
    text.field(word)?;
    text.number(u64::from(n))
}

/// Appends the options of a flow request.
#[tactic(auto, unfolding(crate::specs::Printed::want_fields))]
fn options(text: &mut Text, want: &Want) -> Result<(), Memory>
    ensures { Adds result text.old text.new (spaced (want_fields want.now)) }
{
    flag(text, b"ordered", want.ordered)?;
    flag(text, b"reliable", want.reliable)?;
    setting(text, b"within=", u32::MAX, want.within)?;
    setting(text, b"size=", 0, want.size)
}

/// Appends the name of an object, where there is one.
#[tactic(auto, unfolding(crate::specs::Printed::path_fields))]
fn path_if_any(text: &mut Text, path: &Option<ObjectName>) -> Result<(), Memory>
    ensures { Adds result text.old text.new (spaced (path_fields path.now)) }
{
    match path {
        None => Ok(()),
        Some(path) => text.field(path.as_bytes()),
    }
}

/// The word of an event.
#[tactic(auto, unfolding(crate::specs::Printed::event_word))]
fn word(event: &Event) -> &'static [u8]
    ensures { result.now ≡ event_word event.now }
{
    match event {
        Event::Register { .. } => b"register",
        Event::Unregister { .. } => b"unregister",
        Event::Alloc { .. } => b"alloc",
        Event::Accept { .. } => b"accept",
        Event::Send { .. } => b"send",
        Event::Read { .. } => b"read",
        Event::State { .. } => b"state",
        Event::Free { .. } => b"free",
        Event::Tick { .. } => b"tick",
        Event::Lose { .. } => b"lose",
        Event::Repeat { .. } => b"repeat",
        Event::Hold { .. } => b"hold",
        Event::Cut { .. } => b"cut",
        Event::Mend { .. } => b"mend",
        Event::Publish { .. } => b"publish",
        Event::Enrol { .. } => b"enrol",
        Event::Member { .. } => b"member",
        Event::In { .. } => b"in",
        Event::Out { .. } => b"out",
        Event::Clock { .. } => b"clock",
        Event::Round => b"round",
        Event::Retire { .. } => b"retire",
        Event::Cdap { .. } => b"cdap",
        Event::Rib { .. } => b"rib",
        Event::Ledger { .. } => b"ledger",
        Event::Journal { .. } => b"journal",
    }
}

/// Appends the fields of an event about an IPC process of a DIF.
#[tactic(auto, unfolding(crate::specs::Printed::event_fields))]
fn dif_fields(text: &mut Text, event: &Event) -> Result<(), Memory>
    requires { is_dif_word event.now ≡ true }
    ensures { Adds result text.old text.new (spaced (event_fields event.now)) }
{
    match event {
        Event::Publish { dif, node, fac } => ipc_over(text, dif, node, fac),
        Event::Enrol {
            dif,
            node,
            fac,
            peer,
        } => {
            ipc_over(text, dif, node, fac)?;
            text.field(peer.as_bytes())
        }
        Event::In { dif, node, link } | Event::Out { dif, node, link } => {
            ipc_at(text, dif, node)?;
            text.number_field(u64::from(*link))
        }
        Event::Member { dif, node } | Event::Clock { dif, node } | Event::Ledger { dif, node } =>
            ipc_at(text, dif, node),
        Event::Cdap { dif, node, bytes } => {
            ipc_at(text, dif, node)?;
            text.bytes_field(bytes.as_slice())
        }
        Event::Rib { dif, node, path } => {
            ipc_at(text, dif, node)?;
            path_if_any(text, path)
        }
        _ => unreachable!(),
    }
}

/// Appends the fields of an event that names no application.
#[tactic(auto, unfolding(crate::specs::Printed::event_fields))]
fn few_fields(text: &mut Text, event: &Event) -> Result<(), Memory>
    requires { names_no_app event.now ≡ true }
    ensures { Adds result text.old text.new (spaced (event_fields event.now)) }
{
    match event {
        Event::Send { label, bytes } => {
            text.field(label.as_bytes())?;
            text.bytes_field(bytes.as_slice())
        }
        Event::Read { label } | Event::State { label } | Event::Free { label } => text.field(
            label.as_bytes(),
        ),
        Event::Tick { count } => text.number_field(u64::from(*count)),
        Event::Lose { wire, frame } => {
            text.field(wire.as_bytes())?;
            text.number_field(u64::from(*frame))
        }
        Event::Repeat { wire, frame, at } | Event::Hold { wire, frame, at } => frame_at(
            text,
            wire.as_bytes(),
            *frame,
            *at,
        ),
        Event::Cut { wire } | Event::Mend { wire } => text.field(wire.as_bytes()),
        Event::Round => Ok(()),
        Event::Retire { policy } => text.field(policy.as_bytes()),
        Event::Journal { fac } => text.field(fac.as_bytes()),
        _ => dif_fields(text, event),
    }
}

/// Appends the fields of an event.
#[tactic(auto, unfolding(crate::specs::Printed::event_fields))]
fn fields(text: &mut Text, event: &Event) -> Result<(), Memory>
    ensures { Adds result text.old text.new (spaced (event_fields event.now)) }
{
    match event {
        Event::Register { fac, node, app } => app_at(text, fac, node, app),
        Event::Unregister { fac, node, app } => app_at(text, fac, node, app),
        Event::Alloc {
            label,
            fac,
            node,
            app,
            to,
            want,
        } => {
            text.field(label.as_bytes())?;
            app_at(text, fac, node, app)?;
            text.field(to.as_bytes())?;
            options(text, want)
        }
        Event::Accept {
            label,
            fac,
            node,
            app,
        } => {
            text.field(label.as_bytes())?;
            app_at(text, fac, node, app)
        }
        _ => few_fields(text, event),
    }
}

/// Prints the line of an event, with single spaces and without the end of the line. Bytes are printed
/// as `Text::spell` does; an option that has its default is left out. Fails once an allocation fails.
pub fn print_line(alloc: Global, e: &Event) -> Result<Vec<u8>, Memory>
    ensures { IfOk result (λ text. text.items ≡ line_text e.now) }
{
    let mut text = Text::new(alloc);
    text.add(word(e))?;
    fields(&mut text, e)?;
    Ok(text.into_vec())
}
