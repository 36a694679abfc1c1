//! Reading words that have the same fields as others.
ghost use Rattle.std.specs.Prelude.{◌≡◌, IfErr, IsOk};
ghost use Rattle.rina_schedule.specs.Gives.{Gives};
ghost use Rattle.rina_schedule.specs.Fields.{field_at};
ghost use Rattle.rina_schedule.specs.Alike.{app_event, app_word_at, name_event, name_word_at, frame_event, frame_word_at, link_event, link_word_at};

use crate::error::LineError;
use crate::event::Event;
use crate::field::name;
use crate::words::last::{last_name, last_number, last_numbers};
use crate::words::place::{AppPlace, Place, last_app_place, read_place};
use rina_base::{Name, Tick};
use std::alloc::Global;

/// The words with one field, a name.
#[derive(Clone, Copy)]
pub(crate) enum NameWord {
    Read,
    State,
    Free,
    Cut,
    Mend,
    Retire,
    Journal,
}

impl NameWord {
    fn event(self, name: Name) -> Event
        ensures { result ≡ name_event self name }
    {
        match self {
            NameWord::Read => Event::Read { label: name },
            NameWord::State => Event::State { label: name },
            NameWord::Free => Event::Free { label: name },
            NameWord::Cut => Event::Cut { wire: name },
            NameWord::Mend => Event::Mend { wire: name },
            NameWord::Retire => Event::Retire { policy: name },
            NameWord::Journal => Event::Journal { fac: name },
        }
    }
}

/// Reads the field behind a word with one name.
#[tactic(auto, using(crate::proofs::Shared::name_word_parts))]
pub(crate) fn named(word: NameWord, alloc: Global, text: &[u8]) -> Result<Event, LineError>
    ensures read { Gives (λ x. x) result (name_word_at word text.now) }
    ensures memory { IfErr result (λ e. e ≡ LineError.Memory → IsOk (field_at 1 text.now)) }
{
    let name = last_name(alloc, 1, text)?;
    Ok(word.event(name))
}

/// The words about a frame and a tick.
#[derive(Clone, Copy)]
pub(crate) enum FrameWord {
    Repeat,
    Hold,
}

impl FrameWord {
    fn event(self, wire: Name, frame: u32, at: Tick) -> Event
        ensures { result ≡ frame_event self wire frame at }
    {
        match self {
            FrameWord::Repeat => Event::Repeat { wire, frame, at },
            FrameWord::Hold => Event::Hold { wire, frame, at },
        }
    }
}

/// Reads the fields behind a word about a frame and a tick.
#[tactic(auto, using(crate::proofs::Shared::frame_word_parts))]
pub(crate) fn framed(word: FrameWord, alloc: Global, text: &[u8]) -> Result<Event, LineError>
    ensures read { Gives (λ x. x) result (frame_word_at word text.now) }
    ensures memory { IfErr result (λ e. e ≡ LineError.Memory → IsOk (field_at 1 text.now)) }
{
    let (wire, text) = name(alloc, 1, text)?;
    let (frame, at) = last_numbers(2, text)?;
    Ok(word.event(wire, frame, at))
}

/// The words for one step at a link.
#[derive(Clone, Copy)]
pub(crate) enum LinkWord {
    In,
    Out,
}

impl LinkWord {
    fn event(self, at: Place, link: u32) -> Event
        ensures { result ≡ link_event self at link }
    {
        match self {
            LinkWord::In => Event::In {
                dif: at.fac,
                node: at.node,
                link,
            },
            LinkWord::Out => Event::Out {
                dif: at.fac,
                node: at.node,
                link,
            },
        }
    }
}

/// Reads the fields behind a word for one step at a link.
#[tactic(auto, using(crate::proofs::Shared::link_word_parts))]
pub(crate) fn at_link(word: LinkWord, alloc: Global, text: &[u8]) -> Result<Event, LineError>
    ensures read { Gives (λ x. x) result (link_word_at word text.now) }
    ensures memory { IfErr result (λ e. e ≡ LineError.Memory → IsOk (field_at 1 text.now)) }
{
    let (at, text) = read_place(alloc, 1, text)?;
    let link = last_number(3, text)?;
    Ok(word.event(at, link))
}

/// The words about an application at a node.
#[derive(Clone, Copy)]
pub(crate) enum AppWord {
    Register,
    Unregister,
}

impl AppWord {
    fn event(self, place: AppPlace) -> Event
        ensures { result ≡ app_event self place }
    {
        match self {
            AppWord::Register => Event::Register {
                fac: place.at.fac,
                node: place.at.node,
                app: place.app,
            },
            AppWord::Unregister => Event::Unregister {
                fac: place.at.fac,
                node: place.at.node,
                app: place.app,
            },
        }
    }
}

/// Reads the fields behind a word about an application at a node.
#[tactic(auto, using(crate::proofs::Shared::app_word_parts))]
pub(crate) fn at_node(word: AppWord, alloc: Global, text: &[u8]) -> Result<Event, LineError>
    ensures read { Gives (λ x. x) result (app_word_at word text.now) }
    ensures memory { IfErr result (λ e. e ≡ LineError.Memory → IsOk (field_at 1 text.now)) }
{
    let place = last_app_place(alloc, 1, text)?;
    Ok(word.event(place))
}
