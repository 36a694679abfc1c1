//! The far end.
ghost use Rattle.std.specs.Prelude.{◌≡◌, Ok};
ghost use Rattle.rina_alloc.specs.Machines.{yes_or_no_ids, answer_of, bound_after, new_asked, asked_does, asked_after};

use crate::asking::give_up;
use crate::event::{AskDo, AskEvent, Pair};
use rina_base::{Cep, Memory};
use std::alloc::Global;

/// The end that is asked for a flow.
#[derive(Clone, Copy, Debug, PartialEq, Eq)]
pub struct Asked {
    /// The CEP-ids, where it is bound to the asker.
    pub bound: Option<Pair>,
}

/// Yes where an id was drawn, else that no id is free.
fn yes_or_no_ids(drawn: Option<Cep>, used: u32, scep: Cep) -> AskDo
    ensures { result ≡ yes_or_no_ids drawn used scep }
{
    match drawn {
        Some(id) => AskDo::Answer {
            result: 0,
            dcep: id,
            number: scep,
        },
        None => AskDo::Answer {
            result: 3,
            dcep: 0,
            number: used,
        },
    }
}

/// The answer to an ask: the first of these that applies. Not here, or too old (2); denied by a rule (1); no
/// id is free (3); else yes (0).
fn answer_of(
    here: bool,
    aged: bool,
    denied: Option<u32>,
    drawn: Option<Cep>,
    used: u32,
    scep: Cep,
) -> AskDo
    ensures { result ≡ answer_of here aged denied drawn used scep }
{
    if !here || aged {
        return AskDo::Answer {
            result: 2,
            dcep: 0,
            number: 0,
        };
    }
    match denied {
        Some(rule) => AskDo::Answer {
            result: 1,
            dcep: 0,
            number: rule,
        },
        None => yes_or_no_ids(drawn, used, scep),
    }
}

/// The CEP-ids that an answer of result 0 binds, else those that were bound before.
fn bound_after(answer: AskDo, bound: Option<Pair>) -> Option<Pair>
    ensures { result ≡ bound_after answer bound }
{
    match answer {
        AskDo::Answer {
            result: 0,
            dcep,
            number,
        } => Some(Pair {
            far: number,
            own: dcep,
        }),
        _ => bound,
    }
}

impl Asked {
    /// An end that was not asked yet.
    pub fn new() -> Asked
        ensures { result ≡ new_asked }
    {
        Asked { bound: None }
    }

    /// What an event calls for.
    fn answer(&self, event: AskEvent) -> AskDo
        ensures { result ≡ asked_does self.now event }
    {
        match event {
            AskEvent::Ask {
                here,
                aged,
                denied,
                drawn,
                used,
                scep,
            } => answer_of(here, aged, denied, drawn, used, scep),
            AskEvent::Ended => give_up(self.bound),
            _ => AskDo::Nothing,
        }
    }

    /// Changes the state as an event says.
    fn advance(&mut self, event: AskEvent, does: AskDo)
        requires { does ≡ asked_does self.old event }
        ensures { self.new ≡ asked_after self.old event }
    {
        match event {
            AskEvent::Ask { .. } => self.bound = bound_after(does, self.bound),
            AskEvent::Ended | AskEvent::Delete => self.bound = None,
            _ => {}
        }
    }

    /// Handles an event: an ask is always answered, and at result 0 the end is bound until it ends or the
    /// asker gives the flow up. Takes no memory.
    pub fn step(&mut self, _alloc: Global, event: AskEvent) -> Result<AskDo, Memory>
        ensures does { result ≡ Ok (asked_does self.old event) }
        ensures after { self.new ≡ asked_after self.old event }
    {
        let does = self.answer(event);
        self.advance(event, does);
        Ok(does)
    }
}
