//! The end that asks.
ghost use Rattle.std.specs.Prelude.{◌≡◌, Ok};
ghost use Rattle.rina_alloc.specs.declared.event.AskEvent.TheVariants.{Answer};
ghost use Rattle.rina_alloc.specs.Machines.{new_asking, given_up, bound_by, asking_does, asking_after};

use crate::event::{AskDo, AskEvent, Pair};
use rina_base::Memory;
use std::alloc::Global;

/// The end that asked for a flow.
#[derive(Clone, Copy, Debug, PartialEq, Eq)]
pub struct Asking {
    /// Whether it waits for the answer.
    pub waits: bool,
    /// The CEP-ids, where it is bound to a far end.
    pub bound: Option<Pair>,
}

/// The flow is given up, where there is one.
pub(crate) fn give_up(bound: Option<Pair>) -> AskDo
    ensures { result ≡ given_up bound }
{
    match bound {
        Some(Pair { far, own }) => AskDo::Delete {
            dcep: far,
            scep: own,
        },
        None => AskDo::Nothing,
    }
}

/// Only an answer of result 0 binds.
#[tactic(auto, using(crate::proofs::Binding::not_yes))]
fn bound_by(code: u8, pair: Pair) -> Option<Pair>
    ensures { result ≡ bound_by code pair.far pair.own }
{
    if code == 0 { Some(pair) } else { None }
}

impl Asking {
    /// An ask that waits for its answer.
    pub fn new() -> Asking
        ensures { result ≡ new_asking }
    {
        Asking {
            waits: true,
            bound: None,
        }
    }

    /// What an event calls for.
    fn answer(&self, event: AskEvent) -> AskDo
        ensures { result ≡ asking_does self.now event }
    {
        match event {
            AskEvent::Answer {
                result: 0,
                dcep,
                number,
            } if !self.waits => AskDo::Delete { dcep, scep: number },
            AskEvent::Clock { late: true } if self.waits => AskDo::TimedOut,
            AskEvent::Ended if !self.waits => give_up(self.bound),
            _ => AskDo::Nothing,
        }
    }

    /// Ends the waiting by an answer.
    fn take_answer(&mut self, code: u8, pair: Pair)
        ensures { self.new ≡ asking_after self.old (Answer code pair.far pair.own) }
    {
        if self.waits {
            self.waits = false;
            self.bound = bound_by(code, pair);
        }
    }

    /// Changes the state as an event says.
    fn advance(&mut self, event: AskEvent)
        ensures { self.new ≡ asking_after self.old event }
    {
        match event {
            AskEvent::Answer {
                result,
                dcep,
                number,
            } => self.take_answer(
                result,
                Pair {
                    far: dcep,
                    own: number,
                },
            ),
            AskEvent::Clock { late: true } => self.waits = false,
            AskEvent::Ended => {
                self.waits = false;
                self.bound = None;
            }
            AskEvent::Delete => self.bound = None,
            _ => {}
        }
    }

    /// Handles an event. The first answer ends the waiting, and at result 0 binds the end; a later one of
    /// result 0 is given up. The clock and its own end end the waiting too. Takes no memory.
    pub fn step(&mut self, _alloc: Global, event: AskEvent) -> Result<AskDo, Memory>
        ensures does { result ≡ Ok (asking_does self.old event) }
        ensures after { self.new ≡ asking_after self.old event }
    {
        let does = self.answer(event);
        self.advance(event);
        Ok(does)
    }
}
