//! The end that joins.
ghost use Rattle.std.specs.Prelude.{◌≡◌, Ok};
ghost use Rattle.rina_enrol.specs.Machines.{new_joiner, joiner_does, joiner_after};

use crate::event::{EnrolDo, EnrolEvent};
use rina_base::Memory;
use std::alloc::Global;

/// The end of an enrolment that joins. It has sent CONNECT.
#[derive(Clone, Copy, Debug, PartialEq, Eq)]
pub struct Joiner {
    /// Whether its link is lost.
    pub lost: bool,
    /// Whether it has handled STOP.
    pub enrolled: bool,
}

impl Joiner {
    /// A joiner that waits for CONNECT_R.
    pub fn new() -> Joiner
        ensures { result ≡ new_joiner }
    {
        Joiner {
            lost: false,
            enrolled: false,
        }
    }

    /// What an event calls for.
    fn answer(&self, event: EnrolEvent) -> EnrolDo
        ensures { result ≡ joiner_does self.now event }
    {
        if self.lost {
            return EnrolDo::Nothing;
        }
        match event {
            EnrolEvent::ConnectR { denied: None } => EnrolDo::Start,
            EnrolEvent::Stop => EnrolDo::StopR,
            _ => EnrolDo::Nothing,
        }
    }

    /// Changes the state as an event says.
    fn advance(&mut self, event: EnrolEvent)
        ensures { self.new ≡ joiner_after self.old event }
    {
        match event {
            EnrolEvent::LinkLost => self.lost = true,
            EnrolEvent::Stop => self.enrolled = self.enrolled || !self.lost,
            _ => {}
        }
    }

    /// Handles an event: START answers that it is allowed, and STOP_R with its items answers STOP, by which it
    /// is enrolled. Takes no memory.
    pub fn step(&mut self, _alloc: Global, event: EnrolEvent) -> Result<EnrolDo, Memory>
        ensures does { result ≡ Ok (joiner_does self.old event) }
        ensures after { self.new ≡ joiner_after self.old event }
    {
        let does = self.answer(event);
        self.advance(event);
        Ok(does)
    }
}
