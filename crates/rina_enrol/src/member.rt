//! The end that is joined.
ghost use Rattle.std.specs.Prelude.{◌≡◌, Ok};
ghost use Rattle.rina_enrol.specs.Machines.{new_member, member_does, member_after};

use crate::event::{EnrolDo, EnrolEvent};
use rina_base::Memory;
use std::alloc::Global;

/// The end of an enrolment that is joined.
#[derive(Clone, Copy, Debug, PartialEq, Eq)]
pub struct Member {
    /// Whether its link is lost.
    pub lost: bool,
    /// Whether it has allowed the joiner.
    pub allowed: bool,
}

impl Member {
    /// A member that waits for CONNECT.
    pub fn new() -> Member
        ensures { result ≡ new_member }
    {
        Member {
            lost: false,
            allowed: false,
        }
    }

    /// What an event calls for.
    fn answer(&self, event: EnrolEvent) -> EnrolDo
        ensures { result ≡ member_does self.now event }
    {
        if self.lost {
            return EnrolDo::Nothing;
        }
        match event {
            EnrolEvent::Connect { denied } => EnrolDo::ConnectR { denied },
            EnrolEvent::Start if self.allowed => EnrolDo::StartR,
            _ => EnrolDo::Nothing,
        }
    }

    /// Changes the state as an event says.
    fn advance(&mut self, event: EnrolEvent)
        ensures { self.new ≡ member_after self.old event }
    {
        match event {
            EnrolEvent::LinkLost => self.lost = true,
            EnrolEvent::Connect { denied: None } => self.allowed = self.allowed || !self.lost,
            _ => {}
        }
    }

    /// Handles an event: CONNECT_R tells whether the joiner is allowed, and START_R with the items and STOP
    /// answers START of one that is. Takes no memory.
    pub fn step(&mut self, _alloc: Global, event: EnrolEvent) -> Result<EnrolDo, Memory>
        ensures does { result ≡ Ok (member_does self.old event) }
        ensures after { self.new ≡ member_after self.old event }
    {
        let does = self.answer(event);
        self.advance(event);
        Ok(does)
    }
}
