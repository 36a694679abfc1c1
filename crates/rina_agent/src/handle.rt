//! Messages of neighbours.
ghost use Rattle.rina_agent.specs.Rows.{DoesOrKeeps, handled};

use crate::agent::Agent;
use crate::state::AgentError;
use rina_base::Tick;
use rina_enrol::{EnrolEvent, LinkMessage};
use std::alloc::Global;

impl Agent {
    /// Handles a message that came on a link at a tick. A message of an enrolment passes the session of its link; where that
    /// refuses it, or no enrolment made the link, nothing changes. Refused with `CountSpent` where it takes more version
    /// counts or invoke ids than are left, version counts first. Where memory runs out in a step that handles STOP, the member
    /// item may be kept already; nothing else changes.
    pub fn handle(
        &mut self,
        alloc: Global,
        now: Tick,
        link: u16,
        message: &LinkMessage,
    ) -> Result<(), AgentError>
        ensures { DoesOrKeeps result self.old self.new (handled self.old now link message.now) }
    {
        match message {
            LinkMessage::Connect { invoke, joiner, .. } => {
                self.on_connect(alloc, link, message, *invoke, joiner)?;
                Ok(())
            }
            LinkMessage::ConnectR { denied: None, .. } => self.on_allowed(alloc, link, message),
            LinkMessage::ConnectR {
                denied: Some(rule),
                ..
            } => {
                self.on_denied(alloc, link, message, *rule)?;
                Ok(())
            }
            LinkMessage::Start { invoke, address } => {
                self.on_start(alloc, now, link, message, *invoke, *address)
            }
            LinkMessage::StartR { .. } => {
                self.on_end(alloc, link, message, EnrolEvent::StartR)?;
                Ok(())
            }
            LinkMessage::Stop { invoke } => self.on_stop(alloc, now, link, message, *invoke),
            LinkMessage::StopR { .. } => {
                self.on_end(alloc, link, message, EnrolEvent::StopR)?;
                Ok(())
            }
            LinkMessage::Item { item } | LinkMessage::Flood { item } => {
                self.take_item(alloc, link, item)?;
                Ok(())
            }
        }
    }
}
