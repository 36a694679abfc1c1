//! What a member sends over its links: the bytes of the messages that wait for them.
ghost use Rattle.std.specs.Prelude.{◌≡◌, ◌≤◌, length, Err, Ok, IfErr, IfOk, IfSome, MatchResult};
ghost use Rattle.rina_cdap.specs.declared.error.CdapError.TheVariants as errors;
ghost use Rattle.rina_agent.specs.Agenda.{first_on};
ghost use Rattle.rina_member.specs.Managements.{IsNextSdu, IsSduOf, with_sent};
ghost use Rattle.rina_member.specs.Short.{AreShort, IsShort};

use crate::management::Management;
use crate::ranges::in_range;
use rina_agent::ManagementMessage;
use rina_base::Memory;
use rina_cdap::CdapError;
use std::alloc::Global;

/// What was written, where nothing but memory may be missing.
fn unless_memory(written: Result<Vec<u8>, CdapError>) -> Result<Vec<u8>, Memory>
    requires { IfErr written (λ e. e ≡ errors.Memory) }
    ensures { MatchResult result (λ bytes. written ≡ Ok bytes) (λ _. written ≡ Err errors.Memory) }
{
    match written {
        Ok(bytes) => Ok(bytes),
        Err(CdapError::Memory) => Err(Memory),
        Err(_) => unreachable!(),
    }
}

/// The bytes of a message.
fn text_of(alloc: Global, message: &ManagementMessage) -> Result<Vec<u8>, Memory>
    requires { IsShort message.now }
    ensures { IfOk result (λ bytes. IsSduOf message.now bytes.items) }
{
    match message {
        ManagementMessage::ToNeighbour(message) => {
            in_range(message);
            unless_memory(rina_enrol::write(alloc, message))
        }
        ManagementMessage::ToMember(message) => unless_memory(rina_alloc::write(alloc, message)),
    }
}

impl Management {
    /// The SDU that is to be sent next over a link: the bytes of the first message that waits for it. None exactly where none
    /// waits.
    #[tactic(auto, using(crate::proofs::Shortness::first_short, crate::proofs::Shortness::text_short))]
    pub fn next_sdu(&self, alloc: Global, link: u16) -> Result<Option<Vec<u8>>, Memory>
        requires { AreShort self.now.agent.agenda }
        ensures next { IfOk result (λ sdu. IsNextSdu (first_on link self.now.agent.agenda) sdu) }
        // It is an SDU of a management connection.
        ensures short { IfOk result (λ sdu. IfSome sdu (λ bytes. length bytes.items ≤ 325)) }
    {
        let Some(waiting) = self.agent.next_message(link) else {
            return Ok(None);
        };
        Ok(Some(text_of(alloc, &waiting.message)?))
    }

    /// Takes the first message of a link away, which was sent. Takes no memory.
    pub fn sent(&mut self, link: u16)
        ensures { self.new ≡ with_sent self.old link }
    {
        self.agent.take_message(link);
    }
}
