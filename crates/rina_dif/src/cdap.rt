//! CDAP messages to the IPC processes of a DIF.
ghost use Rattle.std.specs.Prelude.{◌≡◌, ◌<◌, ◌↔◌, true, Err, length, IfOk, OnErr};
ghost use Rattle.rina_dif.specs.declared.cdap.CdapCallError.TheVariants.{Memory as MemoryWanted};
ghost use Rattle.rina_dif.specs.Asking.{Asks, IsAnswer, KeepsAll, answer_of, is_done, shown_after};
ghost use Rattle.rina_dif.specs.Facade.{GoesOn, StaysStanding};
ghost use Rattle.rina_dif.specs.Whole.{IsDif};

use crate::dif::Dif;
use rina_answer::answer;
use rina_base::{Memory, Node};
use rina_cdap::{CdapError, Message, read, write};
use rina_rib::Rib;
use std::alloc::Global;

/// Why bytes that were given to an IPC process were not answered.
#[derive(Clone, Copy, Debug, PartialEq, Eq)]
pub enum CdapCallError {
    /// Memory was not found.
    Memory,
    /// The DIF has no member at the node.
    NoIpc,
    /// The bytes are no message: their first fault.
    Cdap(CdapError),
}

/// Whether what was asked is done.
fn is_done(outcome: Option<u8>) -> bool
    ensures { result ≡ is_done outcome }
{
    match outcome {
        Some(code) => code == 0,
        None => false,
    }
}

impl Dif {
    /// Gives the member at a place these objects, where what was asked is done.
    fn keep(&mut self, at: usize, done: bool, objects: Rib)
        requires { at < length self.old.managements }
        ensures kept { self.new.managements ≡ shown_after done at objects self.old.managements }
        ensures same { KeepsAll self.old self.new }
        ensures failed { self.new.failed ≡ self.old.failed }
    {
        if done {
            self.managements.set_objects(at, objects);
        }
    }

    /// Answers a message as the RIB of the IPC process at a place says. The member shows what comes of it where what was
    /// asked is done.
    fn answer_at(&mut self, alloc: Global, at: usize, message: &Message) -> Result<Vec<u8>, Memory>
        requires valid { IsDif self.old }
        requires at { at < length self.old.settings.members }
        ensures does { IfOk result (λ v. IsAnswer self.old at message.now v.items self.new) }
        ensures err { OnErr result (self.new.managements ≡ self.old.managements) }
        ensures same { KeepsAll self.old self.new }
        ensures failed { self.new.failed ≡ self.old.failed }
    {
        let mut rib = self.rib_at(alloc, at)?;
        let response = answer(alloc, &mut rib, message)?;
        let Ok(bytes) = write(alloc, &response) else {
            return Err(Memory);
        };
        self.keep(at, is_done(response.result), rib);
        Ok(bytes)
    }

    /// Lets the IPC process at a node answer the message that bytes are.
    fn ask(&mut self, alloc: Global, node: Node, bytes: &[u8]) -> Result<Vec<u8>, CdapCallError>
        requires { IsDif self.old }
        ensures does { Asks self.old node bytes.now (answer_of result) self.new }
        ensures same { KeepsAll self.old self.new }
        ensures failed { self.new.failed ≡ self.old.failed }
    {
        let Some(at) = self.place_at_node(node) else {
            return Err(CdapCallError::NoIpc);
        };
        let message = match read(alloc, bytes) {
            Ok(message) => message,
            Err(CdapError::Memory) => return Err(CdapCallError::Memory),
            Err(error) => return Err(CdapCallError::Cdap(error)),
        };
        match self.answer_at(alloc, at, &message) {
            Ok(answer) => Ok(answer),
            Err(_) => Err(CdapCallError::Memory),
        }
    }

    /// Gives bytes to the IPC process at a node, which answers the message that they are as its RIB says, in bytes.
    /// Where the answer has result 0 the RIB is as the request makes it; else nothing changes.
    pub fn cdap(
        &mut self,
        alloc: Global,
        node: Node,
        bytes: &[u8],
    ) -> Result<Vec<u8>, CdapCallError>
        requires { IsDif self.old }
        ensures valid { IsDif self.new }
        ensures does { Asks self.old node bytes.now (answer_of result) self.new }
        ensures same { KeepsAll self.old self.new }
        ensures goes_on { GoesOn self.old self.new }
        ensures stands { StaysStanding self.old self.new }
        ensures settings { self.new.settings ≡ self.old.settings }
        ensures failed { self.old.failed ≡ true → result ≡ Err MemoryWanted }
        ensures fails { self.new.failed ≡ true ↔ (result ≡ Err MemoryWanted) }
    {
        if self.failed {
            return Err(CdapCallError::Memory);
        }
        let result = self.ask(alloc, node, bytes);
        self.failed = matches!(result, Err(CdapCallError::Memory));
        result
    }
}
