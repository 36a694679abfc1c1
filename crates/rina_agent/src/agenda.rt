//! The agenda of a member: the messages that wait for its links.
ghost use Rattle.std.specs.Prelude.{◌≡◌, ◌<◌, ◌++◌, ◌∷◌, [], length, position, take, option_copied, IfOk, IfSome, OnOk, OnErr};
ghost use Rattle.rina_agent.specs.Agenda.{waits_on, first_on, without_first, without_link};

use crate::message::{ManagementMessage, Waiting};
use crate::vectors::{push, remove};
use rina_base::Memory;
use std::alloc::Global;
use std::marker::Model;

/// The messages that wait for the links of a member; those of each link, first in, first out. A contract sees the list of
/// all of them in the order in which they were put.
#[derive(Drop)]
pub struct Agenda {
    waiting: Vec<Waiting>,
}

impl Model for Agenda {
    ghost use Rattle.std.specs.Prelude.{List};
    ghost use Rattle.rina_agent.specs.declared.message.Waiting.{Waiting};

    ghost Value = { List Waiting };

    ghost view = { λ a. a.waiting.items };
}

/// Whether a message waits for a link.
fn waits_on(waiting: &Waiting, link: u16) -> bool
    ensures { result ≡ waits_on link waiting.now }
{
    waiting.link == link
}

/// The place of the first message that waits for a link.
fn place(waiting: &[Waiting], link: u16) -> Option<usize>
    ensures at { result ≡ position (waits_on link) waiting.now }
    ensures within { IfSome result (λ k. k < length waiting.now) }
{
    waiting.iter().position(|w| waits_on(w, link))
}

/// Keeps the messages that do not wait for a link.
fn keep_others(waiting: &mut Vec<Waiting>, link: u16)
    ensures { waiting.new.items ≡ without_link link waiting.old.items }
{
    waiting.retain(|w| w.link != link);
}

/// Adds a copy of a message.
fn push_copy(alloc: Global, copied: &mut Vec<Waiting>, w: &Waiting) -> Result<(), Memory>
    ensures { OnOk result (copied.new.items ≡ copied.old.items ++ w.now ∷ []) }
{
    let w = w.copy(alloc)?;
    push(copied, w)
}

/// Copies of messages, in their order.
fn copies(alloc: Global, waiting: &[Waiting]) -> Result<Vec<Waiting>, Memory>
    ensures { IfOk result (λ copied. copied.items ≡ waiting.now) }
{
    let mut copied = Vec::new(alloc);
    for w in waiting {
        push_copy(alloc, &mut copied, w)?;
    }
    Ok(copied)
}

impl Agenda {
    /// No messages.
    pub fn new(alloc: Global) -> Agenda
        ensures { result ≡ [] }
    {
        Agenda {
            waiting: Vec::new(alloc),
        }
    }

    /// A copy: the same messages in their order.
    pub fn copy(&self, alloc: Global) -> Result<Agenda, Memory>
        ensures { IfOk result (λ a. a ≡ self.now) }
    {
        let waiting = copies(alloc, self.waiting.as_slice())?;
        Ok(Agenda { waiting })
    }

    /// How many messages wait.
    pub fn len(&self) -> usize
        ensures { result ≡ length self.now }
    {
        self.waiting.len()
    }

    /// The first message that waits for a link. Takes no memory.
    pub fn first(&self, link: u16) -> Option<&Waiting>
        ensures { option_copied result ≡ first_on link self.now }
    {
        self.waiting.as_slice().iter().find(|w| waits_on(w, link))
    }

    /// Takes the first message of a link away, where one waits. Takes no memory.
    pub fn take_first(&mut self, link: u16)
        ensures { self.new ≡ without_first link self.old }
    {
        let Some(at) = place(self.waiting.as_slice(), link) else {
            return;
        };
        remove(&mut self.waiting, at);
    }

    /// Takes all messages of a link away. Takes no memory.
    pub fn drop_link(&mut self, link: u16)
        ensures { self.new ≡ without_link link self.old }
    {
        keep_others(&mut self.waiting, link);
    }

    /// Lets a message wait for a link, behind those that wait. Without memory nothing changes.
    pub(crate) fn put(&mut self, link: u16, message: ManagementMessage) -> Result<(), Memory>
        ensures ok { OnOk result (self.new ≡ self.old ++ record { link = link; message = message } ∷ []) }
        ensures err { OnErr result (self.new ≡ self.old) }
    {
        push(&mut self.waiting, Waiting { link, message })
    }

    /// Lets messages wait behind those that do. Without memory nothing changes.
    pub fn append(&mut self, mut more: Vec<Waiting>) -> Result<(), Memory>
        ensures ok { OnOk result (self.new ≡ self.old ++ more.items) }
        ensures err { OnErr result (self.new ≡ self.old) }
    {
        self.waiting.append(&mut more)?;
        Ok(())
    }

    /// Takes all messages away but the first so many. Takes no memory.
    pub fn cut(&mut self, keep: usize)
        ensures { self.new ≡ take keep self.old }
    {
        self.waiting.truncate(keep);
    }
}
