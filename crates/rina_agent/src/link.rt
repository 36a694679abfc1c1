//! The links of a member, as its management knows them.
ghost use Rattle.std.specs.Prelude.{◌≡◌, ◌<◌, length, slice_set, ℕ, ◌∷◌, ◌++◌, [], None, Some, MatchOption, IfOk, IfSome, OnOk};
ghost use Rattle.rina_agent.specs.Enrolments.{heard_on, is_numbered, place_of, hears};
ghost use Rattle.rina_agent.specs.Rows.{up_link};

use crate::enrolment::Enrolment;
use crate::vectors::swap;
use rina_base::{Addr, Memory, Seq};
use rina_enrol::{EnrolDo, EnrolEvent, LinkMessage};
use std::alloc::Global;

/// A live link of a member.
#[derive(Drop)]
pub struct Link {
    /// Its number at this member.
    pub number: u16,
    /// The address of the neighbour at the other end, where it is known.
    pub peer: Option<Addr>,
    /// What the link weighs in link states, 1 to 65,535.
    pub weight: u16,
    /// Whether items are flooded on it, and link states name it.
    pub up: bool,
    /// This end of the enrolment that made the link; None for a link of the static start.
    pub enrolment: Option<Enrolment>,
}

/// A link after a message on it, and what its enrolment answers.
#[derive(Drop)]
pub(crate) struct Heard {
    /// The place of the link among the live ones.
    pub at: usize,
    /// The link after the message.
    pub link: Link,
    /// What the machine of its enrolment answers.
    pub does: EnrolDo,
}

impl Heard {
    /// The number of the link.
    pub(crate) fn number(&self) -> u16
        ensures { result ≡ self.now.link.number }
    {
        self.link.number
    }

    /// From now on the link is up.
    pub(crate) fn raise(&mut self, peer: Option<Addr>)
        ensures { self.new ≡ record self.old { link = up_link peer self.old.link } }
    {
        self.link.peer = peer;
        self.link.up = true;
    }

    /// What the machine of its enrolment answers.
    pub(crate) fn answer(&self) -> EnrolDo
        ensures { result ≡ self.now.does }
    {
        self.does
    }
}

/// A copy of an enrolment, where there is one.
fn enrolment_copy(enrolment: &Option<Enrolment>, alloc: Global) -> Result<Option<Enrolment>, Memory>
    ensures { IfOk result (λ e. e ≡ enrolment.now) }
{
    match enrolment {
        Some(enrolment) => Ok(Some(enrolment.copy(alloc)?)),
        None => Ok(None),
    }
}

impl Link {
    /// A copy.
    pub fn copy(&self, alloc: Global) -> Result<Link, Memory>
        ensures { IfOk result (λ link. link ≡ self.now) }
    {
        let enrolment = enrolment_copy(&self.enrolment, alloc)?;
        Ok(Link {
            number: self.number,
            peer: self.peer,
            weight: self.weight,
            up: self.up,
            enrolment,
        })
    }

    /// Lets the enrolment that made the link handle a message with the replies to it, and tells what its machine answers.
    /// None where no enrolment made the link, or its session refuses the message or a reply.
    fn handle(
        &mut self,
        alloc: Global,
        m: &LinkMessage,
        replies: &[LinkMessage],
        event: EnrolEvent,
    ) -> Result<Option<EnrolDo>, Memory>
        ensures { (at : ℕ) → IfOk result (λ d. MatchOption d (heard_on at m.now replies.now event self.old ≡ None) (λ does. heard_on at m.now replies.now event self.old ≡ Some (record { at = at; link = self.new; does = does }))) }
    {
        match &mut self.enrolment {
            Some(enrolment) => enrolment.hear(alloc, m, replies, event),
            None => Ok(None),
        }
    }

    /// The link after a message and the replies to it. None where no enrolment made the link, or its session refuses
    /// the message or a reply.
    fn hear(
        &self,
        alloc: Global,
        at: usize,
        m: &LinkMessage,
        replies: &[LinkMessage],
        event: EnrolEvent,
    ) -> Result<Option<Heard>, Memory>
        ensures { IfOk result (λ h. h ≡ heard_on at m.now replies.now event self.now) }
    {
        let mut link = self.copy(alloc)?;
        match link.handle(alloc, m, replies, event)? {
            Some(does) => Ok(Some(Heard { at, link, does })),
            None => Ok(None),
        }
    }
}

/// Adds a copy of a link.
fn push_copy(alloc: Global, copied: &mut Seq<Link>, link: &Link) -> Result<(), Memory>
    ensures { OnOk result (copied.new ≡ copied.old ++ link.now ∷ []) }
{
    let link = link.copy(alloc)?;
    copied.push(link)?;
    Ok(())
}

/// Copies of links, in their order.
pub(crate) fn copies(alloc: Global, links: &[Link]) -> Result<Seq<Link>, Memory>
    ensures { IfOk result (λ copied. copied ≡ links.now) }
{
    let mut copied = Seq::new(alloc);
    for link in links {
        push_copy(alloc, &mut copied, link)?;
    }
    Ok(copied)
}

/// Whether a link has a number.
pub(crate) fn is_numbered(link: &Link, number: u16) -> bool
    ensures { result ≡ is_numbered number link.now }
{
    link.number == number
}

/// The place of the live link of a number.
pub(crate) fn place(links: &[Link], number: u16) -> Option<usize>
    ensures at { result ≡ place_of number links.now }
    ensures within { IfSome result (λ k. k < length links.now) }
{
    links.iter().position(|link| is_numbered(link, number))
}

/// The link of a number after a message and the replies to it. None where there is no such link, no
/// enrolment made it, or its session refuses the message or a reply.
pub(crate) fn hear(
    alloc: Global,
    links: &[Link],
    number: u16,
    m: &LinkMessage,
    replies: &[LinkMessage],
    event: EnrolEvent,
) -> Result<Option<Heard>, Memory>
    ensures heard { IfOk result (λ h. h ≡ hears links.now number m.now replies.now event) }
    ensures within { IfOk result (λ h. IfSome h (λ x. x.at < length links.now)) }
{
    let Some(at) = place(links, number) else {
        return Ok(None);
    };
    links[at].hear(alloc, at, m, replies, event)
}

/// The same with one reply.
pub(crate) fn hear_and_reply(
    alloc: Global,
    links: &[Link],
    number: u16,
    m: &LinkMessage,
    reply: LinkMessage,
    event: EnrolEvent,
) -> Result<Option<Heard>, Memory>
    ensures heard { IfOk result (λ h. h ≡ hears links.now number m.now (reply ∷ []) event) }
    ensures within { IfOk result (λ h. IfSome h (λ x. x.at < length links.now)) }
{
    let replies = [reply];
    hear(alloc, links, number, m, &replies, event)
}

/// Swaps the link that heard a message with the one in its place. Takes no memory.
pub(crate) fn swap_in(alloc: Global, links: &mut Seq<Link>, heard: &mut Heard)
    requires { heard.old.at < length links.old }
    ensures set { links.new ≡ slice_set links.old heard.old.at heard.old.link }
    ensures at { heard.new.at ≡ heard.old.at }
    ensures back { slice_set links.new heard.new.at heard.new.link ≡ links.old }
{
    let mut all = std::mem::replace(links, Seq::new(alloc)).into_vec();
    swap(&mut all, heard.at, &mut heard.link);
    *links = Seq::from_vec(all);
}
