//! How a member handles the SDUs that come on its links.
ghost use Rattle.std.specs.Prelude.{◌≡◌, OnOk};
ghost use Rattle.rina_agent.specs.Neighbours.{link_key, member_key};
ghost use Rattle.rina_member.specs.Managements.{HandlesMessage, HandlesSdu, all_live, is_news, keys_brought, keys_made, with_live, with_objects};

use crate::management::Management;
use crate::objects::{show_live, state_key};
use crate::ranges::in_range;
use rina_agent::{Agent, AgentError, numbered};
use rina_base::{Memory, Tick};
use rina_enrol::LinkMessage;
use rina_newest::Newest;
use rina_rib::Rib;
use std::alloc::Global;

/// Whether a message is news: an item that is not newer than what is kept under its key is none.
fn is_news(items: &Newest, message: &LinkMessage) -> bool
    ensures { result ≡ is_news items.now message.now }
{
    match message {
        LinkMessage::Item { item } | LinkMessage::Flood { item } => {
            items.is_newer(item.key.as_slice(), item.version)
        }
        _ => true,
    }
}

/// Lets the object of the own member item show what is live. Without memory nothing changes.
fn show_member(alloc: Global, objects: &mut Rib, agent: &Agent) -> Result<(), Memory>
    ensures { OnOk result (objects.new ≡ with_live objects.old agent.now.items (member_key agent.now.address)) }
{
    let key = numbered(alloc, b"/member/", u64::from(agent.address))?;
    show_live(alloc, objects, &agent.items, key.as_slice())
}

/// Lets the object of the own link state show what is live.
fn show_link_state(alloc: Global, objects: &mut Rib, agent: &Agent) -> Result<(), Memory>
    ensures { OnOk result (objects.new ≡ with_live objects.old agent.now.items (link_key agent.now.address)) }
{
    let key = state_key(alloc, agent.address)?;
    show_live(alloc, objects, &agent.items, key.as_slice())
}

/// Lets the objects of the own items that a step made show what is live.
fn show_made(alloc: Global, objects: &mut Rib, agent: &Agent, made: u32) -> Result<(), Memory>
    ensures { OnOk result (objects.new ≡ all_live objects.old agent.now.items (keys_made agent.now.address made)) }
{
    if made == 0 {
        return Ok(());
    }
    if made > 1 {
        show_member(alloc, objects, agent)?;
    }
    show_link_state(alloc, objects, agent)
}

/// Lets the objects of the items that a message brought show what is live. The last version count of the member was this one
/// before the message.
fn show_brought(
    alloc: Global,
    management: &mut Management,
    last_count: u32,
    message: &LinkMessage,
) -> Result<(), Memory>
    ensures { OnOk result (management.new ≡ with_objects management.old (all_live management.old.objects management.old.agent.items (keys_brought last_count management.old.agent message.now))) }
{
    match message {
        LinkMessage::Item { item } | LinkMessage::Flood { item } => {
            let key = item.key.as_slice();
            show_live(alloc, &mut management.objects, &management.agent.items, key)
        }
        _ => {
            let made = management.agent.last_count.saturating_sub(last_count);
            show_made(alloc, &mut management.objects, &management.agent, made)
        }
    }
}

/// The management of a member after a message came on one of its links at a tick.
fn after_message(
    alloc: Global,
    management: &Management,
    now: Tick,
    link: u16,
    message: &LinkMessage,
) -> Result<Management, AgentError>
    ensures { HandlesMessage now link message.now management.now result }
{
    let mut after = management.copy(alloc)?;
    after.agent.handle(alloc, now, link, message)?;
    show_brought(alloc, &mut after, management.agent.last_count, message)?;
    Ok(after)
}

/// The management of a member after an SDU came on one of its links at a tick. None where the SDU changes nothing: it is no
/// message of a neighbour, or an item that is not newer than what is kept under its key. A message about a flow is none of a
/// neighbour. `CountSpent` tells that the message takes more version counts or invoke ids than are left. The management
/// that is given stays as it is.
pub fn after_sdu(
    alloc: Global,
    management: &Management,
    now: Tick,
    link: u16,
    sdu: &[u8],
) -> Result<Option<Management>, AgentError>
    ensures { HandlesSdu now link sdu.now management.now result }
{
    let Some(message) = rina_enrol::read(alloc, sdu)? else {
        return Ok(None);
    };
    in_range(&message);
    if !is_news(&management.agent.items, &message) {
        return Ok(None);
    }
    let after = after_message(alloc, management, now, link, &message)?;
    Ok(Some(after))
}
