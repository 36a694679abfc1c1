//! Messages to neighbours: one by one, all items on one link, and one item on all links.
ghost use Rattle.std.specs.Prelude.{◌≡◌, [], ◌++◌, ◌∷◌, map, IfOk, OnOk};
ghost use Rattle.rina_agent.specs.Agenda.{near, item_on, flood_on, floods, is_flooded};

use crate::link::Link;
use crate::message::{ManagementMessage, Waiting};
use crate::vectors::push;
use rina_base::Memory;
use rina_enrol::LinkMessage;
use rina_newest::{Item, Newest};
use std::alloc::Global;

/// Whether items are flooded on a link, where one is left out.
pub(crate) fn is_flooded(link: &Link, out: Option<u16>) -> bool
    ensures { result ≡ is_flooded out link.now }
{
    if !link.up {
        return false;
    }
    match out {
        None => true,
        Some(out) => out != link.number,
    }
}

/// Adds a message to a neighbour.
pub(crate) fn push_near(
    added: &mut Vec<Waiting>,
    link: u16,
    message: LinkMessage,
) -> Result<(), Memory>
    ensures { OnOk result (added.new.items ≡ added.old.items ++ near link message ∷ []) }
{
    let message = ManagementMessage::ToNeighbour(message);
    push(added, Waiting { link, message })
}

/// Adds a message for each of some items.
fn push_all(added: &mut Vec<Waiting>, link: u16, items: Vec<Item>) -> Result<(), Memory>
    ensures { OnOk result (added.new.items ≡ added.old.items ++ map (item_on link) items.items) }
{
    for item in items {
        push_near(added, link, LinkMessage::Item { item })?;
    }
    Ok(())
}

/// Adds a message for each item that is kept.
pub(crate) fn push_items(
    alloc: Global,
    added: &mut Vec<Waiting>,
    link: u16,
    items: &Newest,
) -> Result<(), Memory>
    ensures { OnOk result (added.new.items ≡ added.old.items ++ map (item_on link) items.now) }
{
    let items = items.since(alloc, 0)?;
    push_all(added, link, items.into_vec())
}

/// Adds the flood of an item on a link.
fn push_flood(
    alloc: Global,
    added: &mut Vec<Waiting>,
    item: &Item,
    link: &Link,
) -> Result<(), Memory>
    ensures { OnOk result (added.new.items ≡ added.old.items ++ flood_on item.now link.now ∷ []) }
{
    let item = item.copy(alloc)?;
    push_near(added, link.number, LinkMessage::Flood { item })
}

/// Adds the floods of an item: one on each link that is up, but the one that is left out.
pub(crate) fn push_floods(
    alloc: Global,
    added: &mut Vec<Waiting>,
    out: Option<u16>,
    item: &Item,
    links: &[Link],
) -> Result<(), Memory>
    ensures { OnOk result (added.new.items ≡ added.old.items ++ floods out item.now links.now) }
{
    for link in links {
        if is_flooded(link, out) {
            push_flood(alloc, added, item, link)?;
        }
    }
    Ok(())
}

/// The floods of an item.
pub(crate) fn floods(
    alloc: Global,
    out: Option<u16>,
    item: &Item,
    links: &[Link],
) -> Result<Vec<Waiting>, Memory>
    ensures { IfOk result (λ v. v.items ≡ floods out item.now links.now) }
{
    let mut added = Vec::new(alloc);
    push_floods(alloc, &mut added, out, item, links)?;
    Ok(added)
}
