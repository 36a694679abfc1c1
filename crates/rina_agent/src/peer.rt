//! The address of a neighbour, by the name of its node.
ghost use Rattle.std.specs.Prelude.{◌≡◌, map, option_copied, IfOk};
ghost use Rattle.rina_agent.specs.Neighbours.{value_is, address_in, address_among, address_at};

use rina_base::{Addr, Memory, read_number};
use rina_newest::{Item, Newest};
use std::alloc::Global;

/// What the keys of member items begin with.
const FOLDER: &[u8] = b"/member/";

/// Whether a value is a text.
fn value_is(value: Option<&[u8]>, text: &[u8]) -> bool
    ensures { result ≡ value_is text.now (option_copied value.entry) }
{
    match value {
        Some(value) => value == text,
        None => false,
    }
}

/// The address in the member item of a node.
#[tactic(auto, unfolding(crate::specs::Neighbours::address_in))]
fn address_in(item: &Item, node: &[u8]) -> Option<Addr>
    ensures { result ≡ address_in node.now item.now }
{
    let key = item.key.as_slice();
    if !key.starts_with(FOLDER) || !value_is(item.live(), node) {
        return None;
    }
    read_number(&key[FOLDER.len()..])
}

/// The address in the first member item of a node.
fn address_among(items: &[&Item], node: &[u8]) -> Option<Addr>
    ensures { result ≡ address_among node.now (map (λ item. item.now) items.now) }
{
    match items {
        [] => None,
        [item, others @ ..] => match address_in(item, node) {
            Some(address) => Some(address),
            None => address_among(others, node),
        },
    }
}

/// The address of the member on a node; None where no item tells it.
pub(crate) fn address_at(alloc: Global, items: &Newest, node: &[u8]) -> Result<Option<Addr>, Memory>
    ensures { IfOk result (λ a. a ≡ address_at node.now items.now) }
{
    let found = items.under(alloc, FOLDER)?;
    Ok(address_among(found.as_slice(), node))
}
