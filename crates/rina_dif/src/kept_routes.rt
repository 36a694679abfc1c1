//! Whether next hops stay as they are: they do where neither the own links nor the edges that link states claim change.
ghost use Rattle.std.specs.Prelude.{◌≡◌, List, option_copied, true, IfOk};
ghost use Rattle.std.specs.List.{flat_map};
ghost use Rattle.rina_data.specs.declared.link.Route.{Route};
ghost use Rattle.rina_data.specs.declared.settings.Member.{Member};
ghost use Rattle.rina_member.specs.Knowing.{AreRoutesOf, all_claims, hop_of, hops_of};
ghost use Rattle.rina_route.specs.Routes.{claims_of};

use rina_agent::{Agent, Link};
use rina_base::Memory;
use rina_newest::{Item, Newest};
use std::alloc::Global;

/// What the keys of link states begin with.
const LINK_STATES: &[u8] = b"/link/";

/// Whether bytes are the same.
fn same_bytes(bytes: &[u8], others: &[u8]) -> bool
    ensures { result ≡ true → bytes.now ≡ others.now }
{
    bytes == others
}

/// Whether two values are the same.
fn same_value(value: Option<&[u8]>, other: Option<&[u8]>) -> bool
    ensures { result ≡ true → option_copied value.entry ≡ option_copied other.entry }
{
    match value {
        Some(bytes) => match other {
            Some(others) => same_bytes(bytes, others),
            None => false,
        },
        None => other.is_none(),
    }
}

/// Whether two items have one key and one value, so that they claim the same edges.
fn claim_alike(item: &Item, other: &Item) -> bool
    ensures { result ≡ true → claims_of item.now ≡ claims_of other.now }
{
    same_bytes(item.key.as_slice(), other.key.as_slice()) && same_value(item.live(), other.live())
}

/// Whether there are as many items, and each claims the same edges as the one at its place among the others.
fn all_claim_alike(items: &[&Item], others: &[&Item]) -> bool
    ensures { result ≡ true → flat_map (λ x. claims_of x.now) items.now ≡ flat_map (λ x. claims_of x.now) others.now }
{
    if items.len() != others.len() {
        return false;
    }
    for at in 0..items.len() {
        if !claim_alike(items[at], others[at]) {
            return false;
        }
    }
    true
}

/// Whether the link states among items are those among others, but for their versions.
fn claims_stay(alloc: Global, items: &Newest, others: &Newest) -> Result<bool, Memory>
    ensures { IfOk result (λ same. same ≡ true → all_claims items.now ≡ all_claims others.now) }
{
    let states = items.under(alloc, LINK_STATES)?;
    let others = others.under(alloc, LINK_STATES)?;
    Ok(all_claim_alike(&states, &others))
}

/// Whether PDUs may leave over two links alike.
fn leads_alike(link: &Link, other: &Link) -> bool
    ensures { result ≡ true → hop_of link.now ≡ hop_of other.now }
{
    link.up == other.up
        && link.peer == other.peer
        && link.number == other.number
        && link.weight == other.weight
}

/// Whether there are as many links, and PDUs may leave over each as over the one at its place among the others.
fn all_lead_alike(links: &[Link], others: &[Link]) -> bool
    ensures { result ≡ true → hops_of links.now ≡ hops_of others.now }
{
    if links.len() != others.len() {
        return false;
    }
    for at in 0..links.len() {
        if !leads_alike(&links[at], &others[at]) {
            return false;
        }
    }
    true
}

/// Whether the next hops of a member stay as they are: its links and what the link states among its items claim are as before.
pub(crate) fn routes_stay(alloc: Global, before: &Agent, after: &Agent) -> Result<bool, Memory>
    ensures { IfOk result (λ same. same ≡ true → (members : List Member) (routes : List Route) → AreRoutesOf before.now members routes → AreRoutesOf after.now members routes) }
{
    if before.address != after.address {
        return Ok(false);
    }
    if !all_lead_alike(before.links.as_slice(), after.links.as_slice()) {
        return Ok(false);
    }
    claims_stay(alloc, &before.items, &after.items)
}
