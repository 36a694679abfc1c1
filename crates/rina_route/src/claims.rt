//! The edges that link states claim. The key of a link state is `/link/` and an address, and its value
//! names the neighbours there as `ADDRESS:WEIGHT`, joined by commas.
ghost use Rattle.std.specs.Prelude.{◌≡◌, ◌==◌, ◌<◌, List, filter, length, position, IfOk, IfSome};
ghost use Rattle.std.specs.List.{flat_map};
ghost use Rattle.rina_route.specs.Routes.{weight_at, edge_at, claim_at, claims_in, claims_of, has_link, is_up, is_claimed, counts, counted};
ghost use Rattle.rina_route.specs.Keys.{key_of, ends_of, AreKeys, AreEnds};
ghost use Rattle.rina_graph.specs.declared.graph.Edge.{Edge};
ghost use Rattle.rina_route.specs.declared.link.Link.{Link};

use crate::link::Link;
use rina_base::{Addr, Memory, read_number};
use rina_graph::Edge;
use rina_newest::{Item, Newest};
use std::alloc::{AllocError, Global};

/// What the keys of link states begin with.
const FOLDER: &[u8] = b"/link/";

/// The weight that a text is in decimal; None where it is none.
fn weight_of(text: &[u8]) -> Option<u16>
    ensures { result ≡ weight_at text.now }
{
    match read_number(text)? {
        number @ 1..=65_535 => Some(number as u16),
        _ => None,
    }
}

/// The edge from an address to another at a weight, which are texts.
fn edge(from: Addr, to: &[u8], weight: &[u8]) -> Option<Edge>
    ensures { result ≡ edge_at from to.now weight.now }
{
    let to = read_number(to)?;
    let weight = weight_of(weight)?;
    Some(Edge { from, to, weight })
}

/// Where a text has its first colon.
fn colon_in(text: &[u8]) -> Option<usize>
    ensures is { result ≡ position (λ b. b == 58) text.now }
    ensures within { IfSome result (λ k. k < length text.now) }
{
    text.iter().position(|byte| *byte == b':')
}

/// The edge that a part of a link state claims, which is an address, a colon and a weight.
fn claim(from: Addr, part: &[u8]) -> Option<Edge>
    ensures { result ≡ claim_at from part.now }
{
    match colon_in(part) {
        Some(colon) => edge(from, &part[..colon], &part[colon + 1..]),
        None => None,
    }
}

/// The edges that the value of a link state claims.
fn claims_in(alloc: Global, from: Addr, text: &[u8]) -> Result<Vec<Edge>, AllocError>
    ensures { IfOk result (λ v. v.items ≡ claims_in from text.now) }
{
    text.split(|byte| *byte == b',')
        .filter_map(|part| claim(from, part))
        .collect(alloc)
}

/// The edges that an item claims; none where it is no live link state.
#[tactic(auto, unfolding(crate::specs::Routes::claims_of))]
fn claims_of(alloc: Global, item: &Item) -> Result<Vec<Edge>, AllocError>
    ensures { IfOk result (λ v. v.items ≡ claims_of item.now) }
{
    let key = item.key.as_slice();
    if !key.starts_with(FOLDER) {
        return Ok(Vec::new(alloc));
    }
    match (read_number(&key[FOLDER.len()..]), item.live()) {
        (Some(from), Some(text)) => claims_in(alloc, from, text),
        _ => Ok(Vec::new(alloc)),
    }
}

/// The edges that all items claim.
pub(crate) fn claimed(alloc: Global, states: &Newest) -> Result<Vec<Edge>, Memory>
    ensures { IfOk result (λ v. v.items ≡ flat_map claims_of states.now) }
{
    let found = states.under(alloc, FOLDER)?;
    let mut edges = Vec::new(alloc);
    for item in &found {
        edges.append(&mut claims_of(alloc, item)?)?;
    }
    Ok(edges)
}

/// A neighbour and a weight, at which own links lead to it.
type Ends = (Addr, u16);

/// The neighbour of a link and its weight.
fn ends_of(link: Link) -> Ends
    ensures { result ≡ ends_of link }
{
    (link.peer, link.weight)
}

/// The neighbours and weights of links, in rising order.
fn all_ends(alloc: Global, links: &[Link]) -> Result<Vec<Ends>, AllocError>
    ensures { IfOk result (λ v. AreEnds links.now v.items) }
{
    let mut ends: Vec<Ends> = links.iter().map(|link| ends_of(*link)).collect(alloc)?;
    ends.sort_unstable();
    Ok(ends)
}

/// Whether one of the own links, which have these neighbours and weights, leads to a neighbour at a
/// weight.
fn has_link(ends: &[Ends], peer: Addr, weight: u16) -> bool
    ensures { (links : List Link) → AreEnds links ends.now → result ≡ has_link links peer weight }
{
    let wanted = (peer, weight);
    ends.binary_search(&wanted).is_ok()
}

/// Whether an edge is up: at the own address only those edges are that are over an own link.
#[tactic(auto, unfolding(crate::specs::Routes::is_up))]
fn is_up(own: Addr, ends: &[Ends], edge: Edge) -> bool
    ensures { (links : List Link) → AreEnds links ends.now → result ≡ is_up own links edge }
{
    if edge.from == own {
        has_link(ends, edge.to, edge.weight)
    } else if edge.to == own {
        has_link(ends, edge.from, edge.weight)
    } else {
        true
    }
}

/// What tells an edge from another: its ends and its weight.
type Key = (Addr, Addr, u16);

/// The key of an edge.
fn key_of(edge: Edge) -> Key
    ensures { result ≡ key_of edge }
{
    (edge.from, edge.to, edge.weight)
}

/// The keys of edges, in rising order.
fn keys_of(alloc: Global, edges: &[Edge]) -> Result<Vec<Key>, AllocError>
    ensures { IfOk result (λ v. AreKeys edges.now v.items) }
{
    let mut keys: Vec<Key> = edges.iter().map(|edge| key_of(*edge)).collect(alloc)?;
    keys.sort_unstable();
    Ok(keys)
}

/// Whether an edge is among those that have the keys.
fn is_claimed(keys: &[Key], edge: Edge) -> bool
    ensures { (claimed : List Edge) → AreKeys claimed keys.now → result ≡ is_claimed claimed edge }
{
    let key = key_of(edge);
    keys.binary_search(&key).is_ok()
}

/// Whether an edge that one end claims counts: the other end claims it too, and it is up. The keys are
/// those of all edges that are claimed.
#[tactic(auto, unfolding(crate::specs::Routes::counts))]
fn counts(own: Addr, ends: &[Ends], keys: &[Key], edge: Edge) -> bool
    ensures { (links : List Link) (claimed : List Edge) → AreEnds links ends.now → AreKeys claimed keys.now → result ≡ counts own links claimed edge }
{
    let turned = Edge {
        from: edge.to,
        to: edge.from,
        weight: edge.weight,
    };
    is_claimed(keys, turned) && is_up(own, ends, edge)
}

/// The edges that are claimed and count.
pub(crate) fn counted(
    alloc: Global,
    own: Addr,
    links: &[Link],
    claimed: &[Edge],
) -> Result<Vec<Edge>, AllocError>
    ensures { IfOk result (λ v. v.items ≡ counted own links.now claimed.now) }
{
    let ends = all_ends(alloc, links)?;
    let keys = keys_of(alloc, claimed)?;
    claimed
        .iter()
        .copied()
        .filter(|edge| counts(own, &ends, &keys, *edge))
        .collect(alloc)
}
