//! Which nodes of a DIF a walk of its links joins.
ghost use Rattle.std.specs.Prelude.{◌≡◌, ◌==◌, ◌<◌, ◌↔◌, IsTrue, length, map, position, Some, IfOk, IfSome, IsSome};
ghost use Rattle.rina_plan.specs.declared.dif.LinkPlan.{LinkPlan};
ghost use Rattle.rina_plan.specs.Parts.{ends_of, part_in, is_same, is_one_part, ArePartsOf, Merges, merged};
ghost use Rattle.rina_plan.specs.Walks.{is_joined, AreJoined};

use crate::dif::{DifPlan, LinkPlan};
use std::alloc::{AllocError, Global};

fn place_of(nodes: &[usize], node: usize) -> Option<usize>
    ensures place { result ≡ position (λ m. m == node) nodes.now }
    ensures within { IfSome result (λ i. i < length nodes.now) }
{
    nodes.iter().position(|other| *other == node)
}

/// The part of a node; None where it has no link.
fn part_of(nodes: &[usize], parts: &[usize], node: usize) -> Option<usize>
    requires { length nodes.now ≡ length parts.now }
    ensures { result ≡ part_in nodes.now parts.now node }
{
    let place = place_of(nodes, node)?;
    Some(parts[place])
}

fn is_same(one: Option<usize>, other: Option<usize>) -> bool
    ensures { result ≡ is_same one other }
{
    match (one, other) {
        (Some(one), Some(other)) => one == other,
        _ => false,
    }
}

#[tactic(auto, unfolding(crate::specs::Parts::is_one_part))]
fn is_one_part(nodes: &[usize], parts: &[usize], one: usize, other: usize) -> bool
    requires { length nodes.now ≡ length parts.now }
    ensures { result ≡ is_one_part nodes.now parts.now one other }
{
    one == other || is_same(part_of(nodes, parts, one), part_of(nodes, parts, other))
}

fn merged(from: usize, to: usize, part: usize) -> usize
    ensures { result ≡ merged from to part }
{
    if part == from { to } else { part }
}

/// Makes one part another.
fn merge(parts: &mut [usize], from: usize, to: usize)
    ensures { parts.new ≡ map (merged from to) parts.old }
{
    if from == to {
        return;
    }
    for part in parts.iter_mut() {
        *part = merged(from, to, *part);
    }
}

/// The ends of links, two for each.
fn ends_of(alloc: Global, links: &[LinkPlan]) -> Result<Vec<usize>, AllocError>
    ensures { IfOk result (λ v. v.items ≡ ends_of links.now) }
{
    let mut ends = Vec::new(alloc);
    'links: for link in links {
        ends.push(link.a)?;
        ends.push(link.b)?;
    }
    Ok(ends)
}

/// Merges the parts of the two ends of a link.
fn merge_ends(nodes: &[usize], parts: &mut [usize], link: &LinkPlan)
    requires size { length nodes.now ≡ length parts.old }
    requires a { IsSome (part_in nodes.now parts.old link.now.a) }
    requires b { IsSome (part_in nodes.now parts.old link.now.b) }
    ensures { Merges nodes.now parts.old parts.new link.now }
{
    let Some(from) = part_of(nodes, parts, link.a) else {
        return;
    };
    let Some(to) = part_of(nodes, parts, link.b) else {
        return;
    };
    merge(parts, from, to);
}

/// Merges the parts of the two ends of each link, from the last one on.
fn merge_all(nodes: &[usize], parts: &mut [usize], links: &[LinkPlan])
    requires ends { nodes.now ≡ ends_of links.now }
    requires apart { parts.old ≡ nodes.now }
    ensures { ArePartsOf links.now nodes.now parts.new }
{
    let mut at = links.len();
    while at > 0 {
        at -= 1;
        merge_ends(nodes, parts, &links[at]);
    }
}

/// A DIF, and the parts that its links join nodes to.
#[derive(Drop)]
pub(crate) struct Net<'a> {
    dif: &'a DifPlan,
    /// The ends of its links.
    nodes: Vec<usize>,
    /// The part of each of these nodes, which is named by a node.
    parts: Vec<usize>,
    ghost size: { length nodes.items ≡ length parts.items },
    ghost exact: { ArePartsOf dif.now.links nodes.items parts.items },
}

impl<'a> Net<'a> {
    /// The parts of a DIF.
    pub fn of(alloc: Global, dif: &'a DifPlan) -> Result<Net<'a>, AllocError>
        ensures { IfOk result (λ n. n.dif.now ≡ dif.now) }
    {
        let links = dif.links.as_slice();
        let nodes = ends_of(alloc, links)?;
        let mut parts = ends_of(alloc, links)?;
        merge_all(nodes.as_slice(), parts.as_mut_slice(), links);
        Ok(Net { dif, nodes, parts })
    }

    /// The DIF.
    pub fn dif(&self) -> &DifPlan
        ensures { result.now ≡ self.now.dif.now }
    {
        self.dif
    }

    /// Whether a walk of its links joins two nodes.
    pub fn joins(&self, one: usize, other: usize) -> bool
        ensures { result ≡ is_joined self.now.dif.now.links one other }
    {
        is_one_part(self.nodes.as_slice(), self.parts.as_slice(), one, other)
    }
}

/// Whether a walk of a DIF's links joins two nodes. Fails where memory runs out.
pub fn are_joined(
    alloc: Global,
    dif: &DifPlan,
    one: usize,
    other: usize,
) -> Result<bool, AllocError>
    ensures { IfOk result (λ b. IsTrue b ↔ AreJoined dif.now.links one other) }
{
    let net = Net::of(alloc, dif)?;
    Ok(net.joins(one, other))
}
