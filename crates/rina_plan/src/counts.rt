//! How many there may be: links on a wire, and members, cubes, rules, links and flows of a DIF.
ghost use Rattle.std.specs.Prelude.{◌≡◌, ℕ, ◌+◌, ◌<◌, ◌^◌, ◌&&◌, nat_lt, length, map, count_by, slice_index, position, IfOk, IfSome};
ghost use Rattle.std.specs.List.{list_any, range_with_len};
ghost use Rattle.rina_plan.specs.declared.dif.LinkPlan.{LinkPlan};
ghost use Rattle.rina_plan.specs.Counts.{links_of, load_of, first_loaded, is_on_wire, one_if, is_on_dif, has_link_end, has_flow_end, cep_ids_needed, is_overloaded, is_full, full_from, first_full};

use crate::dif::{DifPlan, FlowPlan, LinkPlan, Lower, MemberPlan};
use crate::difs::{greatest_of, is_crowded};
use std::alloc::{AllocError, Global};

/// The links of all DIFs.
fn links_of(alloc: Global, difs: &[DifPlan]) -> Result<Vec<LinkPlan>, AllocError>
    ensures { IfOk result (λ v. v.items ≡ links_of difs.now) }
{
    let mut links = Vec::new(alloc);
    'difs: for dif in difs {
        links.extend_from_slice(dif.links.as_slice())?;
    }
    Ok(links)
}

// Links on wires.

/// Counts a link where it is on a wire.
fn count(loads: &mut [usize], on: Lower)
    requires { (i : ℕ) → i < length loads.old → slice_index loads.old i + 1 < 2 ^ 64 }
    ensures { (i : ℕ) → i < length loads.old → slice_index loads.new i ≡ slice_index loads.old i + one_if (is_on_wire i on) }
{
    match on {
        Lower::Wire(wire) => {
            if wire < loads.len() {
                loads[wire] += 1;
            }
        }
        Lower::Dif(_) => {}
    }
}

/// How many links are on each of so many wires.
fn loads_of(alloc: Global, wires: usize, links: &[LinkPlan]) -> Result<Vec<usize>, AllocError>
    ensures { IfOk result (λ v. v.items ≡ map (load_of links.now) (range_with_len 0 wires)) }
{
    let mut loads = vec![in alloc; 0usize; wires]?;
    'links: for link in links {
        count(loads.as_mut_slice(), link.on);
    }
    Ok(loads)
}

fn first_double(loads: &[usize]) -> Option<usize>
    ensures place { result ≡ position (λ n. nat_lt 1 n) loads.now }
    ensures within { IfSome result (λ i. i < length loads.now) }
{
    loads.iter().position(|load| *load > 1)
}

/// The first wire with two links or more, of so many wires (rule 16). Fails where memory runs out.
#[tactic(auto, unfolding(crate::specs::Counts::first_loaded))]
pub fn first_loaded(
    alloc: Global,
    wires: usize,
    difs: &[DifPlan],
) -> Result<Option<usize>, AllocError>
    ensures place { IfOk result (λ f. f ≡ first_loaded wires difs.now) }
    ensures within { IfOk result (λ f. IfSome f (λ i. i < wires)) }
{
    let links = links_of(alloc, difs)?;
    let loads = loads_of(alloc, wires, links.as_slice())?;
    Ok(first_double(loads.as_slice()))
}

// What there is of a DIF.

fn has_link_end(node: usize, link: &LinkPlan) -> bool
    ensures { result ≡ has_link_end node link.now }
{
    link.a == node || link.b == node
}

fn has_flow_end(node: usize, flow: &FlowPlan) -> bool
    ensures { result ≡ has_flow_end node flow.now }
{
    flow.from.node == node || flow.to.node == node
}

fn is_on_dif(at: usize, on: Lower) -> bool
    ensures { result ≡ is_on_dif at on }
{
    match on {
        Lower::Wire(_) => false,
        Lower::Dif(place) => place == at,
    }
}

#[tactic(auto, using(std::proofs::lemmas::List::Sums::count_by_more_yes, std::proofs::lemmas::List::Sums::count_by_more_no))]
fn links_at(links: &[LinkPlan], node: usize) -> usize
    ensures { result ≡ count_by (has_link_end node) links.now }
{
    let mut count = 0usize;
    'links: for link in links {
        if has_link_end(node, link) {
            count += 1;
        }
    }
    count
}

#[tactic(auto, using(std::proofs::lemmas::List::Sums::count_by_more_yes, std::proofs::lemmas::List::Sums::count_by_more_no))]
fn flows_at(flows: &[FlowPlan], node: usize) -> usize
    ensures count { result ≡ count_by (has_flow_end node) flows.now }
    ensures most { result < 2 ^ 63 }
{
    let mut count = 0usize;
    'flows: for flow in flows {
        if has_flow_end(node, flow) {
            count += 1;
        }
    }
    count
}

#[tactic(auto, using(std::proofs::lemmas::List::Sums::count_by_more_yes, std::proofs::lemmas::List::Sums::count_by_more_no))]
fn links_above(links: &[LinkPlan], at: usize, node: usize) -> usize
    ensures count { result ≡ count_by (λ (l : LinkPlan). is_on_dif at l.on && has_link_end node l) links.now }
    ensures most { result < 2 ^ 63 }
{
    let mut count = 0usize;
    'links: for link in links {
        if is_on_dif(at, link.on) && has_link_end(node, link) {
            count += 1;
        }
    }
    count
}

fn cep_ids_needed(links: &[LinkPlan], at: usize, dif: &DifPlan, node: usize) -> usize
    ensures { result ≡ cep_ids_needed links.now at dif.now node }
{
    flows_at(dif.flows.as_slice(), node) + links_above(links, at, node)
}

#[tactic(auto, unfolding(crate::specs::Counts::is_overloaded))]
fn is_overloaded(links: &[LinkPlan], at: usize, dif: &DifPlan, member: &MemberPlan) -> bool
    ensures { result ≡ is_overloaded links.now at dif.now member.now }
{
    links_at(dif.links.as_slice(), member.node) > 16
        || cep_ids_needed(links, at, dif, member.node) > greatest_of(dif.widths.cep) as usize
}

#[tactic(auto, using(std::proofs::lemmas::List::drop_more))]
fn any_overloaded(links: &[LinkPlan], at: usize, dif: &DifPlan, members: &[MemberPlan]) -> bool
    ensures { result ≡ list_any (is_overloaded links.now at dif.now) members.now }
{
    'members: for member in members {
        if is_overloaded(links, at, dif, member) {
            return true;
        }
    }
    false
}

#[tactic(auto, unfolding(crate::specs::Counts::is_full))]
fn is_full(links: &[LinkPlan], at: usize, dif: &DifPlan) -> bool
    ensures { result ≡ is_full links.now at dif.now }
{
    is_crowded(dif) || any_overloaded(links, at, dif, dif.members.as_slice())
}

fn first_of(links: &[LinkPlan], difs: &[DifPlan]) -> Option<usize>
    ensures place { result ≡ full_from links.now 0 difs.now }
    ensures within { IfSome result (λ i. i < length difs.now) }
{
    let mut at = 0usize;
    'difs: for dif in difs {
        if is_full(links, at, dif) {
            return Some(at);
        }
        at += 1;
    }
    None
}

/// The first DIF with more than 64 members, 8 cubes or 256 rules, or with a member that has more than 16
/// links, or that needs more CEP-ids for its flows and for the links on it than there are (rule 19). Fails
/// where memory runs out.
pub fn first_full(alloc: Global, difs: &[DifPlan]) -> Result<Option<usize>, AllocError>
    ensures place { IfOk result (λ f. f ≡ first_full difs.now) }
    ensures within { IfOk result (λ f. IfSome f (λ i. i < length difs.now)) }
{
    let links = links_of(alloc, difs)?;
    Ok(first_of(links.as_slice(), difs))
}
