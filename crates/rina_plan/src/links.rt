//! The rules on links, which depend on the facilities below. Each function returns the place of the first
//! DIF that breaks its rule.
ghost use Rattle.std.specs.Prelude.{◌≡◌, ◌<◌, ◌==◌, ◌&&◌, not, nat_le, length, position, slice_get, option_map, IfSome};
ghost use Rattle.std.specs.List.{list_any};
ghost use Rattle.rina_cube.specs.declared.Cube.{Cube};
ghost use Rattle.rina_plan.specs.declared.dif.MemberPlan.{MemberPlan};
ghost use Rattle.rina_plan.specs.declared.dif.LinkPlan.{LinkPlan};
ghost use Rattle.rina_plan.specs.Links.{is_dynamic, rank_of, is_member, is_there, carries, is_misused, is_unfit_link, has_unfit_link, is_uncarried};

use crate::dif::{DifPlan, LinkPlan, Lower, MemberPlan, WireEnds};
use rina_cube::Cube;

fn wire_at(wires: &[WireEnds], at: usize) -> Option<&WireEnds>
    ensures { option_map (λ w. w.now) result ≡ slice_get wires.now at }
{
    wires.get(at)
}

fn dif_at(difs: &[DifPlan], at: usize) -> Option<&DifPlan>
    ensures { option_map (λ d. d.now) result ≡ slice_get difs.now at }
{
    difs.get(at)
}

fn is_dynamic(difs: &[DifPlan], on: Lower) -> bool
    ensures { result ≡ is_dynamic difs.now on }
{
    match on {
        Lower::Wire(_) => false,
        Lower::Dif(at) => match dif_at(difs, at) {
            Some(dif) => !dif.is_static,
            None => false,
        },
    }
}

#[tactic(auto, using(std::proofs::lemmas::List::drop_more))]
fn any_on_dynamic(difs: &[DifPlan], links: &[LinkPlan]) -> bool
    ensures { result ≡ list_any (λ (l : LinkPlan). is_dynamic difs.now l.on) links.now }
{
    'links: for link in links {
        if is_dynamic(difs, link.on) {
            return true;
        }
    }
    false
}

#[tactic(auto, unfolding(crate::specs::Links::is_misused))]
fn is_misused(difs: &[DifPlan], dif: &DifPlan) -> bool
    ensures { result ≡ is_misused difs.now dif.now }
{
    (!dif.is_static && (dif.links.len() > 0 || dif.flows.len() > 0))
        || (dif.is_static && dif.rank > 1 && any_on_dynamic(difs, dif.links.as_slice()))
}

/// The first DIF that is not static and has links or flows, or that is static, of a rank above 1, and has a
/// link on a DIF that is not static (rule 15).
pub fn first_misused(difs: &[DifPlan]) -> Option<usize>
    ensures place { result ≡ position (is_misused difs.now) difs.now }
    ensures within { IfSome result (λ i. i < length difs.now) }
{
    let mut at = 0usize;
    'difs: for dif in difs {
        if is_misused(difs, dif) {
            return Some(at);
        }
        at += 1;
    }
    None
}

fn rank_of(difs: &[DifPlan], on: Lower) -> u8
    ensures { result ≡ rank_of difs.now on }
{
    match on {
        Lower::Wire(_) => 0,
        Lower::Dif(at) => match dif_at(difs, at) {
            Some(dif) => dif.rank,
            None => 0,
        },
    }
}

#[tactic(auto, using(std::proofs::lemmas::List::drop_more))]
fn has_node(members: &[MemberPlan], node: usize) -> bool
    ensures { result ≡ list_any (λ (m : MemberPlan). m.node == node) members.now }
{
    'members: for member in members {
        if member.node == node {
            return true;
        }
    }
    false
}

pub(crate) fn is_member(node: usize, dif: &DifPlan) -> bool
    ensures { result ≡ is_member node dif.now }
{
    has_node(dif.members.as_slice(), node)
}

fn is_there(wires: &[WireEnds], difs: &[DifPlan], node: usize, on: Lower) -> bool
    ensures { result ≡ is_there wires.now difs.now node on }
{
    match on {
        Lower::Wire(at) => match wire_at(wires, at) {
            Some(wire) => wire.a == node || wire.b == node,
            None => false,
        },
        Lower::Dif(at) => match dif_at(difs, at) {
            Some(dif) => is_member(node, dif),
            None => false,
        },
    }
}

#[tactic(auto, unfolding(crate::specs::Links::is_unfit_link))]
fn is_unfit_link(wires: &[WireEnds], difs: &[DifPlan], dif: &DifPlan, link: &LinkPlan) -> bool
    ensures { result ≡ is_unfit_link wires.now difs.now dif.now link.now }
{
    u32::from(rank_of(difs, link.on)) + 1 != u32::from(dif.rank)
        || link.a == link.b
        || !(is_member(link.a, dif)
            && is_member(link.b, dif)
            && is_there(wires, difs, link.a, link.on)
            && is_there(wires, difs, link.b, link.on))
}

#[tactic(auto, using(std::proofs::lemmas::List::drop_more))]
fn any_unfit_link(wires: &[WireEnds], difs: &[DifPlan], dif: &DifPlan, links: &[LinkPlan]) -> bool
    ensures { result ≡ list_any (is_unfit_link wires.now difs.now dif.now) links.now }
{
    'links: for link in links {
        if is_unfit_link(wires, difs, dif, link) {
            return true;
        }
    }
    false
}

#[tactic(auto, unfolding(crate::specs::Links::has_unfit_link))]
fn has_unfit_link(wires: &[WireEnds], difs: &[DifPlan], dif: &DifPlan) -> bool
    ensures { result ≡ has_unfit_link wires.now difs.now dif.now }
{
    any_unfit_link(wires, difs, dif, dif.links.as_slice())
}

/// The first DIF with a link that is not on the rank just below, whose ends are equal, or one of whose nodes
/// has no member of the DIF or is not in the facility below (rule 16).
pub fn first_with_unfit_link(wires: &[WireEnds], difs: &[DifPlan]) -> Option<usize>
    ensures place { result ≡ position (has_unfit_link wires.now difs.now) difs.now }
    ensures within { IfSome result (λ i. i < length difs.now) }
{
    let mut at = 0usize;
    'difs: for dif in difs {
        if has_unfit_link(wires, difs, dif) {
            return Some(at);
        }
        at += 1;
    }
    None
}

#[tactic(auto, using(std::proofs::lemmas::List::drop_more))]
fn any_carries(cubes: &[Cube], pdu: u32, id: u8) -> bool
    ensures { result ≡ list_any (λ (c : Cube). (c.id == id) && nat_le pdu c.largest) cubes.now }
{
    'cubes: for cube in cubes {
        if cube.id == id && pdu <= cube.largest {
            return true;
        }
    }
    false
}

fn carries(wires: &[WireEnds], difs: &[DifPlan], pdu: u32, cube: u8, on: Lower) -> bool
    ensures { result ≡ carries wires.now difs.now pdu cube on }
{
    match on {
        Lower::Wire(at) => match wire_at(wires, at) {
            Some(wire) => cube == 0 && pdu <= wire.largest,
            None => false,
        },
        Lower::Dif(at) => match dif_at(difs, at) {
            Some(dif) => any_carries(dif.cubes.as_slice(), pdu, cube),
            None => false,
        },
    }
}

#[tactic(auto, using(std::proofs::lemmas::List::drop_more))]
fn any_uncarried(wires: &[WireEnds], difs: &[DifPlan], pdu: u32, links: &[LinkPlan]) -> bool
    ensures { result ≡ list_any (λ (l : LinkPlan). not (carries wires.now difs.now pdu l.cube l.on)) links.now }
{
    'links: for link in links {
        if !carries(wires, difs, pdu, link.cube, link.on) {
            return true;
        }
    }
    false
}

#[tactic(auto, unfolding(crate::specs::Links::is_uncarried))]
fn is_uncarried(wires: &[WireEnds], difs: &[DifPlan], dif: &DifPlan) -> bool
    ensures { result ≡ is_uncarried wires.now difs.now dif.now }
{
    any_uncarried(wires, difs, dif.pdu, dif.links.as_slice())
}

/// The first DIF with a link whose cube is not in the facility below, or carries no SDU as large as a PDU
/// (rule 17).
pub fn first_uncarried(wires: &[WireEnds], difs: &[DifPlan]) -> Option<usize>
    ensures place { result ≡ position (is_uncarried wires.now difs.now) difs.now }
    ensures within { IfSome result (λ i. i < length difs.now) }
{
    let mut at = 0usize;
    'difs: for dif in difs {
        if is_uncarried(wires, difs, dif) {
            return Some(at);
        }
        at += 1;
    }
    None
}
