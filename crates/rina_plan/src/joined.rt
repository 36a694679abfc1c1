//! The rules on what walks of links join.
ghost use Rattle.std.specs.Prelude.{◌≡◌, ◌<◌, ◌==◌, length, position, IfOk, IfSome};
ghost use Rattle.std.specs.List.{list_any};
ghost use Rattle.rina_cube.specs.declared.Cube.{Cube};
ghost use Rattle.rina_plan.specs.declared.dif.DifPlan.{DifPlan};
ghost use Rattle.rina_plan.specs.declared.nets.Net.{Net};
ghost use Rattle.rina_plan.specs.Nets.{difs_of};
ghost use Rattle.rina_plan.specs.Walks.{has_cube, is_unfit_flow, joins_on, is_unjoined_link, is_unjoined};

use crate::dif::{DifPlan, FlowPlan, LinkPlan, Lower};
use crate::links::is_member;
use crate::nets::Net;
use rina_cube::Cube;
use std::alloc::{AllocError, Global};

#[tactic(auto, using(std::proofs::lemmas::List::drop_more))]
fn any_of_id(cubes: &[Cube], id: u8) -> bool
    ensures { result ≡ list_any (λ (c : Cube). c.id == id) cubes.now }
{
    'cubes: for cube in cubes {
        if cube.id == id {
            return true;
        }
    }
    false
}

fn has_cube(id: u8, dif: &DifPlan) -> bool
    ensures { result ≡ has_cube id dif.now }
{
    any_of_id(dif.cubes.as_slice(), id)
}

#[tactic(auto, unfolding(crate::specs::Walks::is_unfit_flow))]
fn is_unfit_flow(net: &Net<'_>, flow: &FlowPlan) -> bool
    ensures { result ≡ is_unfit_flow net.now.dif.now flow.now }
{
    let dif = net.dif();
    let from = flow.from.node;
    let to = flow.to.node;
    !has_cube(flow.cube, dif)
        || from == to
        || !(is_member(from, dif) && is_member(to, dif))
        || !net.joins(from, to)
}

#[tactic(auto, using(std::proofs::lemmas::List::drop_more))]
fn any_unfit_flow(net: &Net<'_>, flows: &[FlowPlan]) -> bool
    ensures { result ≡ list_any (is_unfit_flow net.now.dif.now) flows.now }
{
    'flows: for flow in flows {
        if is_unfit_flow(net, flow) {
            return true;
        }
    }
    false
}

fn joins_on(nets: &[Net<'_>], one: usize, other: usize, on: Lower) -> bool
    ensures { result ≡ joins_on (difs_of nets.now) one other on }
{
    match on {
        Lower::Wire(_) => true,
        Lower::Dif(at) => match nets.get(at) {
            Some(net) => net.joins(one, other),
            None => false,
        },
    }
}

fn is_unjoined_link(nets: &[Net<'_>], link: &LinkPlan) -> bool
    ensures { result ≡ is_unjoined_link (difs_of nets.now) link.now }
{
    !joins_on(nets, link.a, link.b, link.on)
}

#[tactic(auto, using(std::proofs::lemmas::List::drop_more))]
fn any_unjoined_link(nets: &[Net<'_>], links: &[LinkPlan]) -> bool
    ensures { result ≡ list_any (is_unjoined_link (difs_of nets.now)) links.now }
{
    'links: for link in links {
        if is_unjoined_link(nets, link) {
            return true;
        }
    }
    false
}

#[tactic(auto, unfolding(crate::specs::Walks::is_unjoined))]
fn is_unjoined(nets: &[Net<'_>], net: &Net<'_>) -> bool
    ensures { result ≡ is_unjoined (difs_of nets.now) net.now.dif.now }
{
    let dif = net.dif();
    any_unfit_flow(net, dif.flows.as_slice()) || any_unjoined_link(nets, dif.links.as_slice())
}

fn first_of(nets: &[Net<'_>]) -> Option<usize>
    ensures place { result ≡ position (λ (n : Net). is_unjoined (difs_of nets.now) n.dif.now) nets.now }
    ensures within { IfSome result (λ i. i < length nets.now) }
{
    let mut at = 0usize;
    'nets: for net in nets {
        if is_unjoined(nets, net) {
            return Some(at);
        }
        at += 1;
    }
    None
}

fn nets_of<'a>(alloc: Global, difs: &'a [DifPlan]) -> Result<Vec<Net<'a>>, AllocError>
    ensures { IfOk result (λ v. difs_of v.items ≡ difs.now) }
{
    let mut nets = Vec::new(alloc);
    'difs: for dif in difs {
        nets.push(Net::of(alloc, dif)?)?;
    }
    Ok(nets)
}

/// The first DIF with a flow whose cube is missing, whose nodes are equal or have no member, or whose nodes
/// no walk of links joins; or with a link on a DIF in which no walk of links joins its ends (rule 18). Fails
/// where memory runs out.
pub fn first_unjoined(alloc: Global, difs: &[DifPlan]) -> Result<Option<usize>, AllocError>
    ensures { IfOk result (λ f. f ≡ position (is_unjoined difs.now) difs.now) }
{
    let nets = nets_of(alloc, difs)?;
    Ok(first_of(nets.as_slice()))
}
