//! The words on members: `publish` registers an IPC process at the rank below, `enrol` lets one ask to join at another, and `member` tells the
//! state of one.
ghost use Rattle.std.specs.Prelude.{◌≡◌, IfOk, IsSome, OnErr};
ghost use Rattle.rina_stack.specs.Plan.{IsPlan};
ghost use Rattle.rina_tower.specs.Stands.{IsTower};
ghost use Rattle.rina_notes.specs.Sites.{dif_site_at, fac_named};
ghost use Rattle.rina_stack.specs.Names.{place_in};
ghost use Rattle.rina_words.specs.Step.{CallsEnrol, CallsPublish, Enrolling, Publishing, TellingMember, TellsMember, number_below};
ghost use Rattle.rina_words.specs.Wanting.{HasFailed, WantsAt, WantsToEnrol, WantsWith};

use crate::run::Run;
use rina_base::{Memory, Name, Node};
use rina_dif::EnrolError;
use rina_iface::RegisterError;
use rina_notes::{
    Line, Site, find_dif_site, find_fac, refused, tell_enrol, tell_member, tell_publish,
};
use rina_report::{Answer, Refusal};
use rina_stack::Plan;
use rina_tower::PublishError;
use std::alloc::Global;

/// The number of the facility of a name, where it is of the rank just below this one.
fn find_below(plan: &Plan, rank: u16, fac: &Name) -> Option<u16>
    requires { IsPlan plan.now }
    ensures { result ≡ number_below rank (fac_named plan.now fac.now) }
{
    let fac = find_fac(plan, fac)?;
    if rank > fac.rank && rank - fac.rank == 1 {
        Some(fac.fac)
    } else {
        None
    }
}

/// The word `publish`.
pub fn publish(
    line: &Line<'_>,
    run: &mut Run,
    dif: &Name,
    node: &Name,
    fac: &Name,
) -> Result<Option<Answer>, Memory>
    requires plan { IsPlan line.now.plan.now }
    requires tower { IsTower run.old.tower }
    ensures does { IfOk result (λ says. Publishing line.now.plan.now dif.now node.now fac.now run.old says run.new) }
    ensures memory { OnErr result (WantsAt (dif_site_at line.now.plan.now dif.now node.now) (λ site. IsSome (number_below site.rank (fac_named line.now.plan.now fac.now)) × HasFailed run.new)) }
    ensures tower { IsTower run.new.tower }
{
    let site = match find_dif_site(line.plan, dif, node) {
        Ok(site) => site,
        Err(field) => return Ok(refused(Some(Refusal::Unknown { field }))),
    };
    let Some(fac) = find_below(line.plan, site.rank, fac) else {
        return Ok(refused(Some(Refusal::Unknown { field: 3 })));
    };
    call_publish(line.alloc, run, site, fac)
}

fn call_publish(
    alloc: Global,
    run: &mut Run,
    site: Site,
    fac: u16,
) -> Result<Option<Answer>, Memory>
    requires { IsTower run.old.tower }
    ensures does { IfOk result (λ says. CallsPublish run.old site fac says run.new) }
    ensures memory { OnErr result (HasFailed run.new) }
    ensures tower { IsTower run.new.tower }
{
    match run
        .tower
        .publish(alloc, site.rank, site.fac, site.node, fac)
    {
        Ok(()) => Ok(Some(Answer::Done)),
        Err(PublishError::Lower(RegisterError::Memory)) => Err(Memory),
        Err(error) => Ok(refused(tell_publish(error))),
    }
}

/// The word `enrol`.
pub fn enrol(
    line: &Line<'_>,
    run: &mut Run,
    dif: &Name,
    node: &Name,
    fac: &Name,
    peer: &Name,
) -> Result<Option<Answer>, Memory>
    requires plan { IsPlan line.now.plan.now }
    requires tower { IsTower run.old.tower }
    ensures does { IfOk result (λ says. Enrolling line.now.plan.now dif.now node.now fac.now peer.now run.old says run.new) }
    ensures memory { OnErr result (WantsAt (dif_site_at line.now.plan.now dif.now node.now) (λ site. WantsWith (number_below site.rank (fac_named line.now.plan.now fac.now)) (λ n. WantsWith (place_in line.now.plan.now.nodes peer.now) (WantsToEnrol run.old run.new site n)))) }
    ensures tower { IsTower run.new.tower }
{
    let site = match find_dif_site(line.plan, dif, node) {
        Ok(site) => site,
        Err(field) => return Ok(refused(Some(Refusal::Unknown { field }))),
    };
    let Some(below) = find_below(line.plan, site.rank, fac) else {
        return Ok(refused(Some(Refusal::Unknown { field: 3 })));
    };
    let Some(peer) = line.plan.node(peer) else {
        return Ok(refused(Some(Refusal::Unknown { field: 4 })));
    };
    call_enrol(line.alloc, run, site, fac, node, below, peer)
}

/// Calls `enrol`, where the facility below and the node have these names.
fn call_enrol(
    alloc: Global,
    run: &mut Run,
    site: Site,
    fac: &Name,
    node: &Name,
    below: u16,
    peer: Node,
) -> Result<Option<Answer>, Memory>
    requires { IsTower run.old.tower }
    ensures does { IfOk result (λ says. CallsEnrol fac.now node.now run.old site below peer says run.new) }
    ensures memory { OnErr result (WantsToEnrol run.old run.new site below peer) }
    ensures tower { IsTower run.new.tower }
{
    match run
        .tower
        .enrol(alloc, site.rank, site.fac, site.node, below, peer)
    {
        Ok(()) => Ok(Some(Answer::Done)),
        Err(EnrolError::Memory) => Err(Memory),
        Err(error) => Ok(refused(tell_enrol(alloc, fac, node, error)?)),
    }
}

/// The word `member`.
pub fn member(plan: &Plan, run: &Run, dif: &Name, node: &Name) -> Option<Answer>
    requires plan { IsPlan plan.now }
    requires tower { IsTower run.now.tower }
    ensures { TellingMember plan.now dif.now node.now run.now result run.now }
{
    let site = match find_dif_site(plan, dif, node) {
        Ok(site) => site,
        Err(field) => return refused(Some(Refusal::Unknown { field })),
    };
    say_member(run, site)
}

fn say_member(run: &Run, site: Site) -> Option<Answer>
    requires { IsTower run.now.tower }
    ensures { TellsMember run.now site result run.now }
{
    match run.tower.member(site.rank, site.fac, site.node) {
        Some(state) => Some(Answer::Member {
            state: tell_member(state),
        }),
        None => refused(Some(Refusal::NoIpc)),
    }
}
