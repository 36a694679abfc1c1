//! The words that end something, and the one that tells a state.
ghost use Rattle.std.specs.Prelude.{◌≡◌, true, IfOk, OnErr};
ghost use Rattle.rina_words.specs.Step.{CallsFree, CallsUnregister, Freeing, Stating, Unregistering};
ghost use Rattle.rina_notes.specs.Copying.{copies_drawn};
ghost use Rattle.rina_notes.specs.Look.{state_at};
ghost use Rattle.rina_notes.specs.Sites.{port_in, site_at};
ghost use Rattle.rina_words.specs.Wanting.{HasFailed, WantsAt, WantsOn};
ghost use Rattle.rina_stack.specs.Plan.{IsPlan};
ghost use Rattle.rina_tower.specs.Stands.{IsTower};

use crate::flow::say_port;
use crate::run::Run;
use rina_base::{AppName, Memory, Name, Port};
use rina_iface::{Facility, FreeError, UnregisterError};
use rina_notes::{Line, Site, find_site, refused, tell_free, tell_unregister};
use rina_report::{Answer, Refusal};
use rina_tower::AppError;
use std::alloc::Global;

/// The word `unregister`.
pub fn unregister(
    line: &Line<'_>,
    run: &mut Run,
    fac: &Name,
    node: &Name,
    app: &AppName,
) -> Result<Option<Answer>, Memory>
    requires plan { IsPlan line.now.plan.now }
    requires sound { IsTower run.old.tower }
    ensures does { IfOk result (λ says. Unregistering line.now.plan.now fac.now node.now app.now run.old says run.new) }
    ensures memory { OnErr result (WantsAt (site_at line.now.plan.now 1 fac.now node.now) (λ site. HasFailed run.new)) }
    ensures sound { IsTower run.new.tower }
{
    let site = match find_site(line.plan, 1, fac, node) {
        Ok(site) => site,
        Err(field) => return Ok(refused(Some(Refusal::Unknown { field }))),
    };
    call_unregister(line.alloc, run, site, app)
}

fn call_unregister(
    alloc: Global,
    run: &mut Run,
    site: Site,
    app: &AppName,
) -> Result<Option<Answer>, Memory>
    requires { IsTower run.old.tower }
    ensures does { IfOk result (λ says. CallsUnregister app.now run.old site says run.new) }
    ensures memory { OnErr result (HasFailed run.new) }
    ensures sound { IsTower run.new.tower }
{
    match run
        .tower
        .app_unregister(alloc, site.rank, site.fac, site.node, app)
    {
        Ok(()) => Ok(Some(Answer::Done)),
        Err(AppError::Call(UnregisterError::Memory)) => Err(Memory),
        Err(error) => Ok(refused(tell_unregister(error))),
    }
}

/// The word `free`.
pub fn free(alloc: Global, run: &mut Run, label: &Name) -> Result<Option<Answer>, Memory>
    requires { IsTower run.old.tower }
    ensures does { IfOk result (λ says. Freeing label.now run.old says run.new) }
    ensures memory { OnErr result (WantsOn (port_in run.old.labels label.now) (λ rank port. HasFailed run.new)) }
    ensures sound { IsTower run.new.tower }
{
    let Some((rank, port)) = run.labels.port(label) else {
        return Ok(refused(Some(Refusal::Unknown { field: 1 })));
    };
    call_free(alloc, run, rank, port)
}

fn call_free(alloc: Global, run: &mut Run, rank: u16, port: Port) -> Result<Option<Answer>, Memory>
    requires { IsTower run.old.tower }
    ensures does { IfOk result (λ says. CallsFree run.old rank port says run.new) }
    ensures memory { OnErr result (HasFailed run.new) }
    ensures sound { IsTower run.new.tower }
{
    match run.tower.app_free(alloc, rank, port) {
        Ok(()) => Ok(Some(Answer::Done)),
        Err(AppError::Call(FreeError::Memory)) => Err(Memory),
        Err(error) => Ok(refused(tell_free(error))),
    }
}

/// The word `state`.
pub fn state(line: &Line<'_>, run: &Run, label: &Name) -> Result<Option<Answer>, Memory>
    requires { IsTower run.now.tower }
    ensures does { IfOk result (λ says. Stating line.now.plan.now label.now run.now says run.now) }
    ensures memory { OnErr result (WantsOn (port_in run.now.labels label.now) (λ rank port. copies_drawn line.now.plan.now rank (state_at run.now.tower rank port) ≡ true)) }
{
    let Some((rank, port)) = run.labels.port(label) else {
        return Ok(refused(Some(Refusal::Unknown { field: 1 })));
    };
    say_port(line.alloc, line.plan, &run.tower, rank, port)
}
