//! The words on single steps of a DIF: each calls the tower, and says what it answered.
ghost use Rattle.std.specs.Prelude.{◌≡◌, IfOk, OnErr};
ghost use Rattle.rina_stack.specs.Plan.{IsPlan};
ghost use Rattle.rina_tower.specs.Stands.{IsTower};
ghost use Rattle.rina_words.specs.Step.{CallsClock, CallsIn, Clocking, TakingIn, link_of};
ghost use Rattle.rina_notes.specs.Sites.{dif_site_at};
ghost use Rattle.rina_words.specs.Wanting.{WantsAt, WantsToClock, WantsToTakeIn};

use crate::run::Run;
use rina_base::{Memory, Name};
use rina_data::StepError;
use rina_notes::{Line, Site, find_dif_site, refused, tell_clock, tell_in, tell_step};
use rina_report::{Answer, Refusal};

/// The number of a link, which is at most 65,535.
pub fn link_number(link: u32) -> u16
    ensures { result ≡ link_of link }
{
    link.min(65_535) as u16
}

/// The word `in`.
pub fn in_step(
    line: &Line<'_>,
    run: &mut Run,
    dif: &Name,
    node: &Name,
    link: u32,
) -> Result<Option<Answer>, Memory>
    requires plan { IsPlan line.now.plan.now }
    requires tower { IsTower run.old.tower }
    ensures does { IfOk result (λ says. TakingIn line.now.plan.now dif.now node.now link run.old says run.new) }
    ensures memory { OnErr result (WantsAt (dif_site_at line.now.plan.now dif.now node.now) (WantsToTakeIn line.now.plan.now link run.old run.new)) }
    ensures tower { IsTower run.new.tower }
{
    let site = match find_dif_site(line.plan, dif, node) {
        Ok(site) => site,
        Err(field) => return Ok(refused(Some(Refusal::Unknown { field }))),
    };
    call_in(line, run, site, link)
}

fn call_in(line: &Line<'_>, run: &mut Run, site: Site, link: u32) -> Result<Option<Answer>, Memory>
    requires { IsTower run.old.tower }
    ensures does { IfOk result (λ says. CallsIn line.now.plan.now link run.old site says run.new) }
    ensures memory { OnErr result (WantsToTakeIn line.now.plan.now link run.old run.new site) }
    ensures tower { IsTower run.new.tower }
{
    let link = link_number(link);
    match run
        .tower
        .in_step(line.alloc, site.rank, site.fac, site.node, link)
    {
        Ok(step) => tell_in(line.alloc, line.plan, site.rank, step),
        Err(StepError::Memory) => Err(Memory),
        Err(error) => Ok(refused(tell_step(error))),
    }
}

/// The word `clock`.
pub fn clock(
    line: &Line<'_>,
    run: &mut Run,
    dif: &Name,
    node: &Name,
) -> Result<Option<Answer>, Memory>
    requires plan { IsPlan line.now.plan.now }
    requires tower { IsTower run.old.tower }
    ensures does { IfOk result (λ says. Clocking line.now.plan.now dif.now node.now run.old says run.new) }
    ensures memory { OnErr result (WantsAt (dif_site_at line.now.plan.now dif.now node.now) (WantsToClock line.now.plan.now run.old run.new)) }
    ensures tower { IsTower run.new.tower }
{
    let site = match find_dif_site(line.plan, dif, node) {
        Ok(site) => site,
        Err(field) => return Ok(refused(Some(Refusal::Unknown { field }))),
    };
    call_clock(line, run, site)
}

fn call_clock(line: &Line<'_>, run: &mut Run, site: Site) -> Result<Option<Answer>, Memory>
    requires { IsTower run.old.tower }
    ensures does { IfOk result (λ says. CallsClock line.now.plan.now run.old site says run.new) }
    ensures memory { OnErr result (WantsToClock line.now.plan.now run.old run.new site) }
    ensures tower { IsTower run.new.tower }
{
    match run
        .tower
        .clock_step(line.alloc, site.rank, site.fac, site.node)
    {
        Ok(step) => tell_clock(line.alloc, line.plan, site.rank, step),
        Err(StepError::Memory) => Err(Memory),
        Err(error) => Ok(refused(tell_step(error))),
    }
}
