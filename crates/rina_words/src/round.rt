//! The words whose steps ask the shelf: `out`, and `round`; and the round that follows a line by itself.
ghost use Rattle.std.specs.Prelude.{◌≡◌, IfOk, OnErr, OnOk};
ghost use Rattle.rina_stack.specs.Plan.{IsPlan};
ghost use Rattle.rina_tower.specs.Ranks.{now_of};
ghost use Rattle.rina_tower.specs.Stands.{IsTower};
ghost use Rattle.rina_notes.specs.Sites.{dif_site_at};
ghost use Rattle.rina_words.specs.Step.{CallsOut, HasNames, LettingOut, RoundsBy, stage};
ghost use Rattle.rina_words.specs.Wanting.{WantsAt, WantsToLetOut};

use crate::dif::link_number;
use crate::run::Run;
use rina_base::{Memory, Name};
use rina_data::StepError;
use rina_iface::Facility;
use rina_notes::{Line, Site, find_dif_site, refused, tell, tell_out, tell_step};
use rina_policy::Retires;
use rina_report::{Answer, Notes, Refusal};
use rina_stack::Rounds;
use std::alloc::Global;

fn call_out<P: Retires>(
    line: &Line<'_>,
    run: &mut Run,
    shelf: &mut P,
    site: Site,
    link: u32,
) -> Result<Option<Answer>, Memory>
    requires { IsTower run.old.tower }
    ensures does { IfOk result (λ says. CallsOut line.now.plan.now link (stage run.old (P.slots shelf.old)) site says (stage run.new (P.slots shelf.new))) }
    ensures memory { OnErr result (WantsToLetOut line.now.plan.now link (stage run.old (P.slots shelf.old)) (stage run.new (P.slots shelf.new)) site) }
    ensures tower { IsTower run.new.tower }
    ensures names { HasNames (P.slots shelf.old) (P.slots shelf.new) }
{
    let link = link_number(link);
    match run
        .tower
        .out_step(line.alloc, site.rank, site.fac, shelf, site.node, link)
    {
        Ok(step) => tell_out(line.alloc, line.plan, site.rank, step),
        Err(StepError::Memory) => Err(Memory),
        Err(error) => Ok(refused(tell_step(error))),
    }
}

/// The word `out`.
pub fn out_step<P: Retires>(
    line: &Line<'_>,
    run: &mut Run,
    shelf: &mut P,
    dif: &Name,
    node: &Name,
    link: u32,
) -> Result<Option<Answer>, Memory>
    requires plan { IsPlan line.now.plan.now }
    requires tower { IsTower run.old.tower }
    ensures does { IfOk result (λ says. LettingOut line.now.plan.now (dif_site_at line.now.plan.now dif.now node.now) link (stage run.old (P.slots shelf.old)) says (stage run.new (P.slots shelf.new))) }
    ensures memory { OnErr result (WantsAt (dif_site_at line.now.plan.now dif.now node.now) (WantsToLetOut line.now.plan.now link (stage run.old (P.slots shelf.old)) (stage run.new (P.slots shelf.new)))) }
    ensures tower { IsTower run.new.tower }
    ensures names { HasNames (P.slots shelf.old) (P.slots shelf.new) }
{
    let site = match find_dif_site(line.plan, dif, node) {
        Ok(site) => site,
        Err(field) => return Ok(refused(Some(Refusal::Unknown { field }))),
    };
    call_out(line, run, shelf, site, link)
}

/// The round that follows by itself, where one does.
pub fn go_round<P: Retires>(
    alloc: Global,
    rounds: Rounds,
    run: &mut Run,
    shelf: &mut P,
) -> Result<(), Memory>
    requires tower { IsTower run.old.tower }
    ensures does { OnOk result (RoundsBy rounds (P.slots shelf.old) run.old.tower (P.slots shelf.new) run.new.tower) }
    ensures labels { run.new.labels ≡ run.old.labels }
    ensures clock { now_of run.new.tower ≡ now_of run.old.tower }
    ensures tower { IsTower run.new.tower }
    ensures names { HasNames (P.slots shelf.old) (P.slots shelf.new) }
{
    match rounds {
        Rounds::Auto => run.tower.round(alloc, shelf),
        Rounds::Manual => Ok(()),
    }
}
