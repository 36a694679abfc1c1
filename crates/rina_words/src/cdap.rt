//! The word `cdap`.
ghost use Rattle.std.specs.Prelude.{IfOk, OnErr};
ghost use Rattle.rina_stack.specs.Plan.{IsPlan};
ghost use Rattle.rina_tower.specs.Stands.{IsTower};
ghost use Rattle.rina_words.specs.Step.{Asking, CallsCdap};
ghost use Rattle.rina_notes.specs.Sites.{dif_site_at};
ghost use Rattle.rina_words.specs.Wanting.{HasFailed, WantsAt};

use crate::run::Run;
use rina_base::{Bytes, Memory, Name, Seq};
use rina_dif::CdapCallError;
use rina_notes::{Line, Site, find_dif_site, refused, tell_cdap};
use rina_report::{Answer, Refusal};
use std::alloc::Global;

/// The word `cdap`.
pub fn cdap(
    line: &Line<'_>,
    run: &mut Run,
    dif: &Name,
    node: &Name,
    bytes: &Bytes,
) -> Result<Option<Answer>, Memory>
    requires plan { IsPlan line.now.plan.now }
    requires tower { IsTower run.old.tower }
    ensures does { IfOk result (λ says. Asking line.now.plan.now dif.now node.now bytes.now run.old says run.new) }
    ensures memory { OnErr result (WantsAt (dif_site_at line.now.plan.now dif.now node.now) (λ site. HasFailed run.new)) }
    ensures tower { IsTower run.new.tower }
{
    let site = match find_dif_site(line.plan, dif, node) {
        Ok(site) => site,
        Err(field) => return Ok(refused(Some(Refusal::Unknown { field }))),
    };
    call_cdap(line.alloc, run, site, bytes.as_slice())
}

fn call_cdap(
    alloc: Global,
    run: &mut Run,
    site: Site,
    bytes: &[u8],
) -> Result<Option<Answer>, Memory>
    requires { IsTower run.old.tower }
    ensures does { IfOk result (λ says. CallsCdap bytes.now run.old site says run.new) }
    ensures memory { OnErr result (HasFailed run.new) }
    ensures tower { IsTower run.new.tower }
{
    match run.tower.cdap(alloc, site.rank, site.fac, site.node, bytes) {
        Ok(answer) => Ok(Some(Answer::Cdap {
            bytes: Seq::from_vec(answer),
        })),
        Err(CdapCallError::Memory) => Err(Memory),
        Err(error) => Ok(refused(tell_cdap(error))),
    }
}
