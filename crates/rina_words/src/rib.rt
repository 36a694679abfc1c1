//! The word `rib`.
ghost use Rattle.std.specs.Prelude.{◌≡◌, ◌++◌, OnOk, OnErr};
ghost use Rattle.std.specs.List.{flat_map};
ghost use Rattle.rina_base.specs.ObjectNames.{IsObjectName};
ghost use Rattle.rina_dif.specs.declared.shown.Shown.{Shown};
ghost use Rattle.rina_stack.specs.Plan.{IsPlan};
ghost use Rattle.rina_tower.specs.Stands.{IsTower};
ghost use Rattle.rina_notes.specs.Look.{Leads, Extends, noted};
ghost use Rattle.rina_notes.specs.Sites.{dif_site_at};
ghost use Rattle.rina_words.specs.Step.{ShowingRib, object_notes, path_of};
ghost use Rattle.rina_notes.specs.StepTold.{object_told};

use crate::run::Run;
use rina_base::{Memory, Name, Tick};
use rina_data::StepError;
use rina_dif::Shown;
use rina_notes::{Line, find_dif_site, refused, tell, tell_object, tell_step, tick_of};
use rina_report::{Answer, Notes, Refusal};
use rina_schedule::ObjectName;
use std::alloc::Global;

/// The name that is asked for; all objects where none is given.
#[tactic(auto, unfolding(rina_base::specs::ObjectNames::is_object_name))]
fn path_of(path: &Option<ObjectName>) -> &[u8]
    ensures path { result.now ≡ path_of path.now }
    ensures name { IsObjectName result.now }
{
    match path {
        Some(path) => path.as_bytes(),
        None => b"/",
    }
}

/// All objects, each with a note.
fn tell_all(
    alloc: Global,
    objects: &[Shown],
    line: u32,
    tick: Tick,
    trace: &mut Notes,
) -> Result<(), Memory>
    ensures ok { OnOk result (trace.new ≡ trace.old ++ flat_map (λ (x : Shown). noted line tick (object_told x)) objects.now) }
    ensures err { OnErr result (Extends trace.old trace.new) }
{
    'objects: for shown in objects {
        let says = tell_object(alloc, shown)?;
        tell(trace, line, tick, says)?;
    }
    Ok(())
}

/// The objects, or that there are none.
fn tell_objects(
    alloc: Global,
    objects: &[Shown],
    line: u32,
    tick: Tick,
    trace: &mut Notes,
) -> Result<(), Memory>
    ensures ok { OnOk result (trace.new ≡ trace.old ++ object_notes line tick objects.now) }
    ensures err { OnErr result (Extends trace.old trace.new) }
{
    if objects.is_empty() {
        return tell(trace, line, tick, Some(Answer::Nothing));
    }
    tell_all(alloc, objects, line, tick, trace)
}

/// The word `rib`.
pub fn rib(
    line: &Line<'_>,
    run: &Run,
    dif: &Name,
    node: &Name,
    path: &Option<ObjectName>,
    trace: &mut Notes,
) -> Result<(), Memory>
    requires plan { IsPlan line.now.plan.now }
    requires tower { IsTower run.now.tower }
    ensures does { OnOk result (Leads (λ ns. ShowingRib line.now.number path.now (dif_site_at line.now.plan.now dif.now node.now) run.now ns run.now) trace.old trace.new) }
    ensures more { OnErr result (Extends trace.old trace.new) }
{
    let tick = tick_of(&run.tower);
    let site = match find_dif_site(line.plan, dif, node) {
        Ok(site) => site,
        Err(field) => {
            let why = Refusal::Unknown { field };
            return tell(trace, line.number, tick, Some(Answer::Refused { why }));
        }
    };
    match run
        .tower
        .rib(line.alloc, site.rank, site.fac, site.node, path_of(path))
    {
        Ok(objects) => tell_objects(line.alloc, objects.as_slice(), line.number, tick, trace),
        Err(StepError::Memory) => Err(Memory),
        Err(error) => {
            let says = refused(tell_step(error));
            tell(trace, line.number, tick, says)
        }
    }
}
