//! The word `ledger`.
ghost use Rattle.std.specs.Prelude.{◌≡◌, ◌++◌, OnOk, OnErr, option_map, List};
ghost use Rattle.std.specs.Borrow.{Bor};
ghost use Rattle.rina_account.specs.declared.ledger.Off.{Off};
ghost use Rattle.std.specs.List.{flat_map};
ghost use Rattle.rina_stack.specs.Plan.{IsPlan};
ghost use Rattle.rina_tower.specs.Stands.{IsTower};
ghost use Rattle.rina_notes.specs.Look.{Leads, Extends, noted};
ghost use Rattle.rina_notes.specs.Sites.{dif_site_at};
ghost use Rattle.rina_words.specs.Step.{Accounting, ledger_notes};
ghost use Rattle.rina_notes.specs.StepTold.{off_told};

use crate::run::Run;
use rina_account::Off;
use rina_base::{Memory, Name, Tick};
use rina_iface::Facility;
use rina_notes::{Line, find_dif_site, tell, tell_off, tick_of};
use rina_report::{Answer, Notes, Refusal};

/// All write-offs, each with a note.
fn tell_offs(
    line: &Line<'_>,
    rank: u16,
    offs: &[Off],
    tick: Tick,
    trace: &mut Notes,
) -> Result<(), Memory>
    ensures ok { OnOk result (trace.new ≡ trace.old ++ flat_map (λ (x : Off). noted line.now.number tick (off_told line.now.plan.now rank x)) offs.now) }
    ensures err { OnErr result (Extends trace.old trace.new) }
{
    'offs: for off in offs {
        let says = tell_off(line.alloc, line.plan, rank, off)?;
        tell(trace, line.number, tick, says)?;
    }
    Ok(())
}

/// The write-offs of a member, or that there is none.
fn tell_ledger(
    line: &Line<'_>,
    rank: u16,
    offs: Option<&[Off]>,
    tick: Tick,
    trace: &mut Notes,
) -> Result<(), Memory>
    ensures ok { OnOk result (trace.new ≡ trace.old ++ ledger_notes line.now.plan.now rank line.now.number tick (option_map (λ (s : Bor (List Off)). s.now) offs.entry)) }
    ensures err { OnErr result (Extends trace.old trace.new) }
{
    let Some(offs) = offs else {
        let why = Refusal::NoIpc;
        return tell(trace, line.number, tick, Some(Answer::Refused { why }));
    };
    if offs.is_empty() {
        return tell(trace, line.number, tick, Some(Answer::Nothing));
    }
    tell_offs(line, rank, offs, tick, trace)
}

/// The word `ledger`.
pub fn ledger(
    line: &Line<'_>,
    run: &Run,
    dif: &Name,
    node: &Name,
    trace: &mut Notes,
) -> Result<(), Memory>
    requires plan { IsPlan line.now.plan.now }
    requires tower { IsTower run.now.tower }
    ensures does { OnOk result (Leads (λ ns. Accounting line.now.plan.now line.now.number (dif_site_at line.now.plan.now dif.now node.now) run.now ns run.now) trace.old trace.new) }
    ensures more { OnErr result (Extends trace.old trace.new) }
{
    let tick = tick_of(&run.tower);
    let site = match find_dif_site(line.plan, dif, node) {
        Ok(site) => site,
        Err(field) => {
            let why = Refusal::Unknown { field };
            return tell(trace, line.number, tick, Some(Answer::Refused { why }));
        }
    };
    let offs = run.tower.ledger(site.rank, site.fac, site.node);
    tell_ledger(line, site.rank, offs, tick, trace)
}
