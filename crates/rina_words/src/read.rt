//! The word `read`.
ghost use Rattle.std.specs.Prelude.{◌≡◌, ◌≢◌, None, MatchOption, OnOk, OnErr};
ghost use Rattle.rina_notes.specs.Look.{Leads, Extends};
ghost use Rattle.rina_notes.specs.Sites.{port_in};
ghost use Rattle.rina_words.specs.Step.{IsWaiting, Reading, ReadsAll, waiting};
ghost use Rattle.rina_tower.specs.Stands.{IsTower};

use crate::run::Run;
use rina_base::{Memory, Name, Port, Seq};
use rina_iface::{Facility, Lent};
use rina_notes::{tell, tick_of};
use rina_report::{Answer, Notes, Refusal};
use rina_tower::Tower;
use std::alloc::Global;

/// The oldest SDU that waits for an application at a port of a rank.
fn oldest(tower: &Tower, rank: u16, port: Port) -> Option<Lent<'_>>
    requires { IsTower tower.now }
    ensures { MatchOption result (waiting tower.now rank port ≡ None) (λ l. IsWaiting tower.now rank port l.at l.bytes.now) }
{
    let at = tower.rank(rank)?;
    if at.is_ipc_port(port) {
        return None;
    }
    at.peek(port)
}

/// Reads all SDUs that wait at the port of a label, each with a note.
pub fn read(
    alloc: Global,
    run: &mut Run,
    line: u32,
    label: &Name,
    trace: &mut Notes,
) -> Result<(), Memory>
    requires { IsTower run.old.tower }
    ensures does { OnOk result (Leads (λ ns. Reading line (port_in run.old.labels label.now) run.old ns run.new) trace.old trace.new) }
    ensures more { OnErr result (Extends trace.old trace.new) }
    ensures sound { IsTower run.new.tower }
{
    let Some((rank, port)) = run.labels.port(label) else {
        let why = Refusal::Unknown { field: 1 };
        return tell(
            trace,
            line,
            tick_of(&run.tower),
            Some(Answer::Refused { why }),
        );
    };
    if oldest(&run.tower, rank, port).is_none() {
        return tell(trace, line, tick_of(&run.tower), Some(Answer::Nothing));
    }
    read_all(alloc, run, line, rank, port, trace)
}

/// Reads all SDUs that wait at a port, each with a note. An allocation fails only where one waits still.
fn read_all(
    alloc: Global,
    run: &mut Run,
    line: u32,
    rank: u16,
    port: Port,
    trace: &mut Notes,
) -> Result<(), Memory>
    requires { IsTower run.old.tower }
    ensures does { OnOk result (ReadsAll line rank port run.old trace.old run.new trace.new) }
    ensures waits { OnErr result (waiting run.new.tower rank port ≢ None) }
    ensures more { OnErr result (Extends trace.old trace.new) }
    ensures sound { IsTower run.new.tower }
{
    // Each SDU has a note, and there are no more notes than can be counted.
    let mut told = trace.len();
    'entries: loop {
        let Some(lent) = oldest(&run.tower, rank, port) else {
            return Ok(());
        };
        let bytes = Seq::copy_of(alloc, lent.bytes)?;
        let got = Answer::Got { at: lent.at, bytes };
        tell(trace, line, tick_of(&run.tower), Some(got))?;
        run.tower.app_pass(rank, port);
        told = trace.len();
    }
}
