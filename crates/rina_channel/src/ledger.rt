//! The lines that a management connection writes into a ledger.
ghost use Rattle.std.specs.Prelude.{◌≡◌, ◌<◌, ◌≤◌, length, map};
ghost use Rattle.std.specs.Vec.{vec_capacity};
ghost use Rattle.rina_flows.specs.Elsewhere.{ChangesAt};
ghost use Rattle.rina_channel.specs.Ledgers.{StopsOn, unnamed_from, unnamed_line};

use rina_account::{Ledger, Off};
use rina_base::Tick;
use rina_flows::Flows;
use rina_iface::PortState;
use std::alloc::Global;

/// Lets all these lines have source 0, as the PDUs of a link have.
fn unname_all(lines: &mut [Off])
    ensures { lines.new ≡ map unnamed_line lines.old }
{
    for line in lines.iter_mut() {
        line.key.src = 0;
    }
}

/// Lets the lines from a place on have source 0, as the PDUs of a link have. Takes no memory.
fn unname_from(lines: &mut Vec<Off>, from: usize)
    ensures lines { lines.new.items ≡ unnamed_from from lines.old.items }
    ensures capacity { vec_capacity lines.new ≡ vec_capacity lines.old }
{
    if from < lines.len() {
        unname_all(&mut lines[from..]);
    }
}

/// Lets the lines of a ledger from a place on have source 0, as the PDUs of a link have: a management connection writes
/// them with the place of its other end. Takes no memory.
pub fn unname_lines(ledger: &mut Ledger, alloc: Global, from: usize)
    ensures { ledger.new ≡ unnamed_from from ledger.old }
{
    let mut lines = ledger.take(alloc);
    unname_from(&mut lines, from);
    ledger.put(lines);
}

/// Ends the end of a management connection at a place with a state other than `Allocated`, and writes off what it holds
/// behind these lines, with the names of its link. Takes memory only where they have no room.
pub fn stop_with_room(
    flows: &mut Flows,
    now: Tick,
    at: usize,
    state: PortState,
    lines: &mut Vec<Off>,
)
    requires end { at < length flows.old.journal.ends }
    requires conn { at < length flows.old.conns }
    ensures stops { StopsOn now at state flows.old lines.old.items (vec_capacity lines.old) flows.new lines.new.items }
    ensures leaves { ChangesAt (λ i. i ≡ at) flows.old flows.new }
    ensures capacity { vec_capacity lines.old ≤ vec_capacity lines.new }
{
    let from = lines.len();
    flows.stop_with_room(now, at, state, lines);
    unname_from(lines, from);
}
