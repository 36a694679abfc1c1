//! The clock step of a DIF that offers a message of management, which comes after all others.
ghost use Rattle.std.specs.Prelude.{◌≡◌, ◌<◌, ◌≤◌, List, Some, OnErr, length};
ghost use Rattle.rina_iface.specs.Free.{FreesAsSeen};
ghost use Rattle.rina_iface.specs.Later.{IsLater};
ghost use Rattle.rina_law.specs.Direction.{Direction};
ghost use Rattle.rina_data.specs.Configs.{config_of};
ghost use Rattle.rina_dif_law.specs.Sending.{home};
ghost use Rattle.rina_dif.specs.FlowEnds.{ManagesStep};
ghost use Rattle.rina_dif.specs.Clocking.{ServesAnyHere};
ghost use Rattle.rina_dif.specs.Elsewhere.{ChangesOnly, MayClock};
ghost use Rattle.rina_dif.specs.Holding.{Holds, Stands};
ghost use Rattle.rina_dif.specs.Lower.{FreesBelow};
ghost use Rattle.rina_dif.specs.WaitingAsks.{KeepsStep};

use crate::dif::Dif;
use rina_base::Node;
use rina_data::{ClockStep, StepError};
use rina_iface::Facility;
use std::alloc::Global;

impl Dif {
    /// Serves the link that goes first at the IPC process at a place, at a node, or the first item that is due at the flows there.
    /// Where nothing is due, it offers the message that is due at the link of the least number. Answers Idle exactly where none is
    /// due either.
    pub(crate) fn serve_any<F: Facility>(
        &mut self,
        alloc: Global,
        below: &mut F,
        at: usize,
        node: Node,
    ) -> Result<ClockStep, StepError>
        requires valid { F.valid below.old }
        requires stands { Stands self.old (F.seen below.old) }
        requires clock { self.old.clock ≤ 10_000_000 }
        requires at { at < length self.old.settings.members }
        requires home { home node (config_of self.old.settings).members ≡ Some at }
        ensures valid { F.valid below.new }
        ensures below { F.same_below below.old below.new }
        ensures later { IsLater (F.seen below.old) (F.seen below.new) }
        ensures does { (lines : List Direction) → Holds self.old lines (F.seen below.old) → ServesAnyHere self.old lines (F.seen below.old) node result self.new (F.seen below.new) }
        ensures lower { FreesBelow (below.new ≡ below.old) (FreesAsSeen F.seen F.frees_both F.does_free below.old below.new) result }
        ensures same { (self.new.settings ≡ self.old.settings) × (self.new.failed ≡ self.old.failed) }
        ensures laid { self.new.laid ≡ self.old.laid }
        ensures whole { self.new ≡ record self.old { processes = self.new.processes; connections = self.new.connections; flows = self.new.flows; ids = self.new.ids; asks = self.new.asks; managements = self.new.managements } }
        ensures stays { OnErr result (self.new.connections ≡ self.old.connections) }
        ensures manages { ManagesStep result (Some at) self.old (F.seen below.old) node self.new.managements }
        ensures keeps { KeepsStep result self.old node self.new }
        ensures leaves { ChangesOnly (MayClock result self.old (Some at)) (Some at) self.old self.new }
    {
        match self.serve_next(alloc, below, at, node)? {
            ClockStep::Idle => match self.offer_message(alloc, &*below, at)? {
                Some(link) => Ok(ClockStep::Message { link }),
                None => Ok(ClockStep::Idle),
            },
            done => Ok(done),
        }
    }
}
