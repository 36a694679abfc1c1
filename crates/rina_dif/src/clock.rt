//! The clock of a DIF.
ghost use Rattle.std.specs.Prelude.{◌≡◌, ◌≤◌, ◌-◌, List, map};
ghost use Rattle.rina_iface.specs.Journal.{AreKept};
ghost use Rattle.rina_iface.specs.Seen.{Seen};
ghost use Rattle.rina_law.specs.Direction.{Direction};
ghost use Rattle.rina_data.specs.Configs.{config_of};
ghost use Rattle.rina_dif_law.specs.Lifting.{IsLifted, ticked};
ghost use Rattle.rina_dif_law.specs.Passing.{IsTicked};
ghost use Rattle.rina_dif_law.specs.Upward.{IsSilent};
ghost use Rattle.rina_dif.specs.Holding.{Holds};
ghost use Rattle.rina_dif.specs.Shown.{seen_of};

use crate::dif::Dif;
use rina_base::Tick;

impl Dif {
    /// Sets the clock, which goes on with that of the rank below.
    pub fn clock_to(&mut self, now: Tick)
        requires { self.old.clock ≤ now }
        ensures ticks { (lines : List Direction) → IsTicked (seen_of self.old) lines now (seen_of self.new) (map (ticked (now - self.old.clock)) lines) }
        ensures keeps { (lines : List Direction) (below below' : Seen) → AreKept below' → IsLifted (config_of self.old.settings) below below' → below'.now ≡ now → Holds self.old lines below → Holds self.new (map (ticked (now - self.old.clock)) lines) below' }
        ensures silent { IsSilent (seen_of self.old) (seen_of self.new) }
        ensures whole { self.new ≡ record self.old { clock = now } }
        ensures settings { self.new.settings ≡ self.old.settings }
        ensures laid { self.new.laid ≡ self.old.laid }
        ensures failed { self.new.failed ≡ self.old.failed }
    {
        self.flows.settle(now);
        self.connections.flows.settle(now);
        self.clock = now;
    }
}
