//! How the SDUs that a DIF delivered are taken from it.
ghost use Rattle.std.specs.Prelude.{◌≡◌, ◌<◌, List, length, slice_get, Some};
ghost use Rattle.rina_iface.specs.Seen.{Seen};
ghost use Rattle.rina_iface.specs.declared.ends.End.{End};
ghost use Rattle.rina_law.specs.Direction.{Direction};
ghost use Rattle.rina_flows.specs.Elsewhere.{ChangesAt};
ghost use Rattle.rina_dif.specs.Holding.{Holds, Passes, Stands};

use crate::dif::Dif;

impl Dif {
    /// Passes the oldest SDU of the end at a place, counted from 0, where one waits. Takes no memory.
    pub(crate) fn pass_at(&mut self, at: usize)
        requires stands { (below : Seen) × Stands self.old below }
        requires end { at < length self.old.flows.journal.ends }
        requires waits { (e : End) → slice_get self.old.flows.journal.ends at ≡ Some e → e.taken < length e.got }
        ensures does { (lines : List Direction) (below : Seen) → Holds self.old lines below → Passes self.old lines at self.new below }
        ensures same { (self.new.settings ≡ self.old.settings) × (self.new.failed ≡ self.old.failed) }
        ensures laid { self.new.laid ≡ self.old.laid }
        ensures whole { self.new ≡ record self.old { flows = self.new.flows } }
        ensures leaves { ChangesAt (λ i. i ≡ at) self.old.flows self.new.flows }
    {
        self.flows.pass(self.clock, at);
    }
}
