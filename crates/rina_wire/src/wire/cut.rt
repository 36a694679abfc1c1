//! What ends a flow of a wire.
ghost use Rattle.std.specs.Prelude.{◌≡◌, ◌<◌, ◌^◌, length, slice_get, Some};
ghost use Rattle.rina_iface.specs.declared.ends.End.{End};
ghost use Rattle.rina_wire.specs.Cut.{cut_line, mended};
ghost use Rattle.rina_wire.specs.Free.{closed_at, closed_both, freed_at};

use super::Wire;
use super::frame::mate;
use rina_base::Tick;
use rina_iface::{Ends, PortState};

/// Closes the end at a place, where it is there.
fn close(ends: &mut Ends, place: usize)
    ensures { ends.new ≡ closed_at ends.old place }
{
    if ends.get(place).is_none() {
        return;
    }
    ends.set_state(place, PortState::Closed);
}

/// Closes both ends of the flow of the end at this place.
fn close_both(ends: &mut Ends, place: usize)
    requires { place < 2 ^ 63 }
    ensures { ends.new ≡ closed_both ends.old place }
{
    close(ends, place);
    close(ends, mate(place));
}

impl Wire {
    /// Drops the copies in flight, and lets a flow that is allocated fail at both ends.
    pub fn cut(&mut self, clock: Tick)
        ensures { self.new ≡ cut_line clock self.old }
    {
        if self.cut {
            return;
        }
        self.journal.ends.cut(clock);
        self.flights.clear();
        self.cut = true;
    }

    /// Lets it be asked for again.
    pub fn mend(&mut self)
        ensures { self.new ≡ mended self.old }
    {
        self.cut = false;
    }

    /// Closes the flow of the end at this place at both ends, where it is allocated, and drops the
    /// copies in flight.
    pub fn free(&mut self, place: usize)
        requires within { place < length self.old.ends }
        requires bound { place < 2 ^ 63 }
        ensures { (e : End) → slice_get self.old.ends place ≡ Some e → self.new ≡ freed_at self.old place e }
    {
        let Some(end) = self.journal.ends.get(place) else {
            unreachable!()
        };
        if !matches!(end.state, PortState::Allocated) {
            return;
        }
        close_both(&mut self.journal.ends, place);
        self.flights.clear();
    }
}
