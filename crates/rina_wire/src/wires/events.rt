//! Events of a wire.
ghost use Rattle.std.specs.Prelude.{◌≡◌};
ghost use Rattle.rina_iface.specs.Later.{IsLater};
ghost use Rattle.rina_wire.specs.Air.{seen_of};
ghost use Rattle.rina_wire.specs.Cut.{CutsOn, MendsOn};
ghost use Rattle.rina_wire.specs.Disturb.{HoldsOn, LosesOn, RepeatsOn};
ghost use Rattle.rina_wire.specs.Sound.{IsSound};

use super::Wires;
use crate::event::WireError;
use rina_base::Tick;
use std::alloc::Global;

impl Wires {
    /// Drops the first copy in flight of a frame.
    fn lose_copy(&mut self, wire: u16, k: u64) -> Result<(), WireError>
        ensures { LosesOn self.old wire k result self.new }
    {
        let Some(line) = self.wires.get(wire as usize) else {
            return Err(WireError::NoWire);
        };
        if line.first_copy(k).is_none() {
            return Err(WireError::NoFrame { k });
        }
        self.wires[wire as usize].lose(k);
        Ok(())
    }

    /// Adds a copy of a frame.
    fn add_copy(&mut self, alloc: Global, wire: u16, k: u64, at: Tick) -> Result<(), WireError>
        ensures { RepeatsOn self.old wire k at result self.new }
    {
        if self.failed {
            return Err(WireError::Memory);
        }
        let Some(line) = self.wires.get(wire as usize) else {
            return Err(WireError::NoWire);
        };
        let Some(copy) = line.first_copy(k) else {
            return Err(WireError::NoFrame { k });
        };
        if at <= self.clock {
            return Err(WireError::EarlyHold { now: self.clock });
        }
        let last = line.last_tick(copy);
        if u64::from(at) > last {
            return Err(WireError::LateHold { last: last as Tick });
        }
        if self.wires[wire as usize].repeat(alloc, k, at).is_err() {
            self.failed = true;
            return Err(WireError::Memory);
        }
        Ok(())
    }

    /// Lets the first copy in flight of a frame arrive at another tick.
    fn move_copy(&mut self, wire: u16, k: u64, at: Tick) -> Result<(), WireError>
        ensures { HoldsOn self.old wire k at result self.new }
    {
        let Some(line) = self.wires.get(wire as usize) else {
            return Err(WireError::NoWire);
        };
        let Some(copy) = line.first_copy(k) else {
            return Err(WireError::NoFrame { k });
        };
        if self.clock >= at {
            return Err(WireError::EarlyHold { now: self.clock });
        }
        let last = line.last_tick(copy);
        if last < u64::from(at) {
            return Err(WireError::LateHold { last: last as Tick });
        }
        self.wires[wire as usize].hold(k, at);
        Ok(())
    }

    /// Loses the first copy in flight of frame `k`: it will not arrive.
    #[tactic(auto, using(crate::proofs::SoundDisturb::sound_loses, crate::proofs::SoundDisturb::loses_unseen))]
    pub fn lose(&mut self, wire: u16, k: u64) -> Result<(), WireError>
        requires { IsSound self.old }
        ensures valid { IsSound self.new }
        ensures journals { seen_of self.new ≡ seen_of self.old }
        ensures exact { LosesOn self.old wire k result self.new }
    {
        self.lose_copy(wire, k)
    }

    /// Adds a copy of frame `k`, like the first one in flight, which arrives at tick `at`: later than
    /// now, and at most the wire's life after the frame was sent.
    #[tactic(auto, using(crate::proofs::SoundDisturb::sound_repeats, crate::proofs::SoundDisturb::repeats_unseen))]
    pub fn repeat(&mut self, alloc: Global, wire: u16, k: u64, at: Tick) -> Result<(), WireError>
        requires { IsSound self.old }
        ensures valid { IsSound self.new }
        ensures journals { seen_of self.new ≡ seen_of self.old }
        ensures exact { RepeatsOn self.old wire k at result self.new }
    {
        self.add_copy(alloc, wire, k, at)
    }

    /// Lets the first copy in flight of frame `k` arrive at tick `at` instead: later than now, and at
    /// most the wire's life after the frame was sent. It keeps its turn among the copies.
    #[tactic(auto, using(crate::proofs::SoundDisturb::sound_holds, crate::proofs::SoundDisturb::holds_unseen))]
    pub fn hold(&mut self, wire: u16, k: u64, at: Tick) -> Result<(), WireError>
        requires { IsSound self.old }
        ensures valid { IsSound self.new }
        ensures journals { seen_of self.new ≡ seen_of self.old }
        ensures exact { HoldsOn self.old wire k at result self.new }
    {
        self.move_copy(wire, k, at)
    }

    fn cut_wire(&mut self, wire: u16) -> Result<(), WireError>
        ensures { CutsOn self.old wire result self.new }
    {
        if self.wires.get(wire as usize).is_none() {
            return Err(WireError::NoWire);
        }
        self.wires[wire as usize].cut(self.clock);
        Ok(())
    }

    fn mend_wire(&mut self, wire: u16) -> Result<(), WireError>
        ensures { MendsOn self.old wire result self.new }
    {
        if self.wires.get(wire as usize).is_none() {
            return Err(WireError::NoWire);
        }
        self.wires[wire as usize].mend();
        Ok(())
    }

    /// Cuts a wire: the copies in flight are dropped, and a flow that is allocated fails at both ends.
    /// A wire that is cut already stays as it is.
    #[tactic(auto, using(crate::proofs::SoundCut::sound_cuts, crate::proofs::SoundCut::cuts_later))]
    pub fn cut(&mut self, wire: u16) -> Result<(), WireError>
        requires { IsSound self.old }
        ensures valid { IsSound self.new }
        ensures later { IsLater (seen_of self.old) (seen_of self.new) }
        ensures exact { CutsOn self.old wire result self.new }
    {
        self.cut_wire(wire)
    }

    /// Mends a wire: it may be asked for again.
    #[tactic(auto, using(crate::proofs::SoundCut::sound_mends, crate::proofs::SoundCut::mends_unseen))]
    pub fn mend(&mut self, wire: u16) -> Result<(), WireError>
        requires { IsSound self.old }
        ensures valid { IsSound self.new }
        ensures journals { seen_of self.new ≡ seen_of self.old }
        ensures exact { MendsOn self.old wire result self.new }
    {
        self.mend_wire(wire)
    }
}
