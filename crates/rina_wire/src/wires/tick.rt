//! One tick of all wires.
ghost use Rattle.std.specs.Prelude.{◌≡◌, map, OnOk, OnErr};
ghost use Rattle.rina_iface.specs.Later.{IsLater};
ghost use Rattle.rina_wire.specs.Air.{seen_of};
ghost use Rattle.rina_wire.specs.Sound.{IsSound};
ghost use Rattle.rina_wire.specs.Tick.{AllPart, TicksOn, line_ticked};

use super::Wires;
use crate::tick::TickError;
use crate::wire::Wire;
use rina_base::{Memory, Tick};
use std::alloc::Global;

/// Delivers what is due on each wire.
fn tick_all(alloc: Global, wires: &mut Vec<Wire>, clock: Tick) -> Result<(), Memory>
    ensures ok { OnOk result (wires.new.items ≡ map (line_ticked clock) wires.old.items) }
    ensures err { OnErr result (AllPart clock wires.old.items wires.new.items) }
{
    for at in 0..wires.len() {
        let wire = &mut wires[at];
        wire.tick(alloc, clock)?;
    }
    Ok(())
}

impl Wires {
    /// One tick: the clock goes on, and the copies that are due arrive.
    fn go_on(&mut self, alloc: Global) -> Result<(), TickError>
        ensures { TicksOn self.old result self.new }
    {
        if self.failed {
            return Err(TickError::Memory);
        }
        if self.clock >= 10_000_000 {
            return Err(TickError::ClockSpent);
        }
        self.clock += 1;
        if tick_all(alloc, &mut self.wires, self.clock).is_err() {
            self.failed = true;
            return Err(TickError::Memory);
        }
        Ok(())
    }

    /// One tick: the clock goes on, and the copies that are due arrive, wire by wire, each wire's in
    /// the order in which they were made.
    #[tactic(auto, using(crate::proofs::SoundTick::sound_ticks, crate::proofs::LaterTick::ticks_later))]
    pub fn tick(&mut self, alloc: Global) -> Result<(), TickError>
        requires { IsSound self.old }
        ensures valid { IsSound self.new }
        ensures later { IsLater (seen_of self.old) (seen_of self.new) }
        ensures exact { TicksOn self.old result self.new }
    {
        self.go_on(alloc)
    }
}
