//! Timers by id.
ghost use Rattle.std.specs.Prelude.{◌≡◌, ℕ, ◌<◌, List, length, replicate, slice_get, slice_set, None, Some, Option, IfOk};
ghost use Rattle.rina_timers.specs.Times.{IsDue, IsNoneBefore, IsSomeDue, after_due};

use crate::chains::{Chains, tick_of};
use crate::wheel::{DUE, advance, none_until, place};
use rina_base::{Memory, Tick};
use std::alloc::Global;
use std::marker::Model;

/// For each id below a number the tick at which it is set, None where it is not. A contract sees the list of
/// them by id.
///
/// They stand in a wheel of four levels of 64 slots, whose clock goes on to the first tick that is due. So setting
/// and clearing take the same time however many there are, and a timer moves at most five times before it is due.
#[derive(Drop)]
pub struct Timers {
    times: Vec<Option<Tick>>,
    /// The tick that the wheel has reached.
    clock: Tick,
    /// The slots, and before them those that are due.
    chains: Chains,
}

impl Model for Timers {
    ghost use Rattle.std.specs.Prelude.{ℕ, ◌<◌, ◌^◌, List, Option, length};
    ghost use Rattle.rina_timers.specs.Wheel.{IsPlaced};

    ghost Value = { List (Option ℕ) };

    ghost view = { λ t. t.times.items };

    ghost invariant = { λ t. IsPlaced t.times.items t.chains t.clock × (length t.times.items < 2 ^ 32) };
}

impl Timers {
    /// No timer is set; ids are those below `cap`. All memory is taken here.
    pub fn new(alloc: Global, cap: u32) -> Result<Timers, Memory>
        ensures { IfOk result (λ t. t ≡ replicate cap None) }
    {
        let times = vec![in alloc; None; cap as usize]?;
        let chains = Chains::new(alloc, cap)?;
        Ok(Timers {
            times,
            clock: 0,
            chains,
        })
    }

    /// How many ids there are. Each id is below that.
    pub fn cap(&self) -> u32
        ensures { result ≡ length self.now }
    {
        self.times.len() as u32
    }

    /// The tick at which the timer `id` is set, None where it is not.
    pub fn at(&self, id: u32) -> Option<Tick>
        requires { id < length self.now }
        ensures { slice_get self.now id ≡ Some result }
    {
        self.times[id as usize]
    }

    /// Writes the tick of a timer, or that it is not set.
    fn put(&mut self, id: u32, at: Option<Tick>)
        requires { id < length self.old }
        ensures { self.new ≡ slice_set self.old id at }
    {
        self.chains.put(id, place(self.clock, at));
        self.times[id as usize] = at;
    }

    /// Sets the timer `id`, also where it is set already. Takes no memory.
    pub fn set(&mut self, id: u32, at: Tick)
        requires { id < length self.old }
        ensures { self.new ≡ slice_set self.old id (Some at) }
    {
        self.put(id, Some(at));
    }

    /// Clears the timer `id`. Takes no memory.
    pub fn clear(&mut self, id: u32)
        requires { id < length self.old }
        ensures { self.new ≡ slice_set self.old id None }
    {
        self.put(id, None);
    }

    /// Goes on to the first timers that are due, and tells the first of them.
    fn first(&mut self, now: Tick) -> Option<u32>
        ensures due { IsDue now self.old result }
        ensures same { self.new ≡ self.old }
    {
        self.clock = advance(&mut self.chains, &self.times, self.clock, now);
        let id = self.chains.earliest(DUE, &self.times)?;
        if tick_of(&self.times, id) <= now {
            Some(id)
        } else {
            None
        }
    }

    /// Of the timers whose tick has come, the one with the least tick, and of those the least id; it is
    /// cleared. None exactly where the tick of none has come. Takes no memory.
    pub fn due(&mut self, now: Tick) -> Option<u32>
        ensures due { IsDue now self.old result }
        ensures cleared { self.new ≡ after_due result self.old }
        ensures ids { length self.new ≡ length self.old }
    {
        let id = self.first(now)?;
        self.clear(id);
        Some(id)
    }

    /// Goes on to the first timers that are due, and tells one of them.
    fn any(&mut self, now: Tick) -> Option<u32>
        ensures due { IsSomeDue now self.old result }
        ensures same { self.new ≡ self.old }
    {
        self.clock = advance(&mut self.chains, &self.times, self.clock, now);
        let id = self.chains.first(DUE)?;
        let at = tick_of(&self.times, id);
        if at <= now { Some(id) } else { self.first(now) }
    }

    /// One of the timers whose tick has come, in no order; it is cleared. None exactly where the tick of none has come. As
    /// long as `now` never goes back, it takes the same time however many are due. Takes no memory.
    pub fn any_due(&mut self, now: Tick) -> Option<u32>
        ensures due { IsSomeDue now self.old result }
        ensures cleared { self.new ≡ after_due result self.old }
        ensures ids { length self.new ≡ length self.old }
    {
        let id = self.any(now)?;
        self.clear(id);
        Some(id)
    }

    /// A tick before which no timer is set, the greatest u32 where none is: the first tick of the first slot with
    /// timers, which is found without a look at each of them. Takes no memory.
    pub fn quiet_until(&mut self) -> Tick
        ensures none { IsNoneBefore result self.old }
        ensures same { self.new ≡ self.old }
    {
        none_until(&mut self.chains, &self.times, self.clock)
    }
}
