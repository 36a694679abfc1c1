//! A timer for each connection.
ghost use Rattle.std.specs.Prelude.{◌≡◌, ℕ, ◌<◌, ◌≤◌, ◌^◌, ◌-◌, [], List, Option, None, OnOk, length};
ghost use Rattle.rina_flows.specs.Alarms.{HasAlarm, IsRung, Sets, tick_at};

use rina_base::Tick;
use rina_timers::Timers;
use std::alloc::{AllocError, Global};
use std::marker::Model;

/// For how many places there is room at first.
const FIRST: u32 = 64;

/// For each place the tick at which its timer is set, None where it is not. A contract sees the list of them. A timer
/// that is not set tells as much as one that is set to the last tick.
#[derive(Drop)]
pub struct Alarms {
    alloc: Global,
    /// None before the first place.
    timers: Option<Timers>,
}

impl Model for Alarms {
    ghost use Rattle.std.specs.Prelude.{ℕ, List, Option};
    ghost use Rattle.rina_flows.specs.Alarms.{times_of};

    ghost Value = { List (Option ℕ) };

    ghost view = { λ a. times_of a.timers };
}

/// The place of a timer.
fn place_of(id: u32) -> usize
    ensures place { result ≡ id }
    ensures few { id < 2 ^ 32 }
{
    id as usize
}

/// Sets the timers of these as those are set. None of them was.
fn copy(from: &Timers, timers: &mut Timers)
    requires none { (i : ℕ) → tick_at timers.old i ≡ 2 ^ 32 - 1 }
    requires room { length from.now ≤ length timers.old }
    ensures ticks { (i : ℕ) → tick_at timers.new i ≡ tick_at from.now i }
    ensures long { length timers.new ≡ length timers.old }
{
    for id in 0..from.cap() {
        if let Some(at) = from.at(id) {
            timers.set(id, at);
        }
    }
}

impl Alarms {
    /// No places yet.
    pub fn new(alloc: Global) -> Alarms
        ensures { result ≡ [] }
    {
        Alarms {
            alloc,
            timers: None,
        }
    }

    /// How many places have a timer.
    fn cap(&self) -> u32
        ensures { result ≡ length self.now }
    {
        match &self.timers {
            Some(timers) => timers.cap(),
            None => 0,
        }
    }

    /// The tick at which the timer of a place is set, the last one where it is not.
    pub fn tick(&self, at: usize) -> Tick
        requires { HasAlarm self.now at }
        ensures { result ≡ tick_at self.now at }
    {
        match &self.timers {
            Some(timers) => timers.at(at as u32).unwrap_or(Tick::MAX),
            None => Tick::MAX,
        }
    }

    /// Sets the timer of a place. Takes no memory.
    pub fn set(&mut self, at: usize, tick: Tick)
        requires { HasAlarm self.old at }
        ensures { Sets at tick self.old self.new }
    {
        let Some(timers) = &mut self.timers else {
            return;
        };
        if tick < Tick::MAX {
            timers.set(at as u32, tick);
        } else {
            timers.clear(at as u32);
        }
    }

    /// Clears the timer of a place, where it has one.
    pub fn clear(&mut self, at: usize)
        ensures { Sets at (2 ^ 32 - 1) self.old self.new }
    {
        if at < self.cap() as usize {
            self.set(at, Tick::MAX);
        }
    }

    /// A place whose timer's tick has come; the timer is cleared. None where the tick of none has come.
    pub fn due(&mut self, now: Tick) -> Option<usize>
        ensures { IsRung result self.old self.new }
    {
        let Some(timers) = &mut self.timers else {
            return None;
        };
        let id = timers.any_due(now)?;
        let at = place_of(id);
        Some(at)
    }

    /// A tick before which no timer is set, the last one where none is.
    pub fn quiet_until(&mut self) -> Tick
        ensures least { (at : ℕ) → result ≤ tick_at self.old at }
        ensures same { self.new ≡ self.old }
    {
        match &mut self.timers {
            Some(timers) => timers.quiet_until(),
            None => Tick::MAX,
        }
    }

    /// Finds room for the timers of so many places, by doubling. Without memory nothing changes.
    pub fn reserve(&mut self, count: usize) -> Result<(), AllocError>
        ensures ticks { (i : ℕ) → tick_at self.new i ≡ tick_at self.old i }
        ensures keeps { length self.old ≤ length self.new }
        ensures ok { OnOk result ((at : ℕ) → at < count → HasAlarm self.new at) }
    {
        let Ok(count) = u32::try_from(count) else {
            return Err(AllocError);
        };
        let cap = self.cap();
        if count <= cap {
            return Ok(());
        }
        let Ok(mut timers) = Timers::new(self.alloc, count.max(cap.saturating_mul(2)).max(FIRST))
        else {
            return Err(AllocError);
        };
        if let Some(from) = &self.timers {
            copy(from, &mut timers);
        }
        self.timers = Some(timers);
        Ok(())
    }
}
