//! When something is due at which connection.
ghost use Rattle.std.specs.Prelude.{◌≡◌, ℕ, ◌-◌, ◌^◌, ◌<◌, ◌≤◌, ◌↔◌, [], Contains, IfSome, IsTrue, OnOk, length};
ghost use Rattle.rina_flows.specs.Alarms.{HasAlarm, Sets, how_many, tick_at};
ghost use Rattle.rina_flows.specs.Quiet.{AreQuiet, AreQuietBeside, AreTimed};
ghost use Rattle.rina_flows.specs.Watching.{Clears, Notes, Shifts};

use crate::alarms::Alarms;
use rina_base::Tick;
use rina_conn::Conn;
use std::alloc::{AllocError, Global};

/// A timer for each connection, and the places of those that are looked at. At every other connection nothing is due
/// before the tick of its timer.
#[derive(Drop)]
pub struct Watch {
    /// The tick that the clock has reached.
    pub reached: Tick,
    /// No timer is set before this tick.
    pub until: Tick,
    /// The places that are looked at: those whose timers rang at this tick, and those at which something became due at it.
    pub places: Vec<usize>,
    pub alarms: Alarms,
}

/// Whether a place is one of these.
fn is_among(places: &[usize], at: usize) -> bool
    ensures { IsTrue result ↔ Contains places.now at }
{
    places.contains(&at)
}

impl Watch {
    /// No place is watched.
    pub fn new(alloc: Global) -> Watch
        ensures places { result.places.items ≡ [] }
        ensures until { result.until ≡ 2 ^ 32 - 1 }
        ensures alarms { result.alarms ≡ [] }
    {
        Watch {
            reached: 0,
            until: Tick::MAX,
            places: Vec::new(alloc),
            alarms: Alarms::new(alloc),
        }
    }

    /// Finds room to watch so many places more, and for the timers of so many places in all.
    pub fn reserve(&mut self, count: usize) -> Result<(), AllocError>
        ensures until { self.new.until ≡ self.old.until }
        ensures places { self.new.places.items ≡ self.old.places.items }
        ensures ticks { (i : ℕ) → tick_at self.new.alarms i ≡ tick_at self.old.alarms i }
        ensures keeps { length self.old.alarms ≤ length self.new.alarms }
        ensures ok { OnOk result ((at : ℕ) → at < count → HasAlarm self.new.alarms at) }
    {
        self.places.reserve(count)?;
        self.alarms.reserve(count)
    }

    /// Sets the timer of a place.
    fn set(&mut self, at: usize, tick: Tick)
        requires { HasAlarm self.old.alarms at }
        ensures sets { Sets at tick self.old.alarms self.new.alarms }
        ensures places { self.new.places.items ≡ self.old.places.items }
        ensures sooner { self.new.until ≤ self.old.until }
        ensures here { self.new.until ≤ tick }
    {
        self.alarms.set(at, tick);
        self.until = self.until.min(tick);
    }

    /// Sees to it that the timer of a place rings at this tick or sooner.
    fn set_by(&mut self, at: usize, tick: Tick)
        requires { HasAlarm self.old.alarms at }
        ensures notes { Notes at tick self.old self.new }
        ensures places { self.new.places.items ≡ self.old.places.items }
    {
        if tick < self.alarms.tick(at) {
            self.set(at, tick);
        }
    }

    /// Notes that nothing is due before the tick `quiet` at the connection of a place. Where its timer would ring too late
    /// it is set to that tick, or, where that has come, the place is looked at. Takes memory only where there is no room
    /// for the place; where that is not found, the timer is set.
    pub fn note(&mut self, at: usize, quiet: Tick)
        requires { HasAlarm self.old.alarms at }
        ensures { Notes at quiet self.old self.new }
    {
        if self.reached < quiet {
            self.set_by(at, quiet);
            return;
        }
        if self.alarms.tick(at) <= quiet || is_among(self.places.as_slice(), at) {
            return;
        }
        if self.places.push(at).is_err() {
            self.set(at, quiet);
        }
    }

    /// Clears the timer of a place at which there is no connection any more.
    pub fn clear(&mut self, at: usize)
        ensures { Clears at self.old self.new }
    {
        self.alarms.clear(at);
    }

    /// Looks at no place any more. The timer of each that was looked at rings no later than something is due there.
    fn rest(&mut self, conns: &[Conn])
        requires { AreTimed self.old.places.items self.old.until self.old.alarms conns.now }
        ensures { AreTimed self.new.places.items self.new.until self.new.alarms conns.now }
    {
        while let Some(at) = self.places.pop() {
            if at < conns.len() {
                self.set_by(at, conns[at].quiet_until());
            }
        }
    }

    /// Looks at the place of a timer whose tick has come, which is cleared. Tells whether there was one, and room to look at
    /// its place.
    fn ring(&mut self, now: Tick) -> bool
        ensures shifts { Shifts self.old self.new }
        ensures fewer { IsTrue result → how_many self.new.alarms < how_many self.old.alarms }
    {
        let Some(at) = self.alarms.due(now) else {
            return false;
        };
        if self.places.push(at).is_err() {
            self.set(at, 0);
            return false;
        }
        true
    }

    /// Looks at the places at which something may be due at this tick, and at no other.
    pub fn settle(&mut self, now: Tick, conns: &[Conn])
        requires { AreTimed self.old.places.items self.old.until self.old.alarms conns.now }
        ensures { AreTimed self.new.places.items self.new.until self.new.alarms conns.now }
    {
        self.reached = now;
        self.rest(conns);
        if now < self.until {
            return;
        }
        while self.ring(now) {}
        let until = self.alarms.quiet_until();
        self.until = until;
    }

    /// The places beside which nothing is due at this tick. None where that is not known.
    pub fn places_at(&self, now: Tick) -> Option<&[usize]>
        ensures { IfSome result (λ places. (places.now ≡ self.now.places.items) × (now < self.now.until)) }
    {
        if now < self.until {
            Some(self.places.as_slice())
        } else {
            None
        }
    }

    /// A tick before which nothing is due at any of the connections: one before which no timer is set, or sooner where
    /// something is due sooner at a place that is looked at.
    pub fn quiet_until(&self, conns: &[Conn]) -> Tick
        requires { AreQuietBeside self.now.places.items self.now.until conns.now }
        ensures { AreQuiet result conns.now }
    {
        let mut until = self.until;
        for place in 0..self.places.len() {
            let at = self.places[place];
            if at < conns.len() {
                until = until.min(conns[at].quiet_until());
            }
        }
        until
    }
}
