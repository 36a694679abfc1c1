//! When an acknowledgement is made.
ghost use Rattle.std.specs.Prelude.{ℕ, ◌-◌, ◌^◌, ◌<◌, true, false, ◌≡◌, ◌&&◌, if◌then◌else◌, None};
ghost use Rattle.rina_dtcp.specs.Plans.{TellsNote, TellsPass, is_young, with_mark, without, noted_plan, passed_plan};
ghost use Rattle.rina_law.specs.Direction.{has_come};

use rina_base::Tick;
use std::marker::Model;

/// The plan of the next acknowledgement: it is made `a` ticks after the first piece, or SDU passed, that wants
/// one, but only while `delta` ticks have not gone by since the last piece that counted. A contract sees when
/// it is due, where one is planned.
#[derive(Drop)]
pub struct AckPlan {
    a: u32,
    delta: u32,
    /// The tick of the first piece, or SDU passed, since the last acknowledgement.
    since: Option<Tick>,
}

impl Model for AckPlan {
    ghost use Rattle.std.specs.Prelude.{◌+◌, option_map};
    ghost use Rattle.rina_dtcp.specs.Plans.{Plan};

    ghost Value = { Plan };

    ghost view = { λ p. record { a = p.a; delta = p.delta; mark = option_map (λ t. t + p.a) p.since } };
}

impl AckPlan {
    /// Nothing is planned yet; `a` and `delta` are the cube's, in ticks.
    pub fn new(a: u32, delta: u32) -> AckPlan
        ensures { result ≡ record { a = a; delta = delta; mark = None } }
    {
        AckPlan {
            a,
            delta,
            since: None,
        }
    }

    /// Whether `delta` ticks have not gone by since the last piece that counted.
    fn is_young(&self, now: Tick, last_in: Tick) -> bool
        ensures { result ≡ is_young now last_in self.now.delta }
    {
        now as u64 <= last_in as u64 + self.delta as u64
    }

    /// Plans one from now on, where none is planned.
    fn plan_from(&mut self, now: Tick)
        ensures { self.new ≡ with_mark now self.old }
    {
        if self.since.is_none() {
            self.since = Some(now);
        }
    }

    /// Plans none any more. Takes no memory.
    pub fn forget(&mut self)
        ensures { self.new ≡ without self.old }
    {
        self.since = None;
    }

    fn plan_noted(&mut self, now: Tick, last_in: Tick)
        ensures { self.new ≡ noted_plan now last_in self.old }
    {
        if !self.is_young(now, last_in) {
            self.forget();
        }
        self.plan_from(now);
    }

    /// Notes a piece that was accepted, held, or a duplicate. `last_in` is the tick of the last piece that
    /// counted before it, None where there was none; a plan that is forgotten by then is dropped first. Takes
    /// no memory.
    pub fn note(&mut self, now: Tick, last_in: Option<Tick>)
        ensures { TellsNote now last_in self.old self.new }
    {
        self.plan_noted(now, last_in.unwrap_or(0));
    }

    fn plan_passed(&mut self, now: Tick, last_in: Option<Tick>)
        ensures { self.new ≡ passed_plan now last_in self.old }
    {
        match last_in {
            Some(last_in) if self.is_young(now, last_in) => self.plan_from(now),
            _ => self.forget(),
        }
    }

    /// Notes an SDU that is passed: it wants an acknowledgement while `delta` ticks have not gone by since the
    /// last piece that counted; after that nothing is planned. Takes no memory.
    pub fn note_passed(&mut self, now: Tick, last_in: Option<Tick>)
        ensures { TellsPass now last_in self.old self.new }
    {
        self.plan_passed(now, last_in);
    }

    /// Whether an acknowledgement is made now; then none is planned any more. Else nothing changes. Takes no
    /// memory.
    pub fn due(&mut self, now: Tick, last_in: Tick) -> bool
        ensures due { result ≡ (has_come self.old.mark now && is_young now last_in self.old.delta) }
        ensures after { self.new ≡ (if result then without self.old else self.old) }
    {
        if self.is_due(now, last_in) {
            self.forget();
            return true;
        }
        false
    }

    /// Whether `due` would answer so now; nothing changes. Takes no memory.
    pub fn is_due(&self, now: Tick, last_in: Tick) -> bool
        ensures { result ≡ (has_come self.now.mark now && is_young now last_in self.now.delta) }
    {
        self.has_come(now) && self.is_young(now, last_in)
    }

    /// The tick at which the planned acknowledgement is due, at most the greatest u32; the greatest u32 where none is
    /// planned. Takes no memory.
    pub fn still_until(&self) -> Tick
        ensures before { (t : ℕ) → t < result → has_come self.now.mark t ≡ false }
        ensures from { result < 2 ^ 32 - 1 → has_come self.now.mark result ≡ true }
    {
        match self.since {
            Some(since) => since.saturating_add(self.a),
            None => Tick::MAX,
        }
    }

    fn has_come(&self, now: Tick) -> bool
        ensures { result ≡ has_come self.now.mark now }
    {
        match self.since {
            Some(since) => since as u64 + self.a as u64 <= now as u64,
            None => false,
        }
    }
}
