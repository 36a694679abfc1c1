//! The sequence numbers of a sender. They begin again at 0 once nothing of the last run can be left (Watson's delta-t).
ghost use Rattle.std.specs.Prelude.{◌≡◌, ◌+◌, ◌*◌, ◌^◌, ◌<◌, ◌≤◌, None, Some, IfOk};

use rina_base::Tick;

/// The last number of an SDU would pass the greatest one. The numbers begin again at tick `until`, where nothing
/// is unacknowledged and nothing is sent before.
#[derive(Clone, Copy, Debug, PartialEq, Eq)]
pub struct NumbersSpent {
    pub until: Tick,
}

/// The numbers of one sender, 0 to `max`.
#[derive(Clone, Copy, Debug, PartialEq, Eq)]
pub struct Numbers {
    /// The greatest number, of a width of 1, 2 or 4 bytes.
    pub max: u32,
    /// How many numbers of the present run were taken, 0 before the first.
    pub next: u64,
    /// The tick at which a piece was last made, first or again; 0 before the first.
    pub last_out: Tick,
    pub ghost within: { next ≤ max + 1 },
    pub ghost in_time: { last_out ≤ 10000000 },
}

impl Numbers {
    ghost use Rattle.rina_dtp.specs.Numbers.{is_absent, next_from, IsTaken, TakesNumbers, NotesAgain, IsNextNumber};

    /// Nothing was sent yet.
    pub fn new(max: u32) -> Numbers
        ensures max { result.max ≡ max }
        ensures next { result.next ≡ 0 }
        ensures last_out { result.last_out ≡ 0 }
    {
        Numbers {
            max,
            next: 0,
            last_out: 0,
        }
    }

    /// Whether the sender has no state.
    #[tactic(auto, unfolding(crate::specs::Numbers::is_absent))]
    fn is_absent(&self, now: Tick, idle: bool, delta: u32) -> bool
        requires { delta ≤ 3000000 }
        ensures { result ≡ is_absent now idle delta self.now }
    {
        self.next == 0 || (idle && self.last_out + 3 * delta <= now)
    }

    /// The number that is taken next.
    fn next_from(&self, absent: bool) -> u64
        ensures next { result ≡ next_from absent self.now }
        ensures within { result ≤ self.now.max + 1 }
    {
        if absent { 0 } else { self.next }
    }

    /// Takes numbers, and answers the first of them.
    fn take_from(
        &mut self,
        now: Tick,
        count: u32,
        until: Tick,
        first: u64,
    ) -> Result<u32, NumbersSpent>
        requires now { now ≤ 10000000 }
        requires first { first ≤ self.old.max + 1 }
        requires count { 1 ≤ count }
        ensures taken { IsTaken now count until first self.old result self.new }
        ensures fits { IfOk result (λ n. n + count ≤ 2 ^ 32) }
    {
        let next = first + u64::from(count);
        if next > u64::from(self.max) + 1 {
            return Err(NumbersSpent { until });
        }
        self.next = next;
        self.last_out = now;
        Ok(first as u32)
    }

    /// Takes `count` numbers, 1 to 256, that follow each other, and answers the first. `idle` says that nothing is
    /// unacknowledged, and `delta` is that of the cube, in ticks: where the sender has no state, the numbers begin
    /// again at 0.
    pub fn take(
        &mut self,
        now: Tick,
        count: u32,
        idle: bool,
        delta: u32,
    ) -> Result<u32, NumbersSpent>
        requires now { now ≤ 10000000 }
        requires count { 1 ≤ count }
        requires delta { delta ≤ 3000000 }
        ensures taken { TakesNumbers now count idle delta self.old result self.new }
        ensures fits { IfOk result (λ n. n + count ≤ 2 ^ 32) }
    {
        let absent = self.is_absent(now, idle, delta);
        let first = self.next_from(absent);
        self.take_from(now, count, self.last_out + 3 * delta, first)
    }

    /// Notes that a number of the run was made again.
    pub fn again(&mut self, now: Tick)
        requires { now ≤ 10000000 }
        ensures { NotesAgain now self.old self.new }
    {
        self.last_out = now;
    }

    /// The sender's next number; None exactly where it has no state.
    pub fn next(&self, now: Tick, idle: bool, delta: u32) -> Option<u64>
        requires { delta ≤ 3000000 }
        ensures { IsNextNumber now idle delta self.now result }
    {
        if self.is_absent(now, idle, delta) {
            None
        } else {
            Some(self.next)
        }
    }
}
