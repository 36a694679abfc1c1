//! The policies that every shelf begins with.
ghost use Rattle.std.specs.Prelude.{◌≡◌, ◌-◌, ◌%◌, ◌<◌, ◌≤◌, length};
ghost use Rattle.rina_policy.specs.Count.{counted, no_picks};
ghost use Rattle.rina_policy.specs.Heads.{IsEarliest, weighted_place};

use crate::count::Count;
use crate::policy::{Head, Policy};

/// Picks the first head, that of the least cube id.
#[derive(Drop)]
pub struct Strict {
    pub count: Count,
}

/// Picks the last head, that of the greatest cube id.
#[derive(Drop)]
pub struct Last {
    pub count: Count,
}

/// Picks the head that has waited longest, and of several such the first.
#[derive(Drop)]
pub struct First {
    pub count: Count,
}

/// Picks the places in turn.
#[derive(Drop)]
pub struct Round {
    pub count: Count,
}

/// Picks the first head, but at each fourth pick the last.
#[derive(Drop)]
pub struct Weighted {
    pub count: Count,
}

/// The place of the least `since`, and of several such the lowest.
fn earliest(heads: &[Head]) -> usize
    requires { 0 < length heads.now }
    ensures within { result < length heads.now }
    ensures earliest { IsEarliest heads.now result }
{
    let mut best = 0;
    for at in 1..heads.len() {
        if heads[at].since < heads[best].since {
            best = at;
        }
    }
    best
}

impl Strict {
    /// One that has not picked yet.
    pub fn new() -> Strict
        ensures { result.count ≡ no_picks }
    {
        Strict {
            count: Count::new(),
        }
    }
}

impl Policy for Strict {
    ghost count = { λ s. s.count };

    ghost may_pick = { λ _ _ _ place. place ≡ 0 };

    fn pick(&mut self, _who: u32, heads: &[Head]) -> u32
        requires some { 0 < length heads.now }
        ensures place { result ≡ 0 }
        ensures within { result < length heads.now }
        ensures counted { self.new.count ≡ counted self.old.count result }
    {
        self.count.note(0);
        0
    }

    fn picks(&self) -> u64 {
        self.count.picks
    }

    fn last(&self) -> u32 {
        self.count.last
    }
}

impl Last {
    /// One that has not picked yet.
    pub fn new() -> Last
        ensures { result.count ≡ no_picks }
    {
        Last {
            count: Count::new(),
        }
    }
}

impl Policy for Last {
    ghost count = { λ s. s.count };

    ghost may_pick = { λ _ _ heads place. place ≡ length heads - 1 };

    fn pick(&mut self, _who: u32, heads: &[Head]) -> u32
        requires some { 0 < length heads.now }
        requires few { length heads.now ≤ 256 }
        ensures place { result ≡ length heads.now - 1 }
        ensures within { result < length heads.now }
        ensures counted { self.new.count ≡ counted self.old.count result }
    {
        let place = heads.len() as u32 - 1;
        self.count.note(place);
        place
    }

    fn picks(&self) -> u64 {
        self.count.picks
    }

    fn last(&self) -> u32 {
        self.count.last
    }
}

impl First {
    /// One that has not picked yet.
    pub fn new() -> First
        ensures { result.count ≡ no_picks }
    {
        First {
            count: Count::new(),
        }
    }
}

impl Policy for First {
    ghost count = { λ s. s.count };

    ghost may_pick = { λ _ _ heads place. IsEarliest heads place };

    fn pick(&mut self, _who: u32, heads: &[Head]) -> u32
        requires some { 0 < length heads.now }
        requires few { length heads.now ≤ 256 }
        ensures place { IsEarliest heads.now result }
        ensures within { result < length heads.now }
        ensures counted { self.new.count ≡ counted self.old.count result }
    {
        let place = earliest(heads) as u32;
        self.count.note(place);
        place
    }

    fn picks(&self) -> u64 {
        self.count.picks
    }

    fn last(&self) -> u32 {
        self.count.last
    }
}

impl Round {
    /// One that has not picked yet.
    pub fn new() -> Round
        ensures { result.count ≡ no_picks }
    {
        Round {
            count: Count::new(),
        }
    }
}

impl Policy for Round {
    ghost count = { λ s. s.count };

    ghost may_pick = { λ s _ heads place. place ≡ s.count.picks % length heads };

    fn pick(&mut self, _who: u32, heads: &[Head]) -> u32
        requires some { 0 < length heads.now }
        requires few { length heads.now ≤ 256 }
        ensures place { result ≡ self.old.count.picks % length heads.now }
        ensures within { result < length heads.now }
        ensures counted { self.new.count ≡ counted self.old.count result }
    {
        let place = (self.count.picks % heads.len() as u64) as u32;
        self.count.note(place);
        place
    }

    fn picks(&self) -> u64 {
        self.count.picks
    }

    fn last(&self) -> u32 {
        self.count.last
    }
}

impl Weighted {
    /// One that has not picked yet.
    pub fn new() -> Weighted
        ensures { result.count ≡ no_picks }
    {
        Weighted {
            count: Count::new(),
        }
    }
}

impl Policy for Weighted {
    ghost count = { λ s. s.count };

    ghost may_pick = { λ s _ heads place. place ≡ weighted_place s.count.picks (length heads) };

    fn pick(&mut self, _who: u32, heads: &[Head]) -> u32
        requires some { 0 < length heads.now }
        requires few { length heads.now ≤ 256 }
        ensures place { result ≡ weighted_place self.old.count.picks (length heads.now) }
        ensures within { result < length heads.now }
        ensures counted { self.new.count ≡ counted self.old.count result }
    {
        let place = if self.count.picks % 4 == 3 {
            heads.len() as u32 - 1
        } else {
            0
        };
        self.count.note(place);
        place
    }

    fn picks(&self) -> u64 {
        self.count.picks
    }

    fn last(&self) -> u32 {
        self.count.last
    }
}
