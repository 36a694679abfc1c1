//! What a policy remembers of its picks.
ghost use Rattle.std.specs.Prelude.{◌≡◌};
ghost use Rattle.rina_policy.specs.Count.{counted, no_picks};

/// How often a policy has picked, and what it picked last.
#[derive(Clone, Copy, Debug, PartialEq, Eq)]
pub struct Count {
    /// How many picks there were; it stays at the greatest u64.
    pub picks: u64,
    /// The place that the last pick answered, and 0 before the first.
    pub last: u32,
}

impl Count {
    /// No pick yet.
    pub fn new() -> Count
        ensures { result ≡ no_picks }
    {
        Count { picks: 0, last: 0 }
    }

    /// Notes one more pick.
    pub fn note(&mut self, place: u32)
        ensures { self.new ≡ counted self.old place }
    {
        self.picks = self.picks.saturating_add(1);
        self.last = place;
    }
}
