//! How long nothing arrives on a wire.
ghost use Rattle.std.specs.Prelude.{◌≡◌, [], true};
ghost use Rattle.rina_wire.specs.Resting.{AreQuietCopies, IsLast, IsQuietLine};

use super::Wire;
use crate::flight::Flight;
use rina_base::Tick;

/// The first tick at which one of the copies arrives. `Tick::MAX` where there is none.
fn first_arrival(flights: &[Flight]) -> Tick
    ensures quiet { AreQuietCopies result flights.now }
    ensures last { IsLast (λ until. AreQuietCopies until flights.now) result }
{
    let mut until = Tick::MAX;
    for place in 0..flights.len() {
        until = until.min(flights[place].due);
    }
    until
}

impl Wire {
    /// The first tick at which a copy in flight arrives. `Tick::MAX` where none is in flight.
    pub fn quiet_until(&self) -> Tick
        ensures quiet { IsQuietLine result self.now }
        ensures last { IsLast (λ until. IsQuietLine until self.now) result }
    {
        first_arrival(self.flights.as_slice())
    }

    /// Whether no far end waits to be claimed.
    pub fn none_waits(&self) -> bool
        ensures { result ≡ true → self.now.waiting ≡ [] }
    {
        self.waiting.len() == 0
    }
}
