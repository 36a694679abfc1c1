//! When the DIFs of a rank rest.
ghost use Rattle.std.specs.Prelude.{◌≡◌, ◌<◌, ℕ, true};
ghost use Rattle.rina_tower.specs.Ranks.{seen_of_difs};
ghost use Rattle.rina_iface.specs.Claim.{AreClaimed};
ghost use Rattle.rina_tower.specs.Resting.{AreDifsClaimed, AreResting};
ghost use Rattle.rina_tower.specs.Stands.{AreStanding};

use super::Difs;
use rina_base::Tick;
use rina_dif::Dif;
use rina_iface::Facility;

/// The least of the ticks before which each of the DIFs has nothing to do.
fn least_rest<F: Facility>(difs: &[Dif], below: &F) -> Tick
    requires valid { F.valid below.now }
    requires stand { AreStanding difs.now (F.seen below.now) }
    ensures { (F.seen below.now).now < result → AreResting result difs.now (F.seen below.now) }
{
    let mut until = Tick::MAX;
    for at in 0..difs.len() {
        until = until.min(difs[at].rests_until(below));
    }
    until
}

/// Whether no far end waits at any of the DIFs to be claimed.
fn none_waits(difs: &[Dif]) -> bool
    ensures { result ≡ true → AreDifsClaimed difs.now }
{
    for at in 0..difs.len() {
        if !difs[at].none_waits() {
            return false;
        }
    }
    true
}

impl Difs {
    /// Whether no far end waits at any of the DIFs to be claimed, whatever the clock says.
    pub fn none_waits(&self) -> bool
        ensures { result ≡ true → (now : ℕ) → AreClaimed (seen_of_difs now self.now) }
    {
        none_waits(self.items.as_slice())
    }

    /// A tick before which the DIFs have nothing to do over the rank below, where it is after the clock.
    pub fn rests_until<F: Facility>(&self, below: &F) -> Tick
        requires valid { F.valid below.now }
        requires stand { AreStanding self.now (F.seen below.now) }
        ensures { (F.seen below.now).now < result → AreResting result self.now (F.seen below.now) }
    {
        least_rest(self.items.as_slice(), below)
    }
}
