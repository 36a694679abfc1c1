//! The clock of the DIFs of a rank.
ghost use Rattle.std.specs.Prelude.{◌≡◌, ◌≤◌, ℕ, slice_get, Some};
ghost use Rattle.rina_dif.specs.declared.dif.Dif.{Dif};
ghost use Rattle.rina_tower.specs.ClockTick.{AreClocked};

use super::Difs;
use rina_base::Tick;
use rina_dif::Dif;

/// Sets the clock of each.
fn clock_all(difs: &mut Vec<Dif>, now: Tick)
    requires { (n : ℕ) (d : Dif) → slice_get difs.old.items n ≡ Some d → d.clock ≤ now }
    ensures { AreClocked now difs.old.items difs.new.items }
{
    for at in 0..difs.len() {
        let Some(_dif) = difs.get(at) else {
            unreachable!()
        };
        let dif = &mut difs[at];
        dif.clock_to(now);
    }
}

impl Difs {
    /// Sets the clock of each DIF, which goes on with that of the rank below.
    pub fn clock_to(&mut self, now: Tick)
        requires { (n : ℕ) (d : Dif) → slice_get self.old n ≡ Some d → d.clock ≤ now }
        ensures { AreClocked now self.old self.new }
    {
        clock_all(&mut self.items, now);
    }
}
