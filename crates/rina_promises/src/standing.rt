//! Where a DIF of a tower stands.
ghost use Rattle.std.specs.Prelude.{◌≡◌, None, Some, IfSome, MatchOption};
ghost use Rattle.rina_tower.specs.Ledgers.{dif_at, dif_of};
ghost use Rattle.rina_tower.specs.Stands.{IsTower};
ghost use Rattle.rina_promises.specs.Promises.{IsOwn, IsStanding};

use rina_dif::Dif;
use rina_tower::Tower;

/// A DIF, and the tower that its rank stands on.
#[derive(Drop)]
pub struct Standing<'a> {
    pub dif: &'a Dif,
    pub below: &'a Tower,
}

/// The DIF of a number at the top rank. None exactly where there is none.
fn top_standing(tower: &Tower, fac: u16) -> Option<Standing<'_>>
    ensures { MatchOption result (dif_of tower.now fac ≡ None) (λ s. IsOwn tower.now fac s.dif.now s.below.now) }
{
    match tower {
        Tower::Wires(_) => None,
        Tower::Rank(rank) => {
            let dif = rank.difs.get(fac)?;
            Some(Standing {
                dif,
                below: &rank.below,
            })
        }
    }
}

/// The DIF of a number of rank `r`. None exactly where there is none.
pub fn standing_of(tower: &Tower, r: u16, fac: u16) -> Option<Standing<'_>>
    requires { IsTower tower.now }
    ensures stands { MatchOption result (dif_at tower.now r fac ≡ None) (λ s. IsStanding tower.now r fac s.dif.now s.below.now) }
    ensures below { IfSome result (λ s. IsTower s.below.now) }
{
    let rank = tower.rank(r)?;
    top_standing(rank, fac)
}
