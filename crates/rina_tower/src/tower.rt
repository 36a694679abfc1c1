//! Wires, and ranks of DIFs over them.
ghost use Rattle.std.specs.Prelude.{◌≡◌, None, Some, MatchOption};
ghost use Rattle.rina_tower.specs.Ranks.{height_of, now_of, rank_of};
ghost use Rattle.rina_tower.specs.Stands.{IsTower};

use crate::difs::Difs;
use rina_base::Tick;
use rina_iface::Facility;
use rina_wire::Wires;

/// Wires, or a rank of DIFs on a tower.
#[cycle(tower)]
#[derive(Drop)]
pub enum Tower {
    Wires(Wires),
    Rank(Box<Rank>),
}

/// DIFs beside each other, and the tower that they stand on.
#[cycle(tower)]
#[derive(Drop)]
pub struct Rank {
    pub difs: Difs,
    pub below: Tower,
}

impl Tower {
    /// How many ranks of DIFs there are, at most 8. Wires alone have none.
    pub fn height(&self) -> u16
        requires { IsTower self.now }
        ensures { result ≡ height_of self.now }
    {
        match self {
            Tower::Wires(_) => 0,
            Tower::Rank(rank) => rank.below.height() + 1,
        }
    }

    /// The tower up to a rank. None exactly where the rank is above the height.
    pub fn rank(&self, r: u16) -> Option<&Tower>
        requires { IsTower self.now }
        ensures { MatchOption result (rank_of self.now r ≡ None) (λ t. rank_of self.now r ≡ Some t.now) }
    {
        match self {
            Tower::Wires(_) => { if r == 0 { Some(self) } else { None } }
            Tower::Rank(rank) => {
                if r == rank.below.height() + 1 {
                    Some(self)
                } else {
                    rank.below.rank(r)
                }
            }
        }
    }

    /// The clock, which is that of the wires.
    pub(crate) fn clock(&self) -> Tick
        ensures { result ≡ now_of self.now }
    {
        match self {
            Tower::Wires(wires) => wires.now(),
            Tower::Rank(rank) => rank.below.clock(),
        }
    }
}
