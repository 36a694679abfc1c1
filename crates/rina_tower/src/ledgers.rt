//! What the DIFs of a tower have written off.
ghost use Rattle.std.specs.Prelude.{◌≡◌, None, Some, MatchOption};
ghost use Rattle.rina_tower.specs.Ledgers.{IsLedgerAt, dif_of, member_at};
ghost use Rattle.rina_tower.specs.Stands.{IsTower};

use crate::tower::Tower;
use rina_account::Off;
use rina_base::Node;
use rina_dif::Dif;

impl Tower {
    /// The DIF of a number at the top rank. None exactly where there is none.
    pub(crate) fn top_dif(&self, dif: u16) -> Option<&Dif>
        ensures { MatchOption result (dif_of self.now dif ≡ None) (λ d. dif_of self.now dif ≡ Some d.now) }
    {
        match self {
            Tower::Wires(_) => None,
            Tower::Rank(rank) => rank.difs.get(dif),
        }
    }

    /// What the member at a node of a DIF of rank `r` has written off, the oldest first. None exactly where there is no
    /// such DIF, or it has no member there.
    pub fn ledger(&self, r: u16, dif: u16, node: Node) -> Option<&[Off]>
        requires { IsTower self.now }
        ensures { MatchOption result (member_at self.now r dif node ≡ None) (λ offs. IsLedgerAt self.now r dif node offs.now) }
    {
        let rank = self.rank(r)?;
        let dif = rank.top_dif(dif)?;
        dif.ledger(node)
    }
}
