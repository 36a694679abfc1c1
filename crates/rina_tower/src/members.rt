//! How far the IPC processes of a tower are members of their DIFs.
ghost use Rattle.std.specs.Prelude.{◌≡◌, None, MatchOption};
ghost use Rattle.rina_tower.specs.Ledgers.{member_at};
ghost use Rattle.rina_tower.specs.Members.{IsMemberState};
ghost use Rattle.rina_tower.specs.Stands.{IsTower};

use crate::tower::Tower;
use rina_agent::MemberState;
use rina_base::Node;

impl Tower {
    /// The state of the member at a node of a DIF of rank `r`. None exactly where there is no such DIF, or it has no member
    /// there.
    pub fn member(&self, r: u16, dif: u16, node: Node) -> Option<MemberState>
        requires { IsTower self.now }
        ensures { MatchOption result (member_at self.now r dif node ≡ None) (λ state. IsMemberState self.now r dif node state) }
    {
        let rank = self.rank(r)?;
        let dif = rank.top_dif(dif)?;
        dif.member(node)
    }
}
