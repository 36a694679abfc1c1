//! The places of the steps of a round.
ghost use Rattle.std.specs.Prelude.{◌≡◌, ◌++◌, OnOk, IfOk};
ghost use Rattle.rina_tower.specs.Rounds.{links_downward, links_upward, members_upward};
ghost use Rattle.rina_tower.specs.Stands.{IsTower};

use crate::tower::Tower;
use rina_base::{Memory, Node, Seq};
use std::alloc::Global;

/// A link of an IPC process.
#[derive(Clone, Copy, Debug, PartialEq, Eq)]
pub struct LinkPlace {
    /// The rank of its DIF, 1 or above.
    pub rank: u16,
    /// The number of its DIF in that rank.
    pub dif: u16,
    pub node: Node,
    /// The number of the link there.
    pub link: u16,
}

/// An IPC process.
#[derive(Clone, Copy, Debug, PartialEq, Eq)]
pub struct MemberPlace {
    /// The rank of its DIF, 1 or above.
    pub rank: u16,
    /// The number of its DIF in that rank.
    pub dif: u16,
    pub node: Node,
}

impl Tower {
    /// Adds the live links of all IPC processes, the lowest rank first.
    fn add_links_upward(&self, places: &mut Seq<LinkPlace>) -> Result<(), Memory>
        requires { IsTower self.now }
        ensures { OnOk result (places.new ≡ places.old ++ links_upward self.now) }
    {
        match self {
            Tower::Wires(_) => Ok(()),
            Tower::Rank(rank) => {
                rank.below.add_links_upward(places)?;
                rank.difs.add_links(rank.below.height() + 1, places)
            }
        }
    }

    /// Adds the live links of all IPC processes, the highest rank first.
    fn add_links_downward(&self, places: &mut Seq<LinkPlace>) -> Result<(), Memory>
        requires { IsTower self.now }
        ensures { OnOk result (places.new ≡ places.old ++ links_downward self.now) }
    {
        match self {
            Tower::Wires(_) => Ok(()),
            Tower::Rank(rank) => {
                rank.difs.add_links(rank.below.height() + 1, places)?;
                rank.below.add_links_downward(places)
            }
        }
    }

    /// Adds all IPC processes, the lowest rank first.
    fn add_members_upward(&self, places: &mut Seq<MemberPlace>) -> Result<(), Memory>
        requires { IsTower self.now }
        ensures { OnOk result (places.new ≡ places.old ++ members_upward self.now) }
    {
        match self {
            Tower::Wires(_) => Ok(()),
            Tower::Rank(rank) => {
                rank.below.add_members_upward(places)?;
                rank.difs.add_members(rank.below.height() + 1, places)
            }
        }
    }

    /// The live links of all IPC processes, the lowest rank first.
    pub(crate) fn links_upward(&self, alloc: Global) -> Result<Seq<LinkPlace>, Memory>
        requires { IsTower self.now }
        ensures { IfOk result (λ places. places ≡ links_upward self.now) }
    {
        let mut places = Seq::new(alloc);
        self.add_links_upward(&mut places)?;
        Ok(places)
    }

    /// The live links of all IPC processes, the highest rank first.
    pub(crate) fn links_downward(&self, alloc: Global) -> Result<Seq<LinkPlace>, Memory>
        requires { IsTower self.now }
        ensures { IfOk result (λ places. places ≡ links_downward self.now) }
    {
        let mut places = Seq::new(alloc);
        self.add_links_downward(&mut places)?;
        Ok(places)
    }

    /// All IPC processes, the lowest rank first.
    pub(crate) fn members_upward(&self, alloc: Global) -> Result<Seq<MemberPlace>, Memory>
        requires { IsTower self.now }
        ensures { IfOk result (λ places. places ≡ members_upward self.now) }
    {
        let mut places = Seq::new(alloc);
        self.add_members_upward(&mut places)?;
        Ok(places)
    }
}
