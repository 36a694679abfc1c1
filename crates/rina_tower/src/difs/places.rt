//! The places of the steps at the DIFs of a rank.
ghost use Rattle.std.specs.Prelude.{◌≡◌, ◌++◌, map, OnOk};
ghost use Rattle.rina_dif.specs.declared.dif.Dif.{Dif};
ghost use Rattle.rina_tower.specs.Rounds.{AreNumbered, dif_links, link_place, live_links, member_place, rank_links, rank_members};

use super::Difs;
use crate::places::{LinkPlace, MemberPlace};
use rina_base::{Memory, Node, Seq};
use rina_data::Link;
use rina_dif::Dif;

/// Adds the live links of an IPC process.
fn add_live(
    rank: u16,
    dif: u16,
    node: Node,
    links: &[Link],
    places: &mut Seq<LinkPlace>,
) -> Result<(), Memory>
    ensures { OnOk result (places.new ≡ places.old ++ map (link_place rank dif node) (live_links links.now)) }
{
    for one in links {
        if one.live {
            let link = one.number;
            places.push(LinkPlace {
                rank,
                dif,
                node,
                link,
            })?;
        }
    }
    Ok(())
}

/// Adds the live links of the IPC processes of a DIF.
fn add_dif_links(rank: u16, dif: &Dif, places: &mut Seq<LinkPlace>) -> Result<(), Memory>
    ensures { OnOk result (places.new ≡ places.old ++ dif_links rank dif.now.settings.fac dif.now.settings.members dif.now.processes) }
{
    let settings = dif.settings();
    let members = settings.members.as_slice();
    for (member, process) in members.iter().zip(dif.processes()) {
        let links = process.links.as_slice();
        add_live(rank, settings.fac, member.node, links, places)?;
    }
    Ok(())
}

/// Adds the live links of the IPC processes of the DIFs of a rank.
fn add_rank_links(rank: u16, difs: &[Dif], places: &mut Seq<LinkPlace>) -> Result<(), Memory>
    requires { AreNumbered difs.now }
    ensures { OnOk result (places.new ≡ places.old ++ rank_links rank 0 difs.now) }
{
    for dif in difs {
        add_dif_links(rank, dif, places)?;
    }
    Ok(())
}

/// Adds the IPC processes of a DIF.
fn add_dif_members(rank: u16, dif: &Dif, places: &mut Seq<MemberPlace>) -> Result<(), Memory>
    ensures { OnOk result (places.new ≡ places.old ++ map (member_place rank dif.now.settings.fac) dif.now.settings.members) }
{
    let settings = dif.settings();
    for member in settings.members.as_slice() {
        places.push(MemberPlace {
            rank,
            dif: settings.fac,
            node: member.node,
        })?;
    }
    Ok(())
}

/// Adds the IPC processes of the DIFs of a rank.
fn add_rank_members(rank: u16, difs: &[Dif], places: &mut Seq<MemberPlace>) -> Result<(), Memory>
    requires { AreNumbered difs.now }
    ensures { OnOk result (places.new ≡ places.old ++ rank_members rank 0 difs.now) }
{
    for dif in difs {
        add_dif_members(rank, dif, places)?;
    }
    Ok(())
}

impl Difs {
    /// Adds the live links of the IPC processes of all DIFs, in stack order, where they are those of rank `rank`.
    pub(crate) fn add_links(&self, rank: u16, places: &mut Seq<LinkPlace>) -> Result<(), Memory>
        requires { AreNumbered self.now }
        ensures { OnOk result (places.new ≡ places.old ++ rank_links rank 0 self.now) }
    {
        add_rank_links(rank, self.items.as_slice(), places)
    }

    /// Adds the IPC processes of all DIFs, in stack order, where they are those of rank `rank`.
    pub(crate) fn add_members(&self, rank: u16, places: &mut Seq<MemberPlace>) -> Result<(), Memory>
        requires { AreNumbered self.now }
        ensures { OnOk result (places.new ≡ places.old ++ rank_members rank 0 self.now) }
    {
        add_rank_members(rank, self.items.as_slice(), places)
    }
}
