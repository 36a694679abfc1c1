//! The names of the IPC processes of a rank.
ghost use Rattle.std.specs.Prelude.{◌≡◌, option_map};
ghost use Rattle.rina_tower.specs.Publishing.{ipc_name_at, name_of};

use super::Difs;
use rina_base::{AppName, Node};
use rina_data::Member;

/// The name of the member at a node. None exactly where there is none.
fn name_of(members: &[Member], node: Node) -> Option<&AppName>
    ensures { option_map (λ n. n.now) result ≡ name_of members.now node }
{
    let member = members.iter().find(|member| member.node == node)?;
    Some(&member.name)
}

impl Difs {
    /// The name that the IPC process at a node of a DIF has in the rank below. None exactly where there is no such DIF, or it has
    /// no member there.
    pub fn ipc_name(&self, dif: u16, node: Node) -> Option<&AppName>
        ensures { option_map (λ n. n.now) result ≡ ipc_name_at self.now dif node }
    {
        let dif = self.get(dif)?;
        name_of(dif.settings().members.as_slice(), node)
    }
}
