//! How IPC processes are published: an IPC process is registered as an application at a facility of the rank below its own.
ghost use Rattle.std.specs.Prelude.{◌≡◌, true, false, Err};
ghost use Rattle.rina_iface.specs.declared.error.RegisterError.TheVariants as register;
ghost use Rattle.rina_tower.specs.declared.publish.PublishError.TheVariants.{Lower};
ghost use Rattle.rina_tower.specs.Bystanders.{Anyone, LeavesNow};
ghost use Rattle.rina_tower.specs.Levels.{SameBelow};
ghost use Rattle.rina_tower.specs.MemoryFailure.{has_failed};
ghost use Rattle.rina_tower.specs.Publishing.{PublishesAt, RegistersIpc, ipc_name_at};
ghost use Rattle.rina_tower.specs.Ranks.{height_of, seen_of};
ghost use Rattle.rina_tower.specs.Stands.{IsTower};

use crate::difs::Difs;
use crate::tower::{Rank, Tower};
use rina_base::Node;
use rina_iface::RegisterError;
use std::alloc::Global;

/// Why an IPC process was not published. The variants stand in the order in which they are tried.
#[derive(Clone, Copy, Debug, PartialEq, Eq)]
pub enum PublishError {
    /// There is no such DIF, or it has no IPC process at the node.
    NoIpc,
    /// The facility below refused to register it.
    Lower(RegisterError),
}

impl Tower {
    /// Registers an IPC process of a DIF of the rank above at the top rank.
    fn register_ipc_at_top(
        &mut self,
        alloc: Global,
        above: &Difs,
        dif: u16,
        node: Node,
        fac: u16,
    ) -> Result<(), PublishError>
        requires { IsTower self.old }
        ensures valid { IsTower self.new }
        ensures below { SameBelow self.old self.new }
        ensures does { RegistersIpc (ipc_name_at above.now dif node) fac node result self.old self.new }
        ensures fails { result ≡ Err (Lower register.Memory) → has_failed self.new ≡ true }
        ensures quiet { LeavesNow Anyone (seen_of self.old) (seen_of self.new) }
    {
        let Some(name) = above.ipc_name(dif, node) else {
            return Err(PublishError::NoIpc);
        };
        match self.register_at_top(alloc, fac, node, name) {
            Ok(()) => Ok(()),
            Err(error) => Err(PublishError::Lower(error)),
        }
    }

    /// Registers the IPC process at a node of a DIF of rank `r` as an application at that node, at a facility of rank
    /// `r - 1`: a wire where `r` is 1. `NoIpc` exactly where there is no such DIF, or it has no member there; any other refusal
    /// is that of the facility. A refused call changes nothing.
    pub fn publish(
        &mut self,
        alloc: Global,
        r: u16,
        dif: u16,
        node: Node,
        fac: u16,
    ) -> Result<(), PublishError>
        requires { IsTower self.old }
        ensures valid { IsTower self.new }
        ensures does { has_failed self.old ≡ false → PublishesAt r dif node fac result self.old self.new }
        ensures failed { has_failed self.old ≡ true → (result ≡ Err (Lower register.Memory)) × (self.new ≡ self.old) }
        ensures fails { result ≡ Err (Lower register.Memory) → has_failed self.new ≡ true }
        ensures quiet { LeavesNow Anyone (seen_of self.old) (seen_of self.new) }
        ensures height { height_of self.new ≡ height_of self.old }
    {
        if self.has_failed() {
            return Err(PublishError::Lower(RegisterError::Memory));
        }
        self.publish_at_rank(alloc, r, dif, node, fac)
    }

    /// Walks down to rank `r` and registers its IPC process at the rank below.
    fn publish_at_rank(
        &mut self,
        alloc: Global,
        r: u16,
        dif: u16,
        node: Node,
        fac: u16,
    ) -> Result<(), PublishError>
        requires { IsTower self.old }
        ensures valid { IsTower self.new }
        ensures does { PublishesAt r dif node fac result self.old self.new }
        ensures fails { result ≡ Err (Lower register.Memory) → has_failed self.new ≡ true }
        ensures quiet { LeavesNow Anyone (seen_of self.old) (seen_of self.new) }
        ensures height { height_of self.new ≡ height_of self.old }
    {
        match self {
            Tower::Wires(_) => Err(PublishError::NoIpc),
            Tower::Rank(rank) => {
                let rank: &mut Rank = rank;
                if r == rank.below.height() + 1 {
                    rank.below
                        .register_ipc_at_top(alloc, &rank.difs, dif, node, fac)
                } else {
                    rank.below.publish_at_rank(alloc, r, dif, node, fac)
                }
            }
        }
    }
}
