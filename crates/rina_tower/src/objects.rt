//! The objects of the IPC processes of a tower.
ghost use Rattle.std.specs.Prelude.{◌≡◌, true, false, Err};
ghost use Rattle.rina_base.specs.ObjectNames.{IsObjectName};
ghost use Rattle.rina_data.specs.declared.step.StepError.TheVariants.{Memory};
ghost use Rattle.rina_dif.specs.declared.cdap.CdapCallError.TheVariants as errors;
ghost use Rattle.rina_dif.specs.Asking.{answer_of};
ghost use Rattle.rina_tower.specs.Cdap.{AsksAt};
ghost use Rattle.rina_tower.specs.Bystanders.{Anyone, LeavesNow};
ghost use Rattle.rina_tower.specs.MemoryFailure.{has_failed};
ghost use Rattle.rina_tower.specs.Objects.{ShowsUnderAt};
ghost use Rattle.rina_tower.specs.Ranks.{height_of, seen_of};
ghost use Rattle.rina_tower.specs.Stands.{IsTower};

use crate::tower::{Rank, Tower};
use rina_base::Node;
use rina_data::StepError;
use rina_dif::{CdapCallError, Objects};
use std::alloc::Global;

impl Tower {
    /// The object of a name at the member of a node of a DIF of rank `r`, and all under it, in the byte order of names.
    /// `NoIpc` exactly where there is no such DIF, or it has no member there. It only reads: the tower does not remember that
    /// its allocation failed, but it fails with `Memory` where another has failed before.
    pub fn rib(
        &self,
        alloc: Global,
        r: u16,
        dif: u16,
        node: Node,
        under: &[u8],
    ) -> Result<Objects, StepError>
        requires tower { IsTower self.now }
        requires under { IsObjectName under.now }
        ensures does { ShowsUnderAt self.now r dif node under.now result }
        ensures failed { has_failed self.now ≡ true → result ≡ Err Memory }
    {
        if self.has_failed() {
            return Err(StepError::Memory);
        }
        let Some(rank) = self.rank(r) else {
            return Err(StepError::NoIpc);
        };
        let Some(dif) = rank.top_dif(dif) else {
            return Err(StepError::NoIpc);
        };
        dif.rib(alloc, node, under)
    }

    /// Gives bytes to the IPC process at a node of a DIF of rank `r`, which answers the message that they are as its RIB
    /// says. `NoIpc` exactly where there is no such DIF, or it has no member there.
    pub fn cdap(
        &mut self,
        alloc: Global,
        r: u16,
        dif: u16,
        node: Node,
        bytes: &[u8],
    ) -> Result<Vec<u8>, CdapCallError>
        requires { IsTower self.old }
        ensures valid { IsTower self.new }
        ensures does { has_failed self.old ≡ false → AsksAt r dif node bytes.now (answer_of result) self.old self.new }
        ensures failed { has_failed self.old ≡ true → (result ≡ Err errors.Memory) × (self.new ≡ self.old) }
        ensures fails { result ≡ Err errors.Memory → has_failed self.new ≡ true }
        ensures quiet { LeavesNow Anyone (seen_of self.old) (seen_of self.new) }
        ensures height { height_of self.new ≡ height_of self.old }
    {
        if self.has_failed() {
            return Err(CdapCallError::Memory);
        }
        self.cdap_at_rank(alloc, r, dif, node, bytes)
    }

    /// Walks down to rank `r` and gives the bytes to that IPC process.
    fn cdap_at_rank(
        &mut self,
        alloc: Global,
        r: u16,
        dif: u16,
        node: Node,
        bytes: &[u8],
    ) -> Result<Vec<u8>, CdapCallError>
        requires { IsTower self.old }
        ensures valid { IsTower self.new }
        ensures does { AsksAt r dif node bytes.now (answer_of result) self.old self.new }
        ensures fails { result ≡ Err errors.Memory → has_failed self.new ≡ true }
        ensures quiet { LeavesNow Anyone (seen_of self.old) (seen_of self.new) }
        ensures height { height_of self.new ≡ height_of self.old }
    {
        match self {
            Tower::Wires(_) => Err(CdapCallError::NoIpc),
            Tower::Rank(rank) => {
                let rank: &mut Rank = rank;
                if r == rank.below.height() + 1 {
                    rank.difs.cdap(alloc, dif, node, bytes)
                } else {
                    rank.below.cdap_at_rank(alloc, r, dif, node, bytes)
                }
            }
        }
    }
}
