//! How applications ask for flows, and claim the far ends of those that were asked for.
ghost use Rattle.std.specs.Prelude.{◌≡◌, ◌||◌, true, false, Err};
ghost use Rattle.rina_iface.specs.declared.error.AllocateError.TheVariants as allocate;
ghost use Rattle.rina_tower.specs.declared.applications.AppError.TheVariants.{Call};
ghost use Rattle.rina_tower.specs.Applications.{Answers, AppAllocates, AppClaims, ClaimsFor};
ghost use Rattle.rina_tower.specs.Bystanders.{IsIpc, LeavesNow, is_ipc};
ghost use Rattle.rina_tower.specs.Calls.{AllocatesAtTop, ClaimsAtTop};
ghost use Rattle.rina_tower.specs.MemoryFailure.{has_failed};
ghost use Rattle.rina_tower.specs.Ranks.{height_of, seen_of};
ghost use Rattle.rina_tower.specs.Stands.{IsTower};
ghost use Rattle.rina_tower.specs.Levels.{SameBelow};

use super::AppError;
use crate::tower::Tower;
use rina_base::{AppName, Node, Port};
use rina_iface::{AllocateError, Ask, Facility};
use std::alloc::Global;

/// Whether an IPC process asks, or is asked for.
fn is_for_ipc(ask: &Ask) -> bool
    ensures { result ≡ is_ipc ask.now.app || is_ipc ask.now.to }
{
    ask.app.is_ipc() || ask.to.is_ipc()
}

impl Tower {
    /// Asks for a flow at the top rank, where neither application is an IPC process.
    fn allocate_app_at_top(
        &mut self,
        alloc: Global,
        ask: &Ask,
    ) -> Result<Port, AppError<AllocateError>>
        requires { IsTower self.old }
        ensures valid { IsTower self.new }
        ensures below { SameBelow self.old self.new }
        ensures does { Answers (is_ipc ask.now.app || is_ipc ask.now.to) (λ x. AllocatesAtTop ask.now x self.old self.new) (self.new ≡ self.old) result }
        ensures fails { result ≡ Err (Call allocate.Memory) → has_failed self.new ≡ true }
        ensures beside { LeavesNow IsIpc (seen_of self.old) (seen_of self.new) }
    {
        if is_for_ipc(ask) {
            return Err(AppError::NotYours);
        }
        match self.allocate_at_top(alloc, ask) {
            Ok(port) => Ok(port),
            Err(error) => Err(AppError::Call(error)),
        }
    }

    /// Asks for a flow of a facility of rank `r`, and answers the port of its end.
    pub fn app_allocate(
        &mut self,
        alloc: Global,
        r: u16,
        ask: &Ask,
    ) -> Result<Port, AppError<AllocateError>>
        requires { IsTower self.old }
        ensures valid { IsTower self.new }
        ensures does { has_failed self.old ≡ false → AppAllocates r ask.now result self.old self.new }
        ensures failed { has_failed self.old ≡ true → (result ≡ Err (Call allocate.Memory)) × (self.new ≡ self.old) }
        ensures fails { result ≡ Err (Call allocate.Memory) → has_failed self.new ≡ true }
        ensures beside { LeavesNow IsIpc (seen_of self.old) (seen_of self.new) }
        ensures height { height_of self.new ≡ height_of self.old }
    {
        if self.has_failed() {
            return Err(AppError::Call(AllocateError::Memory));
        }
        self.app_allocate_at_rank(alloc, r, ask)
    }

    /// Walks down to rank `r` and asks for the flow there.
    fn app_allocate_at_rank(
        &mut self,
        alloc: Global,
        r: u16,
        ask: &Ask,
    ) -> Result<Port, AppError<AllocateError>>
        requires { IsTower self.old }
        ensures valid { IsTower self.new }
        ensures does { AppAllocates r ask.now result self.old self.new }
        ensures fails { result ≡ Err (Call allocate.Memory) → has_failed self.new ≡ true }
        ensures beside { LeavesNow IsIpc (seen_of self.old) (seen_of self.new) }
        ensures height { height_of self.new ≡ height_of self.old }
    {
        if r == self.height() {
            return self.allocate_app_at_top(alloc, ask);
        }
        match self {
            Tower::Wires(_) => Err(AppError::NoRank),
            Tower::Rank(rank) => rank.below.app_allocate_at_rank(alloc, r, ask),
        }
    }

    /// Claims a far end at the top rank, where the application is no IPC process.
    fn incoming_app_at_top(&mut self, fac: u16, node: Node, app: &AppName) -> Option<Port>
        requires { IsTower self.old }
        ensures valid { IsTower self.new }
        ensures below { SameBelow self.old self.new }
        ensures does { ClaimsFor (is_ipc app.now) (λ x. ClaimsAtTop fac node app.now x self.old self.new) (self.new ≡ self.old) result }
        ensures beside { LeavesNow IsIpc (seen_of self.old) (seen_of self.new) }
    {
        if app.is_ipc() {
            return None;
        }
        self.incoming(fac, node, app)
    }

    /// Claims the oldest far end of an application at a node of a facility of rank `r` that nobody claimed yet. None
    /// also where there is no such rank, and for an IPC process.
    pub fn app_incoming(&mut self, r: u16, fac: u16, node: Node, app: &AppName) -> Option<Port>
        requires { IsTower self.old }
        ensures valid { IsTower self.new }
        ensures does { AppClaims r fac node app.now result self.old self.new }
        ensures beside { LeavesNow IsIpc (seen_of self.old) (seen_of self.new) }
        ensures height { height_of self.new ≡ height_of self.old }
    {
        if r == self.height() {
            return self.incoming_app_at_top(fac, node, app);
        }
        match self {
            Tower::Wires(_) => None,
            Tower::Rank(rank) => rank.below.app_incoming(r, fac, node, app),
        }
    }
}
