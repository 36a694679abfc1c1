//! The calls of applications, at any rank.
ghost use Rattle.std.specs.Prelude.{◌≡◌, true, false, Err};
ghost use Rattle.rina_iface.specs.declared.error.RegisterError.TheVariants as register;
ghost use Rattle.rina_iface.specs.declared.error.UnregisterError.TheVariants as unregister;
ghost use Rattle.rina_tower.specs.declared.applications.AppError.TheVariants.{Call};
ghost use Rattle.rina_tower.specs.Applications.{Answers, AppRegisters, AppUnregisters};
ghost use Rattle.rina_tower.specs.Bystanders.{IsIpc, LeavesNow, is_ipc};
ghost use Rattle.rina_tower.specs.Calls.{RegistersAtTop, UnregistersAtTop};
ghost use Rattle.rina_tower.specs.MemoryFailure.{has_failed};
ghost use Rattle.rina_tower.specs.Ranks.{height_of, seen_of};
ghost use Rattle.rina_tower.specs.Stands.{IsTower};
ghost use Rattle.rina_tower.specs.Levels.{SameBelow};

mod flows;
mod ports;

use crate::tower::Tower;
use rina_base::{AppName, Node};
use rina_iface::{Facility, RegisterError, UnregisterError};
use std::alloc::Global;

/// Why a call of an application was refused. The variants stand in the order in which they are tried.
#[derive(Clone, Copy, Debug, PartialEq, Eq)]
pub enum AppError<E> {
    /// The tower has no such rank.
    NoRank,
    /// The application, or the one that it asks for, or that of the port is an IPC process.
    NotYours,
    /// The call itself refused.
    Call(E),
}

impl Tower {
    /// Registers an application at the top rank, where it is no IPC process.
    fn register_app_at_top(
        &mut self,
        alloc: Global,
        fac: u16,
        node: Node,
        app: &AppName,
    ) -> Result<(), AppError<RegisterError>>
        requires { IsTower self.old }
        ensures valid { IsTower self.new }
        ensures below { SameBelow self.old self.new }
        ensures does { Answers (is_ipc app.now) (λ x. RegistersAtTop fac node app.now x self.old self.new) (self.new ≡ self.old) result }
        ensures fails { result ≡ Err (Call register.Memory) → has_failed self.new ≡ true }
        ensures beside { LeavesNow IsIpc (seen_of self.old) (seen_of self.new) }
    {
        if app.is_ipc() {
            return Err(AppError::NotYours);
        }
        match self.register_at_top(alloc, fac, node, app) {
            Ok(()) => Ok(()),
            Err(error) => Err(AppError::Call(error)),
        }
    }

    /// Registers an application at a node of a facility of rank `r`.
    pub fn app_register(
        &mut self,
        alloc: Global,
        r: u16,
        fac: u16,
        node: Node,
        app: &AppName,
    ) -> Result<(), AppError<RegisterError>>
        requires { IsTower self.old }
        ensures valid { IsTower self.new }
        ensures does { has_failed self.old ≡ false → AppRegisters r fac node app.now result self.old self.new }
        ensures failed { has_failed self.old ≡ true → (result ≡ Err (Call register.Memory)) × (self.new ≡ self.old) }
        ensures fails { result ≡ Err (Call register.Memory) → has_failed self.new ≡ true }
        ensures beside { LeavesNow IsIpc (seen_of self.old) (seen_of self.new) }
        ensures height { height_of self.new ≡ height_of self.old }
    {
        if self.has_failed() {
            return Err(AppError::Call(RegisterError::Memory));
        }
        self.app_register_at_rank(alloc, r, fac, node, app)
    }

    /// Walks down to rank `r` and registers there.
    fn app_register_at_rank(
        &mut self,
        alloc: Global,
        r: u16,
        fac: u16,
        node: Node,
        app: &AppName,
    ) -> Result<(), AppError<RegisterError>>
        requires { IsTower self.old }
        ensures valid { IsTower self.new }
        ensures does { AppRegisters r fac node app.now result self.old self.new }
        ensures fails { result ≡ Err (Call register.Memory) → has_failed self.new ≡ true }
        ensures beside { LeavesNow IsIpc (seen_of self.old) (seen_of self.new) }
        ensures height { height_of self.new ≡ height_of self.old }
    {
        if r == self.height() {
            return self.register_app_at_top(alloc, fac, node, app);
        }
        match self {
            Tower::Wires(_) => Err(AppError::NoRank),
            Tower::Rank(rank) => rank.below.app_register_at_rank(alloc, r, fac, node, app),
        }
    }

    /// Ends the registration of an application at the top rank, where it is no IPC process.
    fn unregister_app_at_top(
        &mut self,
        alloc: Global,
        fac: u16,
        node: Node,
        app: &AppName,
    ) -> Result<(), AppError<UnregisterError>>
        requires { IsTower self.old }
        ensures valid { IsTower self.new }
        ensures below { SameBelow self.old self.new }
        ensures does { Answers (is_ipc app.now) (λ x. UnregistersAtTop fac node app.now x self.old self.new) (self.new ≡ self.old) result }
        ensures fails { result ≡ Err (Call unregister.Memory) → has_failed self.new ≡ true }
        ensures beside { LeavesNow IsIpc (seen_of self.old) (seen_of self.new) }
    {
        if app.is_ipc() {
            return Err(AppError::NotYours);
        }
        match self.unregister_at_top(alloc, fac, node, app) {
            Ok(()) => Ok(()),
            Err(error) => Err(AppError::Call(error)),
        }
    }

    /// Ends the registration of an application at a node of a facility of rank `r`.
    pub fn app_unregister(
        &mut self,
        alloc: Global,
        r: u16,
        fac: u16,
        node: Node,
        app: &AppName,
    ) -> Result<(), AppError<UnregisterError>>
        requires { IsTower self.old }
        ensures valid { IsTower self.new }
        ensures does { has_failed self.old ≡ false → AppUnregisters r fac node app.now result self.old self.new }
        ensures failed { has_failed self.old ≡ true → (result ≡ Err (Call unregister.Memory)) × (self.new ≡ self.old) }
        ensures fails { result ≡ Err (Call unregister.Memory) → has_failed self.new ≡ true }
        ensures beside { LeavesNow IsIpc (seen_of self.old) (seen_of self.new) }
        ensures height { height_of self.new ≡ height_of self.old }
    {
        if self.has_failed() {
            return Err(AppError::Call(UnregisterError::Memory));
        }
        self.app_unregister_at_rank(alloc, r, fac, node, app)
    }

    /// Walks down to rank `r` and ends the registration there.
    fn app_unregister_at_rank(
        &mut self,
        alloc: Global,
        r: u16,
        fac: u16,
        node: Node,
        app: &AppName,
    ) -> Result<(), AppError<UnregisterError>>
        requires { IsTower self.old }
        ensures valid { IsTower self.new }
        ensures does { AppUnregisters r fac node app.now result self.old self.new }
        ensures fails { result ≡ Err (Call unregister.Memory) → has_failed self.new ≡ true }
        ensures beside { LeavesNow IsIpc (seen_of self.old) (seen_of self.new) }
        ensures height { height_of self.new ≡ height_of self.old }
    {
        if r == self.height() {
            return self.unregister_app_at_top(alloc, fac, node, app);
        }
        match self {
            Tower::Wires(_) => Err(AppError::NoRank),
            Tower::Rank(rank) => rank.below.app_unregister_at_rank(alloc, r, fac, node, app),
        }
    }
}
