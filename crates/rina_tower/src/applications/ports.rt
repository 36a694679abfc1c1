//! How applications send and pass SDUs, and free their ports.
ghost use Rattle.std.specs.Prelude.{◌≡◌, true, false, Err};
ghost use Rattle.rina_iface.specs.declared.error.FreeError.TheVariants as free;
ghost use Rattle.rina_iface.specs.declared.error.SendError.TheVariants as send;
ghost use Rattle.rina_tower.specs.declared.applications.AppError.TheVariants.{Call};
ghost use Rattle.rina_tower.specs.Applications.{Answers, AppFrees, AppPasses, AppSends, CanPass, is_ipc_at};
ghost use Rattle.rina_tower.specs.Bystanders.{IsIpc, LeavesNow};
ghost use Rattle.rina_tower.specs.Calls.{FreesAtTop, SendsAtTop};
ghost use Rattle.rina_tower.specs.MemoryFailure.{has_failed};
ghost use Rattle.rina_tower.specs.Ranks.{height_of, seen_of};
ghost use Rattle.rina_tower.specs.Stands.{IsTower};
ghost use Rattle.rina_tower.specs.Levels.{SameBelow};

use super::AppError;
use crate::tower::Tower;
use rina_base::{Num, Port};
use rina_iface::{Facility, FreeError, SendError};
use std::alloc::Global;

impl Tower {
    /// Whether the application at a port of the top rank is an IPC process.
    pub fn is_ipc_port(&self, port: Port) -> bool
        requires { IsTower self.now }
        ensures { result ≡ is_ipc_at (seen_of self.now) port }
    {
        match self.journal(port.fac) {
            None => false,
            Some(journal) => match journal.ends.find(port) {
                None => false,
                Some(end) => end.app.is_ipc(),
            },
        }
    }

    /// Sends an SDU at the top rank, where the application of the port is no IPC process.
    fn send_app_at_top(
        &mut self,
        alloc: Global,
        port: Port,
        sdu: &[u8],
    ) -> Result<Num, AppError<SendError>>
        requires { IsTower self.old }
        ensures valid { IsTower self.new }
        ensures below { SameBelow self.old self.new }
        ensures does { Answers (is_ipc_at (seen_of self.old) port) (λ x. SendsAtTop port sdu.now x self.old self.new) (self.new ≡ self.old) result }
        ensures fails { result ≡ Err (Call send.Memory) → has_failed self.new ≡ true }
        ensures beside { LeavesNow IsIpc (seen_of self.old) (seen_of self.new) }
    {
        if self.is_ipc_port(port) {
            return Err(AppError::NotYours);
        }
        match self.send_at_top(alloc, port, sdu) {
            Ok(num) => Ok(num),
            Err(error) => Err(AppError::Call(error)),
        }
    }

    /// Sends an SDU at a port of rank `r`, and answers its number.
    pub fn app_send(
        &mut self,
        alloc: Global,
        r: u16,
        port: Port,
        sdu: &[u8],
    ) -> Result<Num, AppError<SendError>>
        requires { IsTower self.old }
        ensures valid { IsTower self.new }
        ensures does { has_failed self.old ≡ false → AppSends r port sdu.now result self.old self.new }
        ensures failed { has_failed self.old ≡ true → (result ≡ Err (Call send.Memory)) × (self.new ≡ self.old) }
        ensures fails { result ≡ Err (Call send.Memory) → has_failed self.new ≡ true }
        ensures beside { LeavesNow IsIpc (seen_of self.old) (seen_of self.new) }
        ensures height { height_of self.new ≡ height_of self.old }
    {
        if self.has_failed() {
            return Err(AppError::Call(SendError::Memory));
        }
        self.app_send_at_rank(alloc, r, port, sdu)
    }

    /// Walks down to rank `r` and sends there.
    fn app_send_at_rank(
        &mut self,
        alloc: Global,
        r: u16,
        port: Port,
        sdu: &[u8],
    ) -> Result<Num, AppError<SendError>>
        requires { IsTower self.old }
        ensures valid { IsTower self.new }
        ensures does { AppSends r port sdu.now result self.old self.new }
        ensures fails { result ≡ Err (Call send.Memory) → has_failed self.new ≡ true }
        ensures beside { LeavesNow IsIpc (seen_of self.old) (seen_of self.new) }
        ensures height { height_of self.new ≡ height_of self.old }
    {
        if r == self.height() {
            return self.send_app_at_top(alloc, port, sdu);
        }
        match self {
            Tower::Wires(_) => Err(AppError::NoRank),
            Tower::Rank(rank) => rank.below.app_send_at_rank(alloc, r, port, sdu),
        }
    }

    /// Marks the oldest SDU at a port of rank `r` as passed, where one waits and the application is no IPC process.
    pub fn app_pass(&mut self, r: u16, port: Port)
        requires valid { IsTower self.old }
        requires can { CanPass self.old r port }
        ensures valid { IsTower self.new }
        ensures does { AppPasses r port self.old self.new }
        ensures beside { LeavesNow IsIpc (seen_of self.old) (seen_of self.new) }
        ensures height { height_of self.new ≡ height_of self.old }
    {
        if r == self.height() {
            return self.pass(port);
        }
        match self {
            Tower::Wires(_) => unreachable!(),
            Tower::Rank(rank) => rank.below.app_pass(r, port),
        }
    }

    /// Gives up a port of the top rank, where its application is no IPC process.
    fn free_app_at_top(&mut self, alloc: Global, port: Port) -> Result<(), AppError<FreeError>>
        requires { IsTower self.old }
        ensures valid { IsTower self.new }
        ensures below { SameBelow self.old self.new }
        ensures does { Answers (is_ipc_at (seen_of self.old) port) (λ x. FreesAtTop port x self.old self.new) (self.new ≡ self.old) result }
        ensures fails { result ≡ Err (Call free.Memory) → has_failed self.new ≡ true }
        ensures beside { LeavesNow IsIpc (seen_of self.old) (seen_of self.new) }
    {
        if self.is_ipc_port(port) {
            return Err(AppError::NotYours);
        }
        match self.free_at_top(alloc, port) {
            Ok(()) => Ok(()),
            Err(error) => Err(AppError::Call(error)),
        }
    }

    /// Gives up a port of rank `r`.
    pub fn app_free(&mut self, alloc: Global, r: u16, port: Port) -> Result<(), AppError<FreeError>>
        requires { IsTower self.old }
        ensures valid { IsTower self.new }
        ensures does { has_failed self.old ≡ false → AppFrees r port result self.old self.new }
        ensures failed { has_failed self.old ≡ true → (result ≡ Err (Call free.Memory)) × (self.new ≡ self.old) }
        ensures fails { result ≡ Err (Call free.Memory) → has_failed self.new ≡ true }
        ensures beside { LeavesNow IsIpc (seen_of self.old) (seen_of self.new) }
        ensures height { height_of self.new ≡ height_of self.old }
    {
        if self.has_failed() {
            return Err(AppError::Call(FreeError::Memory));
        }
        self.app_free_at_rank(alloc, r, port)
    }

    /// Walks down to rank `r` and frees the port there.
    fn app_free_at_rank(
        &mut self,
        alloc: Global,
        r: u16,
        port: Port,
    ) -> Result<(), AppError<FreeError>>
        requires { IsTower self.old }
        ensures valid { IsTower self.new }
        ensures does { AppFrees r port result self.old self.new }
        ensures fails { result ≡ Err (Call free.Memory) → has_failed self.new ≡ true }
        ensures beside { LeavesNow IsIpc (seen_of self.old) (seen_of self.new) }
        ensures height { height_of self.new ≡ height_of self.old }
    {
        if r == self.height() {
            return self.free_app_at_top(alloc, port);
        }
        match self {
            Tower::Wires(_) => Err(AppError::NoRank),
            Tower::Rank(rank) => rank.below.app_free_at_rank(alloc, r, port),
        }
    }
}
