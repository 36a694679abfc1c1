//! The calls of the facilities of a rank, each at the DIF of its number.
ghost use Rattle.std.specs.Prelude.{◌≡◌, true, None, Err};
ghost use Rattle.rina_iface.specs.declared.error.AllocateError.TheVariants as allocate;
ghost use Rattle.rina_iface.specs.declared.error.FreeError.TheVariants as free;
ghost use Rattle.rina_iface.specs.declared.error.RegisterError.TheVariants as register;
ghost use Rattle.rina_iface.specs.declared.error.SendError.TheVariants as send;
ghost use Rattle.rina_iface.specs.declared.error.UnregisterError.TheVariants as unregister;
ghost use Rattle.rina_iface.specs.Claim.{Claims};
ghost use Rattle.rina_tower.specs.Calls.{AllocatesFrom, AreDifs, BindsFrom, MayBind, FreesFrom, PassesFrom, RegistersFrom, SendsFrom, Serves, UnregistersFrom, WaitsThere};
ghost use Rattle.rina_tower.specs.MemoryFailure.{have_failed};
ghost use Rattle.rina_tower.specs.Levels.{AtDif, IsAtDif};
ghost use Rattle.rina_tower.specs.Unchanged.{ChangesClaims};

use super::Difs;
use rina_base::{AppName, Node, Num, Port};
use rina_iface::{AllocateError, Ask, Fixed, FreeError, RegisterError, SendError, UnregisterError};
use std::alloc::Global;

impl Difs {
    /// Registers an application at a node.
    pub fn register(
        &mut self,
        alloc: Global,
        fac: u16,
        node: Node,
        app: &AppName,
    ) -> Result<(), RegisterError>
        requires { AreDifs self.old }
        ensures does { AtDif fac (RegistersFrom fac node app.now result) (result ≡ Err register.NoMember) self.old self.new }
        ensures fails { result ≡ Err register.Memory → have_failed self.new ≡ true }
    {
        let Some(_dif) = self.get(fac) else {
            return Err(RegisterError::NoMember);
        };
        let one = &mut self.items[fac as usize];
        one.register(alloc, node, app)
    }

    /// Ends the registration of an application at a node.
    pub fn unregister(
        &mut self,
        alloc: Global,
        fac: u16,
        node: Node,
        app: &AppName,
    ) -> Result<(), UnregisterError>
        requires { AreDifs self.old }
        ensures does { AtDif fac (UnregistersFrom fac node app.now result) (result ≡ Err unregister.NotThere) self.old self.new }
        ensures fails { result ≡ Err unregister.Memory → have_failed self.new ≡ true }
    {
        let Some(_dif) = self.get(fac) else {
            return Err(UnregisterError::NotThere);
        };
        let one = &mut self.items[fac as usize];
        one.unregister(alloc, node, app)
    }

    /// Asks for a flow.
    pub fn allocate(&mut self, alloc: Global, ask: &Ask) -> Result<Port, AllocateError>
        requires { AreDifs self.old }
        ensures does { AtDif ask.now.fac (AllocatesFrom ask.now result) (result ≡ Err allocate.NoMember) self.old self.new }
        ensures fails { result ≡ Err allocate.Memory → have_failed self.new ≡ true }
    {
        let Some(_dif) = self.get(ask.fac) else {
            return Err(AllocateError::NoMember);
        };
        let one = &mut self.items[ask.fac as usize];
        one.allocate(alloc, ask)
    }

    /// Makes a fixed flow, and answers the ports of both its ends.
    pub fn bind(&mut self, alloc: Global, fixed: &Fixed) -> Result<(Port, Port), AllocateError>
        requires difs { AreDifs self.old }
        requires may { MayBind self.old fixed.now }
        ensures does { IsAtDif (BindsFrom fixed.now result) fixed.now.fac self.old self.new }
        ensures fails { result ≡ Err allocate.Memory → have_failed self.new ≡ true }
    {
        let Some(_dif) = self.get(fixed.fac) else {
            unreachable!()
        };
        let one = &mut self.items[fixed.fac as usize];
        one.bind(alloc, fixed)
    }

    /// Claims the oldest far end of an application at a node that nobody claimed yet.
    pub fn incoming(&mut self, fac: u16, node: Node, app: &AppName) -> Option<Port>
        requires { AreDifs self.old }
        ensures { AtDif fac (Serves (λ s s'. Claims s fac node app.now result s') ChangesClaims fac) (result ≡ None) self.old self.new }
    {
        let Some(_dif) = self.get(fac) else {
            return None;
        };
        let one = &mut self.items[fac as usize];
        one.incoming(node, app)
    }

    /// Sends an SDU.
    pub fn send(&mut self, alloc: Global, port: Port, sdu: &[u8]) -> Result<Num, SendError>
        requires { AreDifs self.old }
        ensures does { AtDif port.fac (SendsFrom port sdu.now result) (result ≡ Err (send.NotAllocated None)) self.old self.new }
        ensures fails { result ≡ Err send.Memory → have_failed self.new ≡ true }
    {
        let Some(_dif) = self.get(port.fac) else {
            return Err(SendError::NotAllocated { state: None });
        };
        let one = &mut self.items[port.fac as usize];
        one.send(alloc, port, sdu)
    }

    /// Passes the oldest SDU of a port, where one waits.
    pub fn pass(&mut self, port: Port)
        requires difs { AreDifs self.old }
        requires waits { WaitsThere self.old port }
        ensures { IsAtDif (PassesFrom port) port.fac self.old self.new }
    {
        let Some(_dif) = self.get(port.fac) else {
            unreachable!()
        };
        let one = &mut self.items[port.fac as usize];
        one.pass(port);
    }

    /// Gives up a port.
    pub fn free(&mut self, alloc: Global, port: Port) -> Result<(), FreeError>
        requires { AreDifs self.old }
        ensures does { AtDif port.fac (FreesFrom port result) (result ≡ Err free.NoPort) self.old self.new }
        ensures fails { result ≡ Err free.Memory → have_failed self.new ≡ true }
    {
        let Some(_dif) = self.get(port.fac) else {
            return Err(FreeError::NoPort);
        };
        let one = &mut self.items[port.fac as usize];
        one.free(alloc, port)
    }
}
