//! The calls of a facility at the top rank, without the test for an earlier failure of an allocation.
ghost use Rattle.std.specs.Prelude.{◌≡◌, true, Err, length};
ghost use Rattle.rina_iface.specs.declared.error.AllocateError.TheVariants as allocate;
ghost use Rattle.rina_iface.specs.declared.error.FreeError.TheVariants as free;
ghost use Rattle.rina_iface.specs.declared.error.RegisterError.TheVariants as register;
ghost use Rattle.rina_iface.specs.declared.error.SendError.TheVariants as send;
ghost use Rattle.rina_iface.specs.declared.error.UnregisterError.TheVariants as unregister;
ghost use Rattle.rina_iface.specs.Allocate.{Allocates};
ghost use Rattle.rina_iface.specs.Bind.{Binds, CanBind};
ghost use Rattle.rina_iface.specs.Free.{Frees};
ghost use Rattle.rina_iface.specs.Later.{IsLater};
ghost use Rattle.rina_iface.specs.Register.{Registers};
ghost use Rattle.rina_iface.specs.Send.{Sends};
ghost use Rattle.rina_iface.specs.Unregister.{Unregisters};
ghost use Rattle.rina_tower.specs.Calls.{AllocatesAtTop, BindsAtTop, FreesAtTop, RegistersAtTop, SendsAtTop, UnregistersAtTop};
ghost use Rattle.rina_tower.specs.MemoryFailure.{has_failed};
ghost use Rattle.rina_tower.specs.Ranks.{seen_of};
ghost use Rattle.rina_tower.specs.Refusals.{frees_both, refuses_allocate, refuses_register, refuses_send, refuses_unregister};
ghost use Rattle.rina_tower.specs.Stands.{IsTower};
ghost use Rattle.rina_tower.specs.Levels.{SameBelow};

use crate::tower::Tower;
use rina_base::{AppName, Node, Num, Port};
use rina_iface::{
    AllocateError, Ask, Facility, Fixed, FreeError, RegisterError, SendError, UnregisterError,
};
use std::alloc::Global;

impl Tower {
    /// Registers an application at a node.
    pub(crate) fn register_at_top(
        &mut self,
        alloc: Global,
        fac: u16,
        node: Node,
        app: &AppName,
    ) -> Result<(), RegisterError>
        requires { IsTower self.old }
        ensures valid { IsTower self.new }
        ensures below { SameBelow self.old self.new }
        ensures later { IsLater (seen_of self.old) (seen_of self.new) }
        ensures does { Registers (refuses_register self.old fac node app.now)
            (seen_of self.old) fac node app.now result (seen_of self.new) }
        ensures exact { RegistersAtTop fac node app.now result self.old self.new }
        ensures fails { result ≡ Err register.Memory → has_failed self.new ≡ true }
    {
        match self {
            Tower::Wires(wires) => wires.register(alloc, fac, node, app),
            Tower::Rank(rank) => rank.difs.register(alloc, fac, node, app),
        }
    }

    /// Ends the registration of an application at a node.
    pub(crate) fn unregister_at_top(
        &mut self,
        alloc: Global,
        fac: u16,
        node: Node,
        app: &AppName,
    ) -> Result<(), UnregisterError>
        requires { IsTower self.old }
        ensures valid { IsTower self.new }
        ensures below { SameBelow self.old self.new }
        ensures later { IsLater (seen_of self.old) (seen_of self.new) }
        ensures does { Unregisters (refuses_unregister self.old fac node app.now)
            (seen_of self.old) fac node app.now result (seen_of self.new) }
        ensures exact { UnregistersAtTop fac node app.now result self.old self.new }
        ensures fails { result ≡ Err unregister.Memory → has_failed self.new ≡ true }
    {
        match self {
            Tower::Wires(wires) => wires.unregister(alloc, fac, node, app),
            Tower::Rank(rank) => rank.difs.unregister(alloc, fac, node, app),
        }
    }

    /// Asks for a flow.
    pub(crate) fn allocate_at_top(
        &mut self,
        alloc: Global,
        ask: &Ask,
    ) -> Result<Port, AllocateError>
        requires { IsTower self.old }
        ensures valid { IsTower self.new }
        ensures below { SameBelow self.old self.new }
        ensures later { IsLater (seen_of self.old) (seen_of self.new) }
        ensures does { Allocates (refuses_allocate self.old ask.now)
            (seen_of self.old) ask.now result (seen_of self.new) }
        ensures exact { AllocatesAtTop ask.now result self.old self.new }
        ensures fails { result ≡ Err allocate.Memory → has_failed self.new ≡ true }
    {
        match self {
            Tower::Wires(wires) => wires.allocate(alloc, ask),
            Tower::Rank(rank) => rank.difs.allocate(alloc, ask),
        }
    }

    /// Makes a fixed flow.
    pub(crate) fn bind_at_top(
        &mut self,
        alloc: Global,
        fixed: &Fixed,
    ) -> Result<(Port, Port), AllocateError>
        requires valid { IsTower self.old }
        requires room { CanBind (seen_of self.old) fixed.now }
        ensures valid { IsTower self.new }
        ensures below { SameBelow self.old self.new }
        ensures later { IsLater (seen_of self.old) (seen_of self.new) }
        ensures does { Binds (seen_of self.old) fixed.now result (seen_of self.new) }
        ensures exact { BindsAtTop fixed.now result self.old self.new }
        ensures fails { result ≡ Err allocate.Memory → has_failed self.new ≡ true }
    {
        match self {
            Tower::Wires(wires) => wires.bind(alloc, fixed),
            Tower::Rank(rank) => rank.difs.bind(alloc, fixed),
        }
    }

    /// Sends an SDU.
    pub(crate) fn send_at_top(
        &mut self,
        alloc: Global,
        port: Port,
        sdu: &[u8],
    ) -> Result<Num, SendError>
        requires { IsTower self.old }
        ensures valid { IsTower self.new }
        ensures below { SameBelow self.old self.new }
        ensures later { IsLater (seen_of self.old) (seen_of self.new) }
        ensures does { Sends (refuses_send self.old port (length sdu.now))
            (seen_of self.old) port sdu.now result (seen_of self.new) }
        ensures exact { SendsAtTop port sdu.now result self.old self.new }
        ensures fails { result ≡ Err send.Memory → has_failed self.new ≡ true }
    {
        match self {
            Tower::Wires(wires) => wires.send(alloc, port, sdu),
            Tower::Rank(rank) => rank.difs.send(alloc, port, sdu),
        }
    }

    /// Gives up a port.
    pub(crate) fn free_at_top(&mut self, alloc: Global, port: Port) -> Result<(), FreeError>
        requires { IsTower self.old }
        ensures valid { IsTower self.new }
        ensures below { SameBelow self.old self.new }
        ensures later { IsLater (seen_of self.old) (seen_of self.new) }
        ensures does { Frees (frees_both self.old) (seen_of self.old) port result (seen_of self.new) }
        ensures exact { FreesAtTop port result self.old self.new }
        ensures fails { result ≡ Err free.Memory → has_failed self.new ≡ true }
    {
        match self {
            Tower::Wires(wires) => wires.free(alloc, port),
            Tower::Rank(rank) => rank.difs.free(alloc, port),
        }
    }
}
