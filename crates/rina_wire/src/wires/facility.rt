//! Wires as facilities.
ghost use Rattle.std.specs.Prelude.{◌≡◌, true, Option, Some, None, IsSome};
ghost use Rattle.rina_iface.specs.Seen.{unpassed};
ghost use Rattle.rina_iface.specs.Later.{IsLater};
ghost use Rattle.rina_iface.specs.Register.{Registers};
ghost use Rattle.rina_iface.specs.Allocate.{Allocates};
ghost use Rattle.rina_iface.specs.Bind.{Binds, CanBind};
ghost use Rattle.rina_iface.specs.Claim.{Claims};
ghost use Rattle.rina_iface.specs.Free.{Frees};
ghost use Rattle.rina_iface.specs.Unregister.{Unregisters};
ghost use Rattle.rina_iface.specs.Send.{Sends};
ghost use Rattle.rina_iface.specs.Pass.{IsPassed};
ghost use Rattle.rina_wire.specs.Air.{seen_of, wire_at};
ghost use Rattle.rina_wire.specs.Allocate.{AllocatesOn, own_allocate_refusal};
ghost use Rattle.rina_wire.specs.Bind.{BindsOn};
ghost use Rattle.rina_wire.specs.Claim.{ClaimsOn};
ghost use Rattle.rina_wire.specs.Free.{FreesOn};
ghost use Rattle.rina_wire.specs.Unregister.{UnregistersOn};
ghost use Rattle.rina_wire.specs.Register.{RegistersOn};
ghost use Rattle.rina_wire.specs.Send.{SendsOn, own_send_refusal, passed, refuses_own};
ghost use Rattle.rina_wire.specs.Sound.{IsSound};

use super::Wires;
use super::rest::none_waits;
use rina_base::{AppName, Node, Num, Port, Tick};
use rina_iface::{
    AllocateError, Ask, Facility, Fixed, FreeError, Journal, Lent, PortState, RegisterError,
    SendError, UnregisterError,
};
use std::alloc::Global;

impl Facility for Wires {
    ghost seen = { seen_of };

    ghost valid = { IsSound };

    ghost same_below = { λ _ _. Unit {0} };

    ghost refuses_register = { λ a fac node app. None };

    ghost refuses_unregister = { λ a fac node app. None };

    ghost refuses_allocate = { own_allocate_refusal };

    ghost refuses_send = { λ a port len. own_send_refusal a port };

    ghost frees_both = { λ a. true };

    ghost does_register = { RegistersOn };

    ghost does_unregister = { UnregistersOn };

    ghost does_allocate = { AllocatesOn };

    ghost does_bind = { BindsOn };

    ghost does_incoming = { ClaimsOn };

    ghost does_send = { SendsOn };

    ghost does_pass = { λ a port a'. a' ≡ passed a port };

    ghost does_free = { FreesOn };

    fn now(&self) -> Tick {
        self.clock
    }

    fn journal(&self, fac: u16) -> Option<&Journal> {
        Some(self.wires.get(fac as usize)?.journal())
    }

    fn state(&self, port: Port) -> Option<PortState> {
        Some(self.end(port)?.state)
    }

    fn promise(&self, port: Port) -> Option<u32> {
        let wire = self.wires.get(port.fac as usize)?;
        wire.find(port)?;
        Some(wire.life())
    }

    fn largest(&self, port: Port) -> Option<u32> {
        let wire = self.wires.get(port.fac as usize)?;
        wire.find(port)?;
        Some(wire.largest())
    }

    #[tactic(auto, using(crate::proofs::Seen::seen_registers, crate::proofs::SoundRegister::sound_registers, crate::proofs::Later::registers_later))]
    fn register(
        &mut self,
        alloc: Global,
        fac: u16,
        node: Node,
        app: &AppName,
    ) -> Result<(), RegisterError>
        requires { IsSound self.old }
        ensures valid { IsSound self.new }
        ensures later { IsLater (seen_of self.old) (seen_of self.new) }
        ensures does { Registers None (seen_of self.old) fac node app.now result (seen_of self.new) }
        ensures exact { RegistersOn self.old fac node app.now result self.new }
    {
        self.enter_name(alloc, fac, node, app)
    }

    #[tactic(auto, using(crate::proofs::Left::seen_unregisters, crate::proofs::SoundRegister::sound_unregisters, crate::proofs::Later::unregisters_later))]
    fn unregister(
        &mut self,
        _alloc: Global,
        fac: u16,
        node: Node,
        app: &AppName,
    ) -> Result<(), UnregisterError>
        requires { IsSound self.old }
        ensures valid { IsSound self.new }
        ensures later { IsLater (seen_of self.old) (seen_of self.new) }
        ensures does { Unregisters None (seen_of self.old) fac node app.now result (seen_of self.new) }
        ensures exact { UnregistersOn self.old fac node app.now result self.new }
    {
        self.drop_name(fac, node, app)
    }

    #[tactic(auto, using(crate::proofs::Asked::seen_allocates, crate::proofs::SoundAllocate::sound_allocates, crate::proofs::Later::allocates_later))]
    fn allocate(&mut self, alloc: Global, ask: &Ask) -> Result<Port, AllocateError>
        requires { IsSound self.old }
        ensures valid { IsSound self.new }
        ensures later { IsLater (seen_of self.old) (seen_of self.new) }
        ensures does { Allocates (own_allocate_refusal self.old ask.now)
            (seen_of self.old) ask.now result (seen_of self.new) }
        ensures exact { AllocatesOn self.old ask.now result self.new }
    {
        self.open_flow(alloc, ask)
    }

    fn bind(&mut self, alloc: Global, fixed: &Fixed) -> Result<(Port, Port), AllocateError>
        requires valid { IsSound self.old }
        requires room { CanBind (seen_of self.old) fixed.now }
        ensures valid { IsSound self.new }
        ensures later { IsLater (seen_of self.old) (seen_of self.new) }
        ensures does { Binds (seen_of self.old) fixed.now result (seen_of self.new) }
        ensures exact { BindsOn self.old fixed.now result self.new }
    {
        self.bind_flow(alloc, fixed)
    }

    #[tactic(auto, using(crate::proofs::Claims::seen_claims))]
    fn incoming(&mut self, fac: u16, node: Node, app: &AppName) -> Option<Port>
        requires { IsSound self.old }
        ensures valid { IsSound self.new }
        ensures later { IsLater (seen_of self.old) (seen_of self.new) }
        ensures does { Claims (seen_of self.old) fac node app.now result (seen_of self.new) }
        ensures exact { ClaimsOn self.old fac node app.now result self.new }
    {
        self.claim(fac, node, app)
    }

    #[tactic(auto, using(crate::proofs::Claims::seen_claimed))]
    fn none_waits(&self) -> bool {
        none_waits(self.wires.as_slice())
    }

    #[tactic(auto, using(crate::proofs::Carried::seen_sends, crate::proofs::SoundSend::sound_sends, crate::proofs::Later::sends_later))]
    fn send(&mut self, alloc: Global, port: Port, sdu: &[u8]) -> Result<Num, SendError>
        requires { IsSound self.old }
        ensures valid { IsSound self.new }
        ensures later { IsLater (seen_of self.old) (seen_of self.new) }
        ensures does { Sends (own_send_refusal self.old port)
            (seen_of self.old) port sdu.now result (seen_of self.new) }
        ensures exact { SendsOn self.old port sdu.now result self.new }
    {
        self.send_frame(alloc, port, sdu)
    }

    fn peek(&self, port: Port) -> Option<Lent<'_>> {
        let end = self.end(port)?;
        let entry = end.got.get(end.taken as usize)?;
        Some(Lent {
            at: entry.tick,
            bytes: entry.bytes.as_slice(),
        })
    }

    #[tactic(auto, using(crate::proofs::Carried::seen_passes))]
    fn pass(&mut self, port: Port)
        requires valid { IsSound self.old }
        requires waits { IsSome (unpassed (seen_of self.old) port) }
        ensures valid { IsSound self.new }
        ensures later { IsLater (seen_of self.old) (seen_of self.new) }
        ensures does { IsPassed (seen_of self.old) port (seen_of self.new) }
        ensures exact { self.new ≡ passed self.old port }
    {
        self.pass_oldest(port);
    }

    #[tactic(auto, using(crate::proofs::Left::seen_frees, crate::proofs::SoundFree::sound_frees, crate::proofs::Later::frees_later))]
    fn free(&mut self, _alloc: Global, port: Port) -> Result<(), FreeError>
        requires { IsSound self.old }
        ensures valid { IsSound self.new }
        ensures later { IsLater (seen_of self.old) (seen_of self.new) }
        ensures does { Frees true (seen_of self.old) port result (seen_of self.new) }
        ensures exact { FreesOn self.old port result self.new }
    {
        self.free_port(port)
    }

    ghost same_refl = { λ a. tt };

    ghost same_trans = { λ a b d h g. tt };

    ghost kept = { λ a s. s.kept };

    ghost refusals = { λ a s port len. refuses_own (wire_at a port.fac) };

    ghost clock_ends = { λ a s. s.clock };
}
