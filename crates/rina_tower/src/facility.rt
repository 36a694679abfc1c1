//! A tower as the facilities of its top rank. Once an allocation has failed at any rank, each call that allocates fails with
//! `Memory`.
ghost use Rattle.std.specs.Prelude.{◌≡◌, true, false, Err, IsSome, length};
ghost use Rattle.rina_iface.specs.declared.error.AllocateError.TheVariants as allocate;
ghost use Rattle.rina_iface.specs.declared.error.FreeError.TheVariants as free;
ghost use Rattle.rina_iface.specs.declared.error.RegisterError.TheVariants as register;
ghost use Rattle.rina_iface.specs.declared.error.SendError.TheVariants as send;
ghost use Rattle.rina_iface.specs.declared.error.UnregisterError.TheVariants as unregister;
ghost use Rattle.rina_iface.specs.Allocate.{Allocates};
ghost use Rattle.rina_iface.specs.Bind.{Binds, CanBind};
ghost use Rattle.rina_iface.specs.Claim.{Claims};
ghost use Rattle.rina_iface.specs.Free.{Frees};
ghost use Rattle.rina_iface.specs.Later.{IsLater};
ghost use Rattle.rina_iface.specs.Pass.{IsPassed};
ghost use Rattle.rina_iface.specs.Register.{Registers};
ghost use Rattle.rina_iface.specs.Seen.{unpassed};
ghost use Rattle.rina_iface.specs.Send.{Sends};
ghost use Rattle.rina_iface.specs.Unregister.{Unregisters};
ghost use Rattle.rina_tower.specs.Calls.{AllocatesAtTop, AllocatesWhole, BindsAtTop, BindsWhole, ClaimsAtTop, FreesAtTop, FreesWhole, PassesAtTop, RegistersAtTop, RegistersWhole, SendsAtTop, SendsWhole, UnregistersAtTop, UnregistersWhole};
ghost use Rattle.rina_tower.specs.MemoryFailure.{has_failed};
ghost use Rattle.rina_tower.specs.Ranks.{seen_of};
ghost use Rattle.rina_tower.specs.Refusals.{frees_both, refuses_allocate, refuses_own, refuses_register, refuses_send, refuses_unregister};
ghost use Rattle.rina_tower.specs.Stands.{IsTower, clock_of, kept_of};
ghost use Rattle.rina_tower.specs.Levels.{SameBelow, same_refl, same_trans};

use crate::tower::Tower;
use rina_base::{AppName, Node, Num, Port, Tick};
use rina_iface::{
    AllocateError, Ask, Facility, Fixed, FreeError, Journal, Lent, PortState, RegisterError,
    SendError, UnregisterError,
};
use std::alloc::Global;

impl Facility for Tower {
    ghost seen = { seen_of };

    ghost valid = { IsTower };

    ghost same_below = { SameBelow };

    ghost refuses_register = { refuses_register };

    ghost refuses_unregister = { refuses_unregister };

    ghost refuses_allocate = { refuses_allocate };

    ghost refuses_send = { refuses_send };

    ghost frees_both = { frees_both };

    ghost does_register = { RegistersWhole };

    ghost does_unregister = { UnregistersWhole };

    ghost does_allocate = { AllocatesWhole };

    ghost does_bind = { BindsWhole };

    ghost does_incoming = { λ t fac node app result t'. ClaimsAtTop fac node app result t t' };

    ghost does_send = { SendsWhole };

    ghost does_pass = { λ t port t'. PassesAtTop port t t' };

    ghost does_free = { FreesWhole };

    fn now(&self) -> Tick {
        self.clock()
    }

    fn journal(&self, fac: u16) -> Option<&Journal> {
        match self {
            Tower::Wires(wires) => wires.journal(fac),
            Tower::Rank(rank) => match rank.difs.get(fac) {
                Some(dif) => Some(dif.journal()),
                None => None,
            },
        }
    }

    fn state(&self, port: Port) -> Option<PortState> {
        match self {
            Tower::Wires(wires) => wires.state(port),
            Tower::Rank(rank) => match rank.difs.get(port.fac) {
                Some(dif) => dif.state(port),
                None => None,
            },
        }
    }

    fn promise(&self, port: Port) -> Option<u32> {
        match self {
            Tower::Wires(wires) => wires.promise(port),
            Tower::Rank(rank) => match rank.difs.get(port.fac) {
                Some(dif) => dif.promise(port),
                None => None,
            },
        }
    }

    fn largest(&self, port: Port) -> Option<u32> {
        match self {
            Tower::Wires(wires) => wires.largest(port),
            Tower::Rank(rank) => match rank.difs.get(port.fac) {
                Some(dif) => dif.largest(port),
                None => None,
            },
        }
    }

    fn register(
        &mut self,
        alloc: Global,
        fac: u16,
        node: Node,
        app: &AppName,
    ) -> Result<(), RegisterError>
        requires { IsTower self.old }
        ensures valid { IsTower self.new }
        ensures below { SameBelow self.old self.new }
        ensures later { IsLater (seen_of self.old) (seen_of self.new) }
        ensures does { Registers (refuses_register self.old fac node app.now)
            (seen_of self.old) fac node app.now result (seen_of self.new) }
        ensures exact { has_failed self.old ≡ false → RegistersAtTop fac node app.now result self.old self.new }
        ensures failed { has_failed self.old ≡ true → (result ≡ Err register.Memory) × (self.new ≡ self.old) }
        ensures fails { result ≡ Err register.Memory → has_failed self.new ≡ true }
    {
        if self.has_failed() {
            return Err(RegisterError::Memory);
        }
        self.register_at_top(alloc, fac, node, app)
    }

    fn unregister(
        &mut self,
        alloc: Global,
        fac: u16,
        node: Node,
        app: &AppName,
    ) -> Result<(), UnregisterError>
        requires { IsTower self.old }
        ensures valid { IsTower self.new }
        ensures below { SameBelow self.old self.new }
        ensures later { IsLater (seen_of self.old) (seen_of self.new) }
        ensures does { Unregisters (refuses_unregister self.old fac node app.now)
            (seen_of self.old) fac node app.now result (seen_of self.new) }
        ensures exact { has_failed self.old ≡ false → UnregistersAtTop fac node app.now result self.old self.new }
        ensures failed { has_failed self.old ≡ true → (result ≡ Err unregister.Memory) × (self.new ≡ self.old) }
        ensures fails { result ≡ Err unregister.Memory → has_failed self.new ≡ true }
    {
        if self.has_failed() {
            return Err(UnregisterError::Memory);
        }
        self.unregister_at_top(alloc, fac, node, app)
    }

    fn allocate(&mut self, alloc: Global, ask: &Ask) -> Result<Port, AllocateError>
        requires { IsTower self.old }
        ensures valid { IsTower self.new }
        ensures below { SameBelow self.old self.new }
        ensures later { IsLater (seen_of self.old) (seen_of self.new) }
        ensures does { Allocates (refuses_allocate self.old ask.now)
            (seen_of self.old) ask.now result (seen_of self.new) }
        ensures exact { has_failed self.old ≡ false → AllocatesAtTop ask.now result self.old self.new }
        ensures failed { has_failed self.old ≡ true → (result ≡ Err allocate.Memory) × (self.new ≡ self.old) }
        ensures fails { result ≡ Err allocate.Memory → has_failed self.new ≡ true }
    {
        if self.has_failed() {
            return Err(AllocateError::Memory);
        }
        self.allocate_at_top(alloc, ask)
    }

    fn bind(&mut self, alloc: Global, fixed: &Fixed) -> Result<(Port, Port), AllocateError>
        requires valid { IsTower self.old }
        requires room { CanBind (seen_of self.old) fixed.now }
        ensures valid { IsTower self.new }
        ensures below { SameBelow self.old self.new }
        ensures later { IsLater (seen_of self.old) (seen_of self.new) }
        ensures does { Binds (seen_of self.old) fixed.now result (seen_of self.new) }
        ensures exact { has_failed self.old ≡ false → BindsAtTop fixed.now result self.old self.new }
        ensures failed { has_failed self.old ≡ true → (result ≡ Err allocate.Memory) × (self.new ≡ self.old) }
        ensures fails { result ≡ Err allocate.Memory → has_failed self.new ≡ true }
    {
        if self.has_failed() {
            return Err(AllocateError::Memory);
        }
        self.bind_at_top(alloc, fixed)
    }

    fn incoming(&mut self, fac: u16, node: Node, app: &AppName) -> Option<Port>
        requires { IsTower self.old }
        ensures valid { IsTower self.new }
        ensures below { SameBelow self.old self.new }
        ensures later { IsLater (seen_of self.old) (seen_of self.new) }
        ensures does { Claims (seen_of self.old) fac node app.now result (seen_of self.new) }
        ensures exact { ClaimsAtTop fac node app.now result self.old self.new }
    {
        match self {
            Tower::Wires(wires) => wires.incoming(fac, node, app),
            Tower::Rank(rank) => rank.difs.incoming(fac, node, app),
        }
    }

    fn none_waits(&self) -> bool {
        match self {
            Tower::Wires(wires) => wires.none_waits(),
            Tower::Rank(rank) => rank.difs.none_waits(),
        }
    }

    fn send(&mut self, alloc: Global, port: Port, sdu: &[u8]) -> Result<Num, SendError>
        requires { IsTower self.old }
        ensures valid { IsTower self.new }
        ensures below { SameBelow self.old self.new }
        ensures later { IsLater (seen_of self.old) (seen_of self.new) }
        ensures does { Sends (refuses_send self.old port (length sdu.now))
            (seen_of self.old) port sdu.now result (seen_of self.new) }
        ensures exact { has_failed self.old ≡ false → SendsAtTop port sdu.now result self.old self.new }
        ensures failed { has_failed self.old ≡ true → (result ≡ Err send.Memory) × (self.new ≡ self.old) }
        ensures fails { result ≡ Err send.Memory → has_failed self.new ≡ true }
    {
        if self.has_failed() {
            return Err(SendError::Memory);
        }
        self.send_at_top(alloc, port, sdu)
    }

    fn peek(&self, port: Port) -> Option<Lent<'_>> {
        match self {
            Tower::Wires(wires) => wires.peek(port),
            Tower::Rank(rank) => match rank.difs.get(port.fac) {
                Some(dif) => dif.peek(port),
                None => None,
            },
        }
    }

    fn pass(&mut self, port: Port)
        requires valid { IsTower self.old }
        requires waits { IsSome (unpassed (seen_of self.old) port) }
        ensures valid { IsTower self.new }
        ensures below { SameBelow self.old self.new }
        ensures later { IsLater (seen_of self.old) (seen_of self.new) }
        ensures does { IsPassed (seen_of self.old) port (seen_of self.new) }
        ensures exact { PassesAtTop port self.old self.new }
    {
        match self {
            Tower::Wires(wires) => wires.pass(port),
            Tower::Rank(rank) => rank.difs.pass(port),
        }
    }

    fn free(&mut self, alloc: Global, port: Port) -> Result<(), FreeError>
        requires { IsTower self.old }
        ensures valid { IsTower self.new }
        ensures below { SameBelow self.old self.new }
        ensures later { IsLater (seen_of self.old) (seen_of self.new) }
        ensures does { Frees (frees_both self.old) (seen_of self.old) port result (seen_of self.new) }
        ensures exact { has_failed self.old ≡ false → FreesAtTop port result self.old self.new }
        ensures failed { has_failed self.old ≡ true → (result ≡ Err free.Memory) × (self.new ≡ self.old) }
        ensures fails { result ≡ Err free.Memory → has_failed self.new ≡ true }
    {
        if self.has_failed() {
            return Err(FreeError::Memory);
        }
        self.free_at_top(alloc, port)
    }

    ghost same_refl = { same_refl };

    ghost same_trans = { same_trans };

    ghost kept = { kept_of };

    ghost refusals = { λ t v port len. refuses_own t port len };

    ghost clock_ends = { clock_of };
}
