//! The trait that every layer stands on.
ghost use Rattle.std.specs.Prelude.{◌≡◌, ◌≤◌, ℕ, Bool, true, Option, Some, None, IfSome, IsSome, MatchOption, List, Result, length, slice_get, option_map};
ghost use Rattle.rina_base.specs.declared.number.Num.{Num};
ghost use Rattle.rina_base.specs.declared.number.Port.{Port};
ghost use Rattle.rina_iface.specs.declared.ask.Ask.{Ask};
ghost use Rattle.rina_iface.specs.declared.ask.Fixed.{Fixed};
ghost use Rattle.rina_iface.specs.declared.error.RegisterError.{RegisterError};
ghost use Rattle.rina_iface.specs.declared.error.AllocateError.{AllocateError};
ghost use Rattle.rina_iface.specs.declared.error.FreeError.{FreeError};
ghost use Rattle.rina_iface.specs.declared.error.SendError.{SendError};
ghost use Rattle.rina_iface.specs.declared.error.UnregisterError.{UnregisterError};
ghost use Rattle.rina_iface.specs.Seen.{Fac, Seen, state_of, promise_at, largest_at, unpassed};
ghost use Rattle.rina_iface.specs.Journal.{AreKept};
ghost use Rattle.rina_iface.specs.Later.{IsLater};
ghost use Rattle.rina_iface.specs.Register.{Registers};
ghost use Rattle.rina_iface.specs.Allocate.{Allocates};
ghost use Rattle.rina_iface.specs.Unregister.{Unregisters};
ghost use Rattle.rina_iface.specs.Bind.{Binds, CanBind};
ghost use Rattle.rina_iface.specs.Claim.{AreClaimed, Claims};
ghost use Rattle.rina_iface.specs.Free.{Frees};
ghost use Rattle.rina_iface.specs.Send.{IsOwnRefusal, Sends};
ghost use Rattle.rina_iface.specs.Pass.{IsLent, IsPassed};

use crate::ask::{Ask, Fixed, Lent};
use crate::ends::Journal;
use crate::error::{AllocateError, FreeError, RegisterError, SendError, UnregisterError};
use crate::state::PortState;
use rina_base::{AppName, Node, Num, Port, Tick};
use std::alloc::Global;

/// The facilities of one rank: wires, or DIFs. A facility number counts them from 0.
/// A refused call changes nothing, nor does one that found no memory.
pub trait Facility {
    /// What a contract sees.
    ghost seen: { Self → Seen };

    /// What holds of every one that can come to be.
    ghost valid: { Self → Type 0 };

    /// What no call changes: the ranks below.
    ghost same_below: { Self → Self → Type 0 };

    /// What `register` must refuse by what the facility alone knows.
    ghost refuses_register: { Self → ℕ → ℕ → List ℕ → Option RegisterError };

    /// What `unregister` must refuse by what the facility alone knows.
    ghost refuses_unregister: { Self → ℕ → ℕ → List ℕ → Option UnregisterError };

    /// What `allocate` must refuse by what the facility alone knows.
    ghost refuses_allocate: { Self → Ask → Option AllocateError };

    /// What `send` must refuse by what the facility alone knows.
    ghost refuses_send: { Self → Port → ℕ → Option SendError };

    /// Whether `free` frees the other end of the flow at once.
    ghost frees_both: { Self → Bool };

    /// What `register` does with what it answers, to the whole: what is not shown included.
    ghost does_register: { Self → ℕ → ℕ → List ℕ → Result (Unit {0}) RegisterError → Self → Type 0 };

    /// What `unregister` does with what it answers, to the whole.
    ghost does_unregister: { Self → ℕ → ℕ → List ℕ → Result (Unit {0}) UnregisterError → Self → Type 0 };

    /// What `allocate` does with what it answers, to the whole.
    ghost does_allocate: { Self → Ask → Result Port AllocateError → Self → Type 0 };

    /// What `bind` does with what it answers, to the whole.
    ghost does_bind: { Self → Fixed → Result (Port × Port) AllocateError → Self → Type 0 };

    /// What `incoming` does with what it answers, to the whole.
    ghost does_incoming: { Self → ℕ → ℕ → List ℕ → Option Port → Self → Type 0 };

    /// What `send` does with what it answers, to the whole.
    ghost does_send: { Self → Port → List ℕ → Result Num SendError → Self → Type 0 };

    /// What `pass` does to the whole.
    ghost does_pass: { Self → Port → Self → Type 0 };

    /// What `free` does with what it answers, to the whole.
    ghost does_free: { Self → Port → Result (Unit {0}) FreeError → Self → Type 0 };

    /// The clock, at most 10,000,000.
    fn now(&self) -> Tick
        ensures { result ≡ (seen self.now).now };

    /// All ends of a facility. None exactly where the number is out of range.
    fn journal(&self, fac: u16) -> Option<&Journal>
        ensures { MatchOption result (length (seen self.now).facs ≤ fac)
            (λ j. option_map (λ (f : Fac). f.ends) (slice_get (seen self.now).facs fac) ≡ Some j.now.ends) };

    /// The state of a port. None exactly where the port was never drawn.
    fn state(&self, port: Port) -> Option<PortState>
        requires { valid self.now }
        ensures { result ≡ state_of (seen self.now) port };

    /// How many ticks pass at most from acceptance to delivery. None exactly where the port was never drawn.
    fn promise(&self, port: Port) -> Option<u32>
        requires { valid self.now }
        ensures { result ≡ promise_at (seen self.now) port };

    /// How many bytes an SDU has at most. None exactly where the port was never drawn.
    fn largest(&self, port: Port) -> Option<u32>
        requires { valid self.now }
        ensures { result ≡ largest_at (seen self.now) port };

    /// Registers an application at a node.
    fn register(
        &mut self,
        alloc: Global,
        fac: u16,
        node: Node,
        app: &AppName,
    ) -> Result<(), RegisterError>
        requires { valid self.old }
        ensures valid { valid self.new }
        ensures below { same_below self.old self.new }
        ensures later { IsLater (seen self.old) (seen self.new) }
        ensures does { Registers (refuses_register self.old fac node app.now)
            (seen self.old) fac node app.now result (seen self.new) }
        ensures whole { does_register self.old fac node app.now result self.new };

    /// Ends the registration of an application at a node.
    fn unregister(
        &mut self,
        alloc: Global,
        fac: u16,
        node: Node,
        app: &AppName,
    ) -> Result<(), UnregisterError>
        requires { valid self.old }
        ensures valid { valid self.new }
        ensures below { same_below self.old self.new }
        ensures later { IsLater (seen self.old) (seen self.new) }
        ensures does { Unregisters (refuses_unregister self.old fac node app.now)
            (seen self.old) fac node app.now result (seen self.new) }
        ensures whole { does_unregister self.old fac node app.now result self.new };

    /// Asks for a flow, and answers the port of its end.
    fn allocate(&mut self, alloc: Global, ask: &Ask) -> Result<Port, AllocateError>
        requires { valid self.old }
        ensures valid { valid self.new }
        ensures below { same_below self.old self.new }
        ensures later { IsLater (seen self.old) (seen self.new) }
        ensures does { Allocates (refuses_allocate self.old ask.now)
            (seen self.old) ask.now result (seen self.new) }
        ensures whole { does_allocate self.old ask.now result self.new };

    /// Makes a flow that the stack fixes, both ends of which are allocated and claimed, and registers the
    /// application of the far end. It answers the ports of both ends.
    fn bind(&mut self, alloc: Global, fixed: &Fixed) -> Result<(Port, Port), AllocateError>
        requires valid { valid self.old }
        requires room { CanBind (seen self.old) fixed.now }
        ensures valid { valid self.new }
        ensures below { same_below self.old self.new }
        ensures later { IsLater (seen self.old) (seen self.new) }
        ensures does { Binds (seen self.old) fixed.now result (seen self.new) }
        ensures whole { does_bind self.old fixed.now result self.new };

    /// Claims the oldest far end of an application at a node that nobody claimed yet.
    fn incoming(&mut self, fac: u16, node: Node, app: &AppName) -> Option<Port>
        requires { valid self.old }
        ensures valid { valid self.new }
        ensures below { same_below self.old self.new }
        ensures later { IsLater (seen self.old) (seen self.new) }
        ensures does { Claims (seen self.old) fac node app.now result (seen self.new) }
        ensures whole { does_incoming self.old fac node app.now result self.new };

    /// Whether no far end waits at any of the facilities to be claimed. Where it says so, there is none to ask for.
    fn none_waits(&self) -> bool
        ensures { result ≡ true → AreClaimed (seen self.now) };

    /// Sends an SDU, and answers its number.
    fn send(&mut self, alloc: Global, port: Port, sdu: &[u8]) -> Result<Num, SendError>
        requires { valid self.old }
        ensures valid { valid self.new }
        ensures below { same_below self.old self.new }
        ensures later { IsLater (seen self.old) (seen self.new) }
        ensures does { Sends (refuses_send self.old port (length sdu.now))
            (seen self.old) port sdu.now result (seen self.new) }
        ensures whole { does_send self.old port sdu.now result self.new };

    /// Lends the oldest SDU that was not passed yet. None exactly where there is none.
    fn peek(&self, port: Port) -> Option<Lent<'_>>
        requires { valid self.now }
        ensures { MatchOption result (unpassed (seen self.now) port ≡ None)
            (λ l. IsLent (seen self.now) port l.at l.bytes.now) };

    /// Marks that SDU as passed.
    fn pass(&mut self, port: Port)
        requires valid { valid self.old }
        requires waits { IsSome (unpassed (seen self.old) port) }
        ensures valid { valid self.new }
        ensures below { same_below self.old self.new }
        ensures later { IsLater (seen self.old) (seen self.new) }
        ensures does { IsPassed (seen self.old) port (seen self.new) }
        ensures whole { does_pass self.old port self.new };

    /// Gives up a port: a flow that is allocated is closed, and one that was asked for is withdrawn.
    fn free(&mut self, alloc: Global, port: Port) -> Result<(), FreeError>
        requires { valid self.old }
        ensures valid { valid self.new }
        ensures below { same_below self.old self.new }
        ensures later { IsLater (seen self.old) (seen self.new) }
        ensures does { Frees (frees_both self.old) (seen self.old) port result (seen self.new) }
        ensures whole { does_free self.old port result self.new };

    /// Nothing changes the ranks below by doing nothing.
    ghost same_refl: { (x : Self) → same_below x x };

    ghost same_trans: { (x y z : Self) → same_below x y → same_below y z → same_below x z };

    /// What flows keep, that partners are named after each other, that no port is drawn twice, and that
    /// no promise is over 2,000,000 ticks.
    ghost kept: { (x : Self) → valid x → AreKept (seen x) };

    /// What a facility refuses to a send by what it alone knows is none of what every facility refuses.
    ghost refusals: { (x : Self) → valid x → (port : Port) (len : ℕ) → IfSome (refuses_send x port len) IsOwnRefusal };

    /// The clock has an end.
    ghost clock_ends: { (x : Self) → valid x → (seen x).now ≤ 10_000_000 };
}
