//! What each call does, exactly.
ghost use Rattle.std.specs.Prelude.{◌≡◌, ◌≢◌, ◌<◌, ◌≤◌, All, IsSome, IsSomeAnd, IfSome, Some, None};
ghost use Rattle.rina_wire.specs.Air.{Line, wire_at};
ghost use Rattle.rina_wire.specs.Allocate.{AllocatesOn, allocate_refusal, flow_refusal};
ghost use Rattle.rina_wire.specs.Bind.{BindsOn};
ghost use Rattle.rina_wire.specs.Claim.{ClaimsOn};
ghost use Rattle.rina_wire.specs.Free.{FreesOn};
ghost use Rattle.rina_wire.specs.Register.{RegistersOn};
ghost use Rattle.rina_iface.specs.Send.{by_length};
ghost use Rattle.rina_wire.specs.Send.{SendsOn, frame_refusal, passed, unpassed_at};
ghost use Rattle.rina_wire.specs.Sound.{IsSoundLine};
ghost use Rattle.rina_wire.specs.Unregister.{UnregistersOn};

use super::Wires;
use crate::wire::{Wire, frame_number};
use rina_base::{AppName, Node, Num, Port};
use rina_iface::{
    AllocateError, Ask, Fixed, FreeError, PortState, RegisterError, SendError, UnregisterError,
};
use std::alloc::Global;

/// Why a wire refuses a frame of so many bytes: it is too long, or the wire's numbers are spent.
fn frame_refusal(wire: &Wire, len: usize) -> Option<SendError>
    ensures { result ≡ by_length len (Some wire.now.largest) (frame_refusal wire.now) }
{
    let max = wire.largest();
    if len > max as usize {
        return Some(SendError::TooLong { len, max });
    }
    if wire.is_spent() {
        return Some(SendError::NumbersSpent { until: u32::MAX });
    }
    None
}

/// What a wire refuses to an ask, beside what every facility does.
fn flow_refusal(wire: &Wire, ask: &Ask) -> Option<AllocateError>
    ensures refused { result ≡ flow_refusal wire.now ask.now }
    ensures room { result ≡ None → wire.now.flows < 4294967295 }
    ensures memory { IfSome result (λ e. e ≢ AllocateError.Memory) }
{
    if !wire.has_name(wire.other_node(ask.node), &ask.to) {
        if wire.has_name(ask.node, &ask.to) {
            return Some(AllocateError::SameSystem);
        }
        return Some(AllocateError::NoSuchApp);
    }
    if wire.flows() == u32::MAX {
        return Some(AllocateError::NoIds { used: u32::MAX });
    }
    if wire.is_cut() {
        return Some(AllocateError::NoRoute { dst: 0 });
    }
    let port = wire.busy(ask.node)?;
    Some(AllocateError::Busy { port })
}

impl Wires {
    /// Registers an application at a node.
    pub(super) fn enter_name(
        &mut self,
        alloc: Global,
        fac: u16,
        node: Node,
        app: &AppName,
    ) -> Result<(), RegisterError>
        ensures { RegistersOn self.old fac node app.now result self.new }
    {
        if self.failed {
            return Err(RegisterError::Memory);
        }
        let Some(wire) = self.wires.get(fac as usize) else {
            return Err(RegisterError::NoMember);
        };
        if wire.has_name(node, app) {
            return Err(RegisterError::Already);
        }
        if !wire.is_at(node) {
            return Err(RegisterError::NoMember);
        }
        if self.wires[fac as usize].add_name(alloc, node, app).is_err() {
            self.failed = true;
            return Err(RegisterError::Memory);
        }
        Ok(())
    }

    /// Ends the registration of an application at a node.
    pub(super) fn drop_name(
        &mut self,
        fac: u16,
        node: Node,
        app: &AppName,
    ) -> Result<(), UnregisterError>
        ensures { UnregistersOn self.old fac node app.now result self.new }
    {
        if self.failed {
            return Err(UnregisterError::Memory);
        }
        let Some(wire) = self.wires.get(fac as usize) else {
            return Err(UnregisterError::NotThere);
        };
        if !wire.has_name(node, app) {
            return Err(UnregisterError::NotThere);
        }
        self.wires[fac as usize].drop_name(node, app);
        Ok(())
    }

    /// What must be refused to an ask, in the order of every facility.
    fn ask_refusal(&self, ask: &Ask) -> Option<AllocateError>
        ensures refused { result ≡ allocate_refusal self.now ask.now }
        ensures room { result ≡ None → IsSomeAnd (wire_at self.now ask.now.fac) (λ (l : Line). l.flows < 4294967295) }
        ensures memory { IfSome result (λ e. e ≢ AllocateError.Memory) }
    {
        let Some(wire) = self.wires.get(ask.fac as usize) else {
            return Some(AllocateError::NoMember);
        };
        if !wire.is_at(ask.node) {
            return Some(AllocateError::NoMember);
        }
        if !wire.meets(&ask.want) {
            return Some(AllocateError::NoCube);
        }
        flow_refusal(wire, ask)
    }

    /// Asks for a flow.
    #[tactic(auto, using(crate::proofs::Refused::asks_refused))]
    pub(super) fn open_flow(&mut self, alloc: Global, ask: &Ask) -> Result<Port, AllocateError>
        ensures { AllocatesOn self.old ask.now result self.new }
    {
        if self.failed {
            return Err(AllocateError::Memory);
        }
        if let Some(error) = self.ask_refusal(ask) {
            return Err(error);
        }
        let Some(wire) = self.wires.get(ask.fac as usize) else {
            unreachable!()
        };
        let port = wire.port_on(ask.fac, ask.node);
        if self.wires[ask.fac as usize]
            .make_flow(alloc, self.clock, ask)
            .is_err()
        {
            self.failed = true;
            return Err(AllocateError::Memory);
        }
        Ok(port)
    }

    /// Makes a fixed flow.
    pub(super) fn bind_flow(
        &mut self,
        alloc: Global,
        fixed: &Fixed,
    ) -> Result<(Port, Port), AllocateError>
        requires room { IfSome (wire_at self.old fixed.now.fac) (λ (l : Line). l.flows < 4294967295) }
        requires there { IsSome (wire_at self.old fixed.now.fac) }
        ensures { BindsOn self.old fixed.now result self.new }
    {
        if self.failed {
            return Err(AllocateError::Memory);
        }
        let Some(wire) = self.wires.get(fixed.fac as usize) else {
            unreachable!()
        };
        let ports = (
            wire.port_on(fixed.fac, fixed.a),
            wire.port_on(fixed.fac, fixed.b),
        );
        if self.wires[fixed.fac as usize]
            .bind_flow(alloc, self.clock, fixed)
            .is_err()
        {
            self.failed = true;
            return Err(AllocateError::Memory);
        }
        Ok(ports)
    }

    /// Claims the oldest far end of an application at a node that nobody claimed yet.
    pub(super) fn claim(&mut self, fac: u16, node: Node, app: &AppName) -> Option<Port>
        ensures { ClaimsOn self.old fac node app.now result self.new }
    {
        self.wires.get(fac as usize)?;
        self.wires[fac as usize].claim(node, app)
    }

    /// Sends a frame.
    #[tactic(auto, using(crate::proofs::Refused::sends_refused))]
    pub(super) fn send_frame(
        &mut self,
        alloc: Global,
        port: Port,
        sdu: &[u8],
    ) -> Result<Num, SendError>
        requires clock { self.old.now ≤ 10_000_000 }
        requires lines { All IsSoundLine self.old.wires }
        ensures { SendsOn self.old port sdu.now result self.new }
    {
        if self.failed {
            return Err(SendError::Memory);
        }
        let Some(wire) = self.wires.get(port.fac as usize) else {
            return Err(SendError::NotAllocated { state: None });
        };
        let Some(place) = wire.place(port) else {
            return Err(SendError::NotAllocated { state: None });
        };
        let Some(end) = wire.end(place) else {
            return Err(SendError::NotAllocated { state: None });
        };
        match end.state {
            PortState::Allocated => {}
            PortState::Failed(fail) => return Err(SendError::Failed { fail }),
            state => return Err(SendError::NotAllocated { state: Some(state) }),
        }
        if let Some(error) = frame_refusal(wire, sdu.len()) {
            return Err(error);
        }
        let num = frame_number(wire.frames());
        if self.wires[port.fac as usize]
            .send(alloc, self.clock, place, sdu)
            .is_err()
        {
            self.failed = true;
            return Err(SendError::Memory);
        }
        Ok(num)
    }

    /// Marks the oldest entry of a port's end as passed.
    pub(super) fn pass_oldest(&mut self, port: Port)
        requires { IsSome (unpassed_at self.old port) }
        ensures { self.new ≡ passed self.old port }
    {
        let Some(wire) = self.wires.get(port.fac as usize) else {
            unreachable!()
        };
        let Some(place) = wire.place(port) else {
            unreachable!()
        };
        let Some(_end) = wire.end(place) else {
            unreachable!()
        };
        self.wires[port.fac as usize].pass(place);
    }

    /// Closes the flow of a port.
    pub(super) fn free_port(&mut self, port: Port) -> Result<(), FreeError>
        ensures { FreesOn self.old port result self.new }
    {
        if self.failed {
            return Err(FreeError::Memory);
        }
        let Some(wire) = self.wires.get(port.fac as usize) else {
            return Err(FreeError::NoPort);
        };
        let Some(place) = wire.place(port) else {
            return Err(FreeError::NoPort);
        };
        if wire.end(place).is_none() {
            return Err(FreeError::NoPort);
        }
        self.wires[port.fac as usize].free(place);
        Ok(())
    }
}
