//! A new flow on a wire.
ghost use Rattle.std.specs.Prelude.{◌≡◌, ◌<◌, OnOk, OnErr, IfOk};
ghost use Rattle.rina_iface.specs.declared.state.PortState.TheVariants.{Allocated};
ghost use Rattle.rina_iface.specs.Allocate.{asker_end, far_end, new_end};
ghost use Rattle.rina_wire.specs.Allocate.{flow_made, flow_on, other_node, port_on};
ghost use Rattle.rina_wire.specs.Bind.{bound_on, fixed_asker, fixed_far, with_fixed};

use super::Wire;
use rina_base::{AppName, FlowName, Memory, Node, Port, Tick};
use rina_iface::{Ask, End, Entries, Fixed, PortState, Role};
use std::alloc::Global;

/// An end of a new flow, which is allocated at once.
fn new_end(
    alloc: Global,
    flow: FlowName,
    role: Role,
    port: Port,
    app: &AppName,
    peer: &AppName,
) -> Result<End, Memory>
    ensures { IfOk result (λ e. e ≡ new_end flow role port app.now peer.now 0 Allocated) }
{
    Ok(End {
        flow,
        role,
        port,
        app: app.copy(alloc)?,
        peer: peer.copy(alloc)?,
        cube: 0,
        sent: Entries::new(alloc),
        got: Entries::new(alloc),
        taken: 0,
        state: PortState::Allocated,
    })
}

impl Wire {
    /// The port of either end of the next flow.
    pub fn port_on(&self, fac: u16, node: Node) -> Port
        requires { self.now.flows < 4294967295 }
        ensures { result ≡ port_on self.now fac node }
    {
        Port {
            fac,
            node,
            n: self.flows + 1,
        }
    }

    /// The name of the next flow.
    fn flow_on(&self, clock: Tick, node: Node) -> FlowName
        ensures { result ≡ flow_on self.now clock node }
    {
        FlowName {
            src: u32::from(node) + 1,
            tick: clock,
            count: self.flows,
        }
    }

    /// Adds both ends of a flow.
    fn add_ends(&mut self, asker: End, far: End) -> Result<(), Memory>
        requires { self.old.flows < 4294967295 }
        ensures ok { OnOk result (self.new ≡ with_fixed self.old asker far) }
        ensures err { OnErr result (self.new ≡ self.old) }
    {
        if self.journal.ends.push_both(asker, far).is_err() {
            return Err(Memory);
        }
        self.flows += 1;
        Ok(())
    }

    /// Makes both ends of a flow, which are allocated.
    fn make_ends(&mut self, alloc: Global, clock: Tick, ask: &Ask) -> Result<(), Memory>
        requires { self.old.flows < 4294967295 }
        ensures ok { let flow = flow_on self.old clock ask.now.node in OnOk result (self.new ≡ with_fixed self.old (asker_end flow (port_on self.old ask.now.fac ask.now.node) ask.now 0 Allocated) (far_end flow (port_on self.old ask.now.fac (other_node self.old ask.now.node)) ask.now 0)) }
        ensures err { OnErr result (self.new ≡ self.old) }
    {
        let flow = self.flow_on(clock, ask.node);
        let near = self.port_on(ask.fac, ask.node);
        let other = self.port_on(ask.fac, self.other_node(ask.node));
        let asker = new_end(alloc, flow, Role::Asker, near, &ask.app, &ask.to)?;
        let far = new_end(alloc, flow, Role::Far, other, &ask.to, &ask.app)?;
        self.add_ends(asker, far)
    }

    /// Makes a flow, both ends of which are allocated; the far end waits to be claimed.
    pub fn make_flow(&mut self, alloc: Global, clock: Tick, ask: &Ask) -> Result<(), Memory>
        requires { self.old.flows < 4294967295 }
        ensures ok { OnOk result (self.new ≡ flow_made clock ask.now self.old) }
        ensures err { OnErr result (self.new ≡ self.old) }
    {
        let place = self.journal.ends.len() + 1;
        if self.waiting.push(place).is_err() {
            return Err(Memory);
        }
        if self.make_ends(alloc, clock, ask).is_err() {
            let _ = self.waiting.pop();
            return Err(Memory);
        }
        Ok(())
    }

    /// Makes both ends of a fixed flow, which are allocated and claimed.
    fn bind_ends(&mut self, alloc: Global, clock: Tick, fixed: &Fixed) -> Result<(), Memory>
        requires { self.old.flows < 4294967295 }
        ensures ok { OnOk result (self.new ≡ with_fixed self.old (fixed_asker clock fixed.now self.old) (fixed_far clock fixed.now self.old)) }
        ensures err { OnErr result (self.new ≡ self.old) }
    {
        let flow = self.flow_on(clock, fixed.a);
        let near = self.port_on(fixed.fac, fixed.a);
        let other = self.port_on(fixed.fac, fixed.b);
        let asker = new_end(alloc, flow, Role::Asker, near, &fixed.a_app, &fixed.b_app)?;
        let far = new_end(alloc, flow, Role::Far, other, &fixed.b_app, &fixed.a_app)?;
        self.add_ends(asker, far)
    }

    /// Makes a fixed flow, both ends of which are allocated and claimed, and registers its far application.
    pub fn bind_flow(&mut self, alloc: Global, clock: Tick, fixed: &Fixed) -> Result<(), Memory>
        requires { self.old.flows < 4294967295 }
        ensures ok { OnOk result (self.new ≡ bound_on clock fixed.now self.old) }
        ensures err { OnErr result (self.new ≡ self.old) }
    {
        if self.has_name(fixed.b, &fixed.b_app) {
            return self.bind_ends(alloc, clock, fixed);
        }
        self.add_name(alloc, fixed.b, &fixed.b_app)?;
        if self.bind_ends(alloc, clock, fixed).is_err() {
            let _ = self.names.pop();
            return Err(Memory);
        }
        Ok(())
    }
}
