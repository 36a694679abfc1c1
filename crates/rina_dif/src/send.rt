//! How SDUs are sent on the flows of a DIF.
ghost use Rattle.std.specs.Prelude.{◌≡◌, ◌≤◌, ◌<◌, ◌↔◌, List, length, map, slice_get, Some, None, Option, true, OnOk, IfOk, IfErr, Err};
ghost use Rattle.rina_conn.specs.declared.conn.Conn.{Conn};
ghost use Rattle.rina_iface.specs.declared.ends.End.{End};
ghost use Rattle.rina_iface.specs.declared.error.SendError.{SendError};
ghost use Rattle.rina_iface.specs.declared.error.SendError.TheVariants.{Memory, WindowShut};
ghost use Rattle.rina_iface.specs.declared.state.PortState.TheVariants.{Allocated};
ghost use Rattle.rina_iface.specs.Ends.{place_in};
ghost use Rattle.rina_iface.specs.Seen.{Seen};
ghost use Rattle.rina_iface.specs.Send.{Sends as SendsThere, by_length, by_state};
ghost use Rattle.rina_law.specs.Direction.{Direction};
ghost use Rattle.rina_data.specs.Configs.{config_of};
ghost use Rattle.rina_data.specs.Deciding.{process_of};
ghost use Rattle.rina_dif_law.specs.Sending.{by_process, home, process_at};
ghost use Rattle.rina_data.specs.Fitting.{IsQos};
ghost use Rattle.rina_flows.specs.Tied.{ids_of};
ghost use Rattle.rina_dif.specs.Elsewhere.{ChangesOnly, IsPortAt, WhenOk, home_of};
ghost use Rattle.rina_dif.specs.Facade.{GoesOn, IsShownAs, StaysStanding, own_refusal, shown_as};
ghost use Rattle.rina_dif.specs.Holding.{AreHoused, Holds};
ghost use Rattle.rina_dif.specs.Sending.{IsAdmitted, IsBarred, IsFirstHop, SendsAt, Sends, send_error};
ghost use Rattle.rina_dif.specs.Whole.{IsDif};

use crate::dif::Dif;
use rina_base::{Node, Num, Port};
use rina_conn::{Conn, OfferError};
use rina_data::next_link;
use rina_iface::{PortState, SendError};
use std::alloc::Global;

/// Where and how the pieces of an SDU wait for their first hop.
#[derive(Clone, Copy)]
struct FirstHop {
    /// The place of the IPC process.
    home: usize,
    /// The number of its link.
    link: u16,
    /// The id of the cube.
    qos: u8,
    /// The lifetime of the pieces, in ticks.
    left: u32,
}

/// Tries whether an end in this state sends an SDU of so many bytes.
fn check_end(state: PortState, len: usize, max: u32) -> Result<(), SendError>
    ensures ok { OnOk result ((state ≡ Allocated) × (len ≤ max)) }
    ensures err { IfErr result (λ e. (rest : Option SendError) → by_state (Some state) (by_length len (Some max) rest) ≡ Some e) }
{
    match state {
        PortState::Allocated => {}
        PortState::Failed(fail) => return Err(SendError::Failed { fail }),
        state => return Err(SendError::NotAllocated { state: Some(state) }),
    }
    if len > max as usize {
        return Err(SendError::TooLong { len, max });
    }
    Ok(())
}

/// Tries whether a window has room for so many pieces.
fn check_window(need: u32, room: u32) -> Result<(), SendError>
    ensures ok { OnOk result (need ≤ room) }
    ensures err { IfErr result (λ e. (room < need) × (e ≡ WindowShut need room)) }
{
    if need > room {
        return Err(SendError::WindowShut { need, room });
    }
    Ok(())
}

/// What `send` answers where the sender refuses.
fn send_error(error: OfferError) -> SendError
    ensures { result ≡ send_error error }
{
    match error {
        OfferError::Memory => SendError::Memory,
        OfferError::TooLong { len, max } => SendError::TooLong { len, max },
        OfferError::WindowShut { need, room } => SendError::WindowShut { need, room },
        OfferError::NumbersSpent { until } => SendError::NumbersSpent { until },
    }
}

impl Dif {
    /// Where so many pieces of a connection wait that are sent at a node.
    fn first_hop(&self, node: Node, conn: &Conn, need: u32) -> Result<FirstHop, SendError>
        requires housed { AreHoused (config_of self.now.settings) self.now.processes }
        requires qos { IsQos (config_of self.now.settings) (ids_of conn.now).qos }
        requires some { 1 ≤ need }
        ensures ok { IfOk result (λ way. IsFirstHop self.now node (ids_of conn.now) need way.home way.link) }
        ensures form { IfOk result (λ way. (way.qos ≡ (ids_of conn.now).qos) × (way.left ≡ conn.now.sending.form.cube.mpl)) }
        ensures err { IfErr result (λ e. by_process self.now.settings.cap need (ids_of conn.now) (process_at (map process_of self.now.processes) (home node (config_of self.now.settings).members)) ≡ Some e) }
    {
        let far = conn.sending.form.peer.far;
        let no_route = SendError::NoRoute { dst: far };
        let Some(home) = self.place_at_node(node) else {
            return Err(no_route);
        };
        let Some(process) = self.processes.get(home) else {
            return Err(no_route);
        };
        let Some(link) = next_link(process.routes.as_slice(), far) else {
            return Err(no_route);
        };
        let room = process.queues.room(conn.sending.form.cube.id, link);
        if need > room {
            return Err(SendError::QueueFull { need, room });
        }
        Ok(FirstHop {
            home,
            link,
            qos: conn.sending.form.cube.id,
            left: conn.sending.form.cube.mpl,
        })
    }

    /// Tries what the end at a place refuses to an SDU, but that its numbers are spent.
    fn admit(&self, at: usize, sdu: &[u8]) -> Result<FirstHop, SendError>
        requires valid { IsDif self.now }
        requires at { at < length self.now.flows.journal.ends }
        ensures ok { IfOk result (λ way. IsAdmitted self.now at sdu.now way) }
        ensures err { IfErr result (λ e. IsBarred self.now at sdu.now e) }
    {
        let (Some(end), Some(conn)) = (self.flows.journal.ends.get(at), self.flows.conns.get(at))
        else {
            unreachable!()
        };
        check_end(end.state, sdu.len(), conn.sending.form.cube.largest)?;
        let need = self.flows.need(at, sdu.len() as u32);
        check_window(need, self.flows.room(self.clock, at))?;
        self.first_hop(end.port.node, conn, need)
    }

    /// Sends an SDU at the end of a place: all its pieces are made and wait for their first hop, or none.
    fn send_at(&mut self, alloc: Global, at: usize, sdu: &[u8]) -> Result<Num, SendError>
        requires valid { IsDif self.old }
        requires at { at < length self.old.flows.journal.ends }
        ensures does { (lines : List Direction) (below : Seen) → Holds self.old lines below → Sends self.old lines below at sdu.now result self.new }
        ensures same { (self.new.settings ≡ self.old.settings) × (self.new.clock ≡ self.old.clock) × (self.new.failed ≡ self.old.failed) }
        ensures laid { self.new.laid ≡ self.old.laid }
        ensures whole { self.new ≡ record self.old { processes = self.new.processes; flows = self.new.flows } }
        ensures leaves { (end : End) → slice_get self.old.flows.journal.ends at ≡ Some end → ChangesOnly (λ i. WhenOk result (i ≡ at)) (home_of self.old end.port.node) self.old self.new }
    {
        let way = self.admit(at, sdu)?;
        let made = match self.flows.offer(alloc, self.clock, at, sdu) {
            Ok(made) => made,
            Err(error) => return Err(send_error(error)),
        };
        let pdus = made.pdus.into_vec();
        self.processes
            .put(way.home, way.qos, way.link, way.left, self.clock, pdus);
        Ok(made.num)
    }

    /// Sends an SDU at a port, and answers its number: all its pieces are made in this call, or none. A refusal changes
    /// nothing.
    pub fn send(&mut self, alloc: Global, port: Port, sdu: &[u8]) -> Result<Num, SendError>
        requires { IsDif self.old }
        ensures valid { IsDif self.new }
        ensures does { (lines : List Direction) (below : Seen) → Holds self.old lines below → SendsAt (place_in port self.old.flows.journal.ends) self.old lines below sdu.now result self.new }
        ensures shown { (s : Seen) → IsShownAs s port.fac self.old → SendsThere (own_refusal self.old port (length sdu.now)) s port sdu.now result (shown_as s port.fac self.new) }
        ensures goes_on { GoesOn self.old self.new }
        ensures stands { StaysStanding self.old self.new }
        ensures settings { self.new.settings ≡ self.old.settings }
        ensures laid { self.new.laid ≡ self.old.laid }
        ensures whole { self.new ≡ record self.old { processes = self.new.processes; flows = self.new.flows; failed = self.new.failed } }
        ensures leaves { ChangesOnly (λ i. WhenOk result (IsPortAt self.old port i)) (home_of self.old port.node) self.old self.new }
        ensures failed { self.old.failed ≡ true → result ≡ Err Memory }
        ensures fails { self.new.failed ≡ true ↔ (result ≡ Err Memory) }
    {
        if self.failed {
            return Err(SendError::Memory);
        }
        let Some(at) = self.flows.journal.ends.place(port) else {
            return Err(SendError::NotAllocated { state: None });
        };
        let result = self.send_at(alloc, at, sdu);
        self.failed = matches!(result, Err(SendError::Memory));
        result
    }
}
