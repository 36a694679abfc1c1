//! The ends of flows, and a facility's journal of them.
ghost use Rattle.std.specs.Prelude.{◌≡◌, ◌≤◌, ◌<◌, ◌^◌, ◌++◌, ◌∷◌, [], length, slice_get, slice_set, map, OnOk, OnErr, IfSome, MatchOption};
ghost use Rattle.rina_iface.specs.Ends.{place_in, end_in, with_sent, with_got, with_passed};
ghost use Rattle.rina_iface.specs.Seen.{is_of, oldest_in};
ghost use Rattle.rina_iface.specs.State.{with_state, cut_state, cut_off};

use crate::places::{Places, add, place_of, take_back};
use crate::state::{Fail, PortState, Role};
use rina_base::{AppName, FlowName, Node, Port, Tick};
use rina_law::{Entries, Entry};
use std::alloc::{AllocError, Global};
use std::marker::Model;

/// One end of a flow.
#[derive(Drop)]
pub struct End {
    pub flow: FlowName,
    pub role: Role,
    pub port: Port,
    /// The application at this end.
    pub app: AppName,
    /// The application at the other end.
    pub peer: AppName,
    /// The QoS-id of the flow's cube, 0 on a wire.
    pub cube: u8,
    /// What this end's `send` accepted.
    pub sent: Entries,
    /// What was delivered to this end.
    pub got: Entries,
    /// How many entries of `got` were passed to the application.
    pub taken: u64,
    pub state: PortState,
}

/// Ends in the order in which they were made. A contract sees the list of them.
#[derive(Drop)]
pub struct Ends {
    items: Vec<End>,
    /// Where the end of each port stands, so that no look-up walks over all ends.
    places: Places,
}

/// What a facility tells of all its flows.
#[derive(Drop)]
pub struct Journal {
    pub ends: Ends,
}

impl Model for Ends {
    ghost use Rattle.std.specs.Prelude.{List};
    ghost use Rattle.rina_iface.specs.declared.ends.End.{End};
    ghost use Rattle.rina_iface.specs.Index.{IsIndex};

    ghost Value = { List End };

    ghost view = { λ e. e.items.items };

    ghost invariant = { λ e. IsIndex e.places e.items.items };
}

impl Ends {
    /// No ends yet.
    pub fn new(alloc: Global) -> Ends
        ensures { result ≡ [] }
    {
        Ends {
            items: Vec::new(alloc),
            places: Places::new(alloc),
        }
    }

    /// How many ends there are.
    pub fn len(&self) -> usize
        ensures value { result ≡ length self.now }
        ensures bound { result < 2 ^ 63 }
    {
        self.items.len()
    }

    /// Whether the end at a place is one of an application at a node.
    fn is_of(&self, place: usize, node: Node, app: &AppName) -> bool
        ensures { result ≡ is_of node app.now (slice_get self.now place) }
    {
        match self.get(place) {
            None => false,
            Some(end) => end.port.node == node && end.app.is(app),
        }
    }

    /// Where the oldest end of an application at a node stands in a list of places, which has the oldest first. None
    /// exactly where no end of these places is one. Takes no memory.
    pub fn oldest(&self, waiting: &[usize], node: Node, app: &AppName) -> Option<usize>
        ensures at { result ≡ oldest_in self.now waiting.now node app.now }
        ensures within { IfSome result (λ i. i < length waiting.now) }
    {
        waiting
            .iter()
            .position(|place| self.is_of(*place, node, app))
    }

    /// All ends, in the order in which they were made.
    pub fn as_slice(&self) -> &[End]
        ensures { result.now ≡ self.now }
    {
        self.items.as_slice()
    }

    /// The end at a place, counted from 0. None where the place is out of range.
    pub fn get(&self, place: usize) -> Option<&End>
        ensures { MatchOption result (length self.now ≤ place) (λ e. slice_get self.now place ≡ Some e.now) }
    {
        self.items.get(place)
    }

    /// The place of a port's end.
    pub fn place(&self, port: Port) -> Option<usize>
        ensures at { result ≡ place_in port self.now }
        ensures within { IfSome result (λ i. i < length self.now) }
        ensures bound { IfSome result (λ i. i < 2 ^ 63) }
    {
        place_of(&self.places, port)
    }

    /// The end of a port.
    pub fn find(&self, port: Port) -> Option<&End>
        ensures { MatchOption result (end_in port self.now ≡ None) (λ e. end_in port self.now ≡ Some e.now) }
    {
        let place = self.place(port)?;
        self.items.get(place)
    }

    /// Adds an end.
    pub fn push(&mut self, end: End) -> Result<(), AllocError>
        ensures ok { OnOk result (self.new ≡ self.old ++ end ∷ []) }
        ensures err { OnErr result (self.new ≡ self.old) }
    {
        add(&mut self.items, &mut self.places, end)
    }

    /// Adds both ends of a flow.
    pub fn push_both(&mut self, asker: End, far: End) -> Result<(), AllocError>
        ensures ok { OnOk result (self.new ≡ self.old ++ asker ∷ far ∷ []) }
        ensures err { OnErr result (self.new ≡ self.old) }
    {
        add(&mut self.items, &mut self.places, asker)?;
        if add(&mut self.items, &mut self.places, far).is_err() {
            take_back(&mut self.items, &mut self.places);
            return Err(AllocError);
        }
        Ok(())
    }

    /// Notes what the end at this place sent.
    pub fn note_sent(&mut self, place: usize, entry: Entry) -> Result<(), AllocError>
        requires { place < length self.old }
        ensures ok { OnOk result ((e : End) → slice_get self.old place ≡ Some e → self.new ≡ slice_set self.old place (with_sent e entry)) }
        ensures err { OnErr result (self.new ≡ self.old) }
    {
        let end = &mut self.items[place];
        end.sent.push(entry)?;
        Ok(())
    }

    /// Notes what was delivered to the end at this place.
    pub fn note_got(&mut self, place: usize, entry: Entry) -> Result<(), AllocError>
        requires { place < length self.old }
        ensures ok { OnOk result ((e : End) → slice_get self.old place ≡ Some e → self.new ≡ slice_set self.old place (with_got e entry)) }
        ensures err { OnErr result (self.new ≡ self.old) }
    {
        let end = &mut self.items[place];
        end.got.push(entry)?;
        Ok(())
    }

    /// Takes out what the end at this place sent, until `put_sent` puts it back. Takes no memory.
    pub fn take_sent(&mut self, alloc: Global, place: usize) -> Vec<Entry>
        requires { place < length self.old }
        ensures sent { (e : End) → slice_get self.old place ≡ Some e → result.items ≡ e.sent }
        ensures rest { (e : End) → slice_get self.old place ≡ Some e → self.new ≡ slice_set self.old place (record e { sent = [] }) }
    {
        let end = &mut self.items[place];
        std::mem::replace(&mut end.sent, Entries::new(alloc)).into_vec()
    }

    /// Lets these be what the end at this place sent.
    pub fn put_sent(&mut self, place: usize, sent: Vec<Entry>)
        requires { place < length self.old }
        ensures { (e : End) → slice_get self.old place ≡ Some e → self.new ≡ slice_set self.old place (record e { sent = sent.items }) }
    {
        let end = &mut self.items[place];
        end.sent = Entries::from_vec(sent);
    }

    /// Takes out what was delivered to the end at this place, until `put_got` puts it back. Takes no memory.
    pub fn take_got(&mut self, alloc: Global, place: usize) -> Vec<Entry>
        requires { place < length self.old }
        ensures got { (e : End) → slice_get self.old place ≡ Some e → result.items ≡ e.got }
        ensures rest { (e : End) → slice_get self.old place ≡ Some e → self.new ≡ slice_set self.old place (record e { got = [] }) }
    {
        let end = &mut self.items[place];
        std::mem::replace(&mut end.got, Entries::new(alloc)).into_vec()
    }

    /// Lets these be what was delivered to the end at this place.
    pub fn put_got(&mut self, place: usize, got: Vec<Entry>)
        requires { place < length self.old }
        ensures { (e : End) → slice_get self.old place ≡ Some e → self.new ≡ slice_set self.old place (record e { got = got.items }) }
    {
        let end = &mut self.items[place];
        end.got = Entries::from_vec(got);
    }

    /// Marks the oldest entry of the end at this place as passed.
    pub fn pass(&mut self, place: usize)
        requires within { place < length self.old }
        requires waits { (e : End) → slice_get self.old place ≡ Some e → e.taken < length e.got }
        ensures { (e : End) → slice_get self.old place ≡ Some e → self.new ≡ slice_set self.old place (with_passed e) }
    {
        let end = &mut self.items[place];
        if end.taken < end.got.len() as u64 {
            end.taken += 1;
        }
    }

    /// Sets the state of the end at this place.
    pub fn set_state(&mut self, place: usize, state: PortState)
        requires { place < length self.old }
        ensures { (e : End) → slice_get self.old place ≡ Some e → self.new ≡ slice_set self.old place (with_state e state) }
    {
        set_state(&mut self.items, place, state);
    }

    /// Lets each end that is allocated fail by a cut at this tick.
    pub fn cut(&mut self, tick: Tick)
        ensures { self.new ≡ map (cut_off tick) self.old }
    {
        cut_all(&mut self.items, tick);
    }
}

/// Lets each end that is allocated fail by a cut.
fn cut_all(ends: &mut Vec<End>, tick: Tick)
    ensures { ends.new.items ≡ map (cut_off tick) ends.old.items }
{
    for place in 0..ends.len() {
        let state = cut_state(ends[place].state, tick);
        set_state(ends, place, state);
    }
}

/// Sets the state of the end at a place.
fn set_state(ends: &mut Vec<End>, place: usize, state: PortState)
    requires { place < length ends.old.items }
    ensures { (e : End) → slice_get ends.old.items place ≡ Some e → ends.new.items ≡ slice_set ends.old.items place (with_state e state) }
{
    let end = &mut ends[place];
    end.state = state;
}

/// The state of a port whose wire is cut at a tick.
fn cut_state(state: PortState, at: Tick) -> PortState
    ensures { result ≡ cut_state at state }
{
    match state {
        PortState::Allocated => PortState::Failed(Fail::Cut { at }),
        state => state,
    }
}
