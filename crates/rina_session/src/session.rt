//! A session.
ghost use Rattle.std.specs.Prelude.{◌≡◌, [], OnOk, OnErr, nat_eq};
ghost use Rattle.std.specs.List.{list_any};
ghost use Rattle.rina_session.specs.declared.session.State.TheVariants.{Idle};
ghost use Rattle.rina_session.specs.Sessions.{may_send, may_get, state_after, sent_waiting, got_waiting, is_unknown};

use indexmap::IndexSet;
use rina_cdap::{Message, operation};
use std::alloc::{AllocError, AllocFailed, Global};
use std::marker::Model;

/// How far two are connected.
#[derive(Clone, Copy, Debug, PartialEq, Eq)]
pub enum State {
    /// No connection was asked for, or the last one is over.
    Idle,
    /// Connect was sent, and its response was not got.
    Calling,
    /// Connect was got, and its response was not sent.
    Called,
    Connected,
}

/// Why a message may not be sent or got. They are tried in this order.
#[derive(Clone, Copy, Debug, PartialEq, Eq)]
pub enum SessionError {
    /// An allocation failed.
    Memory,
    /// No such message may come in this state.
    WrongState { state: State },
    /// A response was got to a request that does not wait.
    UnknownInvoke { id: u32 },
}

/// One end of a connection. A contract sees its state, and the ids of the requests that wait for their responses,
/// the oldest first. A request waits from when it was sent, where its id is not 0, until its response is got.
#[derive(Drop)]
pub struct Session {
    state: State,
    waiting: IndexSet<u32>,
}

impl Model for Session {
    ghost use Rattle.rina_session.specs.Sessions.{Talk};

    ghost Value = { Talk };

    ghost view = { λ s. record { state = s.state; waiting = s.waiting.keys } };
}

/// Whether a message may be sent in a state.
#[tactic(auto, unfolding(crate::specs::Sessions::may_send))]
fn is_sendable(state: State, op: u8) -> bool
    ensures { result ≡ may_send state op }
{
    if op == operation::CONNECT {
        matches!(state, State::Idle)
    } else if op == operation::CONNECT + 1 {
        matches!(state, State::Called)
    } else {
        matches!(state, State::Connected)
    }
}

/// Whether a message may be got in a state.
#[tactic(auto, unfolding(crate::specs::Sessions::may_get))]
fn is_gettable(state: State, op: u8) -> bool
    ensures { result ≡ may_get state op }
{
    if op == operation::CONNECT {
        matches!(state, State::Idle)
    } else if op == operation::CONNECT + 1 {
        matches!(state, State::Calling)
    } else {
        matches!(state, State::Connected)
    }
}

/// The state after a message, where connect leads to `calls`.
#[tactic(auto, unfolding(crate::specs::Sessions::state_after))]
fn next_state(calls: State, state: State, op: u8, outcome: Option<u8>) -> State
    ensures { result ≡ state_after calls state op outcome }
{
    if op == operation::CONNECT {
        calls
    } else if op == operation::CONNECT + 1 {
        match outcome {
            Some(0) => State::Connected,
            _ => State::Idle,
        }
    } else if op == operation::RELEASE {
        State::Idle
    } else {
        state
    }
}

/// Lets the request of a sent message wait, where it wants a response.
#[tactic(auto, unfolding(crate::specs::Sessions::sent_waiting))]
fn wait(waiting: &mut IndexSet<u32>, m: &Message) -> Result<(), AllocFailed<u32>>
    ensures ok { OnOk result (waiting.new.keys ≡ sent_waiting waiting.old.keys m.now.operation m.now.invoke) }
    ensures err { OnErr result (waiting.new.keys ≡ waiting.old.keys) }
{
    if m.is_response() || m.invoke == 0 {
        return Ok(());
    }
    let _ = waiting.insert(m.invoke)?;
    Ok(())
}

/// Ends the wait of the request whose response was got.
#[tactic(auto, unfolding(crate::specs::Sessions::got_waiting))]
fn end_wait(waiting: &mut IndexSet<u32>, m: &Message)
    ensures { waiting.new.keys ≡ got_waiting waiting.old.keys m.now.operation m.now.invoke }
{
    if m.is_response() {
        let _ = waiting.shift_remove(&m.invoke);
    }
}

/// Whether a message is a response, other than connect's, whose request does not wait.
#[tactic(auto, unfolding(crate::specs::Sessions::is_unknown))]
fn has_no_request(waiting: &IndexSet<u32>, m: &Message) -> bool
    ensures { result ≡ is_unknown waiting.now.keys m.now.operation m.now.invoke }
{
    m.is_response() && m.operation != operation::CONNECT + 1 && !waiting.contains(&m.invoke)
}

impl Session {
    ghost use Rattle.std.specs.Prelude.{ℕ, IfErr, IfOk};
    ghost use Rattle.rina_session.specs.declared.session.SessionError.TheVariants.{Memory, UnknownInvoke};
    ghost use Rattle.rina_session.specs.Sessions.{sent, got, Steps};

    /// A session in state `Idle`.
    pub fn new(alloc: Global) -> Session
        ensures { result ≡ record { state = Idle; waiting = [] } }
    {
        Session {
            state: State::Idle,
            waiting: IndexSet::new(alloc),
        }
    }

    /// Records a message that is sent: connect in state `Idle`, its response in `Called`, any other in `Connected`. A
    /// release ends the connection at once. Fails with `WrongState` or `Memory`, and then changes nothing.
    #[tactic(auto, unfolding(crate::specs::Sessions::sent))]
    pub fn on_sent(&mut self, alloc: Global, m: &Message) -> Result<(), SessionError>
        ensures exact { Steps result self.old self.new (sent self.old m.now) }
        ensures known { IfErr result (λ e. (id : ℕ) → e ≡ UnknownInvoke id → ⊥) }
    {
        let _ = alloc;
        if !is_sendable(self.state, m.operation) {
            return Err(SessionError::WrongState { state: self.state });
        }
        if wait(&mut self.waiting, m).is_err() {
            return Err(SessionError::Memory);
        }
        self.state = next_state(State::Calling, self.state, m.operation, m.result);
        Ok(())
    }

    /// Records a message that was got: connect in state `Idle`, its response in `Calling`, any other in `Connected`. A
    /// release ends the connection at once. Fails with `WrongState` or `UnknownInvoke`, and then changes nothing. Takes
    /// no memory.
    #[tactic(auto, unfolding(crate::specs::Sessions::got))]
    pub fn on_got(&mut self, m: &Message) -> Result<(), SessionError>
        ensures exact { Steps result self.old self.new (got self.old m.now) }
        ensures sure { IfErr result (λ e. e ≡ Memory → ⊥) }
    {
        if !is_gettable(self.state, m.operation) {
            return Err(SessionError::WrongState { state: self.state });
        }
        if has_no_request(&self.waiting, m) {
            return Err(SessionError::UnknownInvoke { id: m.invoke });
        }
        end_wait(&mut self.waiting, m);
        self.state = next_state(State::Called, self.state, m.operation, m.result);
        Ok(())
    }

    /// A copy.
    pub fn copy(&self) -> Result<Session, AllocError>
        ensures { IfOk result (λ s. s ≡ self.now) }
    {
        let waiting = self.waiting.clone()?;
        Ok(Session {
            state: self.state,
            waiting,
        })
    }

    /// How far the two are connected.
    pub fn state(&self) -> State
        ensures { result ≡ self.now.state }
    {
        self.state
    }

    /// Whether the request of an id waits for its response.
    pub fn waits(&self, id: u32) -> bool
        ensures { result ≡ list_any (nat_eq id) self.now.waiting }
    {
        self.waiting.contains(&id)
    }
}
