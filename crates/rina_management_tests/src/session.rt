//! Which messages a session sends and gets.
use rina_cdap::{Message, operation};
use rina_session::{Session, SessionError, State};
use std::alloc::Global;

/// A message of an operation, with an invoke id and a result, where it has one.
fn message(operation: u8, invoke: u32, outcome: Option<u8>) -> Message {
    let mut m = Message::new(operation, invoke);
    m.result = outcome;
    m
}

/// Why a request is not sent.
fn sent(
    alloc: Global,
    session: &mut Session,
    operation: u8,
    invoke: u32,
) -> Result<(), SessionError> {
    let m = message(operation, invoke, None);
    session.on_sent(alloc, &m)
}

/// Why a message with result 0 is not got.
fn got(session: &mut Session, operation: u8, invoke: u32) -> Result<(), SessionError> {
    let m = message(operation, invoke, Some(0));
    session.on_got(&m)
}

/// Whether a session is connected after connect was sent and its response was got.
fn connects(alloc: Global, session: &mut Session) -> bool {
    sent(alloc, session, operation::CONNECT, 1).is_ok()
        && got(session, operation::CONNECT + 1, 1).is_ok()
        && session.state() == State::Connected
}

/// Whether a request waits when a response of another one came.
fn request_waits(alloc: Global, session: &mut Session) -> bool {
    let unknown = Err(SessionError::UnknownInvoke { id: 8 });
    sent(alloc, session, operation::READ, 7).is_ok()
        && got(session, operation::READ + 1, 8) == unknown
        && session.waits(7)
        && !session.waits(1)
}

fn waits_in_a_copy(session: &Session) -> bool {
    match session.copy() {
        Ok(copy) => copy.waits(7),
        Err(_) => false,
    }
}

/// Whether a request waits until its response comes.
fn request_goes(alloc: Global, session: &mut Session) -> bool {
    connects(alloc, session)
        && request_waits(alloc, session)
        && waits_in_a_copy(session)
        && got(session, operation::READ + 1, 7).is_ok()
        && !session.waits(7)
}

/// Whether nothing but connect is got by a session that is idle, and no response by one that was called.
fn gets_connect_alone(session: &mut Session) -> bool {
    let idle = Err(SessionError::WrongState { state: State::Idle });
    let called = Err(SessionError::WrongState {
        state: State::Called,
    });
    got(session, operation::READ, 1) == idle
        && got(session, operation::CONNECT, 1).is_ok()
        && got(session, operation::CONNECT + 1, 1) == called
}

#[test]
fn a_request_waits_until_its_response(rt: HostRuntime) {
    let mut session = Session::new(rt.alloc());
    assert!(rt; request_goes(rt.alloc(), &mut session));
}

#[test]
fn nothing_is_got_outside_a_connection(rt: HostRuntime) {
    let mut session = Session::new(rt.alloc());
    assert!(rt; gets_connect_alone(&mut session));
}
