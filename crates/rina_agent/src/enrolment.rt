//! One end of an enrolment: its session and its machine.
ghost use Rattle.std.specs.Prelude.{◌≡◌, [], None, Some, MatchBool, MatchOption, IfOk, OnOk};
ghost use Rattle.std.specs.Result.{result_ok};
ghost use Rattle.rina_session.specs.declared.session.State.TheVariants.{Idle};
ghost use Rattle.rina_session.specs.Sessions.{got, sent};
ghost use Rattle.rina_enrol.specs.Machines.{new_joiner, new_member};
ghost use Rattle.rina_agent.specs.Enrolments.{heard, spoken, all_spoken, exchanged, answer_of, end_after, stepped};
ghost use Rattle.rina_agent.specs.declared.enrolment.End.TheVariants.{Joins, Joined};

use rina_base::{Memory, Name};
use rina_cdap::Message;
use rina_enrol::{EnrolDo, EnrolEvent, Joiner, LinkMessage, Member};
use rina_session::{Session, SessionError};
use std::alloc::Global;

/// Which end of an enrolment this is.
#[derive(Drop)]
pub enum End {
    /// It joins, at the member on the node of this name.
    Joins { joiner: Joiner, node: Name },
    /// The other end joins here.
    Joined { member: Member },
}

/// One end of the enrolment that made a link.
#[derive(Drop)]
pub struct Enrolment {
    /// What the session of this enrolment lets through, from CONNECT to STOP_R.
    pub session: Session,
    pub end: End,
}

impl End {
    /// A copy.
    fn copy(&self, alloc: Global) -> Result<End, Memory>
        ensures { IfOk result (λ e. e ≡ self.now) }
    {
        match self {
            End::Joins { joiner, node } => {
                let node = node.copy(alloc)?;
                Ok(End::Joins {
                    joiner: *joiner,
                    node,
                })
            }
            End::Joined { member } => Ok(End::Joined { member: *member }),
        }
    }

    /// Handles an event, and tells what the machine of this end answers.
    fn step(&mut self, alloc: Global, event: EnrolEvent) -> Result<EnrolDo, Memory>
        ensures does { IfOk result (λ d. d ≡ answer_of self.old event) }
        ensures after { OnOk result (self.new ≡ end_after self.old event) }
    {
        match self {
            End::Joins { joiner, .. } => joiner.step(alloc, event),
            End::Joined { member } => member.step(alloc, event),
        }
    }
}

/// Lets a session get a message of CDAP; false where it is refused.
fn get(session: &mut Session, m: &Message) -> Result<bool, Memory>
    ensures { IfOk result (λ b. MatchBool b (result_ok (got session.old m.now) ≡ Some session.new) (result_ok (got session.old m.now) ≡ None)) }
{
    match session.on_got(m) {
        Ok(()) => Ok(true),
        Err(SessionError::Memory) => Err(Memory),
        Err(SessionError::WrongState { .. } | SessionError::UnknownInvoke { .. }) => Ok(false),
    }
}

/// Lets a session send a message of CDAP; false where it is refused.
fn send(session: &mut Session, alloc: Global, m: &Message) -> Result<bool, Memory>
    ensures { IfOk result (λ b. MatchBool b (result_ok (sent session.old m.now) ≡ Some session.new) (result_ok (sent session.old m.now) ≡ None)) }
{
    match session.on_sent(alloc, m) {
        Ok(()) => Ok(true),
        Err(SessionError::Memory) => Err(Memory),
        Err(SessionError::WrongState { .. } | SessionError::UnknownInvoke { .. }) => Ok(false),
    }
}

/// Lets a session get a message; false where it is refused.
fn hear(session: &mut Session, alloc: Global, m: &LinkMessage) -> Result<bool, Memory>
    ensures { IfOk result (λ b. MatchBool b (heard session.old m.now ≡ Some session.new) (heard session.old m.now ≡ None)) }
{
    let m = m.message(alloc)?;
    get(session, &m)
}

/// Lets a session send a message; false where it is refused.
fn speak(session: &mut Session, alloc: Global, m: &LinkMessage) -> Result<bool, Memory>
    ensures { IfOk result (λ b. MatchBool b (spoken session.old m.now ≡ Some session.new) (spoken session.old m.now ≡ None)) }
{
    let m = m.message(alloc)?;
    send(session, alloc, &m)
}

/// Lets a session send messages, one after the other; false where one is refused.
pub(crate) fn speak_all(
    session: &mut Session,
    alloc: Global,
    messages: &[LinkMessage],
) -> Result<bool, Memory>
    ensures { IfOk result (λ b. MatchBool b (all_spoken session.old messages.now ≡ Some session.new) (all_spoken session.old messages.now ≡ None)) }
{
    match messages {
        [] => Ok(true),
        [m, others @ ..] => {
            if !speak(session, alloc, m)? {
                return Ok(false);
            }
            speak_all(session, alloc, others)
        }
    }
}

/// Lets a session get a message and send the replies to it; false where one of them is refused.
fn exchange(
    session: &mut Session,
    alloc: Global,
    m: &LinkMessage,
    replies: &[LinkMessage],
) -> Result<bool, Memory>
    ensures { IfOk result (λ b. MatchBool b (exchanged session.old m.now replies.now ≡ Some session.new) (exchanged session.old m.now replies.now ≡ None)) }
{
    if !hear(session, alloc, m)? {
        return Ok(false);
    }
    speak_all(session, alloc, replies)
}

impl Enrolment {
    /// The end that joins, whose session sent CONNECT.
    pub(crate) fn joins(session: Session, node: Name) -> Enrolment
        ensures { result ≡ record { session = session; end = Joins new_joiner node } }
    {
        Enrolment {
            session,
            end: End::Joins {
                joiner: Joiner::new(),
                node,
            },
        }
    }

    /// The end that is joined, which waits for CONNECT.
    pub(crate) fn joined(alloc: Global) -> Enrolment
        ensures { result ≡ record { session = record { state = Idle; waiting = [] }; end = Joined new_member } }
    {
        Enrolment {
            session: Session::new(alloc),
            end: End::Joined {
                member: Member::new(),
            },
        }
    }

    /// Handles a message with the replies to it, and tells what the machine of this end answers. None where the session
    /// refuses the message or a reply.
    pub(crate) fn hear(
        &mut self,
        alloc: Global,
        m: &LinkMessage,
        replies: &[LinkMessage],
        event: EnrolEvent,
    ) -> Result<Option<EnrolDo>, Memory>
        ensures { IfOk result (λ d. MatchOption d (exchanged self.old.session m.now replies.now ≡ None) (λ does. (exchanged self.old.session m.now replies.now ≡ Some self.new.session) × ((self.new ≡ stepped self.old event self.new.session) × (does ≡ answer_of self.old.end event)))) }
    {
        if !exchange(&mut self.session, alloc, m, replies)? {
            return Ok(None);
        }
        let does = self.end.step(alloc, event)?;
        Ok(Some(does))
    }

    /// A copy.
    pub(crate) fn copy(&self, alloc: Global) -> Result<Enrolment, Memory>
        ensures { IfOk result (λ e. e ≡ self.now) }
    {
        let end = self.end.copy(alloc)?;
        let session = self.session.copy()?;
        Ok(Enrolment { session, end })
    }
}
