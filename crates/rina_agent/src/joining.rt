//! New links: those on which a member joins, and those on which it is joined.
ghost use Rattle.std.specs.Prelude.{◌≡◌, ◌<◌, ◌∷◌, ◌++◌, [], Some, IfOk, OnOk, OnErr};
ghost use Rattle.rina_session.specs.declared.session.State.TheVariants.{Calling};
ghost use Rattle.rina_enrol.specs.declared.message.LinkMessage.TheVariants.{Connect};
ghost use Rattle.rina_agent.specs.Agenda.{near};
ghost use Rattle.rina_agent.specs.Enrolments.{spoken};
ghost use Rattle.rina_agent.specs.Counts.{spent, unless};
ghost use Rattle.rina_agent.specs.Rows.{Does, joining, joining_link, joining_state, joined_link};

use crate::agent::Agent;
use crate::enrolment::{Enrolment, speak_all};
use crate::flood::push_near;
use crate::link::Link;
use crate::message::Waiting;
use crate::state::{AgentError, MemberState, check};
use rina_base::{AppName, Memory, Name};
use rina_enrol::LinkMessage;
use rina_session::Session;
use std::alloc::Global;

/// CONNECT of a joiner to a member.
fn connect(
    alloc: Global,
    invoke: u32,
    joiner: &AppName,
    member: &AppName,
) -> Result<LinkMessage, Memory>
    ensures { IfOk result (λ m. m ≡ Connect invoke joiner.now member.now) }
{
    let joiner = joiner.copy(alloc)?;
    let member = member.copy(alloc)?;
    Ok(LinkMessage::Connect {
        invoke,
        joiner,
        member,
    })
}

/// Lets a session send CONNECT.
fn call(
    session: &mut Session,
    alloc: Global,
    invoke: u32,
    joiner: &AppName,
    member: &AppName,
) -> Result<(), Memory>
    ensures { OnOk result (spoken session.old (Connect invoke joiner.now member.now) ≡ Some session.new) }
{
    let connect = [connect(alloc, invoke, joiner, member)?];
    if !speak_all(session, alloc, &connect)? {
        return Err(Memory);
    }
    Ok(())
}

/// A session that sent CONNECT.
#[tactic(auto, unfolding(rina_session::specs::Sessions::sent, rina_session::specs::Sessions::may_send, rina_session::specs::Sessions::state_after, rina_session::specs::Sessions::sent_waiting, rina_cdap::specs::Messages::is_response, rina_enrol::specs::Messages::message_of))]
fn calling(
    alloc: Global,
    invoke: u32,
    joiner: &AppName,
    member: &AppName,
) -> Result<Session, Memory>
    requires { 0 < invoke }
    ensures { IfOk result (λ s. s ≡ record { state = Calling; waiting = invoke ∷ [] }) }
{
    let mut session = Session::new(alloc);
    call(&mut session, alloc, invoke, joiner, member)?;
    Ok(session)
}

/// What waits for a new link on which a member joins: CONNECT.
fn connect_batch(
    alloc: Global,
    link: u16,
    invoke: u32,
    joiner: &AppName,
    member: &AppName,
) -> Result<Vec<Waiting>, Memory>
    ensures { IfOk result (λ v. v.items ≡ near link (Connect invoke joiner.now member.now) ∷ []) }
{
    let mut batch = Vec::new(alloc);
    push_near(&mut batch, link, connect(alloc, invoke, joiner, member)?)?;
    Ok(batch)
}

/// The state of a member that begins to join on a link.
fn joining_state(state: MemberState, link: u16) -> MemberState
    ensures { result ≡ joining_state link state }
{
    match state {
        MemberState::Enrolled => MemberState::Enrolled,
        _ => MemberState::Joining { link },
    }
}

/// A new link on which a member joins at the one on a node.
fn joining_link(
    alloc: Global,
    link: u16,
    invoke: u32,
    joiner: &AppName,
    member: &AppName,
    node: &Name,
) -> Result<Link, Memory>
    requires { 0 < invoke }
    ensures { IfOk result (λ l. l ≡ joining_link link invoke node.now) }
{
    let node = node.copy(alloc)?;
    let session = calling(alloc, invoke, joiner, member)?;
    Ok(Link {
        number: link,
        peer: None,
        weight: 1,
        up: false,
        enrolment: Some(Enrolment::joins(session, node)),
    })
}

impl Agent {
    /// Begins to join on a new link, at the member of a name, which is on a node: CONNECT waits there. Refused with
    /// `CountSpent` where it has sent 4,294,967,295 requests. No live link may have the number.
    pub fn enrol(
        &mut self,
        alloc: Global,
        link: u16,
        member: &AppName,
        node: &Name,
    ) -> Result<(), AgentError>
        ensures { Does result self.old self.new (unless (spent 1 self.old.last_invoke) (joining self.old link member.now node.now)) }
    {
        check(1, self.last_invoke)?;
        let invoke = self.last_invoke.saturating_add(1);
        self.begin(alloc, link, invoke, member, node)?;
        Ok(())
    }

    /// Lets CONNECT wait for a new link on which this member joins. Without memory nothing changes.
    fn begin(
        &mut self,
        alloc: Global,
        link: u16,
        invoke: u32,
        member: &AppName,
        node: &Name,
    ) -> Result<(), Memory>
        requires { 0 < invoke }
        ensures ok { OnOk result (self.new ≡ record self.old { state = joining_state link self.old.state; last_invoke = invoke; links = self.old.links ++ joining_link link invoke node.now ∷ []; agenda = self.old.agenda ++ near link (Connect invoke self.old.name member.now) ∷ [] }) }
        ensures err { OnErr result (self.new ≡ self.old) }
    {
        let added = connect_batch(alloc, link, invoke, &self.name, member)?;
        let before = self.agenda.len();
        self.agenda.append(added)?;
        if self.join(alloc, link, invoke, member, node).is_err() {
            self.agenda.cut(before);
            return Err(Memory);
        }
        Ok(())
    }

    /// Adds a new link on which this member joins. Without memory nothing changes.
    fn join(
        &mut self,
        alloc: Global,
        link: u16,
        invoke: u32,
        member: &AppName,
        node: &Name,
    ) -> Result<(), Memory>
        requires { 0 < invoke }
        ensures ok { OnOk result (self.new ≡ record self.old { state = joining_state link self.old.state; last_invoke = invoke; links = self.old.links ++ joining_link link invoke node.now ∷ [] }) }
        ensures err { OnErr result (self.new ≡ self.old) }
    {
        let made = joining_link(alloc, link, invoke, &self.name, member, node)?;
        self.links.push(made)?;
        self.last_invoke = invoke;
        self.state = joining_state(self.state, link);
        Ok(())
    }

    /// Adds a new link on which another may join: it waits for CONNECT. No live link may have the number. Without memory
    /// nothing changes.
    pub fn claim(&mut self, alloc: Global, link: u16) -> Result<(), Memory>
        ensures ok { OnOk result (self.new ≡ record self.old { links = self.old.links ++ joined_link link ∷ [] }) }
        ensures err { OnErr result (self.new ≡ self.old) }
    {
        self.links.push(Link {
            number: link,
            peer: None,
            weight: 1,
            up: false,
            enrolment: Some(Enrolment::joined(alloc)),
        })?;
        Ok(())
    }
}
