//! What a member does at each message of an enrolment.
ghost use Rattle.std.specs.Prelude.{◌≡◌, ◌<◌, ◌∷◌, ◌++◌, [], Some, None, length, slice_set, MatchResult, IfOk, IfSome, OnOk, OnErr};
ghost use Rattle.rina_enrol.specs.declared.event.EnrolEvent.TheVariants as events;
ghost use Rattle.rina_enrol.specs.declared.message.LinkMessage.TheVariants as messages;
ghost use Rattle.rina_agent.specs.Counts.{next_of, spent};
ghost use Rattle.rina_agent.specs.Enrolments.{hears};
ghost use Rattle.rina_agent.specs.Items.{stated};
ghost use Rattle.rina_agent.specs.Rows.{Does, DoesOrKeeps, denial_by, denial, replied, connected, connected_as, allowed, allowed_as, denied_state, denied, either, raised, start_batch, started, started_as, asked_in, introduced, need_in, end_peer, peer_by, stop_batch, entered, stopped, stopped_as, noted_by};

use crate::agent::Agent;
use crate::enrolment::End;
use crate::flood::{push_items, push_near};
use crate::link::{Heard, hear, hear_and_reply, swap_in};
use crate::message::{ManagementMessage, Waiting};
use crate::peer::address_at;
use crate::state::{AgentError, MemberState, check};
use rina_access::{Act, Decision};
use rina_base::{Addr, AppName, Memory, Tick};
use rina_enrol::{EnrolDo, EnrolEvent, LinkMessage};
use rina_newest::Newest;
use std::alloc::Global;

/// The rule that denies to a joiner at a member that is not enrolled itself; no rule has this number.
const NOT_ENROLLED: u32 = 257;

/// The rule by which a decision denies.
fn denial_by(decision: Decision) -> Option<u32>
    ensures { result ≡ denial_by decision }
{
    if decision.allow {
        None
    } else {
        Some(decision.rule)
    }
}

/// The state of a member that was denied on a link.
fn denied_state(state: MemberState, link: u16, rule: u32) -> MemberState
    ensures { result ≡ denied_state link rule state }
{
    match state {
        MemberState::Joining { link: number } if number == link => MemberState::Denied { rule },
        state => state,
    }
}

/// How many items of its own a joiner makes in the step in which it handles STOP.
fn need_in(state: MemberState) -> u32
    ensures { result ≡ need_in state }
{
    match state {
        MemberState::Enrolled => 1,
        _ => 2,
    }
}

/// Adds START_R, each kept item, and STOP.
fn push_start(
    alloc: Global,
    batch: &mut Vec<Waiting>,
    link: u16,
    invoke: u32,
    items: &Newest,
    stop: u32,
) -> Result<(), Memory>
    ensures { OnOk result (batch.new.items ≡ batch.old.items ++ start_batch link invoke items.now stop) }
{
    push_near(batch, link, LinkMessage::StartR { invoke })?;
    push_items(alloc, batch, link, items)?;
    push_near(batch, link, LinkMessage::Stop { invoke: stop })
}

/// START_R, each kept item, and STOP.
fn start_batch(
    alloc: Global,
    link: u16,
    invoke: u32,
    items: &Newest,
    stop: u32,
) -> Result<Vec<Waiting>, Memory>
    ensures { IfOk result (λ v. v.items ≡ start_batch link invoke items.now stop) }
{
    let mut batch = Vec::new(alloc);
    push_start(alloc, &mut batch, link, invoke, items, stop)?;
    Ok(batch)
}

/// STOP_R and each kept item.
fn stop_batch(alloc: Global, link: u16, invoke: u32, items: &Newest) -> Result<Vec<Waiting>, Memory>
    ensures { IfOk result (λ v. v.items ≡ stop_batch link invoke items.now) }
{
    let mut batch = Vec::new(alloc);
    push_near(&mut batch, link, LinkMessage::StopR { invoke })?;
    push_items(alloc, &mut batch, link, items)?;
    Ok(batch)
}

/// The address of the member that was joined, by the name of its node.
fn end_peer(alloc: Global, end: &End, items: &Newest) -> Result<Option<Addr>, Memory>
    ensures { IfOk result (λ a. a ≡ end_peer end.now items.now) }
{
    match end {
        End::Joins { node, .. } => address_at(alloc, items, node.as_bytes()),
        End::Joined { .. } => Ok(None),
    }
}

/// The address of the member that was joined on a link that heard a message; None where no enrolment made the link.
fn peer_of(alloc: Global, heard: &Heard, items: &Newest) -> Result<Option<Addr>, Memory>
    ensures { IfOk result (λ a. a ≡ peer_by heard.now.link.enrolment items.now) }
{
    match &heard.link.enrolment {
        Some(enrolment) => end_peer(alloc, &enrolment.end, items),
        None => Ok(None),
    }
}

impl Agent {
    /// The rule that denies a joiner; 257 where this member is not enrolled itself.
    fn denial(&self, joiner: &AppName) -> Option<u32>
        ensures { result ≡ denial self.now joiner.now }
    {
        match self.state {
            MemberState::Enrolled => denial_by(self.rules.decide(joiner, Act::Enrol)),
            _ => Some(NOT_ENROLLED),
        }
    }

    /// Puts a message on the link that heard one. Without memory nothing changes.
    fn reply(&mut self, alloc: Global, heard: &mut Heard, m: LinkMessage) -> Result<(), Memory>
        requires { heard.old.at < length self.old.links }
        ensures ok { OnOk result (self.new ≡ replied self.old heard.old.at heard.old.link m) }
        ensures err { OnErr result (self.new ≡ self.old) }
    {
        self.agenda
            .put(heard.number(), ManagementMessage::ToNeighbour(m))?;
        swap_in(alloc, &mut self.links, heard);
        Ok(())
    }

    /// Handles CONNECT.
    pub(crate) fn on_connect(
        &mut self,
        alloc: Global,
        link: u16,
        m: &LinkMessage,
        invoke: u32,
        joiner: &AppName,
    ) -> Result<(), Memory>
        ensures ok { OnOk result (self.new ≡ connected self.old link m.now invoke joiner.now) }
        ensures err { OnErr result (self.new ≡ self.old) }
    {
        let denied = self.denial(joiner);
        let reply = LinkMessage::ConnectR { invoke, denied };
        let event = EnrolEvent::Connect { denied };
        match hear_and_reply(alloc, self.links.as_slice(), link, m, reply, event)? {
            Some(mut heard) => self.connect(alloc, &mut heard, invoke, denied),
            None => Ok(()),
        }
    }

    /// Puts CONNECT_R on the link that heard CONNECT, where its enrolment answers so. Without memory nothing changes.
    fn connect(
        &mut self,
        alloc: Global,
        heard: &mut Heard,
        invoke: u32,
        denied: Option<u32>,
    ) -> Result<(), Memory>
        requires { heard.old.at < length self.old.links }
        ensures ok { OnOk result (self.new ≡ connected_as heard.old.does self.old heard.old (messages.ConnectR invoke denied)) }
        ensures err { OnErr result (self.new ≡ self.old) }
    {
        match heard.answer() {
            EnrolDo::ConnectR { .. } => {
                self.reply(alloc, heard, LinkMessage::ConnectR { invoke, denied })
            }
            _ => Ok(()),
        }
    }

    /// Handles CONNECT_R of result 0.
    pub(crate) fn on_allowed(
        &mut self,
        alloc: Global,
        link: u16,
        m: &LinkMessage,
    ) -> Result<(), AgentError>
        ensures { Does result self.old self.new (allowed self.old link m.now) }
    {
        let invoke = self.last_invoke.saturating_add(1);
        let address = self.address;
        let start = LinkMessage::Start { invoke, address };
        let event = EnrolEvent::ConnectR { denied: None };
        match hear_and_reply(alloc, self.links.as_slice(), link, m, start, event)? {
            Some(mut heard) => self.allow(alloc, &mut heard, invoke),
            None => Ok(()),
        }
    }

    /// Puts START on the link that heard that this member may join, where its enrolment answers so.
    fn allow(&mut self, alloc: Global, heard: &mut Heard, invoke: u32) -> Result<(), AgentError>
        requires at { heard.old.at < length self.old.links }
        requires invoke { invoke ≡ next_of self.old.last_invoke }
        ensures { Does result self.old self.new (allowed_as heard.old.does self.old heard.old (messages.Start invoke self.old.address)) }
    {
        match heard.answer() {
            EnrolDo::Start => {
                check(1, self.last_invoke)?;
                self.ask(alloc, heard, invoke)?;
                Ok(())
            }
            _ => Ok(()),
        }
    }

    /// Puts START on the link that heard that this member may join. Without memory nothing changes.
    fn ask(&mut self, alloc: Global, heard: &mut Heard, invoke: u32) -> Result<(), Memory>
        requires { heard.old.at < length self.old.links }
        ensures ok { OnOk result (self.new ≡ replied (record self.old { last_invoke = invoke }) heard.old.at heard.old.link (messages.Start invoke self.old.address)) }
        ensures err { OnErr result (self.new ≡ self.old) }
    {
        let address = self.address;
        self.reply(alloc, heard, LinkMessage::Start { invoke, address })?;
        self.last_invoke = invoke;
        Ok(())
    }

    /// Puts the link that heard a message in its place.
    fn note(&mut self, heard: Heard)
        requires { heard.at < length self.old.links }
        ensures { self.new ≡ noted_by self.old (Some heard) }
    {
        self.links.set(heard.at, heard.link);
    }

    /// Handles CONNECT_R of result 1.
    pub(crate) fn on_denied(
        &mut self,
        alloc: Global,
        link: u16,
        m: &LinkMessage,
        rule: u32,
    ) -> Result<(), Memory>
        ensures ok { OnOk result (self.new ≡ denied self.old link m.now rule) }
        ensures err { OnErr result (self.new ≡ self.old) }
    {
        let event = EnrolEvent::ConnectR { denied: Some(rule) };
        match hear(alloc, self.links.as_slice(), link, m, &[], event)? {
            Some(heard) => {
                self.note(heard);
                self.state = denied_state(self.state, link, rule);
                Ok(())
            }
            None => Ok(()),
        }
    }

    /// Handles START_R or STOP_R.
    pub(crate) fn on_end(
        &mut self,
        alloc: Global,
        link: u16,
        m: &LinkMessage,
        event: EnrolEvent,
    ) -> Result<(), Memory>
        ensures ok { OnOk result (self.new ≡ noted_by self.old (hears self.old.links link m.now [] event)) }
        ensures err { OnErr result (self.new ≡ self.old) }
    {
        match hear(alloc, self.links.as_slice(), link, m, &[], event)? {
            Some(heard) => {
                self.note(heard);
                Ok(())
            }
            None => Ok(()),
        }
    }

    /// Puts the link that heard a message in its place, and makes the link state. Without memory nothing changes.
    fn relink(&mut self, alloc: Global, now: Tick, heard: &mut Heard) -> Result<(), Memory>
        requires { heard.old.at < length self.old.links }
        ensures ok { OnOk result (self.new ≡ stated None (record self.old { links = slice_set self.old.links heard.old.at heard.old.link }) now) }
        ensures err { OnErr result (self.new ≡ self.old) }
    {
        swap_in(alloc, &mut self.links, heard);
        if self.make_link_state(alloc, now, None).is_err() {
            swap_in(alloc, &mut self.links, heard);
            return Err(Memory);
        }
        Ok(())
    }

    /// Puts messages on the link that heard one, which is up from then on, and makes the link state. Without memory nothing
    /// changes.
    fn raise(
        &mut self,
        alloc: Global,
        now: Tick,
        heard: &mut Heard,
        batch: Vec<Waiting>,
    ) -> Result<(), Memory>
        requires { heard.old.at < length self.old.links }
        ensures ok { OnOk result (self.new ≡ raised self.old now heard.old.at heard.old.link batch.items) }
        ensures err { OnErr result (self.new ≡ self.old) }
    {
        let before = self.agenda.len();
        self.agenda.append(batch)?;
        if self.relink(alloc, now, heard).is_err() {
            self.agenda.cut(before);
            return Err(Memory);
        }
        Ok(())
    }

    /// Puts START_R, the items and STOP on a link, which is up from then on. Without memory nothing changes.
    fn start(
        &mut self,
        alloc: Global,
        now: Tick,
        heard: &mut Heard,
        invoke: u32,
        address: Addr,
    ) -> Result<(), Memory>
        requires { heard.old.at < length self.old.links }
        ensures ok { OnOk result (self.new ≡ started self.old now heard.old invoke address) }
        ensures err { OnErr result (self.new ≡ self.old) }
    {
        let stop = self.last_invoke.saturating_add(1);
        let batch = start_batch(alloc, heard.number(), invoke, &self.items, stop)?;
        heard.raise(Some(address));
        self.raise(alloc, now, heard, batch)?;
        self.last_invoke = stop;
        Ok(())
    }

    /// What a link hears by START, with START_R and STOP as the replies.
    fn hear_start(
        &self,
        alloc: Global,
        link: u16,
        m: &LinkMessage,
        invoke: u32,
    ) -> Result<Option<Heard>, Memory>
        ensures heard { IfOk result (λ h. h ≡ hears self.now.links link m.now (messages.StartR invoke ∷ messages.Stop (next_of self.now.last_invoke) ∷ []) events.Start) }
        ensures within { IfOk result (λ h. IfSome h (λ x. x.at < length self.now.links)) }
    {
        let stop = self.last_invoke.saturating_add(1);
        let replies = [
            LinkMessage::StartR { invoke },
            LinkMessage::Stop { invoke: stop },
        ];
        let event = EnrolEvent::Start;
        hear(alloc, self.links.as_slice(), link, m, &replies, event)
    }

    /// Handles START.
    pub(crate) fn on_start(
        &mut self,
        alloc: Global,
        now: Tick,
        link: u16,
        m: &LinkMessage,
        invoke: u32,
        address: Addr,
    ) -> Result<(), AgentError>
        ensures { Does result self.old self.new (asked_in self.old now link m.now invoke address) }
    {
        match self.hear_start(alloc, link, m, invoke)? {
            Some(mut heard) => self.let_in(alloc, now, &mut heard, invoke, address),
            None => Ok(()),
        }
    }

    /// Whether a version count and an invoke id are left.
    fn may_let_in(&self) -> Result<(), AgentError>
        ensures { MatchResult result (λ _. either (spent 1 self.now.last_count) (spent 1 self.now.last_invoke) ≡ None) (λ e. either (spent 1 self.now.last_count) (spent 1 self.now.last_invoke) ≡ Some e) }
    {
        check(1, self.last_count)?;
        check(1, self.last_invoke)
    }

    /// Puts START_R, the items and STOP on the link that heard START, where its enrolment answers so; the link is up from then
    /// on.
    fn let_in(
        &mut self,
        alloc: Global,
        now: Tick,
        heard: &mut Heard,
        invoke: u32,
        address: Addr,
    ) -> Result<(), AgentError>
        requires { heard.old.at < length self.old.links }
        ensures { Does result self.old self.new (started_as heard.old.does self.old now heard.old invoke address) }
    {
        match heard.answer() {
            EnrolDo::StartR => {
                self.may_let_in()?;
                self.start(alloc, now, heard, invoke, address)?;
                Ok(())
            }
            _ => Ok(()),
        }
    }

    /// Makes its member item, unless it is enrolled. Without memory nothing changes.
    fn introduce(&mut self, alloc: Global, now: Tick) -> Result<(), Memory>
        ensures ok { OnOk result (self.new ≡ introduced self.old now) }
        ensures err { OnErr result (self.new ≡ self.old) }
    {
        match self.state {
            MemberState::Enrolled => Ok(()),
            _ => {
                let node = self.node.copy(alloc)?;
                self.make_own(alloc, now, None, b"/member/", node.as_bytes())
            }
        }
    }

    /// Puts STOP_R and the items on a link, which is up from then on, and is enrolled. Without memory nothing changes.
    fn enter(
        &mut self,
        alloc: Global,
        now: Tick,
        heard: &mut Heard,
        invoke: u32,
    ) -> Result<(), Memory>
        requires { heard.old.at < length self.old.links }
        ensures ok { OnOk result (self.new ≡ entered self.old now heard.old invoke) }
        ensures err { OnErr result (self.new ≡ self.old) }
    {
        let peer = peer_of(alloc, heard, &self.items)?;
        let batch = stop_batch(alloc, heard.number(), invoke, &self.items)?;
        heard.raise(peer);
        self.raise(alloc, now, heard, batch)?;
        self.state = MemberState::Enrolled;
        Ok(())
    }

    /// Handles STOP. Where memory runs out, the member item may be kept already, and nothing else changes.
    pub(crate) fn on_stop(
        &mut self,
        alloc: Global,
        now: Tick,
        link: u16,
        m: &LinkMessage,
        invoke: u32,
    ) -> Result<(), AgentError>
        ensures { DoesOrKeeps result self.old self.new (stopped self.old now link m.now invoke) }
    {
        let reply = LinkMessage::StopR { invoke };
        match hear_and_reply(
            alloc,
            self.links.as_slice(),
            link,
            m,
            reply,
            EnrolEvent::Stop,
        )? {
            Some(mut heard) => self.stop(alloc, now, &mut heard, invoke),
            None => Ok(()),
        }
    }

    /// Comes in on the link that heard STOP, where its enrolment answers so.
    fn stop(
        &mut self,
        alloc: Global,
        now: Tick,
        heard: &mut Heard,
        invoke: u32,
    ) -> Result<(), AgentError>
        requires { heard.old.at < length self.old.links }
        ensures { DoesOrKeeps result self.old self.new (stopped_as heard.old.does self.old now heard.old invoke) }
    {
        match heard.answer() {
            EnrolDo::StopR => {
                check(need_in(self.state), self.last_count)?;
                self.come_in(alloc, now, heard, invoke)?;
                Ok(())
            }
            _ => Ok(()),
        }
    }

    /// Makes its member item, where it is not enrolled, and is enrolled with its items on the link. Where memory runs out, the
    /// member item may be kept already, and nothing else changes.
    fn come_in(
        &mut self,
        alloc: Global,
        now: Tick,
        heard: &mut Heard,
        invoke: u32,
    ) -> Result<(), Memory>
        requires { heard.old.at < length self.old.links }
        ensures ok { OnOk result (self.new ≡ entered (introduced self.old now) now heard.old invoke) }
        ensures err { OnErr result (self.new ≡ record self.old { items = self.new.items }) }
    {
        let before = self.agenda.len();
        let count = self.last_count;
        self.introduce(alloc, now)?;
        if self.enter(alloc, now, heard, invoke).is_err() {
            self.agenda.cut(before);
            self.last_count = count;
            return Err(Memory);
        }
        Ok(())
    }
}
