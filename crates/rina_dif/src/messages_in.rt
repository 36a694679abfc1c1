//! How the members of a DIF handle the messages that came on their links.
ghost use Rattle.std.specs.Prelude.{◌≡◌, ◌<◌, ◌≤◌, ◌-◌, List, IfOk, IfSome, Some, false, length, slice_get};
ghost use Rattle.rina_base.specs.Pdus.{pdu_of};
ghost use Rattle.rina_iface.specs.declared.ends.End.{End};
ghost use Rattle.rina_iface.specs.Journal.{At};
ghost use Rattle.rina_iface.specs.Seen.{Seen};
ghost use Rattle.rina_law.specs.Direction.{Direction};
ghost use Rattle.rina_member.specs.declared.management.Management.{Management};
ghost use Rattle.rina_member.specs.Knowing.{AreRoutesOf};
ghost use Rattle.rina_flood.specs.Network.{is_in};
ghost use Rattle.rina_dif.specs.Elsewhere.{ChangesProcess};
ghost use Rattle.rina_dif.specs.Flooding.{texts_of};
ghost use Rattle.rina_dif.specs.Handling.{AnswersAhead, AnswersInTurn, AnswersOne, HandlesAs, IsChange, IsHandled, IsToldAhead, PassesAll, TellsNodes, or_same, told_of, unpassed_sdus};
ghost use Rattle.rina_dif.specs.Holding.{Holds, LinksStand, Stands};
ghost use Rattle.rina_dif.specs.Managing.{StayEnrolled};

use crate::dif::Dif;
use crate::kept_routes::routes_stay;
use rina_agent::{AgentError, MemberState};
use rina_base::{Bytes, Memory, Node, PduView, Seq, Tick};
use rina_data::Route;
use rina_dtp::Bodies;
use rina_law::Entry;
use rina_member::{Management, after_sdu};
use std::alloc::Global;

/// What changes at a member that handled messages.
#[derive(Drop)]
pub struct Change {
    pub management: Management,
    /// The next hops over the items that it then holds.
    pub routes: Seq<Route>,
    /// The nodes of the enrolled members then; None where the member is enrolled exactly as before.
    pub enrolled: Option<Seq<Node>>,
}

/// What a member is once it handled the messages that came on one of its links.
#[derive(Drop)]
pub struct Handled {
    /// The place of the end to which they came.
    pub place: usize,
    /// What they change at the member; None where it is as it was.
    pub change: Option<Change>,
}

/// The management of a member: the other one, or what it was where there is none.
fn latest<'a>(before: &'a Management, after: &'a Option<Management>) -> &'a Management
    ensures { result.now ≡ or_same before.now after.now }
{
    match after {
        Some(management) => management,
        None => before,
    }
}

/// The management of a member after an SDU came on its link of a number at a tick. It was `before` at first, and is `after` since, where
/// that is there; None where it is still what it was at first. Refused with `CountSpent` where the member has too few version counts or
/// invoke ids left.
fn after_one(
    alloc: Global,
    before: &Management,
    after: Option<Management>,
    now: Tick,
    number: u16,
    sdu: &[u8],
) -> Result<Option<Management>, AgentError>
    ensures { AnswersOne now number sdu.now before.now (or_same before.now after) result }
{
    match after_sdu(alloc, latest(before, &after), now, number, sdu) {
        Ok(Some(other)) => Ok(Some(other)),
        Ok(None) => Ok(after),
        Err(error) => Err(error),
    }
}

/// The management of a member after SDUs came on its link of a number, one after the other, at a tick; None where they change
/// nothing. The one that is given stays as it is. Refused with `CountSpent` at the first SDU for which too few counts are left.
fn after_all(
    alloc: Global,
    management: &Management,
    now: Tick,
    number: u16,
    came: &[Entry],
) -> Result<Option<Management>, AgentError>
    ensures { AnswersInTurn now number (texts_of came.now) management.now management.now result }
{
    let mut after = None;
    for entry in came {
        let sdu = entry.bytes.as_slice();
        after = after_one(alloc, management, after, now, number, sdu)?;
    }
    Ok(after)
}

/// The management of a member after SDUs with these bytes came on its link of a number, one after the other, at a tick. It was
/// `before` at first, and is `after` since, where that is there; None where it is still what it was at first. Refused with `CountSpent`
/// at the first for which too few counts are left.
fn after_bodies(
    alloc: Global,
    before: &Management,
    after: Option<Management>,
    now: Tick,
    number: u16,
    bodies: &[Bytes],
) -> Result<Option<Management>, AgentError>
    ensures { AnswersInTurn now number bodies.now before.now (or_same before.now after) result }
{
    let mut after = after;
    for body in bodies {
        after = after_one(alloc, before, after, now, number, body.as_slice())?;
    }
    Ok(after)
}

/// Whether a member is enrolled.
fn is_in(management: &Management) -> bool
    ensures { result ≡ is_in management.now.agent.state }
{
    management.agent.state == MemberState::Enrolled
}

impl Dif {
    /// How many SDUs came to the end at a place of the management connections and are not passed.
    fn count_waiting(&self, place: usize) -> u64
        ensures { (end : End) → At self.now.connections.flows.journal.ends place end → result ≡ length end.got - end.taken }
    {
        match self.connections.flows.journal.ends.get(place) {
            Some(end) => (end.got.len() as u64).saturating_sub(end.taken),
            None => 0,
        }
    }

    /// Passes all SDUs that came to the end at a place of the management connections. Takes no memory.
    fn pass_messages(&mut self, place: usize)
        requires stands { (below : Seen) × LinksStand self.old below }
        requires place { place < length self.old.connections.flows.journal.ends }
        ensures passes { (below : Seen) (links : LinksStand self.old below) → PassesAll self.old links.lines place self.new.connections.flows }
        ensures stand { (below : Seen) → LinksStand self.old below → LinksStand self.new below }
        ensures whole { self.new ≡ record self.old { connections = record self.old.connections { flows = self.new.connections.flows } } }
    {
        let clock = self.clock;
        let count = self.count_waiting(place);
        'turns: for _ in 0..count {
            self.connections.flows.pass(clock, place);
        }
    }

    /// The management of the member at a place after it handled, in turn, all SDUs that came to the end of its link of a number
    /// and are not passed; None where they change nothing. Refused with `CountSpent` where too few counts are left.
    fn management_after(
        &self,
        alloc: Global,
        at: usize,
        place: usize,
        number: u16,
    ) -> Result<Option<Management>, AgentError>
        requires at { at < length self.now.managements }
        requires place { place < length self.now.connections.flows.journal.ends }
        requires taken { (end : End) → At self.now.connections.flows.journal.ends place end → end.taken ≤ length end.got }
        ensures { (m : Management) (end : End) → slice_get self.now.managements at ≡ Some m → At self.now.connections.flows.journal.ends place end → AnswersInTurn self.now.clock number (unpassed_sdus end) m m result }
    {
        let Some(management) = self.managements.get(at) else {
            unreachable!()
        };
        let Some(end) = self.connections.flows.journal.ends.get(place) else {
            unreachable!()
        };
        let came = &end.got.as_slice()[end.taken as usize..];
        after_all(alloc, management, self.clock, number, came)
    }

    /// The bytes of the SDUs that a piece would make whole at the end of a place. The piece is not taken.
    pub(crate) fn bodies_ahead(
        &self,
        alloc: Global,
        place: usize,
        pdu: &PduView<'_>,
    ) -> Result<Bodies, Memory>
        requires clock { self.now.clock ≤ 10_000_000 }
        requires conn { place < length self.now.connections.flows.conns }
        ensures { IfOk result (λ bodies. IsToldAhead self.now place (pdu_of pdu.now) bodies) }
    {
        let links = &self.connections.flows;
        let unpassed = links.unpassed(place);
        links
            .conns
            .at(place)
            .rx
            .ahead(alloc, self.clock, pdu, unpassed)
    }

    /// The management of the member at a place after it handled, in turn, the SDUs that came to the end of its link of a number
    /// and are not passed, and then those that a piece would make whole there; None where they change nothing. The piece is not taken.
    /// Refused with `CountSpent` where too few counts are left.
    pub(crate) fn management_ahead(
        &self,
        alloc: Global,
        at: usize,
        place: usize,
        number: u16,
        pdu: &PduView<'_>,
    ) -> Result<Option<Management>, AgentError>
        requires clock { self.now.clock ≤ 10_000_000 }
        requires at { at < length self.now.managements }
        requires place { place < length self.now.connections.flows.journal.ends }
        requires conn { place < length self.now.connections.flows.conns }
        requires taken { (end : End) → At self.now.connections.flows.journal.ends place end → end.taken ≤ length end.got }
        ensures { AnswersAhead self.now at place number (pdu_of pdu.now) result }
    {
        let Some(before) = self.managements.get(at) else {
            unreachable!()
        };
        let bodies = self.bodies_ahead(alloc, place, pdu)?;
        let after = self.management_after(alloc, at, place, number)?;
        after_bodies(alloc, before, after, self.clock, number, bodies.as_slice())
    }

    /// The nodes of the enrolled members, in the order of the members, once the one at a place is managed so. None where that one
    /// is enrolled exactly as before.
    pub(crate) fn enrolled_after(
        &self,
        alloc: Global,
        at: usize,
        after: &Management,
    ) -> Result<Option<Seq<Node>>, Memory>
        requires aligned { length self.now.managements ≡ length self.now.settings.members }
        requires at { at < length self.now.managements }
        ensures { IfOk result (TellsNodes self.now at after.now) }
    {
        let managements = self.managements.as_slice();
        if is_in(after) == is_in(&managements[at]) {
            return Ok(None);
        }
        let mut nodes = Seq::new(alloc);
        for (place, member) in self.settings.members.as_slice().iter().enumerate() {
            let management = if place == at {
                after
            } else {
                &managements[place]
            };
            if is_in(management) {
                nodes.push(member.node)?;
            }
        }
        Ok(Some(nodes))
    }

    /// The next hops of the IPC process at a place once its member is managed so: those that it has, where neither its links nor what link
    /// states claim changed.
    fn routes_after(
        &self,
        alloc: Global,
        at: usize,
        after: &Management,
    ) -> Result<Seq<Route>, Memory>
        requires stands { (below : Seen) × Stands self.now below }
        requires at { at < length self.now.settings.members }
        ensures { IfOk result (AreRoutesOf after.now.agent self.now.settings.members) }
    {
        let (Some(process), Some(before)) = (self.processes.get(at), self.managements.get(at))
        else {
            unreachable!()
        };
        if routes_stay(alloc, &before.agent, &after.agent)? {
            let routes = Vec::from_slice(alloc, process.routes.as_slice())?;
            return Ok(Seq::from_vec(routes));
        }
        self.routes_over(alloc, after)
    }

    /// What changes at the member at a place that is managed so from then on; None where it is as it was.
    pub(crate) fn change_ahead(
        &self,
        alloc: Global,
        at: usize,
        after: Option<Management>,
    ) -> Result<Option<Change>, Memory>
        requires stands { (below : Seen) × Stands self.now below }
        requires at { at < length self.now.settings.members }
        ensures told { IfOk result (λ change. told_of change ≡ after) }
        ensures changes { IfOk result (λ change. IfSome change (IsChange self.now at)) }
    {
        let Some(management) = after else {
            return Ok(None);
        };
        let routes = self.routes_after(alloc, at, &management)?;
        let enrolled = self.enrolled_after(alloc, at, &management)?;
        Ok(Some(Change {
            management,
            routes,
            enrolled,
        }))
    }

    /// Lets the member at a place handle the messages that came on its link of a number, where there are any: the end passes all of
    /// them, the member and its next hops are as was told, and so is who is enrolled. Takes no memory.
    pub(crate) fn handle_messages(&mut self, at: usize, number: u16, handled: Option<Handled>)
        requires stands { (below : Seen) × Stands self.old below }
        requires alive { self.old.failed ≡ false }
        requires at { at < length self.old.settings.members }
        requires handled { IfSome handled (IsHandled self.old at number) }
        ensures does { (lines : List Direction) (below : Seen) → Holds self.old lines below → HandlesAs self.old lines below at number handled self.new }
        ensures whole { self.new ≡ record self.old { processes = self.new.processes; connections = record self.old.connections { flows = self.new.connections.flows }; managements = self.new.managements; enrolled = self.new.enrolled } }
        ensures enrolled { StayEnrolled self.old.enrolled self.new.enrolled }
        ensures leaves { ChangesProcess (Some at) self.old.processes self.new.processes }
    {
        let Some(handled) = handled else {
            return;
        };
        rina_flood::what_comes_was_made_by_a_member();
        let Handled { place, change } = handled;
        self.pass_messages(place);
        let Some(change) = change else {
            return;
        };
        self.processes.set_routes(at, change.routes);
        self.managements.set(at, change.management);
        if let Some(nodes) = change.enrolled {
            self.enrolled = nodes;
        }
    }
}
