//! How a DIF loses a link.
ghost use Rattle.std.specs.Prelude.{◌≡◌, ◌↔◌, ◌<◌, ◌≤◌, ℕ, List, None, Some, IfOk, IsTrue, OnErr, OnOk, length, slice_get};
ghost use Rattle.rina_iface.specs.Seen.{Seen};
ghost use Rattle.rina_law.specs.Direction.{Direction};
ghost use Rattle.rina_data.specs.declared.link.Link.{Link};
ghost use Rattle.rina_data.specs.declared.process.IpcProcess.{IpcProcess};
ghost use Rattle.rina_data.specs.Configs.{config_of};
ghost use Rattle.rina_data.specs.Losing.{FindsLost};
ghost use Rattle.rina_dif_law.specs.Losing.{NoneLive};
ghost use Rattle.rina_dif_law.specs.Sending.{home};
ghost use Rattle.rina_flows.specs.Stopping.{is_here};
ghost use Rattle.rina_dif.specs.Elsewhere.{ChangesOnly, ChangesProcess, IsEndOf, WhenOk};
ghost use Rattle.rina_dif.specs.Holding.{Holds, Stands};
ghost use Rattle.rina_dif.specs.IdRests.{AreRests, CanGive, CanGiveBack, GaveFirst, GaveOne, RestsHere};
ghost use Rattle.rina_dif.specs.Changing.{ManagesLoss, allocated_at, cep_here, without_flow_if};
ghost use Rattle.rina_member.specs.Managements.{LosesLink, without_flows};
ghost use Rattle.rina_member.specs.declared.management.Management.{Management};
ghost use Rattle.rina_member.specs.Knowing.{AreRoutesOf};
ghost use Rattle.rina_dif.specs.Unlinking.{AnswersLoss, FindsEnd, FindsLostAt, FindsNoneLeft, HasFailed, LosesAs, TellsNoneLeft, links_without};

use crate::dif::Dif;
use crate::processes::LinkLoss;
use crate::release::IdRest;
use rina_agent::AgentError;
use rina_base::{Memory, Node, Port, Seq};
use rina_conn::Conn;
use rina_data::{Link, Lost, Route, StepError, lost_link};
use rina_iface::{End, Facility, Fail, PortState};
use rina_member::{Management, flow_name, routes_of, without_link};
use std::alloc::Global;

/// The loss of a link of a member.
#[derive(Drop)]
pub struct MemberLoss {
    pub lost: Lost,
    /// The management of the member after it.
    pub after: Management,
}

/// Whether no link is live but the one at a place.
fn is_last(links: &[Link], lost: usize) -> bool
    ensures { (link : Link) → slice_get links.now lost ≡ Some link → IsTrue result ↔ NoneLive (links_without links.now lost link) }
{
    for place in 0..links.len() {
        if place != lost && links[place].live {
            return false;
        }
    }
    true
}

/// Whether a flow has failed.
fn has_failed(state: Option<PortState>) -> bool
    ensures { IsTrue result ↔ HasFailed state }
{
    matches!(state, Some(PortState::Failed(_)))
}

/// The port below of the link at a place, where the flow there has failed and no other link is live.
fn last_failed<F: Facility>(links: &[Link], lost: usize, below: &F) -> Option<Port>
    requires valid { F.valid below.now }
    requires lost { lost < length links.now }
    ensures { (link : Link) → slice_get links.now lost ≡ Some link → TellsNoneLeft (links_without links.now lost link) (F.seen below.now) link.port result }
{
    let port = links[lost].port;
    if is_last(links, lost) && has_failed(below.state(port)) {
        Some(port)
    } else {
        None
    }
}

/// Whether an end is allocated, and at a node.
fn is_here(end: &End, node: Node) -> bool
    ensures { result ≡ is_here node end.now }
{
    matches!(end.state, PortState::Allocated) && end.port.node == node
}

/// Deletes the object of a flow, where its end is an allocated one at a node.
fn end_flow(
    alloc: Global,
    node: Node,
    end: &End,
    conn: &Conn,
    management: &mut Management,
) -> Result<(), Memory>
    ensures { OnOk result (management.new ≡ without_flow_if management.old (cep_here node (end.now, conn.now))) }
{
    if !is_here(end, node) {
        return Ok(());
    }
    let name = flow_name(alloc, conn.sending.form.peer.scep)?;
    management.remove(name.as_slice());
    Ok(())
}

impl Dif {
    /// The link that the IPC process at a place loses first. None exactly where it loses none.
    pub(crate) fn lost_link_at<F: Facility>(&self, below: &F, at: usize) -> Option<Lost>
        requires valid { F.valid below.now }
        requires at { at < length self.now.processes }
        ensures { (p : IpcProcess) → slice_get self.now.processes at ≡ Some p → FindsLost p.links (F.seen below.now) result }
    {
        let Some(process) = self.processes.get(at) else {
            unreachable!()
        };
        lost_link(process.links.as_slice(), below)
    }

    /// The management of the member at a place after it lost the link that was found there. Refused where no version count is left for
    /// its link state.
    pub(crate) fn management_without(
        &self,
        alloc: Global,
        at: usize,
        lost: Lost,
    ) -> Result<Management, StepError>
        requires stands { (below : Seen) × Stands self.now below × FindsLostAt self.now below at (Some lost) }
        requires at { at < length self.now.settings.members }
        ensures { (m : Management) → slice_get self.now.managements at ≡ Some m → AnswersLoss self.now.clock lost.number m result }
    {
        let Some(management) = self.managements.get(at) else {
            unreachable!()
        };
        match without_link(alloc, management, self.clock, lost.number) {
            Ok(after) => Ok(after),
            Err(AgentError::Memory) => Err(StepError::Memory),
            Err(AgentError::CountSpent { need, left }) => {
                Err(StepError::CountSpent { need, left })
            }
        }
    }

    /// The next hops over the items that a management holds.
    pub(crate) fn routes_over(
        &self,
        alloc: Global,
        management: &Management,
    ) -> Result<Seq<Route>, Memory>
        ensures { IfOk result (AreRoutesOf management.now.agent self.now.settings.members) }
    {
        let routes = routes_of(alloc, &management.agent, self.settings.members.as_slice())?;
        Ok(Seq::from_vec(routes))
    }

    /// Deletes the objects of the flows at a node whose ends are allocated.
    fn end_flows(
        &self,
        alloc: Global,
        node: Node,
        management: &mut Management,
    ) -> Result<(), Memory>
        requires { length self.now.flows.journal.ends ≡ length self.now.flows.conns }
        ensures { OnOk result (management.new ≡ without_flows management.old (allocated_at node self.now.flows)) }
    {
        for at in 0..self.flows.conns.len() {
            let conn = self.flows.conns.at(at);
            let Some(end) = self.flows.journal.ends.get(at) else {
                unreachable!()
            };
            end_flow(alloc, node, end, conn, management)?;
        }
        Ok(())
    }

    /// Loses the link that was found at the IPC process at a place, whose management connection has this open end, if it has
    /// one: what waits for it is written off, it is no longer used, that end closes, the member makes its link state without
    /// the link, and the next hops are built anew over the items that it holds then. Without memory nothing changes.
    fn lose_link(
        &mut self,
        alloc: Global,
        at: usize,
        loss: MemberLoss,
        end: Option<usize>,
    ) -> Result<(), Memory>
        requires stands { (below : Seen) × Stands self.old below × FindsLostAt self.old below at (Some loss.lost) }
        requires at { at < length self.old.settings.members }
        requires end { FindsEnd self.old at loss.lost.place end }
        requires after { (m : Management) → slice_get self.old.managements at ≡ Some m → LosesLink self.old.clock loss.lost.number m loss.after }
        ensures does { (node : ℕ) (lines : List Direction) (below : Seen) → Holds self.old lines below → FindsLostAt self.old below at (Some loss.lost) → FindsNoneLeft self.old below at loss.lost.place None → LosesAs self.old lines below at node loss.lost.number result self.new }
        ensures same { (self.new.settings ≡ self.old.settings) × (self.new.failed ≡ self.old.failed) }
        ensures laid { self.new.laid ≡ self.old.laid }
        ensures whole { self.new ≡ record self.old { processes = self.new.processes; connections = self.new.connections; flows = self.new.flows; ids = self.new.ids; managements = self.new.managements } }
        ensures stays { OnErr result (self.new.connections ≡ self.old.connections) }
        ensures manages { (node : ℕ) (below : Seen) → FindsLostAt self.old below at (Some loss.lost) → FindsNoneLeft self.old below at loss.lost.place None → ManagesLoss result self.old below at node loss.lost.number self.new.managements }
        ensures leaves { ChangesProcess (Some at) self.old.processes self.new.processes }
        ensures flows { self.new.flows ≡ self.old.flows }
    {
        let MemberLoss { lost, after } = loss;
        let routes = self.routes_over(alloc, &after)?;
        let loss = LinkLoss {
            place: lost.place,
            routes,
            end,
            now: self.clock,
        };
        let links = &mut self.connections.flows;
        self.processes.lose_link(alloc, at, loss, links)?;
        self.managements.set(at, after);
        Ok(())
    }

    /// The CEP-id of the end at a place, where that is an allocated one at a node.
    fn rest_here(&self, node: Node, at: usize) -> Option<IdRest>
        requires stands { (below : Seen) × Stands self.now below }
        requires at { at < length self.now.flows.conns }
        ensures { RestsHere self.now node at result }
    {
        let Some(end) = self.flows.journal.ends.get(at) else {
            unreachable!()
        };
        if !is_here(end, node) {
            return None;
        }
        Some(self.rest_at(at))
    }

    /// The CEP-ids of the allocated ends at a node, each at the place of its end, with the time for which it rests.
    #[tactic(auto, using(crate::proofs::GivenBack::none_rest, crate::proofs::GivenBack::rests_more))]
    fn rests_at_node(&self, alloc: Global, node: Node) -> Result<Vec<Option<IdRest>>, Memory>
        requires { (below : Seen) × Stands self.now below }
        ensures { IfOk result (λ v. AreRests self.now node (length self.now.flows.conns) v.items) }
    {
        let mut rests = Vec::new(alloc);
        for at in 0..self.flows.conns.len() {
            if rests.push(self.rest_here(node, at)).is_err() {
                return Err(Memory);
            }
        }
        Ok(rests)
    }

    /// Gives a CEP-id of the member at a place back, where one is given. It rests from now on.
    fn give_back(&mut self, home: usize, rest: Option<IdRest>)
        requires { CanGive self.old home rest }
        ensures given { GaveOne home self.old.clock (Some rest) self.old.ids self.new.ids }
        ensures whole { self.new ≡ record self.old { ids = self.new.ids } }
    {
        if let Some(rest) = rest {
            self.ids.give_back(home, self.clock, rest.cep, rest.ticks);
        }
    }

    /// Gives CEP-ids of the member at a place back, which rest from now on.
    fn give_back_all(&mut self, home: usize, rests: &[Option<IdRest>])
        requires { CanGiveBack self.old home rests.now }
        ensures given { GaveFirst home self.old.clock rests.now (length rests.now) self.old.ids self.new.ids }
        ensures whole { self.new ≡ record self.old { ids = self.new.ids } }
    {
        for at in 0..rests.len() {
            self.give_back(home, rests[at]);
        }
    }

    /// Loses the link that was found at the IPC process at a place, the last one of that node, as `lose_link` does, and lets
    /// all flows there fail with it, since the flow of its port below has failed; their CEP-ids rest from now on. Without memory nothing changes.
    fn lose_last_link(
        &mut self,
        alloc: Global,
        at: usize,
        node: Node,
        loss: MemberLoss,
        end: Option<usize>,
        port: Port,
    ) -> Result<(), Memory>
        requires stands { (below : Seen) × Stands self.old below × FindsLostAt self.old below at (Some loss.lost) }
        requires clock { self.old.clock ≤ 10_000_000 }
        requires at { at < length self.old.settings.members }
        requires home { home node (config_of self.old.settings).members ≡ Some at }
        requires end { FindsEnd self.old at loss.lost.place end }
        requires after { (m : Management) → slice_get self.old.managements at ≡ Some m → LosesLink self.old.clock loss.lost.number m loss.after }
        ensures does { (lines : List Direction) (below : Seen) → Holds self.old lines below → FindsLostAt self.old below at (Some loss.lost) → FindsNoneLeft self.old below at loss.lost.place (Some port) → LosesAs self.old lines below at node loss.lost.number result self.new }
        ensures same { (self.new.settings ≡ self.old.settings) × (self.new.failed ≡ self.old.failed) }
        ensures laid { self.new.laid ≡ self.old.laid }
        ensures whole { self.new ≡ record self.old { processes = self.new.processes; connections = self.new.connections; flows = self.new.flows; ids = self.new.ids; managements = self.new.managements } }
        ensures stays { OnErr result (self.new.connections ≡ self.old.connections) }
        ensures manages { (below : Seen) → FindsLostAt self.old below at (Some loss.lost) → FindsNoneLeft self.old below at loss.lost.place (Some port) → ManagesLoss result self.old below at node loss.lost.number self.new.managements }
        ensures leaves { ChangesOnly (λ i. WhenOk result (IsEndOf self.old (Some at) i)) (Some at) self.old self.new }
    {
        let MemberLoss { lost, after } = loss;
        let mut management = after;
        let routes = self.routes_over(alloc, &management)?;
        self.end_flows(alloc, node, &mut management)?;
        let rests = self.rests_at_node(alloc, node)?;
        let loss = LinkLoss {
            place: lost.place,
            routes,
            end,
            now: self.clock,
        };
        let state = PortState::Failed(Fail::Below { port });
        let links = &mut self.connections.flows;
        let flows = &mut self.flows;
        self.processes
            .lose_last_link(alloc, at, loss, links, flows, node, state)?;
        self.give_back_all(at, rests.as_slice());
        self.managements.set(at, management);
        Ok(())
    }

    /// Loses the link that was found at the IPC process at a place, at a node, and closes the end of its management connection
    /// there. Where no other link is live, and its flow below has failed, all flows at the node fail with it. Without memory nothing changes.
    pub(crate) fn lose_at<F: Facility>(
        &mut self,
        alloc: Global,
        below: &F,
        at: usize,
        node: Node,
        loss: MemberLoss,
    ) -> Result<(), Memory>
        requires valid { F.valid below.now }
        requires stands { Stands self.old (F.seen below.now) }
        requires found { FindsLostAt self.old (F.seen below.now) at (Some loss.lost) }
        requires after { (m : Management) → slice_get self.old.managements at ≡ Some m → LosesLink self.old.clock loss.lost.number m loss.after }
        requires clock { self.old.clock ≤ 10_000_000 }
        requires at { at < length self.old.settings.members }
        requires home { home node (config_of self.old.settings).members ≡ Some at }
        ensures does { (lines : List Direction) → Holds self.old lines (F.seen below.now) → LosesAs self.old lines (F.seen below.now) at node loss.lost.number result self.new }
        ensures same { (self.new.settings ≡ self.old.settings) × (self.new.failed ≡ self.old.failed) }
        ensures laid { self.new.laid ≡ self.old.laid }
        ensures whole { self.new ≡ record self.old { processes = self.new.processes; connections = self.new.connections; flows = self.new.flows; ids = self.new.ids; managements = self.new.managements } }
        ensures stays { OnErr result (self.new.connections ≡ self.old.connections) }
        ensures manages { ManagesLoss result self.old (F.seen below.now) at node loss.lost.number self.new.managements }
        ensures leaves { ChangesOnly (λ i. WhenOk result (IsEndOf self.old (Some at) i)) (Some at) self.old self.new }
    {
        let Some(process) = self.processes.get(at) else {
            unreachable!()
        };
        let links = process.links.as_slice();
        let place = loss.lost.place;
        let end = self.connections.open_on(links[place].port);
        match last_failed(links, place, below) {
            Some(port) => self.lose_last_link(alloc, at, node, loss, end, port),
            None => self.lose_link(alloc, at, loss, end),
        }
    }
}
