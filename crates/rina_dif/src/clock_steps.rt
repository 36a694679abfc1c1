//! The clock steps of a DIF.
ghost use Rattle.std.specs.Prelude.{◌≡◌, ◌<◌, ◌≤◌, ◌↔◌, List, Some, IfOk, IfSome, IsTrue, OnErr, length, true, Err};
ghost use Rattle.rina_iface.specs.Free.{FreesAsSeen};
ghost use Rattle.rina_iface.specs.Later.{IsLater};
ghost use Rattle.rina_iface.specs.Seen.{Seen};
ghost use Rattle.rina_law.specs.Direction.{Direction};
ghost use Rattle.rina_data.specs.Configs.{config_of};
ghost use Rattle.rina_dif_law.specs.Sending.{home};
ghost use Rattle.rina_dif_law.specs.Upward.{IsSilent};
ghost use Rattle.rina_data.specs.declared.step.StepError.TheVariants.{Memory as MemoryWanted};
ghost use Rattle.rina_dif.specs.Clocking.{ClockSteps, FailsLate, FindsAskFirst, FindsFirst, FindsLinkFirst, FindsNext, IsDueAt, IsHere, IsIdle, IsIn, NoFlowEnds, NoLinkEnds, ServesHere, StepsFlowHere, StepsHere, TellsEnding, earlier, item_of};
ghost use Rattle.rina_dif.specs.Elsewhere.{ChangesOnly, ChangesProcess, MayClock, home_of};
ghost use Rattle.rina_dif.specs.Facade.{GoesOn, OthersStand};
ghost use Rattle.rina_dif.specs.Holding.{Holds, LinksStand, Stands};
ghost use Rattle.rina_dif.specs.LinkDue.{IsLinkTurn, rank_of};
ghost use Rattle.rina_dif.specs.LinkSteps.{DoesLink, ServesOver};
ghost use Rattle.rina_dif.specs.Lower.{ClocksBelow, FreesBelow, FreesOver, name_here, name_of};
ghost use Rattle.rina_dif.specs.FlowEnds.{ManagesStep};
ghost use Rattle.rina_dif.specs.MessageSteps.{IfIdle};
ghost use Rattle.rina_dif.specs.Shown.{seen_of};
ghost use Rattle.rina_dif.specs.WaitingAsks.{KeepsStep};
ghost use Rattle.rina_flows.specs.declared.due.Item.{Item};
ghost use Rattle.rina_flows.specs.Watching.{NoneDueBeside};

use crate::dif::Dif;
use crate::links_due::NextLink;
use crate::lost_links::MemberLoss;
use rina_base::{Cep, Memory, Node};
use rina_data::{ClockStep, StepError};
use rina_flows::Item;
use rina_iface::{End, Facility, PortState};
use std::alloc::Global;

/// An end at which an item is due.
#[derive(Clone, Copy)]
pub struct Turn {
    /// Its place.
    pub place: usize,
    /// The CEP-id of its connection.
    pub cep: Cep,
}

/// The first item that is due at a node, and the end at which it is.
#[derive(Clone, Copy)]
pub struct Next {
    pub item: Item,
    pub turn: Turn,
}

/// Whether an end is allocated, and at this node.
fn is_here(end: &End, node: Node) -> bool
    ensures { IsTrue result ↔ IsHere end.now node }
{
    matches!(end.state, PortState::Allocated) && end.port.node == node
}

/// Of two ends the one of the lesser CEP-id.
fn earlier(first: Option<Turn>, other: Turn) -> Turn
    ensures { result ≡ earlier first other }
{
    match first {
        Some(first) if first.cep <= other.cep => first,
        _ => other,
    }
}

/// How soon an item comes among those that are due at one time.
fn rank(item: Item) -> u8
    ensures { result ≡ rank_of item }
{
    match item {
        Item::Gone => 0,
        Item::GiveUp => 1,
        Item::Ack => 2,
        Item::Again => 3,
    }
}

impl Dif {
    /// Whether an item is due at the end of a place, which is allocated and at this node.
    fn is_due_at(&self, node: Node, at: usize, item: Item) -> bool
        requires { at < length self.now.flows.conns }
        ensures { (lines : List Direction) (below : Seen) → Holds self.now lines below → IsTrue result ↔ IsDueAt item self.now lines node at }
    {
        let Some(end) = self.flows.journal.ends.get(at) else {
            return false;
        };
        if !is_here(end, node) {
            return false;
        }
        self.flows.is_due(self.clock, at, item)
    }

    /// The end of a place, and the CEP-id of its connection.
    fn turn(&self, at: usize) -> Turn
        requires { at < length self.now.flows.conns }
        ensures { IsIn self.now.flows.conns at result }
    {
        Turn {
            place: at,
            cep: self.flows.conns.at(at).sending.form.peer.scep,
        }
    }

    /// Of the ends of a node at which an item is due, the one of the least CEP-id. None exactly where it is due at none.
    fn first_of_all(&self, node: Node, item: Item) -> Option<Turn>
        ensures { (lines : List Direction) (below : Seen) → Holds self.now lines below → FindsFirst item self.now lines node result }
    {
        let mut first = None;
        for at in 0..self.flows.conns.len() {
            if self.is_due_at(node, at, item) {
                first = Some(earlier(first, self.turn(at)));
            }
        }
        first
    }

    /// The same, where nothing is due beside these places.
    fn first_among(&self, places: &[usize], node: Node, item: Item) -> Option<Turn>
        requires { NoneDueBeside self.now.clock places.now self.now.flows }
        ensures { (lines : List Direction) (below : Seen) → Holds self.now lines below → FindsFirst item self.now lines node result }
    {
        let mut first = None;
        for place in 0..places.len() {
            let at = places[place];
            if at < self.flows.conns.len() && self.is_due_at(node, at, item) {
                first = Some(earlier(first, self.turn(at)));
            }
        }
        first
    }

    /// Of the ends of a node at which an item is due, the one of the least CEP-id. None exactly where it is due at none.
    /// Ends at which nothing is due soon are not looked at.
    fn first_due(&self, node: Node, item: Item) -> Option<Turn>
        ensures { (lines : List Direction) (below : Seen) → Holds self.now lines below → FindsFirst item self.now lines node result }
    {
        match self.flows.watched(self.clock) {
            Some(places) => self.first_among(places, node, item),
            None => self.first_of_all(node, item),
        }
    }

    /// Whether no item is due at the end of a place, if that end is allocated and at this node.
    fn is_quiet_at(&self, node: Node, at: usize) -> bool
        ensures { IsTrue result → (item : Item) (lines : List Direction) (below : Seen) → Holds self.now lines below → IsDueAt item self.now lines node at → ⊥ }
    {
        if at >= self.flows.conns.len() {
            return true;
        }
        if self.is_due_at(node, at, Item::Gone)
            || self.is_due_at(node, at, Item::GiveUp)
            || self.is_due_at(node, at, Item::Ack)
            || self.is_due_at(node, at, Item::Again)
        {
            return false;
        }
        true
    }

    /// Whether nothing is due at a node, where nothing is due beside these places.
    fn are_quiet_at(&self, places: &[usize], node: Node) -> bool
        requires { NoneDueBeside self.now.clock places.now self.now.flows }
        ensures { IsTrue result → (lines : List Direction) (below : Seen) → Holds self.now lines below → IsIdle self.now lines node }
    {
        for place in 0..places.len() {
            if !self.is_quiet_at(node, places[place]) {
                return false;
            }
        }
        true
    }

    /// Whether nothing is due at a node. False also where that is not known without a look at all ends.
    fn are_quiet(&self, node: Node) -> bool
        ensures { IsTrue result → (lines : List Direction) (below : Seen) → Holds self.now lines below → IsIdle self.now lines node }
    {
        match self.flows.watched(self.clock) {
            Some(places) => self.are_quiet_at(places, node),
            None => false,
        }
    }

    /// The first item that is due at a node. None exactly where none is.
    fn next_due(&self, node: Node) -> Option<Next>
        ensures { (lines : List Direction) (below : Seen) → Holds self.now lines below → FindsNext self.now lines node result }
    {
        if self.are_quiet(node) {
            return None;
        }
        if let Some(turn) = self.first_due(node, Item::Gone) {
            let item = Item::Gone;
            return Some(Next { item, turn });
        }
        if let Some(turn) = self.first_due(node, Item::GiveUp) {
            let item = Item::GiveUp;
            return Some(Next { item, turn });
        }
        if let Some(turn) = self.first_due(node, Item::Ack) {
            let item = Item::Ack;
            return Some(Next { item, turn });
        }
        if let Some(turn) = self.first_due(node, Item::Again) {
            let item = Item::Again;
            return Some(Next { item, turn });
        }
        None
    }

    /// Does the first item that is due at the flows of a node, at its IPC process. Where none is, nothing changes.
    fn do_next(&mut self, alloc: Global, at: usize, node: Node) -> Result<ClockStep, StepError>
        requires stands { (below : Seen) × Stands self.old below }
        requires clock { self.old.clock ≤ 10_000_000 }
        requires at { at < length self.old.settings.members }
        requires home { home node (config_of self.old.settings).members ≡ Some at }
        ensures does { (lines : List Direction) (below : Seen) → Holds self.old lines below → StepsFlowHere self.old lines below node result self.new }
        ensures same { (self.new.settings ≡ self.old.settings) × (self.new.failed ≡ self.old.failed) }
        ensures laid { self.new.laid ≡ self.old.laid }
        ensures whole { self.new ≡ record self.old { processes = self.new.processes; flows = self.new.flows; ids = self.new.ids; managements = self.new.managements } }
        ensures idle { IfOk result (λ done. IfIdle done (self.new ≡ self.old)) }
        ensures manages { (below : Seen) → ManagesStep result (Some at) self.old below node self.new.managements }
        ensures leaves { ChangesOnly (MayClock result self.old (Some at)) (Some at) self.old self.new }
    {
        let Some(Next { item, turn }) = self.next_due(node) else {
            return Ok(ClockStep::Idle);
        };
        let Turn { place, cep } = turn;
        match item {
            Item::Gone => {
                self.forget_at(alloc, at, place)?;
                Ok(ClockStep::Gone { cep })
            }
            Item::GiveUp => match self.give_up_at(alloc, at, place)? {
                Some(num) => Ok(ClockStep::GaveUp { num }),
                None => unreachable!(),
            },
            Item::Ack => {
                self.acknowledge_at(alloc, at, place)?;
                Ok(ClockStep::Ack { cep })
            }
            Item::Again => match self.again_at(alloc, at, place)? {
                Some(num) => Ok(ClockStep::Again { num }),
                None => unreachable!(),
            },
        }
    }

    /// The link of the IPC process at a place, at a node, that goes before the flows there, with the item that is due at its
    /// management connection. None exactly where a flow goes first, or nothing is due.
    fn first_link(&self, at: usize, node: Node) -> Option<NextLink>
        ensures first { (lines : List Direction) (below : Seen) → Holds self.now lines below → (links : LinksStand self.now below) → FindsLinkFirst self.now lines links.lines at node result }
        ensures turn { (below : Seen) (links : LinksStand self.now below) → IfSome result (λ next. IsLinkTurn next.item self.now links.lines at next.turn.place next.turn.number) }
    {
        let link = self.next_link_due(at)?;
        match self.next_due(node) {
            Some(flow) if rank(flow.item) < rank(link.item) => None,
            _ => Some(link),
        }
    }

    /// Whether held pieces are of a state that has ended, or a number is given up, at the links of the IPC process at a place.
    fn links_end(&self, at: usize) -> bool
        ensures { (below : Seen) (links : LinksStand self.now below) → TellsEnding (NoLinkEnds self.now links.lines at) result }
    {
        match self.next_link_due(at) {
            Some(link) => rank(link.item) < rank(Item::Ack),
            None => false,
        }
    }

    /// Whether held pieces are of a state that has ended, or a number is given up, at the flows of a node.
    fn flows_end(&self, node: Node) -> bool
        ensures { (lines : List Direction) (below : Seen) → Holds self.now lines below → TellsEnding (NoFlowEnds self.now lines node) result }
    {
        match self.next_due(node) {
            Some(flow) => rank(flow.item) < rank(Item::Ack),
            None => false,
        }
    }

    /// Where the ask stands that goes before all else that is due at the IPC process at a place, at a node: the first that is late there, where
    /// nothing ends. None exactly where none does.
    fn first_ask(&self, at: usize, node: Node) -> Option<usize>
        requires home { home node (config_of self.now.settings).members ≡ Some at }
        requires clock { self.now.clock ≤ 10_000_000 }
        ensures { (lines : List Direction) (below : Seen) → Holds self.now lines below → (links : LinksStand self.now below) → FindsAskFirst self.now lines links.lines at node result }
    {
        let which = self.late_ask(at, node)?;
        if self.links_end(at) {
            return None;
        }
        if self.flows_end(node) {
            return None;
        }
        Some(which)
    }

    /// Does the item that is due at the management connection of a link, whose turn it is, at the IPC process at a place. Where a
    /// number is given up the flow below of the link is freed; nothing else changes below. Without memory nothing changes.
    fn serve_link<F: Facility>(
        &mut self,
        alloc: Global,
        below: &mut F,
        at: usize,
        next: NextLink,
    ) -> Result<ClockStep, Memory>
        requires valid { F.valid below.old }
        requires stands { Stands self.old (F.seen below.old) }
        requires clock { self.old.clock ≤ 10_000_000 }
        requires at { at < length self.old.settings.members }
        requires turn { (lower : Seen) (links : LinksStand self.old lower) → IsLinkTurn next.item self.old links.lines at next.turn.place next.turn.number }
        ensures valid { F.valid below.new }
        ensures below { F.same_below below.old below.new }
        ensures later { IsLater (F.seen below.old) (F.seen below.new) }
        ensures does { (lines : List Direction) → Holds self.old lines (F.seen below.old) → ServesOver (λ done links. (item_of done ≡ Some next.item) × DoesLink self.old links (F.seen below.old) at next.turn.place done (seen_of self.new) self.new.connections.flows (F.seen below.new)) self.old lines (F.seen below.old) result self.new (F.seen below.new) }
        ensures lower { FreesOver (below.new ≡ below.old) (FreesAsSeen F.seen F.frees_both F.does_free below.old below.new) result }
        ensures whole { self.new ≡ record self.old { processes = self.new.processes; connections = record self.old.connections { flows = self.new.connections.flows } } }
        ensures leaves { ChangesProcess (Some at) self.old.processes self.new.processes }
    {
        match next.item {
            Item::Gone => {
                self.forget_link(alloc, at, next.turn)?;
                Ok(ClockStep::Gone { cep: 0 })
            }
            Item::GiveUp => {
                let num = self.give_up_link(alloc, below, at, next.turn)?;
                Ok(ClockStep::GaveUp { num })
            }
            Item::Ack => {
                self.acknowledge_link(alloc, at, next.turn)?;
                Ok(ClockStep::Ack { cep: 0 })
            }
            Item::Again => {
                let num = self.resend_link(alloc, at, next.turn)?;
                Ok(ClockStep::Again { num })
            }
        }
    }

    /// Gives up the ask that goes first at the IPC process at a place, at a node, or serves the link that goes first there, or the first item that
    /// is due at the flows of the node. Where nothing is due, nothing changes.
    pub(crate) fn serve_next<F: Facility>(
        &mut self,
        alloc: Global,
        below: &mut F,
        at: usize,
        node: Node,
    ) -> Result<ClockStep, StepError>
        requires valid { F.valid below.old }
        requires stands { Stands self.old (F.seen below.old) }
        requires clock { self.old.clock ≤ 10_000_000 }
        requires at { at < length self.old.settings.members }
        requires home { home node (config_of self.old.settings).members ≡ Some at }
        ensures valid { F.valid below.new }
        ensures below { F.same_below below.old below.new }
        ensures later { IsLater (F.seen below.old) (F.seen below.new) }
        ensures does { (lines : List Direction) → Holds self.old lines (F.seen below.old) → ServesHere self.old lines (F.seen below.old) node result self.new (F.seen below.new) }
        ensures lower { FreesBelow (below.new ≡ below.old) (FreesAsSeen F.seen F.frees_both F.does_free below.old below.new) result }
        ensures same { (self.new.settings ≡ self.old.settings) × (self.new.failed ≡ self.old.failed) }
        ensures laid { self.new.laid ≡ self.old.laid }
        ensures whole { self.new ≡ record self.old { processes = self.new.processes; connections = self.new.connections; flows = self.new.flows; ids = self.new.ids; asks = self.new.asks; managements = self.new.managements } }
        ensures idle { IfOk result (λ done. IfIdle done (self.new ≡ self.old)) }
        ensures stays { OnErr result (self.new.connections ≡ self.old.connections) }
        ensures manages { ManagesStep result (Some at) self.old (F.seen below.old) node self.new.managements }
        ensures keeps { KeepsStep result self.old node self.new }
        ensures leaves { ChangesOnly (MayClock result self.old (Some at)) (Some at) self.old self.new }
    {
        if let Some(which) = self.first_ask(at, node) {
            let port = self.time_out(at, node, which);
            return Ok(ClockStep::Timeout { port });
        }
        match self.first_link(at, node) {
            Some(next) => Ok(self.serve_link(alloc, below, at, next)?),
            None => self.do_next(alloc, at, node),
        }
    }

    /// Loses the first link of the IPC process at a place that is lost, and all flows there with it where it was the last
    /// one and its flow below has failed; or takes a flow that came in as a new link; or does the first item that is due at its links and
    /// at the flows of its node; or offers the message that is due at its link of the least number.
    fn step_at<F: Facility>(
        &mut self,
        alloc: Global,
        below: &mut F,
        at: usize,
        node: Node,
    ) -> Result<ClockStep, StepError>
        requires valid { F.valid below.old }
        requires stands { Stands self.old (F.seen below.old) }
        requires clock { self.old.clock ≤ 10_000_000 }
        requires at { at < length self.old.settings.members }
        requires home { home node (config_of self.old.settings).members ≡ Some at }
        ensures valid { F.valid below.new }
        ensures below { F.same_below below.old below.new }
        ensures later { IsLater (F.seen below.old) (F.seen below.new) }
        ensures does { (lines : List Direction) → Holds self.old lines (F.seen below.old) → StepsHere self.old lines (F.seen below.old) node result self.new (F.seen below.new) }
        ensures lower { ClocksBelow (λ x fac answer y. F.does_incoming x fac node (name_of self.old at) answer y) (FreesAsSeen F.seen F.frees_both F.does_free) below.old result below.new }
        ensures same { (self.new.settings ≡ self.old.settings) × (self.new.failed ≡ self.old.failed) }
        ensures laid { self.new.laid ≡ self.old.laid }
        ensures whole { self.new ≡ record self.old { processes = self.new.processes; connections = self.new.connections; flows = self.new.flows; ids = self.new.ids; asks = self.new.asks; managements = self.new.managements } }
        ensures stays { OnErr result (self.new.connections ≡ self.old.connections) }
        ensures manages { ManagesStep result (Some at) self.old (F.seen below.old) node self.new.managements }
        ensures keeps { KeepsStep result self.old node self.new }
        ensures leaves { ChangesOnly (MayClock result self.old (Some at)) (Some at) self.old self.new }
    {
        match self.lost_link_at(&*below, at) {
            Some(lost) => {
                let after = self.management_without(alloc, at, lost)?;
                let loss = MemberLoss { lost, after };
                self.lose_at(alloc, &*below, at, node, loss)?;
                Ok(ClockStep::LinkLost { link: lost.number })
            }
            None => self.claim_or_serve(alloc, below, at, node),
        }
    }

    /// Takes one step of the IPC process at a node by the clock, the first of these that is due: a link is lost, whose
    /// flow below was refused, has failed, or was closed, the one of the least number first, the end of its management
    /// connection closes with it, and where no link is left
    /// and that flow has failed, all flows of the node fail with it; a flow that came in below for the member is claimed as a new link, where the
    /// IPC process has fewer than 16 live links, the first facility in the order of their numbers going first; pieces that are held of a state that
    /// has ended are written off; a number is given up, its flow fails, and a message that tells the far end waits at the member, where there is a
    /// way; the ask of a flow that has waited for its whole time is given up, the one first that was made first; an acknowledgement is made; a
    /// number is sent again. Of each of the four of these that flows do the management connections of the live links go first, the one of the
    /// least link number before the others, and then the flows there, the one of the least CEP-id first. Where a management connection gives a number up the flow
    /// below of its link is freed, and no flow fails. Last of all a message of management is offered whole at its link, the one
    /// of the least number at which one is due. A flow that came in and that no management connection awaits is claimed too, and is no link:
    /// the step goes on as where none came in. Answers Idle exactly where none is due. Refused with `CountSpent`, and nothing changes,
    /// where a link is lost and the member has no version count left for its link state.
    pub fn clock_step<F: Facility>(
        &mut self,
        alloc: Global,
        below: &mut F,
        node: Node,
    ) -> Result<ClockStep, StepError>
        requires valid { F.valid below.old }
        requires stands { Stands self.old (F.seen below.old) }
        ensures valid { F.valid below.new }
        ensures below { F.same_below below.old below.new }
        ensures later { IsLater (F.seen below.old) (F.seen below.new) }
        ensures does { (lines : List Direction) → Holds self.old lines (F.seen below.old) → ClockSteps self.old lines (F.seen below.old) node result self.new (F.seen below.new) }
        ensures lower { ClocksBelow (λ x fac answer y. F.does_incoming x fac node (name_here self.old node) answer y) (FreesAsSeen F.seen F.frees_both F.does_free) below.old result below.new }
        ensures fails_late { (lines : List Direction) → Holds self.old lines (F.seen below.old) → FailsLate self.old lines (F.seen below.old) self.new }
        ensures goes_on { GoesOn self.old self.new }
        ensures silent { IsSilent (seen_of self.old) (seen_of self.new) }
        ensures others { OthersStand self.old (F.seen below.old) (F.seen below.new) }
        ensures settings { self.new.settings ≡ self.old.settings }
        ensures laid { self.new.laid ≡ self.old.laid }
        ensures whole { self.new ≡ record self.old { processes = self.new.processes; connections = self.new.connections; flows = self.new.flows; ids = self.new.ids; asks = self.new.asks; managements = self.new.managements; failed = self.new.failed } }
        ensures stays { OnErr result (self.new.connections ≡ self.old.connections) }
        ensures leaves { ChangesOnly (MayClock result self.old (home_of self.old node)) (home_of self.old node) self.old self.new }
        ensures failed { self.old.failed ≡ true → result ≡ Err MemoryWanted }
        ensures fails { self.new.failed ≡ true ↔ (result ≡ Err MemoryWanted) }
    {
        if self.failed {
            return Err(StepError::Memory);
        }
        let Some(at) = self.place_at_node(node) else {
            return Err(StepError::NoIpc);
        };
        let step = self.step_at(alloc, below, at, node);
        Dif::remember_memory_failure(&mut self.failed, step)
    }
}
