//! What is due at the management connections of links.
ghost use Rattle.std.specs.Prelude.{◌≡◌, ℕ, IsTrue, None};
ghost use Rattle.std.specs.List.{list_any};
ghost use Rattle.rina_flows.specs.declared.due.Item.{Item};
ghost use Rattle.rina_flows.specs.declared.due.Item.TheVariants.{Again};
ghost use Rattle.rina_flows.specs.Watching.{NoneDueBeside};
ghost use Rattle.rina_iface.specs.Seen.{Seen};
ghost use Rattle.rina_dif.specs.Holding.{LinksStand};
ghost use Rattle.rina_dif.specs.LinkDue.{FindsFirstLink, FindsNextLink, NoLinkUpTo, TellsLinkDue, is_link_of, lesser_link};

use crate::dif::Dif;
use rina_channel::Attachment;
use rina_data::Link;
use rina_flows::Item;
use rina_iface::PortState;

/// An end of a management connection at which an item is due.
#[derive(Clone, Copy)]
pub struct LinkTurn {
    /// Its place.
    pub place: usize,
    /// The number of its link.
    pub number: u16,
}

/// The first item that is due at the management connections of an IPC process, and the end at which it is.
#[derive(Clone, Copy)]
pub struct NextLink {
    pub item: Item,
    pub turn: LinkTurn,
}

/// Whether a link is live, and the one of an attachment.
#[tactic(auto, unfolding(crate::specs::LinkDue::is_link_of))]
fn is_link_of(link: &Link, attached: Attachment) -> bool
    ensures { result ≡ is_link_of attached link.now }
{
    link.live && link.number == attached.number && link.port == attached.port
}

/// Whether the link of an attachment is one of these, and live.
fn has_link_of(links: &[Link], attached: Attachment) -> bool
    ensures { result ≡ list_any (is_link_of attached) links.now }
{
    links.iter().any(|link| is_link_of(link, attached))
}

/// Of two links the one of the lesser number.
fn lesser(first: Option<LinkTurn>, other: LinkTurn) -> LinkTurn
    ensures { result ≡ lesser_link first other }
{
    match first {
        Some(first) if first.number <= other.number => first,
        _ => other,
    }
}

impl Dif {
    /// The number of the link at whose management connection, by the place of its end, an item is due, where that end is
    /// allocated and the link a live one of the IPC process at a place. None exactly where it is not due there.
    fn link_due_at(&self, at: usize, place: usize, item: Item) -> Option<u16>
        ensures { (below : Seen) (links : LinksStand self.now below) → TellsLinkDue item self.now links.lines at place result }
    {
        let flows = &self.connections.flows;
        let channel = self.connections.channels.as_slice().get(place)?;
        let end = flows.journal.ends.get(place)?;
        let process = self.processes.get(at)?;
        let attached = channel.link?;
        if !matches!(end.state, PortState::Allocated) || channel.member != at {
            return None;
        }
        if !has_link_of(process.links.as_slice(), attached) || place >= flows.conns.len() {
            return None;
        }
        if !flows.is_due(self.clock, place, item) {
            return None;
        }
        Some(attached.number)
    }

    /// Of the links of the IPC process at a place at whose management connections an item is due, the one of the least number.
    /// None exactly where it is due at none.
    fn first_of_all_links(&self, at: usize, item: Item) -> Option<LinkTurn>
        ensures { (below : Seen) (links : LinksStand self.now below) → FindsFirstLink item self.now links.lines at result }
    {
        let mut first = None;
        for place in 0..self.connections.flows.conns.len() {
            if let Some(number) = self.link_due_at(at, place, item) {
                first = Some(lesser(first, LinkTurn { place, number }));
            }
        }
        first
    }

    /// The same, where nothing is due beside these places.
    fn first_link_among(&self, places: &[usize], at: usize, item: Item) -> Option<LinkTurn>
        requires { NoneDueBeside self.now.clock places.now self.now.connections.flows }
        ensures { (below : Seen) (links : LinksStand self.now below) → FindsFirstLink item self.now links.lines at result }
    {
        let mut first = None;
        for n in 0..places.len() {
            let place = places[n];
            if let Some(number) = self.link_due_at(at, place, item) {
                first = Some(lesser(first, LinkTurn { place, number }));
            }
        }
        first
    }

    /// Of the links of the IPC process at a place at whose management connections an item is due, the one of the least number.
    /// None exactly where it is due at none. Connections at which nothing is due soon are not looked at.
    fn first_link_due(&self, at: usize, item: Item) -> Option<LinkTurn>
        ensures { (below : Seen) (links : LinksStand self.now below) → FindsFirstLink item self.now links.lines at result }
    {
        match self.connections.flows.watched(self.clock) {
            Some(places) => self.first_link_among(places, at, item),
            None => self.first_of_all_links(at, item),
        }
    }

    /// Whether no item is due at the management connection of the end of a place.
    fn is_link_quiet(&self, place: usize) -> bool
        ensures { IsTrue result → (item : Item) (at : ℕ) (below : Seen) (links : LinksStand self.now below) → TellsLinkDue item self.now links.lines at place None }
    {
        let flows = &self.connections.flows;
        if place >= flows.conns.len() {
            return true;
        }
        let now = self.clock;
        if flows.is_due(now, place, Item::Gone)
            || flows.is_due(now, place, Item::GiveUp)
            || flows.is_due(now, place, Item::Ack)
            || flows.is_due(now, place, Item::Again)
        {
            return false;
        }
        true
    }

    /// Whether nothing is due at any management connection, where nothing is due beside these places.
    fn are_links_quiet_at(&self, places: &[usize]) -> bool
        requires { NoneDueBeside self.now.clock places.now self.now.connections.flows }
        ensures { IsTrue result → (at : ℕ) (below : Seen) (links : LinksStand self.now below) → NoLinkUpTo Again self.now links.lines at }
    {
        for n in 0..places.len() {
            if !self.is_link_quiet(places[n]) {
                return false;
            }
        }
        true
    }

    /// Whether nothing is due at any management connection. False also where that is not known without a look at all of them.
    fn are_links_quiet(&self) -> bool
        ensures { IsTrue result → (at : ℕ) (below : Seen) (links : LinksStand self.now below) → NoLinkUpTo Again self.now links.lines at }
    {
        match self.connections.flows.watched(self.clock) {
            Some(places) => self.are_links_quiet_at(places),
            None => false,
        }
    }

    /// The first item that is due at the management connections of the links of the IPC process at a place. None exactly where
    /// none is.
    pub(crate) fn next_link_due(&self, at: usize) -> Option<NextLink>
        ensures { (below : Seen) (links : LinksStand self.now below) → FindsNextLink self.now links.lines at result }
    {
        if self.are_links_quiet() {
            return None;
        }
        if let Some(turn) = self.first_link_due(at, Item::Gone) {
            let item = Item::Gone;
            return Some(NextLink { item, turn });
        }
        if let Some(turn) = self.first_link_due(at, Item::GiveUp) {
            let item = Item::GiveUp;
            return Some(NextLink { item, turn });
        }
        if let Some(turn) = self.first_link_due(at, Item::Ack) {
            let item = Item::Ack;
            return Some(NextLink { item, turn });
        }
        if let Some(turn) = self.first_link_due(at, Item::Again) {
            let item = Item::Again;
            return Some(NextLink { item, turn });
        }
        None
    }
}
