//! The asks for flows that wait for their answers.
ghost use Rattle.std.specs.Prelude.{◌≡◌, ◌<◌, ◌≤◌, ◌+◌, ◌↔◌, ◌==◌, List, IsTrue, IfSome, Some, length, position, slice_get};
ghost use Rattle.rina_dif.specs.declared.waiting_asks.WaitingAsk.{WaitingAsk};
ghost use Rattle.rina_data.specs.Configs.{config_of};
ghost use Rattle.rina_dif_law.specs.Sending.{home};
ghost use Rattle.rina_iface.specs.declared.ends.End.{End};
ghost use Rattle.rina_iface.specs.declared.state.PortState.TheVariants.{Pending, Refused};
ghost use Rattle.rina_iface.specs.Seen.{Seen};
ghost use Rattle.rina_law.specs.Direction.{Direction};
ghost use Rattle.rina_dif.specs.Elsewhere.{ChangesOnly, IsOfPort, home_of};
ghost use Rattle.rina_dif.specs.Holding.{Holds};
ghost use Rattle.rina_dif.specs.WaitingAsks.{FindsLate, HasWaited, IsFirstLate, NoneLateUntil, TimesOut, TurnsDown, without_ask};
ghost use Rattle.rina_dif.specs.Whole.{IsDif};

use crate::dif::Dif;
use rina_base::{Node, Port, Tick};
use rina_iface::{PortState, Why};

/// An ask for a flow that waits for its answer. It counts only while its end is pending.
#[derive(Clone, Copy)]
pub struct WaitingAsk {
    /// The place of the member that asked.
    pub member: usize,
    /// The invoke id of its request.
    pub invoke: u32,
    /// The place of the asker's end.
    pub place: usize,
}

/// Where the ask of the end at a place stands. None exactly where it does not wait.
fn asked_by(asks: &[WaitingAsk], place: usize) -> Option<usize>
    ensures at { result ≡ position (λ (a : WaitingAsk). a.place == place) asks.now }
    ensures within { IfSome result (λ i. i < length asks.now) }
{
    asks.iter().position(|ask| ask.place == place)
}

impl Dif {
    /// The ask of the end at a place waits no more. Takes no memory.
    pub(crate) fn remove_ask(&mut self, place: usize)
        ensures asks { self.new.asks.items ≡ without_ask place self.old.asks.items }
        ensures whole { self.new ≡ record self.old { asks = self.new.asks } }
    {
        if let Some(which) = asked_by(self.asks.as_slice(), place) {
            let _ask = self.asks.remove(which);
        }
    }

    /// The tick at which an ask has waited for its whole time, up to the greatest tick. That one where its end is not pending.
    fn waits_until(&self, ask: WaitingAsk) -> Tick
        ensures { (end : End) → slice_get self.now.flows.journal.ends ask.place ≡ Some end → end.state ≡ Pending → result ≤ end.flow.tick + self.now.laid.wait }
    {
        match self.flows.journal.ends.get(ask.place) {
            Some(end) => match end.state {
                PortState::Pending => end.flow.tick.saturating_add(self.laid.wait),
                _ => Tick::MAX,
            },
            None => Tick::MAX,
        }
    }

    /// A tick before which no ask is late. Takes no memory.
    pub(crate) fn asks_wait_until(&self) -> Tick
        ensures { NoneLateUntil result self.now }
    {
        let mut until = Tick::MAX;
        for which in 0..self.asks.len() {
            until = until.min(self.waits_until(self.asks[which]));
        }
        until
    }

    /// Whether an ask waits at the member at a place, which is at a node, since as many ticks as an asker waits, or more.
    fn has_waited(&self, ask: WaitingAsk, at: usize, node: Node) -> bool
        requires home { home node (config_of self.now.settings).members ≡ Some at }
        requires clock { self.now.clock ≤ 10_000_000 }
        ensures { IsTrue result ↔ HasWaited self.now node ask }
    {
        let Some(end) = self.flows.journal.ends.get(ask.place) else {
            return false;
        };
        if ask.member != at || end.port.node != node {
            return false;
        }
        match end.state {
            PortState::Pending => end.flow.tick.saturating_add(self.laid.wait) <= self.clock,
            _ => false,
        }
    }

    /// Where the first ask stands that is late at the member at a place, which is at a node. None exactly where none is. Takes no memory.
    pub(crate) fn late_ask(&self, at: usize, node: Node) -> Option<usize>
        requires home { home node (config_of self.now.settings).members ≡ Some at }
        requires clock { self.now.clock ≤ 10_000_000 }
        ensures { FindsLate self.now node result }
    {
        for which in 0..self.asks.len() {
            if self.has_waited(self.asks[which], at, node) {
                return Some(which);
            }
        }
        None
    }

    /// Refuses the end at a place of the member at a place, which waited: its CEP-id rests from now on. Takes no memory.
    pub(crate) fn refuse_at(&mut self, home: usize, place: usize, why: Why)
        requires valid { IsDif self.old }
        requires home { home < length self.old.settings.members }
        requires place { place < length self.old.flows.journal.ends }
        requires end { (e : End) → slice_get self.old.flows.journal.ends place ≡ Some e → (e.state ≡ Pending) × (home_of self.old e.port.node ≡ Some home) }
        ensures does { (lines : List Direction) (below : Seen) → Holds self.old lines below → TurnsDown self.old place (Refused why) self.new × Holds self.new lines below }
        ensures whole { self.new ≡ record self.old { flows = self.new.flows; ids = self.new.ids } }
        ensures leaves { ChangesOnly (λ i. i ≡ place) (Some home) self.old self.new }
    {
        let rest = self.rest_at(place);
        self.flows
            .journal
            .ends
            .set_state(place, PortState::Refused(why));
        self.ids.give_back(home, self.clock, rest.cep, rest.ticks);
    }

    /// Refuses the end of the ask that stands here, the first that is late at the member at a place, which is at a node, and answers its
    /// port. The ask waits no more. Takes no memory.
    pub(crate) fn time_out(&mut self, at: usize, node: Node, which: usize) -> Port
        requires valid { IsDif self.old }
        requires at { at < length self.old.settings.members }
        requires home { home node (config_of self.old.settings).members ≡ Some at }
        requires first { IsFirstLate self.old node which }
        ensures does { (lines : List Direction) (below : Seen) → Holds self.old lines below → TimesOut self.old node result self.new × Holds self.new lines below }
        ensures whole { self.new ≡ record self.old { flows = self.new.flows; ids = self.new.ids; asks = self.new.asks } }
        ensures leaves { ChangesOnly (IsOfPort self.old (Some at) result) (Some at) self.old self.new }
    {
        let ask = self.asks.remove(which);
        let Some(end) = self.flows.journal.ends.get(ask.place) else {
            unreachable!()
        };
        let (port, asked) = (end.port, end.flow.tick);
        let now = self.clock;
        self.refuse_at(at, ask.place, Why::Timeout { asked, now });
        port
    }
}
