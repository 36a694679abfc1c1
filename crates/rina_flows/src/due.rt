//! What comes with time.
ghost use Rattle.std.specs.Prelude.{IfSome, ◌≡◌, ◌<◌, ◌≤◌, ◌↔◌, IsTrue, length, option_copied, option_map};
ghost use Rattle.rina_conn.specs.Clock.{TellsAck, ack_of};
ghost use Rattle.rina_conn.specs.Sending.{TellsAgain, TellsGivenUp};
ghost use Rattle.rina_flows.specs.Calls.{Tells};
ghost use Rattle.rina_flows.specs.Delivering.{HoldsGone};
ghost use Rattle.rina_flows.specs.Elsewhere.{ChangesAt};
ghost use Rattle.rina_flows.specs.Resting.{NoneDueUntil};
ghost use Rattle.rina_flows.specs.Timely.{AcknowledgesIn, DueIn, GivesUpIn, SendsAgainIn};
ghost use Rattle.rina_flows.specs.Watching.{NoneDueBeside};

use crate::flows::Flows;
use rina_account::Ledger;
use rina_base::{Memory, Num, Pdu, Tick};
use rina_conn::DueAck;
use rina_dtcp::GaveUp;
use rina_iface::{Fail, PortState};
use std::alloc::Global;

/// What may be due at the connection of an end.
#[derive(Clone, Copy, Debug, PartialEq, Eq)]
pub enum Item {
    /// Pieces are written off that are held of a state that has ended.
    Gone,
    /// A number is given up.
    GiveUp,
    /// An acknowledgement is made.
    Ack,
    /// A number is sent again.
    Again,
}

impl Flows {
    /// The number that the connection at a place gives up now.
    fn gave_up(&self, now: Tick, at: usize) -> Option<GaveUp>
        requires { at < length self.now.conns }
        ensures { Tells (λ k. TellsGivenUp now k.sending result) at self.now.conns }
    {
        self.conns.at(at).gave_up(now)
    }

    /// The acknowledgement that the connection at a place makes now. Takes no memory.
    pub fn ack_due(&self, now: Tick, at: usize) -> Option<DueAck>
        requires { at < length self.now.conns }
        ensures { Tells (λ k. TellsAck now k (option_map ack_of result)) at self.now.conns }
    {
        self.conns.at(at).ack_due(now)
    }

    /// The PDU that the connection at a place sends again now. Takes no memory.
    pub fn again_due(&self, now: Tick, at: usize) -> Option<&Pdu>
        requires { at < length self.now.conns }
        ensures { Tells (λ k. TellsAgain now k.sending (option_copied result)) at self.now.conns }
    {
        self.conns.at(at).again_due(now)
    }

    /// Whether the connection at a place holds pieces of a state that has ended.
    fn holds_gone(&self, now: Tick, at: usize) -> bool
        requires { at < length self.now.conns }
        ensures { Tells (λ k. IsTrue result ↔ HoldsGone now k) at self.now.conns }
    {
        let rx = &self.conns.at(at).rx;
        !rx.present(now) && rx.kept() > 0
    }

    /// Whether an item is due at the end of a place. Takes no memory.
    pub fn is_due(&self, now: Tick, at: usize, item: Item) -> bool
        requires { at < length self.now.conns }
        ensures { DueIn item now at self.now result }
    {
        match item {
            Item::Gone => self.holds_gone(now, at),
            Item::GiveUp => self.gave_up(now, at).is_some(),
            Item::Ack => self.ack_due(now, at).is_some(),
            Item::Again => self.again_due(now, at).is_some(),
        }
    }

    /// The places beside which no item is due at the end of any place at this tick. None where that is not known. Takes no
    /// memory.
    pub fn watched(&self, now: Tick) -> Option<&[usize]>
        ensures { IfSome result (λ places. NoneDueBeside now places.now self.now) }
    {
        self.conns.watched(now)
    }

    /// A tick before which no item is due at any end. It may have gone by. Takes no memory.
    pub fn quiet_until(&self) -> Tick
        ensures { NoneDueUntil result self.now }
    {
        self.conns.quiet_until()
    }

    /// Finds the ends at which something may be due at this tick, by their timers, so that `watched` can
    /// tell. Nothing changes.
    pub fn settle(&mut self, now: Tick)
        ensures { self.new ≡ self.old }
    {
        self.conns.settle(now);
    }

    /// Notes that the acknowledgement that is due at the connection of a place was made. Takes no memory.
    pub fn acknowledged(&mut self, at: usize)
        requires { at < length self.old.conns }
        ensures acknowledges { AcknowledgesIn at self.old self.new }
        ensures leaves { ChangesAt (λ i. i ≡ at) self.old self.new }
    {
        self.conns.acknowledged(at);
    }

    /// Notes that the number that is due at the connection of a place was sent again, at a tick of at most 10,000,000.
    /// Takes no memory.
    pub fn sent_again(&mut self, now: Tick, at: usize)
        requires now { now ≤ 10000000 }
        requires at { at < length self.old.conns }
        ensures sends { SendsAgainIn now at self.old self.new }
        ensures leaves { ChangesAt (λ i. i ≡ at) self.old self.new }
    {
        self.conns.sent_again(now, at);
    }

    /// Lets the end at a place fail where its connection gives a number up now, and writes off what the connection
    /// holds. Answers the number; None exactly where none is given up, and then nothing changes. Without memory nothing
    /// changes.
    pub fn give_up(
        &mut self,
        alloc: Global,
        now: Tick,
        at: usize,
        ledger: &mut Ledger,
    ) -> Result<Option<Num>, Memory>
        requires end { at < length self.old.journal.ends }
        requires conn { at < length self.old.conns }
        ensures gives_up { GivesUpIn now at self.old ledger.old result self.new ledger.new }
        ensures leaves { ChangesAt (λ i. i ≡ at) self.old self.new }
    {
        let Some(told) = self.gave_up(now, at) else {
            return Ok(None);
        };
        let fail = Fail::GaveUp {
            num: told.num,
            first: told.first,
            now: told.now,
        };
        self.stop(alloc, now, at, PortState::Failed(fail), ledger)?;
        Ok(Some(told.num))
    }
}
