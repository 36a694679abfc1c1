//! The clock of a connection: what is due, item by item, and what each item does.
ghost use Rattle.std.specs.Prelude.{◌≡◌, ◌≤◌, ◌+◌, ◌-◌, ◌^◌, true, min, option_copied, option_map};
ghost use Rattle.std.specs.Borrow.{sem};
ghost use Rattle.rina_dtcp.specs.Plans.{without};
ghost use Rattle.rina_conn.specs.Clock.{IsClockDue, AnswersGone, AnswersGaveUp, AnswersAck, AnswersAgain, IsAfter, LendsDue, TellsAck, ack_of, plan_is_due, first_open};
ghost use Rattle.rina_conn.specs.Conns.{IsGone};
ghost use Rattle.rina_conn.specs.Quiet.{IsDueFrom, IsQuietUntil, PlansFrom, PlansNoneUntil};
ghost use Rattle.rina_conn.specs.Sending as send;

use super::{Conn, ConnDue, DueAck};
use rina_base::{Pdu, Tick};
use rina_cube::Kind;
use rina_dtcp::{Credit, GaveUp};

impl Conn {
    /// Does one item of a clock step, and answers Idle exactly where it is not due; then nothing changes. Item 3:
    /// pieces are held of a receiver's state that has ended, which `dropped` gives (`is_gone`). Item 4: a number is
    /// given up (`gave_up`). Item 6: an acknowledgement is made (`ack_due`, `acknowledged`). Item 7: a number is sent
    /// again (`again_due`, `sent_again`). No other item is ever due. Takes no memory.
    pub fn on_clock(&mut self, now: Tick, item: u8) -> ConnDue<'_>
        requires { now ≤ 10000000 }
        ensures* rest { sem 𝓛 (LendsDue now self.entry result) }
        ensures due { IsClockDue now item self.old result }
    {
        match item {
            3 => self.end_state(now),
            4 => self.give_up(now),
            6 => self.acknowledge(now),
            7 => self.send_again(now),
            _ => ConnDue::Idle,
        }
    }

    fn end_state(&self, now: Tick) -> ConnDue<'static>
        ensures { AnswersGone now self.now result }
    {
        if self.is_gone(now) {
            ConnDue::Gone
        } else {
            ConnDue::Idle
        }
    }

    fn give_up(&self, now: Tick) -> ConnDue<'static>
        ensures { AnswersGaveUp now self.now result }
    {
        match self.gave_up(now) {
            Some(told) => ConnDue::GaveUp(told),
            None => ConnDue::Idle,
        }
    }

    fn acknowledge(&mut self, now: Tick) -> ConnDue<'static>
        ensures due { AnswersAck now self.old result }
        ensures after { IsAfter now self.old result self.new }
    {
        let Some(due) = self.ack_due(now) else {
            return ConnDue::Idle;
        };
        self.acknowledged();
        ConnDue::Ack {
            ack: due.ack,
            right: due.right,
        }
    }

    fn send_again(&mut self, now: Tick) -> ConnDue<'_>
        requires { now ≤ 10000000 }
        ensures* rest { sem 𝓛 (LendsDue now self.entry result) }
        ensures due { AnswersAgain now self.old result }
    {
        match self.sending.again(now) {
            Some(pdu) => ConnDue::Again(pdu),
            None => ConnDue::Idle,
        }
    }

    /// Whether pieces are held of a receiver's state that has ended; nothing changes. Takes no memory.
    pub fn is_gone(&self, now: Tick) -> bool
        ensures { IsGone now self.now result }
    {
        !self.rx.present(now) && self.rx.has_dropped(now)
    }

    /// The number that is given up now; nothing changes. Takes no memory.
    pub fn gave_up(&self, now: Tick) -> Option<GaveUp>
        ensures { send.TellsGivenUp now self.now.sending result }
    {
        self.sending.gave_up(now)
    }

    /// The acknowledgement that is due now; nothing changes. Takes no memory.
    pub fn ack_due(&self, now: Tick) -> Option<DueAck>
        ensures { TellsAck now self.now (option_map ack_of result) }
    {
        let next = self.rx.next(now)?;
        if !self.is_ack_due(now) {
            return None;
        }
        Some(DueAck {
            ack: next.saturating_sub(1) as u32,
            right: self.right(next),
        })
    }

    /// Notes that the acknowledgement that is due was made: none is planned any more. Takes no memory.
    pub fn acknowledged(&mut self)
        ensures { self.new ≡ record self.old { plan = without self.old.plan } }
    {
        self.plan.forget();
    }

    /// Whether an acknowledgement is made now, where the receiver has state.
    fn is_ack_due(&self, now: Tick) -> bool
        ensures { result ≡ plan_is_due now self.now }
    {
        match (self.sending.form.cube.kind, self.rx.last_in()) {
            (Kind::Reliable, Some(last_in)) => self.plan.is_due(now, last_in),
            _ => false,
        }
    }

    /// The first number that the application has still to take, where `next` is the one after all that were
    /// accepted.
    fn first_open(&self, next: u64) -> u64
        ensures { result ≡ first_open next self.now }
    {
        match (self.waiting.first(), self.rx.joining()) {
            (Some(first), _) => u64::from(first),
            (None, Some(from)) => u64::from(from),
            (None, None) => next,
        }
    }

    /// The greatest number that may be sent.
    fn right(&self, next: u64) -> u32
        ensures { result ≡ min (first_open next self.now + self.now.sending.form.cube.window - 1) self.now.sending.numbers.max }
    {
        let credit = Credit::new(self.sending.form.cube.window);
        credit.right(self.first_open(next), self.sending.numbers.max)
    }

    /// The PDU that is sent again now; nothing changes. Takes no memory.
    pub fn again_due(&self, now: Tick) -> Option<&Pdu>
        ensures { send.TellsAgain now self.now.sending (option_copied result) }
    {
        self.sending.again_due(now)
    }

    /// Notes that the number that is due was sent again, where one is. Takes no memory.
    pub fn sent_again(&mut self, now: Tick)
        requires { now ≤ 10000000 }
        ensures sends { send.SendsAgain now self.old.sending self.new.sending }
        ensures same { self.new ≡ record self.old { sending = self.new.sending } }
    {
        let _ = self.sending.again(now);
    }

    /// The tick at which an acknowledgement may be due first; the greatest u32 where none is planned.
    fn plans_none_until(&self) -> Tick
        ensures before { PlansNoneUntil result self.now }
        ensures from { PlansFrom result self.now }
    {
        match self.sending.form.cube.kind {
            Kind::Reliable => self.plan.still_until(),
            Kind::Datagram | Kind::Loose => Tick::MAX,
        }
    }

    /// The first tick at which something is due, as long as no call changes the connection: a number is given up or sent
    /// again, the mark of an acknowledgement comes, or pieces are kept of a state that has ended. The greatest u32 where the
    /// connection is closed, and where nothing waits for the clock. Takes no memory.
    pub fn quiet_until(&self) -> Tick
        ensures before { IsQuietUntil result self.now }
        ensures from { IsDueFrom result self.now }
        ensures closed { self.now.rx.closed ≡ true → result ≡ 2 ^ 32 - 1 }
    {
        if self.rx.is_closed() {
            return Tick::MAX;
        }
        let sends = self.sending.sends_none_until();
        let plans = self.plans_none_until();
        let keeps = self.rx.keeps_none_until();
        sends.min(plans).min(keeps)
    }
}
