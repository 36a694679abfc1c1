//! What a member does with an answer to one of its asks for flows.
ghost use Rattle.std.specs.Prelude.{◌≡◌, ◌<◌, ◌↔◌, IfSome, IsTrue, List, OnErr, OnOk, Some, length};
ghost use Rattle.rina_alloc.specs.Messages.{IsProper};
ghost use Rattle.rina_iface.specs.Seen.{Seen};
ghost use Rattle.rina_law.specs.Direction.{Direction};
ghost use Rattle.rina_dif.specs.Elsewhere.{ChangesOnly, IsEndHere};
ghost use Rattle.rina_dif.specs.AnswersIn.{FindsAsk, IsAskOf, RefusesAsk, SaysBack, TakesAnswer, TakesYes, given_back, why_of};
ghost use Rattle.rina_dif.specs.FlowAnswers.{WaitsAtHome};
ghost use Rattle.rina_dif.specs.Holding.{Holds};
ghost use Rattle.rina_dif.specs.Whole.{IsDif};

use crate::dif::Dif;
use crate::waiting_asks::WaitingAsk;
use rina_alloc::{FlowAnswer, FlowMessage, FlowWord};
use rina_base::{Addr, Cep, Memory};
use rina_iface::Why;
use std::alloc::Global;

/// Why an answer refuses an ask. None exactly at yes.
fn why_of(answer: FlowAnswer) -> Option<Why>
    ensures { result ≡ why_of answer }
{
    match answer {
        FlowAnswer::Yes { .. } => None,
        FlowAnswer::Denied { rule } => Some(Why::Denied { rule }),
        FlowAnswer::NotHere => Some(Why::NotHere),
        FlowAnswer::NoIds { used } => Some(Why::NoIds { used }),
    }
}

/// What is said to the far end of a yes for which nobody waits. None at any other answer.
fn given_back(answer: FlowAnswer) -> Option<FlowWord>
    ensures word { result ≡ given_back answer }
    ensures proper { IfSome result IsProper }
{
    match answer {
        FlowAnswer::Yes { dcep, scep } => Some(FlowWord::Delete { dcep, scep }),
        _ => None,
    }
}

impl Dif {
    /// Whether an ask is one of the member at a place, with this invoke id, and waits.
    fn is_ask_of(&self, ask: WaitingAsk, at: usize, invoke: u32) -> bool
        ensures { IsTrue result ↔ IsAskOf self.now at invoke ask }
    {
        if ask.member != at || ask.invoke != invoke {
            return false;
        }
        self.waits_at_home(at, ask.place)
    }

    /// Where the first ask of the member at a place stands that has this invoke id and waits. None exactly where none does.
    fn ask_of(&self, at: usize, invoke: u32) -> Option<usize>
        ensures { FindsAsk self.now at invoke result }
    {
        for which in 0..self.asks.len() {
            if self.is_ask_of(self.asks[which], at, invoke) {
                return Some(which);
            }
        }
        None
    }

    /// Lets the member at a place refuse the end of its ask that stands here. Takes no memory.
    fn refuse_ask(&mut self, at: usize, which: usize, place: usize, why: Why)
        requires valid { IsDif self.old }
        requires at { at < length self.old.settings.members }
        requires which { which < length self.old.asks.items }
        requires waits { WaitsAtHome self.old at place }
        ensures does { (lines : List Direction) (below : Seen) → Holds self.old lines below → RefusesAsk self.old lines below which place why self.new }
        ensures whole { self.new ≡ record self.old { flows = self.new.flows; ids = self.new.ids; asks = self.new.asks } }
        ensures leaves { ChangesOnly (IsEndHere self.old (Some at)) (Some at) self.old self.new }
    {
        self.refuse_at(at, place, why);
        let _ask = self.asks.remove(which);
    }

    /// Lets the member at a place take the yes of the member of an address to its ask that stands here: its end is allocated, where the far end
    /// stands, and refused with `NotHere` where it does not. Without memory the DIF shows what it showed.
    fn take_yes(
        &mut self,
        alloc: Global,
        at: usize,
        which: usize,
        place: usize,
        from: Addr,
        dcep: Cep,
    ) -> Result<(), Memory>
        requires valid { IsDif self.old }
        requires at { at < length self.old.settings.members }
        requires which { which < length self.old.asks.items }
        requires waits { WaitsAtHome self.old at place }
        ensures does { (lines : List Direction) (below : Seen) → Holds self.old lines below → TakesYes self.old lines below at from dcep which place result self.new }
        ensures whole { self.new ≡ record self.old { flows = self.new.flows; ids = self.new.ids; asks = self.new.asks; managements = self.new.managements } }
        ensures leaves { ChangesOnly (IsEndHere self.old (Some at)) (Some at) self.old self.new }
    {
        let Some(end) = self.flows.journal.ends.get(place) else {
            unreachable!()
        };
        let flow = end.flow;
        let Some(far_at) = self.far_end_of(flow, from, dcep) else {
            self.refuse_ask(at, which, place, Why::NotHere);
            return Ok(());
        };
        self.bind_at(alloc, at, place, far_at)?;
        let _ask = self.asks.remove(which);
        Ok(())
    }

    /// Lets the member at a place handle an answer of the member of an address for which nothing waits: at yes the flow is given up, with the
    /// CEP-ids of the answer. Without memory nothing changes.
    fn turn_away(
        &mut self,
        alloc: Global,
        at: usize,
        from: Addr,
        answer: FlowAnswer,
    ) -> Result<(), Memory>
        requires valid { IsDif self.old }
        requires at { at < length self.old.settings.members }
        ensures ok { OnOk result (SaysBack (given_back answer) self.old at from self.new) }
        ensures err { OnErr result (self.new ≡ self.old) }
        ensures holds { (lines : List Direction) (below : Seen) → Holds self.old lines below → Holds self.new lines below }
        ensures whole { self.new ≡ record self.old { managements = self.new.managements } }
    {
        let Some(word) = given_back(answer) else {
            return Ok(());
        };
        let message = FlowMessage {
            to: from,
            from: self.address_at(at),
            word,
        };
        self.send_message(alloc, at, message)
    }

    /// Lets the member at a place handle the answer to its ask with an invoke id, which came from the member of an address. Without memory
    /// the DIF shows what it showed, and the ask waits on.
    pub(crate) fn take_answer(
        &mut self,
        alloc: Global,
        at: usize,
        from: Addr,
        invoke: u32,
        answer: FlowAnswer,
    ) -> Result<(), Memory>
        requires valid { IsDif self.old }
        requires at { at < length self.old.settings.members }
        ensures does { (lines : List Direction) (below : Seen) → Holds self.old lines below → TakesAnswer self.old lines below at from invoke answer result self.new }
        ensures whole { self.new ≡ record self.old { flows = self.new.flows; ids = self.new.ids; asks = self.new.asks; managements = self.new.managements } }
        ensures leaves { ChangesOnly (IsEndHere self.old (Some at)) (Some at) self.old self.new }
    {
        let Some(which) = self.ask_of(at, invoke) else {
            return self.turn_away(alloc, at, from, answer);
        };
        let place = self.asks[which].place;
        if let Some(why) = why_of(answer) {
            self.refuse_ask(at, which, place, why);
            return Ok(());
        }
        self.take_yes(alloc, at, which, place, from, answer.dcep())
    }
}
