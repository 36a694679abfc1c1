//! How the members of a DIF pass messages about flows on, hop by hop, and handle those that are for them.
ghost use Rattle.std.specs.Prelude.{◌≡◌, ◌<◌, ◌≤◌, [], ◌∷◌, IfOk, List, OnErr, OnOk, Some, length, slice_get};
ghost use Rattle.rina_alloc.specs.Messages.{IsAskInRange, IsInRange, IsProper, IsWordInRange};
ghost use Rattle.rina_base.specs.Pdus.{pdu_of};
ghost use Rattle.rina_data.specs.declared.settings.Member.{Member};
ghost use Rattle.rina_data.specs.Hops.{hop_of};
ghost use Rattle.rina_iface.specs.declared.ends.End.{End};
ghost use Rattle.rina_iface.specs.Journal.{At};
ghost use Rattle.rina_iface.specs.Seen.{Seen};
ghost use Rattle.rina_law.specs.Direction.{Direction};
ghost use Rattle.rina_dif.specs.Elsewhere.{ChangesOnly, IsEndHere};
ghost use Rattle.rina_dif.specs.Flooding.{texts_of};
ghost use Rattle.rina_dif.specs.FlowMessages.{AddsFlowMessages, BringsMessages, ChangesFlowParts, IsReadAs, TakesFlow, TakesFlows, TakesWord};
ghost use Rattle.rina_dif.specs.Holding.{Holds};
ghost use Rattle.rina_dif.specs.Posting.{posts};
ghost use Rattle.rina_dif.specs.Taking.{BringsFlows};
ghost use Rattle.rina_dif.specs.Whole.{IsDif};

use crate::dif::Dif;
use crate::in_step::Came;
use rina_alloc::{FlowAsk, FlowMessage, FlowWord, read};
use rina_base::{Addr, Bytes, Memory, PduView, Port};
use rina_law::Entry;
use std::alloc::Global;

/// The names in an ask are names of applications.
fn has_proper_names(word: &FlowWord)
    ensures { IsProper word.now }
{
    if let FlowWord::Ask { ask, .. } = word {
        let _ = (ask.destination.len(), ask.source.len());
    }
}

/// The numbers of an ask are those of their types. Does nothing.
fn ask_in_range(ask: &FlowAsk)
    ensures { IsAskInRange ask.now }
{
    let _src = ask.flow.src;
    let _tick = ask.flow.tick;
    let _count = ask.flow.count;
    let _cube = ask.cube;
    let _scep = ask.scep;
}

/// The numbers of what a message says are those of their types. Does nothing.
fn word_in_range(word: &FlowWord)
    ensures { IsWordInRange word.now }
{
    match word {
        FlowWord::Ask { invoke, ask } => {
            let _invoke = *invoke;
            ask_in_range(ask);
        }
        FlowWord::Answer { invoke, answer } => {
            let _numbers = (*invoke, answer.dcep(), answer.number());
        }
        FlowWord::Delete { dcep, scep } => {
            let _numbers = (*dcep, *scep);
        }
    }
}

/// The numbers of a message are those of their types. Does nothing.
fn in_range(message: &FlowMessage)
    ensures { IsInRange message.now }
{
    let _to = message.to;
    let _from = message.from;
    word_in_range(&message.word);
}

/// The message about a flow that bytes are. None exactly where they are none.
fn read_message(alloc: Global, bytes: &[u8]) -> Result<Option<FlowMessage>, Memory>
    ensures { IfOk result (IsReadAs bytes.now) }
{
    let Some(message) = read(alloc, bytes)? else {
        return Ok(None);
    };
    in_range(&message);
    has_proper_names(&message.word);
    Ok(Some(message))
}

/// Adds the message about a flow that an SDU is, where it is one.
fn add_message(alloc: Global, messages: &mut Vec<FlowMessage>, sdu: &[u8]) -> Result<(), Memory>
    ensures { OnOk result (AddsFlowMessages (sdu.now ∷ []) messages.old.items messages.new.items) }
{
    let Some(message) = read_message(alloc, sdu)? else {
        return Ok(());
    };
    match messages.push(message) {
        Ok(()) => Ok(()),
        Err(_) => Err(Memory),
    }
}

/// Adds the messages about flows among SDUs that came.
fn add_came(alloc: Global, messages: &mut Vec<FlowMessage>, came: &[Entry]) -> Result<(), Memory>
    ensures { OnOk result (AddsFlowMessages (texts_of came.now) messages.old.items messages.new.items) }
{
    for entry in came {
        add_message(alloc, messages, entry.bytes.as_slice())?;
    }
    Ok(())
}

/// Adds the messages about flows among SDUs with these bytes.
fn add_bodies(
    alloc: Global,
    messages: &mut Vec<FlowMessage>,
    bodies: &[Bytes],
) -> Result<(), Memory>
    ensures { OnOk result (AddsFlowMessages bodies.now messages.old.items messages.new.items) }
{
    for body in bodies {
        add_message(alloc, messages, body.as_slice())?;
    }
    Ok(())
}

impl Dif {
    /// The messages about flows among the SDUs that came to the end of a link at a place and are not passed, and then among those that a
    /// piece would make whole there. The piece is not taken.
    fn messages_ahead(
        &self,
        alloc: Global,
        place: usize,
        pdu: &PduView<'_>,
    ) -> Result<Vec<FlowMessage>, Memory>
        requires clock { self.now.clock ≤ 10_000_000 }
        requires place { place < length self.now.connections.flows.journal.ends }
        requires conn { place < length self.now.connections.flows.conns }
        requires taken { (end : End) → At self.now.connections.flows.journal.ends place end → end.taken ≤ length end.got }
        ensures { IfOk result (λ ms. BringsMessages self.now place (pdu_of pdu.now) ms.items) }
    {
        let Some(end) = self.connections.flows.journal.ends.get(place) else {
            unreachable!()
        };
        let bodies = self.bodies_ahead(alloc, place, pdu)?;
        let mut messages = Vec::new(alloc);
        let came = &end.got.as_slice()[end.taken as usize..];
        add_came(alloc, &mut messages, came)?;
        add_bodies(alloc, &mut messages, bodies.as_slice())?;
        Ok(messages)
    }

    /// The messages about flows that a PDU makes whole, which came on a link with a port below. None are where no end of the link takes the
    /// PDU as a piece. The PDU is not taken.
    pub(crate) fn flow_messages_ahead(
        &self,
        alloc: Global,
        port: Port,
        came: &Came<'_>,
    ) -> Result<Vec<FlowMessage>, Memory>
        requires valid { IsDif self.now }
        ensures { IfOk result (λ ms. BringsFlows self.now came.now.since port (hop_of came.now.hop) ms.items) }
    {
        match self.piece_taker(port, came) {
            Some((place, pdu)) => self.messages_ahead(alloc, place, &pdu),
            None => Ok(Vec::new(alloc)),
        }
    }

    /// The address of the member at a place.
    pub(crate) fn address_at(&self, at: usize) -> Addr
        requires { at < length self.now.settings.members }
        ensures { (m : Member) → slice_get self.now.settings.members at ≡ Some m → result ≡ m.addr }
    {
        let Some(member) = self.settings.members.get(at) else {
            unreachable!()
        };
        member.addr
    }

    /// Lets a message about a flow wait for the link of the member at a place on which the way to its address begins, behind what waits
    /// there. Where there is no way it is dropped. Without memory nothing changes.
    pub(crate) fn send_message(
        &mut self,
        alloc: Global,
        at: usize,
        message: FlowMessage,
    ) -> Result<(), Memory>
        requires valid { IsDif self.old }
        requires at { at < length self.old.settings.members }
        requires proper { IsProper message.word }
        ensures ok { OnOk result (self.new ≡ record self.old { managements = posts self.old at message self.old.managements }) }
        ensures err { OnErr result (self.new ≡ self.old) }
        ensures holds { (lines : List Direction) (below : Seen) → Holds self.old lines below → Holds self.new lines below }
    {
        match self.way_to(at, message.to) {
            Ok(link) => self.managements.put_message(alloc, at, link, message),
            Err(_) => Ok(()),
        }
    }

    /// Lets the member at a place handle a message about a flow that is for it, from the member of an address.
    fn take_own(
        &mut self,
        alloc: Global,
        at: usize,
        from: Addr,
        word: FlowWord,
    ) -> Result<(), Memory>
        requires valid { IsDif self.old }
        requires at { at < length self.old.settings.members }
        ensures does { (lines : List Direction) (below : Seen) → Holds self.old lines below → TakesWord self.old lines below at from word result self.new }
        ensures whole { ChangesFlowParts self.old self.new }
        ensures leaves { ChangesOnly (IsEndHere self.old (Some at)) (Some at) self.old self.new }
    {
        match word {
            FlowWord::Ask { invoke, ask } => self.answer_ask(alloc, at, from, invoke, &ask),
            FlowWord::Answer { invoke, answer } => {
                self.take_answer(alloc, at, from, invoke, answer)
            }
            FlowWord::Delete { dcep, scep } => self.take_delete(alloc, at, from, dcep, scep),
        }
    }

    /// Lets the member at a place handle a message about a flow: it passes the message on, where it is for another.
    fn take_message(&mut self, alloc: Global, at: usize, message: FlowMessage) -> Result<(), Memory>
        requires valid { IsDif self.old }
        requires at { at < length self.old.settings.members }
        ensures does { (lines : List Direction) (below : Seen) → Holds self.old lines below → TakesFlow self.old lines below at message result self.new }
        ensures whole { ChangesFlowParts self.old self.new }
        ensures leaves { ChangesOnly (IsEndHere self.old (Some at)) (Some at) self.old self.new }
    {
        if message.to != self.address_at(at) {
            has_proper_names(&message.word);
            return self.send_message(alloc, at, message);
        }
        let FlowMessage { from, word, .. } = message;
        self.take_own(alloc, at, from, word)
    }

    /// Lets the member at a place handle messages about flows, one after the other.
    pub(crate) fn take_messages(
        &mut self,
        alloc: Global,
        at: usize,
        messages: Vec<FlowMessage>,
    ) -> Result<(), Memory>
        requires valid { IsDif self.old }
        requires at { at < length self.old.settings.members }
        ensures does { (lines : List Direction) (below : Seen) → Holds self.old lines below → TakesFlows self.old lines below at messages.items result self.new }
        ensures whole { ChangesFlowParts self.old self.new }
        ensures leaves { ChangesOnly (IsEndHere self.old (Some at)) (Some at) self.old self.new }
    {
        for message in messages {
            self.take_message(alloc, at, message)?;
        }
        Ok(())
    }
}
