//! The laws of the messages about flows of a DIF, each as the contract of a function that does nothing.
ghost use Rattle.rina_asked.specs.Alone.{AreAlone};
ghost use Rattle.rina_asked.specs.Ends.{HaveEnds};
ghost use Rattle.rina_asked.specs.Awaited.{AreAwaited};
ghost use Rattle.rina_asked.specs.Doing.{InDoes};
ghost use Rattle.rina_asked.specs.Finding.{InFinds, InFindsFar};
ghost use Rattle.rina_asked.specs.Late.{LateYesesGoBack, TimeOutsComeLate};
ghost use Rattle.rina_asked.specs.Single.{AreSingle};
ghost use Rattle.rina_asked.specs.Calls.{AllocateKeeps, AskersAreFound, AsksAreCounted, AsksAreOne, AsksFind, BindKeeps, CdapKeeps, ClockKeeps, EnrolKeeps, FreeAsksKeeps, FreeKeeps, InKeeps, IncomingKeeps, MessagesAreCounted, MessagesAreSingle, NewAre, OutKeeps, PassKeeps, RegisterKeeps, SendKeeps, TimeKeeps, UnregisterKeeps, YesesFind};

/// Of each ask among the messages of a DIF, those that wait at its members and those that are on its links, the asker's end
/// stands in the DIF's journal: it has the name, the applications and the cube of the ask, and its connection the addresses
/// and the CEP-id. Of each yes among them a far end stands, with the addresses and its CEP-id. So it is from the start, when
/// there are no messages. The look of a member that an ask comes to finds the asker's end, where the flow has no far end yet.
pub fn messages_have_their_ends()
    ensures start { NewAre HaveEnds }
    ensures found { AskersAreFound }
    ensures yes { YesesFind }
{}

/// Each call of a DIF keeps that, by what its contract says of it, until an allocation fails.
pub fn calls_keep_ends()
    ensures allocate { AllocateKeeps HaveEnds }
    ensures incoming { IncomingKeeps HaveEnds }
    ensures bind { BindKeeps HaveEnds }
    ensures send { SendKeeps HaveEnds }
    ensures pass { PassKeeps HaveEnds }
    ensures free { FreeKeeps HaveEnds }
    ensures register { RegisterKeeps HaveEnds }
    ensures unregister { UnregisterKeeps HaveEnds }
    ensures cdap { CdapKeeps HaveEnds }
    ensures enrol { EnrolKeeps HaveEnds }
{}

/// So does each step, and the clock that goes on. What is on its way is no matter of the rank below.
pub fn steps_keep_ends()
    ensures coming { InKeeps HaveEnds }
    ensures going { OutKeeps HaveEnds }
    ensures clock { ClockKeeps HaveEnds }
    ensures time { TimeKeeps HaveEnds }
{}

/// Of each flow the asks among the messages and the far ends are no more than the askers' ends, of which there is one. So one
/// ask at most is among the messages, and while it is, the flow has no far end, and the look finds the asker's end.
pub fn asks_are_alone()
    ensures start { NewAre AreAlone }
    ensures counted { AsksAreCounted }
    ensures one { AsksAreOne }
    ensures find { AsksFind }
{}

/// Each call of a DIF keeps that.
pub fn calls_keep_asks_alone()
    ensures allocate { AllocateKeeps AreAlone }
    ensures incoming { IncomingKeeps AreAlone }
    ensures bind { BindKeeps AreAlone }
    ensures send { SendKeeps AreAlone }
    ensures pass { PassKeeps AreAlone }
    ensures free { FreeKeeps AreAlone }
    ensures register { RegisterKeeps AreAlone }
    ensures unregister { UnregisterKeeps AreAlone }
    ensures cdap { CdapKeeps AreAlone }
    ensures enrol { EnrolKeeps AreAlone }
{}

/// So does each step, and the clock that goes on.
pub fn steps_keep_asks_alone()
    ensures coming { InKeeps AreAlone }
    ensures going { OutKeeps AreAlone }
    ensures clock { ClockKeeps AreAlone }
    ensures time { TimeKeeps AreAlone }
{}

/// Of each ask that a member made, told by the member's address and the invoke id that it drew, one message at most is among
/// the messages: the ask itself, or the answer to it. There is none of an invoke id that the member did not draw yet.
pub fn messages_are_single()
    ensures start { NewAre AreSingle }
    ensures counted { MessagesAreCounted }
    ensures single { MessagesAreSingle }
{}

/// Each call of a DIF keeps that.
pub fn calls_keep_messages_single()
    ensures allocate { AllocateKeeps AreSingle }
    ensures incoming { IncomingKeeps AreSingle }
    ensures bind { BindKeeps AreSingle }
    ensures send { SendKeeps AreSingle }
    ensures pass { PassKeeps AreSingle }
    ensures free { FreeKeeps AreSingle }
    ensures register { RegisterKeeps AreSingle }
    ensures unregister { UnregisterKeeps AreSingle }
    ensures cdap { CdapKeeps AreSingle }
    ensures enrol { EnrolKeeps AreSingle }
{}

/// So does each step, and the clock that goes on.
pub fn steps_keep_messages_single()
    ensures coming { InKeeps AreSingle }
    ensures going { OutKeeps AreSingle }
    ensures clock { ClockKeeps AreSingle }
    ensures time { TimeKeeps AreSingle }
{}

/// Of each ask for a flow that waits for its answer the end stands, and the messages with its invoke id are of this flow: where
/// it is among them the ask is for this flow, and a yes tells of the far end of this flow, which stands. Both have the CEP-id that
/// the member of the ask drew. So it is from the start, when none waits.
pub fn waiting_asks_have_their_messages()
    ensures start { NewAre AreAwaited }
{}

/// Each call of a DIF keeps that.
pub fn calls_keep_waiting_asks()
    ensures allocate { AllocateKeeps AreAwaited }
    ensures incoming { IncomingKeeps AreAwaited }
    ensures bind { BindKeeps AreAwaited }
    ensures send { SendKeeps AreAwaited }
    ensures pass { PassKeeps AreAwaited }
    ensures free { FreeAsksKeeps AreAwaited }
    ensures register { RegisterKeeps AreAwaited }
    ensures unregister { UnregisterKeeps AreAwaited }
    ensures cdap { CdapKeeps AreAwaited }
    ensures enrol { EnrolKeeps AreAwaited }
{}

/// So does each step, and the clock that goes on.
pub fn steps_keep_waiting_asks()
    ensures coming { InKeeps AreAwaited }
    ensures going { OutKeeps AreAwaited }
    ensures clock { ClockKeeps AreAwaited }
    ensures time { TimeKeeps AreAwaited }
{}

/// The look of a member that handles the messages about flows which an SDU brought finds the asker's end of each ask among
/// them, in the DIF as it is when its turn comes.
pub fn looks_find_askers()
    ensures { InFinds }
{}

/// Where a yes is among them, and an ask of its invoke id waits at the member, the look finds the far end that the yes tells of:
/// it is that of the flow that was asked for, and it stands. So the asker is not told that the application is not there.
pub fn looks_find_far_ends()
    ensures { InFindsFar }
{}

/// So none of these looks fails: where an ask comes to an enrolled member whose decision is yes, the far end is made; and where
/// a yes comes for which an ask waits, the end that asked is allocated. No answer says that the application is not there but
/// where the member that is asked decides so.
pub fn no_look_fails()
    ensures { InDoes }
{}

/// A clock step tells of a time-out only where the end of the port was pending and as many ticks have gone since the tick of its flow
/// as an ask of the DIF waits; the end is refused with these two ticks.
pub fn time_outs_come_late()
    ensures { TimeOutsComeLate }
{}

/// Where a yes comes for which no ask of its invoke id waits any more, the member posts a DELETE with its two CEP-ids to the sender, and
/// nothing else changes.
pub fn late_yeses_go_back()
    ensures { LateYesesGoBack }
{}
