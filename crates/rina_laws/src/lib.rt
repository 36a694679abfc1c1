//! The laws of whole runs, each the contract of a function that does nothing.
#![tactic(auto)]

ghost use Rattle.rina_laws.specs.Planned.{RoutesAsPlanned, StaysAsPlanned};
ghost use Rattle.rina_laws.specs.Cuts.{FailuresAreCuts};
ghost use Rattle.rina_laws.specs.Endings.{CausesAreOfOneStatus, GrammaticalRunsAreDone, RunsEndForTheirCause, UseIsBounded};
ghost use Rattle.rina_laws.specs.Frames.{FramesArriveOnce, GiveUpsEmptyOneWire};
ghost use Rattle.rina_laws.specs.Labels.{GotIsTold, SentIsTold};
ghost use Rattle.rina_laws.specs.Known.{AskedAreRegistered, EntriesAreRegistered, FarAreRegistered, KnownAreRegistered};
ghost use Rattle.rina_laws.specs.Messages.{AsksAreAlone, AsksAreAwaited, MessagesHaveEnds};
ghost use Rattle.rina_laws.specs.Named.{NamesAreRegistered};
ghost use Rattle.rina_laws.specs.SomeStep.{FarEndsAreAskedFor, LinesHaveCauses};
ghost use Rattle.rina_laws.specs.Starts.{DifsStartUntouched, WiresStartAsPlanned};
ghost use Rattle.rina_laws.specs.WireNames.{WireFlowsAreToNames, WireNamesAreRegistered};
ghost use Rattle.rina_laws.specs.WiresPlanned.{WiresDrawByFrames, WiresStayAsPlanned};

/// Before the first line of a run its wires are those of the stack, with their delays, none of them cut and no frame sent, but
/// for the flows that the stack fixes; and each IPC process of each rank did nothing yet: its links are live and numbered
/// from 0, its queues and its ledger are empty, and no request left objects.
pub fn a_run_starts_as_planned()
    ensures wires { WiresStartAsPlanned }
    ensures difs { DifsStartUntouched }
{}

/// After any run from its opening each wire joins the systems that the stack says, with the delay, the life, the largest SDU
/// and the storm that it says. So the delay after which a frame arrives (`a_frame_arrives_once`) is that of the stack. Its
/// storm has drawn from its seed for the frames that the wire accepted, one after the other, and nothing else has drawn: so
/// what becomes of frame k is what the seed says of it, whatever else the run did.
pub fn each_wire_stays_as_planned()
    ensures laid { WiresStayAsPlanned }
    ensures draws { WiresDrawByFrames }
{}

/// After any run from its opening each DIF of each rank is as its plan says: it has the settings of one of the DIFs of the
/// stack, which has this rank, and the links of that one. So a policy, a cube, a member or a link that the stack names
/// is the one that every step goes by, whatever lines were run.
pub fn each_dif_stays_as_planned()
    ensures { StaysAsPlanned }
{}

/// After any run from its opening each next hop of each IPC process is the first link of a least walk, ties by the smallest
/// neighbour and then the smallest link, over the links that it knows: its own live ones, and those that the stack says of
/// the other members.
pub fn next_hops_go_by_the_plan()
    ensures { RoutesAsPlanned }
{}

/// A frame that no event touched is delivered exactly once, at the tick at which its wire's delay has gone
/// by since it was sent, with its bytes; before that tick it is in flight. So it is without a storm; under a storm so it
/// is for each frame that the storm neither loses nor repeats, and it comes so many ticks later as the storm says.
///
/// A line touches a frame by `Touches`: a `lose`, `repeat` or `hold` of its wire that names it, a `cut` of its wire while it
/// is in flight, and a `free` of a port of the flow that the wire carries while it is in flight. A step of a DIF touches it
/// by `GivesUpOn` alone: a management connection of a DIF of rank 1 gives a number up, and so frees the flow that the wire
/// carries while the frame is in flight. No other step takes a frame away; in a run in which no management connection gives
/// up none does.
///
/// The law is of every stack, whatever ranks of DIFs stand on the wires: the frames are those of applications and of
/// DIFs alike.
pub fn a_frame_arrives_once()
    ensures { FramesArriveOnce }
{}

/// Where a management connection of a DIF of rank 1 gives a number up, the flow of one wire is freed. No copy of a frame stays in
/// flight on that wire. What its ends had sent and got stays, and no other wire changes, but that a far end that waited
/// on one may have been claimed. So a designer knows which frames such a step takes away: those of the wire that were in
/// flight, and no other one.
pub fn a_give_up_empties_one_wire()
    ensures { GiveUpsEmptyOneWire }
{}

/// An end of a wire that has failed did so by a line `cut` of that wire, whose `ok` stands among the notes of the run with
/// the tick of the failure. So no flow of a wire fails for free.
pub fn wires_fail_by_cuts()
    ensures { FailuresAreCuts }
{}

/// After any run from its opening, the end of each label, at whatever rank and those of the stack's
/// own flows included, sent exactly what the notes `sent` tell for the label, in order: each note's
/// tick and number, with the bytes of its line. What was passed of what the end got is exactly what
/// the notes `got` tell for the label.
pub fn labels_tell_their_ends()
    ensures sent { SentIsTold }
    ensures got { GotIsTold }
{}

/// After any run from its opening each line of each ledger was written in one of the steps of the run: a step of a round, a line
/// `in`, `out` or `clock`, or a line `free`. It was not in the ledger before that step and is there after it, and the condition
/// of its cause held of the DIF, and of the rank below, as they were before the step.
pub fn each_line_has_its_cause()
    ensures { LinesHaveCauses }
{}

/// After any run from its opening each name that stands registered at a node of a DIF of any rank was registered by a line
/// `register` of the schedule, for that application at that node of that DIF, whose `ok` stands among the notes of the run with
/// a tick that has come; or it is there since the opening, or is an IPC process's, of which nothing is said. So no application
/// is registered in a DIF but by a line that says so.
pub fn each_name_was_registered()
    ensures { NamesAreRegistered }
{}

/// After any run from its opening each name that stands registered at a node of a wire, and that is no IPC process's, was registered
/// by a line `register` of the schedule, for that application at that node of that wire, whose `ok` stands among the notes of the
/// run with a tick that has come; or it is there since the opening. And each asker's end of a flow of a wire that is not there since
/// the opening asks for an application that was registered so at the other node of the wire, no later than the tick of the flow's
/// name; but where it asks for an IPC process, or for a name of the opening. So each flow of a wire that an application asked for
/// was to a registered name.
pub fn each_wire_flow_was_to_a_registered_name()
    ensures names { WireNamesAreRegistered }
    ensures flows { WireFlowsAreToNames }
{}

/// After any run from its opening each far end of a flow of a DIF of any rank that is not there since the opening was made in one
/// of the steps of the run: a step of a round, or a line `in`. No end stood at its place before that step. In the step a member
/// of the DIF took a message that asks for the flow: of its name and cube, for the application at the far end, by that at the
/// asker's. That application was registered at the node of the far end before the step. As the message was handled, behind
/// those that came with it, an enrolled member stood on that node, whose rules allow the asker's application; the ask was younger
/// than the CEP-ids of its cube rest; and the asker's end stood in the DIF, with each other's application as peer, and without a far
/// end. So no far end was made of an application that was not registered there, or to which the rules then denied the asker.
pub fn each_far_end_was_asked_for()
    ensures { FarEndsAreAskedFor }
{}

/// After any run from its opening, in each DIF of each rank in which no allocation has failed: each live directory entry, be it kept by a
/// member or on its way to one, was made of an application that a line `register` of the schedule registered at the node of the member
/// whose address the entry has, and whose `ok` stands among the notes of the run with a tick of at most that of the entry's version; or
/// it is an IPC process's, or was there at the opening. So each application that a member finds in its directory at an address, and that is
/// no IPC process, was registered at the member of this address by now, or has had an entry with it there since the opening. And each
/// asker's end of a flow that is not there since the opening asks for an application that was registered so at the member to which its
/// connection leads, no later than the tick of the flow's name; but where it asks for an IPC process. Each far end of a flow of which no end
/// is there since the opening is that of an application that a line `register` registered at its node, whose `ok` stands among the notes
/// with a tick of at most that of the flow's name; or of one that has had an entry at its member since the opening, or of an IPC process.
pub fn each_known_application_was_registered()
    ensures entries { EntriesAreRegistered }
    ensures known { KnownAreRegistered }
    ensures asked { AskedAreRegistered }
    ensures far { FarAreRegistered }
{}

/// After any run from its opening, in each DIF of each rank in which no allocation has failed, each message about a flow has the end that
/// it tells of: of each ask the asker's end stands in the journal of the DIF, with the name, the applications and the cube of the ask, and
/// its connection has the addresses and the CEP-id; of each yes a far end stands, with the addresses and its CEP-id. The messages are
/// those that wait at the members and those that are on the links of the DIF.
pub fn messages_about_flows_have_their_ends()
    ensures { MessagesHaveEnds }
{}

/// After any run from its opening, in each DIF of each rank in which no allocation has failed, the asks for a flow that wait at the
/// members or are on the links, and the far ends of the flow, are no more than the askers' ends, of which a flow has one. So one ask for it
/// at most is on its way, and while it is the flow has no far end.
pub fn one_ask_for_a_flow_is_on_its_way()
    ensures { AsksAreAlone }
{}

/// After any run from its opening, in each DIF of each rank in which no allocation has failed, of each ask for a flow that a member made,
/// told by the member's address and the invoke id that it drew, one message at most is on its way: the ask, or its answer. Of each
/// ask that waits for its answer the end stands, and what is on its way with its invoke id is of its own flow: the ask is for this
/// flow, and a yes tells of the far end of this flow, which stands; both have the CEP-id that the member drew. So a yes allocates
/// the end that asked for the flow, and no other.
pub fn each_answer_is_that_of_its_ask()
    ensures { AsksAreAwaited }
{}

/// Each call of `run` ends with a status that has its cause, by the clauses `outcome`, `read` and `write` of `run`. `Usage` comes
/// where the words are no command, with the place. `Done` says that the input was read to its end, the stack is accepted and each
/// line is inside the grammar; `NotToml` and `StackRule` that the stack is not accepted, for this; `Schedule` that the last line
/// that was used is the first outside the grammar; `TooLarge` and `ReadFault` that reading broke off by this, with nothing in what
/// was used that would have ended the run before. `ReadFault` comes with one read that failed, `WriteFault` with one write, and
/// each status but these and `Memory` where none failed. An allocation may fail anywhere.
///
/// What was read is the cause of one status at most. So where a cause stands, its status comes, unless a write or an allocation
/// failed. An input of at most 16,777,216 bytes, whose stack is accepted and whose lines are inside the grammar, is done, unless a
/// read, a write or an allocation fails; and of any input no more bytes than these are used.
pub fn each_run_ends_for_its_cause()
    ensures ended { RunsEndForTheirCause }
    ensures one { CausesAreOfOneStatus }
    ensures done { GrammaticalRunsAreDone }
    ensures bounded { UseIsBounded }
{}
