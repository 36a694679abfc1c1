//! The laws of the management connections of a DIF's links, each as the contract of a function that does nothing.
//! The connection of each link keeps delta-t's law over what waits for the link and was sent on it, whatever the DIF does
//! for its flows, and whatever is lost, repeated or delayed below.
ghost use Rattle.rina_channel.specs.CallLaws.{CallsChangeEnds, CallsForPiecesArrive, CallsThatAcknowledgeDo, CallsThatOfferDo, CallsThatPassDo, CallsThatSendAgainDo};
ghost use Rattle.rina_channel.specs.Coming.{TakingOnLinksIsLawful, TakingOnLinksStands};
ghost use Rattle.rina_channel.specs.FlowLaws.{AcknowledgingServesLinks, ArrivalsNoteLinks, EndingNotesLinks, ForgettingNotesLinks, LinksLeaveFlows, MessagesServeLinks, NotingLeavesLinks, ResendingServesLinks, TakingLeavesFlows};
ghost use Rattle.rina_channel.specs.Laws.{AcknowledgingStands, AcksStand, BesideStands, ComingIsAwaited, ComingIsCovered, EndingStands, ForgettingStands, InStepsOfOthersStand, MessagesAreKept, MessagesAreLawful, MessagesStand, OtherPdusStand, OutStepsOfOthersStand, OutStepsStand, PassingStands, PiecesStand, ResendingStands, SendsOfOthersStand, TakingStands, TimeStands};
ghost use Rattle.rina_channel.specs.Making.{AskedFlowsAreNew, ClaimingStands, LinkingStands, MakingStands, NoneStand};
ghost use Rattle.rina_channel.specs.OwnLaws.{AcknowledgingLeavesLinks, EndingLeavesLinks, FailingLeavesLinks, ForgettingLeavesLinks, LosingLeavesLinks, PassesLeaveLinks, ResendingLeavesLinks, SendsLeaveLinks, SettlingLeavesLinks};

/// The messages that an end of a link handled are the first that its partner offered, each once, in order and in time.
/// Each piece and each acknowledgement that is under way is one that the connection may still take.
pub fn messages_are_kept()
    ensures kept { MessagesAreKept }
    ensures lawful { MessagesAreLawful }
{}

/// A DIF without management connections stands with none. It goes on to stand as a flow below between two members, be it one
/// that was just asked for, gets its two ends, as the far one is claimed later, and as an IPC process takes its end of that
/// flow as its link.
pub fn links_get_channels()
    ensures none { NoneStand }
    ensures ask { AskedFlowsAreNew }
    ensures make { MakingStands }
    ensures claim { ClaimingStands }
    ensures link { LinkingStands }
{}

/// Management connections go on to stand as time goes on with the rank below, and as that rank is used by others.
pub fn the_rank_below_keeps_channels()
    ensures time { TimeStands }
    ensures beside { BesideStands }
    ensures send { SendsOfOthersStand }
    ensures take { TakingStands }
    ensures out { OutStepsOfOthersStand }
    ensures in_ { InStepsOfOthersStand }
{}

/// Management connections go on to stand whatever the DIF does for its flows: that makes no PDU of a link wait, and no link
/// live.
pub fn flows_leave_channels()
    ensures stand { OtherPdusStand }
    ensures send { SendsLeaveLinks }
    ensures pass { PassesLeaveLinks }
    ensures settle { SettlingLeavesLinks }
    ensures acknowledge { AcknowledgingLeavesLinks }
    ensures resend { ResendingLeavesLinks }
    ensures forget { ForgettingLeavesLinks }
    ensures end { EndingLeavesLinks }
    ensures fail { FailingLeavesLinks }
    ensures lose { LosingLeavesLinks }
    ensures note { NotingLeavesLinks }
{}

/// What comes on a link was sent on it, and a PDU that comes in time is one that the channel of the link may still take.
/// Management connections stand after it arrived, with lawful lines for what they write off, and after a message was
/// passed.
pub fn arrivals_keep_channels()
    ensures covered { ComingIsCovered }
    ensures awaited { ComingIsAwaited }
    ensures piece { PiecesStand }
    ensures ack { AcksStand }
    ensures take { TakingOnLinksStands }
    ensures lawful { TakingOnLinksIsLawful }
    ensures pass { PassingStands }
{}

/// Management connections stand after an end offered a message, acknowledged, sent a piece again, gave up what it held of a
/// state that is gone, or ended.
pub fn rows_keep_channels()
    ensures offer { MessagesStand }
    ensures acknowledge { AcknowledgingStands }
    ensures resend { ResendingStands }
    ensures forget { ForgettingStands }
    ensures end { EndingStands }
{}

/// Management connections stand after a PDU went out on a link or was written off there, be it of a flow or of a link.
pub fn out_steps_keep_channels()
    ensures { OutStepsStand }
{}

/// The calls of flows do what the rows of management connections ask for, where the flows are those connections.
pub fn calls_are_those_of_channels()
    ensures same { CallsChangeEnds }
    ensures on_data { CallsForPiecesArrive }
    ensures pass { CallsThatPassDo }
    ensures offer { CallsThatOfferDo }
    ensures acknowledged { CallsThatAcknowledgeDo }
    ensures sent_again { CallsThatSendAgainDo }
{}

/// The flows of a DIF stand, stay numbered and carried, and their account balances, whatever management connections make,
/// take and write off.
pub fn channels_leave_flows()
    ensures serve { LinksLeaveFlows }
    ensures take { TakingLeavesFlows }
    ensures offer { MessagesServeLinks }
    ensures acknowledge { AcknowledgingServesLinks }
    ensures resend { ResendingServesLinks }
    ensures arrive { ArrivalsNoteLinks }
    ensures forget { ForgettingNotesLinks }
    ensures end { EndingNotesLinks }
{}
