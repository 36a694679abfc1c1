//! The laws of one DIF over any facility, each as the contract of a function that does nothing.
//! A DIF stands on the rank below where delta-t's law holds of each of its flows, whatever is queued, sent, relayed,
//! lost, repeated or delayed. Of the rank below they use the laws of a facility, and of its cubes that each SDU that
//! came was sent, and came in time.
ghost use Rattle.rina_dif_law.specs.AnsweringLaws.{AnsweringCarries, AnsweringIsSilent, AnsweringNumbers, AnsweringStands, FarMakingCarries, FarMakingIsLater, FarMakingIsSilent, FarMakingNumbers, FarMakingStands, TurningDownCarries, TurningDownIsSilent, TurningDownNumbers, TurningDownStands};
ghost use Rattle.rina_dif_law.specs.Partners.{EachIsMet};
ghost use Rattle.rina_dif_law.specs.Laws.{StartStands, SendsStand, PassesStand, OutStepsStand, InStepsStand, AcknowledgingStands, ResendingStands, ForgettingStands, EndingStands, LosingStands, FailingStands, StartCarries, SendsCarry, PassesCarry, OutStepsCarry, InStepsCarry, AcknowledgingCarries, ResendingCarries, ForgettingCarries, EndingCarries, LosingCarries, FailingCarries, TimeCarries, BesideCarries, SendsOfOthersCarry, PassesOfOthersCarry, TimeStands, BesideStands, SendsOfOthersStand, OutStepsOfOthersStand, InStepsOfOthersStand, CloudIsCovered, CloudLaw, StandingKeeps, SendsAreLater, PassesAreLater, OutStepsAreSilent, InStepsAreSilent, AcknowledgingIsSilent, ResendingIsSilent, ForgettingIsSilent, EndingIsSilent, LosingIsSilent, FailingIsSilent, TimeIsSilent, SilentOn, SendsAreSends, PassesArePasses, RelayingSettles, WritingOffSettles, StandingCanGo};
ghost use Rattle.rina_dif_law.specs.Lawful.{StandingIsLawful};
ghost use Rattle.rina_dif_law.specs.NumberLaws.{SendsNumber, PassesNumber, OutStepsNumber, InStepsNumber, AcknowledgingNumbers, ResendingNumbers, ForgettingNumbers, EndingNumbers, LosingNumbers, FailingNumbers, TimeNumbers, BesideNumbers, SendsOfOthersNumber, BindingStands, BindingCarries, BindingNumbers, BindingIsLater, AskingStands, AskingCarries, AskingNumbers, AskingIsLater};

/// Whatever an end of a kept facility got has a sender: its partner, of whose entries it is born.
pub fn each_entry_has_a_sender()
    ensures { EachIsMet }
{}

/// A DIF stands before its first flow, and after each of its calls, whatever that answers.
pub fn calls_keep_standing()
    ensures start { StartStands }
    ensures send { SendsStand }
    ensures pass { PassesStand }
    ensures out { OutStepsStand }
    ensures in_ { InStepsStand }
    ensures acknowledge { AcknowledgingStands }
    ensures resend { ResendingStands }
    ensures forget { ForgettingStands }
    ensures end { EndingStands }
    ensures lose { LosingStands }
    ensures fail { FailingStands }
{}

/// A DIF that stands is lawful: each piece and each acknowledgement that is under way of a connection in use is one that it
/// may still take, and both ends agree on what was accepted. No two connections in use have the same two addresses and the same
/// two CEP-ids, but for the two ends of one flow; a connection is in use until both its ids have rested.
pub fn a_dif_that_stands_is_lawful()
    ensures { StandingIsLawful }
{}

/// Whatever an end got has come to its IPC process from the rank below, piece by piece, by the tick at which it was
/// delivered.
pub fn what_was_got_has_come()
    ensures start { StartCarries }
    ensures send { SendsCarry }
    ensures pass { PassesCarry }
    ensures out { OutStepsCarry }
    ensures in_ { InStepsCarry }
    ensures acknowledge { AcknowledgingCarries }
    ensures resend { ResendingCarries }
    ensures forget { ForgettingCarries }
    ensures end { EndingCarries }
    ensures lose { LosingCarries }
    ensures fail { FailingCarries }
    ensures time { TimeCarries }
    ensures beside { BesideCarries }
    ensures others_send { SendsOfOthersCarry }
    ensures others_pass { PassesOfOthersCarry }
{}

/// A DIF goes on to stand as time goes on with the rank below, and as others use that rank: applications, and other
/// DIFs.
pub fn the_rank_below_keeps_standing()
    ensures time { TimeStands }
    ensures beside { BesideStands }
    ensures send { SendsOfOthersStand }
    ensures out { OutStepsOfOthersStand }
    ensures in_ { InStepsOfOthersStand }
{}

/// The copies that came are covered by what waits and what was sent, and what goes on below adds nothing: each PDU that
/// may still come could come before, as late.
pub fn the_cloud_only_shrinks()
    ensures covered { CloudIsCovered }
    ensures later { CloudLaw }
{}

/// A DIF that stands is a facility: each flow keeps what its cube promises, so that the next rank can stand on it.
pub fn what_stands_is_a_facility()
    ensures { StandingKeeps }
{}

/// What the rank above sees: a call makes the journal later, and a step of the DIF sends and passes nothing there. What holds of two
/// steps holds of both together.
pub fn calls_are_later()
    ensures send { SendsAreLater }
    ensures pass { PassesAreLater }
    ensures out { OutStepsAreSilent }
    ensures in_ { InStepsAreSilent }
    ensures acknowledge { AcknowledgingIsSilent }
    ensures resend { ResendingIsSilent }
    ensures forget { ForgettingIsSilent }
    ensures end { EndingIsSilent }
    ensures lose { LosingIsSilent }
    ensures fail { FailingIsSilent }
    ensures time { TimeIsSilent }
    ensures both { SilentOn }
{}

/// At a rank that shows the DIF as one of its facilities, a send and a pass are what they are on every facility: with
/// the same refusals, in the same order.
pub fn calls_are_those_of_a_facility()
    ensures send { SendsAreSends }
    ensures pass { PassesArePasses }
{}

/// What an IPC process decides on a PDU by its own state is what the relation of its DIF asks for.
pub fn decisions_are_what_becomes()
    ensures relayed { RelayingSettles }
    ensures off { WritingOffSettles }
{}

/// An IPC process of a DIF that stands can take a step at each of its links: the flow below promises something, and
/// takes whatever waits.
pub fn what_stands_can_step()
    ensures { StandingCanGo }
{}

/// A DIF stays numbered: whatever is sent, relayed or lost, each PDU that may still come names a connection that
/// stands.
pub fn names_stay()
    ensures send { SendsNumber }
    ensures pass { PassesNumber }
    ensures out { OutStepsNumber }
    ensures in_ { InStepsNumber }
    ensures acknowledge { AcknowledgingNumbers }
    ensures resend { ResendingNumbers }
    ensures forget { ForgettingNumbers }
    ensures end { EndingNumbers }
    ensures lose { LosingNumbers }
    ensures fail { FailingNumbers }
    ensures time { TimeNumbers }
    ensures beside { BesideNumbers }
    ensures others_send { SendsOfOthersNumber }
{}

/// A DIF that is numbered goes on to stand as both ends of a fixed flow are made with the names that are next.
pub fn fixed_flows_may_be_made()
    ensures stands { BindingStands }
    ensures carries { BindingCarries }
    ensures numbers { BindingNumbers }
    ensures later { BindingIsLater }
{}

/// A DIF that is numbered goes on to stand as a member asks for a flow: its end waits, with the name, the port and the CEP-id that are
/// next, and the far end is not there yet.
pub fn flows_may_be_asked_for()
    ensures stands { AskingStands }
    ensures carries { AskingCarries }
    ensures numbers { AskingNumbers }
    ensures later { AskingIsLater }
{}

/// A DIF goes on to stand as a member makes the far end of a flow that was asked for there, whose asker waits or has ended since: while
/// the ask is younger than its ids rest, nothing that may still come is of the new connection. No other end changes.
pub fn far_ends_may_be_made()
    ensures stands { FarMakingStands }
    ensures carries { FarMakingCarries }
    ensures numbers { FarMakingNumbers }
    ensures later { FarMakingIsLater }
    ensures silent { FarMakingIsSilent }
{}

/// A DIF goes on to stand as the answer comes to an asker that waits: its end is allocated, and knows the CEP-id of the far end. No
/// direction changes.
pub fn askers_may_be_answered()
    ensures stands { AnsweringStands }
    ensures carries { AnsweringCarries }
    ensures numbers { AnsweringNumbers }
    ensures silent { AnsweringIsSilent }
{}

/// A DIF goes on to stand as an asker's end ends while it waits, whether its far end was made or not. Its CEP-id rests.
pub fn askers_may_be_turned_down()
    ensures stands { TurningDownStands }
    ensures carries { TurningDownCarries }
    ensures numbers { TurningDownNumbers }
    ensures silent { TurningDownIsSilent }
{}
