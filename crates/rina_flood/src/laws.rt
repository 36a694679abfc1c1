//! The laws of flooding, over all runs of a network from a start.
ghost use Rattle.rina_access.specs.declared.rules.Rules.{Rules};
ghost use Rattle.rina_flood.specs.Coming.{WhatComes};
ghost use Rattle.rina_flood.specs.Gap.{GapBreaks};
ghost use Rattle.rina_flood.specs.Journals.{ArrivalsAddNone, OffersAdd, OthersAddNone, PassesAdd};
ghost use Rattle.rina_flood.specs.Laws.{DirectionsOwe, LostIsGone, NewestIsKept, NotBack, OlderIsNothing, OnlyMadeIsSent, OrderIsNothing, QuietIsEqual, QuietTellsLinks};
ghost use Rattle.rina_flood.specs.Members.{ClaimsLink, DrawsInvoke, GoesOn, HandlesMessage, JoinsLink, KeepsRun, LosesLinkAt, MakesEntryAt, OffersMessage, PassesOver, PostsForMember, QuietMembersAgree, QuietMembersClaim, StartIsRun, TakesEntry};
ghost use Rattle.rina_flood.specs.Sample.{SampleSettles};
ghost use Rattle.rina_flood.specs.Static.{EntriesAreOne, MembersStart, OthersTellNone, RowsLeaveLinks, StaticTellsLinks};

/// In each direction of a link whose sender's end is up and whose other end is not lost: of each key that the sender keeps, the other
/// end keeps an item at least as new, or one is on its way. So where nothing is on its way on the links of a walk, the members at
/// its ends keep the same items.
pub fn quiet_members_agree()
    ensures owed { DirectionsOwe }
    ensures equal { QuietIsEqual }
{
    rina_newest::newest_of_all_takes();
}

/// A member keeps of each key the newest item that it made or was offered, in whatever order and however often they came.
pub fn members_keep_the_newest()
    ensures newest { NewestIsKept }
    ensures any_order { OrderIsNothing }
{
    rina_newest::newest_of_all_takes();
}

/// What is flooded was made and is kept where it comes from. An item that is not newer is not flooded on, and none goes back to the
/// link that it came on.
pub fn floods_end()
    ensures made { OnlyMadeIsSent }
    ensures older { OlderIsNothing }
    ensures not_back { NotBack }
{}

/// A lost link is gone for good, whatever other links get its number, and once all is quiet nobody that links join to its ends keeps a
/// link state that names it.
pub fn lost_links_are_told()
    ensures quiet { QuietTellsLinks }
    ensures gone { LostIsGone }
{
    rina_newest::newest_of_all_takes();
}

/// There are such runs: one in which an item that a member makes comes to the other, and nothing is on its way after it.
pub fn a_run_comes_to_rest()
    ensures { (rules : Rules) → SampleSettles rules }
{}

/// Why an end of a link comes up in the step in which its items are put there: an item that is made in between is never sent.
pub fn a_gap_loses_an_item()
    ensures { (rules : Rules) → GapBreaks rules }
{}

/// A DIF starts so: its members that are enrolled keep the same items, and nothing is on its way. In a static DIF these are the member
/// items and the link states of all members, and the link state of each names its links. In any other the first member keeps its
/// own member item, and nobody tells a link.
pub fn members_start_as_a_network()
    ensures starts { MembersStart }
    ensures tells { StaticTellsLinks }
    ensures tells_none { OthersTellNone }
{
    rina_newest::newest_of_all_takes();
}

/// What happens to a DIF leaves the link states of its members to them, and of a directory entry from the start there is one
/// item.
pub fn a_dif_tells_links_and_entries()
    ensures links { RowsLeaveLinks }
    ensures entries { EntriesAreOne }
{}

/// The members of a DIF are a network after some run: as they start, as the clock goes on, and after the loss of a link at one of its ends,
/// a directory entry that one makes or that all take, a message that is offered to a link, one that is handled and one that is passed
/// over, a message about a flow that is to wait, and the draw of an invoke id; and where a member asks for an enrolment on a new link, and
/// where the member at its other end gets that link. So it is in every DIF: enrolled members of a static
/// one may join each other by a further link. So where all is quiet on a walk of links, the members at its ends keep the same items, which
/// claim the same edges, and each keeps the other's link state as the other's links are now.
pub fn members_are_a_network()
    ensures start { StartIsRun }
    ensures goes_on { KeepsRun GoesOn }
    ensures loses { KeepsRun LosesLinkAt }
    ensures makes { KeepsRun MakesEntryAt }
    ensures takes { KeepsRun TakesEntry }
    ensures offers { KeepsRun OffersMessage }
    ensures handles { KeepsRun HandlesMessage }
    ensures passes { KeepsRun PassesOver }
    ensures posts { KeepsRun PostsForMember }
    ensures draws { KeepsRun DrawsInvoke }
    ensures joins { KeepsRun JoinsLink }
    ensures claims_link { KeepsRun ClaimsLink }
    ensures quiet { QuietMembersAgree }
    ensures claims { QuietMembersClaim }
{
    rina_newest::newest_of_all_takes();
}

/// A message of a neighbour that comes over a link of a DIF is a short one of one of its members. Where it brings the link state of the member to which
/// it comes, this keeps one as new: a member alone makes its link state. On a link of the plan of a static DIF each brings an item.
pub fn what_comes_was_made_by_a_member()
    ensures { WhatComes }
{
    rina_newest::newest_of_all_takes();
}

/// Of the texts that a journal of connections tells, an end that offers an entry adds its bytes to what was offered there, and one
/// that passes the next entry on adds its bytes to what was passed on; what arrives, and what else happens to an end, adds none.
pub fn a_journal_tells_texts()
    ensures offers { OffersAdd }
    ensures passes { PassesAdd }
    ensures arrivals { ArrivalsAddNone }
    ensures others { OthersAddNone }
{}
