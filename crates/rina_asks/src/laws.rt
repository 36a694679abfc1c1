//! The laws of asks for flows, each as the contract of a function that does nothing. They speak of every run of rows from
//! nothing: IPC processes ask, answer, bind, give up and delete; messages are lost, relayed and late; time goes on.
ghost use Rattle.rina_asks.specs.Laws.{AcceptedIsFresh, AnswerIsMatched, AskIsOwn, BoundIsAlone, BoundIsFresh, ClosedIsNamed, ClosedIsOne, DeleteFindsAsker, DeleteFindsFar, DeleteIsOfFlow, FarIsNamed, LateIsGivenBack, MadeIsAllowed, NamesAreApart, OneMessage, PartnersAreNamed, RefusedHasNone, RowsHold, RunsHold, UsedIsOwn, YesFinds, YesIsOwn};
ghost use Rattle.rina_asks.specs.Machines.{AnswerIsRow, EndedIsRow, FarEndedIsRow, HeardIsRow, LateIsRow};

/// Each row keeps what holds of the requests of a DIF and of the messages about them, and so it holds after every run. The
/// laws below take it as their premise.
pub fn requests_and_messages_hold()
    ensures rows { RowsHold }
    ensures runs { RunsHold }
{}

/// Of each ask one message at most is on its way: the ask, or its answer. Whatever is on its way has the addresses, the
/// CEP-ids and the invoke id of the flow that it was made for. The flow of an ask has no far end, and the id in a yes is that
/// of its flow's far end. By its invoke id an answer finds the request that it answers, and no other.
pub fn messages_are_of_their_flows()
    ensures one { OneMessage }
    ensures ask { AskIsOwn }
    ensures yes { YesIsOwn }
    ensures refused { RefusedHasNone }
    ensures delete { DeleteIsOfFlow }
    ensures matched { AnswerIsMatched }
    ensures names { NamesAreApart }
{}

/// A far end is made only in a step in which its application is registered there, the asker is allowed, and the ask is
/// younger than `3 * delta` of its cube. No PDU that is not dead names its connection then.
pub fn far_ends_are_made_by_leave()
    ensures allowed { MadeIsAllowed }
    ensures fresh { AcceptedIsFresh }
{}

/// Two partners, told by their addresses and CEP-ids, are the two ends of one flow. Each has the other's application as
/// its peer, and both have one cube.
pub fn partners_have_each_other()
    ensures far { FarIsNamed }
    ensures partners { PartnersAreNamed }
{}

/// Where a yes comes to an asker that waits, however late, no PDU that is not dead goes from the asker to the far end, and no
/// other connection in use has the two addresses and the two CEP-ids.
pub fn bound_ends_are_fresh()
    ensures fresh { BoundIsFresh }
    ensures alone { BoundIsAlone }
{}

/// A yes finds an asker that waits, or one whose end has ended. At that one a delete goes back to the far end.
pub fn late_answers_are_given_back()
    ensures finds { YesFinds }
    ensures back { LateIsGivenBack }
{}

/// An end that a delete closes stood, and has the two addresses and the two CEP-ids that the delete names. There is one such
/// end at most. It is an end of the delete's own flow as long as that flow is in use, and a delete finds that one where
/// it stands and knows its partner.
pub fn deletes_close_what_they_name()
    ensures named { ClosedIsNamed }
    ensures one { ClosedIsOne }
    ensures own { UsedIsOwn }
    ensures far { DeleteFindsFar }
    ensures asker { DeleteFindsAsker }
{}

/// Whatever the machine of an asked end answers to an ask is a row, where what it is told of the ask is so. Whatever the
/// machine of an asker does at an answer is a row, in each of its states. So is what it does where its wait is over, and
/// what either machine does where its end is freed or fails while it stands.
pub fn machines_act_by_rows()
    ensures asked { AnswerIsRow }
    ensures heard { HeardIsRow }
    ensures late { LateIsRow }
    ensures ended { EndedIsRow }
    ensures far_ended { FarEndedIsRow }
{}
