//! The laws of CEP-ids that rest, each as the contract of a function that does nothing. An id is in use while its end
//! stands, rests for `3 * delta` of the flow's cube from the tick at which the end ended, and is free from then on. A
//! connection is in use until both its ids have rested.
ghost use Rattle.std.specs.Prelude.{◌+◌, ◌*◌};
ghost use Rattle.rina_law.specs.Constants.{delta};
ghost use Rattle.rina_rest.specs.Drawn.{DrawnIsFree, DrawnIsSome, NoneIsKept, RowsKeepSlots};
ghost use Rattle.rina_rest.specs.Laws.{AnswersStay, ArrivalIsOwn, AsksStay, FoursAreApart, FoursTellSides, HistoriesHold, LiveIsInUse, MadeIsAlone, MadeIsFresh, RowsKeepLedger, StandingIsAlone, ToldIsAlone, ToldIsFresh};
ghost use Rattle.rina_rest.specs.Still.{rest_of, DiesInUse, DrawnIsStill, EndedDies, EndedIsStill, RestIsStill, StandingDies, UntakenStays, UnusedIsStill};

/// Once the sender's end of a direction has ended and its id has rested, no piece and no acknowledgement of the direction is
/// in flight, and its receiver has no state, whatever the other end does. It is so at every tick where the sender's end was
/// never made or never sent. A rest of `2 * delta + mpl` would do as well.
pub fn ended_direction_is_still()
    ensures ended { EndedIsStill }
    ensures run { RestIsStill }
    ensures unused { UnusedIsStill }
    ensures drawn { DrawnIsStill rest_of }
    ensures least { DrawnIsStill (λ c. 2 * delta c + c.cube.mpl) }
    ensures dies { EndedDies }
    ensures standing { StandingDies }
    ensures in_use { DiesInUse }
    ensures untaken { UntakenStays }
{}

/// Whatever happens to a ledger of flows and PDUs: each PDU that is not dead names the two addresses and the two CEP-ids of
/// a connection in use, and of one alone. Of the ends that stand, one alone has an address and a CEP-id.
pub fn live_pdus_are_of_connections_in_use()
    ensures rows { RowsKeepLedger }
    ensures histories { HistoriesHold }
    ensures live { LiveIsInUse }
    ensures arrival { ArrivalIsOwn }
    ensures apart { FoursAreApart }
    ensures sides { FoursTellSides }
    ensures standing { StandingIsAlone }
{}

/// Where a far end is made, and where the answer comes to the asker, no other connection in use has the two addresses and
/// the two CEP-ids, and no PDU that is not dead was sent on an earlier one.
pub fn new_connections_are_fresh()
    ensures made { MadeIsFresh }
    ensures made_alone { MadeIsAlone }
    ensures told { ToldIsFresh }
    ensures told_alone { ToldIsAlone }
{}

/// An ask on its way is of a flow without a far end, until its far end is made. An answer on its way names the far end's
/// id, whatever becomes of that end.
pub fn asks_and_answers_stay()
    ensures asks { AsksStay }
    ensures answers { AnswersStay }
{}

/// An IPC process that keeps which of its ids are in use and which rest, as `rina_ids` does, draws an id that is free in the
/// ledger, and is not the 0 of management. Time, draws and ends keep this.
pub fn drawn_ids_are_free()
    ensures drawn { DrawnIsFree }
    ensures some { DrawnIsSome }
    ensures rows { RowsKeepSlots }
    ensures none { NoneIsKept }
{}
