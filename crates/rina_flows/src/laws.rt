//! The laws of the flows of a DIF, each as the contract of a function that does nothing.
ghost use Rattle.rina_flows.specs.Laws.{TimeKeepsTies, OffersAreOffers, PassesArePasses, TakersAreTakers, ArrivalsAreArrivals, TellingsAreTold, ForgettingIsForgetting, EndingsAreEndings};

/// Flows stay tied to their directions as time goes on.
pub fn flows_stay_tied()
    ensures { TimeKeepsTies }
{}

/// Each call of the flows does what the relation of their DIF asks for.
pub fn calls_are_those_of_the_dif()
    ensures offer { OffersAreOffers }
    ensures pass { PassesArePasses }
    ensures taker { TakersAreTakers }
    ensures on_data { ArrivalsAreArrivals }
    ensures on_ack { TellingsAreTold }
    ensures forget { ForgettingIsForgetting }
    ensures stop { EndingsAreEndings }
{}
