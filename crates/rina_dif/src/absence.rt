//! When flows of a DIF have no state, as the contract of a function that does nothing.
ghost use Rattle.rina_dif.specs.Absence.{ReceiversEndByClock, SendersEndByClock};

/// State really ends, and the objects of flows show it: there is a dash for the next number exactly where nothing was sent, or
/// nothing is unacknowledged and `3 * delta` have gone by since a piece was last made; and for the accepted numbers exactly where
/// no piece made state, or `2 * delta` have gone by since the last one that counted.
pub fn state_ends_by_the_clock()
    ensures senders { SendersEndByClock }
    ensures receivers { ReceiversEndByClock }
{}
