//! The laws of one direction of a connection, each as the contract of a function that does nothing.
//! Together they say that delta-t suffices: whatever is sent, lost, repeated, delayed and forgotten.
ghost use Rattle.rina_law.specs.Laws.{JournalsAreKept, LineIsLawful, ArrivalsAreWelcome, AcksMeanDelivery, StateEndsByClock, SpentNeedsState, GivenUpIsLate, StartHolds, RowsHold, CloudHolds};

/// What was got was sent, within the promise of the cube: once on a datagram cube, in order on a loose
/// one, as a prefix on a reliable one.
pub fn journals_are_kept()
    ensures { JournalsAreKept }
{}

/// What is in flight, what the sender was told and what the receiver knows are lawful.
pub fn line_is_lawful()
    ensures { LineIsLawful }
{}

/// Whatever piece arrives meets the conditions of a receiver that has room for one window and of a joiner
/// that has room for the largest SDU.
pub fn arrivals_are_welcome()
    ensures { ArrivalsAreWelcome }
{}

/// A number that is acknowledged was accepted, and a whole SDU of such numbers was delivered.
pub fn acks_mean_delivery()
    ensures { AcksMeanDelivery }
{}

/// State is there and gone at exactly the ticks that Watson's delta-t gives, and where the sender has none,
/// nothing is left of its run.
pub fn state_ends_by_clock()
    ensures absent { StateEndsByClock }
    ensures spent { SpentNeedsState }
{}

/// A number that is given up is unacknowledged, and of an SDU that was sent `r + a + 2 * mpl` ticks ago or more.
pub fn given_up_is_late()
    ensures { GivenUpIsLate }
{}

/// How a layer above carries the laws along: they hold at the start, after each row, and when the cloud
/// shrinks and time goes on.
pub fn rows_keep_the_law()
    ensures start { StartHolds }
    ensures rows { RowsHold }
    ensures cloud { CloudHolds }
{}
