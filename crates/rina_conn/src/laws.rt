//! How a layer above carries the receiving half of a connection along, and when numbers are spent. These functions do
//! nothing: their contracts are laws.
ghost use Rattle.rina_conn.specs.Laws.{NewReceives, FetchedReceives, StillReceives, LaterReceives, ForgottenReceives, AcknowledgedReceives, SendingReceives, SpentHasState};

/// A connection receives for a direction of the machine from the start, and after each call that is no piece and no
/// SDU that is passed.
pub fn connection_receives_on()
    ensures begins { NewReceives }
    ensures fetched { FetchedReceives }
    ensures still { StillReceives }
    ensures later { LaterReceives }
    ensures forgotten { ForgottenReceives }
    ensures acknowledged { AcknowledgedReceives }
    ensures sending { SendingReceives }
{}

/// An offer of an SDU of no more pieces than there are numbers is refused for want of them only while the sender has
/// state, and the tick that is told is that at which this ends, where nothing is unacknowledged by then.
pub fn spent_numbers_have_state()
    ensures { SpentHasState }
{}
