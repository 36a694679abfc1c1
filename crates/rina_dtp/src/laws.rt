//! How a layer above carries a receiver along. This function does nothing: its contract is laws.
ghost use Rattle.rina_dtp.specs.Laws.{StandsLater, StandsForgotten};

/// A receiver stands for the same state of the connection machine when time goes on, and when an absent state
/// forgets what it held.
pub fn receiver_stands_on()
    ensures later { StandsLater }
    ensures forgotten { StandsForgotten }
{}
