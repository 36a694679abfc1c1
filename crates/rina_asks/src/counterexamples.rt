//! What is not promised of deletes, each by a run from nothing. Each law is the contract of a function that does nothing.
ghost use Rattle.rina_asks.specs.Counterexamples.{EarlyDeleteIsLost, OldAnswerClosesAnother, OldDeleteClosesAnother};

/// A delete names two addresses and two CEP-ids, and no flow. Once both ids have rested another flow may have them, and a
/// delete that was long on its way closes an end of that one. The same comes of an answer that was long on its way: then
/// no delete is old.
pub fn a_delete_may_close_another_flow()
    ensures delete { OldDeleteClosesAnother }
    ensures answer { OldAnswerClosesAnother }
{}

/// Where a delete overtakes the answer of its own flow it closes nothing. The answer binds the asker to a far end that has
/// ended, and no message is on its way that would tell it.
pub fn a_delete_may_come_too_early()
    ensures { EarlyDeleteIsLost }
{}
