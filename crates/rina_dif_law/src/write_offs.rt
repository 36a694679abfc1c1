//! The laws of the write-offs, as the contract of a function that does nothing.
ghost use Rattle.rina_dif_law.specs.AnsweringLaws.{AnsweringWritesNothing, FarMakingWritesNothing, TurningDownWritesNothing};
ghost use Rattle.rina_dif_law.specs.WriteOffLaws.{OutStepsWrite, InStepsWrite, AcknowledgingWrites, ResendingWrites, ForgettingWrites, EndingWrites, LosingWrites, FailingWrites, MayWriteOffIsLawful, SendsWriteNothing, PassesWriteNothing, BindingWritesNothing, AskingWritesNothing, TimeWritesNothing};

/// A line stands in a ledger only where the condition of its cause held when it was written: each ledger grows by such
/// lines alone, whatever the DIF does, and is never changed.
pub fn each_write_off_has_its_cause()
    ensures out { OutStepsWrite }
    ensures in_ { InStepsWrite }
    ensures acknowledge { AcknowledgingWrites }
    ensures resend { ResendingWrites }
    ensures forget { ForgettingWrites }
    ensures end { EndingWrites }
    ensures lose { LosingWrites }
    ensures fail { FailingWrites }
    ensures lawful { MayWriteOffIsLawful }
    ensures send { SendsWriteNothing }
    ensures pass { PassesWriteNothing }
    ensures bind { BindingWritesNothing }
    ensures ask { AskingWritesNothing }
    ensures far { FarMakingWritesNothing }
    ensures answer { AnsweringWritesNothing }
    ensures turn_down { TurningDownWritesNothing }
    ensures time { TimeWritesNothing }
{}
