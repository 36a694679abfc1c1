//! The laws of what the calls of a DIF write off, as the contract of a function that does nothing.
ghost use Rattle.rina_dif.specs.WriteOffs.{OutStepsOfDifsWrite, InStepsOfDifsWrite, ClockStepsOfDifsWrite, FreesOfDifsWrite, SendsOfDifsWriteNothing, PassesOfDifsWriteNothing};

/// Whatever a step of a DIF, or the freeing of a flow, writes into a ledger, the condition of its cause held before;
/// nothing is ever taken out of a ledger.
pub fn each_call_writes_off_with_cause()
    ensures out { OutStepsOfDifsWrite }
    ensures in_ { InStepsOfDifsWrite }
    ensures clock { ClockStepsOfDifsWrite }
    ensures free { FreesOfDifsWrite }
    ensures send { SendsOfDifsWriteNothing }
    ensures pass { PassesOfDifsWriteNothing }
{}
