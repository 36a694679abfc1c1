//! The account of each IPC process, each law as the contract of a function that does nothing.
ghost use Rattle.rina_dif_law.specs.AnsweringLaws.{AnsweringAccounts, FarMakingAccounts, TurningDownAccounts};
ghost use Rattle.rina_dif_law.specs.AccountLaws.{StartAccounts, SendsAccount, PassesAccount, OutStepsAccount, InStepsAccount, AcknowledgingAccounts, ResendingAccounts, ForgettingAccounts, EndingAccounts, LosingAccounts, FailingAccounts, BindingAccounts, AskingAccounts, TimeAccounts, BesideAccounts, SendsOfOthersAccount, PassesOfOthersAccount};

/// Each IPC process stays in account for each key of a PDU: what came in or was made is out, waits, was written off, or
/// is kept.
pub fn processes_stay_in_account()
    ensures start { StartAccounts }
    ensures send { SendsAccount }
    ensures pass { PassesAccount }
    ensures out { OutStepsAccount }
    ensures in_ { InStepsAccount }
    ensures acknowledge { AcknowledgingAccounts }
    ensures resend { ResendingAccounts }
    ensures forget { ForgettingAccounts }
    ensures end { EndingAccounts }
    ensures lose { LosingAccounts }
    ensures fail { FailingAccounts }
    ensures bind { BindingAccounts }
    ensures ask { AskingAccounts }
    ensures far { FarMakingAccounts }
    ensures answer { AnsweringAccounts }
    ensures turn_down { TurningDownAccounts }
    ensures time { TimeAccounts }
    ensures beside { BesideAccounts }
    ensures others_send { SendsOfOthersAccount }
    ensures others_pass { PassesOfOthersAccount }
{}
