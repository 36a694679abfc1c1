//! Events at an end of an ask, and what the end does.

use rina_base::Cep;

/// The two CEP-ids of a flow, by one end.
#[derive(Clone, Copy, Debug, PartialEq, Eq)]
pub struct Pair {
    /// That of the far end.
    pub far: Cep,
    /// Its own.
    pub own: Cep,
}

/// An event at an end of an ask.
#[derive(Clone, Copy, Debug, PartialEq, Eq)]
pub enum AskEvent {
    /// The ask.
    Ask {
        /// Whether the application is registered there.
        here: bool,
        /// Whether the ask is `3 * delta` ticks of its cube old or older.
        aged: bool,
        /// The rule that denies the asker, where one does.
        denied: Option<u32>,
        /// The CEP-id that was drawn; None where none is free, or something else is refused.
        drawn: Option<Cep>,
        /// How many CEP-ids are in use or at rest.
        used: u32,
        /// The asker's CEP-id.
        scep: Cep,
    },
    /// The answer to the ask.
    Answer {
        /// 0 yes, 1 denied, 2 not here, 3 no ids.
        result: u8,
        /// The CEP-id of the far end; 0 at another result than 0.
        dcep: Cep,
        /// The asker's CEP-id at result 0, the rule at result 1, 0 at result 2, the used ids at result 3.
        number: u32,
    },
    /// The far end gave the flow up.
    Delete,
    /// This end was freed while it was pending or allocated, or gave up.
    Ended,
    /// The clock went on.
    Clock {
        /// Whether the ask has waited for its whole time.
        late: bool,
    },
}

/// What an end of an ask does.
#[derive(Clone, Copy, Debug, PartialEq, Eq)]
pub enum AskDo {
    Nothing,
    /// It answers the ask.
    Answer {
        /// 0 yes, 1 denied, 2 not here, 3 no ids.
        result: u8,
        /// Its own CEP-id; 0 at another result than 0.
        dcep: Cep,
        /// The asker's CEP-id at result 0, the rule at result 1, 0 at result 2, the used ids at result 3.
        number: u32,
    },
    /// It tells the far end that it gave the flow up.
    Delete {
        /// The CEP-id of the far end.
        dcep: Cep,
        /// Its own.
        scep: Cep,
    },
    /// The ask timed out: no answer came while it waited.
    TimedOut,
}
