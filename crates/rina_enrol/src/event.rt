//! Events at an end of an enrolment, and what the end sends.

/// An event at an end of an enrolment: a message that it handles, or the loss of its link.
#[derive(Clone, Copy, Debug, PartialEq, Eq)]
pub enum EnrolEvent {
    /// CONNECT.
    Connect {
        /// The rule that denies the joiner, 257 at a member that is not enrolled itself; None where it is
        /// allowed.
        denied: Option<u32>,
    },
    /// CONNECT_R.
    ConnectR {
        /// The rule that denied the joiner; None at result 0.
        denied: Option<u32>,
    },
    /// START.
    Start,
    /// START_R.
    StartR,
    /// An item that the member holds.
    Item,
    /// STOP.
    Stop,
    /// STOP_R.
    StopR,
    /// The link is lost.
    LinkLost,
}

/// What an end of an enrolment sends over its link.
#[derive(Clone, Copy, Debug, PartialEq, Eq)]
pub enum EnrolDo {
    Nothing,
    /// CONNECT_R, with the rule that denies; None at result 0.
    ConnectR { denied: Option<u32> },
    /// START.
    Start,
    /// START_R, one message for each item that is kept, and STOP.
    StartR,
    /// STOP_R, and one message for each item that is kept.
    StopR,
}
