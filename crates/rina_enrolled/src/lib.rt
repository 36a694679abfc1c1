//! What an enrolled joiner keeps, over all runs of a network. There is no code; the law is the contract of a function that does
//! nothing.
#![tactic(auto)]

ghost use Rattle.rina_enrolled.specs.Enrolled.{BothHaveLink, EnrolledHasAll, NoneIsLost};
ghost use Rattle.rina_enrolled.specs.Sample.{SampleEnrols};
ghost use Rattle.rina_access.specs.declared.rules.Rules.{Rules};

/// A joiner that handles STOP on a link keeps, of each key, the item that the member at the other end kept as it handled START on that
/// link, or a newer one, whatever else happened in between: other links of the two, further enrolments, items that are made or come.
/// Nothing that was sent on that link may be lost before STOP is handled; so it is where both ends have the link still. Items that
/// the member makes or takes after START may come behind STOP.
pub fn an_enrolled_joiner_has_all()
    ensures none_is_lost { EnrolledHasAll NoneIsLost }
    ensures both_have_link { EnrolledHasAll BothHaveLink }
{}

/// There are such runs: one in which a member joins another that keeps an entry.
pub fn a_run_enrols_a_joiner()
    ensures { (rules : Rules) × SampleEnrols rules }
{}
