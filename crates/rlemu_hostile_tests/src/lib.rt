//! Runs of inputs that are cut, repeated, broken off, or served by a policy that means no good, and runs whose reads and
//! writes fail. Tests alone.
#![tactic(auto)]

#[cfg(test)]
mod asks;
#[cfg(test)]
mod cuts;
#[cfg(test)]
mod enrolments;
#[cfg(test)]
mod faults;
#[cfg(test)]
mod inputs;
#[cfg(test)]
mod policies;
#[cfg(test)]
mod repeats;
#[cfg(test)]
mod running;
#[cfg(test)]
mod texts;
