//! Enrolments and asks for flows step by step, their messages as bytes, and enrolments between two members. Tests alone.
#![tactic(auto)]

#[cfg(test)]
mod agent;
#[cfg(test)]
mod alloc;
#[cfg(test)]
mod enrol;
#[cfg(test)]
mod ring;
