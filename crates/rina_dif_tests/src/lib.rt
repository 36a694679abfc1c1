//! Policies and their shelf, queues, least walks and next hops, on tables worked out by hand. Tests alone.
#![tactic(auto)]

#[cfg(test)]
mod graph;
#[cfg(test)]
mod policy;
#[cfg(test)]
mod queue;
#[cfg(test)]
mod route;
