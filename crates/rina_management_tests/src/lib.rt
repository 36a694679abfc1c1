//! Sessions, objects, access rules, ids, versioned items and the directory: worked steps. Tests alone.
#![tactic(auto)]

#[cfg(test)]
mod access;
#[cfg(test)]
mod answer;
#[cfg(test)]
mod dir;
#[cfg(test)]
mod ids;
#[cfg(test)]
mod newest;
#[cfg(test)]
mod rib;
#[cfg(test)]
mod session;
