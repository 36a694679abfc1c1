//! Towers and their rounds, and the calls of applications. Tests alone.
#![tactic(auto)]

#[cfg(test)]
mod applications;
#[cfg(test)]
mod drawn_again;
#[cfg(test)]
mod enrolling;
#[cfg(test)]
mod members;
#[cfg(test)]
mod publishing;
#[cfg(test)]
mod ranks;
