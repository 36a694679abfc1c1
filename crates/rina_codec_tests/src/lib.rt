//! Names, cubes, PDUs and CDAP messages: bytes from outside, and what they are. Tests alone.
#![tactic(auto)]

#[cfg(test)]
mod base;
#[cfg(test)]
mod cdap;
#[cfg(test)]
mod cube;
#[cfg(test)]
mod pci;
