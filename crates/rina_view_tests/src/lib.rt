//! Worked inputs of `rlview`, each with all that it writes. Tests alone.
#![tactic(auto)]

#[cfg(test)]
mod chart_rows;
#[cfg(test)]
mod charts;
#[cfg(test)]
mod pair_rows;
#[cfg(test)]
mod promise_rows;
#[cfg(test)]
mod promises;
