//! Tests of the texts: words of the command line, sources and sinks, lines of a schedule, notes, and what is drawn from a number.
#![tactic(auto)]

#[cfg(test)]
mod drawn;
#[cfg(test)]
mod io;
#[cfg(test)]
mod line_reader;
#[cfg(test)]
mod report;
#[cfg(test)]
mod schedule;
#[cfg(test)]
mod seven;
#[cfg(test)]
mod words;
