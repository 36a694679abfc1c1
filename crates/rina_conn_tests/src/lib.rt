//! Connections and their parts: cutting and joining, numbers and receivers, senders, timers. Tests alone.
#![tactic(auto)]

#[cfg(test)]
mod conn;
#[cfg(test)]
mod delim;
#[cfg(test)]
mod dtcp;
#[cfg(test)]
mod dtp;
#[cfg(test)]
mod exchange;
#[cfg(test)]
mod timers;
