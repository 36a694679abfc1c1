//! Reading the fields behind each word of a schedule.

pub(crate) mod alike;
pub(crate) mod dif;
pub(crate) mod flow;
mod last;
mod place;
pub(crate) mod step;
pub(crate) mod wire;
