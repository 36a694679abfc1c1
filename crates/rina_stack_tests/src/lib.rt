//! For each rule on stacks the least stack that breaks it and the nearest that doesn't, in tables.
#![tactic(auto)]

#[cfg(test)]
mod cases;
#[cfg(test)]
mod examples;
#[cfg(test)]
mod plans;
#[cfg(test)]
mod rules;
#[cfg(test)]
mod tops;
#[cfg(test)]
mod values;
#[cfg(test)]
mod walks;
