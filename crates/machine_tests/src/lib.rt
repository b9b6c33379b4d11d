//! Tests of merges, merged machines, the explicit engine and reports: what no clause says of them, against values by hand.
#![tactic(auto)]

#[cfg(test)]
mod encoders;
#[cfg(test)]
mod engines;
#[cfg(test)]
mod frames;
#[cfg(test)]
mod machines;
#[cfg(test)]
mod reports;
