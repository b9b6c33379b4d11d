//! Tests of guards and actions, viewpoints and generated files, of what no clause says: values by hand that no answer of `run` shows.
#![tactic(auto)]

#[cfg(test)]
mod generated;
#[cfg(test)]
mod states;
#[cfg(test)]
mod views;
