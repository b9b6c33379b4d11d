//! Tests of texts, files, orders, lattices and products, of what no clause says: that calls succeed where there is memory, and what the
//! system's files do.
#![tactic(auto)]

#[cfg(test)]
mod algebras;
#[cfg(test)]
mod files;
#[cfg(test)]
mod orders;
#[cfg(test)]
mod texts;
