//! What is worked out once of a viewpoint.

use xc_alg::AnyTable;
use xc_base::{Bytes, List};

/// Where a variable of a viewpoint is read from: a variable of the map, and the place that each of its values is carried to.
#[derive(Clone, Copy, Debug)]
pub struct Feed {
    pub source: u8,
    pub places: [u8; 16],
}

/// What a viewpoint tells of a proposition of the map: an element everywhere, or what those of its lines say that count.
#[derive(Debug, Drop)]
pub struct Telling {
    pub fixed: Option<u8>,
    /// For each line of the view, whether it counts.
    pub counts: List<bool>,
}

/// What is worked out once of a viewpoint.
#[derive(Drop)]
pub struct Tables {
    /// The operations of its lattice, and the least element.
    pub operations: AnyTable,
    pub bottom: u8,
    /// Where its variables are read from.
    pub feeds: List<Feed>,
    /// The elements of its commands, and those of its lines.
    pub weights: Bytes,
    pub marks: Bytes,
    /// What it tells of the map's propositions.
    pub tellings: List<Telling>,
    /// The element of steps that it does not see.
    pub stutter: u8,
}
