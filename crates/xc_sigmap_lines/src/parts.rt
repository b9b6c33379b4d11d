//! The parts of a map.

use xc_base::{List, Word};

/// A viewpoint: its name in the map, and the file of its view.
#[derive(Debug, Drop)]
pub struct Use {
    pub name: Word,
    pub file: Word,
}

/// A value of a map's variable, by its place, and the word that it is carried to.
#[derive(Debug, Drop)]
pub struct Carry {
    pub value: u8,
    pub word: Word,
}

/// Where a viewpoint reads one of its variables from: a variable of the map, with the values that are carried to other words.
#[derive(Debug, Drop)]
pub struct SendLine {
    /// The viewpoint's place among those of the map.
    pub viewpoint: u8,
    /// The name of the viewpoint's variable.
    pub variable: Word,
    /// The place of the map's variable.
    pub from: u8,
    pub pairs: List<Carry>,
}

/// What a viewpoint tells of a proposition: that of its own with this name, or this value everywhere.
#[derive(Debug, Drop)]
pub enum Told {
    Named(Word),
    Constant(Word),
}

/// What a viewpoint tells of a proposition of the map.
#[derive(Debug, Drop)]
pub struct Tell {
    /// The viewpoint's place among those of the map.
    pub viewpoint: u8,
    /// The proposition's place among those of the map.
    pub prop: u16,
    pub told: Told,
}

/// The value that a viewpoint gives to steps that it cannot see.
#[derive(Debug, Drop)]
pub struct Stutter {
    /// The viewpoint's place among those of the map.
    pub viewpoint: u8,
    pub value: Word,
}
