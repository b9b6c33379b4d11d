use crate::parts::{Told, Use};
use xc_base::{List, Word};
use xc_forms::Domain;

/// A value of a map's variable, and the word that it is carried to.
#[derive(Debug, Drop)]
pub struct Pair {
    pub from: Word,
    pub to: Word,
}

/// A statement of a map file, with the names that the file's text has.
#[derive(Debug, Drop)]
pub enum Statement {
    /// The file is the map of this name.
    Map(Word),
    /// A viewpoint and its file.
    Use(Use),
    /// A variable.
    Var(Domain),
    /// A proposition.
    Prop(Word),
    /// A viewpoint's variable is read from a variable of the map: the viewpoint, its variable, the map's, and the pairs of values.
    Send(Word, Word, Word, List<Pair>),
    /// What a viewpoint tells of a proposition: the viewpoint, the proposition, and what it tells.
    Tell(Word, Word, Told),
    /// What a viewpoint gives to steps that it cannot see: the viewpoint, and the value.
    Stutter(Word, Word),
}
