use xc_base::{List, Word};

/// A statement of a lattice file.
#[derive(Debug, Drop)]
pub enum Statement {
    /// The file is the lattice of this name.
    Lattice(Word),
    /// Its elements.
    Elements(List<Word>),
    /// One element is below another.
    Below(Word, Word),
    /// The negation of the first is the second.
    Not(Word, Word),
}
