use xc_base::{List, Word};
use xc_expr::{Phrase, Setting};
use xc_forms::Domain;

/// A statement of a viewpoint file. Guards and actions have the names that the file's text has.
#[derive(Debug, Drop)]
pub enum Statement<'a> {
    /// The file is the view of this name.
    View(Word),
    /// Its values are of the lattice in this file.
    Lattice(Word),
    /// A variable.
    Var(Domain),
    /// What holds at the initial states.
    Init(Phrase),
    /// A line of a proposition: its name, its value, and where it holds.
    Prop(Word, Word, Phrase),
    /// A command: its name, its value, where it may go, and what it does.
    Command(Word, Word, Phrase, List<Setting<'a>>),
}
