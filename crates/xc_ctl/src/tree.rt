/// A formula written out: with places and codes in place of names, and without abbreviations.
#[derive(Debug, Drop)]
pub enum Tree {
    Const(u16),
    Atom(u16),
    Not(Box<Tree>),
    And(Box<Tree>, Box<Tree>),
    Or(Box<Tree>, Box<Tree>),
    /// What holds at some next state.
    Ex(Box<Tree>),
    /// The second holds on some path, and until then the first.
    Eu(Box<Tree>, Box<Tree>),
    /// The second holds on each path, and until then the first.
    Au(Box<Tree>, Box<Tree>),
    /// What holds all along some path.
    Eg(Box<Tree>),
}
