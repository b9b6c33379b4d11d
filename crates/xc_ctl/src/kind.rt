/// A node of a formula: a constant by its code, a proposition by its place, or an operation on the nodes of those numbers.
#[derive(Clone, Copy, Debug, PartialEq, Eq)]
pub enum Kind {
    Const(u16),
    Atom(u16),
    Not(u16),
    And(u16, u16),
    Or(u16, u16),
    /// What holds at some next state.
    Ex(u16),
    /// The second holds on some path, and until then the first.
    Eu(u16, u16),
    /// The second holds on each path, and until then the first.
    Au(u16, u16),
    /// What holds all along some path.
    Eg(u16),
}
