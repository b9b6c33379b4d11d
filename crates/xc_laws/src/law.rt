/// The laws of a lattice with an involution, in the order in which a file is judged by them.
#[derive(Clone, Copy, Debug, PartialEq, Eq)]
pub enum Law {
    /// No two different elements are each below the other.
    Antisymmetry,
    /// Each two elements have a greatest lower bound.
    Meet,
    /// Each two elements have a least upper bound.
    Join,
    /// `a meet (b join c)` is `(a meet b) join (a meet c)`.
    Distributive,
    /// The negation of the negation of `a` is `a`.
    Involution,
    /// Where `a` is below `b`, the negation of `b` is below that of `a`.
    Antitone,
}
