//! The transitions from one state.

use xc_base::List;

/// A state that a transition leads to, and the value of the transition.
#[derive(Clone, Copy, Debug)]
pub(crate) struct Successor {
    pub(crate) state: u16,
    pub(crate) value: u16,
}

/// The values of the transitions from one state: of few alone, or of those to each state.
#[derive(Debug, Drop)]
pub(crate) enum Row {
    Few(List<Successor>),
    Each(List<u16>),
}
