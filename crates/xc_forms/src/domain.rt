use xc_base::{List, Word};

/// A variable: its name, and the names of its values in order.
#[derive(Debug, Drop)]
pub struct Domain {
    pub name: Word,
    pub values: List<Word>,
}

/// The variables of a view or a map. A state over them is the code of one place for each, the first most significant.
pub type Vars = List<Domain>;
