use xc_base::Word;
use xc_expr::{Action, Guard};

/// A line of a proposition: where the guard holds, the proposition has the value at least.
#[derive(Debug, Drop)]
pub struct PropLine {
    pub name: Word,
    pub value: Word,
    pub guard: Guard,
}

/// A command: where the guard holds, the action is a step of that value.
#[derive(Debug, Drop)]
pub struct Command {
    pub name: Word,
    pub value: Word,
    pub guard: Guard,
    pub action: Action,
}
