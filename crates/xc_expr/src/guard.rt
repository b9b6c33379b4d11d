/// A test of the places of variables. Variables and values are named by their places in their lists.
#[derive(Debug, Drop)]
pub enum Guard {
    True,
    False,
    /// The variable has the value.
    Is { var: u8, value: u8 },
    /// It has another value.
    IsNot { var: u8, value: u8 },
    /// Both variables have the same value.
    Same { left: u8, right: u8 },
    /// They have different values.
    Differ { left: u8, right: u8 },
    Not(Box<Guard>),
    And(Box<Guard>, Box<Guard>),
    Or(Box<Guard>, Box<Guard>),
}
