use xc_base::List;

/// What an action does with one variable. All right sides are read at the state that the action leaves.
#[derive(Clone, Copy, Debug, PartialEq, Eq)]
pub enum Assign {
    /// The variable gets that value.
    Value { var: u8, value: u8 },
    /// It gets the place of the other variable.
    Copy { var: u8, from: u8 },
    /// It gets the place behind that of the other variable, and the first one behind the last.
    Next { var: u8, from: u8 },
    /// It gets the place before that of the other variable, and the last one before the first.
    Prev { var: u8, from: u8 },
    /// It gets any place.
    Any { var: u8 },
}

/// The assignments of a command. A variable that none of them assigns stays where it is.
pub type Action = List<Assign>;
