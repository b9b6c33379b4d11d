use xc_base::Memory;

/// Why tokens are no guard or action with known names.
#[derive(Clone, Copy, Debug, PartialEq, Eq)]
pub enum ExprFault {
    /// They are not in the grammar.
    Grammar,
    /// They set a variable twice.
    Repeated,
    /// They name what there is not.
    Unknown,
    Memory,
}

impl From<Memory> for ExprFault {
    ghost use Rattle.std.specs.Prelude.{◌≡◌};
    ghost use Rattle.xc_expr.specs.declared.fault.ExprFault.TheVariants.{Memory as NoMemory};

    ghost from_gives = { λ _ e. e ≡ NoMemory };

    fn from(_e: Memory) -> ExprFault {
        ExprFault::Memory
    }
}
