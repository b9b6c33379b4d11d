//! Laws of the definitions.

ghost use Rattle.xc_expr.specs.Laws.{GuardsAreRead, GuardsAreUnique, KnownGuardsAreInRange};

/// Tokens are the guard that is read and no other, no tokens are two guards, and a guard of known names is in range.
#[tactic(auto, using(crate::proofs::GuardReading::guard_read, crate::proofs::GuardReading::guard_unique, crate::proofs::GuardRange::resolved_in_range))]
pub fn guards_are_read()
    ensures read { GuardsAreRead }
    ensures unique { GuardsAreUnique }
    ensures in_range { KnownGuardsAreInRange }
{}
