//! Laws of the definitions in `specs/`, carried by a function with an empty body.
ghost use Rattle.xc_formula.specs.Laws.{FormulasAreRead, FormulasAreUnique};

/// Tokens are the formula that is read and no other, and no tokens are two formulas.
#[tactic(auto, using(crate::proofs::FormulaReading::formulas_are_read, crate::proofs::FormulaReading::formulas_are_unique))]
pub fn formulas_are_read()
    ensures read { FormulasAreRead }
    ensures unique { FormulasAreUnique }
{}
