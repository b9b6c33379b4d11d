//! What follows from the definitions of actions.

ghost use Rattle.xc_expr.specs.Laws.{ActionsAreRead, ActionsAreUnique, KnownActionsAreInRange};

/// The tokens of an action are read as that action, and as no other.
///
/// It does nothing: its contract says what follows from the definitions.
pub fn actions_are_read()
    ensures read { ActionsAreRead }
    ensures unique { ActionsAreUnique }
    ensures range { KnownActionsAreInRange }
{}
