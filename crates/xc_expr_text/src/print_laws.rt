//! What is printed is read again.

ghost use Rattle.xc_expr_text.specs.PrintLaws.{PrintedGuardsAreRead, ReadGuardsAreWritable, TestsAreUnique, PrintedActionsAreRead, ReadActionsAreWritable, AssignsAreUnique, GuardsAreLineParts, ActionsAreLineParts, NoPrintIsLonger, ActionsKeepTheirTokens};

/// The tokens that are printed of a guard are that guard, where it can be written, as each guard can that was read.
pub fn printed_guards_are_read()
    ensures again { PrintedGuardsAreRead }
    ensures writable { ReadGuardsAreWritable }
    ensures unique { TestsAreUnique }
    ensures parts { GuardsAreLineParts }
    ensures short { NoPrintIsLonger }
{}

/// The same of actions.
pub fn printed_actions_are_read()
    ensures again { PrintedActionsAreRead }
    ensures writable { ReadActionsAreWritable }
    ensures unique { AssignsAreUnique }
    ensures parts { ActionsAreLineParts }
    ensures same { ActionsKeepTheirTokens }
{}
