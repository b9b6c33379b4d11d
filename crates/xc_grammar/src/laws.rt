ghost use Rattle.xc_grammar.specs.Reading.{Reads};
ghost use Rattle.xc_grammar.specs.Laws.{TreesAreRead, TreesAreUnique};

use crate::expression::Expression;

/// Of each kind of expressions, tokens are the tree that is read of them, and no other.
///
/// It does nothing: its contract says what follows from the definitions.
pub fn trees_are_read<E: Expression>()
    requires { Reads E.grammar E.atom_in }
    ensures read { TreesAreRead E.grammar E.atom_in }
    ensures unique { TreesAreUnique E.grammar }
{}
