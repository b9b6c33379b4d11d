//! What a kind of expressions is made of.

ghost use Rattle.std.specs.Prelude.{◌≡◌, ◌≤◌, ℕ, List, Option, true, option_map, IfOk};
ghost use Rattle.xc_base.specs.Lines.{texts};
ghost use Rattle.xc_base.specs.Operators.{Front};
ghost use Rattle.xc_grammar.specs.Grammars.{Grammar};
ghost use Rattle.xc_grammar.specs.Parsed.{front_of};

use std::alloc::Global;
use xc_base::{Lexeme, Memory};

/// A tree in front of tokens, and the tokens behind it.
#[derive(Debug, Drop)]
pub struct Parsed<'t, 'a, E> {
    /// What the tokens in front are.
    pub tree: E,
    /// The tokens that are left.
    pub rest: &'t [Lexeme<'a>],
}

/// A kind of expressions, with what the parser of all kinds needs of it: how its trees are made, and which tokens it has.
///
/// The grammar says the same in contracts. `parse` and `trees_are_read` also want it to be read without doubt, by `Reads`.
pub trait Expression: Sized + Drop {
    ghost Tree: { Type 0 };

    ghost tree: { Self → Tree };

    ghost grammar: { Grammar Tree };

    ghost atom_in: { List (List ℕ) → Option (Front Tree) };

    /// How many operators group to the left.
    fn operators() -> usize
        ensures { result ≡ grammar.count };

    /// The token of an operator, of those that group to the left or of the one behind them.
    fn mark(operator: usize) -> &'static [u8]
        requires { operator ≤ grammar.count }
        ensures { result.now ≡ grammar.mark operator };

    /// What an operator makes of two trees. It fails where there is no memory.
    fn join(alloc: Global, operator: usize, left: Self, right: Self) -> Result<Self, Memory>
        requires { operator ≤ grammar.count }
        ensures { IfOk result (λ t. tree t ≡ grammar.join operator (tree left) (tree right)) };

    /// Whether a token stands before a tree.
    fn is_prefix(token: &[u8]) -> bool
        ensures { result ≡ grammar.is_prefix token.now };

    /// What such a token makes of the tree. It fails where there is no memory.
    fn apply(alloc: Global, token: &[u8], inner: Self) -> Result<Self, Memory>
        requires { grammar.is_prefix token.now ≡ true }
        ensures { IfOk result (λ t. tree t ≡ grammar.apply token.now (tree inner)) };

    /// Whether a token stands before two trees in brackets.
    fn is_pair(token: &[u8]) -> bool
        ensures { result ≡ grammar.is_pair token.now };

    /// What such a token makes of them. It fails where there is no memory; it is not called where no token is one.
    fn pair(alloc: Global, token: &[u8], left: Self, right: Self) -> Result<Self, Memory>
        ensures { IfOk result (λ t. tree t ≡ grammar.pair token.now (tree left) (tree right)) };

    /// Whether there is one operator more, which groups to the right.
    fn has_arrow() -> bool
        ensures { result ≡ grammar.arrow };

    /// The tree with no tree in it that stands in front, where there is one. It fails where there is no memory.
    fn atom<'t, 'a>(
        alloc: Global,
        tokens: &'t [Lexeme<'a>],
    ) -> Result<Option<Parsed<'t, 'a, Self>>, Memory>
        ensures { IfOk result (λ p. option_map (front_of tree) p ≡ atom_in (texts tokens.now)) };
}
