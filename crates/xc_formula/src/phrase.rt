use crate::prefix::{Paths, Prefix};
use xc_base::{Lexeme, List};

/// A formula as it is written, with names.
#[derive(Debug, Drop)]
pub enum Phrase<'a> {
    True,
    False,
    /// A proposition.
    Name(&'a [u8]),
    /// An element, by the names between `{` and `}`.
    Braces(List<Lexeme<'a>>),
    Prefixed(Prefix, Box<Phrase<'a>>),
    Until(Paths, Box<Phrase<'a>>, Box<Phrase<'a>>),
    And(Box<Phrase<'a>>, Box<Phrase<'a>>),
    Or(Box<Phrase<'a>>, Box<Phrase<'a>>),
    Implies(Box<Phrase<'a>>, Box<Phrase<'a>>),
}

/// A formula in front of tokens, and the tokens behind it.
#[derive(Debug, Drop)]
pub(crate) struct Parsed<'t, 'a> {
    pub(crate) phrase: Phrase<'a>,
    pub(crate) rest: &'t [Lexeme<'a>],
}
