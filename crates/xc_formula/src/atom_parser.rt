//! Formulas with no formula in them, from tokens.

ghost use Rattle.std.specs.Prelude.{◌≡◌, IfOk};
ghost use Rattle.std.specs.Option.{option_map};
ghost use Rattle.xc_base.specs.Lines.{texts};
ghost use Rattle.xc_formula.specs.FormulaReading.{written, front_of, named_front, listed_front, one_name, names, in_braces, word_formula, word_before, atom_at, atom};

use crate::phrase::{Parsed, Phrase};
use crate::words::is_prop_name;
use std::alloc::Global;
use xc_base::{Lexeme, List, Memory, behind, is_name_text};

/// A name in front of tokens, and the tokens behind it.
#[derive(Clone, Copy, Debug)]
pub(crate) struct Named<'t, 'a> {
    name: Lexeme<'a>,
    rest: &'t [Lexeme<'a>],
}

/// Names in front of tokens, and the tokens behind them.
#[derive(Debug, Drop)]
pub(crate) struct Listed<'t, 'a> {
    names: List<Lexeme<'a>>,
    rest: &'t [Lexeme<'a>],
}

#[tactic(auto, unfolding(crate::specs::FormulaReading::one_name))]
fn one_name<'t, 'a>(tokens: &'t [Lexeme<'a>]) -> Option<Named<'t, 'a>>
    ensures { option_map named_front result ≡ one_name (texts tokens.now) }
{
    match tokens {
        [name, rest @ ..] if is_name_text(name.text) => Some(Named { name: *name, rest }),
        _ => None,
    }
}

/// Names with a `,` between two.
#[tactic(auto, using(crate::proofs::NameSteps::name_steps))]
fn names<'t, 'a>(alloc: Global, tokens: &'t [Lexeme<'a>]) -> Result<Option<Listed<'t, 'a>>, Memory>
    ensures { IfOk result (λ l. option_map listed_front l ≡ names (texts tokens.now)) }
{
    let Some(first) = one_name(tokens) else {
        return Ok(None);
    };
    let mut names = List::new(alloc);
    names.push(first.name)?;
    let mut rest = first.rest;
    while let Some(more) = behind(rest, b",") {
        let Some(next) = one_name(more) else {
            return Ok(None);
        };
        names.push(next.name)?;
        rest = next.rest;
    }
    Ok(Some(Listed { names, rest }))
}

fn in_braces<'t, 'a>(listed: Option<Listed<'t, 'a>>) -> Option<Parsed<'t, 'a>>
    ensures { option_map front_of result ≡ in_braces (option_map listed_front listed.entry) }
{
    let l = listed?;
    let rest = behind(l.rest, b"}")?;
    Some(Parsed {
        phrase: Phrase::Braces(l.names),
        rest,
    })
}

fn word_formula<'a>(token: &'a [u8]) -> Option<Phrase<'a>>
    ensures { option_map written result ≡ word_formula token.now }
{
    if is_prop_name(token) {
        Some(Phrase::Name(token))
    } else if token == b"true".as_slice() {
        Some(Phrase::True)
    } else if token == b"false".as_slice() {
        Some(Phrase::False)
    } else {
        None
    }
}

fn word_before<'t, 'a>(token: &'a [u8], rest: &'t [Lexeme<'a>]) -> Option<Parsed<'t, 'a>>
    ensures { option_map front_of result ≡ word_before token.now (texts rest.now) }
{
    let phrase = word_formula(token)?;
    Some(Parsed { phrase, rest })
}

fn atom_at<'t, 'a>(
    alloc: Global,
    token: &'a [u8],
    rest: &'t [Lexeme<'a>],
) -> Result<Option<Parsed<'t, 'a>>, Memory>
    ensures { IfOk result (λ p. option_map front_of p ≡ atom_at token.now (texts rest.now)) }
{
    if token == b"{".as_slice() {
        let listed = names(alloc, rest)?;
        Ok(in_braces(listed))
    } else {
        Ok(word_before(token, rest))
    }
}

/// A formula with no formula in it, in front of tokens.
#[tactic(auto, unfolding(crate::specs::FormulaReading::atom))]
pub(crate) fn atom<'t, 'a>(
    alloc: Global,
    tokens: &'t [Lexeme<'a>],
) -> Result<Option<Parsed<'t, 'a>>, Memory>
    ensures { IfOk result (λ p. option_map front_of p ≡ atom (texts tokens.now)) }
{
    match tokens {
        [first, rest @ ..] => atom_at(alloc, first.text, rest),
        [] => Ok(None),
    }
}
