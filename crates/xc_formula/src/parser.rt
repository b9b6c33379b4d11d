//! Formulas from tokens.

ghost use Rattle.std.specs.Prelude.{◌≡◌, IfOk};
ghost use Rattle.std.specs.Option.{option_map};
ghost use Rattle.xc_base.specs.Lines.{texts};
ghost use Rattle.xc_formula.specs.Reading.{formula_in};
ghost use Rattle.xc_formula.specs.FormulaReading.{written, front_of, prefix_in, paths_in, until, in_brackets, under, nested_by, basic, nested, product, sum, implication};

use crate::atom_parser::atom;
use crate::operators::{and, applied, closed, implying, or, until_closed};
use crate::phrase::{Parsed, Phrase};
use crate::prefix::{Paths, paths_in, prefix_in};
use std::alloc::Global;
use xc_base::{Lexeme, Memory, behind};

/// How many prefixes and brackets may stand around each other.
const DEPTH_LIMIT: usize = 512;

#[tactic(auto, using(crate::proofs::ParserSteps::until_steps))]
#[cycle(parser)]
fn until<'t, 'a>(
    alloc: Global,
    paths: Paths,
    tokens: &'t [Lexeme<'a>],
    depth: usize,
) -> Result<Option<Parsed<'t, 'a>>, Memory>
    ensures { IfOk result (λ p. option_map front_of p ≡ until paths (implication depth) (texts tokens.now)) }
{
    let Some(more) = behind(tokens, b"[") else {
        return Ok(None);
    };
    let Some(left) = implication(alloc, more, depth)? else {
        return Ok(None);
    };
    let Some(middle) = behind(left.rest, b"U") else {
        return Ok(None);
    };
    let right = implication(alloc, middle, depth)?;
    until_closed(alloc, paths, left.phrase, right)
}

#[cycle(parser)]
fn in_brackets<'t, 'a>(
    alloc: Global,
    token: &[u8],
    rest: &'t [Lexeme<'a>],
    depth: usize,
) -> Result<Option<Parsed<'t, 'a>>, Memory>
    ensures { IfOk result
        (λ p. option_map front_of p ≡ in_brackets (implication depth) token.now (texts rest.now) (paths_in token.now)) }
{
    if let Some(paths) = paths_in(token) {
        until(alloc, paths, rest, depth)
    } else if token == b"(".as_slice() {
        let inner = implication(alloc, rest, depth)?;
        Ok(closed(inner))
    } else {
        Ok(None)
    }
}

#[tactic(auto, using(crate::proofs::ParserSteps::under_brackets))]
#[cycle(parser)]
fn under<'t, 'a>(
    alloc: Global,
    token: &[u8],
    rest: &'t [Lexeme<'a>],
    depth: usize,
) -> Result<Option<Parsed<'t, 'a>>, Memory>
    ensures { IfOk result
        (λ p. option_map front_of p ≡ under (basic depth) token.now (texts rest.now) (prefix_in token.now)) }
{
    if let Some(prefix) = prefix_in(token) {
        let inner = basic(alloc, rest, depth)?;
        applied(alloc, prefix, inner)
    } else {
        in_brackets(alloc, token, rest, depth)
    }
}

#[cycle(parser)]
fn deeper<'t, 'a>(
    alloc: Global,
    tokens: &'t [Lexeme<'a>],
    depth: usize,
) -> Result<Option<Parsed<'t, 'a>>, Memory>
    ensures { IfOk result (λ p. option_map front_of p ≡ nested_by (basic depth) (texts tokens.now)) }
{
    match tokens {
        [first, rest @ ..] => under(alloc, first.text, rest, depth),
        [] => Ok(None),
    }
}

#[tactic(auto, using(crate::proofs::ParserSteps::nested_steps))]
#[cycle(parser)]
fn nested<'t, 'a>(
    alloc: Global,
    tokens: &'t [Lexeme<'a>],
    depth: usize,
) -> Result<Option<Parsed<'t, 'a>>, Memory>
    ensures { IfOk result (λ p. option_map front_of p ≡ nested depth (texts tokens.now)) }
{
    if depth == 0 {
        return Ok(None);
    }
    deeper(alloc, tokens, depth - 1)
}

#[tactic(auto, using(crate::proofs::ParserSteps::basic_is))]
#[cycle(parser)]
fn basic<'t, 'a>(
    alloc: Global,
    tokens: &'t [Lexeme<'a>],
    depth: usize,
) -> Result<Option<Parsed<'t, 'a>>, Memory>
    ensures { IfOk result (λ p. option_map front_of p ≡ basic depth (texts tokens.now)) }
{
    match atom(alloc, tokens)? {
        Some(parsed) => Ok(Some(parsed)),
        None => nested(alloc, tokens, depth),
    }
}

#[tactic(auto, using(crate::proofs::ParserSteps::product_steps))]
#[cycle(parser)]
fn product<'t, 'a>(
    alloc: Global,
    tokens: &'t [Lexeme<'a>],
    depth: usize,
) -> Result<Option<Parsed<'t, 'a>>, Memory>
    ensures { IfOk result (λ p. option_map front_of p ≡ product depth (texts tokens.now)) }
{
    let Some(first) = basic(alloc, tokens, depth)? else {
        return Ok(None);
    };
    let mut phrase = first.phrase;
    let mut rest = first.rest;
    while let Some(more) = behind(rest, b"&") {
        let Some(next) = basic(alloc, more, depth)? else {
            return Ok(None);
        };
        phrase = and(alloc, phrase, next.phrase)?;
        rest = next.rest;
    }
    Ok(Some(Parsed { phrase, rest }))
}

#[tactic(auto, using(crate::proofs::ParserSteps::sum_steps))]
#[cycle(parser)]
fn sum<'t, 'a>(
    alloc: Global,
    tokens: &'t [Lexeme<'a>],
    depth: usize,
) -> Result<Option<Parsed<'t, 'a>>, Memory>
    ensures { IfOk result (λ p. option_map front_of p ≡ sum depth (texts tokens.now)) }
{
    let Some(first) = product(alloc, tokens, depth)? else {
        return Ok(None);
    };
    let mut phrase = first.phrase;
    let mut rest = first.rest;
    while let Some(more) = behind(rest, b"|") {
        let Some(next) = product(alloc, more, depth)? else {
            return Ok(None);
        };
        phrase = or(alloc, phrase, next.phrase)?;
        rest = next.rest;
    }
    Ok(Some(Parsed { phrase, rest }))
}

#[tactic(auto, using(crate::proofs::ParserSteps::implication_steps))]
#[cycle(parser)]
fn implication<'t, 'a>(
    alloc: Global,
    tokens: &'t [Lexeme<'a>],
    depth: usize,
) -> Result<Option<Parsed<'t, 'a>>, Memory>
    ensures { IfOk result (λ p. option_map front_of p ≡ implication depth (texts tokens.now)) }
{
    let Some(first) = sum(alloc, tokens, depth)? else {
        return Ok(None);
    };
    let Some(more) = behind(first.rest, b"->") else {
        return Ok(Some(first));
    };
    let right = implication(alloc, more, depth)?;
    implying(alloc, first.phrase, right)
}

/// The formula that the tokens are, where they are one.
#[tactic(auto, unfolding(crate::specs::Reading::formula_in))]
pub fn parse_formula<'a>(alloc: Global, tokens: &[Lexeme<'a>]) -> Result<Option<Phrase<'a>>, Memory>
    ensures { IfOk result (λ f. option_map written f ≡ formula_in (texts tokens.now)) }
{
    match implication(alloc, tokens, DEPTH_LIMIT)? {
        Some(parsed) if parsed.rest.is_empty() => Ok(Some(parsed.phrase)),
        _ => Ok(None),
    }
}
