//! Trees from tokens.

ghost use Rattle.std.specs.Prelude.{◌≡◌, ◌≤◌, true, IfOk, codes, option_map};
ghost use Rattle.std.specs.Option.{option_and_then};
ghost use Rattle.xc_base.specs.Lines.{texts};
ghost use Rattle.xc_grammar.specs.Reading.{applied, closed, pair_closed, pair_of, in_brackets, under, nested_by, nested, basic, level, whole_at, tree_in, Reads};
ghost use Rattle.xc_grammar.specs.Righted.{implying};
ghost use Rattle.xc_grammar.specs.Parsed.{front_of};

use crate::expression::{Expression, Parsed};
use std::alloc::Global;
use xc_base::{Lexeme, Memory, behind};

fn applied<'t, 'a, E: Expression>(
    alloc: Global,
    token: &[u8],
    parsed: Option<Parsed<'t, 'a, E>>,
) -> Result<Option<Parsed<'t, 'a, E>>, Memory>
    requires { E.grammar.is_prefix token.now ≡ true }
    ensures { IfOk result (λ p. option_map (front_of E.tree) p ≡ applied E.grammar token.now (option_map (front_of E.tree) parsed.entry)) }
{
    match parsed {
        Some(p) => Ok(Some(Parsed {
            tree: E::apply(alloc, token, p.tree)?,
            rest: p.rest,
        })),
        None => Ok(None),
    }
}

fn closed<'t, 'a, E: Expression>(parsed: Option<Parsed<'t, 'a, E>>) -> Option<Parsed<'t, 'a, E>>
    ensures { option_map (front_of E.tree) result ≡ closed (option_map (front_of E.tree) parsed.entry) }
{
    let p = parsed?;
    let rest = behind(p.rest, b")")?;
    Some(Parsed { tree: p.tree, rest })
}

fn implying<'t, 'a, E: Expression>(
    alloc: Global,
    left: E,
    right: Option<Parsed<'t, 'a, E>>,
) -> Result<Option<Parsed<'t, 'a, E>>, Memory>
    ensures { IfOk result
        (λ p. option_map (front_of E.tree) p ≡ implying (E.grammar.mark E.grammar.count) (E.grammar.join E.grammar.count) (E.tree left) (option_map (front_of E.tree) right.entry)) }
{
    match right {
        Some(p) => Ok(Some(Parsed {
            tree: E::join(alloc, E::operators(), left, p.tree)?,
            rest: p.rest,
        })),
        None => Ok(None),
    }
}

fn pair_closed<'t, 'a, E: Expression>(
    alloc: Global,
    token: &[u8],
    left: E,
    right: Option<Parsed<'t, 'a, E>>,
) -> Result<Option<Parsed<'t, 'a, E>>, Memory>
    requires { E.grammar.is_pair token.now ≡ true }
    ensures { IfOk result
        (λ p. option_map (front_of E.tree) p ≡ pair_closed E.grammar token.now (E.tree left) (option_map (front_of E.tree) right.entry)) }
{
    let Some(p) = right else {
        return Ok(None);
    };
    let Some(rest) = behind(p.rest, b"]") else {
        return Ok(None);
    };
    let tree = E::pair(alloc, token, left, p.tree)?;
    Ok(Some(Parsed { tree, rest }))
}

#[tactic(auto, using(crate::proofs::Steps::pair_steps))]
#[cycle(parser)]
fn pair_of<'t, 'a, E: Expression>(
    alloc: Global,
    token: &[u8],
    rest: &'t [Lexeme<'a>],
    depth: usize,
) -> Result<Option<Parsed<'t, 'a, E>>, Memory>
    requires reads { Reads E.grammar E.atom_in }
    requires pair { E.grammar.is_pair token.now ≡ true }
    ensures { IfOk result
        (λ p. option_map (front_of E.tree) p ≡ pair_of E.grammar token.now (whole_at E.grammar E.atom_in depth) (texts rest.now)) }
{
    let Some(more) = behind(rest, b"[") else {
        return Ok(None);
    };
    let Some(left) = whole(alloc, more, depth)? else {
        return Ok(None);
    };
    let Some(middle) = behind(left.rest, b"U") else {
        return Ok(None);
    };
    let right = whole(alloc, middle, depth)?;
    pair_closed(alloc, token, left.tree, right)
}

#[cycle(parser)]
fn in_brackets<'t, 'a, E: Expression>(
    alloc: Global,
    token: &[u8],
    rest: &'t [Lexeme<'a>],
    depth: usize,
) -> Result<Option<Parsed<'t, 'a, E>>, Memory>
    requires { Reads E.grammar E.atom_in }
    ensures { IfOk result
        (λ p. option_map (front_of E.tree) p ≡ in_brackets E.grammar token.now (whole_at E.grammar E.atom_in depth) (texts rest.now)) }
{
    if E::is_pair(token) {
        pair_of(alloc, token, rest, depth)
    } else if token == b"(".as_slice() {
        let inner = whole(alloc, rest, depth)?;
        Ok(closed(inner))
    } else {
        Ok(None)
    }
}

#[tactic(auto, using(crate::proofs::Steps::under_brackets))]
#[cycle(parser)]
fn under<'t, 'a, E: Expression>(
    alloc: Global,
    token: &[u8],
    rest: &'t [Lexeme<'a>],
    depth: usize,
) -> Result<Option<Parsed<'t, 'a, E>>, Memory>
    requires { Reads E.grammar E.atom_in }
    ensures { IfOk result
        (λ p. option_map (front_of E.tree) p ≡ under E.grammar (basic E.grammar E.atom_in depth) token.now (texts rest.now)) }
{
    if E::is_prefix(token) {
        let inner = basic(alloc, rest, depth)?;
        applied(alloc, token, inner)
    } else {
        in_brackets(alloc, token, rest, depth)
    }
}

#[cycle(parser)]
fn deeper<'t, 'a, E: Expression>(
    alloc: Global,
    tokens: &'t [Lexeme<'a>],
    depth: usize,
) -> Result<Option<Parsed<'t, 'a, E>>, Memory>
    requires { Reads E.grammar E.atom_in }
    ensures { IfOk result
        (λ p. option_map (front_of E.tree) p ≡ nested_by E.grammar (basic E.grammar E.atom_in depth) (texts tokens.now)) }
{
    match tokens {
        [first, rest @ ..] => under(alloc, first.text, rest, depth),
        [] => Ok(None),
    }
}

#[tactic(auto, using(crate::proofs::Steps::nested_steps))]
#[cycle(parser)]
fn nested<'t, 'a, E: Expression>(
    alloc: Global,
    tokens: &'t [Lexeme<'a>],
    depth: usize,
) -> Result<Option<Parsed<'t, 'a, E>>, Memory>
    requires { Reads E.grammar E.atom_in }
    ensures { IfOk result (λ p. option_map (front_of E.tree) p ≡ nested E.grammar E.atom_in depth (texts tokens.now)) }
{
    if depth == 0 {
        return Ok(None);
    }
    deeper(alloc, tokens, depth - 1)
}

#[tactic(auto, using(crate::proofs::Steps::basic_is))]
#[cycle(parser)]
fn basic<'t, 'a, E: Expression>(
    alloc: Global,
    tokens: &'t [Lexeme<'a>],
    depth: usize,
) -> Result<Option<Parsed<'t, 'a, E>>, Memory>
    requires { Reads E.grammar E.atom_in }
    ensures { IfOk result (λ p. option_map (front_of E.tree) p ≡ basic E.grammar E.atom_in depth (texts tokens.now)) }
{
    match E::atom(alloc, tokens)? {
        Some(parsed) => Ok(Some(parsed)),
        None => nested(alloc, tokens, depth),
    }
}

/// Trees with operators between them that bind at least as much as so many.
#[tactic(auto, using(crate::proofs::Steps::level_steps))]
#[cycle(parser)]
fn level<'t, 'a, E: Expression>(
    alloc: Global,
    tokens: &'t [Lexeme<'a>],
    depth: usize,
    count: usize,
) -> Result<Option<Parsed<'t, 'a, E>>, Memory>
    requires reads { Reads E.grammar E.atom_in }
    requires count { count ≤ E.grammar.count }
    ensures { IfOk result (λ p. option_map (front_of E.tree) p ≡ level E.grammar E.atom_in count depth (texts tokens.now)) }
{
    if count == 0 {
        return basic(alloc, tokens, depth);
    }
    let Some(first) = level(alloc, tokens, depth, count - 1)? else {
        return Ok(None);
    };
    let mut tree: E = first.tree;
    let mut rest = first.rest;
    while let Some(more) = behind(rest, E::mark(count - 1)) {
        let Some(next) = level(alloc, more, depth, count - 1)? else {
            return Ok(None);
        };
        tree = E::join(alloc, count - 1, tree, next.tree)?;
        rest = next.rest;
    }
    Ok(Some(Parsed { tree, rest }))
}

/// Trees with all operators between them.
#[tactic(auto, using(crate::proofs::Steps::whole_steps))]
#[cycle(parser)]
fn whole<'t, 'a, E: Expression>(
    alloc: Global,
    tokens: &'t [Lexeme<'a>],
    depth: usize,
) -> Result<Option<Parsed<'t, 'a, E>>, Memory>
    requires { Reads E.grammar E.atom_in }
    ensures { IfOk result (λ p. option_map (front_of E.tree) p ≡ whole_at E.grammar E.atom_in depth (texts tokens.now)) }
{
    let Some(first) = level(alloc, tokens, depth, E::operators())? else {
        return Ok(None);
    };
    if !E::has_arrow() {
        return Ok(Some(first));
    }
    let Some(more) = behind(first.rest, E::mark(E::operators())) else {
        return Ok(Some(first));
    };
    let right = whole(alloc, more, depth)?;
    implying(alloc, first.tree, right)
}

/// The tree that the tokens are, where they are one, with at most so many prefixes and brackets around each other.
///
/// It fails where there is no memory.
#[tactic(auto, unfolding(crate::specs::Reading::tree_in))]
pub fn parse<'a, E: Expression>(
    alloc: Global,
    tokens: &[Lexeme<'a>],
    depth: usize,
) -> Result<Option<E>, Memory>
    requires { Reads E.grammar E.atom_in }
    ensures { IfOk result (λ t. option_map E.tree t ≡ tree_in E.grammar E.atom_in depth (texts tokens.now)) }
{
    match whole(alloc, tokens, depth)? {
        Some(parsed) if parsed.rest.is_empty() => Ok(Some(parsed.tree)),
        _ => Ok(None),
    }
}
