//! Guards from tokens, as a kind of expressions.

ghost use Rattle.std.specs.Prelude.{◌≡◌, true, IfOk, option_map};
ghost use Rattle.xc_base.specs.Lines.{texts};
ghost use Rattle.xc_forms.specs.VariableNames.{is_variable_name as is_variable_text};
ghost use Rattle.xc_grammar.specs.Parsed.{front_of};
ghost use Rattle.xc_expr.specs.Written.{written};
ghost use Rattle.xc_expr.specs.Reading.{guard_in};
ghost use Rattle.xc_expr.specs.GuardReading.{comparison, literal, atom, guards};

use crate::phrase::Phrase;
use std::alloc::Global;
use xc_base::{Lexeme, Memory, Word};
use xc_forms::{is_value_name, is_variable_name};
use xc_grammar::{Expression, Parsed, parse};

/// How many `!` and brackets may stand around each other.
const DEPTH_LIMIT: usize = 64;

#[tactic(auto, using(crate::proofs::Atoms::names_are_words))]
fn comparison<'t, 'a>(
    alloc: Global,
    name: &[u8],
    tokens: &'t [Lexeme<'a>],
) -> Result<Option<Parsed<'t, 'a, Phrase>>, Memory>
    requires { is_variable_text name.now ≡ true }
    ensures { IfOk result (λ p. option_map (front_of written) p ≡ comparison name.now (texts tokens.now)) }
{
    let [sign, value, rest @ ..] = tokens else {
        return Ok(None);
    };
    if !is_value_name(value.text) {
        return Ok(None);
    }
    if sign.text == b"=".as_slice() {
        let tree = Phrase::Equal(Word::of(alloc, name)?, Word::of(alloc, value.text)?);
        Ok(Some(Parsed { tree, rest }))
    } else if sign.text == b"!=".as_slice() {
        let tree = Phrase::Unequal(Word::of(alloc, name)?, Word::of(alloc, value.text)?);
        Ok(Some(Parsed { tree, rest }))
    } else {
        Ok(None)
    }
}

fn literal<'t, 'a>(token: &[u8], rest: &'t [Lexeme<'a>]) -> Option<Parsed<'t, 'a, Phrase>>
    ensures { option_map (front_of written) result ≡ literal token.now (texts rest.now) }
{
    let tree = if token == b"true".as_slice() {
        Phrase::True
    } else if token == b"false".as_slice() {
        Phrase::False
    } else {
        return None;
    };
    Some(Parsed { tree, rest })
}

impl Expression for Phrase {
    ghost use Rattle.xc_expr.specs.Written.{Written};

    ghost Tree = { Written };

    ghost tree = { written };

    ghost grammar = { guards };

    ghost atom_in = { atom };

    fn operators() -> usize {
        2
    }

    fn mark(operator: usize) -> &'static [u8] {
        if operator == 0 { b"&" } else { b"|" }
    }

    fn join(alloc: Global, operator: usize, left: Phrase, right: Phrase) -> Result<Phrase, Memory> {
        let left = Box::new(alloc, left)?;
        let right = Box::new(alloc, right)?;
        if operator == 0 {
            Ok(Phrase::And(left, right))
        } else {
            Ok(Phrase::Or(left, right))
        }
    }

    fn is_prefix(token: &[u8]) -> bool {
        token == b"!".as_slice()
    }

    fn apply(alloc: Global, _token: &[u8], inner: Phrase) -> Result<Phrase, Memory> {
        Ok(Phrase::Not(Box::new(alloc, inner)?))
    }

    fn is_pair(_token: &[u8]) -> bool {
        false
    }

    fn pair(_alloc: Global, _token: &[u8], left: Phrase, _right: Phrase) -> Result<Phrase, Memory> {
        Ok(left)
    }

    fn has_arrow() -> bool {
        false
    }

    #[tactic(auto, unfolding(crate::specs::GuardReading::atom))]
    fn atom<'t, 'a>(
        alloc: Global,
        tokens: &'t [Lexeme<'a>],
    ) -> Result<Option<Parsed<'t, 'a, Phrase>>, Memory> {
        let [first, rest @ ..] = tokens else {
            return Ok(None);
        };
        if is_variable_name(first.text) {
            comparison(alloc, first.text, rest)
        } else {
            Ok(literal(first.text, rest))
        }
    }
}

/// The guard that the tokens are, where they are one.
#[tactic(auto, using(crate::proofs::Atoms::guards_read), unfolding(crate::specs::Reading::guard_in))]
pub fn parse_guard(alloc: Global, tokens: &[Lexeme]) -> Result<Option<Phrase>, Memory>
    ensures { IfOk result (λ guard. option_map written guard ≡ guard_in (texts tokens.now)) }
{
    parse::<Phrase>(alloc, tokens, DEPTH_LIMIT)
}
