ghost use Rattle.std.specs.Prelude.{◌≡◌, ◌&&◌, true, length, nat_lt, IfOk};
ghost use Rattle.xc_base.specs.Lines.{texts};
ghost use Rattle.xc_sigmap_lines.specs.Deciding.{map_line, use_line, var_line, prop_line};
ghost use Rattle.xc_sigmap_lines.specs.Deciding.{first_pair, pairs_in, send_parts, send_line, named_told, constant_told, told_in, tell_line, stutter_line, word_line, line};

use crate::parts::{Told, Use};
use crate::statement::{Pair, Statement};
use crate::words::is_prop_name;
use std::alloc::Global;
use xc_base::{Lexeme, List, Memory, Word, is_name_text, is_word_text};
use xc_forms::var_line;

fn map_line(alloc: Global, tokens: &[Lexeme]) -> Result<Option<Statement>, Memory>
    ensures { IfOk result (λ s. s ≡ map_line (texts tokens.now)) }
{
    match tokens {
        [name] if is_name_text(name.text) => {
            let name = Word::of(alloc, name.text)?;
            Ok(Some(Statement::Map(name)))
        }
        _ => Ok(None),
    }
}

fn use_line(alloc: Global, tokens: &[Lexeme]) -> Result<Option<Statement>, Memory>
    ensures { IfOk result (λ s. s ≡ use_line (texts tokens.now)) }
{
    match tokens {
        [name, file]
            if is_name_text(name.text) && is_word_text(file.text) && file.text.len() <= 255 => {
            let name = Word::of(alloc, name.text)?;
            let file = Word::of(alloc, file.text)?;
            Ok(Some(Statement::Use(Use { name, file })))
        }
        _ => Ok(None),
    }
}

fn declared_line(alloc: Global, tokens: &[Lexeme]) -> Result<Option<Statement>, Memory>
    ensures { IfOk result (λ s. s ≡ var_line (texts tokens.now)) }
{
    match var_line(alloc, tokens)? {
        Some(domain) => Ok(Some(Statement::Var(domain))),
        None => Ok(None),
    }
}

fn prop_line(alloc: Global, tokens: &[Lexeme]) -> Result<Option<Statement>, Memory>
    ensures { IfOk result (λ s. s ≡ prop_line (texts tokens.now)) }
{
    match tokens {
        [name] if is_prop_name(name.text) => {
            let name = Word::of(alloc, name.text)?;
            Ok(Some(Statement::Prop(name)))
        }
        _ => Ok(None),
    }
}

/// The pair that the first three tokens are, where they are one.
fn first_pair(alloc: Global, tokens: &[Lexeme]) -> Result<Option<Pair>, Memory>
    ensures { IfOk result (λ p. p ≡ first_pair (texts tokens.now)) }
{
    match tokens {
        [value, mark, word, ..]
            if mark.text == b"=".as_slice()
                && is_name_text(value.text)
                && is_name_text(word.text) => {
            let from = Word::of(alloc, value.text)?;
            let to = Word::of(alloc, word.text)?;
            Ok(Some(Pair { from, to }))
        }
        _ => Ok(None),
    }
}

/// The pairs that the tokens are, where they are pairs and nothing else.
#[tactic(auto, using(crate::proofs::Pairs::pairs_end))]
fn pairs(alloc: Global, tokens: &[Lexeme]) -> Result<Option<List<Pair>>, Memory>
    ensures { IfOk result (λ pairs. pairs ≡ pairs_in (texts tokens.now)) }
{
    let mut pairs = List::new(alloc);
    let mut place = 0;
    while place < tokens.len() {
        let Some(pair) = first_pair(alloc, &tokens[place..])? else {
            return Ok(None);
        };
        pairs.push(pair)?;
        place += 3;
    }
    Ok(Some(pairs))
}

fn send_parts(
    alloc: Global,
    viewpoint: &[u8],
    variable: &[u8],
    source: &[u8],
    tokens: &[Lexeme],
) -> Result<Option<Statement>, Memory>
    ensures { IfOk result
        (λ s. s ≡ send_parts viewpoint.now variable.now source.now (texts tokens.now)) }
{
    if is_name_text(viewpoint) && is_name_text(variable) && is_name_text(source) {
        let Some(pairs) = pairs(alloc, tokens)? else {
            return Ok(None);
        };
        let viewpoint = Word::of(alloc, viewpoint)?;
        let variable = Word::of(alloc, variable)?;
        let source = Word::of(alloc, source)?;
        return Ok(Some(Statement::Send(viewpoint, variable, source, pairs)));
    }
    Ok(None)
}

#[tactic(auto, using(crate::proofs::Pairs::too_few))]
fn send_line(alloc: Global, tokens: &[Lexeme]) -> Result<Option<Statement>, Memory>
    ensures { IfOk result (λ s. s ≡ send_line (texts tokens.now)) }
{
    match tokens {
        [viewpoint, variable, source, tokens @ ..] => {
            send_parts(alloc, viewpoint.text, variable.text, source.text, tokens)
        }
        _ => Ok(None),
    }
}

fn named_told(alloc: Global, name: &[u8]) -> Result<Option<Told>, Memory>
    ensures { IfOk result (λ t. t ≡ named_told name.now) }
{
    if is_name_text(name) {
        let name = Word::of(alloc, name)?;
        return Ok(Some(Told::Named(name)));
    }
    Ok(None)
}

fn constant_told(alloc: Global, mark: &[u8], value: &[u8]) -> Result<Option<Told>, Memory>
    ensures { IfOk result (λ t. t ≡ constant_told mark.now value.now) }
{
    if mark == b"as".as_slice() && is_name_text(value) {
        let value = Word::of(alloc, value)?;
        return Ok(Some(Told::Constant(value)));
    }
    Ok(None)
}

fn told(alloc: Global, tokens: &[Lexeme]) -> Result<Option<Told>, Memory>
    ensures { IfOk result (λ t. t ≡ told_in (texts tokens.now)) }
{
    match tokens {
        [name] => named_told(alloc, name.text),
        [mark, value] => constant_told(alloc, mark.text, value.text),
        _ => Ok(None),
    }
}

fn tell_line(alloc: Global, tokens: &[Lexeme]) -> Result<Option<Statement>, Memory>
    ensures { IfOk result (λ s. s ≡ tell_line (texts tokens.now)) }
{
    match tokens {
        [viewpoint, prop, tokens @ ..] if is_name_text(viewpoint.text) && is_name_text(prop.text) =>
            {
                let Some(told) = told(alloc, tokens)? else {
                    return Ok(None);
                };
                let viewpoint = Word::of(alloc, viewpoint.text)?;
                let prop = Word::of(alloc, prop.text)?;
                Ok(Some(Statement::Tell(viewpoint, prop, told)))
            }
        _ => Ok(None),
    }
}

fn stutter_line(alloc: Global, tokens: &[Lexeme]) -> Result<Option<Statement>, Memory>
    ensures { IfOk result (λ s. s ≡ stutter_line (texts tokens.now)) }
{
    match tokens {
        [viewpoint, value] if is_name_text(viewpoint.text) && is_name_text(value.text) => {
            let viewpoint = Word::of(alloc, viewpoint.text)?;
            let value = Word::of(alloc, value.text)?;
            Ok(Some(Statement::Stutter(viewpoint, value)))
        }
        _ => Ok(None),
    }
}

#[tactic(auto, unfolding(crate::specs::Deciding::word_line))]
fn word_line(alloc: Global, word: &[u8], tokens: &[Lexeme]) -> Result<Option<Statement>, Memory>
    ensures { IfOk result (λ s. s ≡ word_line word.now (texts tokens.now)) }
{
    if word == b"map".as_slice() {
        map_line(alloc, tokens)
    } else if word == b"use".as_slice() {
        use_line(alloc, tokens)
    } else if word == b"var".as_slice() {
        declared_line(alloc, tokens)
    } else if word == b"prop".as_slice() {
        prop_line(alloc, tokens)
    } else if word == b"send".as_slice() {
        send_line(alloc, tokens)
    } else if word == b"tell".as_slice() {
        tell_line(alloc, tokens)
    } else if word == b"stutter".as_slice() {
        stutter_line(alloc, tokens)
    } else {
        Ok(None)
    }
}

/// The statement that a row of these tokens is, where it is one.
#[tactic(auto, unfolding(crate::specs::Deciding::line))]
pub fn line(alloc: Global, tokens: &[Lexeme]) -> Result<Option<Statement>, Memory>
    ensures { IfOk result (λ s. s ≡ line (texts tokens.now)) }
{
    match tokens {
        [word, tokens @ ..] => word_line(alloc, word.text, tokens),
        [] => Ok(None),
    }
}
