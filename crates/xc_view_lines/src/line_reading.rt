ghost use Rattle.std.specs.Prelude.{◌≡◌, true, IfOk, codes};
ghost use Rattle.std.specs.List.{position};
ghost use Rattle.std.specs.Option.{option_map};
ghost use Rattle.std.specs.Str.{bytes_eq};
ghost use Rattle.xc_base.specs.Words.{is_name, is_word};
ghost use Rattle.xc_base.specs.Lines.{texts};
ghost use Rattle.xc_view_lines.specs.LineReading.{view_line, lattice_line, var_line, init_line, prop_line};
ghost use Rattle.xc_view_lines.specs.LineReading.{command_parts, command_line, word_line, line};
ghost use Rattle.xc_view_lines.specs.Statements.{stated};

use crate::statement::Statement;
use std::alloc::Global;
use xc_base::{Lexeme, Memory, Word, is_name_text, is_word_text};
use xc_expr::{parse_action, parse_guard};
use xc_forms::var_line;

fn view_line<'a>(alloc: Global, tokens: &[Lexeme<'a>]) -> Result<Option<Statement<'a>>, Memory>
    ensures { IfOk result (λ s. option_map stated s ≡ view_line (texts tokens.now)) }
{
    match tokens {
        [name] if is_name_text(name.text) => {
            let name = Word::of(alloc, name.text)?;
            Ok(Some(Statement::View(name)))
        }
        _ => Ok(None),
    }
}

fn lattice_line<'a>(alloc: Global, tokens: &[Lexeme<'a>]) -> Result<Option<Statement<'a>>, Memory>
    ensures { IfOk result (λ s. option_map stated s ≡ lattice_line (texts tokens.now)) }
{
    match tokens {
        [file] if is_word_text(file.text) && file.text.len() <= 255 => {
            let file = Word::of(alloc, file.text)?;
            Ok(Some(Statement::Lattice(file)))
        }
        _ => Ok(None),
    }
}

fn declared_line<'a>(alloc: Global, tokens: &[Lexeme]) -> Result<Option<Statement<'a>>, Memory>
    ensures { IfOk result (λ s. option_map stated s ≡ var_line (texts tokens.now)) }
{
    match var_line(alloc, tokens)? {
        Some(domain) => Ok(Some(Statement::Var(domain))),
        None => Ok(None),
    }
}

fn init_line<'a>(alloc: Global, tokens: &[Lexeme<'a>]) -> Result<Option<Statement<'a>>, Memory>
    ensures { IfOk result (λ s. option_map stated s ≡ init_line (texts tokens.now)) }
{
    match parse_guard(alloc, tokens)? {
        Some(guard) => Ok(Some(Statement::Init(guard))),
        None => Ok(None),
    }
}

fn prop_line<'a>(alloc: Global, tokens: &[Lexeme<'a>]) -> Result<Option<Statement<'a>>, Memory>
    ensures { IfOk result (λ s. option_map stated s ≡ prop_line (texts tokens.now)) }
{
    match tokens {
        [name, value, when, tokens @ ..]
            if when.text == b"when".as_slice()
                && is_name_text(name.text)
                && is_name_text(value.text) => {
            let Some(guard) = parse_guard(alloc, tokens)? else {
                return Ok(None);
            };
            let name = Word::of(alloc, name.text)?;
            let value = Word::of(alloc, value.text)?;
            Ok(Some(Statement::Prop(name, value, guard)))
        }
        _ => Ok(None),
    }
}

/// The place of the first `do`.
fn find_do(tokens: &[Lexeme]) -> Option<usize>
    ensures { result ≡ position (λ x. bytes_eq (codes "do") x.text.now) tokens.now }
{
    tokens.iter().position(|x| b"do".as_slice() == x.text)
}

#[tactic(auto, using(crate::proofs::Tokens::do_in_texts, crate::proofs::Tokens::front_texts, xc_forms::proofs::Tokens::back_texts), unfolding(crate::specs::LineReading::command_parts))]
fn command_parts<'a>(
    alloc: Global,
    name: &[u8],
    value: &[u8],
    tokens: &[Lexeme<'a>],
) -> Result<Option<Statement<'a>>, Memory>
    requires name { is_word name.now ≡ true }
    requires value { is_word value.now ≡ true }
    ensures { IfOk result
        (λ s. option_map stated s ≡ command_parts name.now value.now (texts tokens.now)) }
{
    let Some(place) = find_do(tokens) else {
        return Ok(None);
    };
    let Some(guard) = parse_guard(alloc, &tokens[..place])? else {
        return Ok(None);
    };
    let Some(action) = parse_action(alloc, &tokens[place + 1..])? else {
        return Ok(None);
    };
    let name = Word::of(alloc, name)?;
    let value = Word::of(alloc, value)?;
    Ok(Some(Statement::Command(name, value, guard, action)))
}

fn command_line<'a>(alloc: Global, tokens: &[Lexeme<'a>]) -> Result<Option<Statement<'a>>, Memory>
    ensures { IfOk result (λ s. option_map stated s ≡ command_line (texts tokens.now)) }
{
    match tokens {
        [name, with, value, when, tokens @ ..]
            if with.text == b"with".as_slice()
                && when.text == b"when".as_slice()
                && is_name_text(name.text)
                && is_name_text(value.text) => {
            command_parts(alloc, name.text, value.text, tokens)
        }
        _ => Ok(None),
    }
}

#[tactic(auto, unfolding(crate::specs::LineReading::word_line))]
fn word_line<'a>(
    alloc: Global,
    word: &[u8],
    tokens: &[Lexeme<'a>],
) -> Result<Option<Statement<'a>>, Memory>
    ensures { IfOk result (λ s. option_map stated s ≡ word_line word.now (texts tokens.now)) }
{
    if word == b"view".as_slice() {
        view_line(alloc, tokens)
    } else if word == b"lattice".as_slice() {
        lattice_line(alloc, tokens)
    } else if word == b"var".as_slice() {
        declared_line(alloc, tokens)
    } else if word == b"init".as_slice() {
        init_line(alloc, tokens)
    } else if word == b"prop".as_slice() {
        prop_line(alloc, tokens)
    } else if word == b"command".as_slice() {
        command_line(alloc, tokens)
    } else {
        Ok(None)
    }
}

/// The statement that a row of these tokens is, where it is one.
#[tactic(auto, unfolding(crate::specs::LineReading::line))]
pub fn line<'a>(alloc: Global, tokens: &[Lexeme<'a>]) -> Result<Option<Statement<'a>>, Memory>
    ensures { IfOk result (λ s. option_map stated s ≡ line (texts tokens.now)) }
{
    match tokens {
        [word, tokens @ ..] => word_line(alloc, word.text, tokens),
        [] => Ok(None),
    }
}
