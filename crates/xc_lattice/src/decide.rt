ghost use Rattle.std.specs.Prelude.{◌≡◌, ◌&&◌, true, length, nat_lt, IfOk};
ghost use Rattle.std.specs.List.{list_all};
ghost use Rattle.xc_base.specs.Words.{is_name};
ghost use Rattle.xc_base.specs.Lines.{texts};
ghost use Rattle.xc_lattice.specs.Deciding.{head_line, elements_line, pair_line, law_line, decide};

use crate::statement::Statement;
use std::alloc::Global;
use xc_base::{Lexeme, List, Memory, Word, is_name_text};

fn all_names(tokens: &[Lexeme]) -> bool
    ensures { result ≡ list_all (λ x. is_name x.text.now) tokens.now }
{
    tokens.iter().all(|x| is_name_text(x.text))
}

#[tactic(auto, using(crate::proofs::Tokens::all_texts, crate::proofs::Tokens::some_texts))]
fn are_names(tokens: &[Lexeme]) -> bool
    ensures { result ≡ (nat_lt 0 (length (texts tokens.now)) && list_all is_name (texts tokens.now)) }
{
    !tokens.is_empty() && all_names(tokens)
}

#[tactic(auto, using(crate::proofs::Tokens::names_are_words))]
fn words_of(alloc: Global, tokens: &[Lexeme]) -> Result<List<Word>, Memory>
    requires { list_all is_name (texts tokens.now) ≡ true }
    ensures { IfOk result (λ names. names ≡ texts tokens.now) }
{
    let mut names = List::new(alloc);
    for x in tokens {
        names.push(Word::of(alloc, x.text)?)?;
    }
    Ok(names)
}

fn head_line(alloc: Global, tokens: &[Lexeme]) -> Result<Option<Statement>, Memory>
    ensures { IfOk result (λ s. s ≡ head_line (texts tokens.now)) }
{
    match tokens {
        [word, name] if word.text == b"lattice".as_slice() && is_name_text(name.text) => {
            let name = Word::of(alloc, name.text)?;
            Ok(Some(Statement::Lattice(name)))
        }
        _ => Ok(None),
    }
}

fn elements_line(alloc: Global, tokens: &[Lexeme]) -> Result<Option<Statement>, Memory>
    ensures { IfOk result (λ s. s ≡ elements_line (texts tokens.now)) }
{
    match tokens {
        [word, names @ ..] if word.text == b"elements".as_slice() && are_names(names) => {
            let names = words_of(alloc, names)?;
            Ok(Some(Statement::Elements(names)))
        }
        _ => Ok(None),
    }
}

fn pair_line(
    alloc: Global,
    word: &[u8],
    first: &[u8],
    second: &[u8],
) -> Result<Option<Statement>, Memory>
    requires first { is_name first.now ≡ true }
    requires second { is_name second.now ≡ true }
    ensures { IfOk result (λ s. s ≡ pair_line word.now first.now second.now) }
{
    let a = Word::of(alloc, first)?;
    let b = Word::of(alloc, second)?;
    if word == b"below".as_slice() {
        Ok(Some(Statement::Below(a, b)))
    } else if word == b"not".as_slice() {
        Ok(Some(Statement::Not(a, b)))
    } else {
        Ok(None)
    }
}

fn law_line(alloc: Global, tokens: &[Lexeme]) -> Result<Option<Statement>, Memory>
    ensures { IfOk result (λ s. s ≡ law_line (texts tokens.now)) }
{
    match tokens {
        [word, a, b] if is_name_text(a.text) && is_name_text(b.text) => {
            pair_line(alloc, word.text, a.text, b.text)
        }
        _ => Ok(None),
    }
}

/// The statement that a row with these tokens is after the statements before it, where it is one.
#[tactic(auto, unfolding(crate::specs::Deciding::decide))]
pub(crate) fn decide(
    alloc: Global,
    before: &List<Statement>,
    tokens: &[Lexeme],
) -> Result<Option<Statement>, Memory>
    ensures { IfOk result (λ s. s ≡ decide before.now (texts tokens.now)) }
{
    match before.as_slice() {
        [] => head_line(alloc, tokens),
        [_] => elements_line(alloc, tokens),
        _ => law_line(alloc, tokens),
    }
}
