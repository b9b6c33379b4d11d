//! Lines that declare variables.

ghost use Rattle.std.specs.Prelude.{◌≡◌, ◌&&◌, true, length, nat_lt, IfOk};
ghost use Rattle.std.specs.List.{list_all, list_any, position};
ghost use Rattle.std.specs.Str.{bytes_eq};
ghost use Rattle.xc_base.specs.Lines.{texts};
ghost use Rattle.xc_forms.specs.Variables.{names_of};
ghost use Rattle.xc_forms.specs.VariableNames.{is_value_name as is_value_text};
ghost use Rattle.xc_forms.specs.VariableLines.{is_var_again};
ghost use Rattle.xc_forms.specs.VariableReading.{var_line};

use crate::domain::Domain;
use crate::words::{is_value_name, is_variable_name};
use std::alloc::Global;
use xc_base::{Lexeme, List, Memory, Word, has_twice};

fn all_value_names(tokens: &[Lexeme]) -> bool
    ensures { result ≡ list_all (λ x. is_value_text x.text.now) tokens.now }
{
    tokens.iter().all(|x| is_value_name(x.text))
}

#[tactic(auto, using(crate::proofs::Tokens::all_texts, crate::proofs::Tokens::some_texts))]
fn are_value_names(tokens: &[Lexeme]) -> bool
    ensures { result ≡ (nat_lt 0 (length (texts tokens.now)) && list_all is_value_text (texts tokens.now)) }
{
    !tokens.is_empty() && all_value_names(tokens)
}

#[tactic(auto, using(crate::proofs::Tokens::values_are_words))]
fn words_of(alloc: Global, tokens: &[Lexeme]) -> Result<List<Word>, Memory>
    requires { list_all is_value_text (texts tokens.now) ≡ true }
    ensures { IfOk result (λ words. words ≡ texts tokens.now) }
{
    let mut words = List::new(alloc);
    for x in tokens {
        words.push(Word::of(alloc, x.text)?)?;
    }
    Ok(words)
}

/// The variable that the tokens behind `var` declare, where they declare one.
pub fn var_line(alloc: Global, tokens: &[Lexeme]) -> Result<Option<Domain>, Memory>
    ensures { IfOk result (λ d. d ≡ var_line (texts tokens.now)) }
{
    match tokens {
        [name, values @ ..] if is_variable_name(name.text) && are_value_names(values) => {
            let name = Word::of(alloc, name.text)?;
            let values = words_of(alloc, values)?;
            Ok(Some(Domain { name, values }))
        }
        _ => Ok(None),
    }
}

fn is_var_of(domain: &Domain, name: &Word) -> bool
    ensures { result ≡ bytes_eq name.now domain.now.name }
{
    name.as_str() == domain.name.as_str()
}

fn var_place(vars: &[Domain], name: &Word) -> Option<usize>
    ensures { result ≡ position (λ d. bytes_eq name.now d.name) vars.now }
{
    vars.iter().position(|domain| is_var_of(domain, name))
}

/// The place of the variable of a name.
#[tactic(auto, using(crate::proofs::Tokens::var_position))]
pub fn find_var(vars: &[Domain], name: &Word) -> Option<usize>
    ensures { result ≡ position (bytes_eq name.now) (names_of vars.now) }
{
    var_place(vars, name)
}

fn has_var(vars: &[Domain], name: &Word) -> bool
    ensures { result ≡ list_any (λ d. bytes_eq name.now d.name) vars.now }
{
    vars.iter().any(|domain| is_var_of(domain, name))
}

/// Whether a variable is declared again, or has a value twice.
#[tactic(auto, using(crate::proofs::Tokens::any_name))]
pub fn is_var_again(vars: &[Domain], domain: &Domain) -> bool
    ensures { result ≡ is_var_again vars.now domain.now }
{
    has_var(vars, &domain.name) || has_twice(domain.values.as_slice())
}
