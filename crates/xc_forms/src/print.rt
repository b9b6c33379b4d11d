//! Canonical lines of what is declared.

ghost use Rattle.std.specs.Prelude.{◌≡◌, ◌++◌, ◌∷◌, [], map, OnOk};
ghost use Rattle.xc_base.specs.Lines.{texts};
ghost use Rattle.xc_forms.specs.VariableLines.{var_tokens};
ghost use Rattle.xc_forms.specs.PrintedLines.{printed};

use crate::domain::Domain;
use std::alloc::Global;
use xc_base::{Bytes, Lexeme, List, Memory, Word, push_line};

/// A word of a line.
pub fn word<'a>(text: &'a [u8]) -> Lexeme<'a>
    ensures { result.text.now ≡ text.now }
{
    Lexeme { text, word: true }
}

/// A name in a line.
pub fn lexeme<'a>(word: &'a Word) -> Lexeme<'a>
    ensures { result.text.now ≡ word.now }
{
    Lexeme {
        text: word.as_str().as_bytes(),
        word: true,
    }
}

/// Appends names to the tokens of a line.
#[tactic(auto, using(crate::proofs::PrintedLines::words_from, crate::proofs::PrintedLines::words_end))]
pub fn push_words<'a>(tokens: &mut List<Lexeme<'a>>, words: &'a [Word]) -> Result<(), Memory>
    ensures { OnOk result (texts tokens.new ≡ texts tokens.old ++ words.now) }
{
    for x in words {
        tokens.push(lexeme(x))?;
    }
    Ok(())
}

#[tactic(auto, unfolding(crate::specs::PrintedLines::printed))]
fn push_var(alloc: Global, text: &mut Bytes, domain: &Domain) -> Result<(), Memory>
    ensures { OnOk result (text.new ≡ text.old ++ printed var_tokens (domain.now ∷ [])) }
{
    let mut tokens = List::new(alloc);
    tokens.push(word(b"var"))?;
    tokens.push(lexeme(&domain.name))?;
    push_words(&mut tokens, domain.values.as_slice())?;
    push_line(text, tokens.as_slice())
}

/// Appends the lines of variables.
#[tactic(auto, using(std::proofs::lemmas::Grind::common_steps, crate::proofs::PrintedLines::vars_from, crate::proofs::PrintedLines::vars_end))]
pub fn push_vars(alloc: Global, text: &mut Bytes, vars: &[Domain]) -> Result<(), Memory>
    ensures { OnOk result (text.new ≡ text.old ++ printed var_tokens vars.now) }
{
    for domain in vars {
        push_var(alloc, text, domain)?;
    }
    Ok(())
}
