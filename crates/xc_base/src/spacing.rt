//! Canonical texts: tokens are written side by side, and a blank parts two words.

ghost use Rattle.std.specs.Prelude.{◌≡◌, ◌<◌, [], ◌∷◌, ◌++◌, length, IfOk, OnOk, OnErr};
ghost use Rattle.xc_base.specs.Canonical.{spaced, canonical};
ghost use Rattle.xc_base.specs.Fronts.{IsFront};
ghost use Rattle.xc_base.specs.Laws.{CanonicalIsCut, CanonicalIsSound};
ghost use Rattle.xc_base.specs.Lines.{texts};
ghost use Rattle.xc_base.specs.Names.{name_at};
ghost use Rattle.xc_base.specs.Spacing.{gap_after};
ghost use Rattle.xc_base.specs.Words.{is_word};

use crate::lines::Lexeme;
use crate::list::{Bytes, List};
use crate::memory::Memory;
use crate::word::is_word_text;
use std::alloc::Global;

fn text_at<'a>(tokens: &[Lexeme<'a>], place: usize) -> &'a [u8]
    requires { place < length tokens.now }
    ensures { result.now ≡ name_at (texts tokens.now) place }
{
    tokens[place].text
}

#[tactic(auto, using(crate::proofs::SpacedTokens::no_word))]
fn is_word_at(tokens: &[Lexeme], place: usize) -> bool
    ensures { result ≡ is_word (name_at (texts tokens.now) place) }
{
    place < tokens.len() && is_word_text(text_at(tokens, place))
}

/// Appends a blank, where both the token at a place and the one behind it are words. A text for which there is no memory
/// stays as it was.
#[tactic(auto, unfolding(crate::specs::Spacing::gap_after))]
fn push_gap(text: &mut Bytes, tokens: &[Lexeme], place: usize) -> Result<(), Memory>
    requires { place < length tokens.now }
    ensures ok { OnOk result (text.new ≡ text.old ++ gap_after (texts tokens.now) place) }
    ensures err { OnErr result (text.new ≡ text.old) }
{
    if is_word_at(tokens, place) && is_word_at(tokens, place + 1) {
        text.push(b' ')
    } else {
        Ok(())
    }
}

/// Appends tokens, with a blank between two words that follow each other and no other blanks. For want of memory it
/// appends a front of that.
#[tactic(auto, using(std::proofs::lemmas::Grind::common_steps, crate::proofs::SpacedTokens::spaced_steps, crate::proofs::Fronts::token_lacks_its_blank))]
pub fn push_tokens(text: &mut Bytes, tokens: &[Lexeme]) -> Result<(), Memory>
    ensures ok { OnOk result (text.new ≡ text.old ++ spaced (texts tokens.now)) }
    ensures err { OnErr result (IsFront (spaced (texts tokens.now)) text.old text.new) }
{
    for place in 0..tokens.len() {
        text.extend(text_at(tokens, place))?;
        push_gap(text, tokens, place)?;
    }
    Ok(())
}

/// The text of tokens, with a blank between two words that follow each other and no other blanks.
pub fn spaced(alloc: Global, tokens: &[Lexeme]) -> Result<Bytes, Memory>
    ensures { IfOk result (λ text. text ≡ spaced (texts tokens.now)) }
{
    let mut text = List::new(alloc);
    push_tokens(&mut text, tokens)?;
    Ok(text)
}

/// Appends a line of a canonical text: its tokens, and a line feed. For want of memory it appends a front of that.
#[tactic(auto, using(crate::proofs::SpacedTokens::line_ends, crate::proofs::Fronts::line_stops, crate::proofs::Fronts::line_lacks_its_end))]
pub fn push_line(text: &mut Bytes, tokens: &[Lexeme]) -> Result<(), Memory>
    ensures ok { OnOk result (text.new ≡ text.old ++ canonical (texts tokens.now ∷ [])) }
    ensures err { OnErr result (IsFront (canonical (texts tokens.now ∷ [])) text.old text.new) }
{
    push_tokens(text, tokens)?;
    text.push(b'\n')
}

/// A canonical text is cut into its lines, and has no fault where no line is too long and the text is within its limit.
pub fn canonical_texts_are_cut()
    ensures cut { CanonicalIsCut }
    ensures sound { CanonicalIsSound }
{}
