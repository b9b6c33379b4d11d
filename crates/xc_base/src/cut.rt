//! Cuts a text into lines, and a line into tokens.

ghost use Rattle.std.specs.Prelude.{◌≡◌, ◌+◌, ◌^◌, ◌<◌, ◌≤◌, ◌++◌, [], ◌∷◌, None, length, drop, not, IfOk, OnOk, IfErr, IfSome, MatchOption, ◌==◌};
ghost use Rattle.std.specs.List.{prefix_len, position_or_len, list_any};
ghost use Rattle.xc_base.specs.Cutting.{token_size, IsFaultOf};
ghost use Rattle.xc_base.specs.Lines.{rows_in, text_rows};
ghost use Rattle.xc_base.specs.Text.{is_blank, is_allowed, joins, tokens_from, rows_from, rows_of, first_fault_from, text_fault, IsTextFault};

use crate::fault::TextFault;
use crate::lines::{Line, Lines, Token};
use crate::list::List;
use crate::memory::Memory;
use crate::word::is_word_byte;
use std::alloc::Global;

/// How many bytes a line may have.
const LONGEST_LINE: usize = 4096;

/// Cuts a text that may have so many bytes into lines.
///
/// The fault is that of the first line that has one; a text over the limit is not looked at, and for want of memory the
/// fault is `Memory`.
#[tactic(auto, using(crate::proofs::CutLines::line_steps, crate::proofs::Within::rows_within))]
pub fn cut_lines<'a>(alloc: Global, bytes: &'a [u8], limit: usize) -> Result<Lines<'a>, TextFault>
    requires { limit < 2 ^ 32 }
    ensures source { IfOk result (λ l. l.source.now ≡ bytes.now) }
    ensures rows { IfOk result (λ l. l.rows ≡ rows_of bytes.now) }
    ensures seen { IfOk result (λ l. rows_in l ≡ text_rows bytes.now) }
    ensures sound { OnOk result (text_fault limit bytes.now ≡ None) }
    ensures fault { IfErr result (IsTextFault limit bytes.now) }
{
    if bytes.len() > limit {
        return Err(TextFault::LongFile);
    }
    let mut rows = List::new(alloc);
    let mut number = 0;
    let mut place = 0;
    while place < bytes.len() {
        let end = place + line_size(&bytes[place..]);
        number += 1;
        read_line(alloc, &bytes[..end], place, number, &mut rows)?;
        place = end + 1;
    }
    Ok(Lines {
        source: bytes,
        rows,
    })
}

/// How many bytes stand before the first line feed, or at all.
fn line_size(text: &[u8]) -> usize
    ensures within { result ≤ length text.now }
    ensures size { result ≡ position_or_len (λ b. b == 10) text.now }
{
    text.iter().take_while(|b| **b != b'\n').count()
}

/// Reads the line that begins at a place and ends with the text, and keeps it if it has a token.
#[tactic(auto, unfolding(crate::specs::Text::rows_from))]
fn read_line(
    alloc: Global,
    text: &[u8],
    place: usize,
    number: u32,
    rows: &mut List<Line>,
) -> Result<(), TextFault>
    requires { place ≤ length text.now }
    ensures rows { OnOk result (rows.new ≡ rows.old ++ rows_from number place (drop place text.now ∷ [])) }
    ensures sound { OnOk result (first_fault_from number (drop place text.now ∷ []) ≡ None) }
    ensures fault { IfErr result (IsFaultOf (first_fault_from number (drop place text.now ∷ []))) }
{
    if let Some(fault) = line_fault(&text[place..], number) {
        return Err(fault);
    }
    let tokens = tokens_of(alloc, text, place)?;
    if tokens.len() > 0 {
        rows.push(Line { number, tokens })?;
    }
    Ok(())
}

/// What is wrong with the line of that number.
#[tactic(auto, unfolding(crate::specs::Text::first_fault_from))]
fn line_fault(line: &[u8], number: u32) -> Option<TextFault>
    ensures { result ≡ first_fault_from number (line.now ∷ []) }
{
    if has_bad_byte(line) {
        Some(TextFault::BadByte { line: number })
    } else if line.len() > LONGEST_LINE {
        Some(TextFault::LongLine { line: number })
    } else {
        None
    }
}

/// Whether a byte stands in a line that no text may have.
fn has_bad_byte(line: &[u8]) -> bool
    ensures { result ≡ list_any (λ b. not (is_allowed b)) line.now }
{
    line.iter().any(|b| !is_allowed(*b))
}

/// The tokens of the line that begins at a place and ends with the text.
fn tokens_of(alloc: Global, text: &[u8], place: usize) -> Result<List<Token>, Memory>
    requires { place ≤ length text.now }
    ensures { IfOk result (λ tokens. tokens ≡ tokens_from place (drop place text.now)) }
{
    let mut tokens = List::new(alloc);
    let mut at = place;
    while let Some(token) = next_token(text, at) {
        tokens.push(token)?;
        at = token.end;
    }
    Ok(tokens)
}

/// The first token of a line from a place on.
#[tactic(auto, using(crate::proofs::CutTokens::token_steps))]
fn next_token(text: &[u8], from: usize) -> Option<Token>
    requires { from ≤ length text.now }
    ensures within { IfSome result (λ t. (from < t.end) × (t.end ≤ length text.now)) }
    ensures tokens { MatchOption
        result
        (tokens_from from (drop from text.now) ≡ [])
        (λ t. tokens_from from (drop from text.now) ≡ t ∷ tokens_from t.end (drop t.end text.now)) }
{
    let start = from + blanks(&text[from..]);
    if start == text.len() || text[start] == b'#' {
        return None;
    }
    Some(Token {
        start,
        end: token_end(text, start),
        word: is_word_byte(text[start]),
    })
}

/// How many blanks a text begins with.
fn blanks(text: &[u8]) -> usize
    ensures within { result ≤ length text.now }
    ensures size { result ≡ prefix_len is_blank text.now }
{
    text.iter().take_while(|b| is_blank(**b)).count()
}

/// Where the token that begins at a place ends.
#[tactic(auto, using(crate::proofs::CutTokens::size_steps))]
fn token_end(text: &[u8], start: usize) -> usize
    requires { start < length text.now }
    ensures within { (start < result) × (result ≤ length text.now) }
    ensures size { result ≡ start + token_size (drop start text.now) }
{
    let mut last = start;
    while last + 1 < text.len() && joins(text[last], text[last + 1]) {
        last += 1;
    }
    last + 1
}

/// Whether two bytes that follow each other belong to one token.
fn joins(b: u8, c: u8) -> bool
    ensures { result ≡ joins b c }
{
    match (b, c) {
        (b':' | b'!', b'=') | (b'-', b'>') => true,
        _ => is_word_byte(b) && is_word_byte(c),
    }
}

/// Whether a byte is a tab, a carriage return or a space.
fn is_blank(b: u8) -> bool
    ensures { result ≡ is_blank b }
{
    matches!(b, b'\t' | b'\r' | b' ')
}

/// Whether a text may have a byte: a tab, an end of a line, or a printed character of ASCII.
fn is_allowed(b: u8) -> bool
    ensures { result ≡ is_allowed b }
{
    matches!(b, b'\t' | b'\n' | b'\r' | b' '..=b'~')
}
