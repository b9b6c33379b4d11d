//! Actions from tokens.

ghost use Rattle.std.specs.Prelude.{◌≡◌, ◌<◌, ◌≤◌, [], length, map, IfOk};
ghost use Rattle.std.specs.Option.{option_map};
ghost use Rattle.xc_base.specs.Lines.{texts};
ghost use Rattle.xc_expr.specs.Written.{set};
ghost use Rattle.xc_expr.specs.Reading.{action_in};
ghost use Rattle.xc_expr.specs.ActionReading.{is_set, set_to_word, set_by_step, assignment_in, assignments_in, is_skip, is_mark_at, assignment_at, reads_from};

use crate::setting::Setting;
use std::alloc::Global;
use xc_base::{Lexeme, List, Memory};
use xc_forms::{is_value_name, is_variable_name};

fn is_set(name: &[u8], sign: &[u8]) -> bool
    ensures { result ≡ is_set name.now sign.now }
{
    is_variable_name(name) && sign == b":=".as_slice()
}

fn set_to_word<'a>(name: &'a [u8], sign: &[u8], word: &'a [u8]) -> Option<Setting<'a>>
    ensures { option_map set result ≡ set_to_word name.now sign.now word.now }
{
    if !is_set(name, sign) {
        None
    } else if word == b"any".as_slice() {
        Some(Setting::Any(name))
    } else if is_value_name(word) {
        Some(Setting::To(name, word))
    } else {
        None
    }
}

fn set_by_step<'a>(name: &'a [u8], sign: &[u8], step: &[u8], other: &'a [u8]) -> Option<Setting<'a>>
    ensures { option_map set result ≡ set_by_step name.now sign.now step.now other.now }
{
    if !(is_set(name, sign) && is_variable_name(other)) {
        None
    } else if step == b"next".as_slice() {
        Some(Setting::Next(name, other))
    } else if step == b"prev".as_slice() {
        Some(Setting::Prev(name, other))
    } else {
        None
    }
}

/// The assignment that the tokens are, where they are one.
#[tactic(auto, using(std::proofs::lemmas::Grind::common_steps, crate::proofs::ActionTokens::assignment_short, crate::proofs::ActionTokens::assignment_long), unfolding(crate::specs::ActionReading::assignment_in))]
fn parse_setting<'a>(tokens: &[Lexeme<'a>]) -> Option<Setting<'a>>
    ensures { option_map set result ≡ assignment_in (texts tokens.now) }
{
    match tokens {
        [name, sign, word] => set_to_word(name.text, sign.text, word.text),
        [name, sign, step, other] => set_by_step(name.text, sign.text, step.text, other.text),
        _ => None,
    }
}

#[tactic(auto, unfolding(crate::specs::ActionReading::is_mark_at))]
fn is_mark_at(tokens: &[Lexeme], place: usize) -> bool
    requires { place < length tokens.now }
    ensures { result ≡ is_mark_at (texts tokens.now) place }
{
    tokens[place].text == b";".as_slice()
}

#[tactic(auto, using(crate::proofs::ActionTokens::assignment_between))]
fn parse_setting_at<'a>(tokens: &[Lexeme<'a>], start: usize, end: usize) -> Option<Setting<'a>>
    requires order { start ≤ end }
    requires end { end ≤ length tokens.now }
    ensures { option_map set result ≡ assignment_at (texts tokens.now) start end }
{
    parse_setting(&tokens[start..end])
}

fn is_skip(tokens: &[Lexeme]) -> bool
    ensures { result ≡ is_skip (texts tokens.now) }
{
    match tokens {
        [token] => token.text == b"skip".as_slice(),
        _ => false,
    }
}

#[tactic(auto, using(std::proofs::lemmas::Grind::common_steps, crate::proofs::ActionTokens::texts_length, crate::proofs::ActionTokens::reads_last, crate::proofs::ActionTokens::reads_no_last))]
fn last_setting<'a>(
    settings: List<Setting<'a>>,
    tokens: &[Lexeme<'a>],
    start: usize,
) -> Result<Option<List<Setting<'a>>>, Memory>
    requires { start ≤ length tokens.now }
    ensures { IfOk result (λ action. option_map (map set) action ≡ reads_from settings.entry (texts tokens.now) start (length tokens.now)) }
{
    let mut all = settings;
    match parse_setting_at(tokens, start, tokens.len()) {
        Some(setting) => {
            all.push(setting)?;
            Ok(Some(all))
        }
        None => Ok(None),
    }
}

#[tactic(auto, using(std::proofs::lemmas::Grind::common_steps, crate::proofs::ActionTokens::texts_length, crate::proofs::ActionTokens::reads_token, crate::proofs::ActionTokens::reads_mark, crate::proofs::ActionTokens::reads_no_mark))]
fn parse_settings<'a>(
    alloc: Global,
    tokens: &[Lexeme<'a>],
) -> Result<Option<List<Setting<'a>>>, Memory>
    ensures { IfOk result (λ action. option_map (map set) action ≡ reads_from [] (texts tokens.now) 0 0) }
{
    let mut settings = List::new(alloc);
    let mut start = 0;
    for place in 0..tokens.len() {
        if is_mark_at(tokens, place) {
            match parse_setting_at(tokens, start, place) {
                Some(setting) => settings.push(setting)?,
                None => return Ok(None),
            }
            start = place + 1;
        }
    }
    last_setting(settings, tokens, start)
}

/// The action that the tokens are, where they are one.
#[tactic(auto, using(crate::proofs::ActionTokens::reads_all, crate::proofs::ActionTokens::reads_skip))]
pub fn parse_action<'a>(
    alloc: Global,
    tokens: &[Lexeme<'a>],
) -> Result<Option<List<Setting<'a>>>, Memory>
    ensures { IfOk result (λ action. option_map (map set) action ≡ action_in (texts tokens.now)) }
{
    if is_skip(tokens) {
        return Ok(Some(List::new(alloc)));
    }
    parse_settings(alloc, tokens)
}
