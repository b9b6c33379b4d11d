//! The lines of canonical texts of maps, kind by kind.

ghost use Rattle.std.specs.Prelude.{◌≡◌, ◌<◌, ◌++◌, ◌∷◌, [], true, map, length, codes, OnOk, IfOk};
ghost use Rattle.std.specs.List.{list_all};
ghost use Rattle.xc_base.specs.Lines.{texts};
ghost use Rattle.xc_base.specs.Names.{name_at};
ghost use Rattle.xc_forms.specs.Variables.{names_of, values_at};
ghost use Rattle.xc_sigmap_lines.specs.declared.statement.Statement.TheVariants.{Map, Use, Var, Prop};
ghost use Rattle.xc_sigmap_lines.specs.MapFiles.{use_names, pair_tokens, told_tokens, spelling};
ghost use Rattle.xc_sigmap.specs.Maps.{value_of};
ghost use Rattle.xc_sigmap.specs.Sound.{is_carry_in, is_send_in, is_tell_in, is_stutter_in};
ghost use Rattle.xc_sigmap_text.specs.Printing.{paired, sending, telling, stuttering};
ghost use Rattle.xc_sigmap_text.specs.Written.{written};

use std::alloc::Global;
use xc_base::{Bytes, Lexeme, List, Memory, Word, push_line};
use xc_forms::{Domain, lexeme, word};
use xc_sigmap::SigMap;
use xc_sigmap_lines::{Carry, SendLine, Stutter, Tell, Told, Use as Declared};

/// Appends the line of a map's name.
#[tactic(auto, unfolding(xc_forms::specs::PrintedLines::written))]
pub(crate) fn push_name(text: &mut Bytes, name: &Word) -> Result<(), Memory>
    ensures { OnOk result (text.new ≡ text.old ++ written Map (name.now ∷ [])) }
{
    push_line(text, &[word(b"map"), lexeme(name)])
}

#[tactic(auto, unfolding(xc_forms::specs::PrintedLines::written))]
fn push_use(text: &mut Bytes, declared: &Declared) -> Result<(), Memory>
    ensures { OnOk result (text.new ≡ text.old ++ written Use (declared.now ∷ [])) }
{
    push_line(
        text,
        &[word(b"use"), lexeme(&declared.name), lexeme(&declared.file)],
    )
}

/// Appends the lines of viewpoints.
#[tactic(auto, using(std::proofs::lemmas::Grind::common_steps, crate::proofs::Printing::uses_from, crate::proofs::Printing::uses_end))]
pub(crate) fn push_uses(text: &mut Bytes, uses: &[Declared]) -> Result<(), Memory>
    ensures { OnOk result (text.new ≡ text.old ++ written Use uses.now) }
{
    for declared in uses {
        push_use(text, declared)?;
    }
    Ok(())
}

/// Appends the lines of variables.
#[tactic(auto, using(crate::proofs::Printing::vars_lines))]
pub(crate) fn push_vars(alloc: Global, text: &mut Bytes, vars: &[Domain]) -> Result<(), Memory>
    ensures { OnOk result (text.new ≡ text.old ++ written Var vars.now) }
{
    xc_forms::push_vars(alloc, text, vars)
}

#[tactic(auto, unfolding(xc_forms::specs::PrintedLines::written))]
fn push_prop(text: &mut Bytes, name: &Word) -> Result<(), Memory>
    ensures { OnOk result (text.new ≡ text.old ++ written Prop (name.now ∷ [])) }
{
    push_line(text, &[word(b"prop"), lexeme(name)])
}

/// Appends the lines of propositions.
#[tactic(auto, using(std::proofs::lemmas::Grind::common_steps, crate::proofs::Printing::props_from, crate::proofs::Printing::props_end))]
pub(crate) fn push_props(text: &mut Bytes, props: &[Word]) -> Result<(), Memory>
    ensures { OnOk result (text.new ≡ text.old ++ written Prop props.now) }
{
    for name in props {
        push_prop(text, name)?;
    }
    Ok(())
}

/// The name of a viewpoint.
#[tactic(auto, using(crate::proofs::Printing::use_name))]
fn use_name(uses: &[Declared], place: u8) -> &Word
    requires { place < length uses.now }
    ensures { result.now ≡ name_at (use_names uses.now) place }
{
    &uses[usize::from(place)].name
}

#[tactic(auto, using(crate::proofs::Printing::pair_here))]
fn push_pair<'a>(
    tokens: &mut List<Lexeme<'a>>,
    values: &'a [Word],
    pair: &'a Carry,
) -> Result<(), Memory>
    requires { is_carry_in values.now pair.now ≡ true }
    ensures { OnOk result (texts tokens.new ≡ texts tokens.old ++ pair_tokens (paired values.now pair.now ∷ [])) }
{
    tokens.push(lexeme(&values[usize::from(pair.value)]))?;
    tokens.push(Lexeme {
        text: b"=",
        word: false,
    })?;
    tokens.push(lexeme(&pair.word))
}

#[tactic(auto, using(std::proofs::lemmas::Grind::common_steps, crate::proofs::Printing::pairs_from, crate::proofs::Printing::pairs_end, crate::proofs::Printing::carry_at))]
fn push_pairs<'a>(
    tokens: &mut List<Lexeme<'a>>,
    values: &'a [Word],
    pairs: &'a [Carry],
) -> Result<(), Memory>
    requires { list_all (is_carry_in values.now) pairs.now ≡ true }
    ensures { OnOk result (texts tokens.new ≡ texts tokens.old ++ pair_tokens (map (paired values.now) pairs.now)) }
{
    for pair in pairs {
        push_pair(tokens, values, pair)?;
    }
    Ok(())
}

fn push_source<'a>(
    tokens: &mut List<Lexeme<'a>>,
    source: &'a Domain,
    pairs: &'a [Carry],
) -> Result<(), Memory>
    requires { list_all (is_carry_in source.now.values) pairs.now ≡ true }
    ensures { OnOk result (texts tokens.new ≡ texts tokens.old ++ source.now.name ∷ pair_tokens (map (paired source.now.values) pairs.now)) }
{
    tokens.push(lexeme(&source.name))?;
    push_pairs(tokens, source.values.as_slice(), pairs)
}

fn send_front<'a>(
    alloc: Global,
    viewpoint: &'a Word,
    variable: &'a Word,
) -> Result<List<Lexeme<'a>>, Memory>
    ensures { IfOk result (λ tokens. texts tokens ≡ codes "send" ∷ viewpoint.now ∷ variable.now ∷ []) }
{
    let mut tokens = List::new(alloc);
    tokens.push(word(b"send"))?;
    tokens.push(lexeme(viewpoint))?;
    tokens.push(lexeme(variable))?;
    Ok(tokens)
}

fn send_tokens<'a>(
    alloc: Global,
    map: &'a SigMap,
    line: &'a SendLine,
) -> Result<List<Lexeme<'a>>, Memory>
    requires { is_send_in (value_of map.now) line.now ≡ true }
    ensures { IfOk result (λ tokens. texts tokens ≡ spelling (sending (value_of map.now) line.now)) }
{
    let viewpoint = use_name(map.uses().as_slice(), line.viewpoint);
    let source = map.vars().get(usize::from(line.from));
    let mut tokens = send_front(alloc, viewpoint, &line.variable)?;
    push_source(&mut tokens, source, line.pairs.as_slice())?;
    Ok(tokens)
}

#[tactic(auto, unfolding(xc_forms::specs::PrintedLines::written))]
fn push_send(alloc: Global, text: &mut Bytes, map: &SigMap, line: &SendLine) -> Result<(), Memory>
    requires { is_send_in (value_of map.now) line.now ≡ true }
    ensures { OnOk result (text.new ≡ text.old ++ written (sending (value_of map.now)) (line.now ∷ [])) }
{
    let tokens = send_tokens(alloc, map, line)?;
    push_line(text, tokens.as_slice())
}

/// Appends the lines of what viewpoints send.
#[tactic(auto, using(std::proofs::lemmas::Grind::common_steps, crate::proofs::Printing::sends_from, crate::proofs::Printing::sends_end))]
pub(crate) fn push_sends(alloc: Global, text: &mut Bytes, map: &SigMap) -> Result<(), Memory>
    ensures { OnOk result (text.new ≡ text.old ++ written (sending (value_of map.now)) (value_of map.now).sends) }
{
    map.is_sound();
    for line in map.sends().as_slice() {
        push_send(alloc, text, map, line)?;
    }
    Ok(())
}

fn push_told<'a>(tokens: &mut List<Lexeme<'a>>, told: &'a Told) -> Result<(), Memory>
    ensures { OnOk result (texts tokens.new ≡ texts tokens.old ++ told_tokens told.now) }
{
    match told {
        Told::Named(name) => tokens.push(lexeme(name)),
        Told::Constant(value) => {
            tokens.push(word(b"as"))?;
            tokens.push(lexeme(value))
        }
    }
}

#[tactic(auto, unfolding(xc_forms::specs::PrintedLines::written))]
fn push_tell(alloc: Global, text: &mut Bytes, map: &SigMap, line: &Tell) -> Result<(), Memory>
    requires { is_tell_in (value_of map.now) line.now ≡ true }
    ensures { OnOk result (text.new ≡ text.old ++ written (telling (value_of map.now)) (line.now ∷ [])) }
{
    let mut tokens = List::new(alloc);
    tokens.push(word(b"tell"))?;
    tokens.push(lexeme(use_name(map.uses().as_slice(), line.viewpoint)))?;
    tokens.push(lexeme(map.props().get(usize::from(line.prop))))?;
    push_told(&mut tokens, &line.told)?;
    push_line(text, tokens.as_slice())
}

/// Appends the lines of what viewpoints tell.
#[tactic(auto, using(std::proofs::lemmas::Grind::common_steps, crate::proofs::Printing::tells_from, crate::proofs::Printing::tells_end))]
pub(crate) fn push_tells(alloc: Global, text: &mut Bytes, map: &SigMap) -> Result<(), Memory>
    ensures { OnOk result (text.new ≡ text.old ++ written (telling (value_of map.now)) (value_of map.now).tells) }
{
    map.is_sound();
    for line in map.tells().as_slice() {
        push_tell(alloc, text, map, line)?;
    }
    Ok(())
}

#[tactic(auto, unfolding(xc_forms::specs::PrintedLines::written))]
fn push_stutter(text: &mut Bytes, map: &SigMap, line: &Stutter) -> Result<(), Memory>
    requires { is_stutter_in (value_of map.now) line.now ≡ true }
    ensures { OnOk result (text.new ≡ text.old ++ written (stuttering (value_of map.now)) (line.now ∷ [])) }
{
    let name = use_name(map.uses().as_slice(), line.viewpoint);
    push_line(text, &[word(b"stutter"), lexeme(name), lexeme(&line.value)])
}

/// Appends the lines of stutter values.
#[tactic(auto, using(std::proofs::lemmas::Grind::common_steps, crate::proofs::Printing::stutters_from, crate::proofs::Printing::stutters_end))]
pub(crate) fn push_stutters(text: &mut Bytes, map: &SigMap) -> Result<(), Memory>
    ensures { OnOk result (text.new ≡ text.old ++ written (stuttering (value_of map.now)) (value_of map.now).stutters) }
{
    map.is_sound();
    for line in map.stutters().as_slice() {
        push_stutter(text, map, line)?;
    }
    Ok(())
}
