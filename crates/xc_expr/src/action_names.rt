ghost use Rattle.std.specs.Prelude.{◌≡◌, ◌<◌, true, false, [], map, length, IfOk, IfSome};
ghost use Rattle.xc_forms.specs.Variables.{are_fit};
ghost use Rattle.xc_expr.specs.Actions.{is_action_in_range};
ghost use Rattle.xc_expr.specs.Written.{set};
ghost use Rattle.xc_expr.specs.Resolving.{operand, resolved_action, sets_twice};
ghost use Rattle.xc_expr.specs.KnownSettings.{name_set, is_set_in, repeats_first, repeats, resolved_setting, resolves};

use crate::assign::{Action, Assign};
use crate::operands::{peer, value, variable};
use crate::setting::Setting;
use std::alloc::Global;
use xc_base::{List, Memory};
use xc_forms::Vars;

fn value_or_copy(vars: &Vars, var: u8, name: &[u8]) -> Option<Assign>
    requires fit { are_fit vars.now ≡ true }
    requires range { var < length vars.now }
    ensures { result ≡ operand vars.now var name.now (Assign.Value var) (Assign.Copy var) }
{
    match value(vars, var, name) {
        Some(value) => Some(Assign::Value { var, value }),
        None => peer(vars, var, name).map(|from| Assign::Copy { var, from }),
    }
}

/// The assignment that a setting is, where its names are known.
#[tactic(auto, unfolding(crate::specs::KnownSettings::resolved_setting))]
fn resolve_setting(setting: &Setting, vars: &Vars) -> Option<Assign>
    requires { are_fit vars.now ≡ true }
    ensures { result ≡ resolved_setting vars.now setting.now }
{
    match *setting {
        Setting::To(name, right) => value_or_copy(vars, variable(vars, name)?, right),
        Setting::Next(name, right) => {
            let var = variable(vars, name)?;
            let from = peer(vars, var, right)?;
            Some(Assign::Next { var, from })
        }
        Setting::Prev(name, right) => {
            let var = variable(vars, name)?;
            let from = peer(vars, var, right)?;
            Some(Assign::Prev { var, from })
        }
        Setting::Any(name) => Some(Assign::Any {
            var: variable(vars, name)?,
        }),
    }
}

#[tactic(auto, using(std::proofs::lemmas::Grind::common_steps, crate::proofs::Settings::resolves_known, crate::proofs::Settings::resolves_unknown, crate::proofs::Settings::resolves_none))]
fn resolve(alloc: Global, settings: &[Setting], vars: &Vars) -> Result<Option<Action>, Memory>
    requires { are_fit vars.now ≡ true }
    ensures { IfOk result (λ action. action ≡ resolves vars.now [] settings.now) }
{
    let mut action = List::new(alloc);
    for place in 0..settings.len() {
        match resolve_setting(&settings[place], vars) {
            Some(assign) => action.push(assign)?,
            None => return Ok(None),
        }
    }
    Ok(Some(action))
}

/// The action with places in place of names, where the names are known.
#[tactic(auto, using(std::proofs::lemmas::Grind::common_steps, crate::proofs::Settings::resolves_is, crate::proofs::KnownActions::known_action_in_range))]
pub fn resolve_action(
    alloc: Global,
    settings: &[Setting],
    vars: &Vars,
) -> Result<Option<Action>, Memory>
    requires { are_fit vars.now ≡ true }
    ensures known { IfOk result (λ action. action ≡ resolved_action vars.now (map set settings.now)) }
    ensures range { sets_twice (map set settings.now) ≡ false → IfOk result (λ action. IfSome action (λ a. is_action_in_range vars.now a ≡ true)) }
{
    resolve(alloc, settings, vars)
}

/// The name of the variable that is set.
#[tactic(auto, unfolding(crate::specs::KnownSettings::name_set))]
fn name_of<'a>(setting: &Setting<'a>) -> &'a [u8]
    ensures { result.now ≡ name_set setting.now }
{
    match setting {
        Setting::To(name, _)
        | Setting::Next(name, _)
        | Setting::Prev(name, _)
        | Setting::Any(name) => name,
    }
}

/// Whether one of the settings sets that variable.
#[tactic(auto, unfolding(crate::specs::KnownSettings::is_set_in))]
fn is_set(settings: &[Setting], name: &[u8]) -> bool
    ensures { result ≡ is_set_in name.now settings.now }
{
    settings.iter().any(|setting| name == name_of(setting))
}

/// Whether the variable that the first of the settings sets is set again.
#[tactic(auto, unfolding(crate::specs::KnownSettings::repeats_first))]
fn repeats_first(settings: &[Setting]) -> bool
    ensures { result ≡ repeats_first settings.now }
{
    match settings {
        [first, others @ ..] => is_set(others, name_of(first)),
        [] => false,
    }
}

#[tactic(auto, using(std::proofs::lemmas::Grind::common_steps, crate::proofs::Settings::repeats_from, crate::proofs::Settings::none_repeats))]
fn repeats(settings: &[Setting]) -> bool
    ensures { result ≡ repeats settings.now }
{
    for place in 0..settings.len() {
        if repeats_first(&settings[place..]) {
            return true;
        }
    }
    false
}

/// Whether a variable is set twice.
#[tactic(auto, unfolding(crate::specs::KnownSettings::repeats))]
pub fn sets_twice(settings: &[Setting]) -> bool
    ensures { result ≡ sets_twice (map set settings.now) }
{
    repeats(settings)
}
