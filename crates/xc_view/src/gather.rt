ghost use Rattle.std.specs.Prelude.{◌≡◌, ◌++◌, ◌∷◌, [], true, false, None, map, IfOk, OnOk};
ghost use Rattle.std.specs.List.{list_all, filter_map};
ghost use Rattle.std.specs.Option.{is_some, is_none};
ghost use Rattle.xc_forms.specs.ByKind.{first_of};
ghost use Rattle.xc_forms.specs.Variables.{are_fit};
ghost use Rattle.xc_expr.specs.Resolving.{resolved, resolved_action};
ghost use Rattle.xc_expr.specs.Tests.{test_of, False as NeverHolds};
ghost use Rattle.xc_expr.specs.Written.{written, set};
ghost use Rattle.xc_view.specs.ViewFiles.{name_in, lattice_in, init_in, prop_in, command_in, test_in, assigns_in, view_of, missing_part};
ghost use Rattle.xc_view.specs.Parts.{prop_value, command_value};
ghost use Rattle.xc_view.specs.Views.{value_of};
ghost use Rattle.xc_view_lines.specs.Statements.{stated};
ghost use Rattle.xc_view.specs.Drafts.{all_stated, is_known};
ghost use Rattle.xc_view.specs.Drafted.{drafted};

use crate::draft::Draft;
use crate::lines::{Command, PropLine};
use crate::view::View;
use std::alloc::Global;
use xc_base::{List, Memory, Word};
use xc_expr::{Action, Guard, Phrase, Setting, resolve_action, resolve_guard};
use xc_forms::Vars;
use xc_view_lines::Statement;

fn view_name(alloc: Global, s: &Statement) -> Result<Word, Memory>
    requires { is_some (name_in (stated s.now)) ≡ true }
    ensures { IfOk result (λ name. name ≡ first_of name_in [] (stated s.now ∷ [])) }
{
    match s {
        Statement::View(name) => name.copy(alloc),
        _ => unreachable!(),
    }
}

fn lattice_name(alloc: Global, s: &Statement) -> Result<Word, Memory>
    requires { is_some (lattice_in (stated s.now)) ≡ true }
    ensures { IfOk result (λ file. file ≡ first_of lattice_in [] (stated s.now ∷ [])) }
{
    match s {
        Statement::Lattice(file) => file.copy(alloc),
        _ => unreachable!(),
    }
}

/// The guard with places in place of names, where all names are known.
fn known_guard(alloc: Global, phrase: &Phrase, vars: &Vars) -> Result<Guard, Memory>
    requires fit { are_fit vars.now ≡ true }
    requires known { is_none (resolved vars.now (written phrase.now)) ≡ false }
    ensures { IfOk result (λ guard. test_of guard ≡ test_in vars.now (written phrase.now)) }
{
    match resolve_guard(alloc, phrase, vars)? {
        Some(guard) => Ok(guard),
        None => unreachable!(),
    }
}

/// The same of an action.
fn known_action(alloc: Global, settings: &[Setting], vars: &Vars) -> Result<Action, Memory>
    requires fit { are_fit vars.now ≡ true }
    requires known { is_none (resolved_action vars.now (map set settings.now)) ≡ false }
    ensures { IfOk result (λ action. action ≡ assigns_in vars.now (map set settings.now)) }
{
    match resolve_action(alloc, settings, vars)? {
        Some(action) => Ok(action),
        None => unreachable!(),
    }
}

#[tactic(auto, using(crate::proofs::Gathering::init_from, crate::proofs::Gathering::known_at))]
fn init_guard(alloc: Global, statements: &[Statement], vars: &Vars) -> Result<Guard, Memory>
    requires fit { are_fit vars.now ≡ true }
    requires known { list_all (is_known vars.now) (all_stated statements.now) ≡ true }
    ensures { IfOk result (λ guard. test_of guard ≡ first_of (init_in vars.now) NeverHolds (all_stated statements.now)) }
{
    for s in statements {
        if let Statement::Init(phrase) = s {
            return known_guard(alloc, phrase, vars);
        }
    }
    Ok(Guard::False)
}

fn push_prop(
    alloc: Global,
    vars: &Vars,
    s: &Statement,
    props: &mut List<PropLine>,
) -> Result<(), Memory>
    requires fit { are_fit vars.now ≡ true }
    requires known { is_known vars.now (stated s.now) ≡ true }
    ensures { OnOk result (map prop_value props.new ≡ map prop_value props.old ++ filter_map (prop_in vars.now) (stated s.now ∷ [])) }
{
    if let Statement::Prop(name, value, phrase) = s {
        let guard = known_guard(alloc, phrase, vars)?;
        let name = name.copy(alloc)?;
        let value = value.copy(alloc)?;
        props.push(PropLine { name, value, guard })?;
    }
    Ok(())
}

#[tactic(auto, using(crate::proofs::Gathering::props_from, crate::proofs::Gathering::known_at))]
fn prop_lines(
    alloc: Global,
    statements: &[Statement],
    vars: &Vars,
) -> Result<List<PropLine>, Memory>
    requires fit { are_fit vars.now ≡ true }
    requires known { list_all (is_known vars.now) (all_stated statements.now) ≡ true }
    ensures { IfOk result (λ props. map prop_value props ≡ filter_map (prop_in vars.now) (all_stated statements.now)) }
{
    let mut props = List::new(alloc);
    for s in statements {
        push_prop(alloc, vars, s, &mut props)?;
    }
    Ok(props)
}

fn push_command(
    alloc: Global,
    vars: &Vars,
    s: &Statement,
    commands: &mut List<Command>,
) -> Result<(), Memory>
    requires fit { are_fit vars.now ≡ true }
    requires known { is_known vars.now (stated s.now) ≡ true }
    ensures { OnOk result (map command_value commands.new ≡ map command_value commands.old ++ filter_map (command_in vars.now) (stated s.now ∷ [])) }
{
    if let Statement::Command(name, value, phrase, settings) = s {
        let guard = known_guard(alloc, phrase, vars)?;
        let action = known_action(alloc, settings.as_slice(), vars)?;
        let name = name.copy(alloc)?;
        let value = value.copy(alloc)?;
        commands.push(Command {
            name,
            value,
            guard,
            action,
        })?;
    }
    Ok(())
}

#[tactic(auto, using(crate::proofs::Gathering::commands_from, crate::proofs::Gathering::known_at))]
fn commands(alloc: Global, statements: &[Statement], vars: &Vars) -> Result<List<Command>, Memory>
    requires fit { are_fit vars.now ≡ true }
    requires known { list_all (is_known vars.now) (all_stated statements.now) ≡ true }
    ensures { IfOk result (λ commands. map command_value commands ≡ filter_map (command_in vars.now) (all_stated statements.now)) }
{
    let mut commands = List::new(alloc);
    for s in statements {
        push_command(alloc, vars, s, &mut commands)?;
    }
    Ok(commands)
}

/// What the statements of a whole file say.
pub(crate) fn gather(alloc: Global, draft: Draft) -> Result<View, Memory>
    requires { missing_part (drafted draft) ≡ None }
    ensures { IfOk result (λ v. value_of v ≡ view_of (drafted draft.entry)) }
{
    let Draft { statements, vars } = draft;
    let statements = statements.as_slice();
    let name = view_name(alloc, &statements[0])?;
    let lattice = lattice_name(alloc, &statements[1])?;
    let init = init_guard(alloc, statements, &vars)?;
    let props = prop_lines(alloc, statements, &vars)?;
    let commands = commands(alloc, statements, &vars)?;
    Ok(View::of(name, lattice, vars, init, props, commands))
}
