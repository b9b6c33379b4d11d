ghost use Rattle.std.specs.Prelude.{◌≡◌, ◌<◌, ◌≤◌, ◌++◌, ◌∷◌, [], true, None, map, length, IfOk, OnOk};
ghost use Rattle.std.specs.List.{list_all};
ghost use Rattle.xc_base.specs.Names.{is_among, place_of};
ghost use Rattle.xc_forms.specs.Variables.{names_of};
ghost use Rattle.xc_sigmap_lines.specs.MapFiles.{is_map, use_names, carried_names, carry, first_name, sends_of, tells_of, stutters_of, map_of, missing_part, use_limit, prop_limit};
ghost use Rattle.xc_sigmap.specs.Maps.{value_of};
ghost use Rattle.xc_sigmap.specs.Drafted.{is_known, AreFew};

use crate::draft::Draft;
use crate::lookup::find_use;
use crate::names::Names;
use crate::sigmap::SigMap;
use std::alloc::Global;
use xc_base::{List, Memory, Word, find_name};
use xc_forms::{Domain, find_var};
use xc_sigmap_lines::{Carry, Pair, SendLine, Statement, Stutter, Tell, Told, Use};

fn map_name(alloc: Global, s: &Statement) -> Result<Word, Memory>
    requires { is_map s.now ≡ true }
    ensures { IfOk result (λ name. name ≡ first_name (s.now ∷ [])) }
{
    match s {
        Statement::Map(name) => name.copy(alloc),
        _ => unreachable!(),
    }
}

/// The place of a viewpoint's name, which is there.
#[tactic(auto, using(crate::proofs::Finding::found_at, crate::proofs::Finding::found_within, crate::proofs::Finding::none_is_among))]
fn use_number(uses: &[Use], name: &Word) -> u8
    requires known { is_among (use_names uses.now) name.now ≡ true }
    requires few { length uses.now ≤ use_limit }
    ensures { result ≡ place_of (use_names uses.now) name.now }
{
    match find_use(uses, name) {
        Some(place) => place as u8,
        None => unreachable!(),
    }
}

/// The place of a variable's name, which is there.
#[tactic(auto, using(crate::proofs::Finding::found_at, crate::proofs::Finding::found_within, crate::proofs::Finding::none_is_among))]
fn var_number(vars: &[Domain], name: &Word) -> usize
    requires { is_among (names_of vars.now) name.now ≡ true }
    ensures is { result ≡ place_of (names_of vars.now) name.now }
    ensures within { result < length vars.now }
{
    match find_var(vars, name) {
        Some(place) => place,
        None => unreachable!(),
    }
}

/// The place of a proposition's name, which is there.
#[tactic(auto, using(crate::proofs::Finding::found_at, crate::proofs::Finding::found_within, crate::proofs::Finding::none_is_among))]
fn prop_number(props: &[Word], name: &Word) -> u16
    requires known { is_among props.now name.now ≡ true }
    requires few { length props.now ≤ prop_limit }
    ensures { result ≡ place_of props.now name.now }
{
    match find_name(props, name.as_str().as_bytes()) {
        Some(place) => place as u16,
        None => unreachable!(),
    }
}

/// What a pair carries, of a variable that has its value.
#[tactic(auto, using(crate::proofs::Finding::found_at, crate::proofs::Finding::found_within, crate::proofs::Finding::none_is_among))]
fn carry(alloc: Global, values: &[Word], pair: &Pair) -> Result<Carry, Memory>
    requires known { is_among values.now pair.now.from ≡ true }
    requires few { length values.now ≤ 16 }
    ensures { IfOk result (λ c. c ≡ carry values.now pair.now) }
{
    let value = match find_name(values, pair.from.as_str().as_bytes()) {
        Some(place) => place as u8,
        None => unreachable!(),
    };
    let word = pair.to.copy(alloc)?;
    Ok(Carry { value, word })
}

#[tactic(auto, using(crate::proofs::Finding::carried_at))]
fn carries(alloc: Global, values: &[Word], pairs: &[Pair]) -> Result<List<Carry>, Memory>
    requires known { list_all (is_among values.now) (carried_names pairs.now) ≡ true }
    requires few { length values.now ≤ 16 }
    ensures { IfOk result (λ carries. carries ≡ map (carry values.now) pairs.now) }
{
    let mut carries = List::new(alloc);
    for pair in pairs {
        carries.push(carry(alloc, values, pair)?)?;
    }
    Ok(carries)
}

fn push_send(
    alloc: Global,
    names: &Names,
    s: &Statement,
    sends: &mut List<SendLine>,
) -> Result<(), Memory>
    requires few { AreFew names.now }
    requires known { is_known names.now s.now ≡ true }
    ensures { OnOk result (sends.new ≡ sends.old ++ sends_of names.now.uses names.now.vars (s.now ∷ [])) }
{
    if let Statement::Send(viewpoint, variable, source, pairs) = s {
        let viewpoint = use_number(names.uses.as_slice(), viewpoint);
        let variable = variable.copy(alloc)?;
        let from = var_number(names.vars.as_slice(), source);
        let values = names.vars.get(from).values.as_slice();
        let pairs = carries(alloc, values, pairs.as_slice())?;
        sends.push(SendLine {
            viewpoint,
            variable,
            from: from as u8,
            pairs,
        })?;
    }
    Ok(())
}

#[tactic(auto, using(crate::proofs::Gathering::sends_from, crate::proofs::Gathering::known_at))]
fn send_lines(
    alloc: Global,
    names: &Names,
    statements: &[Statement],
) -> Result<List<SendLine>, Memory>
    requires few { AreFew names.now }
    requires known { list_all (is_known names.now) statements.now ≡ true }
    ensures { IfOk result (λ sends. sends ≡ sends_of names.now.uses names.now.vars statements.now) }
{
    let mut sends = List::new(alloc);
    for s in statements {
        push_send(alloc, names, s, &mut sends)?;
    }
    Ok(sends)
}

fn copy_told(alloc: Global, told: &Told) -> Result<Told, Memory>
    ensures { IfOk result (λ copy. copy ≡ told.now) }
{
    match told {
        Told::Named(name) => Ok(Told::Named(name.copy(alloc)?)),
        Told::Constant(value) => Ok(Told::Constant(value.copy(alloc)?)),
    }
}

fn push_tell(
    alloc: Global,
    names: &Names,
    s: &Statement,
    tells: &mut List<Tell>,
) -> Result<(), Memory>
    requires few { AreFew names.now }
    requires known { is_known names.now s.now ≡ true }
    ensures { OnOk result (tells.new ≡ tells.old ++ tells_of names.now.uses names.now.props (s.now ∷ [])) }
{
    if let Statement::Tell(viewpoint, prop, told) = s {
        let viewpoint = use_number(names.uses.as_slice(), viewpoint);
        let prop = prop_number(names.props.as_slice(), prop);
        let told = copy_told(alloc, told)?;
        tells.push(Tell {
            viewpoint,
            prop,
            told,
        })?;
    }
    Ok(())
}

#[tactic(auto, using(crate::proofs::Gathering::tells_from, crate::proofs::Gathering::known_at))]
fn tells(alloc: Global, names: &Names, statements: &[Statement]) -> Result<List<Tell>, Memory>
    requires few { AreFew names.now }
    requires known { list_all (is_known names.now) statements.now ≡ true }
    ensures { IfOk result (λ tells. tells ≡ tells_of names.now.uses names.now.props statements.now) }
{
    let mut tells = List::new(alloc);
    for s in statements {
        push_tell(alloc, names, s, &mut tells)?;
    }
    Ok(tells)
}

fn push_stutter(
    alloc: Global,
    names: &Names,
    s: &Statement,
    stutters: &mut List<Stutter>,
) -> Result<(), Memory>
    requires few { AreFew names.now }
    requires known { is_known names.now s.now ≡ true }
    ensures { OnOk result (stutters.new ≡ stutters.old ++ stutters_of names.now.uses (s.now ∷ [])) }
{
    if let Statement::Stutter(viewpoint, value) = s {
        let viewpoint = use_number(names.uses.as_slice(), viewpoint);
        let value = value.copy(alloc)?;
        stutters.push(Stutter { viewpoint, value })?;
    }
    Ok(())
}

#[tactic(auto, using(crate::proofs::Gathering::stutters_from, crate::proofs::Gathering::known_at))]
fn stutters(alloc: Global, names: &Names, statements: &[Statement]) -> Result<List<Stutter>, Memory>
    requires few { AreFew names.now }
    requires known { list_all (is_known names.now) statements.now ≡ true }
    ensures { IfOk result (λ stutters. stutters ≡ stutters_of names.now.uses statements.now) }
{
    let mut stutters = List::new(alloc);
    for s in statements {
        push_stutter(alloc, names, s, &mut stutters)?;
    }
    Ok(stutters)
}

/// What the statements of a whole file say.
pub(crate) fn gather(alloc: Global, draft: Draft) -> Result<SigMap, Memory>
    requires { missing_part draft.statements ≡ None }
    ensures { IfOk result (λ m. value_of m ≡ map_of draft.statements) }
{
    let Draft { statements, names } = draft;
    let statements = statements.as_slice();
    let name = map_name(alloc, &statements[0])?;
    let sends = send_lines(alloc, &names, statements)?;
    let tells = tells(alloc, &names, statements)?;
    let stutters = stutters(alloc, &names, statements)?;
    let Names { uses, vars, props } = names;
    Ok(SigMap::of(name, uses, vars, props, sends, tells, stutters))
}
