ghost use Rattle.std.specs.Prelude.{◌≡◌, ◌&&◌, true};
ghost use Rattle.std.specs.List.{list_any, list_all};
ghost use Rattle.std.specs.Str.{bytes_eq};
ghost use Rattle.xc_base.specs.Deciding.{statement_fault};
ghost use Rattle.xc_base.specs.Names.{is_among, has_twice};
ghost use Rattle.xc_forms.specs.Variables.{names_of};
ghost use Rattle.xc_sigmap_lines.specs.MapFiles.{use_names, carried_names, values_named, says_again, is_repeated, is_unknown, map_format};

use crate::draft::Draft;
use crate::limits::limit_fault;
use crate::lookup::find_use;
use crate::names::Names;
use xc_base::{FileFault, Word, is_among};
use xc_forms::{Domain, find_var, is_var_again};
use xc_sigmap_lines::{Pair, Statement, Use};

/// Whether there is a viewpoint of the name.
#[tactic(auto, using(crate::proofs::Finding::found_is_among, crate::proofs::Finding::none_is_among))]
fn has_use(uses: &[Use], name: &Word) -> bool
    ensures { result ≡ is_among (use_names uses.now) name.now }
{
    find_use(uses, name).is_some()
}

fn is_same(left: &Word, right: &Word) -> bool
    ensures { result ≡ bytes_eq left.now right.now }
{
    left.as_str() == right.as_str()
}

/// Whether a statement says what another said before.
fn says_again(s: &Statement, earlier: &Statement) -> bool
    ensures { result ≡ says_again s.now earlier.now }
{
    match (s, earlier) {
        (Statement::Send(viewpoint, variable, ..), Statement::Send(other, its, ..)) => {
            is_same(viewpoint, other) && is_same(variable, its)
        }
        (Statement::Tell(viewpoint, prop, _), Statement::Tell(other, its, _)) => {
            is_same(viewpoint, other) && is_same(prop, its)
        }
        (Statement::Stutter(viewpoint, _), Statement::Stutter(other, _)) => {
            is_same(viewpoint, other)
        }
        _ => false,
    }
}

fn is_said(before: &[Statement], s: &Statement) -> bool
    ensures { result ≡ list_any (says_again s.now) before.now }
{
    before.iter().any(|earlier| says_again(s, earlier))
}

fn is_carried(pairs: &[Pair], name: &Word) -> bool
    ensures { result ≡ list_any (λ p. bytes_eq name.now p.from) pairs.now }
{
    pairs.iter().any(|pair| is_same(name, &pair.from))
}

/// Whether a value stands twice in pairs.
fn carries_twice(pairs: &[Pair]) -> bool
    ensures { result ≡ has_twice (carried_names pairs.now) }
{
    for (place, pair) in pairs.iter().enumerate() {
        if is_carried(&pairs[place + 1..], &pair.from) {
            return true;
        }
    }
    false
}

fn is_repeated(draft: &Draft, s: &Statement) -> bool
    ensures { result ≡ is_repeated draft.now.statements s.now }
{
    let before = draft.statements.as_slice();
    let names = &draft.names;
    match s {
        Statement::Map(_) => false,
        Statement::Use(declared) => has_use(names.uses.as_slice(), &declared.name),
        Statement::Var(domain) => is_var_again(names.vars.as_slice(), domain),
        Statement::Prop(name) => is_among(names.props.as_slice(), name.as_str().as_bytes()),
        Statement::Send(_, _, _, pairs) => is_said(before, s) || carries_twice(pairs.as_slice()),
        Statement::Tell(..) | Statement::Stutter(..) => is_said(before, s),
    }
}

fn are_values(values: &[Word], pairs: &[Pair]) -> bool
    ensures { result ≡ list_all (λ p. is_among values.now p.from) pairs.now }
{
    pairs
        .iter()
        .all(|pair| is_among(values, pair.from.as_str().as_bytes()))
}

/// Whether there is a variable of the name, with all values that the pairs carry.
#[tactic(auto, using(crate::proofs::Finding::source_lacks))]
fn has_source(vars: &[Domain], source: &Word, pairs: &[Pair]) -> bool
    ensures { result ≡ (is_among (names_of vars.now) source.now && list_all (is_among (values_named vars.now source.now)) (carried_names pairs.now)) }
{
    match find_var(vars, source) {
        Some(place) => are_values(vars[place].values.as_slice(), pairs),
        None => false,
    }
}

/// Whether there is a viewpoint of the name, and a variable with the values that the pairs carry.
fn can_send(names: &Names, viewpoint: &Word, source: &Word, pairs: &[Pair]) -> bool
    ensures { result ≡ (is_among (use_names names.now.uses) viewpoint.now && (is_among (names_of names.now.vars) source.now && list_all (is_among (values_named names.now.vars source.now)) (carried_names pairs.now))) }
{
    has_use(names.uses.as_slice(), viewpoint) && has_source(names.vars.as_slice(), source, pairs)
}

fn is_unknown(draft: &Draft, s: &Statement) -> bool
    ensures { result ≡ is_unknown draft.now.statements s.now }
{
    let names = &draft.names;
    let uses = names.uses.as_slice();
    match s {
        Statement::Send(viewpoint, _, source, pairs) => {
            !can_send(names, viewpoint, source, pairs.as_slice())
        }
        Statement::Tell(viewpoint, prop, _) => {
            !(has_use(uses, viewpoint)
                && is_among(names.props.as_slice(), prop.as_str().as_bytes()))
        }
        Statement::Stutter(viewpoint, _) => !has_use(uses, viewpoint),
        _ => false,
    }
}

/// The fault of a statement that is due after those of a draft and stands on that line.
#[tactic(auto, unfolding(xc_base::specs::Deciding::statement_fault))]
pub(crate) fn judge(draft: &Draft, s: &Statement, line: u32) -> Option<FileFault>
    ensures { result ≡ statement_fault map_format draft.now.statements line s.now }
{
    if is_repeated(draft, s) {
        Some(FileFault::Repeated { line })
    } else if is_unknown(draft, s) {
        Some(FileFault::Unknown { line })
    } else {
        limit_fault(draft, s, line)
    }
}
