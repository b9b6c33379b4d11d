ghost use Rattle.std.specs.Prelude.{◌≡◌, ◌≤◌, ◌++◌, ◌∷◌, [], not, length, find, IfOk, OnOk};
ghost use Rattle.std.specs.List.{list_any, position};
ghost use Rattle.std.specs.Str.{bytes_eq};
ghost use Rattle.std.specs.Option.{option_copied, option_map};
ghost use Rattle.xc_base.specs.declared.fault.Part.TheVariants as parts;
ghost use Rattle.xc_lattice.specs.LatticeFiles.{element_names, negates, missing_part, Says};
ghost use Rattle.xc_lattice.specs.Values.{said};
ghost use Rattle.xc_lattice.specs.Drafts.{IsDraft, file_name, pairs_of, negated_by, negation_place, negations_of};
ghost use Rattle.xc_base.specs.Names.{place_of};

use crate::judge::{element_names, is_negated, is_same};
use crate::statement::Statement;
use std::alloc::Global;
use xc_base::{List, Memory, Part, Word, copy_words};
use xc_order::{Order, Pair};

/// What the statements of a file say, with no law looked at.
#[derive(Debug, Drop)]
pub(crate) struct Draft {
    pub(crate) name: Word,
    pub(crate) names: List<Word>,
    pub(crate) order: Order,
    pub(crate) negations: List<u8>,
}

fn first_open(statements: &[Statement]) -> Option<&Word>
    ensures { option_copied result
        ≡ find (λ name. not (list_any (negates name) statements.now)) (element_names statements.now) }
{
    element_names(statements)
        .iter()
        .find(|name| !is_negated(statements, name))
}

fn open_part(alloc: Global, statements: &[Statement]) -> Result<Option<Part>, Memory>
    ensures { IfOk result (λ part. part
        ≡ option_map parts.Not (find (λ name. not (list_any (negates name) statements.now)) (element_names statements.now))) }
{
    match first_open(statements) {
        Some(name) => {
            let name = name.copy(alloc)?;
            Ok(Some(Part::Not(name)))
        }
        None => Ok(None),
    }
}

/// The first part that a file of these statements lacks.
#[tactic(auto, using(crate::proofs::Names::missing_late))]
pub(crate) fn missing(alloc: Global, statements: &[Statement]) -> Result<Option<Part>, Memory>
    ensures { IfOk result (λ part. part ≡ missing_part statements.now) }
{
    match statements {
        [] => Ok(Some(Part::Head)),
        [_] => Ok(Some(Part::Elements)),
        _ => open_part(alloc, statements),
    }
}

#[tactic(auto, using(crate::proofs::Names::name_from))]
fn file_name(statements: &[Statement]) -> Option<&Word>
    ensures { option_copied result ≡ file_name statements.now }
{
    for s in statements {
        if let Statement::Lattice(name) = s {
            return Some(name);
        }
    }
    None
}

/// The place of a name among at most 64 names, where it is among them.
#[tactic(auto, using(xc_base::proofs::Naming::found_in_range))]
pub(crate) fn find_name(names: &[Word], name: &Word) -> Option<u8>
    requires { length names.now ≤ 64 }
    ensures { result ≡ position (bytes_eq name.now) names.now }
{
    match xc_base::find_name(names, name.as_str().as_bytes()) {
        Some(place) => Some(place as u8),
        None => None,
    }
}

/// The place of a name among names, and their number where it is not among them.
#[tactic(auto, using(xc_base::proofs::Naming::place_from))]
fn place_of(names: &[Word], name: &Word) -> u8
    requires { length names.now ≤ 64 }
    ensures { result ≡ place_of names.now name.now }
{
    find_name(names, name).unwrap_or(names.len() as u8)
}

fn push_pair(names: &[Word], s: &Statement, pairs: &mut List<Pair>) -> Result<(), Memory>
    requires { length names.now ≤ 64 }
    ensures { OnOk result (pairs.new ≡ pairs.old ++ pairs_of names.now (s.now ∷ [])) }
{
    if let Statement::Below(low, high) = s {
        pairs.push(Pair {
            low: place_of(names, low),
            high: place_of(names, high),
        })?;
    }
    Ok(())
}

#[tactic(auto, using(crate::proofs::Names::pairs_from))]
fn pairs_of(alloc: Global, names: &[Word], statements: &[Statement]) -> Result<List<Pair>, Memory>
    requires { length names.now ≤ 64 }
    ensures { IfOk result (λ pairs. pairs ≡ pairs_of names.now statements.now) }
{
    let mut pairs = List::new(alloc);
    for s in statements {
        push_pair(names, s, &mut pairs)?;
    }
    Ok(pairs)
}

fn negated<'a>(s: &'a Statement, name: &Word) -> Option<&'a Word>
    ensures { option_copied result ≡ negated_by (s.now ∷ []) name.now }
{
    match s {
        Statement::Not(element, negated) if is_same(name, element) => Some(negated),
        _ => None,
    }
}

#[tactic(auto, using(crate::proofs::Names::negated_from))]
fn negated_by<'a>(statements: &'a [Statement], name: &Word) -> Option<&'a Word>
    ensures { option_copied result ≡ negated_by statements.now name.now }
{
    for s in statements {
        let found = negated(s, name);
        if found.is_some() {
            return found;
        }
    }
    None
}

fn negation_place(names: &[Word], statements: &[Statement], name: &Word) -> u8
    requires { length names.now ≤ 64 }
    ensures { result ≡ negation_place names.now statements.now name.now }
{
    match negated_by(statements, name) {
        Some(negated) => place_of(names, negated),
        None => names.len() as u8,
    }
}

#[tactic(auto, using(std::proofs::lemmas::List::map_more))]
fn negations_of(alloc: Global, names: &[Word], statements: &[Statement]) -> Result<List<u8>, Memory>
    requires { length names.now ≤ 64 }
    ensures { IfOk result (λ negations. negations ≡ negations_of names.now statements.now) }
{
    let mut negations = List::new(alloc);
    for name in names {
        negations.push(negation_place(names, statements, name))?;
    }
    Ok(negations)
}

/// What the statements of a whole file say.
#[tactic(auto, using(crate::proofs::Said::elements_in_limits, crate::proofs::Said::elements_paired, crate::proofs::Said::file_is_named))]
pub(crate) fn gather(alloc: Global, statements: &[Statement]) -> Result<Draft, Memory>
    requires draft { IsDraft statements.now }
    requires whole { missing_part statements.now ≡ None }
    ensures { IfOk result (λ d. Says statements.now (said d)) }
{
    let Some(name) = file_name(statements) else {
        unreachable!()
    };
    let names = element_names(statements);
    let pairs = pairs_of(alloc, names, statements)?;
    let order = Order::of(alloc, names.len() as u8, &pairs)?;
    let negations = negations_of(alloc, names, statements)?;
    let name = name.copy(alloc)?;
    let names = copy_words(alloc, names)?;
    Ok(Draft {
        name,
        names,
        order,
        negations,
    })
}
