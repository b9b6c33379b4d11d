//! The lines of a map on one of its viewpoints.

ghost use Rattle.std.specs.Prelude.{◌≡◌, map, find};
ghost use Rattle.std.specs.List.{list_any};
ghost use Rattle.std.specs.Str.{bytes_eq};
ghost use Rattle.std.specs.Option.{option_copied};
ghost use Rattle.xc_expr.specs.Called.{is_called};
ghost use Rattle.xc_lattice.specs.Values.{value_of as lattice_of};
ghost use Rattle.xc_view.specs.Views.{value_of as view_of};
ghost use Rattle.xc_merge.specs.Faults.{unknown_in_line, told_faults};
ghost use Rattle.xc_merge.specs.Finding.{Finds, name_fault, sent_by, sent, told_by, told, stuttered_by, stuttered};
ghost use Rattle.xc_merge.specs.declared.fault.MergeFault.TheVariants.{UnknownName};

use crate::fault::MergeFault;
use crate::words::{look_for_name, look_for_pairs, look_for_value};
use std::alloc::Global;
use xc_base::{List, Word};
use xc_forms::Domain;
use xc_lattice::Lattice;
use xc_sigmap_lines::{SendLine, Stutter, Tell, Told};
use xc_view::{PropLine, View};

fn is_called(domain: &Domain, name: &Word) -> bool
    ensures { result ≡ is_called name.now domain.now }
{
    name.as_str() == domain.name.as_str()
}

/// The variable of that name.
fn variable<'a>(vars: &'a [Domain], name: &Word) -> Option<&'a Domain>
    ensures { option_copied result ≡ find (is_called name.now) vars.now }
{
    vars.iter().find(|domain| is_called(domain, name))
}

/// Looks for what a line names of a viewpoint's variables.
fn look_in_line(
    alloc: Global,
    viewpoint: &Word,
    view: &View,
    line: &SendLine,
) -> Result<(), MergeFault>
    ensures { Finds (map (UnknownName viewpoint.now) (unknown_in_line (view_of view.now) line.now)) result }
{
    match variable(view.vars().as_slice(), &line.variable) {
        Some(domain) => look_for_pairs(alloc, viewpoint, &domain.values, line.pairs.as_slice()),
        None => {
            let viewpoint = viewpoint.copy(alloc)?;
            let name = line.variable.copy(alloc)?;
            Err(MergeFault::UnknownName { viewpoint, name })
        }
    }
}

/// The same where the line is on that viewpoint.
fn look_in_send(
    alloc: Global,
    viewpoint: &Word,
    number: usize,
    view: &View,
    line: &SendLine,
) -> Result<(), MergeFault>
    ensures { Finds (sent_by viewpoint.now number (view_of view.now) line.now) result }
{
    if usize::from(line.viewpoint) != number {
        return Ok(());
    }
    look_in_line(alloc, viewpoint, view, line)
}

/// Looks for what the lines on a viewpoint's variables name of them.
#[tactic(auto, using(std::proofs::lemmas::Grind::common_steps, crate::proofs::Steps::sent_steps))]
pub(crate) fn look_in_sends(
    alloc: Global,
    viewpoint: &Word,
    number: usize,
    view: &View,
    lines: &[SendLine],
) -> Result<(), MergeFault>
    ensures { Finds (sent viewpoint.now number (view_of view.now) lines.now) result }
{
    for line in lines {
        look_in_send(alloc, viewpoint, number, view, line)?;
    }
    Ok(())
}

fn is_prop_of(line: &PropLine, name: &Word) -> bool
    ensures { result ≡ bytes_eq name.now line.now.name }
{
    name.as_str() == line.name.as_str()
}

/// Whether a line of a view is of that proposition.
fn has_prop(lines: &[PropLine], name: &Word) -> bool
    ensures { result ≡ list_any (λ l. bytes_eq name.now l.name) lines.now }
{
    lines.iter().any(|line| is_prop_of(line, name))
}

/// Looks for a proposition of a view.
#[tactic(auto, using(std::proofs::lemmas::Grind::common_steps, crate::proofs::Told::prop_steps))]
fn look_for_prop(
    alloc: Global,
    viewpoint: &Word,
    view: &View,
    name: &Word,
) -> Result<(), MergeFault>
    ensures { Finds (name_fault viewpoint.now (map (λ l. l.name) (view_of view.now).props) name.now) result }
{
    if has_prop(view.props().as_slice(), name) {
        return Ok(());
    }
    let viewpoint = viewpoint.copy(alloc)?;
    let name = name.copy(alloc)?;
    Err(MergeFault::UnknownName { viewpoint, name })
}

/// Looks for what a viewpoint tells.
fn look_for_told(
    alloc: Global,
    viewpoint: &Word,
    view: &View,
    lattice: &Lattice,
    told: &Told,
) -> Result<(), MergeFault>
    ensures { Finds (told_faults viewpoint.now (record { view = view_of view.now; lattice = lattice_of lattice.now }) told.now) result }
{
    match told {
        Told::Named(name) => look_for_prop(alloc, viewpoint, view, name),
        Told::Constant(word) => look_for_value(alloc, viewpoint, lattice.names(), word),
    }
}

/// The same where the line is on that viewpoint.
fn look_in_tell(
    alloc: Global,
    viewpoint: &Word,
    number: usize,
    view: &View,
    lattice: &Lattice,
    line: &Tell,
) -> Result<(), MergeFault>
    ensures { Finds (told_by viewpoint.now number (record { view = view_of view.now; lattice = lattice_of lattice.now }) line.now) result }
{
    if usize::from(line.viewpoint) != number {
        return Ok(());
    }
    look_for_told(alloc, viewpoint, view, lattice, &line.told)
}

/// Looks for what the lines on a viewpoint tell.
#[tactic(auto, using(std::proofs::lemmas::Grind::common_steps, crate::proofs::Steps::told_steps))]
pub(crate) fn look_in_tells(
    alloc: Global,
    viewpoint: &Word,
    number: usize,
    view: &View,
    lattice: &Lattice,
    lines: &[Tell],
) -> Result<(), MergeFault>
    ensures { Finds (told viewpoint.now number (record { view = view_of view.now; lattice = lattice_of lattice.now }) lines.now) result }
{
    for line in lines {
        look_in_tell(alloc, viewpoint, number, view, lattice, line)?;
    }
    Ok(())
}

/// Looks for the stutter value of a line, where the line is on that viewpoint.
fn look_in_stutter(
    alloc: Global,
    viewpoint: &Word,
    number: usize,
    names: &List<Word>,
    line: &Stutter,
) -> Result<(), MergeFault>
    ensures { Finds (stuttered_by viewpoint.now number names.now line.now) result }
{
    if usize::from(line.viewpoint) != number {
        return Ok(());
    }
    look_for_value(alloc, viewpoint, names, &line.value)
}

/// Looks for a viewpoint's stutter value.
#[tactic(auto, using(std::proofs::lemmas::Grind::common_steps, crate::proofs::Steps::stuttered_steps))]
pub(crate) fn look_in_stutters(
    alloc: Global,
    viewpoint: &Word,
    number: usize,
    names: &List<Word>,
    lines: &[Stutter],
) -> Result<(), MergeFault>
    ensures { Finds (stuttered viewpoint.now number names.now lines.now) result }
{
    for line in lines {
        look_in_stutter(alloc, viewpoint, number, names, line)?;
    }
    Ok(())
}
