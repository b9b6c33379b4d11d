//! The first fault of viewpoints.

ghost use Rattle.std.specs.Prelude.{◌≡◌, ◌<◌, ◌-◌, ◌++◌, length, OnOk, IfErr, []};
ghost use Rattle.xc_lattice.specs.Values.{value_of as lattice_of};
ghost use Rattle.xc_view.specs.Views.{value_of as view_of};
ghost use Rattle.xc_sigmap.specs.Maps.{value_of as map_of};
ghost use Rattle.xc_merge.specs.Merging.{merge_in};
ghost use Rattle.xc_merge.specs.Faults.{all_faults, IsFirstOf, viewpoint_faults};
ghost use Rattle.xc_merge.specs.Finding.{Finds, named_faults, told_or_stuttered_faults, total_faults, faults_from};

use crate::fault::MergeFault;
use crate::feeding::{look_for_feeds, look_for_tellings};
use crate::lines::{look_in_sends, look_in_stutters, look_in_tells};
use crate::words::{look_for_commands, look_for_props};
use std::alloc::Global;
use xc_base::List;
use xc_lattice::Lattice;
use xc_sigmap::SigMap;
use xc_view::View;

/// Looks for the values of a viewpoint, and for what the map sends to its variables.
fn look_for_names(
    alloc: Global,
    sigmap: &SigMap,
    number: usize,
    view: &View,
    lattice: &Lattice,
) -> Result<(), MergeFault>
    requires { number < length (map_of sigmap.now).uses }
    ensures { Finds (named_faults (map_of sigmap.now) number (record { view = view_of view.now; lattice = lattice_of lattice.now })) result }
{
    let viewpoint = &sigmap.uses().get(number).name;
    let names = lattice.names();
    look_for_props(alloc, viewpoint, names, view.props().as_slice())?;
    look_for_commands(alloc, viewpoint, names, view.commands().as_slice())?;
    look_in_sends(alloc, viewpoint, number, view, sigmap.sends().as_slice())
}

/// Looks for what a viewpoint tells, and for its stutter value.
fn look_for_tells(
    alloc: Global,
    sigmap: &SigMap,
    number: usize,
    view: &View,
    lattice: &Lattice,
) -> Result<(), MergeFault>
    requires { number < length (map_of sigmap.now).uses }
    ensures { Finds (told_or_stuttered_faults (map_of sigmap.now) number (record { view = view_of view.now; lattice = lattice_of lattice.now })) result }
{
    let viewpoint = &sigmap.uses().get(number).name;
    let tells = sigmap.tells().as_slice();
    look_in_tells(alloc, viewpoint, number, view, lattice, tells)?;
    let stutters = sigmap.stutters().as_slice();
    look_in_stutters(alloc, viewpoint, number, lattice.names(), stutters)
}

/// Asks whether all that a viewpoint wants is sent, and all that the map wants is told.
fn look_for_totals(
    alloc: Global,
    sigmap: &SigMap,
    number: usize,
    view: &View,
    lattice: &Lattice,
) -> Result<(), MergeFault>
    requires { number < length (map_of sigmap.now).uses }
    ensures { Finds (total_faults (map_of sigmap.now) number (record { view = view_of view.now; lattice = lattice_of lattice.now })) result }
{
    let viewpoint = &sigmap.uses().get(number).name;
    look_for_feeds(alloc, viewpoint, sigmap, number, view.vars().as_slice())?;
    look_for_tellings(alloc, viewpoint, sigmap, number)
}

/// Looks for what is wrong with a viewpoint.
fn look_at(
    alloc: Global,
    sigmap: &SigMap,
    number: usize,
    view: &View,
    lattice: &Lattice,
) -> Result<(), MergeFault>
    requires { number < length (map_of sigmap.now).uses }
    ensures { Finds (viewpoint_faults (map_of sigmap.now) number (record { view = view_of view.now; lattice = lattice_of lattice.now })) result }
{
    look_for_names(alloc, sigmap, number, view, lattice)?;
    look_for_tells(alloc, sigmap, number, view, lattice)?;
    look_for_totals(alloc, sigmap, number, view, lattice)
}

/// Looks for what is wrong with the viewpoints of a map, one after another: a view and its lattice for each.
///
/// It fails with the first that is wrong, or out of memory.
#[tactic(auto, using(std::proofs::lemmas::Grind::common_steps, crate::proofs::Gathering::all_steps))]
pub fn find_fault(
    alloc: Global,
    sigmap: &SigMap,
    views: &List<(View, Lattice)>,
) -> Result<(), MergeFault>
    requires { length views.now ≡ length (map_of sigmap.now).uses }
    ensures ok { OnOk result (all_faults (merge_in sigmap.now views.now) ≡ []) }
    ensures err { IfErr result (IsFirstOf (all_faults (merge_in sigmap.now views.now))) }
{
    for number in 0..views.len() {
        let (view, lattice) = views.get(number);
        look_at(alloc, sigmap, number, view, lattice)?;
    }
    Ok(())
}
