//! The tables of a viewpoint.

ghost use Rattle.std.specs.Prelude.{◌≡◌, [], IfOk};
ghost use Rattle.xc_lattice.specs.Values.{value_of as lattice_of};
ghost use Rattle.xc_view.specs.Views.{value_of as view_of};
ghost use Rattle.xc_sigmap.specs.Maps.{value_of as map_of};
ghost use Rattle.xc_merge.specs.Faults.{viewpoint_faults};
ghost use Rattle.xc_merged.specs.Tabled.{AreTables};

use crate::elements::{command_codes, is_good, line_codes};
use crate::feeds::feeds_of;
use crate::stuttering::stutter_of;
use crate::tables::Tables;
use crate::tellings::tellings_of;
use std::alloc::Global;
use xc_base::{List, Memory};
use xc_lattice::Lattice;
use xc_sigmap::SigMap;
use xc_view::View;

/// The tables of a viewpoint without faults.
pub(crate) fn tabulate(
    alloc: Global,
    sigmap: &SigMap,
    number: usize,
    view: &View,
    lattice: &Lattice,
) -> Result<Tables, Memory>
    requires { viewpoint_faults (map_of sigmap.now) number (record { view = view_of view.now; lattice = lattice_of lattice.now }) ≡ [] }
    ensures { IfOk result (AreTables (map_of sigmap.now) number (record { view = view_of view.now; lattice = lattice_of lattice.now })) }
{
    view.is_sound();
    is_good(lattice);
    let operations = lattice.any(alloc)?;
    let bottom = lattice.bottom();
    let vars = view.vars();
    let commands = view.commands().as_slice();
    let lines = view.props().as_slice();
    let stutters = sigmap.stutters().as_slice();
    let feeds = feeds_of(alloc, sigmap, number, vars)?;
    let weights = command_codes(alloc, lattice, commands)?;
    let marks = line_codes(alloc, lattice, lines)?;
    let tellings = tellings_of(alloc, sigmap, number, view, lattice)?;
    let stutter = stutter_of(&operations, lattice, stutters, number, bottom);
    Ok(Tables {
        operations,
        bottom,
        feeds,
        weights,
        marks,
        tellings,
        stutter,
    })
}
