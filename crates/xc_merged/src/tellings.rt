//! What a viewpoint tells of the propositions of the map.

ghost use Rattle.std.specs.Prelude.{◌≡◌, ◌<◌, ℕ, true, length, map, IfOk};
ghost use Rattle.std.specs.Option.{is_some};
ghost use Rattle.xc_lattice.specs.Values.{value_of as lattice_of};
ghost use Rattle.xc_view.specs.Views.{value_of as view_of};
ghost use Rattle.xc_sigmap.specs.Maps.{value_of as map_of};
ghost use Rattle.xc_merge.specs.MergedFrames.{line_of};
ghost use Rattle.xc_merge.specs.Pieces.{constant_told};
ghost use Rattle.xc_merged.specs.Elements.{counts_of};
ghost use Rattle.xc_merged.specs.Tabled.{AreTellings, IsTelling};

use crate::elements::element;
use crate::tables::Telling;
use std::alloc::Global;
use xc_base::{List, Memory};
use xc_lattice::Lattice;
use xc_merge::line_of;
use xc_sigmap::SigMap;
use xc_sigmap_lines::Told;
use xc_view::{PropLine, View};

/// Whether a line counts for what is told.
fn counts_for(line: &PropLine, told: &Told) -> bool
    ensures { result ≡ counts_of told.now line.now }
{
    match told {
        Told::Named(name) => name.as_str() == line.name.as_str(),
        Told::Constant(_) => false,
    }
}

/// For each line whether it counts.
fn counts(alloc: Global, lines: &[PropLine], told: &Told) -> Result<List<bool>, Memory>
    ensures { IfOk result (λ row. row ≡ map (counts_of told.now) lines.now) }
{
    let mut row = List::new(alloc);
    for line in lines {
        row.push(counts_for(line, told))?;
    }
    Ok(row)
}

/// The element that is told everywhere, where it is a constant.
fn fixed(view: &View, lattice: &Lattice, told: &Told) -> Option<u8>
    ensures { result ≡ constant_told (record { view = view_of view.now; lattice = lattice_of lattice.now }) told.now }
{
    match told {
        Told::Named(_) => None,
        Told::Constant(word) => Some(element(lattice, word)),
    }
}

/// What a viewpoint tells of a proposition of the map.
fn telling_of(
    alloc: Global,
    sigmap: &SigMap,
    number: usize,
    view: &View,
    lattice: &Lattice,
    prop: usize,
) -> Result<Telling, Memory>
    requires { is_some (line_of (map_of sigmap.now) number prop) ≡ true }
    ensures { IfOk result (IsTelling (map_of sigmap.now) number (record { view = view_of view.now; lattice = lattice_of lattice.now }) prop) }
{
    match line_of(sigmap, number, prop) {
        Some(line) => {
            let counts = counts(alloc, view.props().as_slice(), &line.told)?;
            Ok(Telling {
                fixed: fixed(view, lattice, &line.told),
                counts,
            })
        }
        None => Ok(Telling {
            fixed: None,
            counts: List::new(alloc),
        }),
    }
}

/// What a viewpoint tells of the propositions of the map.
pub(crate) fn tellings_of(
    alloc: Global,
    sigmap: &SigMap,
    number: usize,
    view: &View,
    lattice: &Lattice,
) -> Result<List<Telling>, Memory>
    requires { (k : ℕ) → k < length (map_of sigmap.now).props → is_some (line_of (map_of sigmap.now) number k) ≡ true }
    ensures { IfOk result (AreTellings (map_of sigmap.now) number (record { view = view_of view.now; lattice = lattice_of lattice.now }) (length (map_of sigmap.now).props)) }
{
    let mut tellings = List::new(alloc);
    for prop in 0..sigmap.props().len() {
        tellings.push(telling_of(alloc, sigmap, number, view, lattice, prop)?)?;
    }
    Ok(tellings)
}
