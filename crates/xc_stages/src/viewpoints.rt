//! The viewpoints of a map: each with the file of its view, and the file of the lattice that the view names.

ghost use Rattle.std.specs.Prelude.{◌≡◌, IfOk, IfErr, [], length, map};
ghost use Rattle.xc_merge.specs.Merging.{viewpoint_of};
ghost use Rattle.xc_sigmap.specs.Maps.{value_of as map_of};
ghost use Rattle.xc_course.specs.Trees.{OpenViewpoint, OpenViewpoints, files_of};
ghost use Rattle.xc_course.specs.Works.{GoesOn, Stops};

use crate::lattices::open_lattice;
use crate::views::open_view;
use std::alloc::Global;
use xc_base::{List, Shelf};
use xc_lattice::Lattice;
use xc_lines::Halt;
use xc_sigmap::SigMap;
use xc_view::View;

/// Opens a viewpoint: its view, and then its lattice.
fn open_viewpoint<S: Shelf>(
    alloc: Global,
    shelf: &mut S,
    name: &str,
) -> Result<(View, Lattice), Halt>
    ensures goes_on { IfOk result (λ p. GoesOn (OpenViewpoint name.now) (S.seen shelf.old) (S.seen shelf.new) (viewpoint_of p)) }
    ensures stops { IfErr result (Stops (OpenViewpoint name.now) (S.seen shelf.old) (S.seen shelf.new)) }
{
    let view = open_view(alloc, shelf, name)?;
    let lattice = open_lattice(alloc, shelf, view.lattice().as_str())?;
    Ok((view, lattice))
}

/// Opens the viewpoints of a map, one after another.
pub fn open_viewpoints<S: Shelf>(
    alloc: Global,
    shelf: &mut S,
    sigmap: &SigMap,
) -> Result<List<(View, Lattice)>, Halt>
    ensures count { IfOk result (λ views. length views ≡ length (map_of sigmap.now).uses) }
    ensures goes_on { IfOk result (λ views. GoesOn (OpenViewpoints (files_of (map_of sigmap.now)) []) (S.seen shelf.old) (S.seen shelf.new) (map viewpoint_of views)) }
    ensures stops { IfErr result (Stops (OpenViewpoints (files_of (map_of sigmap.now)) []) (S.seen shelf.old) (S.seen shelf.new)) }
{
    let mut views = List::new(alloc);
    for used in sigmap.uses().as_slice() {
        let viewpoint = open_viewpoint(alloc, shelf, used.file.as_str())?;
        views.push(viewpoint)?;
    }
    Ok(views)
}
