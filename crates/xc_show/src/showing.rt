//! Showing a file in its canonical form.

ghost use Rattle.xc_lattice.specs.Printed.{lattice_lines};
ghost use Rattle.xc_lattice.specs.Values.{value_of as lattice_of};
ghost use Rattle.xc_sigmap.specs.Maps.{value_of as map_of};
ghost use Rattle.xc_sigmap_text.specs.Printing.{map_lines};
ghost use Rattle.xc_view.specs.Printing.{view_lines};
ghost use Rattle.xc_view.specs.Views.{value_of as view_of};
ghost use Rattle.xc_course.specs.Works.{Works, WorksAlways};
ghost use Rattle.xc_show.specs.Showing.{ShowTree, Shows};
ghost use Rattle.xc_words.specs.declared.asked.ShowKind.TheVariants as kinds;

use std::alloc::Global;
use xc_base::{Shelf, Sink};
use xc_lattice::Lattice;
use xc_lines::{Halt, Passed};
use xc_sigmap::SigMap;
use xc_stages::{open_lattice, open_map, open_view};
use xc_view::View;
use xc_words::ShowKind;
use xc_write::serve_text;

/// Writes the canonical text of a lattice.
fn print_lattice<W: Sink>(alloc: Global, out: &mut W, lattice: &Lattice) -> Result<Passed, Halt>
    ensures { WorksAlways (Shows (lattice_lines (lattice_of lattice.now))) (W.seen out.old) (W.seen out.new) result }
{
    let text = lattice.print(alloc)?;
    serve_text(out, Passed::Done, text.as_slice())
}

/// Writes the canonical text of a view.
fn print_view<W: Sink>(alloc: Global, out: &mut W, view: &View) -> Result<Passed, Halt>
    ensures { WorksAlways (Shows (view_lines (view_of view.now))) (W.seen out.old) (W.seen out.new) result }
{
    let text = xc_view_text::print(alloc, view)?;
    serve_text(out, Passed::Done, text.as_slice())
}

/// Writes the canonical text of a map.
fn print_map<W: Sink>(alloc: Global, out: &mut W, sigmap: &SigMap) -> Result<Passed, Halt>
    ensures { WorksAlways (Shows (map_lines (map_of sigmap.now))) (W.seen out.old) (W.seen out.new) result }
{
    let text = xc_sigmap_text::print(alloc, sigmap)?;
    serve_text(out, Passed::Done, text.as_slice())
}

/// Shows the lattice in a file.
fn show_lattice<S: Shelf, W: Sink>(
    alloc: Global,
    shelf: &mut S,
    out: &mut W,
    name: &str,
) -> Result<Passed, Halt>
    ensures { Works (ShowTree kinds.Lattice name.now) (S.seen shelf.old) (S.seen shelf.new) (W.seen out.old) (W.seen out.new) result }
{
    let lattice = open_lattice(alloc, shelf, name)?;
    print_lattice(alloc, out, &lattice)
}

/// Shows the view in a file. Neither its values nor its lattice are looked up.
fn show_view<S: Shelf, W: Sink>(
    alloc: Global,
    shelf: &mut S,
    out: &mut W,
    name: &str,
) -> Result<Passed, Halt>
    ensures { Works (ShowTree kinds.View name.now) (S.seen shelf.old) (S.seen shelf.new) (W.seen out.old) (W.seen out.new) result }
{
    let view = open_view(alloc, shelf, name)?;
    print_view(alloc, out, &view)
}

/// Shows the map in a file. Its viewpoints are not looked up.
fn show_map<S: Shelf, W: Sink>(
    alloc: Global,
    shelf: &mut S,
    out: &mut W,
    name: &str,
) -> Result<Passed, Halt>
    ensures { Works (ShowTree kinds.Map name.now) (S.seen shelf.old) (S.seen shelf.new) (W.seen out.old) (W.seen out.new) result }
{
    let sigmap = open_map(alloc, shelf, name)?;
    print_map(alloc, out, &sigmap)
}

/// Shows the file of a kind.
pub fn show<S: Shelf, W: Sink>(
    alloc: Global,
    shelf: &mut S,
    out: &mut W,
    kind: ShowKind,
    name: &str,
) -> Result<Passed, Halt>
    ensures { Works (ShowTree kind name.now) (S.seen shelf.old) (S.seen shelf.new) (W.seen out.old) (W.seen out.new) result }
{
    match kind {
        ShowKind::Lattice => show_lattice(alloc, shelf, out, name),
        ShowKind::View => show_view(alloc, shelf, out, name),
        ShowKind::Map => show_map(alloc, shelf, out, name),
    }
}
