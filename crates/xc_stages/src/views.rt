//! Viewpoint files.

ghost use Rattle.std.specs.Prelude.{IfOk, IfErr};
ghost use Rattle.xc_base.specs.Formats.{IsAccepted};
ghost use Rattle.xc_base.specs.Lines.{rows_in};
ghost use Rattle.xc_view.specs.ViewFiles.{view_format};
ghost use Rattle.xc_view.specs.Views.{value_of as view_of};
ghost use Rattle.xc_course.specs.FileKinds.{Views};
ghost use Rattle.xc_course.specs.Trees.{Open};
ghost use Rattle.xc_course.specs.Works.{GoesOn, Stops};
ghost use Rattle.xc_stages.specs.Loaded.{IsFaultRefusal, IsRead, IsRefusalHalt, IsUnread};

use crate::load::{FILE_LIMIT, cut, load};
use std::alloc::Global;
use xc_base::{Lines, Shelf, Stop};
use xc_lines::{Halt, refused_file};
use xc_view::View;

/// The view of a file that is cut into lines.
fn read_view(alloc: Global, name: &str, lines: &Lines) -> Result<View, Halt>
    ensures read { IfOk result (λ x. IsAccepted view_format (rows_in lines.now) (view_of x)) }
    ensures stopped { IfErr result (IsRefusalHalt (IsFaultRefusal view_format name.now (rows_in lines.now))) }
{
    match xc_view::read(alloc, lines) {
        Ok(view) => Ok(view),
        Err(Stop::File(fault)) => Err(Halt::Refused(refused_file(alloc, name, &fault)?)),
        Err(Stop::Memory) => Err(Halt::Memory),
    }
}

/// The view in a file of these bytes.
#[tactic(auto, using(crate::proofs::Reading::read_found, crate::proofs::Reading::not_found, crate::proofs::Reading::not_cut))]
fn view_in(alloc: Global, name: &str, bytes: &[u8]) -> Result<View, Halt>
    ensures read { IfOk result (λ x. IsRead (IsAccepted view_format) FILE_LIMIT bytes.now (view_of x)) }
    ensures stopped { IfErr result (IsUnread (IsFaultRefusal view_format name.now) FILE_LIMIT name.now bytes.now) }
{
    let lines = cut(alloc, name, bytes, FILE_LIMIT)?;
    read_view(alloc, name, &lines)
}

/// Opens a view. Neither its values nor its lattice are looked up.
pub fn open_view<S: Shelf>(alloc: Global, shelf: &mut S, name: &str) -> Result<View, Halt>
    ensures goes_on { IfOk result (λ v. GoesOn (Open Views name.now) (S.seen shelf.old) (S.seen shelf.new) (view_of v)) }
    ensures stops { IfErr result (Stops (Open Views name.now) (S.seen shelf.old) (S.seen shelf.new)) }
{
    let bytes = load(alloc, shelf, name, FILE_LIMIT)?;
    view_in(alloc, name, &bytes)
}
