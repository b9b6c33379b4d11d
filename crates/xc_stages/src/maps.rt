//! Map files.

ghost use Rattle.std.specs.Prelude.{IfOk, IfErr};
ghost use Rattle.xc_base.specs.Formats.{IsAccepted};
ghost use Rattle.xc_base.specs.Lines.{rows_in};
ghost use Rattle.xc_sigmap_lines.specs.MapFiles.{map_format};
ghost use Rattle.xc_sigmap.specs.Maps.{value_of as map_of};
ghost use Rattle.xc_course.specs.FileKinds.{Maps};
ghost use Rattle.xc_course.specs.Trees.{Open};
ghost use Rattle.xc_course.specs.Works.{GoesOn, Stops};
ghost use Rattle.xc_stages.specs.Loaded.{IsFaultRefusal, IsRead, IsRefusalHalt, IsUnread};

use crate::load::{FILE_LIMIT, cut, load};
use std::alloc::Global;
use xc_base::{Lines, Shelf, Stop};
use xc_lines::{Halt, refused_file};
use xc_sigmap::SigMap;

/// The map of a file that is cut into lines.
fn read_map(alloc: Global, name: &str, lines: &Lines) -> Result<SigMap, Halt>
    ensures read { IfOk result (λ x. IsAccepted map_format (rows_in lines.now) (map_of x)) }
    ensures stopped { IfErr result (IsRefusalHalt (IsFaultRefusal map_format name.now (rows_in lines.now))) }
{
    match xc_sigmap::read(alloc, lines) {
        Ok(sigmap) => Ok(sigmap),
        Err(Stop::File(fault)) => Err(Halt::Refused(refused_file(alloc, name, &fault)?)),
        Err(Stop::Memory) => Err(Halt::Memory),
    }
}

/// The map in a file of these bytes.
#[tactic(auto, using(crate::proofs::Reading::read_found, crate::proofs::Reading::not_found, crate::proofs::Reading::not_cut))]
fn map_in(alloc: Global, name: &str, bytes: &[u8]) -> Result<SigMap, Halt>
    ensures read { IfOk result (λ x. IsRead (IsAccepted map_format) FILE_LIMIT bytes.now (map_of x)) }
    ensures stopped { IfErr result (IsUnread (IsFaultRefusal map_format name.now) FILE_LIMIT name.now bytes.now) }
{
    let lines = cut(alloc, name, bytes, FILE_LIMIT)?;
    read_map(alloc, name, &lines)
}

/// Opens a map.
pub fn open_map<S: Shelf>(alloc: Global, shelf: &mut S, name: &str) -> Result<SigMap, Halt>
    ensures goes_on { IfOk result (λ m. GoesOn (Open Maps name.now) (S.seen shelf.old) (S.seen shelf.new) (map_of m)) }
    ensures stops { IfErr result (Stops (Open Maps name.now) (S.seen shelf.old) (S.seen shelf.new)) }
{
    let bytes = load(alloc, shelf, name, FILE_LIMIT)?;
    map_in(alloc, name, &bytes)
}
