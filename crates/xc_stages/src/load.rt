//! Loading a file, and cutting its text into lines.

ghost use Rattle.std.specs.Prelude.{◌<◌, IfOk, IfErr};
ghost use Rattle.xc_base.specs.Lines.{rows_in};
ghost use Rattle.xc_base.specs.Shelves.{IsLoaded};
ghost use Rattle.xc_course.specs.Loads.{TellsSame};
ghost use Rattle.xc_course.specs.Works.{LeavesTold};
ghost use Rattle.xc_stages.specs.Loaded.{IsCut, IsCutHalt, IsLoadHalt, CountsOn};

use std::alloc::Global;
use xc_base::{Lines, LoadFault, Shelf, cut_lines};
use xc_lines::{Halt, fault_read, refused_text};

/// How many bytes a file of today's kinds may have.
pub(crate) const FILE_LIMIT: usize = 1_048_576;

/// The bytes of a file, or the first ones where it has more than it may have.
pub(crate) fn load<S: Shelf>(
    alloc: Global,
    shelf: &mut S,
    name: &str,
    limit: usize,
) -> Result<Vec<u8>, Halt>
    requires { limit < 4294967296 }
    ensures loaded { IfOk result (λ v. IsLoaded (S.seen shelf.old).told name.now limit v.items) }
    ensures kept { LeavesTold (S.seen shelf.old).told (S.seen shelf.new).told result }
    ensures counts { CountsOn (S.seen shelf.old) (S.seen shelf.new) }
    ensures stopped { IfErr result (IsLoadHalt name.now (S.seen shelf.old) (S.seen shelf.new)) }
    ensures files { TellsSame (S.seen shelf.old).told (S.seen shelf.new).told }
{
    match shelf.load(alloc, name, limit) {
        Ok(bytes) => Ok(bytes),
        Err(LoadFault::Failed) => Err(Halt::ReadFault(fault_read(alloc, name)?)),
        Err(LoadFault::Memory) => Err(Halt::Memory),
    }
}

/// The lines of a file's text.
pub(crate) fn cut<'a>(
    alloc: Global,
    name: &str,
    bytes: &'a [u8],
    limit: usize,
) -> Result<Lines<'a>, Halt>
    requires { limit < 4294967296 }
    ensures cut { IfOk result (λ lines. IsCut limit bytes.now (rows_in lines)) }
    ensures stopped { IfErr result (IsCutHalt limit name.now bytes.now) }
{
    match cut_lines(alloc, bytes, limit) {
        Ok(lines) => Ok(lines),
        Err(fault) => Err(Halt::Refused(refused_text(alloc, name, fault)?)),
    }
}
