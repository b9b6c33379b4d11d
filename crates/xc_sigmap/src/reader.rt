ghost use Rattle.std.specs.Prelude.{IfOk, IfErr};
ghost use Rattle.xc_base.specs.Formats.{IsAccepted};
ghost use Rattle.xc_base.specs.Lines.{rows_in};
ghost use Rattle.xc_sigmap_lines.specs.MapFiles.{map_format};
ghost use Rattle.xc_sigmap.specs.Maps.{value_of, IsStop};

use crate::gather::gather;
use crate::rows::read_statements;
use crate::sigmap::SigMap;
use std::alloc::Global;
use xc_base::{Lines, Stop};

/// The map of a file that is cut into lines.
///
/// It fails with the file's first fault, or where there is no memory.
pub fn read(alloc: Global, lines: &Lines) -> Result<SigMap, Stop>
    ensures ok { IfOk result (λ m. IsAccepted map_format (rows_in lines.now) (value_of m)) }
    ensures err { IfErr result (IsStop (rows_in lines.now)) }
{
    let draft = read_statements(alloc, lines)?;
    let map = gather(alloc, draft)?;
    Ok(map)
}
