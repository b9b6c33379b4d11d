ghost use Rattle.std.specs.Prelude.{IfOk, IfErr};
ghost use Rattle.xc_base.specs.Lines.{rows_in};
ghost use Rattle.xc_lattice.specs.LatticeFiles.{IsVerdict};
ghost use Rattle.xc_lattice.specs.LatticeFiles.Verdict.{Lawful};
ghost use Rattle.xc_lattice.specs.Values.{value_of, IsFault};

use crate::admit::admit;
use crate::fault::LatFault;
use crate::gather::gather;
use crate::lattice::Lattice;
use crate::rows::read_statements;
use std::alloc::Global;
use xc_base::Lines;

/// The lattice of a file that is cut into lines.
///
/// It fails with the file's first fault, or with the first law that the file's lattice breaks and the names of the
/// first elements that break it, or where there is no memory.
pub fn read(alloc: Global, lines: &Lines) -> Result<Lattice, LatFault>
    ensures ok { IfOk result (λ l. IsVerdict (rows_in lines.now) (Lawful (value_of l))) }
    ensures err { IfErr result (IsFault (rows_in lines.now)) }
{
    let statements = read_statements(alloc, lines)?;
    let draft = gather(alloc, statements.as_slice())?;
    admit(alloc, draft)
}
