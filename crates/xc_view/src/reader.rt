ghost use Rattle.std.specs.Prelude.{◌≡◌, true, IfOk, IfErr};
ghost use Rattle.std.specs.List.{list_all};
ghost use Rattle.xc_base.specs.Canonical.{is_short};
ghost use Rattle.xc_base.specs.Formats.{IsAccepted};
ghost use Rattle.xc_base.specs.Lines.{rows_in};
ghost use Rattle.xc_view.specs.ViewFiles.{view_format};
ghost use Rattle.xc_view.specs.Views.{value_of, IsStop};
ghost use Rattle.xc_view.specs.Cut.{AreCut};
ghost use Rattle.xc_view.specs.Printing.{view_lines};

use crate::gather::gather;
use crate::rows::read_statements;
use crate::view::View;
use std::alloc::Global;
use xc_base::{Lines, Stop};

/// The view of a file that is cut into lines.
///
/// It fails with the file's first fault, or where there is no memory. No canonical line of the view is too long, where the lines
/// are those of a text without a fault.
pub fn read(alloc: Global, lines: &Lines) -> Result<View, Stop>
    ensures ok { IfOk result (λ v. IsAccepted view_format (rows_in lines.now) (value_of v)) }
    ensures err { IfErr result (IsStop (rows_in lines.now)) }
    ensures short { AreCut lines.now.source.now (rows_in lines.now)
        → IfOk result (λ v. list_all is_short (view_lines (value_of v)) ≡ true) }
{
    let draft = read_statements(alloc, lines)?;
    let view = gather(alloc, draft)?;
    Ok(view)
}
