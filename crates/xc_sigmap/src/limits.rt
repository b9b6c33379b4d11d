ghost use Rattle.std.specs.Prelude.{◌≡◌};
ghost use Rattle.xc_base.specs.Deciding.{excess_fault};
ghost use Rattle.xc_sigmap_lines.specs.MapFiles.{excess_of};

use crate::draft::Draft;
use xc_base::{Counted, FileFault};
use xc_forms::{line_fault, var_fault};
use xc_sigmap_lines::Statement;

/// The limit that a statement passes after those of a draft.
pub(crate) fn limit_fault(draft: &Draft, s: &Statement, line: u32) -> Option<FileFault>
    ensures { result ≡ excess_fault line (excess_of draft.now.statements s.now) }
{
    let names = &draft.names;
    match s {
        Statement::Use(_) => line_fault(names.uses.len(), 8, Counted::Uses, line),
        Statement::Var(domain) => var_fault(&names.vars, domain.values.len(), line),
        Statement::Prop(_) => line_fault(names.props.len(), 256, Counted::Props, line),
        _ => None,
    }
}
