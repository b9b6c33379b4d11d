ghost use Rattle.std.specs.Prelude.{◌≡◌};
ghost use Rattle.xc_sigmap_lines.specs.MapFiles.{is_late, may_follow, is_due};

use crate::draft::Draft;
use xc_sigmap_lines::Statement;

fn is_late(s: &Statement) -> bool
    ensures { result ≡ is_late s.now }
{
    matches!(
        s,
        Statement::Send(..) | Statement::Tell(..) | Statement::Stutter(..)
    )
}

/// Whether a statement may stand behind another.
fn may_follow(last: &Statement, s: &Statement) -> bool
    ensures { result ≡ may_follow last.now s.now }
{
    match last {
        Statement::Map(_) => matches!(s, Statement::Use(_)),
        Statement::Use(_) => matches!(s, Statement::Use(_) | Statement::Var(_)),
        Statement::Var(_) => matches!(s, Statement::Var(_) | Statement::Prop(_)) || is_late(s),
        Statement::Prop(_) => matches!(s, Statement::Prop(_)) || is_late(s),
        Statement::Send(..) | Statement::Tell(..) | Statement::Stutter(..) => is_late(s),
    }
}

/// Whether a statement is due after those of a draft.
#[tactic(auto, using(crate::proofs::Following::due_behind))]
pub(crate) fn is_due(draft: &Draft, s: &Statement) -> bool
    ensures { result ≡ is_due draft.now.statements s.now }
{
    match draft.statements.as_slice() {
        [] => matches!(s, Statement::Map(_)),
        [.., last] => may_follow(last, s),
    }
}
