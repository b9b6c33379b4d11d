ghost use Rattle.std.specs.Prelude.{◌≡◌, map};
ghost use Rattle.std.specs.List.{list_any};
ghost use Rattle.xc_view.specs.ViewFiles.{is_behind_vars, is_due_late, is_due};
ghost use Rattle.xc_view_lines.specs.Statements.{stated};
ghost use Rattle.xc_view.specs.Drafts.{all_stated};

use crate::draft::Draft;
use xc_view_lines::Statement;

fn is_behind_vars(s: &Statement) -> bool
    ensures { result ≡ is_behind_vars (stated s.now) }
{
    matches!(
        s,
        Statement::Init(_) | Statement::Prop(..) | Statement::Command(..)
    )
}

/// Whether one of the statements stands behind those on variables.
fn is_past_vars(statements: &[Statement]) -> bool
    ensures { result ≡ list_any (λ s. is_behind_vars (stated s)) statements.now }
{
    statements.iter().any(|s| is_behind_vars(s))
}

#[tactic(auto, using(crate::proofs::Stated::any_stated))]
fn is_due_late(draft: &Draft, s: &Statement) -> bool
    ensures { result ≡ is_due_late (all_stated draft.now.statements) (stated s.now) }
{
    match s {
        Statement::View(_) | Statement::Lattice(_) => false,
        Statement::Var(_) => !is_past_vars(draft.statements.as_slice()),
        Statement::Init(_) | Statement::Prop(..) | Statement::Command(..) => {
            draft.vars.len() > 0
        }
    }
}

/// Whether a statement is due after those of a draft.
pub(crate) fn is_due(draft: &Draft, s: &Statement) -> bool
    ensures { result ≡ is_due (all_stated draft.now.statements) (stated s.now) }
{
    match draft.statements.as_slice() {
        [] => matches!(s, Statement::View(_)),
        [_] => matches!(s, Statement::Lattice(_)),
        _ => is_due_late(draft, s),
    }
}
