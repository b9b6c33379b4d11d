ghost use Rattle.std.specs.Prelude.{◌≡◌, length, filter};
ghost use Rattle.std.specs.Option.{is_some};
ghost use Rattle.xc_base.specs.Deciding.{excess_fault};
ghost use Rattle.xc_view.specs.ViewFiles.{prop_name, prop_names, command_name, command_names, excess_of};
ghost use Rattle.xc_view_lines.specs.Statements.{stated};
ghost use Rattle.xc_view.specs.Drafts.{all_stated};

use crate::draft::Draft;
use xc_base::{Counted, FileFault};
use xc_forms::{line_fault, var_fault};
use xc_view_lines::Statement;

fn prop_lines(statements: &[Statement]) -> usize
    ensures { result ≡ length (filter (λ s. is_some (prop_name (stated s))) statements.now) }
{
    statements
        .iter()
        .filter(|s| matches!(s, Statement::Prop(..)))
        .count()
}

#[tactic(auto, using(crate::proofs::Stated::props_counted))]
fn prop_count(draft: &Draft) -> usize
    ensures { result ≡ length (prop_names (all_stated draft.now.statements)) }
{
    prop_lines(draft.statements.as_slice())
}

fn command_lines(statements: &[Statement]) -> usize
    ensures { result ≡ length (filter (λ s. is_some (command_name (stated s))) statements.now) }
{
    statements
        .iter()
        .filter(|s| matches!(s, Statement::Command(..)))
        .count()
}

#[tactic(auto, using(crate::proofs::Stated::commands_counted))]
fn command_count(draft: &Draft) -> usize
    ensures { result ≡ length (command_names (all_stated draft.now.statements)) }
{
    command_lines(draft.statements.as_slice())
}

/// The limit that a statement passes after those of a draft.
pub(crate) fn limit_fault(draft: &Draft, s: &Statement, line: u32) -> Option<FileFault>
    ensures { result ≡ excess_fault line (excess_of (all_stated draft.now.statements) (stated s.now)) }
{
    match s {
        Statement::Var(domain) => var_fault(&draft.vars, domain.values.len(), line),
        Statement::Prop(..) => line_fault(prop_count(draft), 256, Counted::Props, line),
        Statement::Command(..) => line_fault(command_count(draft), 256, Counted::Commands, line),
        _ => None,
    }
}
