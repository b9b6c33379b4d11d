ghost use Rattle.std.specs.Prelude.{◌≡◌, true, map, IfOk};
ghost use Rattle.std.specs.List.{list_any};
ghost use Rattle.std.specs.Option.{is_none};
ghost use Rattle.xc_base.specs.Deciding.{statement_fault};
ghost use Rattle.xc_forms.specs.Variables.{are_fit};
ghost use Rattle.xc_expr.specs.Written.{written, set};
ghost use Rattle.xc_expr.specs.Resolving.{resolved, resolved_action};
ghost use Rattle.xc_view.specs.ViewFiles.{is_due, is_init, is_repeated, is_unknown, view_format};
ghost use Rattle.xc_view_lines.specs.Statements.{stated};
ghost use Rattle.xc_view.specs.Drafts.{all_stated, is_command_of};

use crate::draft::Draft;
use crate::limits::limit_fault;
use std::alloc::Global;
use xc_base::{FileFault, Memory, Word};
use xc_expr::{Phrase, Setting, resolve_action, resolve_guard, sets_twice};
use xc_forms::{Vars, is_var_again};
use xc_view_lines::Statement;

/// Whether one of the statements says what the initial states are.
pub(crate) fn has_init(statements: &[Statement]) -> bool
    ensures { result ≡ list_any (λ s. is_init (stated s)) statements.now }
{
    statements.iter().any(|s| matches!(s, Statement::Init(_)))
}

fn is_command_of(s: &Statement, name: &Word) -> bool
    ensures { result ≡ is_command_of name.now (stated s.now) }
{
    match s {
        Statement::Command(other, ..) => name.as_str() == other.as_str(),
        _ => false,
    }
}

fn has_command(statements: &[Statement], name: &Word) -> bool
    ensures { result ≡ list_any (λ s. is_command_of name.now (stated s)) statements.now }
{
    statements.iter().any(|s| is_command_of(s, name))
}

#[tactic(auto, using(crate::proofs::Stated::any_stated, crate::proofs::Stated::command_named))]
fn is_repeated(draft: &Draft, s: &Statement) -> bool
    ensures { result ≡ is_repeated (all_stated draft.now.statements) (stated s.now) }
{
    let before = draft.statements.as_slice();
    match s {
        Statement::Var(domain) => is_var_again(draft.vars.as_slice(), domain),
        Statement::Init(_) => has_init(before),
        Statement::Command(name, _, _, action) => {
            has_command(before, name) || sets_twice(action.as_slice())
        }
        _ => false,
    }
}

fn is_unknown_guard(alloc: Global, guard: &Phrase, vars: &Vars) -> Result<bool, Memory>
    requires { are_fit vars.now ≡ true }
    ensures { IfOk result (λ b. b ≡ is_none (resolved vars.now (written guard.now))) }
{
    let guard = resolve_guard(alloc, guard, vars)?;
    Ok(guard.is_none())
}

fn is_unknown_action(alloc: Global, action: &[Setting], vars: &Vars) -> Result<bool, Memory>
    requires { are_fit vars.now ≡ true }
    ensures { IfOk result (λ b. b ≡ is_none (resolved_action vars.now (map set action.now))) }
{
    let action = resolve_action(alloc, action, vars)?;
    Ok(action.is_none())
}

#[tactic(auto, using(crate::proofs::Fair::fit_late))]
fn is_unknown(alloc: Global, draft: &Draft, s: &Statement) -> Result<bool, Memory>
    requires { is_due (all_stated draft.now.statements) (stated s.now) ≡ true }
    ensures { IfOk result (λ b. b ≡ is_unknown (all_stated draft.now.statements) (stated s.now)) }
{
    match s {
        Statement::Init(guard) | Statement::Prop(_, _, guard) => {
            is_unknown_guard(alloc, guard, &draft.vars)
        }
        Statement::Command(_, _, guard, action) => Ok(
            is_unknown_guard(alloc, guard, &draft.vars)?
                || is_unknown_action(alloc, action.as_slice(), &draft.vars)?,
        ),
        _ => Ok(false),
    }
}

/// The fault of a statement that is due after those of a draft and stands on that line.
#[tactic(auto, unfolding(xc_base::specs::Deciding::statement_fault))]
pub(crate) fn judge(
    alloc: Global,
    draft: &Draft,
    s: &Statement,
    line: u32,
) -> Result<Option<FileFault>, Memory>
    requires { is_due (all_stated draft.now.statements) (stated s.now) ≡ true }
    ensures { IfOk result
        (λ fault. fault ≡ statement_fault view_format (all_stated draft.now.statements) line (stated s.now)) }
{
    if is_repeated(draft, s) {
        Ok(Some(FileFault::Repeated { line }))
    } else if is_unknown(alloc, draft, s)? {
        Ok(Some(FileFault::Unknown { line }))
    } else {
        Ok(limit_fault(draft, s, line))
    }
}
